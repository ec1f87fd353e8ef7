//! What an event is answered.
ghost use Rattle.std.specs.Prelude.{◌≡◌};
ghost use Rattle.script_replies.specs.Lines.{reply_status};

use cell_types::{Cell, Refusal};
use document_store::Text;
use record_query::Match;
use recovery_engine::Step;
use script_events::Sequence;
use volume_audit::AuditReport;
use worm_memory::Crash;

/// The reply to an event.
#[derive(Drop)]
pub enum Reply {
    /// The device is a volume now.
    Formatted,
    /// The document stands in this slot.
    Acknowledged(u32),
    /// These documents have the terms.
    Found(Sequence<Match>),
    /// The document with the identifier stands in this slot, and this is its body.
    Body { slot: u32, body: Text },
    /// The volume breaks no rule.
    Sound(AuditReport),
    /// The volume is settled, by this step.
    Settled(Step),
    /// Somebody else wrote the cell.
    ForeignDone,
    /// The cell was written before, with this value.
    ForeignTaken(Cell),
    /// A crash took what was not kept.
    Crashed(Crash),
    /// The command gave no answer.
    Refused(Refusal),
}

impl Reply {
    /// The status of the event: 0 for an answer, and for a refusal its own, 1 to 11.
    pub fn status(&self) -> u8
        ensures { result ≡ reply_status self.now }
    {
        match self {
            Reply::Refused(refusal) => refusal.status(),
            _ => 0,
        }
    }
}
