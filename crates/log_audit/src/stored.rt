//! Slots that hold documents.
ghost use Rattle.std.specs.Prelude.{◌≡◌, ℕ, IfSome, IfNone};
ghost use Rattle.volume_meaning.specs.Slots.{Stores};
ghost use Rattle.log_audit.specs.KeptVolumes.{image_in};
ghost use Rattle.log_audit.specs.Stored.{IsStored};

use crate::ended::EndedSlot;
use crate::kept_volume::KeptVolume;
use commit_record::document_cells;

/// A slot that is done. `start` is the first cell that it reserves and `length` how many they are: the blocks first,
/// then the document of `bytes` stored bytes, and last the journal of `journal` cells.
#[derive(Clone, Copy)]
pub struct StoredSlot {
    pub slot: u32,
    pub start: u32,
    pub length: u32,
    pub bytes: u32,
    pub journal: u32,
}

impl StoredSlot {
    ghost use Rattle.std.specs.Prelude.{◌≤◌};
    ghost use Rattle.volume_meaning.specs.Documents.{document_at};
    ghost use Rattle.tamper_rules.specs.Journals.{journal_at};
    ghost use Rattle.log_audit.specs.Stored.{FitsInSlot};

    /// The first cell of its journal.
    pub fn journal_at(&self) -> u32
        requires { FitsInSlot self.now }
        ensures at { result ≡ journal_at self.now.start self.now.length self.now.journal }
        ensures from { self.now.start ≤ result }
    {
        self.start + self.length - self.journal
    }

    /// The first cell of its document, and the cell behind its blocks.
    pub fn document_at(&self) -> u32
        requires { FitsInSlot self.now }
        ensures at { result ≡ document_at self.now.start self.now.length self.now.bytes self.now.journal }
        ensures from { self.now.start ≤ result }
    {
        self.start + self.length - self.journal - document_cells(self.bytes)
    }
}

impl KeptVolume {
    /// A slot of the log, if it is done: no slot is merely committed there.
    pub fn stored_slot(&self, slot: u32) -> Option<StoredSlot>
        ensures some { IfSome result (λ s. IsStored self.now.geometry (image_in self.now) s) }
        ensures same { IfSome result (λ s. s.slot ≡ slot) }
        ensures none { IfNone result ((start length bytes journal : ℕ)
            → Stores self.now.geometry (image_in self.now) slot start length bytes journal → ⊥) }
    {
        let Some(ended) = self.log.at(slot) else {
            return None;
        };
        match ended {
            EndedSlot::Done {
                start,
                length,
                bytes,
                journal,
            } => Some(StoredSlot {
                slot,
                start,
                length,
                bytes,
                journal,
            }),
            EndedSlot::Abandoned { .. } => None,
        }
    }
}
