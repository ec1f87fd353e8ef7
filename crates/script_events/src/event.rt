//! What a script asks for.
use crate::Sequence;
use cell_types::Cell;
use document_store::Text;
use word_reader::Term;
use worm_memory::Moment;

/// A foreign write, before the call that a moment names.
#[derive(Clone, Copy, Debug, PartialEq, Eq)]
pub struct Timed {
    pub before: Moment,
    pub at: u32,
    pub cell: Cell,
}

/// What befalls the calls of one command.
#[derive(Drop)]
pub struct Schedule {
    /// The moment after which each call fails.
    pub stop: Option<Moment>,
    /// The moments whose calls fail.
    pub fail: Sequence<Moment>,
    /// What others write before which calls, in order.
    pub foreign: Sequence<Timed>,
}

/// One event of a script.
#[derive(Drop)]
pub enum Event {
    /// Make the device a volume of this version, which is the script's.
    Format {
        slots: u32,
        lists: u16,
        version: u8,
        plan: Schedule,
    },
    /// Take a document in, with this stamp, in seconds. In a volume of version 3 each document needs one, and in those of
    /// earlier versions none may have one.
    Ingest {
        id: Text,
        stamp: Option<u32>,
        body: Text,
        plan: Schedule,
    },
    /// Find the documents that have all of these terms.
    Find {
        terms: Sequence<Term>,
        plan: Schedule,
    },
    /// Look an identifier up.
    Lookup {
        id: Text,
        plan: Schedule,
    },
    /// Audit the volume.
    Audit {
        plan: Schedule,
    },
    /// Settle the volume.
    Recover {
        plan: Schedule,
    },
    /// Somebody else writes a cell, between two commands.
    Foreign {
        at: u32,
        cell: Cell,
    },
    /// A crash takes each cell that is not sure and not kept.
    Crash {
        keep: Sequence<u32>,
    },
}

/// A device of so many cells, and what befalls it, in order.
#[derive(Drop)]
pub struct Script {
    pub cells: u32,
    pub events: Sequence<Event>,
}
