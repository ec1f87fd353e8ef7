//! Why a call gives no answer.
ghost use Rattle.std.specs.Prelude.{◌≡◌};
ghost use Rattle.cell_types.specs.Refusals.{refusal_of_fault, status_of, status_of_copy};
ghost use Rattle.cell_types.specs.declared.refusal.CopyRefusal.TheVariants as copies;
ghost use Rattle.cell_types.specs.declared.refusal.Fault.TheVariants as faults;
ghost use Rattle.cell_types.specs.declared.refusal.Refusal.TheVariants as refusals;

use crate::Cell;
use std::fmt;
use thiserror::Error;

/// A written cell that breaks a rule: the rule's number, the cell's, and what stands there.
#[derive(Clone, Copy, Debug, PartialEq, Eq)]
pub struct Evidence {
    pub rule: u8,
    pub cell: u32,
    pub found: Cell,
}

/// Why a call over a device gives no answer.
#[derive(Clone, Copy, Debug, PartialEq, Eq)]
pub enum Fault {
    /// A written cell breaks a rule.
    Tampered(Evidence),
    /// A read, a write or a sync of the device failed.
    Failed,
}

impl From<Evidence> for Fault {
    ghost from_gives = { λ evidence fault. fault ≡ faults.Tampered evidence };

    fn from(evidence: Evidence) -> Fault {
        Fault::Tampered(evidence)
    }
}

/// The fault of a cell that breaks a rule: it is named with what was read there.
pub fn breach(rule: u8, cell: u32, found: Cell) -> Fault
    ensures { result ≡ faults.Tampered (record { rule = rule; cell = cell; found = found }) }
{
    Fault::Tampered(Evidence { rule, cell, found })
}

/// No memory was to be had. Only the calls of `memory` make one.
#[derive(Clone, Copy, Debug, PartialEq, Eq)]
#[non_exhaustive]
pub struct NoMemory;

/// Why a command gives no answer. Prints as the line that a program shows for it.
#[derive(Clone, Copy, PartialEq, Eq, Error)]
pub enum Refusal {
    /// The words are no command. Which words are, the program says, and not this line.
    #[error("no such command")]
    Usage,
    /// A document with this identifier stands in this slot.
    #[error("identifier stands in slot {0}")]
    Duplicate(u32),
    /// The word is no identifier.
    #[error("bad identifier")]
    BadIdentifier,
    /// The source gave one byte more than a body or a script may have.
    #[error("input is too long")]
    TooLong,
    /// The document has so many distinct tags in this list, and 256 may be.
    #[error("list {list} gets {count} terms")]
    TooManyTerms { list: u16, count: u32 },
    /// The word of this number, from 1, does not hold exactly one term.
    #[error("word {0} is not one term")]
    BadWord(u32),
    /// The event of this number, from 1, is not of the grammar; 0 where the text is no script.
    #[error("script fault at event {0}")]
    BadScript(u32),
    /// So many cells are needed, and so many are free.
    #[error("needs {need} cells, {free} are free")]
    Full { need: u32, free: u32 },
    /// Each slot is used.
    #[error("no slot is free")]
    SlotsFull,
    /// Each bucket on the identifier's path is written.
    #[error("the path of the identifier is full")]
    PathFull,
    /// A written cell breaks a rule.
    #[error("tampered: rule {} at cell {}: {}", .0.rule, .0.cell, .0.found)]
    Tampered(Evidence),
    /// A call of the device failed.
    #[error("device fault")]
    DeviceFault,
    /// A call of the source failed.
    #[error("source fault")]
    SourceFault,
    /// A call of the sink failed.
    #[error("sink fault")]
    SinkFault,
    /// No memory was to be had. It comes of a `NoMemory` alone.
    #[error("out of memory")]
    #[non_exhaustive]
    NoMemory,
    /// Cell 0 is blank.
    #[error("not formatted")]
    NotFormatted,
    /// Cell 0 is written and no volume cell.
    #[error("not a volume: {0}")]
    NotAVolume(Cell),
    /// The volume cell states so many cells, and the device has so many.
    #[error("volume states {stated} cells, device has {real}")]
    WrongSize { stated: u32, real: u32 },
    /// This cell, the least written one, keeps the device from being formatted.
    #[error("cell {0} is written")]
    NotBlank(u32),
    /// The device has no room for so many slots and lists.
    #[error("device is too small")]
    TooSmall,
    /// No document has the identifier.
    #[error("absent")]
    Absent,
    /// The volume stamps its documents, and no stamp is given.
    #[error("a stamp is needed")]
    StampNeeded,
    /// A stamp is given, and the volume stamps no documents.
    #[error("the volume takes no stamps")]
    StampUnused,
    /// The stamp that is given is not past the greatest one of the volume.
    #[error("stamp {given} is not past {last}")]
    StampTooEarly { given: u32, last: u32 },
    /// The volume stamps no documents, so none can be found by its stamp.
    #[error("the volume has no stamps")]
    NoStamps,
    /// The receipt would have so many cells, and 1,000,000 may be.
    #[error("receipt has {0} cells")]
    ReceiptTooLong(u32),
    /// The line of this number, from 1, is the first that is not of a receipt's form.
    #[error("receipt fault at line {0}")]
    BadReceipt(u32),
    /// This cell of the receipt, the least such one, stands otherwise on the device.
    #[error("cell {0} differs")]
    CellDiffers(u32),
    /// The cells of the receipt show no document in this slot.
    #[error("receipt shows no document in slot {0}")]
    NotShown(u32),
}

/// Why a copy of a volume onto another device is not made. Prints as the line that a program shows for it.
#[derive(Clone, Copy, Error)]
pub enum CopyRefusal {
    /// The words are no copy.
    #[error("{}", Refusal::Usage)]
    Usage,
    /// No memory was to be had. It comes of a `NoMemory` alone.
    #[error("{}", Refusal::NoMemory)]
    #[non_exhaustive]
    NoMemory,
    /// A call of the sink failed.
    #[error("{}", Refusal::SinkFault)]
    SinkFault,
    /// The volume that is copied refuses.
    #[error("from: {0}")]
    From(Refusal),
    /// The volume that is copied to refuses.
    #[error("to: {0}")]
    To(Refusal),
    /// The target is a volume of other slots or lists, or of another version; this is its volume cell.
    #[error("target is another volume: {0}")]
    OtherVolume(Cell),
    /// The documents of these slots are the first pair that differs.
    #[error("slot {old} differs from slot {new} of the target")]
    Differs { old: u32, new: u32 },
    /// The target has a document, in this slot, past all those of the volume that is copied.
    #[error("target has a further document in slot {0}")]
    Longer(u32),
}

// Each is shown as its line, which has each field. A derived form, with a step for each, takes long to prove.
impl fmt::Debug for Refusal {
    fn fmt<W: fmt::Write>(&self, f: &mut fmt::Formatter<W>) -> fmt::Result {
        fmt::Display::fmt(self, f)
    }
}

impl fmt::Debug for CopyRefusal {
    fn fmt<W: fmt::Write>(&self, f: &mut fmt::Formatter<W>) -> fmt::Result {
        fmt::Display::fmt(self, f)
    }
}

impl From<NoMemory> for Refusal {
    ghost from_gives = { λ _ refusal. refusal ≡ refusals.NoMemory };

    fn from(_: NoMemory) -> Refusal {
        Refusal::NoMemory
    }
}

impl From<NoMemory> for CopyRefusal {
    ghost from_gives = { λ _ refusal. refusal ≡ copies.NoMemory };

    fn from(_: NoMemory) -> CopyRefusal {
        CopyRefusal::NoMemory
    }
}

impl From<Fault> for Refusal {
    ghost from_gives = { λ fault refusal. refusal ≡ refusal_of_fault fault };

    fn from(fault: Fault) -> Refusal {
        match fault {
            Fault::Tampered(evidence) => Refusal::Tampered(evidence),
            Fault::Failed => Refusal::DeviceFault,
        }
    }
}

impl Refusal {
    /// What lacked, of a refusal that says so.
    pub fn lack(&self) -> NoMemory
        requires { self.now ≡ refusals.NoMemory }
    {
        NoMemory
    }

    /// The status that a program ends with, 1 to 11.
    pub fn status(&self) -> u8
        ensures { result ≡ status_of self.now }
    {
        match self {
            Refusal::Usage => 1,
            Refusal::Duplicate(_)
            | Refusal::BadIdentifier
            | Refusal::TooLong
            | Refusal::TooManyTerms { .. }
            | Refusal::BadWord(_)
            | Refusal::BadScript(_)
            | Refusal::StampNeeded
            | Refusal::StampUnused
            | Refusal::StampTooEarly { .. }
            | Refusal::BadReceipt(_) => 2,
            Refusal::Full { .. }
            | Refusal::SlotsFull
            | Refusal::PathFull
            | Refusal::ReceiptTooLong(_) => 3,
            Refusal::Tampered(_) => 4,
            Refusal::DeviceFault => 5,
            Refusal::SourceFault => 6,
            Refusal::SinkFault => 7,
            Refusal::NoMemory => 8,
            Refusal::NotFormatted
            | Refusal::NotAVolume(_)
            | Refusal::WrongSize { .. }
            | Refusal::NotBlank(_)
            | Refusal::TooSmall
            | Refusal::NoStamps => 9,
            Refusal::Absent => 10,
            Refusal::CellDiffers(_) | Refusal::NotShown(_) => 11,
        }
    }
}

impl CopyRefusal {
    /// The status that a program ends with, 1 to 11.
    pub fn status(&self) -> u8
        ensures { result ≡ status_of_copy self.now }
    {
        match self {
            CopyRefusal::Usage => Refusal::Usage.status(),
            CopyRefusal::SinkFault => Refusal::SinkFault.status(),
            CopyRefusal::NoMemory => Refusal::NoMemory.status(),
            CopyRefusal::From(refusal) | CopyRefusal::To(refusal) => refusal.status(),
            CopyRefusal::OtherVolume(_) | CopyRefusal::Differs { .. } | CopyRefusal::Longer(_) => 9,
        }
    }
}
