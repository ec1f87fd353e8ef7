//! That whatever a crash leaves of an ingest, at any moment, settling makes a settled volume of it, with no alarm: one
//! with the documents that there were, or with these and the new one.
//!
//! An ingest settles the volume, looks at it, plans the document's index, and puts the plan in five phases, each of
//! which is sure before the next begins. What is left of it, from a steady device on and where nobody else writes:
//!
//!     a crash leaves                         and settling then            which holds
//!     what settling had left                 as it makes of that          the old documents
//!     the reserve cell, and no outcome       gives the slot up            the old documents
//!     the commit cell, and some targets      carries the journal out      these, and the new one
//!     the done cell                          finds nothing to do          these, and the new one
//!
//! So the device is steady behind an ingest, whatever this answers (`ingest_stays_steady`). Where it ends well the
//! volume is settled, all of it is sure, and it has one document more (`ingest_adds_one`). Where it is refused with no
//! fault of the device, the documents are as they were (`refused_ingest_keeps`); behind a fault the new document may
//! stand or not, as the device says. And no tampering is named (`ingest_names_none`). Where somebody else writes,
//! nothing is said.
//!
//! There is no code here, only laws. Stands on `ingest_engine`, which says what an ingest does; on `plan_laws`, by
//! which what it plans is well made; on `ingest_laws`, by which a well made plan that is cut short leaves a sound
//! volume. Begin with `specs/Steadiness.antt`; `specs/Laws.antt` has the laws' sentences.
//!
//! What is said of settling alone, on which all of this rests, stands in `settling_laws.rt`: that whatever a crash
//! leaves of a device, at any moment, settling makes a settled volume of it, with no alarm.
#![tactic(auto)]

mod laws;
mod settling_laws;

pub use laws::{ingest_adds_one, ingest_names_none, ingest_stays_steady, refused_ingest_keeps};
pub use settling_laws::{
    looking_ends_as, looking_finds_none, looking_stays_steady, settled_was_sound, settling_ends_as,
    settling_names_none, settling_stays_steady, sound_is_unbroken, sure_is_steady,
    whole_from_the_start,
};
