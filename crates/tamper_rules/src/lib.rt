//! The fifteen rules that show tampering, and when a volume is settled or sound.
//!
//! Each rule says what must hold at written cells of one kind (`IsMet`). If it does not hold at such a
//! cell, the rule is **broken** there (`IsBroken`), and the cell is evidence of tampering. Take the volume
//! of 8 slots and 2 lists on 1,000 cells with one document, in slot 0. Its cells end before 584, which is
//! the edge:
//!
//!     somebody writes              which is              breaks       because
//!     cell 12, a reserve cell      slot 2's              rule 1       slot 1 has not ended
//!     cell 9, an abandon cell      slot 1's outcome      rule 2       slot 1 reserves nothing
//!     cell 700, anything           a pool cell           rule 7       it lies past the edge
//!     cell 284, a posting          place 248 of list 0   rules 7, 8   no journal names it; the pointers end before it
//!
//! A volume is **settled** if no rule is broken and each slot below the horizon is abandoned or done. A
//! crash may leave the last slot unfinished. Settling then gives it up if it is reserved, and carries out
//! its journal if it is committed. A volume is **sound** if settling makes a settled image of it (`After`).
//!
//! The laws say four things. A settled image has one horizon and one edge. Each of its documents is kept.
//! Settling has only one result. If it is cut short anywhere, settling again leads to that same result.
//!
//! Apart from the laws, the only code is the numbers of the rules. Stands on `volume_meaning`. Begin with
//! `specs/Journals.antt`, then `Rules` and `Settling`. `SettlingLaws` has the laws as sentences.
#![tactic(auto)]

mod laws;
mod numbers;

pub use laws::{
    after_is_one, documents_exist, edge_is_one, formatted_is_settled, held_grows, held_is_one,
    settled_is_unbroken, settled_keeps, settling_goes_on, steady_holds_two,
};
pub use numbers::{
    BLOCK_OUT_OF_ORDER, BROKEN_DOCUMENT, BROKEN_JOURNAL, DONE_CELL, FAKE_BUCKET, FAKE_POSTING,
    LOST_CHILD, LOST_POINTER, MISSING_PATH, MISSING_TRAIL, OTHER_TARGET, OUTCOME_CELL,
    RESERVE_CELL, STRAY_CELL, UNTILED_BLOCKS,
};
