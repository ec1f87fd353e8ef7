//! Two small volumes, byte for byte, on which the definitions of volumes, slots, rules, settled and kept are tried. No
//! function does anything; its contract is a sentence about these bytes.
//!
//! The **small volume** has 8 slots, 2 lists, 1,000 cells, and the document `a` with the body `hello world`, with its
//! index:
//!
//!     cell   0        volume    8 slots, 2 lists, 1,000 cells
//!            1-3      blank
//!            4        reserve   580, 4 cells             \
//!            5        commit    13 bytes, journal 3       |  slot 0
//!            6        done      slot 0                    |
//!            7        spare, blank                       /
//!            8-35     slots 1 to 7, blank
//!            36       posting   key 0, last 1, `hello`   \   first block of list 0:
//!            37       posting   key 1, last 1, `world`    |  entries 36-163, pointers 164-283,
//!            38-291   blank                              /   and 284-291 stay blank
//!            292-547  first block of list 1, blank
//!            560      bucket    slot 0, `a`                  bucket 12 of the root node, 548-579
//!            580      content   01 61 `hello world`      \
//!            581-583  journal   copies of 36, 37, 560     |  pool, whose edge is at 584
//!            584-999  blank                              /
//!
//! It is settled: each rule is kept at each written cell. Then somebody else writes into it, and a rule is broken:
//!
//! | Cell | What is written there | Rule | Why |
//! |---|---|---|---|
//! | 12 | reserve cell of slot 2, 1 cell from 584 on | 1 | slot 1, before it, has not ended |
//! | 9 | abandon cell of slot 1 | 2 | slot 1 has no reserve cell |
//! | 10 | done cell of slot 1 | 3 | slot 1 has no commit cell |
//! | 7 | stamp of slot 0 | 7 | the volume is of version 1, and has no stamps |
//! | 700 | sixteen bytes ff | 7 | it lies behind the edge |
//! | 284 | posting, key 0, last 0, `hello` | 8 | it stands behind the pointers of its block |
//! | 164 | jump to cell 0, which the journal of a whole slot 1 names | 10 | cell 0 lies before the pool |
//!
//! The **stamped volume** is of version 3. It has 8 slots, 2 lists, 1,200 cells, and the document `a` with no body and
//! the stamp 1000. Its time list begins behind the root node, and its pool behind that:
//!
//!     cell   0        volume    version 3, 8 slots, 2 lists, 1,200 cells
//!            1-3      blank
//!            4        reserve   836, 3 cells             \
//!            5        commit    2 bytes, journal 2        |  slot 0
//!            6        done      slot 0                    |
//!            7        stamp     1000                     /
//!            8-35     slots 1 to 7, blank
//!            36-547   first blocks of lists 0 and 1, blank
//!            560      bucket    slot 0, `a`                  bucket 12 of the root node, 548-579
//!            580      posting   key 1000, last 255, slot 0   first block of the time list, 580-835
//!            836      content   01 61                    \
//!            837-838  journal   copies of 560, 580        |  pool, whose edge is at 839
//!            839-1199 blank                              /
//!
//! It is settled, too, and its document is kept. Somebody else reserves cell 839 for slot 1, and writes a stamp into
//! cell 11, its spare cell:
//!
//! | Stamp of slot 1 | Rule 7 | Why |
//! |---|---|---|
//! | 1000 | is broken | it is that of slot 0, which is done |
//! | 5 | is broken | it is less than that |
//! | 1001 | is kept | it is greater |
//!
//! The cells are written out in `specs/`, and no definition of a record made them. Nothing is said of the other rules
//! as broken ones, nor of a third volume.
//!
//! Stands on `volume_meaning` and `tamper_rules`, whose words it tries. Begin with
//! `specs/SmallVolume.antt`; the other volume is in `specs/StampedVolume.antt`.
#![tactic(auto)]

mod broken_rules;
mod foreign_cells;
mod kept_rules;
mod stamped_volume;
mod volume_laws;

pub use broken_rules::{
    a_done_cell_without_a_commit_cell_breaks_rule_3,
    a_pointer_to_a_cell_before_the_pool_breaks_rule_10,
    a_posting_behind_the_pointers_breaks_rule_8, a_reserve_cell_behind_a_free_slot_breaks_rule_1,
    a_stamp_where_none_belongs_breaks_rule_7, a_written_cell_behind_the_edge_breaks_rule_7,
    an_outcome_without_a_reserve_cell_breaks_rule_2,
};
pub use foreign_cells::{a_foreign_cell_changes_one_blank_cell, foreign_cells_leave_written_cells};
pub use kept_rules::{the_small_volume_is_settled, the_small_volume_keeps_rules_1_2_3_and_8};
pub use stamped_volume::{
    a_later_stamp_keeps_rule_7, an_earlier_stamp_breaks_rule_7, the_same_stamp_breaks_rule_7,
    the_stamped_document_is_kept, the_stamped_document_stands, the_stamped_image_is_a_volume,
    the_stamped_slot_is_done, the_stamped_volume_is_settled, the_time_posting_has_a_trail,
};
pub use volume_laws::{
    a_volume_cell_alone_is_settled, slot_0_is_done, slot_1_is_a_horizon_and_cell_584_an_edge,
    the_document_stands, the_image_is_a_volume,
};
