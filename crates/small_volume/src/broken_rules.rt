//! Which rule is broken where somebody else wrote into the small volume. Most of the foreign cells are well-formed
//! where they stand, and only what stands around them breaks a rule.
ghost use Rattle.std.specs.Prelude.{codes, [], ◌∷◌};
ghost use Rattle.cell_types.specs.declared.record_cell.RecordCell.TheVariants.{Abandon, Done, Jump, Posting, Reserve, Stamp};
ghost use Rattle.volume_meaning.specs.Documents.{Stands};
ghost use Rattle.volume_meaning.specs.Volumes.{Holds};
ghost use Rattle.tamper_rules.specs.Rules.{IsBroken};
ghost use Rattle.tamper_rules.specs.declared.numbers.TheConstants.{BLOCK_OUT_OF_ORDER, DONE_CELL, LOST_POINTER, OUTCOME_CELL, RESERVE_CELL, STRAY_CELL};
ghost use Rattle.small_volume.specs.ForeignCells.{abandon_cell, done_cell_1, early_reserve_cell, late_posting_cell, second_slot_cells, stray_cell};
ghost use Rattle.small_volume.specs.Images.{with_cell, with_cells};
ghost use Rattle.small_volume.specs.SmallVolume.{hello_tag, small_image};
ghost use Rattle.small_volume.specs.StampedVolume.{stamp_cell};

/// A reserve cell of slot 2, where slot 1 has none.
pub fn a_reserve_cell_behind_a_free_slot_breaks_rule_1()
    ensures holds { Holds (with_cell small_image 12 early_reserve_cell) 12 (Reserve 584 1) }
    ensures broken { IsBroken 1000 (with_cell small_image 12 early_reserve_cell) RESERVE_CELL 12 }
{}

/// An abandon cell of slot 1, where this has no reserve cell.
pub fn an_outcome_without_a_reserve_cell_breaks_rule_2()
    ensures holds { Holds (with_cell small_image 9 abandon_cell) 9 Abandon }
    ensures broken { IsBroken 1000 (with_cell small_image 9 abandon_cell) OUTCOME_CELL 9 }
{}

/// A done cell of slot 1, where this has no commit cell.
pub fn a_done_cell_without_a_commit_cell_breaks_rule_3()
    ensures holds { Holds (with_cell small_image 10 done_cell_1) 10 (Done 1) }
    ensures broken { IsBroken 1000 (with_cell small_image 10 done_cell_1) DONE_CELL 10 }
{}

/// A cell of the pool, where the reservations end before it.
pub fn a_written_cell_behind_the_edge_breaks_rule_7()
    ensures { IsBroken 1000 (with_cell small_image 700 stray_cell) STRAY_CELL 700 }
{}

/// A stamp in the spare cell of slot 0, though a volume of version 1 has none.
pub fn a_stamp_where_none_belongs_breaks_rule_7()
    ensures holds { Holds (with_cell small_image 7 stamp_cell) 7 (Stamp 1000) }
    ensures broken { IsBroken 1000 (with_cell small_image 7 stamp_cell) STRAY_CELL 7 }
{}

/// A posting at place 248 of a block, which is behind the pointers.
pub fn a_posting_behind_the_pointers_breaks_rule_8()
    ensures holds { Holds (with_cell small_image 284 late_posting_cell) 284 (Posting 0 0 hello_tag) }
    ensures broken { IsBroken 1000 (with_cell small_image 284 late_posting_cell) BLOCK_OUT_OF_ORDER 284 }
{}

/// A pointer that leads to cell 0, though the journal of a slot with a document names it.
pub fn a_pointer_to_a_cell_before_the_pool_breaks_rule_10()
    ensures stands { Stands 1000 (with_cells small_image second_slot_cells) 1 (codes "b") [] }
    ensures holds { Holds (with_cells small_image second_slot_cells) 164 (Jump 0) }
    ensures broken { IsBroken 1000 (with_cells small_image second_slot_cells) LOST_POINTER 164 }
{}
