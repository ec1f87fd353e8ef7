//! What the stamped volume is, that it is settled and its document kept, and which stamps rule 7 refuses.
ghost use Rattle.std.specs.Prelude.{codes, [], ◌∷◌, Some};
ghost use Rattle.cell_types.specs.declared.record_cell.RecordCell.TheVariants.{Stamp};
ghost use Rattle.volume_meaning.specs.Documents.{AreDocuments, Stands};
ghost use Rattle.volume_meaning.specs.Slots.{HasStamp, IsDone, IsStampOf};
ghost use Rattle.volume_meaning.specs.Volumes.{Holds, IsVolume};
ghost use Rattle.volume_meaning.specs.Blocks.{Trail};
ghost use Rattle.volume_meaning.specs.Keeping.{Kept};
ghost use Rattle.volume_meaning.specs.Postings.{IsPostingOf, time_posting};
ghost use Rattle.tamper_rules.specs.Rules.{IsBroken, IsMet, StrayCells};
ghost use Rattle.tamper_rules.specs.Settling.{Settled};
ghost use Rattle.tamper_rules.specs.declared.numbers.TheConstants.{STRAY_CELL};
ghost use Rattle.small_volume.specs.ForeignCells.{earlier_stamp_cell, later_stamp_cell, next_slot_cells, same_stamp_cell};
ghost use Rattle.small_volume.specs.Images.{with_cells};
ghost use Rattle.small_volume.specs.StampedVolume.{stamped_document, stamped_image, stamped_layout};

/// The stamped image is a volume of version 3, with 8 slots, 2 lists and 1,200 cells.
pub fn the_stamped_image_is_a_volume()
    ensures { IsVolume 1200 stamped_image stamped_layout }
{}

/// Slot 0 is done: 3 cells from cell 836 on, 2 stored bytes, a journal of 2 cells. Its stamp is 1000.
pub fn the_stamped_slot_is_done()
    ensures done { IsDone stamped_layout stamped_image 0 836 3 2 2 }
    ensures spare_cell { HasStamp stamped_image 0 1000 }
    ensures stamp { IsStampOf stamped_layout stamped_image 0 (Some 1000) }
{}

/// The document `a` with no body stands in slot 0.
pub fn the_stamped_document_stands()
    ensures { Stands 1200 stamped_image 0 (codes "a") [] }
{}

/// The time posting of the stamp 1000 is one of slot 0's postings, in the time list, and has a trail there: it stands
/// in cell 580, the first of the list.
pub fn the_time_posting_has_a_trail()
    ensures posting { IsPostingOf stamped_layout (Some 1000) [] 0 2 (time_posting 0 1000) }
    ensures trail { Trail stamped_image 836 1200 580 (time_posting 0 1000) 580 }
{}

/// The document is kept: its time posting, which is its only one, has a trail, and it has a hash trail. This rests on
/// the digest of its identifier, which is computed.
pub fn the_stamped_document_is_kept()
    ensures { Kept 1200 stamped_image (stamped_document ∷ []) }
{}

/// Each rule is kept at each written cell, so the stamped volume is settled, and it has its one document.
pub fn the_stamped_volume_is_settled()
    ensures settled { Settled 1200 stamped_image }
    ensures documents { AreDocuments 1200 stamped_image (stamped_document ∷ []) }
{}

/// The stamp of a second slot that is the same as that of slot 0, which is done.
pub fn the_same_stamp_breaks_rule_7()
    ensures holds { Holds (with_cells stamped_image (next_slot_cells same_stamp_cell)) 11 (Stamp 1000) }
    ensures broken { IsBroken 1200 (with_cells stamped_image (next_slot_cells same_stamp_cell)) STRAY_CELL 11 }
{}

/// The stamp of a second slot that is less than that of slot 0.
pub fn an_earlier_stamp_breaks_rule_7()
    ensures holds { Holds (with_cells stamped_image (next_slot_cells earlier_stamp_cell)) 11 (Stamp 5) }
    ensures broken { IsBroken 1200 (with_cells stamped_image (next_slot_cells earlier_stamp_cell)) STRAY_CELL 11 }
{}

/// The stamp of a second slot that is one second greater keeps the rule.
pub fn a_later_stamp_keeps_rule_7()
    ensures holds { Holds (with_cells stamped_image (next_slot_cells later_stamp_cell)) 11 (Stamp 1001) }
    ensures kept { IsMet stamped_layout (with_cells stamped_image (next_slot_cells later_stamp_cell)) StrayCells 11 }
{}
