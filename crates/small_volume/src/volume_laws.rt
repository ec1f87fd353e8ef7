//! What the small volume is, and what its volume cell alone is.
ghost use Rattle.std.specs.Prelude.{codes, [], ◌∷◌};
ghost use Rattle.volume_meaning.specs.Documents.{AreDocuments, Stands};
ghost use Rattle.volume_meaning.specs.Slots.{IsDone, IsEdge, IsHorizon};
ghost use Rattle.volume_meaning.specs.Volumes.{IsVolume};
ghost use Rattle.tamper_rules.specs.Settling.{Settled};
ghost use Rattle.small_volume.specs.SmallVolume.{formatted_image, small_image, small_layout};

/// The small image is a volume of 8 slots, 2 lists and 1,000 cells.
pub fn the_image_is_a_volume()
    ensures { IsVolume 1000 small_image small_layout }
{}

/// Slot 0 is done: 4 cells from cell 580 on, 13 stored bytes, a journal of 3 cells.
pub fn slot_0_is_done()
    ensures { IsDone small_layout small_image 0 580 4 13 3 }
{}

/// The document `a` with the body `hello world` stands in slot 0.
pub fn the_document_stands()
    ensures { Stands 1000 small_image 0 (codes "a") (codes "hello world") }
{}

/// Slot 1 is free and slot 0 taken, and the reservations end at cell 584.
pub fn slot_1_is_a_horizon_and_cell_584_an_edge()
    ensures horizon { IsHorizon small_layout small_image small_image 1 }
    ensures edge { IsEdge small_layout small_image small_image 584 }
{}

/// The sixteen bytes of the volume cell alone are a settled volume that has no document.
pub fn a_volume_cell_alone_is_settled()
    ensures settled { Settled 1000 formatted_image }
    ensures documents { AreDocuments 1000 formatted_image [] }
{}
