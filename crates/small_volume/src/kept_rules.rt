//! Which rules the small volume keeps, as it is.
ghost use Rattle.std.specs.Prelude.{[], ◌∷◌};
ghost use Rattle.volume_meaning.specs.Documents.{AreDocuments};
ghost use Rattle.tamper_rules.specs.Settling.{Settled};
ghost use Rattle.tamper_rules.specs.Rules.{DoneCells, Entries, IsMet, OutcomeCells, ReserveCells};
ghost use Rattle.small_volume.specs.SmallVolume.{small_document, small_image, small_layout};

/// At its reserve, commit and done cell, and at its first posting, the small volume keeps the rules that are broken
/// by foreign cells of these kinds.
pub fn the_small_volume_keeps_rules_1_2_3_and_8()
    ensures reserve_cell { IsMet small_layout small_image ReserveCells 4 }
    ensures outcome_cell { IsMet small_layout small_image OutcomeCells 5 }
    ensures done_cell { IsMet small_layout small_image DoneCells 6 }
    ensures first_entry { IsMet small_layout small_image Entries 36 }
{}

/// Each rule is kept at each written cell, so the small volume is settled, and it has its one document. This rests on
/// three digests, which are computed.
pub fn the_small_volume_is_settled()
    ensures settled { Settled 1000 small_image }
    ensures documents { AreDocuments 1000 small_image (small_document ∷ []) }
{}
