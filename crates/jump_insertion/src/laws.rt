//! Laws: what the definitions mean together. Each is a function that does nothing and whose contract is the law.
ghost use Rattle.jump_insertion.specs.Costs.{InsertionsCost, InsertionsKeepTrails};
ghost use Rattle.jump_insertion.specs.Licences.{EvidenceIsLicensed};
ghost use Rattle.jump_insertion.specs.Others.{OthersStand};

/// What an insertion shows is licensed over what stands below.
pub fn evidence_is_licensed()
    ensures { EvidenceIsLicensed }
{}

/// What an insertion adds to a list in which each posting has a trail costs what the posting needs.
pub fn insertions_cost_their_need()
    ensures { InsertionsCost }
{}

/// Each posting of a list has a trail after an insertion too, and the new one has the greatest key.
pub fn insertions_keep_trails()
    ensures { InsertionsKeepTrails }
{}

/// An insertion leaves another list, which is apart, as it should be.
pub fn others_stand()
    ensures { OthersStand }
{}
