//! Laws: what the definitions mean together, over all images. Each is a function that does nothing and whose
//! contract is the law.
ghost use Rattle.ingest_laws.specs.Filling.{PlanAddsOne, PlanIsSettled, PlanLeavesSound};
ghost use Rattle.ingest_laws.specs.Ingesting.{IngestLeavesSound, PhasesLeaveSound};
ghost use Rattle.ingest_laws.specs.ListShapes.{WellApart, WellWider, WellWithEntry, WellWithJump};
ghost use Rattle.ingest_laws.specs.Needs.{NeedIsBounded, NeedIsOne};
ghost use Rattle.ingest_laws.specs.SettledShapes.{LastBucketIsSame, NodesHaveOneLevel, NodesHaveOneWay, SettledListed, SettledRooted, SettledTrails};
ghost use Rattle.ingest_laws.specs.TreeShapes.{RootedApart, RootedWider, RootedWithChild};

/// Ingesting, cut short anywhere, leaves a sound volume with the old documents or the new ones.
pub fn ingest_leaves_sound()
    ensures { IngestLeavesSound }
{}

/// Ingesting, cut short in any one phase, leaves a sound volume with the old documents or the new ones.
pub fn phases_leave_sound()
    ensures { PhasesLeaveSound }
{}

/// What is written outside its blocks leaves a list as it was.
pub fn well_apart()
    ensures { WellApart }
{}

/// More room leaves a list as it was.
pub fn well_wider()
    ensures { WellWider }
{}

/// A posting at the first blank place of a block leaves its list well.
pub fn well_with_entry()
    ensures { WellWithEntry }
{}

/// A pointer to a block with a key of its span leaves its list well.
pub fn well_with_jump()
    ensures { WellWithJump }
{}

/// A plan keeps a volume settled.
pub fn plan_is_settled()
    ensures { PlanIsSettled }
{}

/// A plan that is cut short in any phase leaves a sound volume.
pub fn plan_leaves_sound()
    ensures { PlanLeavesSound }
{}

/// What is written outside its child cells leaves the tree as it was.
pub fn rooted_apart()
    ensures { RootedApart }
{}

/// A child cell to a new node leaves the tree well.
pub fn rooted_with_child()
    ensures { RootedWithChild }
{}

/// A plan that is written adds its document behind the others.
pub fn plan_adds_one()
    ensures { PlanAddsOne }
{}

/// The lists of a settled image have their shape.
pub fn settled_listed()
    ensures { SettledListed }
{}

/// The tree of a settled image has its shape.
pub fn settled_rooted()
    ensures { SettledRooted }
{}

/// Each node is at one level.
pub fn nodes_have_one_level()
    ensures { NodesHaveOneLevel }
{}

/// A written bucket at the last level of an identifier's path names an identifier of the same digest.
pub fn last_bucket_is_same()
    ensures { LastBucketIsSame }
{}

/// The need of a document with d cells and P postings is at least d + P + 1 and at most d + 258 P + 34.
pub fn need_is_bounded()
    ensures { NeedIsBounded }
{}

/// A document has one need on a settled image.
pub fn need_is_one()
    ensures { NeedIsOne }
{}

/// Each posting of a list of a settled image has a trail from the list's first block.
pub fn settled_trails()
    ensures { SettledTrails }
{}

/// Each node is reached from the root in one way.
pub fn nodes_have_one_way()
    ensures { NodesHaveOneWay }
{}

/// More room leaves the tree as it was.
pub fn rooted_wider()
    ensures { RootedWider }
{}
