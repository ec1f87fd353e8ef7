//! Laws: what the definitions mean together. Each is a function that does nothing and whose contract is the law.
ghost use Rattle.ingest_plan.specs.Counts.{CountIsOne};

/// An image has one number of written cells.
pub fn count_is_one()
    ensures { CountIsOne }
{}
