//! How a command ends.
use cell_types::Refusal;

/// What a command answers.
pub type Outcome = Result<(), Refusal>;
