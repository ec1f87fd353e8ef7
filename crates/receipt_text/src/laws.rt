//! What the form of a receipt entails.
ghost use Rattle.receipt_text.specs.Form.{BadIsOne, LimitsAreNumbers, TextsAreOne};
ghost use Rattle.receipt_text.specs.Listed.{ListedAreCells};

/// A text spells one receipt.
pub fn texts_are_one()
    ensures { TextsAreOne }
{}

/// A text has one first line that breaks the form, and one that has such a line spells no receipt.
pub fn bad_is_one()
    ensures { BadIsOne }
{}

/// What listed cells show are written cells of the device whose cells they are.
pub fn listed_are_cells()
    ensures { ListedAreCells }
{}

/// The limits that clauses cite by a constant's name are these numbers.
pub fn limits_are_numbers()
    ensures { LimitsAreNumbers }
{}
