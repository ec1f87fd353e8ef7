//! Laws: what holds of all words.
ghost use Rattle.command_line.specs.Laws.{AskOnce, DecimalsAreNumbers};

/// Words ask for one thing at most.
pub fn words_ask_once()
    ensures { AskOnce }
{}

/// The usual digits of a number stand for it.
pub fn decimals_are_numbers()
    ensures { DecimalsAreNumbers }
{}
