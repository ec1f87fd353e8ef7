//! The two rules of words.
ghost use Rattle.std.specs.Prelude.{◌≡◌, ◌≤◌};
ghost use Rattle.cell_types.specs.declared.geometry.TheConstants.{FIRST_VERSION, NEWEST_VERSION};
ghost use Rattle.volume_meaning.specs.Words as words;

use cell_types::FOLDED_VERSION;

/// What the words of a body are made of.
#[derive(Clone, Copy)]
pub enum WordRule {
    /// Bytes: ASCII letters and digits, and every byte from 0x80 on, with A to Z as a to z.
    Ascii,
    /// Characters: letters and decimal digits of any script, by their case folding.
    Folded,
}

/// The rule of words of a version.
pub fn rule_of(version: u8) -> WordRule
    requires some { FIRST_VERSION ≤ version }
    requires most { version ≤ NEWEST_VERSION }
    ensures { result ≡ words.rule_of version }
{
    if version < FOLDED_VERSION {
        return WordRule::Ascii;
    }
    WordRule::Folded
}
