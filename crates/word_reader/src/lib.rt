//! The words of bytes, and whether terms are among the words of bytes that come one by one.
//!
//! There are two rules of words. **By bytes** a word is a longest run of ASCII letters, ASCII digits and bytes from 0x80
//! on, with A to Z as a to z. **By characters** it is a longest run of letters and decimal digits of any script, in their
//! case folding. All else separates, by characters also each byte where none begins. A **term** holds the bytes of one
//! word, so it has at least one.
//!
//!     H e l l o ,   w o r l d !      two words: hello, world
//!     t a x ,                        one word: `tax,` is a good word of a query
//!     t a x - f r e e                two words: it is none
//!     c3 89 t c3 a9                  by bytes one word, as it stands; by characters `été`, with a small letter in front
//!     a cc 81 b                      by bytes one word; by characters a and b, since a combining accent separates
//!
//! A **matcher** takes the bytes of a body in one pass, row by row. By bytes it keeps none of them. A word that begins
//! and ends within one row is compared with each term where it stands (`row_words.rt`); most places of a row are passed
//! sixteen at once, by two bytes of the term, or sixty-four in a long row (`lanes.rt`). A word that crosses from one row into the next is
//! followed byte by byte: for each term it is known whether a word that has ended is the term, and how long a front of it
//! the present run is. The terms `hello` and `world`, after each byte of a body that comes so:
//!
//!     byte       h  e  l  l  o  ' '  w  o  r
//!     `hello`    1  2  3  4  5  found
//!     `world`    -  -  -  -  -  0    1  2  3       - until the next separator: the run has left the term
//!
//! So by bytes it takes memory in `new` alone. By characters it keeps the bytes, and reads their words in `finish`.
//! `clear` makes it ready for the next body. Its contract is a relation between the matcher, its rule, its terms and the
//! bytes that were pushed, which no call loses.
//!
//! Stands on `volume_meaning`, whose `specs/Words.antt` says what the words of a body are, on `cell_types` for
//! `NoMemory`, and for characters on `bstr` and the tables of Unicode. Begin with `reader.rt`, then `matcher.rt`;
//! `specs/Matching.antt` says what a matcher knows, `specs/RowWords.antt` where a word of a row is a term.
#![tactic(auto)]

mod byte_matcher;
mod folded;
mod lanes;
mod matcher;
mod reader;
mod row_words;
mod term;
mod text_matcher;

pub use matcher::Matcher;
pub use reader::{WordFault, single_term, words};
pub use term::Term;
