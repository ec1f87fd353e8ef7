//! Files of rows: what a program that carries them out does with its arguments, and words that the lines of several
//! such programs have.
//!
//! Each argument names a file of rows. The program prints a line a file, how many rows agree; before it, each row that
//! does not:
//!
//!     words.rows: a_word_of_two_parts: line 12: > found 3 (found 2/)
//!     words.rows: 20 of 21 rows agree
//!
//! and ends with an error where a row does not agree. What a row is, is the program's own (`Judge`).
#![tactic(auto)]

mod judging;
mod parts;

pub use judging::{Judge, Tally, judge_files};
pub use parts::{address_and_cell, cell, counted, number, two_numbers};
