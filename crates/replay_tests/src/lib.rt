//! Tests of scripts: what is read of one, and how each kind of reply is printed. Which texts are no script and for
//! which fault, and what is replayed and printed, line by line, are the rows `scripts.rows` of `worked_rows`.
#![tactic(auto)]

#[cfg(test)]
mod grammar;
#[cfg(test)]
mod lines;
