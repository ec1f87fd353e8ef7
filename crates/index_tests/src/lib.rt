//! Tests of the index that are no rows: joins of two lists that are written down; insertions into the tree of
//! identifiers, over planned cells; and how often a find reads the first cells of a list. What blocks, lists and
//! insertions into lists answer are the rows of `worked_lists`.
//!
//! `list_callers.rt` has functions as other crates write them, which are proved with next to no proof.
#![tactic(auto)]

#[cfg(test)]
mod finds;
#[cfg(test)]
mod joins;
#[cfg(test)]
mod list_callers;
#[cfg(test)]
mod nodes;
