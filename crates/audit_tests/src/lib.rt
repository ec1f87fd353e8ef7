//! Tests of the audit: `parts` has what its parts answer that no whole volume shows, and `meters` what an audit shows of how
//! far it is. What is expected was written by hand, from the rules. Whole volumes, and which rule is broken where, are the
//! rows `audits.rows` of `worked_rows`.
#![tactic(auto)]

#[cfg(test)]
mod cells;
#[cfg(test)]
mod meters;
#[cfg(test)]
mod parts;
