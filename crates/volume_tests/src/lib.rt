//! Tests of what reads a volume and what is put onto one: words and matchers, stored bytes, steps along the paths of
//! identifiers, what is kept, plans, and receipts, with texts that are almost one. What commands tell of these are rows
//! of `worked_rows`.
//!
//! What is expected was written by hand from the layout of volumes, or is a value of the Unicode tables and of SHA-256.
#![tactic(auto)]

#[cfg(test)]
mod forms;
#[cfg(test)]
mod identifiers;
#[cfg(test)]
mod kept;
#[cfg(test)]
mod mutations;
#[cfg(test)]
mod paths;
#[cfg(test)]
mod plans;
#[cfg(test)]
mod stored_bytes;
#[cfg(test)]
mod texts;
#[cfg(test)]
mod volumes;
