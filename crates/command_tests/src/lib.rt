//! Tests of commands that are no rows: all cuts of an ingest and of `recover`, with crashes that keep each subset of what was
//! not sure, over devices in memory; and commands over a file in memory whose calls fail. They call `record_top`; `decoder`
//! reads what stands on a device afterwards, and shares nothing with the crates. What else is asked of commands are the rows
//! of `worked_rows`.
#![tactic(auto)]

#[cfg(test)]
mod decoder;
#[cfg(test)]
mod files;
#[cfg(test)]
mod sweeps;
#[cfg(test)]
mod volume;
