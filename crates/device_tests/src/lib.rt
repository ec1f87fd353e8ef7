//! Tests of cells and devices that are no row of `worked_cells`: a file of the host and one that writes down its calls, a
//! meter, readers and writers, and lines of refusals that no row shows.
//!
//! The files whose names end in `callers` have functions as other crates write them, generic over devices, views and ports,
//! which are proved with next to no proof.
#![tactic(auto)]

#[cfg(test)]
mod cache_callers;
#[cfg(test)]
mod cells;
#[cfg(test)]
mod device_callers;
#[cfg(test)]
mod file_callers;
#[cfg(test)]
mod files;
#[cfg(test)]
mod memory_callers;
#[cfg(test)]
mod meters;
#[cfg(test)]
mod port_callers;
#[cfg(test)]
mod ports;
