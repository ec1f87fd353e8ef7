//! What the program does with its words, its files and its ports. A program is a few lines over it: it
//! hands in its own words, what its commands take their input from, and where their output goes.
//!
//! The first word names a device, the others ask for a command. With the words `volume.img`, `find` and `hello`
//!
//!     opens      volume.img, a file that exists, as a device, for reading and writing, or for reading alone
//!     calls      run_over_file with the words `find`, `hello`
//!     puts out   0 a 11
//!                1 found
//!
//! and with `nothing.img` in front, where no such file is, it ends with `Fault::Image`: the line `image cannot be opened`
//! and the status 5. Where the first word is `-`, the device is one blank cell in memory. A `copy` has a second file.
//!
//! It is generic over the host and its files (`FileHost`), so that a clause can say which file was opened, and that the
//! command ran over it: a body that opens none, or carries out nothing, is refused. `specs/Carrying.antt` lists what
//! the words may name, and leads to what is done then. Over the operating system the transcript of `worked_files` shows
//! it, which the gate compares.
//!
//! Stands on `record_top`, which carries commands out, and on `program_host`, which opens files and has the fault that the
//! program ends with. Begin with `carrying.rt`.
#![tactic(auto)]

mod answering;
mod carrying;
mod copying;
mod in_memory;
mod one_file;
mod words;

pub use carrying::carry_out;
