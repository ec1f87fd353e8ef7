//! What the program has of the host: its words, the files that it opens as devices, the line on a terminal that says how far
//! a command is, and the fault that it ends with, as a line and a status.
//!
//! Nothing here knows what a command does. No clause says what a file of the operating system holds, but which calls of
//! the host are made of it. `FileHost` is a host with files, whichever it is; `SystemFiles` is the operating system.
//!
//! Stands on `host_files`, which has the files and the devices over them. Begin with `host.rt`.
#![tactic(auto)]

mod arguments;
mod fault;
mod file_number;
mod host;
mod opening;
mod terminal;
mod waiting;

pub use arguments::words;
pub use fault::Fault;
pub use file_number::FileNumber;
pub use host::FileHost;
pub use opening::{HeldFile, SystemFiles};
pub use terminal::Terminal;
pub use waiting::WaitingFile;
