//! Files of the host as devices. A device over a file tells its image, its sure image and its past wherever the file
//! tells its bytes.
//!
//! The file holds the cells one after another, sixteen bytes each. A blank cell is sixteen zeros, and bytes behind the
//! last whole cell belong to none:
//!
//!     a file of 16,007 bytes     cell 0      bytes 0 to 15
//!                                cell 999    bytes 15,984 to 15,999
//!                                no cell     bytes 16,000 to 16,006
//!
//! `HostFile` is what a device needs of a file: read at a place, write sixteen bytes at a place or at neighbouring
//! places, sync. Contracts see its bytes, what of them is sure, and what it held at each moment before, where it tells
//! them:
//!
//!     OsFile         a file of the operating system: tells nothing, but says which calls of the host it makes
//!     MemoryFile     bytes in memory: tells everything, and fails at the call that it is told
//!
//! `FileDevice` answers its reads from sixteen pages of the file in memory, and writes past them:
//!
//!     read cell 300     bytes 4,096 to 8,191 of the file, and then byte 704 of those and on
//!     read cell 301     no byte of the file
//!     write cell 301    bytes 4,816 to 4,831 are read and, where they are zeros, written
//!     write cells 301   bytes 4,816 to 8,191 are read and, where all of them are zeros, written at once, else cell
//!       to 600          by cell; then those from 8,192 on, up to 9,615
//!
//! A write that failed may have left a part of sixteen bytes. The file counts it, and the device shows it as
//! written by somebody else. In a crash a place is whole: it holds what was sure or what stood there. That is assumed
//! of the host (`CrashLeaves`), and proved of nothing.
//!
//! `HostCalls` is what is asked of an open file of the host. What these calls do is trusted.
//!
//! Stands on `worm_device`, for `Device`, and on `cell_types`, for `Cell`. Begin with `host_file.rt`;
//! `specs/Device.antt` says what a file is as a device, and `specs/Crashes.antt` what a crash leaves of it.
#![tactic(auto)]

mod change;
mod device;
mod file_device;
mod host_calls;
mod host_file;
mod laws;
mod memory_calls;
mod memory_file;
mod metered_file;
mod os_file;
mod page;
mod pages;
mod rows;

pub use change::{FileChange, Leaving};
pub use file_device::{FileDevice, OpenFault};
pub use host_calls::HostCalls;
pub use host_file::HostFile;
pub use laws::crashes_are_seen;
pub use memory_file::MemoryFile;
pub use metered_file::MeteredFile;
pub use os_file::{OsFile, open_file};
pub use pages::Pages;
