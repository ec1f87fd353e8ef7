//! A file of the operating system. It tells nothing, since no clause can say what such a file holds. But each of its
//! calls says which calls of the host it has made, in which order, with which bytes, and what they answered
//! (`HostCalls`). That of those a read gives what stands there, a write touches no other byte, a sync makes sure all
//! that was written, and one program at a time holds the lock, is trusted.
//!
//! The lock is taken before the first read, write or sync, so that whoever takes long to hand in a body holds nobody
//! up, and is kept until the file is closed:
//!
//!     open          the number of bytes is where a seek to the end comes to, of a file as of a block device
//!     first call    waits for the lock; the number of bytes is asked for again, and is to be the same
//!     other calls   one call of the system each
//!
//! A file that the host lets nobody write, since it is not the user's, is marked so or lies on a medium or a mount that
//! may only be read, is opened for reading alone. Each write of it fails then.
//!
//! A host may let go what it once refused to sync, and answer the next sync all the same. So after a sync that failed
//! no call answers.
ghost use Rattle.std.specs.Prelude.{◌≡◌, ◌≤◌, ◌<◌, ◌+◌, ◌*◌, ◌%◌, ◌^◌, length, OnErr, OnOk};
ghost use Rattle.worm_device.specs.Counts.{next_count};
ghost use Rattle.host_files.specs.File.{ReadsAt, WritesAt, WritesPlaces, Flushes, IsAsked, WasReadBlank};
ghost use Rattle.host_files.specs.OsFile.{os_file_state, AsksToRead, AsksToSync, AsksToWrite, Begins, IsCounted, IsUntouched};
ghost use Rattle.host_files.specs.Proper.{is_file, untold};

use crate::{HostCalls, HostFile};
use std::fs::{OpenFile, OpenOptions};
use std::io::{self, ErrorKind};
use std::rt::Files;
use worm_device::Failed;

/// Whether calls may go on.
#[derive(Clone, Copy)]
enum Access {
    /// No call was made yet.
    Free,
    /// The lock is held.
    Held,
    /// A sync has failed.
    Lost,
}

/// A file of the operating system, with the number of its bytes.
#[derive(Drop)]
pub struct OsFile<F> {
    file: F,
    size: u64,
    faults: u64,
    access: Access,
}

/// Opens a file that exists, for reading and writing, or for reading alone where the host refuses the writing. It neither
/// makes nor empties one.
pub fn open_file<R: Files>(rt: &R, path: &str) -> io::Result<R::File> {
    let opened = match OpenOptions::new().read(true).write(true).open(rt, path) {
        Err(error) if is_of_writing(error.kind()) => OpenOptions::new().read(true).open(rt, path)?,
        done => done?,
    };
    // Where the program was started with a port closed, the file has got that port's number. A clone never has one of
    // those, and the port is closed again once `opened` is.
    opened.try_clone()
}

/// Whether the host gives this error where a file may be read and not written.
fn is_of_writing(kind: ErrorKind) -> bool {
    matches!(
        kind,
        ErrorKind::PermissionDenied | ErrorKind::ReadOnlyFilesystem
    )
}

impl<F: HostCalls + Drop> OsFile<F> {
    ghost use Rattle.std.specs.Prelude.{IfOk};

    /// A file that is open already. The host's error comes where it has no length, as a pipe.
    pub fn of(mut file: F) -> io::Result<OsFile<F>>
        ensures fresh { IfOk result (λ made. os_file_state made ≡ untold (os_file_state made).size 0) }
        ensures counted { IfOk result (IsCounted F.made file) }
    {
        let size = file.count_bytes()?;
        Ok(OsFile::over(file, size))
    }
}

impl<F> OsFile<F> {
    /// A file that is open already, and has so many bytes.
    pub fn over(file: F, size: u64) -> OsFile<F>
        ensures fresh { os_file_state result ≡ untold size 0 }
        ensures untouched { IsUntouched file size result }
    {
        OsFile {
            file,
            size,
            faults: 0,
            access: Access::Free,
        }
    }

    /// One fault more.
    fn fail(&mut self) -> Failed
        ensures counted { os_file_state self.new
            ≡ untold (os_file_state self.old).size (next_count (os_file_state self.old).faults) }
        ensures fits { (os_file_state self.old).faults < 2 ^ 64 }
        ensures file { self.new.file ≡ self.old.file }
        ensures access { self.new.access ≡ self.old.access }
    {
        self.faults = self.faults.saturating_add(1);
        Failed
    }
}

impl<F: HostCalls> OsFile<F> {
    ghost use Rattle.host_files.specs.declared.os_file.Access.TheVariants.{Free};

    /// Takes the lock, unless it is held, and looks anew at what was read before it, as each call does first: for
    /// whoever has to hold several files, and so in an order that all keep to. Refuses all after a sync that failed.
    pub fn begin(&mut self) -> io::Result<()>
        ensures state { os_file_state self.new ≡ os_file_state self.old }
        ensures begins { Begins F.made self.old self.new result }
    {
        match self.access {
            Access::Held => Ok(()),
            Access::Lost => Err(io::Error::from(ErrorKind::Other)),
            Access::Free => self.take_hold(),
        }
    }

    /// Takes the lock, and finds the number of bytes as it was.
    fn take_hold(&mut self) -> io::Result<()>
        requires { self.old.access ≡ Free }
        ensures state { os_file_state self.new ≡ os_file_state self.old }
        ensures begins { Begins F.made self.old self.new result }
    {
        if let Err(error) = self.file.hold() {
            return Err(error);
        }
        match self.file.count_bytes() {
            Ok(found) if found == self.size => {
                self.access = Access::Held;
                Ok(())
            }
            Ok(_) => Err(io::Error::from(ErrorKind::Other)),
            Err(error) => Err(error),
        }
    }

    /// Writes all these bytes from an offset on.
    fn write_all(&mut self, bytes: &[u8], from: u64) -> Result<(), Failed>
        ensures ok { OnOk result (os_file_state self.new ≡ os_file_state self.old) }
        ensures err { OnErr result (os_file_state self.new
            ≡ untold (os_file_state self.old).size (next_count (os_file_state self.old).faults)) }
        ensures fits { (os_file_state self.old).faults < 2 ^ 64 }
        ensures asks { AsksToWrite F.made from bytes.now self.old self.new result }
    {
        let _faults = self.faults;
        let Ok(()) = self.begin() else {
            return Err(self.fail());
        };
        let Ok(()) = self.file.write_all_at(bytes, from) else {
            return Err(self.fail());
        };
        Ok(())
    }
}

impl<F: HostCalls> HostFile for OsFile<F> {
    ghost state = { os_file_state };

    fn size(&self) -> u64 {
        self.size
    }

    fn read_at(&mut self, into: &mut [u8], from: u64) -> Result<(), Failed>
        requires { from + length into.old ≤ (os_file_state self.old).size }
        ensures reads { ReadsAt from into.new (os_file_state self.old) (os_file_state self.new) result }
        ensures asks { AsksToRead F.made from into.new self.old self.new result }
    {
        let Ok(()) = self.begin() else {
            return Err(self.fail());
        };
        let Ok(()) = self.file.read_exact_at(into, from) else {
            return Err(self.fail());
        };
        Ok(())
    }

    fn write_at(&mut self, piece: &[u8; 16], from: u64) -> Result<(), Failed>
        requires inside { from + 16 ≤ (os_file_state self.old).size }
        requires place { from % 16 ≡ 0 }
        requires asked { IsAsked from (os_file_state self.old) }
        ensures writes { WritesAt from piece.now (os_file_state self.old) (os_file_state self.new) result }
        ensures asks { AsksToWrite F.made from piece.now self.old self.new result }
    {
        self.write_all(piece, from)
    }

    fn write_places(&mut self, bytes: &[u8], from: u64) -> Result<(), Failed>
        requires inside { from + length bytes.now ≤ (os_file_state self.old).size }
        requires place { from % 16 ≡ 0 }
        requires whole { length bytes.now % 16 ≡ 0 }
        requires asked { WasReadBlank from (length bytes.now) (os_file_state self.old) }
        ensures writes { WritesPlaces from bytes.now (os_file_state self.old) (os_file_state self.new) result }
        ensures asks { AsksToWrite F.made from bytes.now self.old self.new result }
    {
        self.write_all(bytes, from)
    }

    fn sync(&mut self) -> Result<(), Failed>
        ensures flushes { Flushes (os_file_state self.old) (os_file_state self.new) result }
        ensures asks { AsksToSync F.made self.old self.new result }
    {
        let Ok(()) = self.begin() else {
            return Err(self.fail());
        };
        let Ok(()) = self.file.sync_data() else {
            self.access = Access::Lost;
            return Err(self.fail());
        };
        Ok(())
    }

    ghost proper = { λ f. is_file f.size f.faults };
}
