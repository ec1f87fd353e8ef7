//! A file that tells how far its reads have come.
ghost use Rattle.std.specs.Prelude.{◌≡◌};
ghost use Rattle.host_files.specs.Metered.{file_in};

use crate::host_file::HostFile;
use host_ports::{Meter, Work};
use worm_device::Failed;

/// A file whose reads tell a meter how far they have come: each that answers and ends further on than all before it.
/// What is to be read are the bytes of its places. Each call is handed on to the file below.
#[derive(Drop)]
pub struct MeteredFile<F, M> {
    file: F,
    pub meter: M,
    /// Where the read has ended that came furthest.
    read_to: u64,
}

impl<F: HostFile, M> MeteredFile<F, M> {
    /// Over this file, of which nothing was read yet.
    pub fn new(file: F, meter: M) -> MeteredFile<F, M>
        ensures { file_in result ≡ file }
    {
        MeteredFile {
            file,
            meter,
            read_to: 0,
        }
    }
}

impl<F: HostFile, M: Meter> HostFile for MeteredFile<F, M> {
    ghost use Rattle.host_files.specs.Metered.{file_in};

    ghost state = { λ metered. F.state (file_in metered) };

    fn size(&self) -> u64 {
        self.file.size()
    }

    fn read_at(&mut self, into: &mut [u8], from: u64) -> Result<(), Failed> {
        let size = self.file.size();
        self.file.read_at(into, from)?;
        // A device reads no byte behind the last place. So its reads come to the end all the same.
        let places = size - size % 16;
        let end = places.min(from + into.len() as u64);
        if end <= self.read_to {
            return Ok(());
        }
        self.read_to = end;
        self.meter.show(Work::Reading, end, places);
        Ok(())
    }

    fn write_at(&mut self, piece: &[u8; 16], from: u64) -> Result<(), Failed> {
        self.file.write_at(piece, from)
    }

    fn write_places(&mut self, bytes: &[u8], from: u64) -> Result<(), Failed> {
        self.file.write_places(bytes, from)
    }

    fn sync(&mut self) -> Result<(), Failed> {
        self.file.sync()
    }

    ghost proper = { λ metered. F.HostFile.proper (file_in metered) };
}
