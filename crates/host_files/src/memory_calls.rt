//! The calls of a file in memory. A call fails exactly where it is to, and a write or a sync also where the record has
//! no room for its change.
ghost use Rattle.std.specs.Prelude.{◌≡◌, ◌<◌, ◌≤◌, ◌+◌, ◌*◌, ◌/◌, ◌%◌, ◌⊎◌, ◌↔◌, Err, IsErr, length};
ghost use Rattle.host_files.specs.File.{IsAsked, WasReadBlank, ReadsAt, WritesAt, WritesPlaces, Flushes, part_at};
ghost use Rattle.host_files.specs.Memory.{HasPut, IsToFail};
ghost use Rattle.host_files.specs.MemoryFile.{file_memory, file_room, memory_file_state};
ghost use Rattle.host_files.specs.Proper.{is_memory};

use crate::{HostFile, Leaving, MemoryFile};
use worm_device::Failed;

/// These of the sixteen bytes, and zeros at the other places.
fn part_of(piece: &[u8; 16], these: [bool; 16]) -> [u8; 16] {
    let mut part = [0; 16];
    for place in 0..16 {
        if these[place] {
            part[place] = piece[place];
        }
    }
    part
}

/// The sixteen bytes of a place of these.
fn piece_at(bytes: &[u8], place: usize) -> [u8; 16]
    requires { 16 * place + 16 ≤ length bytes.now }
    ensures piece { result ≡ part_at (16 * place) bytes.now }
    ensures sixteen { length result ≡ 16 }
{
    let mut piece = [0; 16];
    piece.copy_from_slice(&bytes[16 * place..16 * place + 16]);
    piece
}

impl MemoryFile {
    /// Puts the first so many places of these bytes, where the record has room.
    fn put_first(&mut self, bytes: &[u8], from: u64, count: usize)
        requires inside { from + length bytes.now ≤ (memory_file_state self.old).size }
        requires place { from % 16 ≡ 0 }
        requires most { 16 * count ≤ length bytes.now }
        requires room { count ≤ file_room self.old }
        ensures puts { HasPut count (from / 16) bytes.now (file_memory self.old) (file_memory self.new) }
        ensures room { file_room self.new + count ≡ file_room self.old }
    {
        for place in 0..count {
            self.put(from + 16 * place as u64, piece_at(bytes, place));
        }
    }

    /// Leaves of sixteen bytes what a write that fails is to leave, and counts the fault.
    fn leave(&mut self, piece: &[u8; 16], from: u64) -> Failed
        requires inside { from + 16 ≤ (memory_file_state self.old).size }
        requires room { 1 ≤ file_room self.old }
        ensures { WritesAt from piece.now (memory_file_state self.old) (memory_file_state self.new) (Err result) }
    {
        match self.leaving() {
            Leaving::Nothing => self.fail(),
            Leaving::All => {
                self.put(from, *piece);
                self.fail()
            }
            Leaving::Part(these) => {
                self.put_part(from, part_of(piece, these));
                self.fail()
            }
        }
    }
}

impl HostFile for MemoryFile {
    ghost state = { memory_file_state };

    fn size(&self) -> u64 {
        self.count()
    }

    fn read_at(&mut self, into: &mut [u8], from: u64) -> Result<(), Failed>
        requires { from + length into.old ≤ (memory_file_state self.old).size }
        ensures reads { ReadsAt from into.new (memory_file_state self.old) (memory_file_state self.new) result }
        ensures fails { IsErr result ↔ IsToFail (file_memory self.old) }
    {
        if self.begin() {
            return Err(self.fail());
        }
        self.give(into, from as usize);
        if into.iter().all(|byte| *byte == 0) {
            self.found_blank(from, into.len() as u64);
        }
        Ok(())
    }

    fn write_at(&mut self, piece: &[u8; 16], from: u64) -> Result<(), Failed>
        requires inside { from + 16 ≤ (memory_file_state self.old).size }
        requires place { from % 16 ≡ 0 }
        requires asked { IsAsked from (memory_file_state self.old) }
        ensures writes { WritesAt from piece.now (memory_file_state self.old) (memory_file_state self.new) result }
        ensures fails { IsErr result ↔ (IsToFail (file_memory self.old) ⊎ (file_room self.old ≡ 0)) }
    {
        let fails = self.begin();
        if self.room() == 0 {
            return Err(self.fail());
        }
        if !fails {
            self.put(from, *piece);
            return Ok(());
        }
        Err(self.leave(piece, from))
    }

    fn write_places(&mut self, bytes: &[u8], from: u64) -> Result<(), Failed>
        requires inside { from + length bytes.now ≤ (memory_file_state self.old).size }
        requires place { from % 16 ≡ 0 }
        requires whole { length bytes.now % 16 ≡ 0 }
        requires asked { WasReadBlank from (length bytes.now) (memory_file_state self.old) }
        ensures writes { WritesPlaces from bytes.now (memory_file_state self.old) (memory_file_state self.new) result }
        ensures fails { IsErr result
            ↔ (IsToFail (file_memory self.old) ⊎ (file_room self.old < length bytes.now / 16)) }
    {
        let fails = self.begin();
        let count = bytes.len() / 16;
        if self.room() < count {
            return Err(self.fail());
        }
        if !fails {
            self.put_first(bytes, from, count);
            return Ok(());
        }
        if count == 0 {
            return Err(self.fail());
        }
        let whole = count / 2;
        self.put_first(bytes, from, whole);
        Err(self.leave(&piece_at(bytes, whole), from + 16 * whole as u64))
    }

    fn sync(&mut self) -> Result<(), Failed>
        ensures flushes { Flushes (memory_file_state self.old) (memory_file_state self.new) result }
        ensures fails { IsErr result ↔ (IsToFail (file_memory self.old) ⊎ (file_room self.old ≡ 0)) }
    {
        let fails = self.begin();
        if fails || self.room() == 0 {
            return Err(self.fail());
        }
        self.make_sure();
        Ok(())
    }

    ghost proper = { λ file. is_memory (file_memory file) file.bytes.items file.holds file.same_size file.fits };
}
