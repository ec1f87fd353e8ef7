//! A file in memory. It tells its bytes by its record of changes, and fails at the call that it is told.
ghost use Rattle.std.specs.Prelude.{◌≡◌, ◌≤◌, ◌+◌, vec_len, length};
ghost use Rattle.std.proofs.Props.{props};
ghost use Rattle.cell_types.specs.Bytes.{AreBytes};
ghost use Rattle.host_files.specs.File.{patched};
ghost use Rattle.host_files.specs.Memory.{held_after_all, all_sure};

use crate::{FileChange, Leaving};
use cell_types::{NoMemory, memory};
use worm_device::Failed;

/// What is in a slice of bytes is bytes.
fn are_bytes(bytes: &[u8])
    ensures { AreBytes bytes.now }
{
    let _bytes = bytes;
}

/// Puts sixteen bytes over those at this offset.
fn overwrite(bytes: &mut [u8], from: usize, piece: [u8; 16])
    requires { from + 16 ≤ length bytes.old }
    ensures put { bytes.new ≡ patched from piece bytes.old }
    ensures fits { AreBytes bytes.new }
{
    bytes[from..from + 16].copy_from_slice(&piece);
}

/// A file in memory. Contracts see the words of `Memory`: `file_memory` for all that it tells, and `file_room` for how many
/// further changes its record has room for.
#[derive(Drop)]
pub struct MemoryFile {
    first: Vec<u8>,
    bytes: Vec<u8>,
    changes: Vec<FileChange>,
    blank_at: Option<u64>,
    blank_size: u64,
    calls: u64,
    fails: Option<u32>,
    leaving: Leaving,
    faults: u64,
    parts: u64,
    ghost holds: { bytes.items ≡ (held_after_all (all_sure first.items) changes.items).bytes } by { Prim.hlevel props },
    ghost same_size: { length bytes.items ≡ length first.items },
    ghost fits: { AreBytes bytes.items } by { Prim.hlevel props },
}

impl MemoryFile {
    ghost use Rattle.std.specs.Prelude.{◌≤◌, ◌<◌, ◌+◌, ◌-◌, ◌^◌, ◌↔◌, ℕ, vec_capacity, [], None, Some, IfOk, IsTrue, OnOk, OnErr, IsOk, length, take, drop};
    ghost use Rattle.worm_device.specs.Counts.{next_count};
    ghost use Rattle.host_files.specs.Memory.{FileMemory, held_at, file_with_call, file_with_change, file_with_fault, with_part};
    ghost use Rattle.host_files.specs.MemoryFile.{file_memory, file_room, memory_file_state};
    ghost use Rattle.host_files.specs.Device.{SureStands};
    ghost use Rattle.host_files.specs.declared.change.FileChange.TheVariants.{Put, Synced};

    /// A file of these bytes, all of them sure, whose record has room for so many changes. No call is to fail.
    pub fn new(bytes: Vec<u8>, changes: u32) -> Result<MemoryFile, NoMemory>
        ensures made { IfOk result (λ file. file_memory file ≡ record {
          first = bytes.items;
          changes = [];
          calls = 0;
          fails = None;
          faults = 0;
          parts = 0;
          blank_at = None;
          blank_size = 0;
        }) }
        ensures room { IfOk result (λ file. changes ≤ file_room file) }
        ensures stands { IfOk result (λ file. (cells : ℕ) → SureStands cells (memory_file_state file).told) }
    {
        let first = memory::from_slice(*bytes.allocator(), &bytes)?;
        let room = memory::with_capacity(*bytes.allocator(), changes as usize)?;
        are_bytes(&bytes);
        Ok(MemoryFile {
            first,
            bytes,
            changes: room,
            blank_at: None,
            blank_size: 0,
            calls: 0,
            fails: None,
            leaving: Leaving::Nothing,
            faults: 0,
            parts: 0,
        })
    }

    /// Lets the call of this number fail, from 1, and no other. Reads, writes and syncs count. A write leaves this
    /// then.
    pub fn fail_at(&mut self, call: u32, leaving: Leaving)
        ensures planned { file_memory self.new ≡ record (file_memory self.old) { fails = Some call } }
        ensures room { file_room self.new ≡ file_room self.old }
    {
        self.fails = Some(call);
        self.leaving = leaving;
    }

    /// What it holds.
    pub fn bytes(&self) -> &[u8]
        ensures { result.now ≡ (held_at (file_memory self.now) (file_memory self.now).changes).bytes }
    {
        &self.bytes
    }

    /// How many bytes it has.
    pub(crate) fn count(&self) -> u64
        ensures { result ≡ length (file_memory self.now).first }
    {
        self.first.len() as u64
    }

    /// Counts a call, and answers whether it is to fail.
    pub(crate) fn begin(&mut self) -> bool
        ensures counted { file_memory self.new ≡ file_with_call (file_memory self.old) }
        ensures fails { IsTrue result ↔ ((file_memory self.old).fails ≡ Some ((file_memory self.old).calls + 1)) }
        ensures room { file_room self.new ≡ file_room self.old }
    {
        self.blank_at = None;
        self.blank_size = 0;
        self.calls = self.calls.saturating_add(1);
        match self.fails {
            Some(call) => u64::from(call) == self.calls,
            None => false,
        }
    }

    /// What a write that fails leaves.
    pub(crate) fn leaving(&self) -> Leaving {
        self.leaving
    }

    /// Counts a fault.
    pub(crate) fn fail(&mut self) -> Failed
        ensures counted { file_memory self.new ≡ file_with_fault (file_memory self.old) }
        ensures fits { (file_memory self.old).faults < 2 ^ 64 }
    {
        self.faults = self.faults.saturating_add(1);
        Failed
    }

    /// How many further changes the record has room for.
    pub(crate) fn room(&self) -> usize
        ensures { result ≡ file_room self.now }
    {
        self.changes.capacity() - self.changes.len()
    }

    /// Gives bytes from this offset on.
    pub(crate) fn give(&self, into: &mut [u8], from: usize)
        requires { from + length into.old ≤ length (file_memory self.now).first }
        ensures { into.new ≡ take (length into.new)
            (drop from (held_at (file_memory self.now) (file_memory self.now).changes).bytes) }
    {
        into.copy_from_slice(&self.bytes[from..from + into.len()]);
    }

    /// So many zeros were found at this offset.
    pub(crate) fn found_blank(&mut self, from: u64, count: u64)
        ensures found { file_memory self.new ≡ record (file_memory self.old) { blank_at = Some from; blank_size = count } }
        ensures room { file_room self.new ≡ file_room self.old }
    {
        self.blank_at = Some(from);
        self.blank_size = count;
    }

    /// Puts sixteen bytes, where the record has room.
    pub(crate) fn put(&mut self, from: u64, piece: [u8; 16])
        requires inside { from + 16 ≤ length (file_memory self.old).first }
        requires room { 1 ≤ file_room self.old }
        ensures put { file_memory self.new ≡ file_with_change (file_memory self.old) (Put from piece) }
        ensures left { file_room self.new + 1 ≡ file_room self.old }
        ensures sixteen { length piece ≡ 16 }
    {
        overwrite(self.bytes.as_mut_slice(), from as usize, piece);
        self.changes.push_reserved(FileChange::Put { from, piece });
    }

    /// Puts a part, where the record has room.
    pub(crate) fn put_part(&mut self, from: u64, part: [u8; 16])
        requires inside { from + 16 ≤ length (file_memory self.old).first }
        requires room { 1 ≤ file_room self.old }
        ensures put { file_memory self.new ≡ with_part (file_with_change (file_memory self.old) (Put from part)) }
        ensures fits { (file_memory self.old).parts < 2 ^ 64 }
        ensures sixteen { length part ≡ 16 }
    {
        self.put(from, part);
        self.parts = self.parts.saturating_add(1);
    }

    /// Makes all bytes sure, where the record has room.
    pub(crate) fn make_sure(&mut self)
        requires { 1 ≤ file_room self.old }
        ensures { file_memory self.new ≡ file_with_change (file_memory self.old) Synced }
    {
        self.changes.push_reserved(FileChange::Synced);
    }
}
