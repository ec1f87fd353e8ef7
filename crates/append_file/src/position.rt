//! How far a document part was read.
ghost use Rattle.std.specs.Prelude.{◌≡◌, ◌<◌, ◌≤◌, ◌+◌, ◌-◌, ◌*◌, min, [], IfOk, slice_index, take};
ghost use Rattle.append_file.specs.Reading.{ByteEnds, NextRowEnds, HasRead, IsPosition, NextByteEnds, at_start, ended, ended_behind, first_given, left_over, one_given, rest_given, row_given};
ghost use Rattle.append_file.specs.declared.row.TheConstants.{ROW_CONTENT};
ghost use Rattle.volume_meaning.specs.Slots as slots;
ghost use Rattle.worm_device.specs.Views.{ViewState, Viewed};

use crate::cells_for;
use crate::piece::{ContentFault, read_piece};
use crate::row::{ROW_BYTES, ROW_CELLS, read_cells};
use cell_types::Content;
use worm_device::View;

/// How far the bytes of a document part were read. It holds at most one cell's bytes.
#[derive(Clone, Copy)]
pub struct Position {
    /// The number of its first cell.
    start: u32,
    /// How many bytes it has.
    bytes: u32,
    /// How many cells were read.
    read: u32,
    /// The last of them.
    held: Content,
    /// How many of its bytes were given.
    given: u8,
    /// Whether there was a fault.
    over: bool,
}

impl Position {
    /// The start of a part of so many bytes in the cells from start on.
    pub fn new(start: u32, bytes: u32) -> Position
        ensures is { result ≡ at_start start bytes }
        ensures position { IsPosition result }
        ensures begins { (v : ViewState) → HasRead v start bytes result [] }
    {
        Position {
            start,
            bytes,
            read: 0,
            held: Content {
                length: 0,
                bytes: [0; 15],
            },
            given: 0,
            over: false,
        }
    }

    /// Gives a byte that is held.
    fn give(&mut self) -> u8
        requires some { self.old.given < self.old.held.length }
        requires most { self.old.held.length ≤ 15 }
        ensures byte { result ≡ slice_index self.old.held.bytes self.old.given }
        ensures one { self.new ≡ one_given self.old }
    {
        let byte = self.held.bytes[usize::from(self.given)];
        self.given += 1;
        byte
    }

    /// Gives the first byte of a cell that was read.
    fn give_first(&mut self, held: Content) -> u8
        requires { self.old.read < self.old.bytes }
        ensures byte { result ≡ slice_index held.bytes 0 }
        ensures one { self.new ≡ first_given held self.old }
    {
        self.held = held;
        self.given = 1;
        self.read += 1;
        held.bytes[0]
    }

    /// Gives the bytes that are held and were not given yet, and answers how many.
    fn give_rest(&mut self, into: &mut [u8; ROW_BYTES]) -> usize
        requires some { self.old.given < self.old.held.length }
        requires most { self.old.held.length ≤ 15 }
        ensures count { result + self.old.given ≡ self.old.held.length }
        ensures rest { take result into.new ≡ left_over self.old }
        ensures all { self.new ≡ rest_given self.old }
    {
        let from = usize::from(self.given);
        let to = usize::from(self.held.length);
        into[..to - from].copy_from_slice(&self.held.bytes[from..to]);
        self.given = self.held.length;
        to - from
    }

    /// Gives all bytes of so many cells, where all of those before were given.
    fn pass(&mut self, cells: u32)
        requires { self.old.read + cells ≤ self.old.bytes }
        ensures { self.new ≡ row_given cells self.old }
    {
        self.read += cells;
    }

    /// There was a fault in so many cells that were read.
    fn end_behind(&mut self, cells: u32)
        requires { self.old.read + cells ≤ self.old.bytes }
        ensures { self.new ≡ ended_behind cells self.old }
    {
        self.read += cells;
        self.over = true;
    }

    /// There was a fault.
    fn end(&mut self)
        requires { self.old.read < self.old.bytes }
        ensures { self.new ≡ ended self.old }
    {
        self.end_behind(1);
    }
}

/// The next byte of the part. After the last byte there is none, nor after a fault. It makes one read at most, and each
/// cell is read once.
pub fn next_byte<V: View>(view: &mut V, position: &mut Position) -> Option<Result<u8, ContentFault>>
    requires is { IsPosition position.old }
    requires inside { position.old.start + slots.cells_for position.old.bytes ≤ (V.seen view.old).cells }
    ensures is { IsPosition position.new }
    ensures start { position.new.start ≡ position.old.start }
    ensures bytes { position.new.bytes ≡ position.old.bytes }
    ensures viewed { Viewed (V.seen view.old) (V.seen view.new) }
    ensures reads { (V.seen view.new).base.reads + position.old.read
        ≤ (V.seen view.old).base.reads + position.new.read }
    ensures ends { NextByteEnds (V.seen view.old) (V.seen view.new) position.old position.new result }
{
    if position.over {
        return None;
    }
    if position.given < position.held.length {
        return Some(Ok(position.give()));
    }
    if position.read == cells_for(position.bytes) {
        return None;
    }
    match read_piece(view, position.start, position.bytes, position.read) {
        Ok(held) => Some(Ok(position.give_first(held))),
        Err(fault) => {
            position.end();
            Some(Err(fault))
        }
    }
}

/// The next byte of a part that has one more: where none comes, a cell is broken.
pub fn read_byte<V: View>(view: &mut V, position: &mut Position) -> Result<u8, ContentFault>
    requires is { IsPosition position.old }
    requires inside { position.old.start + slots.cells_for position.old.bytes ≤ (V.seen view.old).cells }
    ensures is { IsPosition position.new }
    ensures start { position.new.start ≡ position.old.start }
    ensures bytes { position.new.bytes ≡ position.old.bytes }
    ensures viewed { Viewed (V.seen view.old) (V.seen view.new) }
    ensures reads { (V.seen view.new).base.reads + position.old.read
        ≤ (V.seen view.old).base.reads + position.new.read }
    ensures ends { ByteEnds (V.seen view.old) (V.seen view.new) position.old position.new result }
{
    next_byte(view, position).unwrap_or(Err(ContentFault::Broken))
}

/// The next bytes of a part that has one more, and how many they are: what is left of a cell that was begun, or else
/// what the next 1,024 cells hold, or as many as there are. It reads these in one call, each of them once. Where nothing
/// is left of a cell, these are the next 15,360 bytes, or all that the part still has.
pub fn next_row<V: View>(
    view: &mut V,
    position: &mut Position,
    into: &mut [u8; ROW_BYTES],
) -> Result<usize, ContentFault>
    requires is { IsPosition position.old }
    requires inside { position.old.start + slots.cells_for position.old.bytes ≤ (V.seen view.old).cells }
    ensures is { IsPosition position.new }
    ensures start { position.new.start ≡ position.old.start }
    ensures bytes { position.new.bytes ≡ position.old.bytes }
    ensures viewed { Viewed (V.seen view.old) (V.seen view.new) }
    ensures reads { (V.seen view.new).base.reads + position.old.read
        ≤ (V.seen view.old).base.reads + position.new.read }
    ensures ends { NextRowEnds (V.seen view.old) (V.seen view.new) position.old position.new into.new result }
    ensures whole { IfOk result (λ n. position.old.held.length ≤ position.old.given
        → n ≡ min ROW_CONTENT (position.old.bytes - 15 * position.old.read)) }
{
    if position.given < position.held.length {
        return Ok(position.give_rest(into));
    }
    let count = ROW_CELLS.min(cells_for(position.bytes) - position.read);
    if count == 0 {
        return Err(ContentFault::Broken);
    }
    match read_cells(
        view,
        position.start,
        position.bytes,
        position.read,
        count,
        into,
    ) {
        Ok(length) => {
            position.pass(count);
            Ok(length)
        }
        Err(fault) => {
            position.end_behind(count);
            Err(fault)
        }
    }
}
