//! A reader of a document part.
ghost use Rattle.std.specs.Prelude.{◌≡◌, ◌≤◌, ◌+◌};
ghost use Rattle.append_file.specs.Reading.{IsPosition, NextByteEnds, at_start};
ghost use Rattle.volume_meaning.specs.Slots.{cells_for};
ghost use Rattle.worm_device.specs.Views.{Viewed};

use crate::piece::ContentFault;
use crate::position::{Position, next_byte};
use worm_device::View;

/// The bytes of a document part, one after another.
#[derive(Drop)]
pub struct Reader<'a, V> {
    view: &'a mut V,
    position: Position,
}

impl<'a, V: View> Reader<'a, V> {
    /// A reader of so many bytes in the cells from start on.
    pub fn new(view: &'a mut V, start: u32, bytes: u32) -> Reader<'a, V>
        requires { start + cells_for bytes ≤ (V.seen view.old).cells }
        ensures same_loan { result.view.ghost_name ≡ view.entry.ghost_name }
        ensures same { result.view.now ≡ view.old }
        ensures begins { result.position ≡ at_start start bytes }
    {
        Reader {
            view,
            position: Position::new(start, bytes),
        }
    }

    /// The next byte. After the last byte there is none, nor after a fault. Each cell is read once.
    pub fn next_byte(&mut self) -> Option<Result<u8, ContentFault>>
        requires is { IsPosition self.old.position }
        requires inside { self.old.position.start + cells_for self.old.position.bytes
            ≤ (V.seen self.old.view.now).cells }
        ensures same_loan { self.new.view.ghost_name ≡ self.old.view.ghost_name }
        ensures is { IsPosition self.new.position }
        ensures start { self.new.position.start ≡ self.old.position.start }
        ensures bytes { self.new.position.bytes ≡ self.old.position.bytes }
        ensures viewed { Viewed (V.seen self.old.view.now) (V.seen self.new.view.now) }
        ensures reads { (V.seen self.new.view.now).base.reads + self.old.position.read
            ≤ (V.seen self.old.view.now).base.reads + self.new.position.read }
        ensures ends { NextByteEnds (V.seen self.old.view.now) (V.seen self.new.view.now)
            self.old.position self.new.position result }
    {
        next_byte(self.view, &mut self.position)
    }
}
