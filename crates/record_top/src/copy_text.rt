//! The text that tells of a copy.
ghost use Rattle.std.specs.Prelude.{◌≡◌, ◌++◌, IfOk, OnOk};
ghost use Rattle.record_top.specs.Copying.{copied_line, copy_text, slots_line};

use cell_types::{NoMemory, memory};
use itoa::Buffer;
use std::alloc::Global;
use volume_copy::Moved;

/// The text that tells of the documents that were copied, or found in the target.
pub fn text_of(alloc: Global, moves: &[Moved]) -> Result<Vec<u8>, NoMemory>
    ensures { IfOk result (λ text. text.items ≡ copy_text moves.now) }
{
    let mut text = Vec::new(alloc);
    for moved in moves {
        push_slots_line(&mut text, moved.old, moved.new)?;
    }
    push_copied_line(&mut text, moves.len())?;
    Ok(text)
}

/// Puts the line that tells of a document behind the text.
fn push_slots_line(text: &mut Vec<u8>, old: u32, new: u32) -> Result<(), NoMemory>
    ensures { OnOk result (text.new.items ≡ text.old.items ++ slots_line old new) }
{
    let mut digits = Buffer::new();
    memory::extend_from_slice(text, digits.format(old).as_bytes())?;
    memory::extend_from_slice(text, b" ")?;
    memory::extend_from_slice(text, digits.format(new).as_bytes())?;
    memory::extend_from_slice(text, b"\n")
}

/// Puts the line that says how many were copied behind the text.
fn push_copied_line(text: &mut Vec<u8>, count: usize) -> Result<(), NoMemory>
    ensures { OnOk result (text.new.items ≡ text.old.items ++ copied_line count) }
{
    let mut digits = Buffer::new();
    memory::extend_from_slice(text, digits.format(count).as_bytes())?;
    memory::extend_from_slice(text, b" copied\n")
}
