//! The documents that the target has already.
ghost use Rattle.std.specs.Prelude.{◌≡◌, ◌<◌, ◌≤◌, ◌↔◌, IsTrue, length};
ghost use Rattle.volume_copy.specs.Adding.{CanBeRead};
ghost use Rattle.volume_copy.specs.Comparing.{ComparesAll, ComparesNext, IsSameCopy};

use crate::audited::AuditedVolume;
use crate::moved::Moved;
use crate::refused::{from_source, to_target};
use crate::stored::{StoredCopy, read_stored};
use cell_types::{CopyRefusal, memory};
use std::alloc::Global;
use worm_device::Device;

/// The pairs of the target's documents with the first ones of the source.
pub(crate) fn compare<D: Device, E: Device>(
    alloc: Global,
    from: &mut D,
    source: &AuditedVolume,
    to: &mut E,
    target: &AuditedVolume,
) -> Result<Vec<Moved>, CopyRefusal>
    requires source { CanBeRead (D.state from.old) source.now }
    requires target { CanBeRead (E.state to.old) target.now }
    ensures { ComparesAll source.now target.now (D.state from.old) (D.state from.new) (E.state to.old) (E.state to.new)
        result }
{
    let mut moved = Vec::new(alloc);
    for place in 0..target.parts.len() {
        if place >= source.parts.len() {
            return Err(CopyRefusal::Longer(target.parts[place].slot));
        }
        let pair = match compare_next(alloc, from, source, to, target, place) {
            Ok(pair) => pair,
            Err(refusal) => return Err(refusal),
        };
        memory::push(&mut moved, pair)?;
    }
    Ok(moved)
}

/// The pair of the documents of this place on both sides, from 0.
fn compare_next<D: Device, E: Device>(
    alloc: Global,
    from: &mut D,
    source: &AuditedVolume,
    to: &mut E,
    target: &AuditedVolume,
    place: usize,
) -> Result<Moved, CopyRefusal>
    requires inside { place < length source.now.parts.items }
    requires within { place < length target.now.parts.items }
    requires source { CanBeRead (D.state from.old) source.now }
    requires target { CanBeRead (E.state to.old) target.now }
    ensures { ComparesNext source.now target.now place (D.state from.old) (D.state from.new) (E.state to.old)
        (E.state to.new) result }
{
    let (there, here) = (source.parts[place], target.parts[place]);
    let one = match read_stored(alloc, from, &source.volume, &there) {
        Ok(one) => one,
        Err(refusal) => return Err(from_source(refusal)),
    };
    let other = match read_stored(alloc, to, &target.volume, &here) {
        Ok(other) => other,
        Err(refusal) => return Err(to_target(refusal)),
    };
    let (old, new) = (there.slot, here.slot);
    if !is_same(&one, &other) {
        return Err(CopyRefusal::Differs { old, new });
    }
    Ok(Moved { old, new })
}

/// Whether two documents have the same identifier, body and stamp.
fn is_same(one: &StoredCopy, other: &StoredCopy) -> bool
    ensures { IsTrue result ↔ IsSameCopy one.now other.now }
{
    if one.identifier.bytes() != other.identifier.bytes() {
        return false;
    }
    if one.body.bytes() != other.body.bytes() {
        return false;
    }
    one.stamp == other.stamp
}
