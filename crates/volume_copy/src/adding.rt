//! The documents that the target lacks.
ghost use Rattle.std.specs.Prelude.{◌≡◌, ◌<◌, ◌≤◌, IsTrue, length};
ghost use Rattle.cell_types.specs.Bytes.{AreBytes};
ghost use Rattle.volume_copy.specs.Adding.{AddsNext, AddsRest, CanBeRead};

use crate::audited::AuditedVolume;
use crate::moved::Moved;
use crate::refused::{from_source, to_target};
use crate::stored::read_stored;
use cell_types::{CopyRefusal, memory};
use host_ports::{Meter, Work};
use ingest_engine::ingest;
use std::alloc::Global;
use worm_device::Device;

/// Copies the document of this place among those of the source, from 0: reads it, and ingests it with its stamp.
pub(crate) fn copy_next<D: Device, E: Device>(
    alloc: Global,
    from: &mut D,
    source: &AuditedVolume,
    to: &mut E,
    place: usize,
) -> Result<Moved, CopyRefusal>
    requires inside { place < length source.now.parts.items }
    requires source { CanBeRead (D.state from.old) source.now }
    ensures { AddsNext source.now place (D.state from.old) (D.state from.new) (E.state to.old) (E.state to.new) result }
{
    let part = source.parts[place];
    let document = match read_stored(alloc, from, &source.volume, &part) {
        Ok(document) => document,
        Err(refusal) => return Err(from_source(refusal)),
    };
    let (identifier, body) = (document.identifier.bytes(), document.body.bytes());
    know_bytes(body);
    match ingest(alloc, to, identifier, document.stamp, body) {
        Ok(new) => Ok(Moved {
            old: part.slot,
            new,
        }),
        Err(refusal) => Err(to_target(refusal)),
    }
}

/// Known of a slice once it is passed: each of its items is a byte.
fn know_bytes(bytes: &[u8])
    ensures { AreBytes bytes.now }
{
    let _length = bytes.len();
}

/// Copies each document of the source that has no pair yet, and shows how many of all have one.
pub(crate) fn copy_rest<D: Device, E: Device, M: Meter>(
    alloc: Global,
    from: &mut D,
    source: &AuditedVolume,
    to: &mut E,
    moved: &mut Vec<Moved>,
    meter: &mut M,
) -> Result<(), CopyRefusal>
    requires source { CanBeRead (D.state from.old) source.now }
    ensures { AddsRest source.now (D.state from.old) (D.state from.new) (E.state to.old) (E.state to.new) moved.old.items
        moved.new.items result }
{
    let there = moved.len();
    for place in there..source.parts.len() {
        let pair = match copy_next(alloc, from, source, to, place) {
            Ok(pair) => pair,
            Err(refusal) => return Err(refusal),
        };
        memory::push(moved, pair)?;
        meter.show(Work::Copying, moved.len() as u64, source.parts.len() as u64);
    }
    Ok(())
}
