//! The copy of a volume.
ghost use Rattle.volume_copy.specs.Copies.{Copies};

use crate::adding::copy_rest;
use crate::audited::audited_volume;
use crate::moved::Moved;
use crate::refused::from_source;
use crate::target::begin;
use cell_types::CopyRefusal;
use host_ports::{Meter, Silent};
use std::alloc::Global;
use worm_device::Device;

/// Copies the documents of a volume to another device, in order, with their identifiers, bodies and stamps, and answers for
/// each of them in which slot it was and in which it is now. Both volumes are audited. A target whose cell 0 is blank is
/// formatted with these numbers and the source's version. Another is to be a volume of just these numbers whose documents
/// are the first ones of the source; so a copy that was stopped is run again.
///
/// # Errors
///
/// `From` and `To` with the refusal of the source or of the target; `OtherVolume` where the target is a volume of other
/// slots, lists or version; `Differs` at the first pair of documents that differs; `Longer` where the target has a further
/// document; `NoMemory`.
pub fn copy<D: Device, E: Device>(
    alloc: Global,
    from: &mut D,
    to: &mut E,
    slots: u32,
    lists: u16,
) -> Result<Vec<Moved>, CopyRefusal>
    ensures { Copies slots lists (D.state from.old) (D.state from.new) (E.state to.old) (E.state to.new) result }
{
    copy_metered(alloc, from, to, slots, lists, &mut Silent)
}

/// The same, and shows how many of the checks of both audits are made, and then how many documents are copied.
pub fn copy_metered<D: Device, E: Device, M: Meter>(
    alloc: Global,
    from: &mut D,
    to: &mut E,
    slots: u32,
    lists: u16,
    meter: &mut M,
) -> Result<Vec<Moved>, CopyRefusal>
    ensures { Copies slots lists (D.state from.old) (D.state from.new) (E.state to.old) (E.state to.new) result }
{
    let source = match audited_volume(alloc, from, meter) {
        Ok(source) => source,
        Err(refusal) => return Err(from_source(refusal)),
    };
    let mut moved = match begin(alloc, from, &source, to, slots, lists, meter) {
        Ok(moved) => moved,
        Err(refusal) => return Err(refusal),
    };
    match copy_rest(alloc, from, &source, to, &mut moved, meter) {
        Ok(()) => Ok(moved),
        Err(refusal) => Err(refusal),
    }
}
