//! Whose refusal ends a copy.
ghost use Rattle.std.specs.Prelude.{◌≡◌};
ghost use Rattle.volume_copy.specs.Refusing.{other_volume, refusal_from, refusal_to};

use cell_types::{Cell, CopyRefusal, Refusal};

/// The refusal of the volume that is copied. Want of memory is nobody's.
pub(crate) fn from_source(refusal: Refusal) -> CopyRefusal
    ensures { result ≡ refusal_from refusal }
{
    match refusal {
        Refusal::NoMemory { .. } => CopyRefusal::from(refusal.lack()),
        other => CopyRefusal::From(other),
    }
}

/// The refusal of the volume that is copied to.
pub(crate) fn to_target(refusal: Refusal) -> CopyRefusal
    ensures { result ≡ refusal_to refusal }
{
    match refusal {
        Refusal::NoMemory { .. } => CopyRefusal::from(refusal.lack()),
        other => CopyRefusal::To(other),
    }
}

/// The refusal of a target that is another volume.
pub(crate) fn other_volume(cell: Cell) -> CopyRefusal
    ensures { result ≡ other_volume cell }
{
    CopyRefusal::OtherVolume(cell)
}
