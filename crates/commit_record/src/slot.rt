//! The state of a slot.
ghost use Rattle.std.specs.Prelude.{◌≡◌, ◌<◌, ◌≤◌, ◌+◌, IfOk};
ghost use Rattle.worm_device.specs.Views.{Viewed};
ghost use Rattle.commit_record.specs.Partition.{HasRoom};
ghost use Rattle.commit_record.specs.States.{StateEnds, stamp_cells};

use crate::slot_row::{plain_state, stamped_state};
use cell_types::{Fault, Volume};
use worm_device::View;

/// What has come of a slot. `start` is the first cell that it reserves and `length` how many they are; `bytes` is how
/// many stored bytes its document has, and `journal` how many cells its journal has.
#[derive(Clone, Copy)]
pub enum SlotState {
    /// Nothing.
    Unused,
    /// It has its cells, and nothing more.
    Reserved {
        start: u32,
        length: u32,
    },
    /// It was given up.
    Abandoned {
        start: u32,
        length: u32,
    },
    /// Its document and its journal are stored, and the journal is not yet carried out.
    Committed {
        start: u32,
        length: u32,
        bytes: u32,
        journal: u32,
    },
    /// Its document is stored and its journal carried out.
    Done {
        start: u32,
        length: u32,
        bytes: u32,
        journal: u32,
    },
}

/// The state of a slot, or the first of its reserve, outcome and done cell that is out of place. Where documents are
/// stamped, the outcome cell of a document without a stamp is. Makes at most three reads, and there at most four.
pub fn slot_state<V: View>(view: &mut V, volume: &Volume, slot: u32) -> Result<SlotState, Fault>
    requires slot { slot < volume.now.geometry.slots }
    requires size { volume.now.geometry.cells ≤ (V.seen view.old).cells }
    ensures viewed { Viewed (V.seen view.old) (V.seen view.new) }
    ensures reads { (V.seen view.new).base.reads ≤ (V.seen view.old).base.reads
        + (3 + stamp_cells volume.now.geometry) }
    ensures room { IfOk result (λ state. HasRoom state) }
    ensures ends { StateEnds volume.now.geometry slot (V.seen view.old) (V.seen view.new) result }
{
    if volume.geometry.is_stamped() {
        return stamped_state(view, &volume.geometry, slot);
    }
    plain_state(view, &volume.geometry, slot)
}
