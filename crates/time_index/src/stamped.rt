//! Whether the documents of the volume on a device are stamped.
ghost use Rattle.time_index.specs.Asking.{AsksStamps};

use cell_types::Refusal;
use commit_record::open;
use worm_device::{Device, Direct};

/// That they are, which cell 0 tells. Makes one read.
pub(crate) fn check_stamps<D: Device>(device: &mut D) -> Result<(), Refusal>
    ensures { AsksStamps (D.state device.old) (D.state device.new) result }
{
    let volume = open(&mut Direct::new(device))?;
    if !volume.geometry.is_stamped() {
        return Err(Refusal::NoStamps);
    }
    Ok(())
}
