//! Laws: what the words of the contracts mean together. Each is a function that does nothing and whose contract is the
//! law.
ghost use Rattle.host_files.specs.Crashes.{CrashesAreSeen};
ghost use Rattle.host_files.specs.Over.{file_below, state_over};

use crate::{FileDevice, HostFile};

/// Each file that a crash could have left, at any moment, is one of the images that the device says a crash could have
/// left then.
pub fn crashes_are_seen<F: HostFile>(device: &FileDevice<F>)
    ensures { CrashesAreSeen (state_over device.now) (file_below device.now).told }
{
    let _ = device;
}
