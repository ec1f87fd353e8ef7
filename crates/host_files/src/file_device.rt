//! A file as a device, and how one is made.
ghost use Rattle.std.specs.Prelude.{◌≡◌, ◌<◌, ◌≤◌, ◌⊎◌, ◌/◌, ◌*◌, ℕ, Err, IfOk, IfErr};
ghost use Rattle.cell_types.specs.declared.geometry.TheConstants.{MAX_CELLS};
ghost use Rattle.host_files.specs.Device.{SureStands};
ghost use Rattle.host_files.specs.Pages.{Mirror};
ghost use Rattle.std.proofs.Props.{props};

use crate::{HostCalls, HostFile, OsFile, Pages, open_file};
use cell_types::MAX_CELLS;
use std::rt::Files;

/// Why a file was not opened as a device.
#[derive(Clone, Copy, Debug, PartialEq, Eq)]
pub enum OpenFault {
    /// The host refused: there is no such file, it may not be read, or it is a folder or a pipe.
    Host,
    /// The file has room for so many cells, and a device has 1 to 2,147,483,648.
    Size(u64),
}

/// How many whole cells a file of so many bytes has; as an error where no device has so many.
fn cells_of(bytes: u64) -> Result<u32, u64>
    ensures cells { IfOk result (λ cells. (cells ≡ bytes / 16) × (1 ≤ cells) × (cells ≤ MAX_CELLS)) }
    ensures refused { IfErr result (λ cells. (cells ≡ bytes / 16) × ((cells ≡ 0) ⊎ (MAX_CELLS < cells))) }
{
    let cells = bytes / 16;
    if cells == 0 || u64::from(MAX_CELLS) < cells {
        return Err(cells);
    }
    Ok(cells as u32)
}

/// A file as a device. What is sure of it stands, now and at each moment before, and the pages that are held show what
/// the file holds.
#[derive(Drop)]
pub struct FileDevice<F: HostFile> {
    pub(crate) file: F,
    pub(crate) cells: u32,
    pub(crate) pages: Pages,
    pub(crate) reads: u64,
    ghost some_cells: { 1 ≤ cells },
    ghost most_cells: { cells ≤ MAX_CELLS },
    ghost inside: { 16 * cells ≤ (F.state file).size },
    ghost stands: { SureStands cells (F.state file).told } by { Prim.hlevel props },
    ghost mirror: { Mirror cells (F.state file).told pages.pages.items } by { Prim.hlevel props },
}

impl<F: HostFile + Drop> FileDevice<F> {
    ghost use Rattle.host_files.specs.Device.{device_over};
    ghost use Rattle.host_files.specs.Over.{file_below, state_over};
    ghost use Rattle.host_files.specs.declared.file_device.OpenFault.TheVariants.{Size};

    /// A device over a file that is open already. What these pages held before is forgotten. A file of a host that
    /// tells has to have what is sure of it standing, as one whose bytes are all sure.
    pub fn over(file: F, mut pages: Pages) -> Result<FileDevice<F>, OpenFault>
        requires { (cells : ℕ) → SureStands cells (F.state file).told }
        ensures made { IfOk result (λ device.
            state_over device ≡ device_over ((F.state file).size / 16) 0 (F.state file)) }
        ensures refused { IfErr result (λ fault. (fault ≡ Size ((F.state file).size / 16))
            × (((F.state file).size / 16 ≡ 0) ⊎ (MAX_CELLS < (F.state file).size / 16))) }
    {
        let cells = match cells_of(file.size()) {
            Ok(cells) => cells,
            Err(cells) => return Err(OpenFault::Size(cells)),
        };
        pages.clear();
        Ok(FileDevice {
            file,
            cells,
            pages,
            reads: 0,
        })
    }

    /// The file below.
    pub fn file(&self) -> &F
        ensures { F.state result.now ≡ file_below self.now }
    {
        &self.file
    }
}

impl<F: HostCalls + Drop> FileDevice<OsFile<F>> {
    ghost use Rattle.host_files.specs.declared.file_device.OpenFault.TheVariants.{Size};

    /// Opens a file that exists as a device, for reading and, where the host allows it, writing: else each write fails.
    /// It neither makes nor empties a file.
    pub fn open<R: Files<File = F>>(
        rt: &R,
        path: &str,
        pages: Pages,
    ) -> Result<FileDevice<OsFile<F>>, OpenFault>
        ensures { (cells : ℕ) → result ≡ Err (Size cells) → (cells ≡ 0) ⊎ (MAX_CELLS < cells) }
    {
        let Ok(file) = open_file(rt, path) else {
            return Err(OpenFault::Host);
        };
        match OsFile::of(file) {
            Ok(file) => FileDevice::over(file, pages),
            Err(_) => Err(OpenFault::Host),
        }
    }
}
