ghost use Rattle.std.specs.Prelude.{IfErr, IfOk};
ghost use Rattle.ly_files.specs.Fault.{IsReadFault};
ghost use Rattle.ly_files.specs.Folder.{IsFile};

use crate::file_fault::FileFault;
use crate::folder::Folder;
use ly_print::{ReadFault, read_whole};
use std::alloc::Global;

/// Reads a file whole.
///
/// The errors are `CannotRead` and `OutOfMemory`.
pub fn read_file<'a, D: Folder>(
    folder: &D,
    alloc: Global,
    path: &'a str,
) -> Result<Vec<u8>, FileFault<'a>>
    ensures read { IfOk result (λ bytes. IsFile (D.holds folder.now) path.now bytes.items) }
    ensures failed { IfErr result (IsReadFault path.now) }
{
    let mut file = match folder.open(alloc, path) {
        Ok(file) => file,
        Err(reason) => return Err(FileFault::CannotRead(path, Some(reason))),
    };
    match read_whole(alloc, &mut file) {
        Ok(bytes) => Ok(bytes),
        Err(ReadFault::Read) => Err(FileFault::CannotRead(path, None)),
        Err(ReadFault::OutOfMemory) => Err(FileFault::OutOfMemory),
    }
}
