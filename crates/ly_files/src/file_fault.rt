ghost use Rattle.ly_files.specs.declared.file_fault.FileFault.TheVariants as file_fault;
ghost use Rattle.std.specs.Prelude.{◌≡◌};

use std::alloc::AllocError;
use std::io;

/// Why a file wasn't read or written.
#[derive(Debug, Drop)]
pub enum FileFault<'a> {
    /// The file with this path can't be read, for this reason if it is known.
    CannotRead(&'a str, Option<io::Error>),
    /// The file with this path can't be written, for this reason.
    CannotWrite(&'a str, io::Error),
    /// Out of memory.
    OutOfMemory,
}

impl From<AllocError> for FileFault<'_> {
    ghost from_gives = { λ _ f. f ≡ file_fault.OutOfMemory };

    fn from(_error: AllocError) -> Self {
        FileFault::OutOfMemory
    }
}
