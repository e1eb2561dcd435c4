ghost use Rattle.std.specs.Prelude.{◌≡◌, ◌≢◌, ℕ, Bool, IfSome, IsSome, List, None, Option, false};
ghost use Rattle.ly_files.specs.Folder.{Changed, Files, IsCreated};
ghost use Rattle.ly_files.specs.Folders.{HasWritten};

use crate::create_fault::CreateFault;
use crate::file_fault::FileFault;
use crate::folder::Folder;
use std::alloc::Global;
use std::io::{self, ErrorKind};

/// How many paths are tried for a new file.
const TRIES: u32 = 100;

/// A file to write.
#[derive(Clone, Copy)]
struct Target<'a, 'p> {
    /// Its path.
    path: &'a str,
    /// The same path with links resolved.
    place: &'p str,
    /// The path of the new file that replaces it.
    new: &'p str,
}

/// Writes these bytes to a file, in place of an older one.
///
/// A new file beside it is renamed once it is complete. On a failure the older file is unchanged, and if there was
/// none, none is created; only a new file that can't be removed is left. What can't be replaced like this is
/// overwritten in place: a file of which the folder gives no rights, or beside which it creates no file with them.
///
/// The errors are `CannotWrite` and `OutOfMemory`.
pub fn write_file<'a, D: Folder>(
    folder: &mut D,
    alloc: Global,
    path: &'a str,
    bytes: &[u8],
) -> Result<(), FileFault<'a>>
    ensures written { HasWritten path.now bytes.now (D.is_plain folder.old) (D.holds folder.old) (D.holds folder.new)
        result }
{
    let place = folder.resolve(alloc, path)?;
    let Ok(rights) = folder.rights(&place) else {
        return overwrite(folder, path, bytes);
    };
    for number in 0..TRIES {
        let new = format!(in alloc; "{place}.{number}.new")?;
        let target = Target {
            path,
            place: &place,
            new: &new,
        };
        if let Some(ended) = replace(folder, target, &rights, bytes) {
            return ended;
        }
    }
    Err(FileFault::CannotWrite(path, io::Error::from(ErrorKind::AlreadyExists)))
}

/// Replaces a file by a new one, which has these bytes. Returns `None` if the path for the new one names a file.
fn replace<'a, D: Folder>(
    folder: &mut D,
    target: Target<'a, '_>,
    rights: &Option<D::Rights>,
    bytes: &[u8],
) -> Option<Result<(), FileFault<'a>>>
    requires beside { target.new.now ≢ target.place.now }
    requires same { IsSome (D.holds folder.old) → target.place.now ≡ target.path.now }
    ensures none { result ≡ None → D.holds folder.new ≡ D.holds folder.old }
    ensures plain { result ≡ None → D.is_plain folder.new ≡ D.is_plain folder.old }
    ensures written { IfSome result (HasWritten target.entry.path.now bytes.now (D.is_plain folder.old)
        (D.holds folder.old) (D.holds folder.new)) }
{
    match folder.create(target.new, rights, bytes) {
        Ok(()) => Some(take_place(folder, target)),
        Err(CreateFault::Exists) => None,
        Err(CreateFault::NotCreated) => Some(overwrite(folder, target.path, bytes)),
        Err(CreateFault::OtherRights) => match folder.remove(target.new) {
            Ok(()) => Some(overwrite(folder, target.path, bytes)),
            Err(reason) => Some(Err(FileFault::CannotWrite(target.path, reason))),
        },
        Err(CreateFault::NotWritten(reason)) => {
            let _ = folder.remove(target.new);
            Some(Err(FileFault::CannotWrite(target.path, reason)))
        }
    }
}

/// Gives a complete new file the path of the one that it replaces.
fn take_place<'a, D: Folder>(folder: &mut D, target: Target<'a, '_>) -> Result<(), FileFault<'a>>
    requires beside { target.new.now ≢ target.place.now }
    requires same { IsSome (D.holds folder.old) → target.place.now ≡ target.path.now }
    ensures { (before : Option Files) (bytes : List ℕ) (plain : Bool)
        → Changed (IsCreated target.entry.new.now bytes) before (D.holds folder.old)
        → HasWritten target.entry.path.now bytes plain before (D.holds folder.new) result }
{
    match folder.rename(target.new, target.place) {
        Ok(()) => Ok(()),
        Err(reason) => {
            let _ = folder.remove(target.new);
            Err(FileFault::CannotWrite(target.path, reason))
        }
    }
}

/// Overwrites a file in place.
fn overwrite<'a, D: Folder>(
    folder: &mut D,
    path: &'a str,
    bytes: &[u8],
) -> Result<(), FileFault<'a>>
    ensures { HasWritten path.now bytes.now false (D.holds folder.old) (D.holds folder.new) result }
{
    match folder.overwrite(path, bytes) {
        Ok(()) => Ok(()),
        Err(reason) => Err(FileFault::CannotWrite(path, reason)),
    }
}
