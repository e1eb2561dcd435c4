//! A file that is written over an older one, in a folder that fails after some changes.

use ly_files::{FileFault, MemFolder, read_file, write_file};
use std::alloc::{AllocError, Global};
use std::test::Fail;

const PATH: &str = "a.tables";

/// The path that is tried first for the new file.
const NEW: &str = "a.tables.0.new";

/// A folder with an older file.
fn folder_with_older(alloc: Global) -> Result<MemFolder, AllocError> {
    let mut folder = MemFolder::new(alloc);
    folder.put(PATH, b"older")?;
    Ok(folder)
}

/// Whether the path names a file with these bytes.
fn has(folder: &MemFolder, path: &str, bytes: &[u8]) -> bool {
    match folder.get(path) {
        Some(found) => found == bytes,
        None => false,
    }
}

/// Whether these bytes are in the file after a write in which this many changes succeed, which is reported as done if
/// two do.
fn leaves(alloc: Global, count: usize, wanted: &[u8]) -> Result<bool, AllocError> {
    let mut folder = folder_with_older(alloc)?;
    folder.fail_after(count);
    let written = write_file(&mut folder, alloc, PATH, b"newer");
    Ok(written.is_ok() == (count == 2) && has(&folder, PATH, wanted))
}

/// Whether the older file stands until the new one is complete and has its path.
fn stands_until_replaced(alloc: Global) -> Result<bool, AllocError> {
    Ok(leaves(alloc, 0, b"older")? && leaves(alloc, 1, b"older")? && leaves(alloc, 2, b"newer")?)
}

/// Whether a file at the first path for the new one is left alone.
fn leaves_a_taken_path(alloc: Global) -> Result<bool, AllocError> {
    let mut folder = folder_with_older(alloc)?;
    folder.put(NEW, b"another")?;
    let written = write_file(&mut folder, alloc, PATH, b"newer");
    Ok(written.is_ok() && has(&folder, PATH, b"newer") && has(&folder, NEW, b"another"))
}

/// Whether the file that is there is read, and one that isn't can't be.
fn reads_what_is_there(alloc: Global) -> Result<bool, AllocError> {
    let folder = folder_with_older(alloc)?;
    let older = read_file(&folder, alloc, PATH);
    let missing = read_file(&folder, alloc, NEW);
    let is_older = match older {
        Ok(bytes) => bytes.as_slice() == b"older".as_slice(),
        Err(_) => false,
    };
    Ok(is_older && matches!(missing, Err(FileFault::CannotRead(_, Some(_)))))
}

#[test]
fn older_files_stand_until_they_are_replaced(rt: HostRuntime) -> Result<(), Fail> {
    assert!(rt; stands_until_replaced(rt.alloc())?);
    assert!(rt; leaves_a_taken_path(rt.alloc())?);
    Ok(())
}

#[test]
fn files_are_read(rt: HostRuntime) -> Result<(), Fail> {
    assert!(rt; reads_what_is_there(rt.alloc())?);
    Ok(())
}
