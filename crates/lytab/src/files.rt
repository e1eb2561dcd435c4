//! Files that are read and written whole, with notes of why that fails.
ghost use Rattle.std.specs.Prelude.{◌≡◌, ◌<◌, ℕ, IfErr, IfOk, OnErr, OnOk, length, option_map, take};
ghost use Rattle.std.specs.Io.KnownBytes.{Appends};
ghost use Rattle.ly_files.specs.Fault.{IsReadFault};
ghost use Rattle.ly_files.specs.Folder.{IsFile, IsOpened};
ghost use Rattle.ly_files.specs.Folders.{HasWritten};
ghost use Rattle.ly_print.specs.Device.{next_count};
ghost use Rattle.lytab.specs.Files.{AreWritten, IsLeftIf, set_if};

use crate::failure::Failure;
use crate::notes::Notes;
use ly_files::{FileFault, Folder};
use ly_print::{Sink, write_whole};
use std::alloc::Global;

/// The name of standard input and output.
pub const STANDARD: &str = "-";

/// Opens a file for reading. If that fails, the reason is noted.
pub fn open<'a, D: Folder>(
    folder: &D,
    alloc: Global,
    path: &'a str,
    notes: &mut Notes,
) -> Result<D::File, FileFault<'a>>
    ensures opened { IfOk result (λ file. IsOpened (D.holds folder.now) path.now (D.File.remaining file)) }
    ensures failed { IfErr result (IsReadFault path.now) }
{
    match folder.open(alloc, path) {
        Ok(file) => Ok(file),
        Err(reason) => {
            notes.write_reason(path, &reason);
            Err(FileFault::CannotRead(path, Some(reason)))
        }
    }
}

/// Reads a file whole. If that fails, the reason is noted.
pub fn read_file<'a, D: Folder>(
    folder: &D,
    alloc: Global,
    path: &'a str,
    notes: &mut Notes,
) -> Result<Vec<u8>, FileFault<'a>>
    ensures read { IfOk result (λ bytes. IsFile (D.holds folder.now) path.now bytes.items) }
    ensures failed { IfErr result (IsReadFault path.now) }
{
    let read = ly_files::read_file(folder, alloc, path);
    if let Err(fault) = &read {
        notes.write_fault_of_file(folder, fault);
    }
    read
}

/// Writes a file like `ly_files::write_file`. If that fails, the reason is noted.
pub fn write_file<'a, D: Folder>(
    folder: &mut D,
    alloc: Global,
    path: &'a str,
    bytes: &[u8],
    notes: &mut Notes,
) -> Result<(), FileFault<'a>>
    ensures { HasWritten path.now bytes.now (D.is_plain folder.old) (D.holds folder.old) (D.holds folder.new) result }
{
    let written = ly_files::write_file(folder, alloc, path, bytes);
    if let Err(fault) = &written {
        notes.write_fault_of_file(folder, fault);
    }
    written
}

/// Writes a file if a path is named for it and there are bytes for it.
pub fn write_if_named<'a, D: Folder>(
    folder: &mut D,
    alloc: Global,
    path: Option<&'a str>,
    bytes: &Option<Vec<u8>>,
    notes: &mut Notes,
) -> Result<(), FileFault<'a>>
    ensures written { OnOk result
        (AreWritten (set_if (option_map (λ p. p.now) path.entry) bytes.now) (D.holds folder.old) (D.holds folder.new)) }
    ensures left { OnErr result
        (IsLeftIf (option_map (λ p. p.now) path.entry) (D.holds folder.old) (D.holds folder.new)) }
{
    match path {
        Some(path) => match bytes {
            Some(bytes) => write_file(folder, alloc, path, bytes, notes),
            None => Ok(()),
        },
        None => Ok(()),
    }
}

/// Writes the bytes to a writer with this name.
pub fn write_to<'a, W: Sink>(writer: &mut W, path: &'a str, bytes: &[u8]) -> Result<(), Failure<'a>>
    ensures written { OnOk result (Appends (W.contents writer.old) (W.contents writer.new) bytes.now) }
    ensures beginning { OnErr result ((written : ℕ) × (written < length bytes.now)
        × Appends (W.contents writer.old) (W.contents writer.new) (take written bytes.now)) }
    ensures failed { IfErr result (λ failure. failure ≡ Failure.CannotWrite path.entry) }
    ensures no_failure { OnOk result (W.failures writer.new ≡ W.failures writer.old) }
    ensures counted { OnErr result (W.failures writer.new ≡ next_count (W.failures writer.old)) }
{
    match write_whole(writer, bytes) {
        Ok(()) => Ok(()),
        Err(_) => Err(Failure::CannotWrite(path)),
    }
}
