ghost use Rattle.std.specs.Prelude.{None, OnOk, false};
ghost use Rattle.std.specs.Io.KnownBytes.{Appends};

use crate::create_fault::CreateFault;
use crate::folder::Folder;
use ly_print::Counted;
use std::alloc::{AllocError, Global};
use std::fs::{self, File, Metadata, OpenFile, Permissions};
use std::io::{self, ErrorKind, Read, Write};
use std::os::unix::fs::{MetadataExt, PermissionsExt};
use std::rt::Files;

/// The bits of a mode for reading, writing and executing.
const PERMISSIONS: u32 = 0o777;

/// The files of the host, of which nothing is known.
#[derive(Clone, Copy)]
pub struct HostFolder<'f, F>(pub &'f F);

impl<F: Files> Folder for HostFolder<'_, F> {
    ghost holds = { λ _. None };

    ghost is_plain = { λ _. false };

    type File = Counted<F::File>;

    type Rights = Metadata;

    fn open(&self, _alloc: Global, path: &str) -> io::Result<Counted<F::File>> {
        Ok(Counted::new(fs::open(self.0, path)?))
    }

    fn reason(&self, _alloc: Global, path: &str) -> Option<io::Error> {
        match fs::open(self.0, path) {
            Ok(mut file) => file.read(&mut [0]).err(),
            Err(reason) => Some(reason),
        }
    }

    fn resolve(&self, alloc: Global, path: &str) -> Result<String, AllocError> {
        match self.0.canonicalize(alloc, path) {
            Ok(place) => Ok(place.into_string()),
            Err(_) => String::from_str(alloc, path),
        }
    }

    fn rights(&self, path: &str) -> io::Result<Option<Metadata>> {
        let older = match fs::symlink_metadata(self.0, path) {
            Ok(older) => older,
            Err(reason) if reason.kind() == ErrorKind::NotFound => return Ok(None),
            Err(reason) => return Err(reason),
        };
        if !older.is_file() || older.nlink() != 1 {
            return Err(io::Error::from(ErrorKind::Unsupported));
        }
        let _file = File::options().write(true).open(self.0, path)?;
        Ok(Some(older))
    }

    fn create(
        &mut self,
        path: &str,
        rights: &Option<Metadata>,
        bytes: &[u8],
    ) -> Result<(), CreateFault> {
        let mut file = match File::create_new(self.0, path) {
            Ok(file) => file,
            Err(reason) if reason.kind() == ErrorKind::AlreadyExists => {
                return Err(CreateFault::Exists);
            }
            Err(_) => return Err(CreateFault::NotCreated),
        };
        if let Some(older) = rights {
            if take_after(&file, older).is_err() {
                return Err(CreateFault::OtherRights);
            }
        }
        match write_through(&mut file, bytes) {
            Ok(()) => Ok(()),
            Err(reason) => Err(CreateFault::NotWritten(reason)),
        }
    }

    fn rename(&mut self, from: &str, to: &str) -> io::Result<()> {
        fs::rename(self.0, from, to)
    }

    fn remove(&mut self, path: &str) -> io::Result<()> {
        fs::remove_file(self.0, path)
    }

    fn overwrite(&mut self, path: &str, bytes: &[u8]) -> io::Result<()> {
        let mut file = fs::create(self.0, path)?;
        file.write_all(bytes)
    }
}

/// Gives a new file the permissions of an older one, but not the bits setuid and setgid, which the operating system
/// takes from a file that is written to. It fails if they have different owners.
fn take_after<T: OpenFile>(new: &T, older: &Metadata) -> io::Result<()> {
    let metadata = new.metadata()?;
    if older.uid() != metadata.uid() || older.gid() != metadata.gid() {
        return Err(io::Error::from(ErrorKind::Unsupported));
    }
    let mode = older.permissions().mode() & PERMISSIONS;
    new.set_permissions(Permissions::from_mode(mode))
}

/// Writes all bytes to a file and to its device.
fn write_through<T: Write + OpenFile>(file: &mut T, bytes: &[u8]) -> io::Result<()>
    ensures { OnOk result (Appends (T.contents file.old) (T.contents file.new) bytes.now) }
{
    file.write_all(bytes)?;
    file.sync_all()
}
