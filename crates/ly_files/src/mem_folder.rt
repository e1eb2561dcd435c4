ghost use Rattle.std.specs.Prelude.{◌≡◌, ◌-◌, ◌<◌, List, None, OnErr, OnOk, Option, Some};
ghost use Rattle.std.specs.Prelude.{◌↔◌, IfErr, IsErr, min, option_map, true, ℕ};
ghost use Rattle.ly_files.specs.Folder.{Files, IsCreated, IsRenamed, IsSet, IsSetSomehow, set};
ghost use Rattle.ly_files.specs.Folders.{IsCreatedOrNot, TakesFile};
ghost use Rattle.ly_files.specs.MemFolder.{changes_left, files_of, read_failures, unread};

use crate::create_fault::CreateFault;
use crate::folder::Folder;
use ly_print::{DeviceFailed, Source};
use std::alloc::{AllocError, Global};
use std::io::{self, ErrorKind};

/// A path and its file, or none if that was removed.
#[derive(Drop)]
struct Entry {
    /// The path.
    path: String,
    /// The bytes of the file.
    file: Option<Vec<u8>>,
}

impl Entry {
    /// The bytes of the file.
    fn bytes(&self) -> Option<&[u8]>
        ensures { option_map (λ bytes. bytes.now) result ≡ option_map (λ file. file.items) self.now.file }
    {
        match &self.file {
            Some(file) => Some(file.as_slice()),
            None => None,
        }
    }
}

/// Files in memory. The folder can be set to fail after a number of changes.
#[derive(Drop)]
pub struct MemFolder {
    /// The allocator.
    alloc: Global,
    /// The changes. The last one of a path holds.
    entries: Vec<Entry>,
    /// The number of changes that succeed before each fails, if it is set to fail.
    left: Option<usize>,
}

/// An open file of a folder in memory.
#[derive(Drop)]
pub struct MemFile {
    /// Its bytes.
    bytes: Vec<u8>,
    /// How many were read.
    read: usize,
}

impl MemFolder {
    /// A folder without files.
    pub fn new(alloc: Global) -> Self
        ensures files { (path : List ℕ) → files_of result path ≡ None }
        ensures never_fails { changes_left result ≡ None }
    {
        MemFolder {
            alloc,
            entries: Vec::new(alloc),
            left: None,
        }
    }

    /// From here on this many changes succeed, and then each fails.
    pub fn fail_after(&mut self, count: usize)
        ensures files { files_of self.new ≡ files_of self.old }
        ensures fails { changes_left self.new ≡ Some count }
    {
        self.left = Some(count);
    }

    /// Adds a file, or replaces one. It fails if memory runs out; the files are then unchanged.
    pub fn put(&mut self, path: &str, bytes: &[u8]) -> Result<(), AllocError>
        ensures ok { OnOk result (files_of self.new ≡ set path.now (Some bytes.now) (files_of self.old)) }
        ensures err { OnErr result (files_of self.new ≡ files_of self.old) }
        ensures left { changes_left self.new ≡ changes_left self.old }
    {
        let file = Vec::from_slice(self.alloc, bytes)?;
        self.note(path, Some(file))
    }

    /// The bytes of a file, if the path names one.
    pub fn get(&self, path: &str) -> Option<&[u8]>
        ensures { option_map (λ file. file.now) result ≡ files_of self.now path.now }
    {
        let mut found = None;
        for entry in &self.entries {
            if path == entry.path.as_str() {
                found = entry.bytes();
            }
        }
        found
    }

    /// Notes that a path names this file from now on, or none.
    fn note(&mut self, path: &str, file: Option<Vec<u8>>) -> Result<(), AllocError>
        ensures ok { OnOk result
            (files_of self.new ≡ set path.now (option_map (λ f. f.items) file) (files_of self.old)) }
        ensures err { OnErr result (files_of self.new ≡ files_of self.old) }
        ensures left { changes_left self.new ≡ changes_left self.old }
    {
        let path = String::from_str(self.alloc, path)?;
        self.entries.push(Entry { path, file })?;
        Ok(())
    }

    /// Counts a change. It fails if the folder is set to fail now.
    fn count(&mut self) -> io::Result<()>
        ensures files { files_of self.new ≡ files_of self.old }
        ensures fails { IsErr result ↔ (changes_left self.old ≡ Some 0) }
        ensures left { changes_left self.new ≡ option_map (λ n. n - 1) (changes_left self.old) }
    {
        match self.left {
            Some(0) => Err(io::Error::from(ErrorKind::StorageFull)),
            Some(left) => {
                self.left = Some(left - 1);
                Ok(())
            }
            None => Ok(()),
        }
    }
}

impl Folder for MemFolder {
    ghost holds = { λ folder. Some (files_of folder) };

    ghost is_plain = { λ _. true };

    type File = MemFile;

    type Rights = ();

    fn open(&self, alloc: Global, path: &str) -> io::Result<MemFile> {
        match self.get(path) {
            Some(file) => Ok(MemFile {
                bytes: Vec::from_slice(alloc, file)?,
                read: 0,
            }),
            None => Err(io::Error::from(ErrorKind::NotFound)),
        }
    }

    fn reason(&self, alloc: Global, path: &str) -> Option<io::Error> {
        self.open(alloc, path).err()
    }

    fn resolve(&self, alloc: Global, path: &str) -> Result<String, AllocError> {
        String::from_str(alloc, path)
    }

    fn rights(&self, path: &str) -> io::Result<Option<()>> {
        match self.get(path) {
            Some(_) => Ok(Some(())),
            None => Ok(None),
        }
    }

    /// If it is set to fail, an empty file is left.
    fn create(&mut self, path: &str, _rights: &Option<()>, bytes: &[u8]) -> Result<(), CreateFault>
        ensures ok { OnOk result (IsCreated path.now bytes.now (files_of self.old) (files_of self.new)) }
        ensures err { IfErr result (IsCreatedOrNot path.now (Some (files_of self.old)) (Some (files_of self.new))) }
        ensures takes { TakesFile result }
        ensures fails { changes_left self.old ≡ Some 0 → IsErr result }
    {
        if self.get(path).is_some() {
            return Err(CreateFault::Exists);
        }
        let written = match self.count() {
            Ok(()) => self.put(path, bytes),
            Err(reason) => {
                let _ = self.put(path, b"");
                return Err(CreateFault::NotWritten(reason));
            }
        };
        match written {
            Ok(()) => Ok(()),
            Err(error) => Err(CreateFault::NotWritten(io::Error::from(error))),
        }
    }

    fn rename(&mut self, from: &str, to: &str) -> io::Result<()>
        ensures ok { OnOk result (IsRenamed from.now to.now (files_of self.old) (files_of self.new)) }
        ensures err { OnErr result (files_of self.new ≡ files_of self.old) }
        ensures fails { changes_left self.old ≡ Some 0 → IsErr result }
    {
        self.count()?;
        let Some(bytes) = self.get(from) else {
            return Err(io::Error::from(ErrorKind::NotFound));
        };
        let moved = Entry {
            path: String::from_str(self.alloc, to)?,
            file: Some(Vec::from_slice(self.alloc, bytes)?),
        };
        let gone = Entry {
            path: String::from_str(self.alloc, from)?,
            file: None,
        };
        self.entries.reserve(2)?;
        self.entries.push_reserved(moved);
        self.entries.push_reserved(gone);
        Ok(())
    }

    fn remove(&mut self, path: &str) -> io::Result<()>
        ensures ok { OnOk result (IsSet path.now None (files_of self.old) (files_of self.new)) }
        ensures err { OnErr result (files_of self.new ≡ files_of self.old) }
        ensures fails { changes_left self.old ≡ Some 0 → IsErr result }
    {
        self.count()?;
        Ok(self.note(path, None)?)
    }

    fn overwrite(&mut self, path: &str, bytes: &[u8]) -> io::Result<()>
        ensures ok { OnOk result (IsSet path.now (Some bytes.now) (files_of self.old) (files_of self.new)) }
        ensures err { OnErr result (IsSetSomehow path.now (files_of self.old) (files_of self.new)) }
        ensures fails { changes_left self.old ≡ Some 0 → IsErr result }
    {
        self.count()?;
        Ok(self.put(path, bytes)?)
    }
}

impl Source for MemFile {
    ghost remaining = { λ file. Some (unread file) };

    ghost failures = { read_failures };

    fn pull(&mut self, buf: &mut [u8]) -> Result<usize, DeviceFailed> {
        let Some(rest) = self.bytes.get(self.read..) else {
            return Ok(0);
        };
        let count = buf.len().min(rest.len());
        buf[..count].copy_from_slice(&rest[..count]);
        self.read += count;
        Ok(count)
    }
}
