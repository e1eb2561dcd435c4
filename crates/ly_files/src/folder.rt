ghost use Rattle.std.specs.Prelude.{◌≡◌, ℕ, Bool, List, None, Option, Some, true, IfErr, IfOk, IsOk, IsSome, OnErr};
ghost use Rattle.std.specs.Prelude.{OnOk, string_bytes};
ghost use Rattle.ly_files.specs.Folder.{Changed, IsCreated, IsOpened, IsRenamed, IsSet, IsSetSomehow};
ghost use Rattle.ly_files.specs.Folders.{IsCreatedOrNot, TakesFile};

use crate::create_fault::CreateFault;
use ly_print::Source;
use std::alloc::{AllocError, Global};
use std::io;

/// Files by their paths.
///
/// What is known of the files is `holds`: nothing of the host's, which other programs change too, and everything of
/// those in memory.
pub trait Folder {
    /// For each path the bytes of its file, if it names one; `None` where nothing is known of the files.
    ghost holds: { Self → Option (List ℕ → Option (List ℕ)) };

    /// Whether all files are regular ones with one name each, and new files can be created beside them. Then a file
    /// can always be replaced by a new one.
    ghost is_plain: { Self → Bool };

    /// A file that is open for reading.
    type File: Source + Drop;

    /// What a new file takes over from the one that it replaces, as its permissions.
    type Rights: Drop;

    /// Opens a file for reading.
    ///
    /// It fails if the path names no file that can be read, or if memory runs out.
    fn open(&self, alloc: Global, path: &str) -> io::Result<Self::File>
        ensures { IfOk result (λ file. IsOpened (holds self.now) path.now (Self.File.remaining file)) };

    /// Why a file can't be opened, or its first byte can't be read, as the system says.
    fn reason(&self, alloc: Global, path: &str) -> Option<io::Error>;

    /// The path of a file with links resolved, or the same path if there is no file or it can't be resolved.
    fn resolve(&self, alloc: Global, path: &str) -> Result<String, AllocError>
        ensures { IfOk result (λ place. IsSome (holds self.now) → string_bytes place ≡ path.now) };

    /// What a new file takes over from the one with this path; `None` if the path names none.
    ///
    /// It fails if the file can't be replaced by a new one: if it isn't a regular file, has several names, or can't
    /// be written.
    fn rights(&self, path: &str) -> io::Result<Option<Self::Rights>>
        ensures { is_plain self.now ≡ true → IsOk result };

    /// Creates a file with these bytes and rights at a path that names none. The bytes are on the device afterwards.
    ///
    /// The errors are those of `CreateFault`.
    fn create(
        &mut self,
        path: &str,
        rights: &Option<Self::Rights>,
        bytes: &[u8],
    ) -> Result<(), CreateFault>
        ensures ok { OnOk result (Changed (IsCreated path.now bytes.now) (holds self.old) (holds self.new)) }
        ensures err { IfErr result (IsCreatedOrNot path.now (holds self.old) (holds self.new)) }
        ensures takes { is_plain self.old ≡ true → TakesFile result }
        ensures plain { is_plain self.new ≡ is_plain self.old };

    /// Gives a file another path. A file that had that path is gone. After an error all files are unchanged.
    fn rename(&mut self, from: &str, to: &str) -> io::Result<()>
        ensures ok { OnOk result (Changed (IsRenamed from.now to.now) (holds self.old) (holds self.new)) }
        ensures err { OnErr result (holds self.new ≡ holds self.old) }
        ensures plain { is_plain self.new ≡ is_plain self.old };

    /// Removes a file. After an error all files are unchanged.
    fn remove(&mut self, path: &str) -> io::Result<()>
        ensures ok { OnOk result (Changed (IsSet path.now None) (holds self.old) (holds self.new)) }
        ensures err { OnErr result (holds self.new ≡ holds self.old) }
        ensures plain { is_plain self.new ≡ is_plain self.old };

    /// Writes these bytes to a file in place of what it holds, or to a new one. After an error it may hold anything.
    fn overwrite(&mut self, path: &str, bytes: &[u8]) -> io::Result<()>
        ensures ok { OnOk result (Changed (IsSet path.now (Some bytes.now)) (holds self.old) (holds self.new)) }
        ensures err { OnErr result (Changed (IsSetSomehow path.now) (holds self.old) (holds self.new)) }
        ensures plain { is_plain self.new ≡ is_plain self.old };
}
