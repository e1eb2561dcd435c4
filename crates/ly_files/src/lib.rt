//! Files by their paths: how a program reads them whole, and replaces them without losing the older one.
//!
//! A `Folder` is what a program asks for files. `HostFolder` asks the operating system, of whose files nothing is
//! known. `MemFolder` has its files in memory, where everything is known of them, and can be set to fail. What is
//! proved over any folder holds over both.
//!
//! `write_file` writes a new file beside the older one and then gives it the older one's path, as editors do. If
//! anything fails before that, the older file is as it was. Only where a folder can't replace a file like this, the
//! file is overwritten in place: a device, a file with several names, or a folder in which no file can be created.
//!
//! Not covered: what the operating system does with its files, several writers at once, and losses of power. Its calls
//! are trusted.
#![tactic(auto)]

mod create_fault;
mod file_fault;
mod folder;
mod host_folder;
mod mem_folder;
mod reading;
mod writing;

pub use create_fault::CreateFault;
pub use file_fault::FileFault;
pub use folder::Folder;
pub use host_folder::HostFolder;
pub use mem_folder::{MemFile, MemFolder};
pub use reading::read_file;
pub use writing::write_file;
