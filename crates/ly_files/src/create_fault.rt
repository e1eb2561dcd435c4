use std::io;

/// Why a file wasn't created.
#[derive(Debug, Drop)]
pub enum CreateFault {
    /// The path names a file. All files are unchanged.
    Exists,
    /// No file can be created there. All files are unchanged.
    NotCreated,
    /// The file can't have the rights of the older one. It was created, and is incomplete.
    OtherRights,
    /// The bytes couldn't be written to the device, for this reason. The file was created, and may be incomplete.
    NotWritten(io::Error),
}
