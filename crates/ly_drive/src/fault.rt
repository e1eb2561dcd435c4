ghost use Rattle.std.specs.Prelude.{◌≡◌};
ghost use Rattle.ly_drive.specs.DriveFault.{drive_name, drive_number, fault_of_tables};
ghost use Rattle.ly_drive.specs.declared.fault.DriveFault.TheVariants.{Text};

use ly_feed::TextFault;
use ly_tables::TableFault;
use thiserror::Error;

/// Why a text has no result with a table file.
#[derive(Clone, Copy, Debug, PartialEq, Eq, Error)]
pub enum DriveFault {
    /// The bytes are no valid table file. Nothing was read or written.
    #[error("{0}")]
    Tables(TableFault),
    /// The text has no result, or the result wasn't written completely. Running out of memory while the table file is
    /// read is this too: nothing was read then.
    #[error("{0}")]
    Text(TextFault),
}

impl DriveFault {
    /// The error's number; none for a device that fails and for out of memory.
    pub fn number(&self) -> Option<u8>
        ensures { result ≡ drive_number self.now }
    {
        match self {
            DriveFault::Tables(fault) => fault.number(),
            DriveFault::Text(fault) => fault.number(),
        }
    }

    /// The error's name.
    pub fn name(&self) -> &'static str
        ensures { result.now ≡ drive_name self.now }
    {
        match self {
            DriveFault::Tables(fault) => fault.name(),
            DriveFault::Text(fault) => fault.name(),
        }
    }
}

impl From<TableFault> for DriveFault {
    ghost from_gives = { λ fault e. e ≡ fault_of_tables fault };

    fn from(fault: TableFault) -> DriveFault {
        match fault {
            TableFault::OutOfMemory => DriveFault::Text(TextFault::OutOfMemory),
            fault => DriveFault::Tables(fault),
        }
    }
}

impl From<TextFault> for DriveFault {
    ghost from_gives = { λ fault e. e ≡ Text fault };

    fn from(fault: TextFault) -> DriveFault {
        DriveFault::Text(fault)
    }
}
