ghost use Rattle.std.specs.Prelude.{◌≡◌};
ghost use Rattle.ly_engine.specs.AnswerFault.{answer_name, answer_number, Becomes};
ghost use Rattle.ly_engine.specs.declared.answer_fault.AnswerFault.TheVariants.{Text};

use ly_drive::TextFault;
use ly_generate::GenFault;
use thiserror::Error;

/// Why `answer` failed.
#[derive(Debug, Drop, Error)]
pub enum AnswerFault {
    /// The files are rejected. Nothing was read or written.
    #[error("{0}")]
    Gen(GenFault),
    /// The text has no result, or its output wasn't written completely. Out of memory while the tables are made is
    /// reported here too; nothing was read then. `FaultyTables` never occurs.
    #[error("{0}")]
    Text(TextFault),
}

impl AnswerFault {
    /// The number that is printed for the error; `None` for a device that fails and for out of memory.
    pub fn number(&self) -> Option<u8>
        ensures { result ≡ answer_number self.now }
    {
        match self {
            AnswerFault::Gen(fault) => fault.number(),
            AnswerFault::Text(fault) => fault.number(),
        }
    }

    /// The name that is printed for the error.
    pub fn name(&self) -> &'static str
        ensures { result.now ≡ answer_name self.now }
    {
        match self {
            AnswerFault::Gen(fault) => fault.name(),
            AnswerFault::Text(fault) => fault.name(),
        }
    }
}

impl From<GenFault> for AnswerFault {
    ghost from_gives = { λ f e. Becomes f e };

    fn from(fault: GenFault) -> AnswerFault {
        match fault {
            GenFault::OutOfMemory => AnswerFault::Text(TextFault::OutOfMemory),
            fault => AnswerFault::Gen(fault),
        }
    }
}

impl From<TextFault> for AnswerFault {
    ghost from_gives = { λ fault e. e ≡ Text fault };

    fn from(fault: TextFault) -> AnswerFault {
        AnswerFault::Text(fault)
    }
}
