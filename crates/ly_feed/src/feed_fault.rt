ghost use Rattle.std.specs.Prelude.{◌≡◌};
ghost use Rattle.ly_feed.specs.FeedFaultNames.{feed_fault_name, feed_fault_number, feed_fault_of};
ghost use Rattle.ly_feed.specs.declared.feed_fault.FeedFault.TheVariants.{OutOfMemory};

use crate::text_fault::TextFault;
use ly_base::OutOfMemory as NoMemory;
use std::alloc::AllocError;
use thiserror::Error;

/// Why a feed has no result for a chunk, or for the end of the text. The feed has then ended.
#[derive(Clone, Copy, Debug, PartialEq, Eq, Error)]
pub enum FeedFault {
    /// The tables are faulty for this text: a goto is missing, a body extends past the bottom of the stack, they accept
    /// without a tree, or a trailing context leaves no byte or more than its match has. Never for generated tables.
    #[error("the tables are faulty")]
    FaultyTables,
    /// The feed had ended before the call, which changed nothing.
    #[error("the feed has ended")]
    Over,
    /// More than 2^64-1 bytes have come, including those already dropped. This is checked before memory is allocated.
    #[error("the text is too long")]
    TooLong,
    /// Out of memory, or the tree has more than 2^48 long leaves or nodes, which no memory holds.
    #[error("out of memory")]
    OutOfMemory,
}

impl FeedFault {
    /// The error's number; none for `OutOfMemory`.
    pub fn number(&self) -> Option<u8>
        ensures { result ≡ feed_fault_number self.now }
    {
        match self {
            FeedFault::FaultyTables => Some(90),
            FeedFault::Over => Some(91),
            FeedFault::TooLong => Some(92),
            FeedFault::OutOfMemory => None,
        }
    }

    /// The error's name.
    pub fn name(&self) -> &'static str
        ensures { result.now ≡ feed_fault_name self.now }
    {
        match self {
            FeedFault::FaultyTables => "TableFault",
            FeedFault::Over => "Over",
            FeedFault::TooLong => "TooLong",
            FeedFault::OutOfMemory => "OutOfMemory",
        }
    }
}

impl From<AllocError> for FeedFault {
    ghost from_gives = { λ _ e. e ≡ OutOfMemory };

    fn from(_error: AllocError) -> FeedFault {
        FeedFault::OutOfMemory
    }
}

impl From<NoMemory> for FeedFault {
    ghost from_gives = { λ _ e. e ≡ OutOfMemory };

    fn from(_error: NoMemory) -> FeedFault {
        FeedFault::OutOfMemory
    }
}

impl From<TextFault> for FeedFault {
    ghost from_gives = { λ fault e. e ≡ feed_fault_of fault };

    fn from(fault: TextFault) -> FeedFault {
        match fault {
            TextFault::FaultyTables => FeedFault::FaultyTables,
            TextFault::TooLong => FeedFault::TooLong,
            // a feed reads nothing, and a write to memory fails only for lack of it
            TextFault::Read | TextFault::Write { .. } | TextFault::OutOfMemory => {
                FeedFault::OutOfMemory
            }
        }
    }
}
