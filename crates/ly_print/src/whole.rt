ghost use Rattle.std.specs.Prelude.{◌≡◌, ◌<◌, length, take, OnOk, IfErr, OnErr, IfOk, IfSome, IsErrOf};
ghost use Rattle.std.specs.Io.KnownBytes.{Appends, IsAtEnd};
ghost use Rattle.ly_print.specs.Device.{next_count};
ghost use Rattle.ly_print.specs.declared.whole.ReadFault.TheVariants.{OutOfMemory};

use crate::device::{Sink, Source};
use std::alloc::{AllocError, Global};
use thiserror::Error;

/// A write failed. Exactly the first `written` bytes were written.
#[derive(Clone, Copy, Debug, PartialEq, Eq, Error)]
#[error("a write failed after {written} bytes")]
pub struct WriteFault {
    /// The number of bytes that were written.
    pub written: usize,
}

/// Writes all of `bytes`, with as many calls as needed. Stops at the first failure.
pub fn write_whole<W: Sink>(writer: &mut W, bytes: &[u8]) -> Result<(), WriteFault>
    ensures ok { OnOk result (Appends (W.contents writer.old) (W.contents writer.new) bytes.now) }
    ensures no_failure { OnOk result (W.failures writer.new ≡ W.failures writer.old) }
    ensures partial { IfErr result (λ fault. Appends (W.contents writer.old) (W.contents writer.new)
        (take fault.written bytes.now)) }
    ensures within { IfErr result (λ fault. fault.written < length bytes.now) }
    ensures failed { OnErr result (W.failures writer.new ≡ next_count (W.failures writer.old)) }
{
    let mut written = 0;
    while written < bytes.len() {
        match writer.push(&bytes[written..]) {
            Ok(n) if n > 0 => written += n,
            _ => return Err(WriteFault { written }),
        }
    }
    Ok(())
}

/// Why a source was not read to its end.
#[derive(Clone, Copy, Debug, PartialEq, Eq, Error)]
pub enum ReadFault {
    /// A read failed.
    #[error("a read failed")]
    Read,
    /// The bytes don't fit into memory.
    #[error("out of memory")]
    OutOfMemory,
}

impl From<AllocError> for ReadFault {
    ghost from_gives = { λ _ fault. fault ≡ OutOfMemory };

    fn from(_error: AllocError) -> ReadFault {
        ReadFault::OutOfMemory
    }
}

/// The number of bytes that are read at a time.
const ROOM: usize = 65_536;

/// Reads everything that is left, `ROOM` bytes at a time. Stops at the first failure; a failed read is never taken as
/// the end. A source that doesn't end is `OutOfMemory`.
pub fn read_whole<S: Source>(alloc: Global, source: &mut S) -> Result<Vec<u8>, ReadFault>
    ensures bytes { IfOk result (λ read. IfSome (S.remaining source.old) (λ bytes. read.items ≡ bytes)) }
    ensures ended { OnOk result (IsAtEnd (S.remaining source.new)) }
    ensures no_failure { OnOk result (S.failures source.new ≡ S.failures source.old) }
    ensures failed { IsErrOf result ReadFault.Read → S.failures source.new ≡ next_count (S.failures source.old) }
    ensures memory { IsErrOf result ReadFault.OutOfMemory → S.failures source.new ≡ S.failures source.old }
{
    let mut read = Vec::new(alloc);
    let mut room = [0u8; ROOM];
    for _ in 0..u64::MAX {
        match source.pull(&mut room) {
            Ok(0) => return Ok(read),
            Ok(count) => read.extend_from_slice(&room[..count])?,
            Err(_) => return Err(ReadFault::Read),
        }
    }
    Err(ReadFault::OutOfMemory)
}
