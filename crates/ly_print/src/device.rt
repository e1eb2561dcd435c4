ghost use Rattle.std.specs.Prelude.{◌≡◌, ℕ, List, Option, length};
ghost use Rattle.std.specs.Io.{ReadsAtMost, WritesAtMost};
ghost use Rattle.std.specs.Io.KnownBytes.{ReadConsumes, WriteAppends};
ghost use Rattle.ly_print.specs.Device.{CountsFailure, read_failed, write_failed};

/// A read or a write failed.
#[derive(Clone, Copy, Debug, PartialEq, Eq)]
pub struct DeviceFailed;

/// A reader that counts its failures. Each `Err` is one.
pub trait Source {
    /// The bytes that are left to read, if they are known.
    ghost remaining: { Self → Option (List ℕ) };

    /// The number of calls that failed, modulo 2^64.
    ghost failures: { Self → ℕ };

    /// Reads bytes into `buf` and returns how many. 0 for a buffer of one or more bytes is the end. A call that fails
    /// reads no byte.
    fn pull(&mut self, buf: &mut [u8]) -> Result<usize, DeviceFailed>
        ensures bound { ReadsAtMost result buf.new }
        ensures bytes { ReadConsumes (remaining self.old) (remaining self.new) result buf.new }
        ensures counted { CountsFailure (read_failed result) (failures self.old) (failures self.new) };
}

/// A writer that counts its failures. Each `Err` is one, and so is each write of one or more bytes that takes 0 of
/// them.
pub trait Sink {
    /// The bytes that the writer holds, if they are known.
    ghost contents: { Self → Option (List ℕ) };

    /// The number of calls that failed, modulo 2^64.
    ghost failures: { Self → ℕ };

    /// Writes a prefix of `buf` and returns its length. A call that fails writes no byte.
    fn push(&mut self, buf: &[u8]) -> Result<usize, DeviceFailed>
        ensures bound { WritesAtMost result buf.now }
        ensures bytes { WriteAppends (contents self.old) (contents self.new) result buf.now }
        ensures counted { CountsFailure (write_failed result (length buf.now)) (failures self.old)
            (failures self.new) };
}
