ghost use Rattle.std.specs.Prelude.{◌≡◌};
ghost use Rattle.ly_print.specs.Device.{next_count};

use crate::device::{DeviceFailed, Sink, Source};
use std::io::{Read, Write};

/// A reader or a writer with a count of its failures.
#[derive(Drop)]
pub struct Counted<T> {
    /// The reader or the writer.
    inner: T,
    /// The number of calls that failed.
    failures: u64,
}

impl<T> Counted<T> {
    ghost use Rattle.ly_print.specs.Counted.{device_of, failures_of};

    /// Counts the failures of `inner` from here on.
    pub fn new(inner: T) -> Self
        ensures device { device_of result ≡ inner }
        ensures none_yet { failures_of result ≡ 0 }
    {
        Counted { inner, failures: 0 }
    }

    /// Returns the reader or the writer. Its failures are no longer counted.
    pub fn into_inner(self) -> T
        ensures { result ≡ device_of self }
    {
        self.inner
    }

    /// Counts a failure.
    fn fail(&mut self) -> DeviceFailed
        ensures counted { failures_of self.new ≡ next_count (failures_of self.old) }
        ensures same { device_of self.new ≡ device_of self.old }
    {
        self.failures = self.failures.wrapping_add(1);
        DeviceFailed
    }
}

impl<T: Read> Source for Counted<T> {
    ghost use Rattle.ly_print.specs.Counted.{device_of, failures_of};

    ghost remaining = { λ c. T.remaining (device_of c) };

    ghost failures = { failures_of };

    fn pull(&mut self, buf: &mut [u8]) -> Result<usize, DeviceFailed> {
        match self.inner.read(buf) {
            Ok(count) => Ok(count),
            Err(_) => Err(self.fail()),
        }
    }
}

impl<T: Write> Sink for Counted<T> {
    ghost use Rattle.ly_print.specs.Counted.{device_of, failures_of};

    ghost contents = { λ c. T.contents (device_of c) };

    ghost failures = { failures_of };

    fn push(&mut self, buf: &[u8]) -> Result<usize, DeviceFailed> {
        match self.inner.write(buf) {
            Ok(0) if !buf.is_empty() => {
                self.fail();
                Ok(0)
            }
            Ok(count) => Ok(count),
            Err(_) => Err(self.fail()),
        }
    }
}
