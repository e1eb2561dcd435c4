ghost use Rattle.std.specs.Prelude.{◌≡◌, ◌+◌, ◌<◌, ◌≤◌, ◌⊎◌, ◌↔◌, [], Some, None, min, length, IsErr, IfOk, OnErr};
ghost use Rattle.std.specs.Io.{ReadsAtMost, WritesAtMost};
ghost use Rattle.std.specs.Io.KnownBytes.{ReadConsumes, WriteAppends};
ghost use Rattle.ly_print.specs.Device.{CountsFailure, allowed, left_after, read_failed, write_failed};

use crate::device::{DeviceFailed, Sink, Source};
use std::alloc::{AllocError, Global};

/// A source over bytes in memory. It can be set to fail after a number of bytes.
#[derive(Drop)]
pub struct MemSource<'a> {
    /// The bytes that are not read yet.
    rest: &'a [u8],
    /// The number of bytes that it gives before it fails, if it is set to fail.
    left: Option<usize>,
    /// The number of calls that failed.
    failures: u64,
}

impl<'a> MemSource<'a> {
    ghost use Rattle.ly_print.specs.MemSource.{gives_at_most, read_failures, unread};

    /// Makes a source that gives all of `bytes` and then the end.
    pub fn new(bytes: &'a [u8]) -> Self
        ensures bytes { unread result ≡ bytes.now }
        ensures never_fails { gives_at_most result ≡ None }
        ensures none_yet { read_failures result ≡ 0 }
    {
        MemSource {
            rest: bytes,
            left: None,
            failures: 0,
        }
    }

    /// Makes a source that gives the first `count` of `bytes` and then fails at each read, also at the end of `bytes`.
    pub fn failing_after(bytes: &'a [u8], count: usize) -> Self
        ensures bytes { unread result ≡ bytes.now }
        ensures fails { gives_at_most result ≡ Some count }
        ensures none_yet { read_failures result ≡ 0 }
    {
        MemSource {
            rest: bytes,
            left: Some(count),
            failures: 0,
        }
    }
}

impl Source for MemSource<'_> {
    ghost use Rattle.ly_print.specs.MemSource.{gives_at_most, read_failures, unread};

    ghost remaining = { λ s. Some (unread s) };

    ghost failures = { read_failures };

    fn pull(&mut self, buf: &mut [u8]) -> Result<usize, DeviceFailed>
        ensures bound { ReadsAtMost result buf.new }
        ensures bytes { ReadConsumes (Some (unread self.old)) (Some (unread self.new)) result buf.new }
        ensures counted { CountsFailure (read_failed result) (read_failures self.old) (read_failures self.new) }

        // It gives as many bytes as there are and as fit. It fails once it has given all bytes before its failure.
        ensures fails { IsErr result ↔ (gives_at_most self.old ≡ Some 0) }
        ensures count { IfOk result
            (λ n. n ≡ allowed (gives_at_most self.old) (min (length buf.old) (length (unread self.old)))) }
        ensures left { IfOk result (λ n. gives_at_most self.new ≡ left_after (gives_at_most self.old) n) }
        ensures goes_on_failing { OnErr result (gives_at_most self.new ≡ gives_at_most self.old) }
    {
        if self.left == Some(0) {
            self.failures = self.failures.wrapping_add(1);
            return Err(DeviceFailed);
        }
        let count = allowed(self.left, buf.len().min(self.rest.len()));
        let (front, rest) = self.rest.split_at(count);
        buf[..count].copy_from_slice(front);
        self.rest = rest;
        self.left = left_after(self.left, count);
        Ok(count)
    }
}

/// A sink into a vector. It fails when memory runs out, and can be set to fail after a number of bytes.
#[derive(Drop)]
pub struct MemSink {
    /// The bytes that were written.
    bytes: Vec<u8>,
    /// The number of bytes that it takes before it fails, if it is set to fail.
    left: Option<usize>,
    /// The number of calls that failed.
    failures: u64,
}

impl MemSink {
    ghost use Rattle.ly_print.specs.MemSink.{room, takes_at_most, write_failures, written};

    /// Makes a sink that takes all bytes while memory lasts.
    pub fn new(alloc: Global) -> Self
        ensures empty { written result ≡ [] }
        ensures never_fails { takes_at_most result ≡ None }
        ensures none_yet { write_failures result ≡ 0 }
    {
        MemSink {
            bytes: Vec::new(alloc),
            left: None,
            failures: 0,
        }
    }

    /// Makes a sink that takes `count` bytes and then fails at each write of one or more bytes.
    pub fn failing_after(alloc: Global, count: usize) -> Self
        ensures empty { written result ≡ [] }
        ensures fails { takes_at_most result ≡ Some count }
        ensures none_yet { write_failures result ≡ 0 }
    {
        MemSink {
            bytes: Vec::new(alloc),
            left: Some(count),
            failures: 0,
        }
    }

    /// Makes a sink that takes all bytes while memory lasts. It allocates `count` bytes now; fails if memory runs out.
    pub fn with_room(alloc: Global, count: usize) -> Result<Self, AllocError>
        ensures empty { IfOk result (λ s. written s ≡ []) }
        ensures never_fails { IfOk result (λ s. takes_at_most s ≡ None) }
        ensures none_yet { IfOk result (λ s. write_failures s ≡ 0) }
        ensures room { IfOk result (λ s. count ≤ room s) }
    {
        Ok(MemSink {
            bytes: Vec::with_capacity(alloc, count)?,
            left: None,
            failures: 0,
        })
    }

    /// The bytes that were written.
    pub fn bytes(&self) -> &[u8]
        ensures { result.now ≡ written self.now }
    {
        self.bytes.as_slice()
    }

    /// Returns the bytes that were written, as an owned vector.
    pub fn into_bytes(self) -> Vec<u8>
        ensures { result.items ≡ written self }
    {
        self.bytes
    }
}

impl Sink for MemSink {
    ghost use Rattle.ly_print.specs.MemSink.{room, takes_at_most, write_failures, written};

    ghost contents = { λ s. Some (written s) };

    ghost failures = { write_failures };

    /// Fails if no byte is left before its failure, and if memory runs out, which can only happen beyond its capacity.
    fn push(&mut self, buf: &[u8]) -> Result<usize, DeviceFailed>
        ensures bound { WritesAtMost result buf.now }
        ensures bytes { WriteAppends (Some (written self.old)) (Some (written self.new)) result buf.now }
        ensures counted { CountsFailure (write_failed result (length buf.now)) (write_failures self.old)
            (write_failures self.new) }

        // It takes as many bytes as there are and as are left before its failure.
        ensures fails { takes_at_most self.old ≡ Some 0 → 0 < length buf.now → IsErr result }
        ensures only { OnErr result (((takes_at_most self.old ≡ Some 0) × (0 < length buf.now))
            ⊎ (room self.old < length (written self.old) + allowed (takes_at_most self.old) (length buf.now))) }
        ensures room { room self.old ≤ room self.new }
        ensures count { IfOk result (λ n. n ≡ allowed (takes_at_most self.old) (length buf.now)) }
        ensures left { IfOk result (λ n. takes_at_most self.new ≡ left_after (takes_at_most self.old) n) }
        ensures goes_on_failing { OnErr result (takes_at_most self.new ≡ takes_at_most self.old) }
    {
        let count = allowed(self.left, buf.len());
        let full = count == 0 && !buf.is_empty();
        if full || self.bytes.extend_from_slice(&buf[..count]).is_err() {
            self.failures = self.failures.wrapping_add(1);
            return Err(DeviceFailed);
        }
        self.left = left_after(self.left, count);
        Ok(count)
    }
}

/// Returns `count`, or the number of bytes left before the failure if that is less.
fn allowed(left: Option<usize>, count: usize) -> usize
    ensures { result ≡ allowed left count }
{
    match left {
        Some(left) => left.min(count),
        None => count,
    }
}

/// The number of bytes left before the failure, after `count` more bytes.
fn left_after(left: Option<usize>, count: usize) -> Option<usize>
    ensures { result ≡ left_after left count }
{
    left.map(|left| left.saturating_sub(count))
}
