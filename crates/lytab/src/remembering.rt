//! Readers that keep what they returned.
ghost use Rattle.std.specs.Prelude.{◌≡◌};

use ly_base::OutOfMemory;
use ly_print::{DeviceFailed, Source};
use std::alloc::Global;
use std::marker::Model;

/// A reader that keeps what it returned.
pub trait Recall {
    /// What was read; nothing if it isn't kept. Returns an error if there was no memory for it.
    fn recalled(&self) -> Result<&[u8], OutOfMemory>;
}

/// A reader that keeps what it returned.
#[derive(Drop)]
pub struct Remembering<R> {
    /// The reader.
    reader: R,
    /// What it returned, if that is kept and there was memory for it.
    text: Result<Vec<u8>, OutOfMemory>,
    /// Whether it is kept.
    is_wanted: bool,
}

// The value is that of the inner reader, whatever is kept.
impl<R> Model for Remembering<R> {
    ghost Value = { R };

    ghost coded = { R.code };

    ghost view = { λ r. r.reader };
}

impl<R> Remembering<R> {
    /// A reader that keeps what it returns, if that is requested.
    pub fn new(alloc: Global, reader: R, is_wanted: bool) -> Self
        ensures { result ≡ reader }
    {
        Remembering {
            reader,
            text: Ok(Vec::new(alloc)),
            is_wanted,
        }
    }

    /// Keeps what was read. Once memory runs out, nothing is kept.
    fn add(&mut self, bytes: &[u8])
        ensures { self.new ≡ self.old }
    {
        let added = match &mut self.text {
            Ok(text) if self.is_wanted => text.extend_from_slice(bytes),
            _ => Ok(()),
        };
        if let Err(refused) = added {
            self.text = Err(OutOfMemory::from(refused));
        }
    }
}

impl<R: Source> Source for Remembering<R> {
    ghost remaining = { R.remaining };

    ghost failures = { R.failures };

    fn pull(&mut self, buf: &mut [u8]) -> Result<usize, DeviceFailed> {
        let count = self.reader.pull(buf)?;
        self.add(&buf[..count]);
        Ok(count)
    }
}

impl<R> Recall for Remembering<R> {
    fn recalled(&self) -> Result<&[u8], OutOfMemory> {
        match &self.text {
            Ok(text) => Ok(text),
            Err(OutOfMemory) => Err(OutOfMemory),
        }
    }
}
