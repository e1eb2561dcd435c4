ghost use Rattle.std.specs.Prelude.{◌≡◌};
ghost use Rattle.lytab_c.specs.Private.Reading.{unread};

use ly_print::{DeviceFailed, Source};

/// A reader of a text in memory. It never fails, so its count of failures stays 0.
#[derive(Drop)]
pub struct TextSource<'t> {
    /// The bytes that weren't read yet.
    rest: &'t [u8],
}

impl<'t> TextSource<'t> {
    /// A reader that returns all of a text, then the end.
    pub(crate) fn new(text: &'t [u8]) -> Self
        ensures { unread result ≡ text.now }
    {
        TextSource { rest: text }
    }
}

impl Source for TextSource<'_> {
    ghost use Rattle.std.specs.Prelude.{Some};
    ghost use Rattle.lytab_c.specs.Private.Reading.{unread};

    ghost remaining = { λ s. Some (unread s) };

    ghost failures = { λ s. 0 };

    fn pull(&mut self, buf: &mut [u8]) -> Result<usize, DeviceFailed> {
        let count = buf.len().min(self.rest.len());
        let (front, rest) = self.rest.split_at(count);
        buf[..count].copy_from_slice(front);
        self.rest = rest;
        Ok(count)
    }
}
