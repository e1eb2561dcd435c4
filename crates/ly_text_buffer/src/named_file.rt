ghost use Rattle.std.specs.Prelude.{◌≡◌};
ghost use Rattle.std.specs.Option.{option_copied};
ghost use Rattle.ly_text_buffer.specs.NamedFile.{line_at};

/// A file with the name that the user gave for it.
#[derive(Clone, Copy)]
pub struct NamedFile<'t> {
    /// The name.
    pub name: &'t str,
    /// The bytes.
    pub bytes: &'t [u8],
}

impl<'t> NamedFile<'t> {
    /// The file with this name and these bytes.
    pub fn new(name: &'t str, bytes: &'t [u8]) -> NamedFile<'t>
        ensures name { result.name ≡ name.entry }
        ensures bytes { result.bytes ≡ bytes.entry }
    {
        NamedFile { name, bytes }
    }

    /// The bytes of the line with a number, without its newline. The first line is 1. Returns `None` if there is no
    /// such line.
    pub fn line(&self, number: u64) -> Option<&'t [u8]>
        ensures { option_copied result ≡ line_at self.now.bytes.now number }
    {
        let before = usize::try_from(number).ok()?.checked_sub(1)?;
        self.bytes.split(|byte| *byte == b'\n').nth(before)
    }
}
