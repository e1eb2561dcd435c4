ghost use Rattle.std.specs.Prelude.{◌++◌};
ghost use Rattle.std.specs.Fmt.{decimal};
ghost use Rattle.ly_text_buffer.specs.Json.{key_words};
ghost use Rattle.ly_text_buffer.specs.TextBuffer.{Says, SaysMore};

use crate::buffer::TextBuffer;
use ly_base::OutOfMemory;
use std::alloc::AllocError;

impl TextBuffer {
    /// Appends the text of another page as a JSON string.
    pub fn push_json_buffer(&mut self, buffer: TextBuffer)
        ensures { SaysMore self.old self.new }
    {
        match buffer.finish() {
            Ok(text) => self.push_json(&text),
            Err(OutOfMemory) => self.note(Err(AllocError)),
        }
    }

    /// Appends a comma and the key of a member of a JSON object. Another member precedes it.
    pub fn push_json_key(&mut self, key: &[u8])
        ensures { Says self.old (key_words key.now) self.new }
    {
        self.push(b",\"");
        self.push(key);
        self.push(b"\":");
    }

    /// Appends a comma and a member of a JSON object whose value is a number. Another member precedes it.
    pub fn push_json_number(&mut self, key: &[u8], number: u64)
        ensures { Says self.old (key_words key.now ++ decimal number) self.new }
    {
        self.push_json_key(key);
        self.push_number(number);
    }
}
