ghost use Rattle.std.specs.Prelude.{◌≡◌, ◌<◌, ◌≤◌, ◌+◌, ◌^◌, ◌++◌, ℕ, List, [], ◌∷◌, Option, codes, length, take};
ghost use Rattle.std.specs.Prelude.{IfOk, IfErr, OnOk, OnErr, MatchResult};
ghost use Rattle.std.specs.Io.KnownBytes.{Appends};
ghost use Rattle.std.specs.List.{flat_map};
ghost use Rattle.ly_print.specs.Device.{next_count};
ghost use Rattle.ly_print.specs.Json.{bytes_member, json_content, json_located, numbers, string_body, text_member};
ghost use Rattle.ly_print.specs.Private.ByteForm.{written_as};
ghost use Rattle.ly_print.specs.Text.{no_rule_line, quoted, quoted_line};
ghost use Rattle.ly_print.specs.TextWriter.{bytes_of, IsAppended, IsCutShort, IsUnderway};

use crate::byte_form::{BYTE_ROOM, ByteForm, put_byte};
use crate::device::Sink;
use crate::front::Front;
use crate::json::{
    LOCATION_ROOM, fits_in_string, is_utf8_front, put_location, put_number, put_string_body,
};
use crate::label::Label;
use crate::room::{
    NO_RULE_ROOM, SHORT_ROOM, fits, put, put_bytes, put_front_of, put_no_rule_line, put_quoted,
    put_short,
};
use crate::whole::{WriteFault, write_whole};
use ly_base::Location;
use std::alloc::{AllocError, Global};
use std::marker::Model;

/// The size of the buffer in bytes.
const ROOM: usize = 65_536;

/// Writes printed text through a buffer of fixed size, which is flushed when it is full. Printing therefore allocates
/// nothing after `new`, and text that was written takes no memory.
#[derive(Drop)]
pub struct TextWriter {
    /// The buffer. Its first `used` bytes are text that isn't written yet.
    room: Vec<u8>,
    /// The number of bytes of text in the buffer.
    used: usize,
    /// The number of bytes that were written.
    sent: usize,
}

impl Model for TextWriter {
    ghost use Rattle.std.specs.Prelude.{◌≡◌, ◌≤◌, take, length};
    ghost use Rattle.ly_print.specs.TextWriter.{Outgoing};

    ghost Value = { Outgoing };

    ghost view = { λ w. record { sent = w.sent; held = take w.used w.room.items } };

    ghost invariant = { λ w. (length w.room.items ≡ 65536) × (w.used ≤ 65536) };
}

impl TextWriter {
    /// Makes a writer of the empty text. Fails if memory runs out.
    pub fn new(alloc: Global) -> Result<Self, AllocError>
        ensures { IfOk result (λ w. w ≡ record { sent = 0; held = [] }) }
    {
        Ok(TextWriter {
            room: vec![in alloc; 0; ROOM]?,
            used: 0,
            sent: 0,
        })
    }

    /// Appends a byte.
    ///
    /// Fails if the writer fails.
    #[inline(always)] // a call would cost more than the store
    pub fn push<W: Sink>(&mut self, writer: &mut W, byte: u8) -> Result<(), WriteFault>
        requires countable { bytes_of self.old + 1 < 2 ^ 64 }
        ensures text { IsAppended self.old self.new (W.contents writer.old) (W.contents writer.new) (byte ∷ []) result }
        ensures counted { OnOk result (bytes_of self.new ≡ bytes_of self.old + 1) }
        ensures no_failure { OnOk result (W.failures writer.new ≡ W.failures writer.old) }
        ensures failed { OnErr result (W.failures writer.new ≡ next_count (W.failures writer.old)) }
    {
        if self.used == self.room.len() {
            return self.push_behind(writer, &[byte]);
        }
        self.used = put(&mut self.room, self.used, byte);
        Ok(())
    }

    /// Appends bytes, preferably a short run.
    ///
    /// Fails if the writer fails.
    pub fn push_bytes<W: Sink>(&mut self, writer: &mut W, bytes: &[u8]) -> Result<(), WriteFault>
        requires countable { bytes_of self.old + length bytes.now < 2 ^ 64 }
        ensures text { IsAppended self.old self.new (W.contents writer.old) (W.contents writer.new) bytes.now result }
        ensures counted { OnOk result (bytes_of self.new ≡ bytes_of self.old + length bytes.now) }
        ensures no_failure { OnOk result (W.failures writer.new ≡ W.failures writer.old) }
        ensures failed { OnErr result (W.failures writer.new ≡ next_count (W.failures writer.old)) }
    {
        if bytes.len() > self.room.len() - self.used {
            return self.push_behind(writer, bytes);
        }
        self.used = put_bytes(&mut self.room, self.used, bytes);
        Ok(())
    }

    /// Appends a label.
    ///
    /// Fails if the writer fails.
    #[inline(always)] // leaves the registers to the loop that prints
    pub fn push_label<W: Sink>(&mut self, writer: &mut W, label: &Label) -> Result<(), WriteFault>
        requires countable { bytes_of self.old + length label.now < 2 ^ 64 }
        ensures text { IsAppended self.old self.new (W.contents writer.old) (W.contents writer.new) label.now result }
        ensures counted { OnOk result (bytes_of self.new ≡ bytes_of self.old + length label.now) }
        ensures no_failure { OnOk result (W.failures writer.new ≡ W.failures writer.old) }
        ensures failed { OnErr result (W.failures writer.new ≡ next_count (W.failures writer.old)) }
    {
        if self.used <= ROOM - SHORT_ROOM {
            if let Some(block) = label.block() {
                self.used = put_front_of(&mut self.room, self.used, block, label.len());
                return Ok(());
            }
        }
        self.push_long_label(writer, label)
    }

    /// Appends a label and a text as the inside of a double-quoted string, with the closing quote. This prints a leaf
    /// if the label is made by `Label::before_leaf`.
    ///
    /// Fails if the writer fails.
    #[inline(always)] // leaves the registers to the loop that prints
    pub fn push_quoted<W: Sink>(
        &mut self,
        writer: &mut W,
        label: &Label,
        text: &Front<'_>,
    ) -> Result<(), WriteFault>
        requires countable { bytes_of self.old + length (quoted label.now text.now) < 2 ^ 64 }
        ensures text { IsAppended self.old self.new (W.contents writer.old) (W.contents writer.new)
            (quoted label.now text.now) result }
        ensures counted { OnOk result (bytes_of self.new ≡ bytes_of self.old + length (quoted label.now text.now)) }
        ensures no_failure { OnOk result (W.failures writer.new ≡ W.failures writer.old) }
        ensures failed { OnErr result (W.failures writer.new ≡ next_count (W.failures writer.old)) }
    {
        if self.used <= ROOM - SHORT_ROOM {
            if let Some(end) = put_short(&mut self.room, self.used, label, text) {
                self.used = end;
                return Ok(());
            }
        }
        self.push_long(writer, label, text.bytes, text.count)
    }

    /// Appends a line: a label and a text as the inside of a double-quoted string, with the closing quote. This prints
    /// the line of a leaf if the label is made by `Label::before_leaf`.
    ///
    /// Fails if the writer fails.
    #[inline(always)] // likewise
    pub fn push_quoted_line<W: Sink>(
        &mut self,
        writer: &mut W,
        label: &Label,
        text: &Front<'_>,
    ) -> Result<(), WriteFault>
        requires countable { bytes_of self.old + length (quoted_line label.now text.now) < 2 ^ 64 }
        ensures text { IsAppended self.old self.new (W.contents writer.old) (W.contents writer.new)
            (quoted_line label.now text.now) result }
        ensures counted { OnOk result (bytes_of self.new
            ≡ bytes_of self.old + length (quoted_line label.now text.now)) }
        ensures no_failure { OnOk result (W.failures writer.new ≡ W.failures writer.old) }
        ensures failed { OnErr result (W.failures writer.new ≡ next_count (W.failures writer.old)) }
    {
        if self.used <= ROOM - SHORT_ROOM {
            if let Some(end) = put_short(&mut self.room, self.used, label, text) {
                self.used = put(&mut self.room, end, b'\n');
                return Ok(());
            }
        }
        self.push_long_line(writer, label, text.bytes, text.count)
    }

    /// Appends a label, the text of a token as `push_json_content` prints it, and the brace that closes an object.
    ///
    /// Fails if the writer fails.
    pub fn push_json_leaf<W: Sink>(
        &mut self,
        writer: &mut W,
        label: &Label,
        text: &Front<'_>,
    ) -> Result<(), WriteFault>
        requires countable { bytes_of self.old + length (label.now ++ (json_content text.now ++ codes "}")) < 2 ^ 64 }
        ensures text { IsAppended self.old self.new (W.contents writer.old) (W.contents writer.new)
            (label.now ++ (json_content text.now ++ codes "}")) result }
        ensures counted { OnOk result (bytes_of self.new
            ≡ bytes_of self.old + length (label.now ++ (json_content text.now ++ codes "}"))) }
        ensures no_failure { OnOk result (W.failures writer.new ≡ W.failures writer.old) }
        ensures failed { OnErr result (W.failures writer.new ≡ next_count (W.failures writer.old)) }
    {
        self.push_long_label(writer, label)?;
        self.push_json_content(writer, text)?;
        self.push(writer, b'}')
    }

    /// Appends the text of a token as a member of a JSON object. If the text is UTF-8, the member is `"text":` and a
    /// string. Otherwise it is `"bytes":` and a list of the bytes' numbers.
    ///
    /// Fails if the writer fails.
    pub fn push_json_content<W: Sink>(
        &mut self,
        writer: &mut W,
        text: &Front<'_>,
    ) -> Result<(), WriteFault>
        requires countable { bytes_of self.old + length (json_content text.now) < 2 ^ 64 }
        ensures text { IsAppended self.old self.new (W.contents writer.old) (W.contents writer.new)
            (json_content text.now) result }
        ensures counted { OnOk result (bytes_of self.new ≡ bytes_of self.old + length (json_content text.now)) }
        ensures no_failure { OnOk result (W.failures writer.new ≡ W.failures writer.old) }
        ensures failed { OnErr result (W.failures writer.new ≡ next_count (W.failures writer.old)) }
    {
        if is_utf8_front(text) {
            self.push_json_text(writer, text)
        } else {
            self.push_json_bytes(writer, text.bytes())
        }
    }

    /// Appends an offset of a text with its line and column, as `[4,1,5]`.
    ///
    /// Fails if the writer fails.
    pub fn push_json_location<W: Sink>(
        &mut self,
        writer: &mut W,
        offset: u64,
        location: Location,
    ) -> Result<(), WriteFault>
        requires countable { bytes_of self.old + length (json_located offset location.line location.column) < 2 ^ 64 }
        ensures text { IsAppended self.old self.new (W.contents writer.old) (W.contents writer.new)
            (json_located offset location.line location.column) result }
        ensures counted { OnOk result (bytes_of self.new
            ≡ bytes_of self.old + length (json_located offset location.line location.column)) }
        ensures no_failure { OnOk result (W.failures writer.new ≡ W.failures writer.old) }
        ensures failed { OnErr result (W.failures writer.new ≡ next_count (W.failures writer.old)) }
    {
        let mut room = [0u8; LOCATION_ROOM];
        let end = put_location(&mut room, 0, offset, location);
        self.push_bytes(writer, &room[..end])
    }

    /// Appends the line that reports at which byte no rule matches. The byte is counted from 0.
    ///
    /// Fails if the writer fails.
    pub fn push_no_rule_line<W: Sink>(
        &mut self,
        writer: &mut W,
        byte: u64,
    ) -> Result<(), WriteFault>
        requires countable { bytes_of self.old + length (no_rule_line byte) < 2 ^ 64 }
        ensures text { IsAppended self.old self.new (W.contents writer.old) (W.contents writer.new)
            (no_rule_line byte) result }
        ensures counted { OnOk result (bytes_of self.new ≡ bytes_of self.old + length (no_rule_line byte)) }
        ensures no_failure { OnOk result (W.failures writer.new ≡ W.failures writer.old) }
        ensures failed { OnErr result (W.failures writer.new ≡ next_count (W.failures writer.old)) }
    {
        let mut room = [0u8; NO_RULE_ROOM];
        let end = put_no_rule_line(&mut room, 0, byte);
        self.push_bytes(writer, &room[..end])
    }

    /// Writes the rest of the buffer: the end of the text.
    ///
    /// Fails if the writer fails.
    pub fn finish<W: Sink>(self, writer: &mut W) -> Result<(), WriteFault>
        requires countable { bytes_of self < 2 ^ 64 }
        ensures text { (before : Option (List ℕ)) (text : List ℕ)
            → IsUnderway before (W.contents writer.old) self text
            → MatchResult result (λ _. Appends before (W.contents writer.new) text)
            (λ fault. IsCutShort before (W.contents writer.new) fault.written text) }
        ensures no_failure { OnOk result (W.failures writer.new ≡ W.failures writer.old) }
        ensures failed { OnErr result (W.failures writer.new ≡ next_count (W.failures writer.old)) }
    {
        let mut sent = self.sent;
        send(&mut sent, writer, &self.room[..self.used])
    }

    /// Appends a label of any length.
    #[inline(never)] // leaves the registers to a short one
    fn push_long_label<W: Sink>(&mut self, writer: &mut W, label: &Label) -> Result<(), WriteFault>
        requires countable { bytes_of self.old + length label.now < 2 ^ 64 }
        ensures text { IsAppended self.old self.new (W.contents writer.old) (W.contents writer.new) label.now result }
        ensures counted { OnOk result (bytes_of self.new ≡ bytes_of self.old + length label.now) }
        ensures no_failure { OnOk result (W.failures writer.new ≡ W.failures writer.old) }
        ensures failed { OnErr result (W.failures writer.new ≡ next_count (W.failures writer.old)) }
    {
        self.push_bytes(writer, label.bytes())
    }

    /// Appends a label and the first `count` bytes as `push_quoted` does, of any length and with any escapes.
    #[inline(never)] // leaves the registers to a short text
    fn push_long<W: Sink>(
        &mut self,
        writer: &mut W,
        label: &Label,
        bytes: &[u8],
        count: usize,
    ) -> Result<(), WriteFault>
        requires within { count ≤ length bytes.now }
        requires countable { bytes_of self.old + length (quoted label.now (take count bytes.now)) < 2 ^ 64 }
        ensures text { IsAppended self.old self.new (W.contents writer.old) (W.contents writer.new)
            (quoted label.now (take count bytes.now)) result }
        ensures counted { OnOk result (bytes_of self.new
            ≡ bytes_of self.old + length (quoted label.now (take count bytes.now))) }
        ensures no_failure { OnOk result (W.failures writer.new ≡ W.failures writer.old) }
        ensures failed { OnErr result (W.failures writer.new ≡ next_count (W.failures writer.old)) }
    {
        let text = Front::new(bytes, count);
        if !fits(self.room.len() - self.used, label.len(), count) {
            return self.push_quoted_behind(writer, label.bytes(), text.bytes());
        }
        self.used = put_quoted(&mut self.room, self.used, &label.front(), &text);
        Ok(())
    }

    /// Appends a line of a label and the first `count` bytes as `push_quoted_line` does, of any length and with any
    /// escapes.
    #[inline(never)] // leaves the registers to a short text
    fn push_long_line<W: Sink>(
        &mut self,
        writer: &mut W,
        label: &Label,
        bytes: &[u8],
        count: usize,
    ) -> Result<(), WriteFault>
        requires within { count ≤ length bytes.now }
        requires countable { bytes_of self.old + length (quoted_line label.now (take count bytes.now)) < 2 ^ 64 }
        ensures text { IsAppended self.old self.new (W.contents writer.old) (W.contents writer.new)
            (quoted_line label.now (take count bytes.now)) result }
        ensures counted { OnOk result (bytes_of self.new
            ≡ bytes_of self.old + length (quoted_line label.now (take count bytes.now))) }
        ensures no_failure { OnOk result (W.failures writer.new ≡ W.failures writer.old) }
        ensures failed { OnErr result (W.failures writer.new ≡ next_count (W.failures writer.old)) }
    {
        self.push_long(writer, label, bytes, count)?;
        self.push(writer, b'\n')
    }

    /// Appends bytes that don't fit into the buffer. Flushes the buffer, then puts the bytes into it. Bytes that are
    /// longer than the whole buffer are written at once.
    #[cold]
    fn push_behind<W: Sink>(&mut self, writer: &mut W, bytes: &[u8]) -> Result<(), WriteFault>
        requires countable { bytes_of self.old + length bytes.now < 2 ^ 64 }
        ensures text { IsAppended self.old self.new (W.contents writer.old) (W.contents writer.new) bytes.now result }
        ensures counted { OnOk result (bytes_of self.new ≡ bytes_of self.old + length bytes.now) }
        ensures no_failure { OnOk result (W.failures writer.new ≡ W.failures writer.old) }
        ensures failed { OnErr result (W.failures writer.new ≡ next_count (W.failures writer.old)) }
    {
        send(&mut self.sent, writer, &self.room[..self.used])?;
        self.used = 0;
        if bytes.len() > self.room.len() {
            return send(&mut self.sent, writer, bytes);
        }
        self.used = put_bytes(&mut self.room, 0, bytes);
        Ok(())
    }

    /// Appends a label and a text that may not fit into the buffer.
    #[cold]
    fn push_quoted_behind<W: Sink>(
        &mut self,
        writer: &mut W,
        label: &[u8],
        text: &[u8],
    ) -> Result<(), WriteFault>
        requires countable { bytes_of self.old + length (quoted label.now text.now) < 2 ^ 64 }
        ensures text { IsAppended self.old self.new (W.contents writer.old) (W.contents writer.new)
            (quoted label.now text.now) result }
        ensures counted { OnOk result (bytes_of self.new ≡ bytes_of self.old + length (quoted label.now text.now)) }
        ensures no_failure { OnOk result (W.failures writer.new ≡ W.failures writer.old) }
        ensures failed { OnErr result (W.failures writer.new ≡ next_count (W.failures writer.old)) }
    {
        // then the buffer holds at most the label
        self.push_behind(writer, label)?;
        self.push_each(writer, ByteForm::Quoted, text)?;
        self.push(writer, b'"')
    }

    /// Appends the member `"text":` with a text as a string.
    fn push_json_text<W: Sink>(
        &mut self,
        writer: &mut W,
        text: &Front<'_>,
    ) -> Result<(), WriteFault>
        requires countable { bytes_of self.old + length (text_member text.now) < 2 ^ 64 }
        ensures text { IsAppended self.old self.new (W.contents writer.old) (W.contents writer.new)
            (text_member text.now) result }
        ensures counted { OnOk result (bytes_of self.new ≡ bytes_of self.old + length (text_member text.now)) }
        ensures no_failure { OnOk result (W.failures writer.new ≡ W.failures writer.old) }
        ensures failed { OnErr result (W.failures writer.new ≡ next_count (W.failures writer.old)) }
    {
        self.push_bytes(writer, b"\"text\":\"")?;
        self.push_string_body(writer, text)?;
        self.push(writer, b'"')
    }

    /// Appends the member `"bytes":` with a list of the numbers of bytes.
    #[cold]
    fn push_json_bytes<W: Sink>(&mut self, writer: &mut W, bytes: &[u8]) -> Result<(), WriteFault>
        requires countable { bytes_of self.old + length (bytes_member bytes.now) < 2 ^ 64 }
        ensures text { IsAppended self.old self.new (W.contents writer.old) (W.contents writer.new)
            (bytes_member bytes.now) result }
        ensures counted { OnOk result (bytes_of self.new ≡ bytes_of self.old + length (bytes_member bytes.now)) }
        ensures no_failure { OnOk result (W.failures writer.new ≡ W.failures writer.old) }
        ensures failed { OnErr result (W.failures writer.new ≡ next_count (W.failures writer.old)) }
    {
        self.push_bytes(writer, b"\"bytes\":[")?;
        self.push_numbers(writer, bytes)?;
        self.push(writer, b']')
    }

    /// Appends numbers, separated by commas.
    fn push_numbers<W: Sink>(&mut self, writer: &mut W, bytes: &[u8]) -> Result<(), WriteFault>
        requires countable { bytes_of self.old + length (numbers bytes.now) < 2 ^ 64 }
        ensures text { IsAppended self.old self.new (W.contents writer.old) (W.contents writer.new)
            (numbers bytes.now) result }
        ensures counted { OnOk result (bytes_of self.new ≡ bytes_of self.old + length (numbers bytes.now)) }
        ensures no_failure { OnOk result (W.failures writer.new ≡ W.failures writer.old) }
        ensures failed { OnErr result (W.failures writer.new ≡ next_count (W.failures writer.old)) }
    {
        let Some((first, others)) = bytes.split_first() else {
            return Ok(());
        };
        let mut room = [0u8; 3];
        let end = put_number(&mut room, 0, *first);
        self.push_bytes(writer, &room[..end])?;
        self.push_each(writer, ByteForm::OtherNumber, others)
    }

    /// Appends a text as the inside of a JSON string.
    fn push_string_body<W: Sink>(
        &mut self,
        writer: &mut W,
        text: &Front<'_>,
    ) -> Result<(), WriteFault>
        requires countable { bytes_of self.old + length (string_body text.now) < 2 ^ 64 }
        ensures text { IsAppended self.old self.new (W.contents writer.old) (W.contents writer.new)
            (string_body text.now) result }
        ensures counted { OnOk result (bytes_of self.new ≡ bytes_of self.old + length (string_body text.now)) }
        ensures no_failure { OnOk result (W.failures writer.new ≡ W.failures writer.old) }
        ensures failed { OnErr result (W.failures writer.new ≡ next_count (W.failures writer.old)) }
    {
        if !fits_in_string(self.room.len() - self.used, text.count) {
            return self.push_each(writer, ByteForm::InString, text.bytes());
        }
        self.used = put_string_body(&mut self.room, self.used, text.bytes, text.count);
        Ok(())
    }

    /// Appends each byte in the given form.
    fn push_each<W: Sink>(
        &mut self,
        writer: &mut W,
        form: ByteForm,
        bytes: &[u8],
    ) -> Result<(), WriteFault>
        requires countable { bytes_of self.old + length (flat_map (written_as form) bytes.now) < 2 ^ 64 }
        ensures text { IsAppended self.old self.new (W.contents writer.old) (W.contents writer.new)
            (flat_map (written_as form) bytes.now) result }
        ensures counted { OnOk result (bytes_of self.new
            ≡ bytes_of self.old + length (flat_map (written_as form) bytes.now)) }
        ensures no_failure { OnOk result (W.failures writer.new ≡ W.failures writer.old) }
        ensures failed { OnErr result (W.failures writer.new ≡ next_count (W.failures writer.old)) }
    {
        for byte in bytes {
            let mut room = [0u8; BYTE_ROOM];
            let end = put_byte(&mut room, 0, form, *byte);
            self.push_bytes(writer, &room[..end])?;
        }
        Ok(())
    }
}

/// Writes bytes and adds their number to `sent`.
fn send<W: Sink>(sent: &mut usize, writer: &mut W, bytes: &[u8]) -> Result<(), WriteFault>
    requires countable { sent.old + length bytes.now < 2 ^ 64 }
    ensures ok { OnOk result (Appends (W.contents writer.old) (W.contents writer.new) bytes.now) }
    ensures counted { OnOk result (sent.new ≡ sent.old + length bytes.now) }
    ensures partial { IfErr result (λ fault. (more : ℕ) × (fault.written ≡ sent.old + more)
        × (more < length bytes.now) × Appends (W.contents writer.old) (W.contents writer.new) (take more bytes.now)) }
    ensures no_failure { OnOk result (W.failures writer.new ≡ W.failures writer.old) }
    ensures failed { OnErr result (W.failures writer.new ≡ next_count (W.failures writer.old)) }
{
    match write_whole(writer, bytes) {
        Ok(()) => {
            *sent += bytes.len();
            Ok(())
        }
        Err(fault) => Err(WriteFault {
            written: *sent + fault.written,
        }),
    }
}
