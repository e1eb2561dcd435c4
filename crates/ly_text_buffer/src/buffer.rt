ghost use Rattle.std.specs.Prelude.{◌≡◌, ℕ, List, [], ◌++◌, length, map};
ghost use Rattle.std.specs.Prelude.{IfOk, OnOk, OnErr, true};
ghost use Rattle.std.specs.Fmt.{decimal};
ghost use Rattle.ly_print.specs.Text.{literal, name_of};
ghost use Rattle.ly_join.specs.Grammar.{symbol_of, terminal as symbol_at};
ghost use Rattle.ly_join.specs.Terminals.{terminal_from};
ghost use Rattle.ly_report.specs.Report.{symbol_name, terminal_name};
ghost use Rattle.ly_text_buffer.specs.Json.{json_words};
ghost use Rattle.ly_text_buffer.specs.TextBuffer.{body_words, counted, line_of, location_in, numbered_words};
ghost use Rattle.ly_text_buffer.specs.TextBuffer.{quoted_words, Says};
ghost use Rattle.ly_text_buffer.specs.TextBuffer.{SaysMore, SaysPrinted, spaced_words, symbol_words};

use crate::named_file::NamedFile;
use ly_base::{Location, OutOfMemory, Sym};
use ly_join::{Spec, Symbol, TerminalName};
use ly_print::{Terminal, is_utf8, push_escaped, push_json_name, push_json_string, push_name};
use ly_report::push_terminal;
use std::alloc::{AllocError, Global};
use std::fmt::Display;
use std::io::Write;
use std::marker::Model;

/// The text of messages for people, while it is built. Each method appends to it. Once an allocation has failed,
/// nothing more is appended and `finish` returns an error, so a caller checks for errors once.
#[derive(Drop)]
pub struct TextBuffer {
    /// The bytes so far.
    text: Vec<u8>,
    /// Whether every allocation so far succeeded.
    said: Result<(), OutOfMemory>,
}

// The bytes so far, or `None` once an allocation failed.
impl Model for TextBuffer {
    ghost use Rattle.std.specs.Prelude.{ℕ, List, Option, Some, None, if◌then◌else◌, is_ok};

    ghost Value = { Option (List ℕ) };

    ghost view = { λ p. (if is_ok p.said then Some p.text.items else None) };
}

impl TextBuffer {
    /// An empty page.
    pub fn new(alloc: Global) -> TextBuffer
        ensures { result ≡ Some [] }
    {
        TextBuffer {
            text: Vec::new(alloc),
            said: Ok(()),
        }
    }

    /// Returns the bytes of the page, or `OutOfMemory` if an allocation failed.
    pub fn finish(self) -> Result<Vec<u8>, OutOfMemory>
        ensures ok { IfOk result (λ text. self ≡ Some text.items) }
        ensures refused { OnErr result (self ≡ None) }
    {
        let TextBuffer { text, said } = self;
        said?;
        Ok(text)
    }

    /// Whether nothing was appended. After a failed allocation this is false, since then something is missing.
    pub fn is_empty(&self) -> bool
        ensures empty { self.now ≡ Some [] → result ≡ true }
        ensures only { result ≡ true → self.now ≡ Some [] }
    {
        self.said.is_ok() && self.text.is_empty()
    }

    /// Counts a failed allocation as one of the page.
    pub fn fail(&mut self, failed: OutOfMemory)
        ensures { self.new ≡ None }
    {
        self.said = Err(failed);
    }

    /// Remembers a failed allocation.
    pub(crate) fn note(&mut self, said: Result<(), AllocError>)
        ensures ok { OnOk said (self.new ≡ self.old) }
        ensures refused { OnErr said (self.new ≡ None) }
    {
        if let Err(refused) = said {
            self.said = Err(OutOfMemory::from(refused));
        }
    }

    /// Appends bytes as they are.
    pub fn push(&mut self, bytes: &[u8])
        ensures { Says self.old bytes.now self.new }
    {
        if self.said.is_ok() {
            let said = self.text.extend_from_slice(bytes);
            self.note(said);
        }
    }

    /// Appends the text of another page. If an allocation failed there, it counts as failed here.
    pub fn push_buffer(&mut self, buffer: TextBuffer)
        ensures { SaysMore self.old self.new }
    {
        match buffer.finish() {
            Ok(text) => self.push(&text),
            Err(OutOfMemory) => self.said = Err(OutOfMemory),
        }
    }

    /// An empty page with the same allocator.
    pub fn beside(&self) -> TextBuffer
        ensures { result ≡ Some [] }
    {
        TextBuffer::new(self.allocator())
    }

    /// The allocator of the page.
    pub(crate) fn allocator(&self) -> Global {
        *self.text.allocator()
    }

    /// Appends a number in decimal.
    pub fn push_number(&mut self, number: u64)
        ensures { Says self.old (decimal number) self.new }
    {
        if self.said.is_ok() {
            self.said = write!(self.text, "{number}").map_err(|_| OutOfMemory);
        }
    }

    /// Appends a value as `Display` prints it.
    pub fn push_words<T: Display>(&mut self, value: &T)
        ensures { SaysPrinted self.old (T.output value.now) self.new }
    {
        match value.to_string(self.allocator()) {
            Ok(words) => self.push(words.as_bytes()),
            Err(refused) => self.note(Err(refused)),
        }
    }

    /// Appends a number and what it counts, in the singular or the plural.
    pub fn push_count(&mut self, count: usize, one: &[u8], many: &[u8])
        ensures { Says self.old (counted count one.now many.now) self.new }
    {
        self.push_number(count as u64);
        self.push(b" ");
        self.push(if count == 1 { one } else { many });
    }

    /// Appends a byte in the form of a character literal.
    pub fn push_byte(&mut self, byte: u8)
        ensures { Says self.old (name_of (literal byte)) self.new }
    {
        if self.said.is_ok() {
            let said = push_name(&mut self.text, Terminal::Literal(byte));
            self.note(said);
        }
    }

    /// Appends bytes in single quotes, escaped.
    pub fn push_quoted(&mut self, bytes: &[u8])
        ensures { Says self.old (quoted_words bytes.now) self.new }
    {
        self.push(b"'");
        if self.said.is_ok() {
            let said = push_escaped(&mut self.text, b'\'', bytes);
            self.note(said);
        }
        self.push(b"'");
    }

    /// Appends bytes as a JSON string: as text if they are UTF-8, else each byte as the character with its number.
    pub fn push_json(&mut self, bytes: &[u8])
        ensures { Says self.old (json_words bytes.now) self.new }
    {
        if self.said.is_ok() {
            let said = if is_utf8(bytes) {
                push_json_string(&mut self.text, bytes)
            } else {
                push_json_name(&mut self.text, bytes)
            };
            self.note(said);
        }
    }

    /// Appends `file:line: `.
    pub fn push_line_of(&mut self, file: NamedFile<'_>, line: u64)
        ensures { Says self.old (line_of file.entry.name.now line) self.new }
    {
        self.push(file.name.as_bytes());
        self.push(b":");
        self.push_number(line);
        self.push(b": ");
    }

    /// Appends `file:line:column: `.
    pub fn push_location_in(&mut self, file: NamedFile<'_>, at: Location)
        ensures { Says self.old (location_in file.entry.name.now at) self.new }
    {
        self.push(file.name.as_bytes());
        self.push(b":");
        self.push_number(at.line);
        self.push(b":");
        self.push_number(at.column);
        self.push(b": ");
    }

    /// Appends the name of a terminal as reports print it. Appends nothing if no terminal has the number.
    pub fn push_terminal(&mut self, spec: &Spec, terminal: Sym)
        ensures { Says self.old (symbol_name spec.now (symbol_at terminal.0)) self.new }
    {
        if let Some(name) = spec.terminals().get(terminal.0 as usize) {
            self.push_terminal_name(name);
        }
    }

    /// Appends the name of a terminal that is given by its name, as reports print it.
    pub fn push_terminal_name(&mut self, name: &TerminalName)
        ensures { Says self.old (terminal_name (terminal_from name.now)) self.new }
    {
        if self.said.is_ok() {
            let said = push_terminal(&mut self.text, name);
            self.note(said);
        }
    }

    /// Appends the name of a symbol as reports print it.
    pub fn push_symbol(&mut self, spec: &Spec, symbol: Symbol)
        ensures { Says self.old (symbol_words spec.now (symbol_of symbol)) self.new }
    {
        match symbol {
            Symbol::Terminal(number) => self.push_terminal(spec, number),
            Symbol::Nonterminal(number) => {
                if number.0 < spec.grammar().accept().0 {
                    self.push(spec.nonterminal(number));
                } else {
                    self.push(b"$accept");
                }
            }
        }
    }

    /// Appends the names of symbols, each after a space.
    pub fn push_symbols(&mut self, spec: &Spec, symbols: &[Symbol])
        ensures { Says self.old (spaced_words spec.now (map symbol_of symbols.now)) self.new }
    {
        for symbol in symbols {
            self.push(b" ");
            self.push_symbol(spec, *symbol);
        }
    }

    /// Appends the rule with a number, with a dot after the first `dot` symbols of its body if that is given. Appends
    /// nothing if no rule has the number.
    pub fn push_rule(&mut self, spec: &Spec, rule: usize, dot: Option<usize>)
        ensures { Says self.old (numbered_words spec.now rule dot) self.new }
    {
        if let Some(rule) = spec.grammar().rules().get(rule) {
            self.push_symbol(spec, Symbol::Nonterminal(rule.left()));
            self.push(b" :");
            self.push_body(spec, rule.body(), dot);
        }
    }

    /// Appends the body of a rule, with a dot after its first `dot` symbols if that is given.
    fn push_body(&mut self, spec: &Spec, body: &[Symbol], dot: Option<usize>)
        ensures { Says self.old (body_words spec.now (map symbol_of body.now) dot) self.new }
    {
        match dot {
            None => self.push_symbols(spec, body),
            Some(dot) => {
                let (before, behind) = body.split_at(dot.min(body.len()));
                self.push_symbols(spec, before);
                self.push(b" .");
                self.push_symbols(spec, behind);
            }
        }
    }
}
