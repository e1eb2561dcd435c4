//! What `--where` adds to standard error: the location of an error and its reason.
ghost use Rattle.lytab.specs.Notes.{SaysPlaceOf};

use crate::completion::Completion;
use crate::failure::Failure;
use crate::remembering::Recall;
use crate::shown_path::ShownPath;
use ly_base::{Limits, Location, OutOfMemory, locate};
use ly_cli::Command;
use ly_diagnostics::{write_faults, write_lex_faults};
use ly_engine::{GenFault, Outcome, TextFault, TokenEnd};
use ly_files::{FileFault, Folder};
use ly_text_buffer::{NamedFile, TextBuffer};
use std::alloc::Global;
use std::fmt::Display;
use std::io::{self, Write};

/// How many bytes of a token are printed.
const LONGEST: usize = 60;

/// The text for standard error that `--where` requests: it follows the line of a failure, or a syntax error.
#[derive(Drop)]
pub struct Notes {
    /// The text so far.
    buffer: TextBuffer,
    /// Whether it is requested.
    are_wanted: bool,
    /// The allocator for what is made for it.
    alloc: Global,
}

impl Notes {
    /// No text yet, for a command.
    pub fn new(alloc: Global, command: &Command<'_>) -> Notes {
        let are_wanted = match command {
            Command::Build { points, .. }
            | Command::RunPlaced { points, .. }
            | Command::TryPlaced { points, .. } => *points,
            Command::Tokens { by, .. }
            | Command::TableTokens { by, .. }
            | Command::Run { by, .. }
            | Command::Lines { by, .. }
            | Command::Try { by, .. }
            | Command::Check { by, .. } => by.points,
            Command::Explain { .. } => false,
        };
        Notes {
            buffer: TextBuffer::new(alloc),
            are_wanted,
            alloc,
        }
    }

    /// Whether the text is requested.
    pub fn are_wanted(&self) -> bool {
        self.are_wanted
    }

    /// Returns the text, or `OutOfMemory` if there was no memory for it.
    pub fn finish(self) -> Result<Vec<u8>, OutOfMemory> {
        self.buffer.finish()
    }

    /// The location of a syntax error in a text from a reader with this path, given by the outcome.
    pub fn point_at_outcome<R: Recall>(&mut self, path: &str, reader: &R, outcome: &Outcome) {
        let pointed = match outcome {
            Outcome::Tree => Ok(()),
            Outcome::Syntax { byte, length, .. } => {
                self.point_into(path, reader, *byte, Some(*length))
            }
            Outcome::NoRule { byte } => self.point_into(path, reader, *byte, None),
        };
        self.keep(pointed);
    }

    /// The location at which no rule matches, in a text from a reader with this path, given by how its tokens end.
    pub fn point_at_end<R: Recall>(&mut self, path: &str, reader: &R, end: TokenEnd) {
        if let TokenEnd::Stuck { byte } = end {
            let pointed = self.point_into(path, reader, byte, None);
            self.keep(pointed);
        }
    }

    /// The location of an unexpected token with this length in the text from a reader with this path, or of a byte at
    /// which no rule matches. Returns an error if memory runs out.
    fn point_into<R: Recall>(
        &mut self,
        path: &str,
        reader: &R,
        byte: u64,
        length: Option<usize>,
    ) -> Result<(), OutOfMemory> {
        if self.are_wanted {
            let name = ShownPath(path).text(self.alloc)?;
            let text = NamedFile::new(&name, reader.recalled()?);
            match length {
                Some(length) => self.point_at_token(text, byte, length),
                None => self.point_at_byte(text, byte),
            }
        }
        Ok(())
    }

    /// Keeps that memory ran out.
    fn keep(&mut self, ended: Result<(), OutOfMemory>) {
        if let Err(failed) = ended {
            self.buffer.fail(failed);
        }
    }

    /// An unexpected token at a byte of a text, or its unexpected end, which has no bytes.
    fn point_at_token(&mut self, text: NamedFile<'_>, byte: u64, length: usize)
        ensures { SaysPlaceOf text.entry.name.now text.entry.bytes.now byte self.old.buffer self.new.buffer }
    {
        let start = usize::try_from(byte).unwrap_or(usize::MAX);
        let token = text.bytes.get(start..).unwrap_or(b"");
        let token = token.get(..length).unwrap_or(token);
        let at = locate(text.bytes, start);
        self.buffer.push_location_in(text, at);
        let mut rest = self.buffer.beside();
        if token.is_empty() {
            rest.push(b"error: unexpected end of the text\n");
        } else {
            rest.push(b"error: unexpected ");
            rest.push_quoted(token.get(..LONGEST).unwrap_or(token));
            let is_cut = token.len() > LONGEST;
            rest.push(if is_cut { b"..\n" } else { b"\n" });
        }
        rest.push_excerpt(text, at);
        self.buffer.push_buffer(rest);
    }

    /// A byte of a text at which no rule matches.
    fn point_at_byte(&mut self, text: NamedFile<'_>, byte: u64)
        ensures { SaysPlaceOf text.entry.name.now text.entry.bytes.now byte self.old.buffer self.new.buffer }
    {
        let start = usize::try_from(byte).unwrap_or(usize::MAX);
        let at = locate(text.bytes, start);
        self.buffer.push_location_in(text, at);
        let rest = self.unmatched(text, start, at);
        self.buffer.push_buffer(rest);
    }

    /// That no rule matches at an offset of a text, and the line at its location.
    fn unmatched(&self, text: NamedFile<'_>, start: usize, at: Location) -> TextBuffer {
        let mut buffer = self.buffer.beside();
        buffer.push(b"error: no rule matches ");
        buffer.push_byte(text.bytes.get(start).copied().unwrap_or(0));
        buffer.push(b"\n");
        buffer.push_excerpt(text, at);
        buffer
    }

    /// All errors of a lex file and a yacc file, if a command failed because they are rejected within limits, as
    /// `explain` reports them.
    pub fn explain(
        &mut self,
        alloc: Global,
        lex: NamedFile<'_>,
        yacc: NamedFile<'_>,
        limits: &Limits,
        ended: &Result<Completion, Failure<'_>>,
    ) {
        if let Some(fault) = self.refusal(ended) {
            let written = self.write_faults_of(alloc, lex, yacc, limits, fault);
            self.keep(written);
        }
    }

    /// All errors of both files, under the names that the user gave. Returns an error if memory runs out.
    fn write_faults_of(
        &mut self,
        alloc: Global,
        lex: NamedFile<'_>,
        yacc: NamedFile<'_>,
        limits: &Limits,
        fault: &GenFault,
    ) -> Result<(), OutOfMemory> {
        let lex_name = ShownPath(lex.name).text(alloc)?;
        let yacc_name = ShownPath(yacc.name).text(alloc)?;
        let lex = NamedFile::new(&lex_name, lex.bytes);
        let yacc = NamedFile::new(&yacc_name, yacc.bytes);
        write_faults(alloc, &mut self.buffer, lex, yacc, limits, fault)
    }

    /// The error with which files are rejected, if a command failed because of it and the text is requested.
    fn refusal<'e>(&self, ended: &'e Result<Completion, Failure<'_>>) -> Option<&'e GenFault> {
        match ended {
            Err(Failure::Refused(GenFault::OutOfMemory, _)) => None,
            Err(Failure::Refused(fault, _)) if self.are_wanted => Some(fault),
            _ => None,
        }
    }

    /// All errors of a lex file, if a command failed because it is rejected, as `explain` reports them.
    pub fn explain_lex(
        &mut self,
        alloc: Global,
        lex: NamedFile<'_>,
        ended: &Result<Completion, Failure<'_>>,
    ) {
        if let Some(fault) = self.refusal(ended) {
            let written = self.write_lex_faults_of(alloc, lex, fault);
            self.keep(written);
        }
    }

    /// All errors of a lex file, under the name that the user gave. Returns an error if memory runs out.
    fn write_lex_faults_of(
        &mut self,
        alloc: Global,
        lex: NamedFile<'_>,
        fault: &GenFault,
    ) -> Result<(), OutOfMemory> {
        let name = ShownPath(lex.name).text(alloc)?;
        let lex = NamedFile::new(&name, lex.bytes);
        write_lex_faults(alloc, &mut self.buffer, lex, &Limits::V2, fault)
    }

    /// Why a table file is rejected or fails on a text, if a command failed because of it.
    pub fn explain_tables(&mut self, path: &str, ended: &Result<Completion, Failure<'_>>) {
        match ended {
            Err(Failure::Tables(fault)) => self.write_fault(
                path,
                fault.number(),
                fault.name(),
                fault,
            ),
            Err(Failure::FaultyTables) => {
                let fault = TextFault::FaultyTables;
                self.write_fault(path, fault.number(), fault.name(), &fault);
            }
            _ => {}
        }
    }

    /// An error of a file: its number, its name and its message.
    fn write_fault<T: Display>(&mut self, path: &str, number: Option<u8>, name: &str, fault: &T) {
        let (true, Some(number)) = (self.are_wanted, number) else {
            return;
        };
        self.write_file(path);
        self.buffer.push(b"error: ");
        self.buffer.push_number(u64::from(number));
        self.buffer.push(b" ");
        self.buffer.push(name.as_bytes());
        self.buffer.push(b": ");
        self.buffer.push_words(fault);
        self.buffer.push(b"\n");
    }

    /// Why a file can't be read or written. If the reason isn't known, the file is opened again to find it.
    pub fn write_fault_of_file<D: Folder>(&mut self, folder: &D, fault: &FileFault<'_>) {
        match fault {
            FileFault::CannotRead(path, Some(reason)) | FileFault::CannotWrite(path, reason) => {
                self.write_reason(path, reason);
            }
            FileFault::CannotRead(path, None) => self.look_again(folder, path),
            FileFault::OutOfMemory => {}
        }
    }

    /// Why a file can't be opened or written.
    pub fn write_reason(&mut self, path: &str, reason: &io::Error) {
        if self.are_wanted {
            self.write_file(path);
            self.buffer.push(b"error: ");
            self.buffer.push_words(reason);
            self.buffer.push(b"\n");
        }
    }

    /// Why a text can't be read, if a command failed because of that.
    pub fn look_at_text<D: Folder>(
        &mut self,
        folder: &D,
        path: &str,
        ended: &Result<Completion, Failure<'_>>,
    ) {
        if let Err(Failure::CannotRead(_)) = ended {
            self.look_again(folder, path);
        }
    }

    /// Why a file can't be read, if opening it again yields a reason.
    fn look_again<D: Folder>(&mut self, folder: &D, path: &str) {
        if self.are_wanted {
            if let Some(reason) = folder.reason(self.alloc, path) {
                self.write_reason(path, &reason);
            }
        }
    }

    /// The name of a file and a colon, as editors read it.
    fn write_file(&mut self, path: &str) {
        self.buffer.push_words(&ShownPath(path));
        self.buffer.push(b": ");
    }
}
