//! Lex and yacc files that are swapped on the command line.
use ly_base::{Limits, OutOfMemory};
use ly_lexread::{LexFault, read_lex};
use ly_text_buffer::{MARGIN, NamedFile, TextBuffer};
use ly_yaccread::{YaccFault, read_yacc};
use std::alloc::Global;

/// The messages for swapped files.
pub(crate) const READS_AS_YACC: &[u8] = b"this reads as a yacc file";

pub(crate) const READS_AS_LEX: &[u8] = b"this reads as a lex file";

pub(crate) const ARE_EXCHANGED: &[u8] = b"are the two files swapped? the lex file comes first";

/// The signs that two files are swapped.
#[derive(Clone, Copy)]
pub(crate) struct Exchange {
    /// Whether the first file is a valid yacc file.
    pub(crate) first_is_yacc: bool,
    /// Whether the second file is a valid lex file.
    pub(crate) second_is_lex: bool,
}

/// Returns whether both files seem to be swapped: neither is valid as what it is given for, and at least one is valid
/// as the other.
pub(crate) fn exchange_of(
    alloc: Global,
    lex: &[u8],
    yacc: &[u8],
    limits: &Limits,
) -> Result<Option<Exchange>, OutOfMemory> {
    if is_lex(alloc, lex, limits)? || is_yacc(alloc, yacc)? {
        return Ok(None);
    }
    let exchange = Exchange {
        first_is_yacc: is_yacc(alloc, lex)?,
        second_is_lex: is_lex(alloc, yacc, limits)?,
    };
    if exchange.first_is_yacc || exchange.second_is_lex {
        Ok(Some(exchange))
    } else {
        Ok(None)
    }
}

/// Whether the files are swapped for sure: the first one is a valid yacc file. Many texts that are no lex files are
/// valid as one, so the second file alone doesn't prove it.
pub(crate) fn is_certain(exchange: Option<Exchange>) -> bool {
    match exchange {
        Some(exchange) => exchange.first_is_yacc,
        None => false,
    }
}

/// Appends that both files seem to be swapped.
pub(crate) fn write_exchange(
    buffer: &mut TextBuffer,
    lex: NamedFile<'_>,
    yacc: NamedFile<'_>,
    exchange: Exchange,
) {
    if exchange.first_is_yacc {
        write_of_file(buffer, lex, READS_AS_YACC);
    }
    if exchange.second_is_lex {
        write_of_file(buffer, yacc, READS_AS_LEX);
    }
    buffer.push(MARGIN);
    buffer.push(ARE_EXCHANGED);
    buffer.push(b"\n");
}

/// Appends a message about a file on its own line.
fn write_of_file(buffer: &mut TextBuffer, file: NamedFile<'_>, words: &[u8]) {
    buffer.push(file.name.as_bytes());
    buffer.push(b": error: ");
    buffer.push(words);
    buffer.push(b"\n");
}

/// Whether bytes are a valid lex file.
fn is_lex(alloc: Global, bytes: &[u8], limits: &Limits) -> Result<bool, OutOfMemory> {
    match read_lex(alloc, bytes, limits) {
        Ok(_) => Ok(true),
        Err(LexFault::OutOfMemory) => Err(OutOfMemory),
        Err(LexFault::Refused { .. }) => Ok(false),
    }
}

/// Whether bytes are a valid yacc file.
fn is_yacc(alloc: Global, bytes: &[u8]) -> Result<bool, OutOfMemory> {
    match read_yacc(alloc, bytes) {
        Ok(_) => Ok(true),
        Err(YaccFault::OutOfMemory) => Err(OutOfMemory),
        Err(YaccFault::Refused { .. }) => Ok(false),
    }
}
