//! Splits a table file into its fields.
//!
//! A file is a header and three parts with consecutive fields. Counts alone determine where each begins. Each reader
//! takes the remaining bytes, and returns the value at their front and the bytes after it. If a part is incomplete, its
//! reader's contract guarantees that it can be completed; so the bytes are a proper prefix of a file. No count
//! is trusted: memory is allocated for what has been read, and for a list of numbers only when all its bytes are there.
ghost use Rattle.std.specs.Prelude.{◌≡◌, ◌≢◌, ◌++◌, IfOk, IfErr, IfSome, MatchBool, None, codes, length, take};
ghost use Rattle.std.specs.Int.{w16, to_be_bytes};
ghost use Rattle.ly_tables.specs.Private.Parts.{IsEarly};
ghost use Rattle.ly_tables.specs.Private.RawValues.{raw_from};
ghost use Rattle.ly_base.specs.declared.version.Version.{Version as AnyVersion};
ghost use Rattle.ly_tables.specs.Private.SectionOrder.{AreFileNumbers};
ghost use Rattle.ly_tables.specs.Ranges.{number_of};
ghost use Rattle.ly_tables.specs.Reading.{raw_file};
ghost use Rattle.ly_tables.specs.Refusal.{IsRefusedAs};

use crate::fault::TableFault;
use crate::parser_sections::read_parser;
use crate::raw_tables::RawTables;
use crate::scanner_sections::read_scanner;
use crate::symbol_sections::read_symbols;
use byteorder::{BigEndian, ByteOrder};
use ly_base::Version;
use std::alloc::Global;

/// The first bytes of a table file.
const MAGIC: [u8; 4] = *b"LYTB";

/// Splits a table file into its fields: the numbers of its sections, and its version.
pub(crate) fn read_raw(alloc: Global, bytes: &[u8]) -> Result<(RawTables, Version), TableFault>
    ensures fits { IfOk result (λ r. AreFileNumbers r.1 (raw_from r.0)) }
    ensures spelled { IfOk result (λ r. bytes.now ≡ raw_file r.1 (raw_from r.0)) }
    ensures refused { IfErr result (IsRefusedAs bytes.now) }
    ensures before_ranges { IfErr result IsEarly }
{
    let (version, left) = header(bytes)?;
    let (symbols, left) = read_symbols(alloc, version, left)?;
    let (scanner, left) = read_scanner(alloc, version, left)?;
    let (parser, left) = read_parser(alloc, version, left)?;
    if !left.is_empty() {
        return Err(TableFault::Trailing);
    }
    let raw = RawTables {
        nonterminals: symbols.nonterminals,
        terminals: symbols.terminals,
        literals: symbols.literals,
        scan_rules: scanner.scan_rules,
        conditions: scanner.conditions,
        class_count: scanner.class_count,
        classes: scanner.classes,
        accepted: scanner.accepted,
        scan_rows: scanner.rows,
        rules: parser.rules,
        defaults: parser.defaults,
        actions: parser.actions,
        gotos: parser.gotos,
    };
    Ok((raw, version))
}

/// The version, and the bytes after the header.
fn header(bytes: &[u8]) -> Result<(Version, &[u8]), TableFault>
    ensures ok { IfOk result (λ r. bytes.now ≡ (codes "LYTB" ++ to_be_bytes w16 (number_of r.0)) ++ r.1.now) }
    ensures refused { IfErr result (IsRefusedAs bytes.now) }
    ensures before_ranges { IfErr result IsEarly }
{
    if !has_magic(bytes) {
        return Err(TableFault::BadMagic);
    }
    let [_, _, _, _, high, low, left @ ..] = bytes else {
        return Err(TableFault::Truncated);
    };
    match version_numbered(BigEndian::read_u16(&[*high, *low])) {
        Some(version) => Ok((version, left)),
        None => Err(TableFault::BadVersion),
    }
}

/// The version with this number, if there is one.
fn version_numbered(number: u16) -> Option<Version>
    ensures some { IfSome result (λ version. number ≡ number_of version) }
    ensures none { result ≡ None → (version : AnyVersion) → number ≢ number_of version }
{
    match number {
        1 => Some(Version::V1),
        2 => Some(Version::V2),
        _ => None,
    }
}

/// Whether the first four bytes, or all bytes of a shorter file, are a prefix of `LYTB`.
fn has_magic(bytes: &[u8]) -> bool
    ensures { MatchBool result (take 4 bytes.now ≡ take (length bytes.now) (codes "LYTB"))
        (take 4 bytes.now ≢ take (length bytes.now) (codes "LYTB")) }
{
    let known = bytes.len().min(MAGIC.len());
    bytes[..known] == MAGIC[..known]
}
