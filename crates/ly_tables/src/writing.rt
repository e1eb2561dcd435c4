ghost use Rattle.std.specs.Prelude.{◌≡◌, ◌↔◌, All, Err, IfOk, IsTrue, OnOk, length};
ghost use Rattle.ly_base.specs.declared.version.Version.TheVariants.{V1};
ghost use Rattle.ly_tables.specs.Ranges.{IsWithinVersion};
ghost use Rattle.ly_tables.specs.TableText.{TableText};
ghost use Rattle.ly_tables.specs.declared.format_fault.FormatFault.TheVariants as fault;

use crate::fitting::is_within;
use crate::format_fault::FormatFault;
use crate::numbers::{push_short, version_number};
use crate::parser_part::push_parser;
use crate::scanner_part::push_scanner;
use crate::symbol_part::push_symbols;
use crate::table_set::TableSet;
use ly_base::Version;
use std::alloc::{AllocError, Global};

/// The bytes of a table file in a version: `LYTB`, the version, and the sections. Numbers have their most significant
/// byte first. It fails if an allocation fails, or if the version is 1 and the set exceeds it.
pub fn write_tables(alloc: Global, set: &TableSet, version: Version) -> Result<Vec<u8>, FormatFault>
    ensures spelled { IfOk result (λ bytes. TableText bytes.items version set.now) }
    ensures too_large { result ≡ Err fault.TooLargeForVersion
        → (version ≡ V1) × (IsWithinVersion V1 set.now → ⊥) }
{
    if !is_within(set, version) {
        return Err(FormatFault::TooLargeForVersion);
    }
    Ok(file(alloc, set, version)?)
}

/// The bytes of a set that is within the ranges of the version.
fn file(alloc: Global, set: &TableSet, version: Version) -> Result<Vec<u8>, AllocError>
    requires { IsWithinVersion version set.now }
    ensures { IfOk result (λ bytes. TableText bytes.items version set.now) }
{
    let mut out = Vec::new(alloc);
    out.extend_from_slice(b"LYTB")?;
    push_short(&mut out, version_number(version))?;
    push_symbols(&mut out, version, set)?;
    push_scanner(&mut out, version, set)?;
    push_parser(&mut out, version, set)?;
    Ok(out)
}
