//! The sections of the symbols.
ghost use Rattle.std.specs.Prelude.{◌≡◌, ◌++◌, ◌<◌, All, OnOk, length, map};
ghost use Rattle.std.specs.List.{flat_map};
ghost use Rattle.ly_tables.specs.Ranges.{width_of, IsWithinVersion};
ghost use Rattle.ly_tables.specs.RawSet.{Fits};
ghost use Rattle.ly_tables.specs.Spelling.{number, string, symbol_sections};

use crate::numbers::{push_count, push_number, push_string};
use crate::table_set::TableSet;
use ly_base::{Sym, Version};
use std::alloc::AllocError;

/// The sections of the symbols: their numbers, the names of terminals, and the terminal of each byte.
pub(crate) fn push_symbols(
    out: &mut Vec<u8>,
    version: Version,
    set: &TableSet,
) -> Result<(), AllocError>
    requires { IsWithinVersion version set.now }
    ensures { OnOk result (out.new.items ≡ out.old.items ++ symbol_sections (width_of version) set.now) }
{
    push_count(out, version, set.parts.terminals.len())?;
    push_count(out, version, set.parts.nonterminals)?;
    push_names(out, &set.parts.terminals)?;
    push_literals(out, version, &set.parts.literals)
}

/// The names of terminals.
fn push_names(out: &mut Vec<u8>, names: &[Vec<u8>]) -> Result<(), AllocError>
    requires { All (λ name. length name < 65536) (map (λ name. name.items) names.now) }
    ensures { OnOk result (out.new.items ≡ out.old.items ++ flat_map string (map (λ name. name.items) names.now)) }
{
    for name in names {
        push_string(out, name)?;
    }
    Ok(())
}

/// The terminal of each byte.
fn push_literals(out: &mut Vec<u8>, version: Version, literals: &[Sym]) -> Result<(), AllocError>
    requires { All (Fits (width_of version)) (map (λ t. t.0) literals.now) }
    ensures { OnOk result (out.new.items ≡ out.old.items
        ++ flat_map (number (width_of version)) (map (λ t. t.0) literals.now)) }
{
    for literal in literals {
        push_number(out, version, literal.0)?;
    }
    Ok(())
}
