//! Reads the sections of the symbols.
ghost use Rattle.std.specs.Prelude.{◌≡◌, ◌++◌, IfOk, IfErr};
ghost use Rattle.ly_tables.specs.Private.Parts.{IsBeginning, Stops};
ghost use Rattle.ly_tables.specs.Private.RawParts.{AreSymbolsText, DoSymbolsFit, symbols_raw};
ghost use Rattle.ly_tables.specs.Ranges.{width_of};
ghost use Rattle.ly_tables.specs.RawSet.{raw_symbol_sections};

use crate::fault::TableFault;
use crate::field::list;
use crate::front::number;
use crate::plain_fields::{Number, Text};
use ly_base::Version;
use std::alloc::Global;

/// The sections of the symbols, as numbers.
#[derive(Drop)]
pub(crate) struct RawSymbols {
    /// The number of nonterminals.
    pub(crate) nonterminals: u32,
    /// The names of terminals.
    pub(crate) terminals: Vec<Vec<u8>>,
    /// The terminal of each byte.
    pub(crate) literals: Vec<u32>,
}

/// The sections of the symbols, and the bytes after them.
pub(crate) fn read_symbols(
    alloc: Global,
    version: Version,
    left: &[u8],
) -> Result<(RawSymbols, &[u8]), TableFault>
    ensures fits { IfOk result (λ r. DoSymbolsFit (width_of version) (symbols_raw r.0)) }
    ensures ok { IfOk result (λ r. left.now ≡ raw_symbol_sections (width_of version) (symbols_raw r.0) ++ r.1.now) }
    ensures truncated { IfErr result (Stops (IsBeginning (AreSymbolsText (width_of version)) left.now)) }
{
    let (terminal_count, left) = number(version, left)?;
    let (nonterminals, left) = number(version, left)?;
    let (terminals, left) = list::<Text>(alloc, version, left, terminal_count as usize)?;
    let (literals, left) = list::<Number>(alloc, version, left, 256)?;
    let symbols = RawSymbols {
        nonterminals,
        terminals,
        literals,
    };
    Ok((symbols, left))
}
