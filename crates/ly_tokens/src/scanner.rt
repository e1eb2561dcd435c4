ghost use Rattle.std.specs.Prelude.{◌≤◌, ℕ, List, IfErr, IfOk, OnOk, length};
ghost use Rattle.ly_ere.specs.Names.{defined};
ghost use Rattle.ly_lexread.specs.LexText.{LexText};
ghost use Rattle.ly_position.specs.TotalWeight.{total_weight};
ghost use Rattle.ly_subset.specs.RuleSets.{HaveMoreSets};
ghost use Rattle.ly_tokens.specs.Agreement.{Agrees};
ghost use Rattle.ly_tokens.specs.RowWalk.{cut_in, row_walk};
ghost use Rattle.ly_tokens.specs.Scanner.{IsSubsetScanner};
ghost use Rattle.ly_tokens.specs.ScannerFault.{HasNoScanner};

use crate::scanner_fault::ScannerFault;
use ly_base::Limits;
use ly_lexread::LexFile;
use ly_minim::minimise;
use ly_position::positions;
use ly_subset::{Dfa, subsets};
use std::alloc::Global;

/// The DFA of a lex file, if it is within the limits. Its states are the sets of positions of the patterns (subset
/// construction, Rabin and Scott 1959).
///
/// Its errors are those of `ScannerFault`.
pub fn subset_scanner(alloc: Global, file: &LexFile, limits: &Limits) -> Result<Dfa, ScannerFault>
    ensures scanner { IfOk result (IsSubsetScanner file.now) }
    ensures states { IfOk result (λ d. length d.rules ≤ limits.now.scanner_states) }
    ensures within { OnOk result
        (total_weight (defined file.now.names) file.now.rules.items ≤ limits.now.total_weight) }
    ensures few { OnOk result (HaveMoreSets (defined file.now.names) file.now.rules.items file.now.conditions
        limits.now.scanner_states → ⊥) }
    ensures refused { IfErr result (HasNoScanner limits.now file.now) }
{
    let nfa = positions(alloc, &file.rules, &file.names, file.conditions, limits)?;
    Ok(subsets(alloc, &nfa, file.conditions, limits)?)
}

/// The minimal DFA of a lex file's patterns, which the lexer runs.
pub(crate) fn smallest_automaton(
    alloc: Global,
    file: &LexFile,
    limits: &Limits,
) -> Result<Dfa, ScannerFault>
    requires spelled { (bytes : List ℕ) × LexText bytes file.now }
    ensures agrees { IfOk result (λ d. Agrees (defined file.now.names) file.now.rules.items
        (record { walk = row_walk d; cut = cut_in file.now.rules.items })) }
    ensures within { OnOk result
        (total_weight (defined file.now.names) file.now.rules.items ≤ limits.now.total_weight) }
    ensures few { OnOk result (HaveMoreSets (defined file.now.names) file.now.rules.items file.now.conditions
        limits.now.scanner_states → ⊥) }
    ensures refused { IfErr result (HasNoScanner limits.now file.now) }
{
    let subsets = subset_scanner(alloc, file, limits)?;
    Ok(minimise(alloc, subsets)?)
}
