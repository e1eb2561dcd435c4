//! The warnings about accepted files.
ghost use Rattle.std.specs.Prelude.{◌≡◌, IfOk, false, length};
ghost use Rattle.ly_counterexamples.specs.Doubts.{AreRising, NeverMatches, NeverReduces};
ghost use Rattle.ly_lookahead.specs.Lookaheads.{AreLookaheads};
ghost use Rattle.ly_subset.specs.Automaton.{IsBreadthFirst};

use crate::lex_lints::lex_lints;
use crate::lint::{Lint, LintKind, Lints, Side};
use crate::useless::Derived;
use ly_analysis::{Analysis, Decided, Options, Places, first_of};
use ly_base::{Location, OutOfMemory, Sym, locate};
use ly_counterexamples::{
    unmatched_rules, unreduced_rules, unreturned_terminals, unused_terminals,
};
use std::alloc::Global;

/// The greatest number of terminals that are reported for each kind of warning.
pub(crate) const MOST: usize = 50;

/// The search for warnings about a yacc file.
#[derive(Drop)]
struct Finder<'a> {
    /// The files.
    files: Analysis<'a>,
    /// The locations of symbols and rules.
    places: &'a Places,
    /// The warnings found so far.
    lints: Vec<Lint<'a>>,
}

/// The rules that do nothing.
#[derive(Clone, Copy)]
struct DeadRules<'r> {
    /// The rules of the lex file that never match.
    unmatched: &'r [usize],
    /// The rules of the grammar that are never reduced.
    unreduced: &'r [usize],
}

/// Finds all warnings: first those about the lex file, if there is one, then those about the yacc file.
pub fn lints_of<'a>(
    alloc: Global,
    files: Analysis<'a>,
    places: &'a Places,
    options: Options,
) -> Result<Lints<'a>, OutOfMemory>
    requires order { IsBreadthFirst files.dfa.now }
    requires sets { AreLookaheads files.resolved.now.automaton files.lookaheads.now }
    ensures unmatched { options.grammar_alone ≡ false → IfOk result (λ lints. AreRising
        (NeverMatches files.entry.dfa.now (length files.entry.file.now.rules.items)) lints.unmatched.items) }
    ensures unreduced { IfOk result (λ lints. AreRising (NeverReduces files.entry.resolved.now) lints.unreduced.items) }
{
    let unmatched = unmatched_in(alloc, &files, options)?;
    let unreduced = unreduced_rules(alloc, files.resolved)?;
    let dead = DeadRules {
        unmatched: &unmatched,
        unreduced: &unreduced,
    };
    let list = list_of(alloc, files, places, options, dead)?;
    Ok(Lints {
        list,
        unmatched,
        unreduced,
    })
}

/// The rules of the lex file that never match; none if there is no lex file.
fn unmatched_in(
    alloc: Global,
    files: &Analysis<'_>,
    options: Options,
) -> Result<Vec<usize>, OutOfMemory>
    requires { IsBreadthFirst files.now.dfa.now }
    ensures { options.grammar_alone ≡ false → IfOk result (λ found. AreRising
        (NeverMatches files.now.dfa.now (length files.now.file.now.rules.items)) found.items) }
{
    if options.grammar_alone {
        return Ok(Vec::new(alloc));
    }
    unmatched_rules(alloc, files.file.rules.len(), files.dfa)
}

/// All warnings, given the rules that do nothing.
fn list_of<'a>(
    alloc: Global,
    files: Analysis<'a>,
    places: &'a Places,
    options: Options,
    dead: DeadRules<'_>,
) -> Result<Vec<Lint<'a>>, OutOfMemory>
    requires order { IsBreadthFirst files.dfa.now }
    requires sets { AreLookaheads files.resolved.now.automaton files.lookaheads.now }
{
    let lints = if options.grammar_alone {
        Vec::new(alloc)
    } else {
        lex_lints(alloc, files, dead.unmatched)?
    };
    let unused = unused_terminals(alloc, files.spec)?;
    let unreturned = if options.grammar_alone {
        Vec::new(alloc)
    } else {
        unreturned_terminals(alloc, files.spec, files.dfa)?
    };
    let decided = Decided::of(alloc, files.resolved, files.lookaheads)?;
    let mut finder = Finder {
        files,
        places,
        lints,
    };
    finder.find_rules(alloc, dead.unreduced)?;
    finder.find_unused(alloc, &unused)?;
    finder.find_unreturned(&unreturned, &unused)?;
    finder.find_declared_again(alloc)?;
    finder.find_idle(&decided)?;
    let Finder { lints, .. } = finder;
    Ok(lints)
}

impl<'a> Finder<'a> {
    /// Adds a warning at a location, or without one.
    fn add(&mut self, at: Option<Location>, kind: LintKind<'a>) -> Result<(), OutOfMemory> {
        Ok(
            self.lints.push(Lint {
                side: Side::Yacc,
                at,
                kind,
            })?,
        )
    }

    /// Adds a warning about the rule with this number.
    fn add_of_rule(&mut self, rule: usize, kind: LintKind<'a>) -> Result<(), OutOfMemory> {
        self.add(Some(self.places.location_of_rule(rule)), kind)
    }

    /// Adds a warning about a terminal, at its declaration or else at its first occurrence.
    fn add_of_terminal(&mut self, terminal: Sym, kind: LintKind<'a>) -> Result<(), OutOfMemory> {
        let (spec, text) = (self.files.spec, self.files.yacc.bytes);
        let at = self.places.location_of_terminal(spec, text, terminal);
        self.add(Some(at), kind)
    }

    /// Finds the rules of the grammar that are removed, are never reduced, or lose trees.
    fn find_rules(&mut self, alloc: Global, unreduced: &[usize]) -> Result<(), OutOfMemory> {
        self.find_useless(alloc)?;
        for rule in unreduced {
            self.add_of_rule(*rule, LintKind::UnreducedRule(*rule))?;
        }
        for rule in first_of(&self.places.losing_rules(alloc)?, MOST) {
            self.add_of_rule(*rule, LintKind::LosingRule(*rule))?;
        }
        Ok(())
    }

    /// Finds the useless rules, with the reasons.
    fn find_useless(&mut self, alloc: Global) -> Result<(), OutOfMemory> {
        let reduced = self.files.resolved.lr0().reduced();
        let grammar = self.files.spec.grammar();
        let mut derived = None;
        for rule in 0..grammar.rules().len() {
            if rule >= reduced.grammar().rules().len() || reduced.is_kept(rule) {
                continue;
            }
            if derived.is_none() {
                derived = Some(Derived::of(alloc, grammar)?);
            }
            if let Some(derived) = &derived {
                self.add_of_rule(rule, LintKind::UselessRule(rule, derived.reason(rule)))?;
            }
        }
        Ok(())
    }

    /// Finds the terminals that occur in no rule and aren't used by a `%prec` either.
    fn find_unused(&mut self, alloc: Global, unused: &[Sym]) -> Result<(), OutOfMemory> {
        let names = self.precedence_names(alloc, unused)?;
        let mut found = 0;
        for terminal in unused {
            if names.contains(terminal) {
                continue;
            }
            if found < MOST {
                self.add_of_terminal(*terminal, LintKind::UnusedTerminal(*terminal))?;
            }
            found = found.saturating_add(1);
        }
        if found > MOST {
            self.add(None, LintKind::MoreUnused(found - MOST))?;
        }
        Ok(())
    }

    /// Finds the terminals that no rule of the lex file returns, without those that occur in no rule.
    fn find_unreturned(&mut self, unreturned: &[Sym], unused: &[Sym]) -> Result<(), OutOfMemory> {
        let mut found = 0;
        for terminal in unreturned {
            if unused.contains(terminal) {
                continue;
            }
            if found < MOST {
                self.add_of_terminal(*terminal, LintKind::UnreturnedTerminal(*terminal))?;
            }
            found = found.saturating_add(1);
        }
        if found > MOST {
            self.add(None, LintKind::MoreUnreturned(found - MOST))?;
        }
        Ok(())
    }

    /// Selects the terminals that are named by a `%prec`, and so give a rule its precedence.
    fn precedence_names(&self, alloc: Global, terminals: &[Sym]) -> Result<Vec<Sym>, OutOfMemory> {
        let mut names = Vec::new(alloc);
        for terminal in terminals {
            if self.places.gives_precedence(self.files.spec, *terminal) {
                names.push(*terminal)?;
            }
        }
        Ok(names)
    }

    /// Finds the tokens that are declared more than once.
    fn find_declared_again(&mut self, alloc: Global) -> Result<(), OutOfMemory> {
        let (places, text) = (self.places, self.files.yacc.bytes);
        for again in first_of(&places.declared_again(alloc)?, MOST) {
            let kind = LintKind::DeclaredAgain {
                symbol: again.symbol,
                first: locate(text, again.first),
            };
            self.add(Some(locate(text, again.offset)), kind)?;
        }
        Ok(())
    }

    /// Finds the precedences that have no effect: those of terminals, and those that a `%prec` gives.
    fn find_idle(&mut self, decided: &Decided) -> Result<(), OutOfMemory> {
        let (spec, places) = (self.files.spec, self.places);
        let mut found = 0;
        for number in 0..spec.grammar().terminals() {
            let ranked = matches!(spec.precedences().get(number as usize), Some(Some(_)));
            if ranked && found < MOST && !decided.by_terminal(spec, Sym(number)) {
                self.add_of_terminal(Sym(number), LintKind::IdlePrecedence(Sym(number)))?;
                found = found.saturating_add(1);
            }
        }
        for rule in first_of(places.ranked_rules(), MOST) {
            if !decided.by_rule(*rule) {
                self.add_of_rule(*rule, LintKind::IdlePrec(*rule))?;
            }
        }
        Ok(())
    }
}
