//! How an action arises after a string of symbols: the partially parsed rules at its end.
use crate::claims::{Claimed, MOST, Opening, Search, item_of, with_item};
use ly_analysis::{Cores, behind_dot, goto_of, rest_of};
use ly_base::{OutOfMemory, StateNo, Sym};
use ly_counterexamples::Claim;
use ly_grammar::Reduced;
use ly_join::{Grammar, Symbol};
use ly_lr0::{Item, Lr0};
use std::alloc::Global;

/// A string of symbols, and the data to find how an action arises after it.
#[derive(Drop)]
pub(crate) struct Drawing<'a> {
    /// The useful rules of the grammar, with what is known of its symbols.
    reduced: &'a Reduced<'a>,
    /// The grammar.
    grammar: &'a Grammar,
    /// The string, from its first symbol on.
    string: &'a [Symbol],
    /// The next terminal.
    terminal: Sym,
    /// The items of the states.
    cores: &'a Cores<'a>,
    /// The state after each prefix of the string, from the empty one on.
    states: Vec<StateNo>,
}

impl<'a> Drawing<'a> {
    /// Prepares the search for this string.
    pub(crate) fn new(
        alloc: Global,
        cores: &'a Cores<'a>,
        string: &'a [Symbol],
        terminal: Sym,
    ) -> Result<Drawing<'a>, OutOfMemory> {
        let reduced = cores.lr0().reduced();
        Ok(Drawing {
            reduced,
            grammar: reduced.grammar(),
            string,
            terminal,
            cores,
            states: states_along(alloc, cores.lr0(), string)?,
        })
    }

    /// The path to a claim about the whole string: the items of the claims from that about the start to this one. Each
    /// claim implies the next. Empty if none is found.
    pub(crate) fn way(&self, alloc: Global, last: Claim) -> Result<Vec<Item>, OutOfMemory> {
        let mut search = Search::new(alloc);
        let last = Claimed {
            length: self.string.len(),
            claim: last,
        };
        self.way_to(alloc, &mut search, last)
    }

    /// The path to a claim, found by a search that has visited nothing.
    fn way_to(
        &self,
        alloc: Global,
        search: &mut Search,
        last: Claimed,
    ) -> Result<Vec<Item>, OutOfMemory> {
        search.found.insert(last, 0)?;
        for place in 0..MOST {
            let Some(claimed) = search.claimed(place) else {
                break;
            };
            if self.reaches_start(alloc, search, claimed, place)? {
                return search.way_back(alloc);
            }
        }
        Ok(Vec::new(alloc))
    }

    /// Adds the claims that imply the one at an index. Returns whether that about the start is among them.
    fn reaches_start(
        &self,
        alloc: Global,
        search: &mut Search,
        claimed: Claimed,
        place: usize,
    ) -> Result<bool, OutOfMemory> {
        if search.opens_again(self.opening(claimed))? {
            return Ok(false);
        }
        let before = self.before(alloc, search, claimed)?;
        Ok(search.has_start(&before, place)?)
    }

    /// The opening of a claim about a rule with its dot at the start. What implies the claim depends on the opening
    /// alone.
    fn opening(&self, claimed: Claimed) -> Option<Opening> {
        let item = item_of(claimed.claim)?;
        if item.dot > 0 {
            return None;
        }
        let rule = self.grammar.rules().get(item.rule)?;
        Some(Opening {
            length: claimed.length,
            left: rule.left(),
            in_core: matches!(claimed.claim, Claim::InCore(_)),
        })
    }

    /// The claims that imply a claim.
    fn before(
        &self,
        alloc: Global,
        search: &mut Search,
        claimed: Claimed,
    ) -> Result<Vec<Claimed>, OutOfMemory> {
        let mut found = Vec::new(alloc);
        let Some(item) = item_of(claimed.claim) else {
            return Ok(found);
        };
        if let (Some(dot), Some(length)) = (
            item.dot.checked_sub(1),
            claimed.length.checked_sub(1),
        ) {
            let item = Item { dot, ..item };
            if self.string.get(length).copied() == behind_dot(self.grammar, item) {
                let claim = with_item(claimed.claim, item);
                found.push(Claimed { length, claim })?;
            }
        } else if let Some(state) = self.states.get(claimed.length) {
            let Some(rule) = self.grammar.rules().get(item.rule) else {
                return Ok(found);
            };
            let waiting = search.waiting(alloc, self.cores, *state, rule.left())?;
            self.push_waiting(&mut found, waiting, claimed)?;
        }
        Ok(found)
    }

    /// Adds the claims about the items of a core whose dot is before the left side of a rule that has its dot at the
    /// start.
    fn push_waiting(
        &self,
        found: &mut Vec<Claimed>,
        items: &[Item],
        claimed: Claimed,
    ) -> Result<(), OutOfMemory> {
        for waiting in items {
            let (in_core, with) = self.is_true_by(claimed.claim, *waiting);
            if in_core {
                found.push(Claimed {
                    claim: Claim::InCore(*waiting),
                    ..claimed
                })?;
            }
            if with {
                found.push(Claimed {
                    claim: Claim::With(*waiting),
                    ..claimed
                })?;
            }
        }
        Ok(())
    }

    /// Whether an item with its dot before the left side of a rule implies a claim about that rule: first with any
    /// terminal as the item's lookahead, then with the next terminal.
    fn is_true_by(&self, claim: Claim, waiting: Item) -> (bool, bool) {
        if let Claim::InCore(_) = claim {
            return (true, false);
        }
        let rest = rest_of(self.grammar, waiting.rule, waiting.dot.saturating_add(1));
        begin(self.reduced, rest, self.terminal)
    }
}

/// The states after the prefixes of a string, as far as it leads to states.
fn states_along(
    alloc: Global,
    lr0: &Lr0<'_>,
    string: &[Symbol],
) -> Result<Vec<StateNo>, OutOfMemory> {
    let mut states = Vec::new(alloc);
    let mut state = StateNo(0);
    states.push(state)?;
    for symbol in string {
        let Some(next) = goto_of(lr0, state, *symbol) else {
            break;
        };
        state = next;
        states.push(state)?;
    }
    Ok(states)
}

/// Whether a terminal can begin what symbols derive, and whether they can derive the empty string.
pub(crate) fn begin(reduced: &Reduced<'_>, symbols: &[Symbol], terminal: Sym) -> (bool, bool) {
    let grammar = reduced.grammar();
    for symbol in symbols {
        match symbol {
            Symbol::Terminal(number) => return (*number == terminal, false),
            Symbol::Nonterminal(number) => {
                if number.0 > grammar.accept().0 || terminal.0 >= grammar.terminals() {
                    return (false, false);
                }
                if reduced.begins(*number, terminal) {
                    return (true, false);
                }
                if !reduced.is_nullable(*number) {
                    return (false, false);
                }
            }
        }
    }
    (false, true)
}
