//! The trees of two parses that have read the same tokens.
ghost use Rattle.std.specs.Prelude.{IfOk};
ghost use Rattle.ly_resolve.specs.Values.{conflict_from, IsInside};
ghost use Rattle.ly_conflicts.specs.GroupReport.{IsFoundIn};

use crate::ambiguity::{Ambiguity, Finder};
use crate::drawing::Drawing;
use crate::growing::Search;
use crate::pair::Pair;
use crate::reading::Reading;
use crate::yields::push_reversed;
use ly_analysis::{behind_dot, body_of, rest_of};
use ly_base::{OutOfMemory, Sym};
use ly_counterexamples::{Claim, conflicting_sentence};
use ly_join::Symbol;
use ly_lr0::Item;
use ly_resolve::Conflict;
use std::alloc::{AllocError, Global};

/// The number of states from which the search for a prefix to a pair is tried.
const STATES: usize = 4;

/// The number of steps that such a try takes.
const TRY: usize = 1_000_000;

impl Finder<'_> {
    /// The sentence of two parses of one nonterminal, if a string leads to where they begin and their trees take both
    /// actions of a conflict.
    pub(crate) fn joined(
        &self,
        alloc: Global,
        conflict: &Conflict,
        search: &mut Search,
        pair: &Pair,
    ) -> Result<Option<Ambiguity>, OutOfMemory>
        requires { IsInside self.now.examples.now.automaton conflict.now }
        ensures { IfOk result (IsFoundIn self.now.examples.now
            (conflict_from self.now.examples.now.automaton conflict.now)) }
    {
        let resolved = self.examples.resolved();
        for state in pair.states.iter().take(STATES) {
            if (state.0 as usize) >= self.lr0.states() {
                continue;
            }
            search.take_steps(TRY);
            let mut prefix = self.lr0.prefix(alloc, *state)?;
            prefix.reverse();
            let Some(way) = self.way_to(alloc, &prefix, pair, conflict.terminal)? else {
                continue;
            };
            let one = self.rules_of(alloc, search, &way, &pair.one)?;
            let other = self.rules_of(alloc, search, &way, &pair.other)?;
            let found = conflicting_sentence(alloc, resolved, conflict, &one, &other)?;
            if let Some(sentence) = found {
                return Ok(Some(Ambiguity {
                    sentence,
                    one,
                    other,
                }));
            }
        }
        Ok(None)
    }

    /// How the nonterminal of two parses arises after a prefix: the path to the item with the dot before it. Empty if
    /// they are parses of the whole text; `None` if no path is found.
    fn way_to(
        &self,
        alloc: Global,
        prefix: &[Symbol],
        pair: &Pair,
        terminal: Sym,
    ) -> Result<Option<Vec<Item>>, OutOfMemory> {
        let Some(outmost) = pair.one.outmost() else {
            return Ok(None);
        };
        if outmost.rule == 0 {
            return Ok(Some(Vec::new(alloc)));
        }
        let drawing = Drawing::new(alloc, self.cores, prefix, terminal)?;
        let begun = Item {
            rule: outmost.rule,
            dot: 0,
        };
        let mut way = drawing.way(alloc, Claim::InCore(begun))?;
        if way.pop().is_none() {
            return Ok(None);
        }
        Ok(Some(way))
    }

    /// The rules, in preorder, of the tree that a parse has below the last item of a path. What the path skips and what
    /// follows the parse is derived with the fewest tokens.
    fn rules_of(
        &self,
        alloc: Global,
        search: &mut Search,
        way: &[Item],
        reading: &Reading,
    ) -> Result<Vec<usize>, AllocError> {
        let (mut rules, mut outer, mut ahead) = (Vec::new(alloc), Vec::new(alloc), Vec::new(alloc));
        for item in way {
            self.pass(alloc, *item, &mut outer, &mut rules)?;
        }
        for item in &outer {
            let behind = item.dot.saturating_add(1);
            push_reversed(&mut ahead, rest_of(self.grammar, item.rule, behind))?;
        }
        for item in reading.open.iter().rev() {
            self.push_opened(alloc, *item, &mut rules)?;
        }
        rules.extend_from_slice(&reading.rules)?;
        ahead.reverse();
        let rest = self.yielded(alloc, search, &ahead)?;
        rules.extend_from_slice(&rest.rules)?;
        Ok(rules)
    }

    /// Advances to an item of a path. Either the innermost open rule moves its dot over a symbol, which is derived, or
    /// the item opens a new rule.
    fn pass(
        &self,
        alloc: Global,
        item: Item,
        open: &mut Vec<Item>,
        rules: &mut Vec<usize>,
    ) -> Result<(), AllocError> {
        if let (Some(top), true) = (open.last_mut(), item.dot > 0) {
            let passed = *top;
            *top = item;
            return self.derive_behind(alloc, passed, rules);
        }
        if item.rule > 0 {
            rules.push(item.rule)?;
        }
        open.push(item)?;
        Ok(())
    }

    /// Adds the rules of the shortest derivation of the symbol after an item's dot.
    fn derive_behind(
        &self,
        alloc: Global,
        item: Item,
        rules: &mut Vec<usize>,
    ) -> Result<(), AllocError> {
        let Some(symbol) = behind_dot(self.grammar, item) else {
            return Ok(());
        };
        let passed = self.yields.derive(alloc, self.grammar, &[symbol])?;
        rules.extend_from_slice(&passed.rules)
    }

    /// Adds a partially parsed rule, and the rules of the shortest derivations of the symbols before its dot.
    fn push_opened(
        &self,
        alloc: Global,
        item: Item,
        rules: &mut Vec<usize>,
    ) -> Result<(), AllocError> {
        if item.rule > 0 {
            rules.push(item.rule)?;
        }
        let before = body_of(self.grammar, item.rule)
            .get(..item.dot)
            .unwrap_or_default();
        let passed = self.yields.derive(alloc, self.grammar, before)?;
        rules.extend_from_slice(&passed.rules)
    }
}
