ghost use Rattle.std.specs.Prelude.{◌≡◌, ◌<◌, ◌≤◌, ◌↔◌, ℕ, Contains, IfOk, IsSome, IsTrue, filter, length};
ghost use Rattle.std.specs.Prelude.{Some, map, option_map, slice_get};
ghost use Rattle.ly_join.specs.Grammar.{symbol_of};
ghost use Rattle.ly_lr0.specs.Automaton.{is_goto, is_shift, target_of, IsLess};
ghost use Rattle.ly_lr0.specs.Private.Built.{AreInOrder};
ghost use Rattle.ly_lr0.specs.Private.Places.{IsPlace};
ghost use Rattle.ly_lr0.specs.Transitions.{transition_of};
ghost use Rattle.ly_lr0.specs.declared.transition.Transition as spec;

use crate::by_left::RulesByLeft;
use crate::transition::{Link, Row, Transition};
use ly_base::{OutOfMemory, StateNo, Sym};
use ly_grammar::Reduced;
use ly_join::Symbol;
use std::alloc::Global;
use std::marker::Model;

/// The LR(0) automaton of a reduced grammar.
#[derive(Drop)]
pub struct Lr0<'a> {
    /// The grammar.
    pub(crate) reduced: &'a Reduced<'a>,
    /// For each state but the first, the last step of its prefix.
    pub(crate) links: Vec<Link>,
    /// The transitions of each state, and the rules complete in it.
    pub(crate) rows: Vec<Row>,
    /// The rules of each nonterminal.
    pub(crate) by_left: RulesByLeft,
}

impl<'a> Model for Lr0<'a> {
    ghost use Rattle.ly_lr0.specs.Automaton.{Lr0Automaton};

    ghost Value = { Lr0Automaton };

    ghost use Rattle.ly_lr0.specs.Private.Built.{automaton_from, IsBuilt};

    ghost view = { λ a. automaton_from a.reduced.now.grammar a.links.items a.rows.items };

    ghost invariant = { λ a. IsBuilt a.reduced.now.grammar a.links.items a.rows.items a.by_left };
}

impl<'a> Lr0<'a> {
    ghost use Rattle.ly_join.specs.Grammar.{IsRule, GrammarRule, Symbol as GrammarSymbol};
    ghost use Rattle.ly_lr0.specs.Automaton.{goto_of, prefix_of, state_at, IsLr0Automaton};

    /// The grammar whose automaton it is.
    pub fn reduced(&self) -> &'a Reduced<'a>
        ensures { result.now.grammar ≡ self.now.grammar }
    {
        self.reduced
    }

    /// The number of states.
    pub fn states(&self) -> usize
        ensures count { result ≡ length self.now.states }
        ensures few { result ≤ 4294967295 }
        ensures lawful { IsLr0Automaton self.now }
    {
        self.rows.len()
    }

    /// The transitions of a state over terminals, in their order.
    pub fn shifts(&self, state: StateNo) -> &[Transition]
        requires { state.0 < length self.now.states }
        ensures { map transition_of result.now ≡ filter is_shift (state_at self.now state.0).transitions }
    {
        &self.rows[state.0 as usize].shifts
    }

    /// The transitions of a state over nonterminals, in their order.
    pub fn gotos(&self, state: StateNo) -> &[Transition]
        requires { state.0 < length self.now.states }
        ensures { map transition_of result.now ≡ filter is_goto (state_at self.now state.0).transitions }
    {
        &self.rows[state.0 as usize].gotos
    }

    /// The target of a symbol's transition from a state.
    pub fn goto(&self, state: StateNo, symbol: Symbol) -> Option<StateNo>
        requires { state.0 < length self.now.states }
        ensures { option_map (λ s. s.0) result ≡ goto_of self.now state.0 (symbol_of symbol) }
    {
        let transitions = self.row_over(state, symbol);
        target_at(transitions, place_of(transitions, symbol), symbol)
    }

    /// The target of a symbol's transition from a state. `index` is a hint among the transitions over the symbol's
    /// kind: that transition is tried first, and if it isn't the right one, a search follows. After the call, `index`
    /// is one past the transition found. So rising symbols of one kind are found without a search.
    #[inline(always)] // called for each state and symbol
    pub fn goto_near(&self, state: StateNo, symbol: Symbol, index: &mut usize) -> Option<StateNo>
        requires { state.0 < length self.now.states }
        ensures { option_map (λ s. s.0) result ≡ goto_of self.now state.0 (symbol_of symbol) }
    {
        let transitions = self.row_over(state, symbol);
        if !is_place_of(transitions, *index, symbol) {
            *index = place_of(transitions, symbol);
        }
        let found = target_at(transitions, *index, symbol);
        if found.is_some() {
            *index += 1;
        }
        found
    }

    /// The transitions of a state over the same kind of symbols as this one, in their order.
    fn row_over(&self, state: StateNo, symbol: Symbol) -> &[Transition]
        requires { state.0 < length self.now.states }
        ensures ordered { AreInOrder (map transition_of result.now) }
        ensures leads { target_of (map transition_of result.now) (symbol_of symbol)
            ≡ goto_of self.now state.0 (symbol_of symbol) }
    {
        let row = &self.rows[state.0 as usize];
        match symbol {
            Symbol::Terminal(_) => &row.shifts,
            Symbol::Nonterminal(_) => &row.gotos,
        }
    }

    /// The numbers of the rules that are complete in a state, in rising order.
    pub fn complete(&self, state: StateNo) -> &[usize]
        requires { state.0 < length self.now.states }
        ensures { result.now ≡ (state_at self.now state.0).complete }
    {
        &self.rows[state.0 as usize].complete
    }

    /// The accessing symbol of a state: the symbol of all transitions to it, which is the last of each string that
    /// leads there. None for the first state, to which only the empty string leads.
    pub fn accessing_symbol(&self, state: StateNo) -> Option<Symbol>
        requires { state.0 < length self.now.states }
        ensures last { option_map symbol_of result ≡ slice_get (prefix_of self.now state.0) 0 }
        ensures only { (q : ℕ) (X : GrammarSymbol) → goto_of self.now q X ≡ Some state.0
            → option_map symbol_of result ≡ Some X }
    {
        let links = &self.links;
        let before = (state.0 as usize).checked_sub(1)?;
        Some(links[before].symbol)
    }

    /// The numbers of the rules of a nonterminal.
    pub fn rules_of(&self, symbol: Sym) -> &[usize]
        requires { symbol.0 ≤ self.now.grammar.accept }
        ensures { (q : ℕ) → Contains result.now q
            ↔ ((r : GrammarRule) × IsRule self.now.grammar q r × (r.left ≡ symbol.0)) }
    {
        self.by_left.of(symbol)
    }

    /// The least string that leads to a state, its last symbol first.
    pub fn prefix(&self, alloc: Global, state: StateNo) -> Result<Vec<Symbol>, OutOfMemory>
        requires { state.0 < length self.now.states }
        ensures { IfOk result (λ g. map symbol_of g.items ≡ prefix_of self.now state.0) }
    {
        let mut prefix = Vec::new(alloc);
        let mut state = state.0 as usize;
        while state > 0 {
            let link = self.links[state - 1];
            prefix.push(link.symbol)?;
            state = link.from;
        }
        Ok(prefix)
    }
}

/// The index of a symbol's transition among others in the order of their symbols, or the index where it would be
/// inserted.
pub(crate) fn place_of(transitions: &[Transition], symbol: Symbol) -> usize
    requires { AreInOrder (map transition_of transitions.now) }
    ensures { IsPlace transitions.now (symbol_of symbol) result }
{
    let mut low = 0;
    let mut high = transitions.len();
    while low < high {
        let middle = low + (high - low) / 2;
        if comes_before(transitions[middle].symbol, symbol) {
            low = middle + 1;
        } else {
            high = middle;
        }
    }
    low
}

/// Whether this is the index of a symbol's transition, or where it would be inserted.
fn is_place_of(transitions: &[Transition], place: usize, symbol: Symbol) -> bool
    requires { AreInOrder (map transition_of transitions.now) }
    ensures { IsTrue result ↔ IsPlace transitions.now (symbol_of symbol) place }
{
    // mostly true
    if has_symbol_at(transitions, place, symbol) {
        return true;
    }
    if place > transitions.len() {
        return false;
    }
    if place > 0 {
        if !comes_before(transitions[place - 1].symbol, symbol) {
            return false;
        }
    }
    if place == transitions.len() {
        return true;
    }
    !comes_before(transitions[place].symbol, symbol)
}

/// Whether the transition at this index is over this symbol.
fn has_symbol_at(transitions: &[Transition], place: usize, symbol: Symbol) -> bool
    ensures { IsTrue result → (t : spec.Transition) × (slice_get transitions.now place ≡ Some t) × (t.symbol ≡ symbol) }
{
    match transitions.get(place) {
        Some(transition) => transition.symbol == symbol,
        None => false,
    }
}

/// The target of a symbol's transition, if it is at this index.
fn target_at(transitions: &[Transition], place: usize, symbol: Symbol) -> Option<StateNo>
    requires ordered { AreInOrder (map transition_of transitions.now) }
    requires place { IsPlace transitions.now (symbol_of symbol) place }
    ensures target { option_map (λ s. s.0) result ≡ target_of (map transition_of transitions.now) (symbol_of symbol) }
    ensures inside { IsSome result → place < length transitions.now }
{
    let transition = transitions.get(place)?;
    if transition.symbol == symbol {
        Some(transition.target)
    } else {
        None
    }
}

/// Whether a symbol comes before another: by number, terminals before nonterminals.
pub(crate) fn comes_before(left: Symbol, right: Symbol) -> bool
    ensures { IsTrue result ↔ IsLess (symbol_of left) (symbol_of right) }
{
    match (left, right) {
        (Symbol::Terminal(left), Symbol::Terminal(right)) => left.0 < right.0,
        (Symbol::Terminal(_), Symbol::Nonterminal(_)) => true,
        (Symbol::Nonterminal(_), Symbol::Terminal(_)) => false,
        (Symbol::Nonterminal(left), Symbol::Nonterminal(right)) => left.0 < right.0,
    }
}
