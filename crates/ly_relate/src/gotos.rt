ghost use Rattle.std.specs.Prelude.{◌≡◌, ◌<◌, ◌≤◌, ◌↔◌, ◌++◌, ℕ, [], ◌∷◌, length, map, slice_get, IfOk, OnOk};
ghost use Rattle.std.specs.Prelude.{MatchOption, None, Some, option_map};
ghost use Rattle.ly_join.specs.Grammar.{nonterminal, symbol_of};
ghost use Rattle.ly_lr0.specs.Automaton.{goto_of, state_at};
ghost use Rattle.ly_relate.specs.Private.Gotos.{row_gotos, IsNumbering};
ghost use Rattle.ly_relate.specs.Values.{goto_from};
ghost use Rattle.ly_relate.specs.Related as spec;

use ly_base::{OutOfMemory, StateNo, Sym};
use ly_join::Symbol;
use ly_lr0::Lr0;
use std::alloc::Global;
use std::marker::Model;
use std::ops::Range;

/// A transition over a nonterminal.
#[derive(Clone, Copy, Debug, PartialEq, Eq)]
pub struct Goto {
    /// The state it leaves.
    pub from: StateNo,
    /// The nonterminal.
    pub symbol: Sym,
    /// The state it leads to.
    pub target: StateNo,
}

/// The transitions of an automaton over nonterminals, numbered state by state in the order of the symbols.
#[derive(Drop)]
pub(crate) struct Gotos<'a> {
    /// The automaton.
    lr0: &'a Lr0<'a>,
    /// The transitions by number.
    gotos: Vec<Goto>,
    /// For each state, the number of its first transition; at the end, the number of all transitions.
    first: Vec<usize>,
}

impl<'a> Model for Gotos<'a> {
    ghost use Rattle.std.specs.Prelude.{map};
    ghost use Rattle.ly_relate.specs.Private.Gotos.{IsNumbering, Numbering};
    ghost use Rattle.ly_relate.specs.Values.{goto_from};

    ghost Value = { Numbering };

    ghost view = { λ g. record { automaton = g.lr0.now; gotos = map goto_from g.gotos.items; first = g.first.items } };

    ghost invariant = { λ g. IsNumbering
        (record { automaton = g.lr0.now; gotos = map goto_from g.gotos.items; first = g.first.items }) };
}

impl<'a> Gotos<'a> {
    /// Numbers the transitions of an automaton.
    pub(crate) fn new(alloc: Global, lr0: &'a Lr0<'a>) -> Result<Gotos<'a>, OutOfMemory>
        ensures { IfOk result (λ g. g.automaton ≡ lr0.now) }
    {
        let mut gotos = Vec::new(alloc);
        let mut first = Vec::with_capacity(alloc, lr0.states())?;
        for state in 0..lr0.states() {
            first.push(gotos.len())?;
            push_row(&mut gotos, lr0, StateNo(state as u32))?;
        }
        first.push(gotos.len())?;
        Ok(Gotos { lr0, gotos, first })
    }

    /// The automaton.
    pub(crate) fn lr0(&self) -> &'a Lr0<'a>
        ensures automaton { result.now ≡ self.now.automaton }
        ensures lawful { IsNumbering self.now }
    {
        self.lr0
    }

    /// The number of transitions.
    pub(crate) fn len(&self) -> usize
        ensures count { result ≡ length self.now.gotos }
        ensures lawful { IsNumbering self.now }
    {
        self.gotos.len()
    }

    /// The transition with this number.
    pub(crate) fn get(&self, number: usize) -> Goto
        requires { number < length self.now.gotos }
        ensures there { slice_get self.now.gotos number ≡ Some (goto_from result) }
        ensures lawful { IsNumbering self.now }
    {
        self.gotos[number]
    }

    /// The numbers of the transitions that leave a state.
    pub(crate) fn leaving(&self, state: StateNo) -> Range<usize>
        requires { state.0 < length self.now.automaton.states }
        ensures within { result.end ≤ length self.now.gotos }
        ensures ordered { result.start ≤ result.end }
        ensures these { (n : ℕ) (x : spec.Goto) → slice_get self.now.gotos n ≡ Some x
            → (x.from ≡ state.0) ↔ ((result.start ≤ n) × (n < result.end)) }
        ensures lawful { IsNumbering self.now }
    {
        self.first[state.0 as usize]..self.first[state.0 as usize + 1]
    }

    /// The target of a symbol's transition from a state.
    pub(crate) fn goto(&self, state: StateNo, symbol: Symbol) -> Option<StateNo>
        requires { state.0 < length self.now.automaton.states }
        ensures leads { option_map (λ s. s.0) result ≡ goto_of self.now.automaton state.0 (symbol_of symbol) }
        ensures lawful { IsNumbering self.now }
    {
        match symbol {
            Symbol::Terminal(_) => self.lr0.goto(state, symbol),
            // a state may have thousands of terminals, and few nonterminals
            Symbol::Nonterminal(part) => {
                let number = self.find(state, part)?;
                Some(self.gotos[number].target)
            }
        }
    }

    /// The number of the transition that leaves a state over a nonterminal, if there is one.
    pub(crate) fn find(&self, state: StateNo, symbol: Sym) -> Option<usize>
        requires { state.0 < length self.now.automaton.states }
        ensures { MatchOption result (goto_of self.now.automaton state.0 (nonterminal symbol.0) ≡ None)
            (λ n. (x : spec.Goto) × (slice_get self.now.gotos n ≡ Some x) × (x.from ≡ state.0)
            × (x.symbol ≡ symbol.0)) }
    {
        let range = self.leaving(state);
        let end = range.end;
        let place = self.first_from(range, symbol);
        if place < end && self.gotos[place].symbol == symbol {
            Some(place)
        } else {
            None
        }
    }

    /// The first transition in this range whose symbol isn't less than this one, or the end of the range.
    fn first_from(&self, range: Range<usize>, symbol: Sym) -> usize
        requires within { range.end ≤ length self.now.gotos }
        requires ordered { range.start ≤ range.end }
        requires one_state { (n m : ℕ) (x y : spec.Goto) → range.start ≤ n → n < m → m < range.end
            → slice_get self.now.gotos n ≡ Some x → slice_get self.now.gotos m ≡ Some y → x.symbol < y.symbol }
        ensures start { range.start ≤ result }
        ensures end { result ≤ range.end }
        ensures less { (n : ℕ) (x : spec.Goto) → range.start ≤ n → n < result → slice_get self.now.gotos n ≡ Some x
            → x.symbol < symbol.0 }
        ensures not_less { (n : ℕ) (x : spec.Goto) → result ≤ n → n < range.end → slice_get self.now.gotos n ≡ Some x
            → symbol.0 ≤ x.symbol }
    {
        let mut low = range.start;
        let mut high = range.end;
        while low < high {
            let middle = low + (high - low) / 2;
            if self.gotos[middle].symbol.0 < symbol.0 {
                low = middle + 1;
            } else {
                high = middle;
            }
        }
        low
    }

    /// The transitions, by number.
    pub(crate) fn into_list(self) -> Vec<Goto>
        ensures { map goto_from result.items ≡ self.entry.gotos }
    {
        self.gotos
    }
}

/// Numbers the transitions of one more state.
fn push_row(gotos: &mut Vec<Goto>, lr0: &Lr0<'_>, from: StateNo) -> Result<(), OutOfMemory>
    requires { from.0 < length lr0.now.states }
    ensures { OnOk result (map goto_from gotos.new.items ≡ map goto_from gotos.old.items
        ++ row_gotos from.0 (state_at lr0.now from.0).transitions) }
{
    for transition in lr0.gotos(from) {
        if let Symbol::Nonterminal(symbol) = transition.symbol {
            gotos.push(Goto {
                from,
                symbol,
                target: transition.target,
            })?;
        }
    }
    Ok(())
}
