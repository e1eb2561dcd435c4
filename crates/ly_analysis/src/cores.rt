//! The items of all states and the strings that lead to the states, computed in one pass over the states.
use crate::bodies::behind_dot;
use indexmap::IndexSet;
use ly_base::{StateNo, Sym};
use ly_join::{Grammar, Symbol};
use ly_lr0::{Item, Lr0};
use std::alloc::{AllocError, Global};

/// The greatest number of symbols that are known of each end of a string.
pub const END: usize = 100;

/// The greatest size of a kernel that is stored in addition to that of the state before.
const SHORT: usize = 100;

/// For each state the first way to reach it, and its items.
#[derive(Drop)]
pub struct Cores<'a> {
    /// The automaton.
    lr0: &'a Lr0<'a>,
    /// For each state the first way to reach it.
    entries: Vec<Entry>,
}

/// The first way to reach a state.
#[derive(Drop)]
struct Entry {
    /// The state before the last step; `None` for the first state.
    from: Option<StateNo>,
    /// The number of steps.
    depth: usize,
    /// The state after the first of these steps, at most as many as are stored.
    early: StateNo,
    /// The items after the last step. `None` if there are many; then they are computed from those of the state before.
    kernel: Option<Vec<Item>>,
}

/// The least string that leads to a state, or the two ends of a long one.
#[derive(Drop)]
pub struct Prefix {
    /// Its first symbols; all of them if none is left out.
    pub front: Vec<Symbol>,
    /// The number of symbols that are left out after these.
    pub left_out: usize,
    /// Its last symbols.
    pub back: Vec<Symbol>,
}

impl<'a> Cores<'a> {
    /// Computes the cores of an automaton's states.
    pub fn of(alloc: Global, lr0: &'a Lr0<'a>) -> Result<Cores<'a>, AllocError> {
        let mut entries = Vec::with_capacity(alloc, lr0.states())?;
        for _ in 0..lr0.states() {
            entries.push(Entry {
                from: None,
                depth: 0,
                early: StateNo(0),
                kernel: Some(Vec::new(alloc)),
            })?;
        }
        let mut cores = Cores { lr0, entries };
        if let Some(first) = cores.entries.first_mut()
            && let Some(kernel) = &mut first.kernel
        {
            kernel.push(Item { rule: 0, dot: 0 })?;
        }
        for state in 0..lr0.states() {
            cores.leave(alloc, StateNo(state as u32))?;
        }
        Ok(cores)
    }

    /// The automaton.
    pub fn lr0(&self) -> &'a Lr0<'a> {
        self.lr0
    }

    /// The items of a state, in the order in which they were found; empty for a number without a state.
    pub fn items(&self, alloc: Global, state: StateNo) -> Result<Vec<Item>, AllocError> {
        match self.kernel(state) {
            Some(kernel) => closed(alloc, self.lr0, kernel),
            None => closed(alloc, self.lr0, &self.kernel_again(alloc, state)?),
        }
    }

    /// The kernel of a state, if it is stored.
    fn kernel(&self, state: StateNo) -> Option<&[Item]> {
        let kernel = self.entries.get(state.0 as usize)?.kernel.as_ref()?;
        Some(kernel)
    }

    /// Computes the kernel of a state from the items of the state before; empty if these aren't stored.
    fn kernel_again(&self, alloc: Global, state: StateNo) -> Result<Vec<Item>, AllocError> {
        let mut again = Vec::new(alloc);
        let from = self
            .entries
            .get(state.0 as usize)
            .and_then(|entry| entry.from);
        if let Some(symbol) = symbol_to(self.lr0, state)
            && let Some(from) = from
            && let Some(kernel) = self.kernel(from)
        {
            let grammar = self.lr0.reduced().grammar();
            for item in &closed(alloc, self.lr0, kernel)? {
                if behind_dot(grammar, *item) == Some(symbol) {
                    again.push(behind(*item))?;
                }
            }
        }
        Ok(again)
    }

    /// The shortest string that leads to a state.
    pub fn prefix(&self, alloc: Global, state: StateNo) -> Result<Prefix, AllocError> {
        let (depth, early) = match self.entries.get(state.0 as usize) {
            Some(entry) => (entry.depth, entry.early),
            None => (0, StateNo(0)),
        };
        let left_out = depth.saturating_sub(2 * END);
        if left_out == 0 {
            return Ok(Prefix {
                front: self.last_steps(alloc, state, depth)?,
                left_out,
                back: Vec::new(alloc),
            });
        }
        Ok(Prefix {
            front: self.last_steps(alloc, early, END)?,
            left_out,
            back: self.last_steps(alloc, state, END)?,
        })
    }

    /// The symbols of the last steps to a state, at most so many.
    fn last_steps(
        &self,
        alloc: Global,
        state: StateNo,
        most: usize,
    ) -> Result<Vec<Symbol>, AllocError> {
        let mut symbols = Vec::new(alloc);
        let mut at = state;
        for _ in 0..most {
            let from = self.entries.get(at.0 as usize).and_then(|entry| entry.from);
            let (Some(symbol), Some(from)) = (symbol_to(self.lr0, at), from) else {
                break;
            };
            symbols.push(symbol)?;
            at = from;
        }
        symbols.reverse();
        Ok(symbols)
    }

    /// Takes the steps from a state.
    fn leave(&mut self, alloc: Global, from: StateNo) -> Result<(), AllocError> {
        let (depth, early) = match self.entries.get(from.0 as usize) {
            Some(entry) => (entry.depth, entry.early),
            None => return Ok(()),
        };
        let grammar = self.lr0.reduced().grammar();
        let most = if self.kernel(from).is_some() {
            SHORT
        } else {
            usize::MAX
        };
        for item in &self.items(alloc, from)? {
            if let Some(symbol) = behind_dot(grammar, *item)
                && let Some(to) = goto_of(self.lr0, from, symbol)
                && let Some(entry) = self.entries.get_mut(to.0 as usize)
            {
                entry.enter(to, from, depth, early);
                entry.add(from, behind(*item), most)?;
            }
        }
        Ok(())
    }
}

impl Entry {
    /// Records the first step to a state. It comes from a state at this depth.
    fn enter(&mut self, number: StateNo, from: StateNo, depth: usize, early: StateNo) {
        if self.from.is_none() {
            self.from = Some(from);
            self.depth = depth.saturating_add(1);
            self.early = if depth < END { number } else { early };
        }
    }

    /// Adds an item that a step from a state leads to, if that step is the first one to its target. A kernel that gets
    /// more than `most` items isn't stored.
    fn add(&mut self, from: StateNo, item: Item, most: usize) -> Result<(), AllocError> {
        let mut is_long = false;
        if self.from == Some(from)
            && let Some(kernel) = &mut self.kernel
        {
            kernel.push(item)?;
            is_long = kernel.len() > most;
        }
        if is_long {
            self.kernel = None;
        }
        Ok(())
    }
}

/// The item with its dot after the next symbol.
fn behind(item: Item) -> Item {
    Item {
        dot: item.dot.saturating_add(1),
        ..item
    }
}

/// The closure of a kernel, the kernel's items first.
fn closed(alloc: Global, lr0: &Lr0<'_>, kernel: &[Item]) -> Result<Vec<Item>, AllocError> {
    let grammar = lr0.reduced().grammar();
    let mut items = Vec::from_slice(alloc, kernel)?;
    let mut entered = IndexSet::new(alloc);
    for item in kernel {
        enter(grammar, *item, &mut entered)?;
    }
    for place in 0..=grammar.accept().0 as usize {
        let Some(left) = entered.get_index(place).copied() else {
            break;
        };
        for rule in rules_of(lr0, Sym(left)) {
            let item = Item {
                rule: *rule,
                dot: 0,
            };
            items.push(item)?;
            enter(grammar, item, &mut entered)?;
        }
    }
    Ok(items)
}

/// Adds the nonterminal after the dot of an item, if there is one.
fn enter(grammar: &Grammar, item: Item, entered: &mut IndexSet<u32>) -> Result<(), AllocError> {
    if let Some(Symbol::Nonterminal(left)) = behind_dot(grammar, item) {
        entered.insert(left.0)?;
    }
    Ok(())
}

/// The rules of a nonterminal; empty for a number without a nonterminal.
fn rules_of<'l>(lr0: &'l Lr0<'_>, left: Sym) -> &'l [usize] {
    if left.0 > lr0.reduced().grammar().accept().0 {
        return &[];
    }
    lr0.rules_of(left)
}

/// The target of a symbol from a state.
pub fn goto_of(lr0: &Lr0<'_>, state: StateNo, symbol: Symbol) -> Option<StateNo> {
    if (state.0 as usize) < lr0.states() {
        lr0.goto(state, symbol)
    } else {
        None
    }
}

/// The last symbol of the strings that lead to a state; `None` for the first state.
pub fn symbol_to(lr0: &Lr0<'_>, state: StateNo) -> Option<Symbol> {
    if (state.0 as usize) < lr0.states() {
        lr0.accessing_symbol(state)
    } else {
        None
    }
}
