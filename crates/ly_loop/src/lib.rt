//! Checks that a parser's tables are steady: above each edge, the run on every terminal ends within 100,000 reductions.
//! An edge is a pair of states: the one below has a shift or a goto to the one on top.
//!
//! `steady` accepts the tables, or names the first edge and the first terminal whose run makes more reductions. A run
//! begins with only the two states of an edge. It ends when the terminal is read or rejected, when a goto is missing,
//! or when a reduction would pop the state below. After a reduction of one symbol or none, the run of an edge continues
//! as that of another edge. So each edge has a summary: the maximum number of reductions of its runs, over all
//! terminals, and how they end. It is computed from those of the edges to which the rules of the state on top lead, and
//! kept for these (summaries of procedures: Sharir and Pnueli 1981).
//!
//! A summary is undefined if runs continue in more than one way after the same edge, or might make too many reductions.
//! The runs of such an edge are followed separately on each terminal, in the same way: a summary then describes the
//! rest of one run, and is kept for that terminal, so that no run is followed twice from one edge on. Only a run that
//! makes too many reductions is followed step by step, for confirmation.
//!
//! - Summaries are upper bounds, because all terminals are taken together.
//! - They are kept in a tree and not in a hash map with a fixed seed, because table files may be forged.
//! - Edges to states that don't reduce are neither kept nor followed: n rules `s : T s` make n * n of them.
//! - The check of all terminals together only ever accepts. Edges that it doesn't accept are checked terminal by
//!   terminal, and the error is that of such a run.
//!
//! Not accepted: tables with runs that exceed the bound and would still end.
#![tactic(auto)]

mod by_rule;
mod check;
mod edges;
mod entries;
mod fault;
mod known;
mod listed;
mod reductions;
mod run;
mod summaries;
mod summary;
mod tokens;

pub use check::steady;
pub use fault::LoopFault;
