//! Finds what two accepted files may not mean (`lints_of`): the warnings of `explain`.
//!
//! These are rules that never match, patterns that mean something other than they seem to, tokens that no rule returns,
//! precedences that decide nothing, and the like. Which rules and tokens are useless is proved in `ly_counterexamples`.
//! Which of it deserves a warning, and the wording, is only tested.
#![tactic(auto)]

mod definitions;
mod hiding;
mod lex_lints;
mod lint;
mod lint_messages;
mod lints;
mod pattern_lint_messages;
mod patterns;
mod useless;

pub use lint::{Hiding, Lint, LintKind, Lints, Side, Uselessness};
pub use lint_messages::{file_of, name_of, write_kind, write_lints};
pub use lints::lints_of;
pub use patterns::PatternLint;
