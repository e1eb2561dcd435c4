//! Groups the conflicts of an accepted grammar, and prints each group with its counterexample, derivations and a
//! suggestion: `write_conflicts`.
//!
//! Conflicts of one state that differ only in the terminal, and have similar counterexamples, form a group
//! (`AreGroups`).
//! The content of the first 100 groups is proved before it is put into words (`AreGroupReports`): the conflict, all its
//! terminals, and a counterexample, or that there is none, or that the search was given up; and an ambiguous sentence
//! with its two trees. The counterexamples are those of `ly_counterexamples`.
//!
//! Only tested: the wording, and which of several sentences and derivations is printed.
#![tactic(auto)]

mod ambiguity;
mod begins;
mod brackets;
mod claims;
mod common;
mod conflict_json;
mod conflict_messages;
mod conflict_sarif;
mod conflicts;
mod drawing;
mod group_report;
mod groups;
mod growing;
mod headings;
mod joining;
mod meeting;
mod pair;
mod queue;
mod reading;
mod suggestions;
mod trees;
mod trial;
mod waiting;
mod ways;
mod yields;

pub use conflicts::write_conflicts;
