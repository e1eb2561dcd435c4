//! Tests over the crates: behaviour that no run of the program shows, and public functions that no run calls.
//!
//! All tests are in this crate. Checking a crate's tests first reads all code that they link, which takes most of a
//! minute, so this is done once.
//!
//! `RowWalk` is the simplest walk that a scanner can have. `docs/testing.md` lists what is tested where.
#![tactic(auto)]

mod row_walk;

pub use row_walk::{Row, RowWalk};

#[cfg(test)]
mod answers;
#[cfg(test)]
mod devices;
#[cfg(test)]
mod files;
#[cfg(test)]
mod graphs;
#[cfg(test)]
mod memory;
#[cfg(test)]
mod parses;
#[cfg(test)]
mod pieces;
#[cfg(test)]
mod reports;
#[cfg(test)]
mod rows;
#[cfg(test)]
mod sets;
#[cfg(test)]
mod specifications;
#[cfg(test)]
mod tables;
#[cfg(test)]
mod trees;
#[cfg(test)]
mod walks;
