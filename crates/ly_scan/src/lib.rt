//! The scanner: splits a text into lexemes by a deterministic automaton.
//!
//! A walk over an automaton is a type with `Steps`. `next_lexeme` returns the longest match of one or more bytes that
//! has a rule, and the token that the rule's cut leaves of it. Proved: this is the lexeme at the place (`IsLexemeAt`),
//! or scanning ends there as reported (`ScanEndsAt`), whatever bytes follow the known ones. If they may change the
//! result, there is none yet. A `Matcher` scans a match whose bytes arrive in chunks. It keeps the state of the walk,
//! so no byte is walked twice.
//!
//! The program's walk is that of a `Scanner`, whose rows are plain data (`StateTable`), and a `Lexer` runs it. For most
//! lexemes the state where the walk ends already determines the token, without a look at the rule (`Lexer::tell`).
//! `tell_from` does so with a start that was looked up before. A skipped lexeme of one byte, such as a blank between
//! words, is recognised by two table look-ups (`LoneBytes`).
//!
//! Rows are spread for speed: a column for each byte, and an entry is the offset of the next row, so a step is an
//! addition and an index. The state of a walk is a value that `Steps` takes and returns, so it stays in a register. A
//! walk goes on as far as it can and looks for a rule where it ends; only if there is none does it look at the states
//! before. Functions for rare cases aren't inlined, which leaves the registers to the loop.
//!
//! Scanning takes time linear in the text, whatever the rules: the longest matches from the points of long walks are
//! cached (`KnownWalks`, after Reps 1998), at every 16th byte, once a walk has gone 64 bytes and its token is shorter
//! than the walk. If memory for the cache runs out, it is cleared, and the result is the same.
//!
//! Not covered: the meaning of the rules. The walk defines it.
#![tactic(auto)]

mod beginning;
mod known_walks;
mod lexeme;
mod lexer;
mod lone_bytes;
mod matcher;
mod matching;
mod scanner;
mod scanner_parts;
mod starts;
mod state_rows;
mod steps;
mod tagged_lexeme;

pub use beginning::{Anywhere, Beginning, ByLine};
pub use known_walks::KnownWalks;
pub use lexeme::next_lexeme;
pub use lexer::Lexer;
pub use lone_bytes::LoneBytes;
pub use matcher::Matcher;
pub use scanner::Scanner;
pub use scanner_parts::ScannerParts;
pub use starts::Starts;
pub use state_rows::{RowStart, StateRows};
pub use steps::Steps;
pub use tagged_lexeme::TaggedLexeme;
