//! Parses a text that arrives in chunks, with a table set, into the printed result.
//!
//! `Prepared` is a table set with its lexer, made once for any number of texts. A `Feed` takes a text chunk by chunk. The scanner of the set finds the tokens, its parser reads them one by one,
//! and the tree, or the error, is written when it is known, as plain text or as JSON (`TableAnswer`, `written_in`). A
//! feed holds only the bytes of the match that isn't decided yet. The result doesn't depend on how the text is split
//! into chunks (`IsPiece`, `IsFinish`). Scanner and parser run on the tables only, so this crate knows nothing of lex
//! and yacc files. The loop of a feed is also available for a text in memory, and for a parser whose rules build other
//! terms (`Prepared::run`, `IsClosed`).
//!
//! - A match is decided by the first byte with which it can't be extended, even if no byte could extend it. To know
//!   that earlier, a scanner would need a mark on such states, and would gain one byte.
//! - A feed holds its bytes in one list. After a chunk, the undecided bytes move to its front, so its memory is reused,
//!   and a match across chunks is one slice.
//! - The scan of the undecided match is kept (`Matcher`), so a token in many chunks isn't scanned anew for each. Once
//!   decided, it is scanned again by the loop over lexemes, which is the same for chunks and for the end.
//! - Each call marks the feed as ended at its start, and undoes that only with `Need::More`. So no error leaves a feed
//!   half done; after the end each call returns `Over` and changes nothing.
//! - A feed borrows its prepared set, so that a text of a few bytes costs no more than its bytes.
//! - The contracts of a feed are about the rest of a text: the verdict of the table set, continuing from what is held,
//!   for any bytes that follow. So they don't mention chunks. That decided matches don't change the verdict is a law
//!   (`decided_matches_change_nothing`).
//! - `Need::More` also guarantees that all decided matches were skipped or their tokens read, and that the next one
//!   isn't decided.
//!
//! Not done here: reading the chunks, and the relation of tables to the files that they were generated from.
#![tactic(auto)]

mod feed;
mod feed_fault;
mod json_lines;
mod label_form;
mod labels;
mod laws;
mod lexer_of_set;
mod lines;
pub mod meaning;
mod name_labels;
mod names;
mod need;
mod outcome;
mod prepared;
mod running;
mod running_told;
mod syntax_error;
mod text_fault;
mod token_spans;
mod told;
mod window;

pub use feed::Feed;
pub use feed_fault::FeedFault;
pub use json_lines::{json_refused_line, json_unmatched_line};
pub use laws::{
    a_beginning_says_it, a_text_has_a_verdict, a_text_has_one_verdict,
    decided_matches_change_nothing,
};
pub use lexer_of_set::lexer_of;
pub use name_labels::NameLabels;
pub use need::Need;
pub use outcome::Outcome;
pub use prepared::Prepared;
pub use running::{Ended, TableParser};
pub use syntax_error::SyntaxError;
pub use text_fault::TextFault;
