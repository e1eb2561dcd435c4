//! Parses the bytes of a yacc file into its declarations and rules.
//!
//! `read_yacc` reads a file. The result is unique for each text (`yacc_text_is_one`), and a text is rejected only if it
//! has no such result. The file is split into words first; the grammar of declarations and rules is defined over words.
//! A place is the number after a `$`: that of a symbol of the body, counted from 1.
//!
//! - The scan for words always succeeds: if some bytes are no word, the last word is `Other`, which no rule accepts. So
//!   the grammar needs no case of its own for that error.
//! - While a file is read, a rule or a token is located by the number of words left from it on. Offsets in bytes are
//!   computed at the end.
//! - Consecutive rules with one left side share its name (`RcSlice`), and the symbol of a `%prec` and a node are boxed,
//!   because most rules have none. That keeps a rule small.
//! - A name before a `:` begins a rule, even in the declarations. `$` and its number are two words, so `$ 1` is
//!   accepted; `$$` is one word.
//! - `error` is rejected wherever it is used as a name, even as a tag or a constructor, because the parser has no error
//!   recovery.
//! - A `%prec` before a name that a `:` follows lacks its symbol. A second action is rejected before its words are
//!   read. A symbol or an action after an action is `MidRuleAction` even with a `%prec` between them.
//! - A file that ends in the declarations lacks its `%%`, even in the middle of a declaration. A brace that isn't
//!   closed is `UnclosedComment` only after `%union`; elsewhere it isn't allowed at all.
//! - Places have 32 bits, so no action can name the last place of a body of 2^32 symbols.
//! - A rule without an action is stored as such. Its tree is defined where trees are built.
//!
//! Not done here: the meaning of names, which takes the lex file too.
#![tactic(auto)]

mod action;
mod cursor;
mod declaration;
mod declarations;
mod expected;
mod fault;
mod file;
mod laws;
mod listing;
mod offsets;
mod part;
mod place;
mod read;
mod refusal;
mod rule;
mod rules;
mod spans;
mod standing;
mod symbols;
mod wording;
mod words;

pub use fault::{YaccFault, YaccFaultKind};
pub use file::{
    Declaration, DeclarationKind, Node, Production, RuleOffsets, SymbolName, TreeAction, YaccFile,
};
pub use laws::yacc_text_is_one;
pub use read::read_yacc;
pub use spans::{WordSpan, word_spans};
pub use words::Mark;
