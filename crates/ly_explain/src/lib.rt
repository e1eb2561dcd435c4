//! Reports what there is to say about a lex file and a yacc file, accepted or not: `explain`. `explain_grammar` does it
//! for a yacc file alone, together with an empty lex file.
//!
//! For rejected files it reports each independent error (`ly_diagnostics`), for accepted files their warnings and
//! conflicts (`ly_lints`, `ly_conflicts`). It is proved that the result has the right verdict and number of conflicts
//! (`IsExplained`). The wording is only tested.
//!
//! This crate doesn't open or write files; the program does.
#![tactic(auto)]

mod explaining;
mod form;
mod picture;
mod rules;
mod sarif;
mod scanner;
mod states;
mod surveying;

pub use explaining::{explain, explain_grammar};
pub use ly_analysis::{Form, Options};
pub use ly_text_buffer::NamedFile;
pub use surveying::{Explanation, Findings};
