use ly_base::OutOfMemory;
use ly_yaccread::{WordSpan, word_spans};
use std::alloc::Global;

/// What precedes an offset of a yacc file, as far as the suggestion depends on it.
#[derive(Clone, Copy)]
pub(crate) struct Before {
    /// Whether the offset is in the rules.
    pub(crate) in_rules: bool,
    /// Whether it is in a body of a rule.
    pub(crate) in_body: bool,
    /// Whether the last word begins a body: it is `:` or `|`.
    pub(crate) at_body: bool,
    /// Whether the last word opens an action: it is `{`.
    pub(crate) at_action: bool,
    /// Whether the last word is `%prec`.
    at_prec: bool,
    /// Whether the last word is the token of a `%prec`.
    pub(crate) behind_prec: bool,
    /// Whether a child of a node is expected there: after `(` or `,` in an action.
    pub(crate) at_child: bool,
    /// How many braces are open.
    depth: usize,
    /// Where the last directive of the declarations begins.
    pub(crate) directive: Option<usize>,
    /// Where the last action of the body begins.
    pub(crate) action: Option<usize>,
    /// The span of the last word.
    pub(crate) last: Option<WordSpan>,
}

impl Before {
    /// Scans what precedes an offset of a text.
    pub(crate) fn of(alloc: Global, text: &[u8], offset: usize) -> Result<Before, OutOfMemory> {
        let mut before = Before {
            in_rules: false,
            in_body: false,
            at_body: false,
            at_action: false,
            at_prec: false,
            behind_prec: false,
            at_child: false,
            depth: 0,
            directive: None,
            action: None,
            last: None,
        };
        for span in &word_spans(alloc, text)? {
            if span.start >= offset {
                break;
            }
            before = before.with(span.word(text), *span);
        }
        Ok(before)
    }

    /// The same after one more word.
    fn with(self, word: &[u8], span: WordSpan) -> Before {
        let before = if self.in_rules {
            self.with_rule_word(word, span.start)
        } else if word == b"%%".as_slice() {
            Before {
                in_rules: true,
                ..self
            }
        } else if word.starts_with(b"%") {
            Before {
                directive: Some(span.start),
                ..self
            }
        } else {
            self
        };
        Before {
            at_body: word == b":".as_slice() || word == b"|".as_slice(),
            at_action: word == b"{".as_slice(),
            at_prec: word == b"%prec".as_slice(),
            behind_prec: self.at_prec,
            at_child: before.depth > 0 && (word == b"(".as_slice() || word == b",".as_slice()),
            last: Some(span),
            ..before
        }
    }

    /// The same after one more word of the rules.
    fn with_rule_word(self, word: &[u8], start: usize) -> Before {
        match word {
            b":" | b"|" => Before {
                in_body: true,
                action: None,
                depth: 0,
                ..self
            },
            b";" if self.depth == 0 => Before {
                in_body: false,
                action: None,
                ..self
            },
            b"{" => Before {
                action: if self.depth == 0 {
                    Some(start)
                } else {
                    self.action
                },
                depth: self.depth.saturating_add(1),
                ..self
            },
            b"}" => Before {
                depth: self.depth.saturating_sub(1),
                ..self
            },
            _ => self,
        }
    }
}
