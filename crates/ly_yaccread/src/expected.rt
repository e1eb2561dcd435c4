use crate::cursor::{Cursor, is};
use crate::fault::YaccFaultKind;
use crate::refusal::Refusal;
use crate::words::{Mark, NextWord};

/// What was expected at the position where a file is rejected.
#[derive(Clone, Copy)]
pub(crate) enum Expected {
    /// A declaration or a part of one.
    Declaration,
    /// The content of the braces of a union.
    Braces,
    /// A rule or a part of one.
    Rule,
    /// The end of a rule whose action has been read.
    RuleEnd,
    /// A part of an action.
    Action,
}

impl<'t> Cursor<'t> {
    /// The error for words whose first one isn't what was expected. A word that is invalid everywhere is reported as
    /// such, whatever was expected.
    pub(crate) fn refusal(self, expected: Expected) -> Refusal {
        self.refused(match self.next() {
            None => expected.kind_at_end(),
            Some((NextWord::Name(name), _)) if is(name, b"error") => YaccFaultKind::ErrorToken,
            Some((NextWord::Other, _)) => expected.kind_at_bytes(self.bytes()),
            Some((word, _)) => expected.kind_at(word),
        })
    }

    /// The error of this kind at the first word, or at the end of the words.
    pub(crate) fn refused(self, kind: YaccFaultKind) -> Refusal {
        Refusal::At {
            kind,
            left: self.left.len(),
        }
    }

    /// The bytes of the file from the first unread word on.
    fn bytes(self) -> &'t [u8] {
        let offset = self.left.first().map_or(0, |first| first.offset);
        self.text.get(offset..).unwrap_or_default()
    }
}

impl Expected {
    /// The kind of error if the file ends here.
    fn kind_at_end(self) -> YaccFaultKind {
        match self {
            Expected::Declaration | Expected::Braces => YaccFaultKind::NoRulesMark,
            Expected::Rule | Expected::RuleEnd => YaccFaultKind::BadRule,
            Expected::Action => YaccFaultKind::BadAction,
        }
    }

    /// The kind of error if bytes that begin with no word come here.
    fn kind_at_bytes(self, bytes: &[u8]) -> YaccFaultKind {
        if bytes.starts_with(b"'") {
            return YaccFaultKind::BadLiteral;
        }
        let braces = matches!(self, Expected::Braces) && bytes.starts_with(b"{");
        if braces || bytes.starts_with(b"/*") || bytes.starts_with(b"%{") {
            return YaccFaultKind::UnclosedComment;
        }
        self.kind_at(NextWord::Other)
    }

    /// The kind of error if this word comes here.
    fn kind_at(self, word: NextWord<'_>) -> YaccFaultKind {
        match self {
            Expected::Declaration | Expected::Braces => YaccFaultKind::BadDeclaration,
            Expected::Rule => YaccFaultKind::BadRule,
            Expected::RuleEnd => match word {
                NextWord::Mark(Mark::OpenBrace) | NextWord::Name(_) | NextWord::Literal(_) => {
                    YaccFaultKind::MidRuleAction
                }
                _ => YaccFaultKind::BadRule,
            },
            Expected::Action => YaccFaultKind::BadAction,
        }
    }
}
