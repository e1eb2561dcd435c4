ghost use Rattle.std.specs.Prelude.{◌≡◌, ◌≢◌, MatchBool};
ghost use Rattle.ly_lexread.specs.Rules.{BeginsRule};
ghost use Rattle.ly_lexread.specs.Lines.{is_unused, kind_of};
ghost use Rattle.ly_lexread.specs.declared.kind.LineKind.TheVariants.{Mark};

use ly_base::is_blank;

/// The kind of a line, by its first bytes.
#[derive(Clone, Copy)]
pub enum LineKind {
    /// `%%`, which begins the rules, and later what follows them.
    Mark,
    /// An empty line, or one that starts with a blank.
    Unused,
    /// `%{`, which begins a block that is ignored.
    Block,
    /// Another `%`, which begins a directive in the definitions.
    Directive,
    /// `/*`, which begins a comment in the definitions.
    Comment,
    /// Anything else.
    Plain,
}

impl LineKind {
    /// Whether it is a mark.
    pub(crate) fn is_mark(self) -> bool
        ensures { MatchBool result (self ≡ Mark) (self ≢ Mark) }
    {
        matches!(self, LineKind::Mark)
    }

    /// Whether it begins a rule.
    pub(crate) fn begins_rule(self) -> bool
        ensures { MatchBool result (BeginsRule self) (BeginsRule self → ⊥) }
    {
        match self {
            LineKind::Mark | LineKind::Unused | LineKind::Block => false,
            LineKind::Directive | LineKind::Comment | LineKind::Plain => true,
        }
    }
}

/// The kind of a line, which comes without its newline.
pub fn kind_of(line: &[u8]) -> LineKind
    ensures { result ≡ kind_of line.now }
{
    if is_unused(line) {
        return LineKind::Unused;
    }
    if line.starts_with(b"%%") {
        LineKind::Mark
    } else if line.starts_with(b"%{") {
        LineKind::Block
    } else if line.starts_with(b"%") {
        LineKind::Directive
    } else if line.starts_with(b"/*") {
        LineKind::Comment
    } else {
        LineKind::Plain
    }
}

/// Whether a line is empty or begins with a blank.
fn is_unused(line: &[u8]) -> bool
    ensures { result ≡ is_unused line.now }
{
    match line.split_first() {
        Some((first, _behind)) => is_blank(*first),
        None => true,
    }
}
