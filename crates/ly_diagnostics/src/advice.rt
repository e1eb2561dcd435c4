use ly_generate::GenFault;

/// A suggestion for an error.
#[derive(Drop)]
pub(crate) enum Advice {
    /// No suggestion.
    Nothing,
    /// Fixed text.
    Words(&'static str),
    /// Text with names or lines of the file.
    Made(Vec<u8>),
    /// A similar name.
    Near(Vec<u8>),
}

impl Advice {
    /// The suggestion for an error that has no location.
    pub(crate) fn of_whole(fault: &GenFault) -> Advice {
        match fault {
            GenFault::Positions(_) | GenFault::States(_) => {
                Advice::Words(
                    "intervals such as `x{100}` are expanded: shorter ones make fewer states",
                )
            }
            GenFault::Grammar(_) => {
                Advice::Words("each of its rules needs it again: add one that doesn't")
            }
            GenFault::Endless { .. } => {
                Advice::Words(
                    "the parser reduces without end if a symbol derives only itself, or the symbols before it \
                    may be empty",
                )
            }
            _ => Advice::Nothing,
        }
    }

    /// The suggestion for an error that a byte-order mark or a CR causes.
    pub(crate) fn of_marks(byte_order_mark: bool) -> Advice {
        Advice::Words(if byte_order_mark {
            "the file begins with a byte-order mark: remove these three bytes"
        } else {
            "the line ends with CR LF: convert it to LF, for instance with `tr -d '\\r'`"
        })
    }

    /// Whether there is no suggestion.
    pub(crate) fn is_nothing(&self) -> bool {
        matches!(self, Advice::Nothing)
    }

    /// Whether both are the same fixed text, or both nothing.
    pub(crate) fn is_like(&self, other: &Advice) -> bool {
        match (self, other) {
            (Advice::Nothing, Advice::Nothing) => true,
            (Advice::Words(words), Advice::Words(others)) => words == others,
            _ => false,
        }
    }
}
