/// Which part of a match is the token, for a pattern `head/tail` (POSIX, lex, trailing context).
#[derive(Clone, Copy, Debug, PartialEq, Eq)]
pub enum Cut {
    /// The pattern has no tail. The token is the whole match.
    Whole,
    /// All strings of the head have this length in bytes. The token is that many bytes from the start of the match.
    Head(usize),
    /// All strings of the tail have this length in bytes. The token is the match without that many bytes at its end.
    Tail(usize),
}
