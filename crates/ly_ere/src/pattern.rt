use crate::re::Re;
use ly_base::Cut;
use std::rc::RcSlice;

/// What a rule matches.
#[derive(Drop)]
pub struct Pattern {
    /// Whether it matches only at the start of a line: `^`.
    pub line_start: bool,
    /// The expression that the token matches.
    pub head: Re,
    /// The trailing context, which has to follow the token: after `/`, or a newline for `$`.
    pub tail: Option<Re>,
    /// Which part of a match is the token: `Head` if all strings of the head have one length, else `Tail`.
    pub cut: Cut,
}

/// A rule of a lex file.
#[derive(Drop)]
pub struct Rule {
    /// The pattern that it matches.
    pub pattern: Pattern,
    /// The numbers of the conditions in which it is active. Rules may share the list.
    pub active: RcSlice<u32>,
}
