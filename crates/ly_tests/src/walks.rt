//! The first lexeme of a text, over rows that were made by hand.

use crate::row_walk::{Row, RowWalk};
use ly_base::{Cut, End, Lexeme, Place, RuleNo};
use ly_scan::{KnownWalks, next_lexeme};
use std::alloc::{AllocError, Global};
use std::test::Fail;

/// The edges of each state: the byte, and the state that it leads to plus one; and the rule that ends there. Rule 0 is
/// `ab`, and rule 1 is `abc+d`.
const STATES: [(&[(u8, u16)], Option<u32>); 5] = [
    (&[(b'a', 2)], None),
    (&[(b'b', 3)], None),
    (&[(b'c', 4)], Some(0)),
    (&[(b'c', 4), (b'd', 5)], None),
    (&[], Some(1)),
];

/// What is found at the start of a text: a lexeme, or how lexing the text ends.
type Found = Result<Option<Lexeme>, End>;

/// No rule matches at the start of a text.
const STUCK: Found = Err(End::Stuck { byte: 0 });

/// A rule matches there, and its cut leaves no byte or more than the match.
const BAD_CUT: Found = Err(End::BadCut { byte: 0 });

/// A text, whether a line starts there, the cut of rule 1, and what is found.
const LEXEMES: [(&[u8], bool, Cut, Found); 15] = [
    (
        b"ab",
        false,
        Cut::Whole,
        Ok(Some(Lexeme {
            rule: RuleNo(0),
            matched: 2,
            taken: 2,
        })),
    ),
    (
        b"abab",
        false,
        Cut::Whole,
        Ok(Some(Lexeme {
            rule: RuleNo(0),
            matched: 2,
            taken: 2,
        })),
    ),
    (
        b"abcc",
        false,
        Cut::Whole,
        Ok(Some(Lexeme {
            rule: RuleNo(0),
            matched: 2,
            taken: 2,
        })),
    ),
    (
        b"abccx",
        false,
        Cut::Whole,
        Ok(Some(Lexeme {
            rule: RuleNo(0),
            matched: 2,
            taken: 2,
        })),
    ),
    (
        b"abcd",
        false,
        Cut::Whole,
        Ok(Some(Lexeme {
            rule: RuleNo(1),
            matched: 4,
            taken: 4,
        })),
    ),
    (
        b"abcccdd",
        false,
        Cut::Whole,
        Ok(Some(Lexeme {
            rule: RuleNo(1),
            matched: 6,
            taken: 6,
        })),
    ),
    (
        b"abcccdd",
        false,
        Cut::Head(2),
        Ok(Some(Lexeme {
            rule: RuleNo(1),
            matched: 6,
            taken: 2,
        })),
    ),
    (
        b"abcccdd",
        false,
        Cut::Head(6),
        Ok(Some(Lexeme {
            rule: RuleNo(1),
            matched: 6,
            taken: 6,
        })),
    ),
    (b"abcccdd", false, Cut::Head(7), BAD_CUT),
    (b"abcccdd", false, Cut::Head(0), BAD_CUT),
    (
        b"abcccdd",
        false,
        Cut::Tail(1),
        Ok(Some(Lexeme {
            rule: RuleNo(1),
            matched: 6,
            taken: 5,
        })),
    ),
    (b"abcccdd", false, Cut::Tail(6), BAD_CUT),
    (b"a", false, Cut::Whole, STUCK),
    (b"bab", false, Cut::Whole, STUCK),
    (b"ab", true, Cut::Whole, STUCK),
];

/// A state with these edges.
fn row(edges: &[(u8, u16)], rule: Option<u32>) -> Row {
    let mut next = [0; 256];
    for (byte, entry) in edges {
        next[usize::from(*byte)] = *entry;
    }
    Row {
        next,
        rule: rule.map(RuleNo),
    }
}

/// The rows of `STATES`.
fn rows(alloc: Global) -> Result<Vec<Row>, AllocError> {
    let mut rows = Vec::new(alloc);
    for (edges, rule) in &STATES {
        rows.push(row(edges, *rule))?;
    }
    Ok(rows)
}

/// What is found at the start of a text that ends after these bytes, from a condition of a walk.
fn found_over(alloc: Global, walk: &RowWalk<'_>, text: &[u8], line: bool, condition: u32) -> Found {
    let place = Place::behind(text, 0, line, condition);
    next_lexeme(walk, &place, &mut KnownWalks::new(alloc), true)
}

/// Whether this is found at the start of a text over rows, and nothing from a condition that doesn't exist.
fn is_found_so(
    alloc: Global,
    rows: &[Row],
    text: &[u8],
    line: bool,
    cut: Cut,
    wanted: Found,
) -> bool {
    let walk = RowWalk {
        rows,
        starts: &[[1, 0]],
        cuts: &[Cut::Whole, cut],
    };
    found_over(alloc, &walk, text, line, 0) == wanted
        && found_over(alloc, &walk, text, line, 1) == STUCK
}

/// The index of the first of `LEXEMES` for which it isn't.
fn found_otherwise(alloc: Global) -> Result<Option<usize>, AllocError> {
    let rows = rows(alloc)?;
    for (number, (text, line, cut, wanted)) in LEXEMES.iter().enumerate() {
        if !is_found_so(alloc, &rows, text, *line, *cut, *wanted) {
            return Ok(Some(number));
        }
    }
    Ok(None)
}

#[test]
fn longest_matches_and_their_cuts(rt: HostRuntime) -> Result<(), Fail> {
    assert_eq!(rt; found_otherwise(rt.alloc())?, None);
    Ok(())
}
