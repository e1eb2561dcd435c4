//! The messages of warnings about patterns.
use crate::patterns::PatternLint;
use ly_text_buffer::TextBuffer;

const BACKSPACE: &[u8] = b"\\b is a backspace; there is no pattern for a word boundary";

const BRACES: &[u8] =
    b"\\x is the letter x here, and the braces are an interval; write two hexadecimal digits, as in \\x41";

const UNICODE: &[u8] =
    b"\\u is the letter u; write the character itself, or its bytes, as in \\xc3\\xa9";

const WORD_START: &[u8] = b"\\< is the byte <; there is no pattern for the start of a word";

const WORD_END: &[u8] = b"\\> is the byte >; there is no pattern for the end of a word";

const RELUCTANT: &[u8] =
    b"this ? makes the part before it optional: there are no lazy operators, and the longest match always wins";

const MANY_BYTES: &[u8] =
    b"brackets hold single bytes, and this character has several; write it outside them, with |";

const INTERVAL: &[u8] =
    b"the interval repeats everything before it, not only the last part, as in POSIX; \
            to repeat only that part, write parentheses around it and the interval, as in a(b{2})";

const LINE_END: &[u8] =
    b"$ needs a newline after the match: at the end of a text without one the rule doesn't match";

const SINGLE_QUOTES: &[u8] =
    b"single quotes are bytes like others in a pattern: for a string write double quotes";

const BARE_NAME: &[u8] =
    b"these are the letters of a name that is defined; for its definition write braces around it";

const BARE_CLASS: &[u8] =
    b"these brackets hold the bytes of the name of a class; for the class write two pairs, as in [[:digit:]]";

const MIXED_RANGE: &[u8] =
    b"the range has the six bytes between Z and a too, as [ and _; for letters write [A-Za-z]";

const INVISIBLE: &[u8] =
    b"the pattern has a character here that isn't visible, such as a zero-width space or a byte-order mark";

const END_OF_FILE: &[u8] = b"<<EOF>> matches these seven bytes: no rule matches the end of a text";

/// Prints which construct may be a mistake, and what to write instead.
pub(crate) fn write_pattern_lint(buffer: &mut TextBuffer, pattern_lint: PatternLint) {
    buffer.push(match pattern_lint {
        PatternLint::Letter(letter) => return write_letter(buffer, letter),
        PatternLint::Backspace => BACKSPACE,
        PatternLint::Braces => BRACES,
        PatternLint::Unicode => UNICODE,
        PatternLint::WordEdge(b'<') => WORD_START,
        PatternLint::WordEdge(_) => WORD_END,
        PatternLint::Reluctant => RELUCTANT,
        PatternLint::ManyBytes => MANY_BYTES,
        PatternLint::Interval => INTERVAL,
        PatternLint::LineEnd => LINE_END,
        PatternLint::SingleQuotes => SINGLE_QUOTES,
        PatternLint::BareName => BARE_NAME,
        PatternLint::BareClass => BARE_CLASS,
        PatternLint::MixedRange => MIXED_RANGE,
        PatternLint::Invisible => INVISIBLE,
        PatternLint::EndOfFile => END_OF_FILE,
    });
}

/// Prints that a letter after a backslash denotes itself, and what to write for the class that may be meant.
fn write_letter(buffer: &mut TextBuffer, letter: u8) {
    buffer.push(b"\\");
    buffer.push(&[letter]);
    buffer.push(b" is the letter ");
    buffer.push(&[letter]);
    buffer.push(b" in a pattern; for the class write ");
    buffer.push(match letter {
        b'd' => b"[[:digit:]] or [0-9]".as_slice(),
        b'D' => b"[^[:digit:]] or [^0-9]",
        b'w' => b"[[:alnum:]_]",
        b'W' => b"[^[:alnum:]_]",
        b's' => b"[[:space:]]",
        _ => b"[^[:space:]]",
    });
}
