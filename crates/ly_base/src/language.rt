ghost use Rattle.std.specs.Prelude.{◌≡◌};
ghost use Rattle.ly_base.specs.Language.{continues_name, is_space, starts_name};

use crate::blank::is_blank;

/// The two input languages, as far as their whitespace and names differ (POSIX, XCU lex and yacc).
#[derive(Clone, Copy, Debug, PartialEq, Eq)]
pub enum Language {
    /// Whitespace ends at the end of the line. A name consists of letters, digits and `_`.
    Lex,
    /// Whitespace may include newlines. A name may also contain `.`.
    Yacc,
}

impl Language {
    /// Whether the byte is whitespace between words.
    pub fn is_space(self, byte: u8) -> bool
        ensures { result ≡ is_space self byte }
    {
        match self {
            Language::Lex => is_blank(byte),
            Language::Yacc => is_blank(byte) || byte == b'\n',
        }
    }

    /// Whether a name can start with the byte.
    pub fn starts_name(self, byte: u8) -> bool
        ensures { result ≡ starts_name self byte }
    {
        match self {
            Language::Lex => matches!(byte, b'a'..=b'z' | b'A'..=b'Z' | b'_'),
            Language::Yacc => matches!(byte, b'a'..=b'z' | b'A'..=b'Z' | b'_' | b'.'),
        }
    }

    /// Whether the byte can follow the first byte of a name.
    pub fn continues_name(self, byte: u8) -> bool
        ensures { result ≡ continues_name self byte }
    {
        self.starts_name(byte) || byte.is_ascii_digit()
    }
}
