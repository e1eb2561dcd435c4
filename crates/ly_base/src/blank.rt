ghost use Rattle.std.specs.Prelude.{◌≡◌};
ghost use Rattle.ly_base.specs.Blank.{is_blank};

/// Whether the byte is a blank: a space or a tab.
pub fn is_blank(byte: u8) -> bool
    ensures { result ≡ is_blank byte }
{
    byte == b' ' || byte == b'\t'
}
