ghost use Rattle.ly_yaccread.specs.YaccText.{YaccTextIsOne};

/// Theorem: a text has at most one content.
pub fn yacc_text_is_one()
    ensures { YaccTextIsOne }
{}
