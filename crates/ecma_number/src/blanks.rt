//! White space and line terminators.
ghost use Rattle.std.specs.Prelude.{◌≡◌};
ghost use Rattle.ecma_number.specs.Blanks.{is_space_separator, is_white_space, is_line_terminator, is_blank};

/// Whether it is WhiteSpace (ECMAScript, 12.2): TAB, VT, FF, ZWNBSP or a space separator of Unicode.
pub fn is_white_space(character: char) -> bool
    ensures { result ≡ is_white_space character }
{
    matches!(character, '\t' | '\u{B}' | '\u{C}' | '\u{FEFF}') || is_space_separator(character)
}

fn is_space_separator(character: char) -> bool
    ensures { result ≡ is_space_separator character }
{
    matches!(
        character,
        ' ' | '\u{A0}' | '\u{1680}' | '\u{2000}'..='\u{200A}' | '\u{202F}' | '\u{205F}' | '\u{3000}'
    )
}

/// Whether it is a LineTerminator (ECMAScript, 12.3): LF, CR, LS or PS.
pub fn is_line_terminator(character: char) -> bool
    ensures { result ≡ is_line_terminator character }
{
    matches!(character, '\n' | '\r' | '\u{2028}' | '\u{2029}')
}

/// Whether it is white space or a line terminator, as stand round the numeral of a text (ECMAScript,
/// 7.1.4.1, StrWhiteSpaceChar).
pub fn is_blank(character: char) -> bool
    ensures { result ≡ is_blank character }
{
    is_white_space(character) || is_line_terminator(character)
}
