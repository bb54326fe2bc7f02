use crate::regexes::{are_flags, is_body};
use crate::says::says;
use crate::templates::stands_in_template;
use crate::words::{are_digits, is_decimal};
use std::test::Fail;

/// What stands in quotes, or where the last part says so in a template; a text; whether node says it is the value.
const VALUES: [(&str, &str, bool, bool); 14] = [
    ("a\\x41\\u{1F600}", "aA\u{1F600}", false, true),
    ("\\uD83D\\uDE00", "\u{1F600}", false, true),
    ("\\uD83D\\\n\\uDE00", "\u{1F600}", false, true),
    ("\\uD83Da", "a", false, false),
    ("\\uD83D", "", false, false),
    ("a\\\r\nb", "ab", false, true),
    ("\\n\\v\\0\\q", "\n\u{B}\0q", false, true),
    ("\\07", "\u{7}", false, false),
    ("\\u{110000}", "", false, false),
    ("ab", "a", false, false),
    ("a", "ab", false, false),
    ("a\r\nb\rc", "a\nb\nc", true, true),
    ("a\rb", "a\rb", true, false),
    ("\u{2028}", "\u{2028}", true, true),
];

/// A text between `/` and `/`, and whether node reads it as a body.
const BODIES: [(&str, bool); 10] = [
    ("a", true),
    ("", false),
    ("*", false),
    ("a/b", false),
    ("a\\/b", true),
    ("[/]", true),
    ("[a\\]/]", true),
    ("[a", false),
    ("a\nb", false),
    ("a\\", false),
];

/// A text between backticks, and whether node reads it there without a tag and behind one.
const TEXTS: [(&str, bool, bool); 8] = [
    ("a$b", true, true),
    ("$", true, true),
    ("a`b", false, false),
    ("a${b", false, false),
    ("\\`\\${", true, true),
    ("\\u", false, true),
    ("\\xg\n", false, true),
    ("\\", false, false),
];

#[test]
fn literals_say_what_node_says(rt: HostRuntime) -> Result<(), Fail> {
    for (inside, value, in_template, wanted) in VALUES {
        assert!(rt; says(inside, value, in_template) == wanted);
    }
    assert!(rt; are_digits(b"1_000_0", b"10000"));
    assert!(rt; !are_digits(b"1_000_0", b"1000"));
    assert!(rt; !are_digits(b"100", b"1000"));
    Ok(())
}

#[test]
fn texts_stand_where_node_reads_them(rt: HostRuntime) -> Result<(), Fail> {
    for (text, wanted) in BODIES {
        assert!(rt; is_body(text) == wanted);
    }
    assert!(rt; are_flags("") && are_flags("gv") && !are_flags("g-"));
    for (text, plain, tagged) in TEXTS {
        assert!(rt; stands_in_template(text, false) == plain);
        assert!(rt; stands_in_template(text, true) == tagged);
    }
    assert!(rt; is_decimal(b"0") && is_decimal(b"10"));
    assert!(rt; !is_decimal(b"") && !is_decimal(b"01") && !is_decimal(b"1a"));
    Ok(())
}
