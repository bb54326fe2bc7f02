use ecma_lex::*;
use std::alloc::Global;
use std::process::Abort;
use std::test::*;

type StringRow = (&'static str, Option<&'static str>);

// A text, and what it says if it is a string literal as a whole: what node makes of it in strict code, surrogates without a pair aside.
const STRINGS: [StringRow; 56] = [
    ("''", Some("")),
    ("'a\\'b'", Some("a'b")),
    ("\"a'b\"", Some("a'b")),
    ("'a\"b'", Some("a\"b")),
    ("\"\\b\\f\\n\\r\\t\\v\\0\"", Some("\u{8}\u{c}\n\r\t\u{b}\0")),
    ("'\\x41\\x7e\\xE9'", Some("A~é")),
    ("'\\u0041\\u20ac'", Some("A€")),
    ("'\\u{41}\\u{0000000041}\\u{10FFFF}'", Some("AA\u{10ffff}")),
    ("'\\u{110000}'", None),
    ("'\\u{fffffffffffffffff}'", None),
    ("'\\u{}'", None),
    ("'\\u{41'", None),
    ("'\\u{ 41}'", None),
    ("'\\u{4_1}'", None),
    ("'\\u004'", None),
    ("'\\u'", None),
    ("'\\x4'", None),
    ("'\\xg1'", None),
    ("'\\x4_1'", None),
    ("\"\\x\"", None),
    ("'\\uD83D\\uDE00'", Some("😀")),
    ("'\\u{d83d}\\u{de00}'", Some("😀")),
    ("'\\uD83D\\u{DE00}x'", Some("😀x")),
    (
        "'\\uDBFF\\uDFFF\\uD800\\uDC00'",
        Some("\u{10ffff}\u{10000}"),
    ),
    ("'\\uD83D\\\n\\uDE00'", Some("😀")),
    ("'\\uD83D\\\r\n\\\u{2028}\\u{DE00}'", Some("😀")),
    ("'\\uD83D\\\nx\\uDE00'", None),
    ("'\\uD83D\\\n'", None),
    ("'\\\n\\uDE00'", None),
    ("'\\uD83D'", None),
    ("'\\uDE00'", None),
    ("'\\uD83Dx\\uDE00'", None),
    ("'\\uD83D\\uD83D\\uDE00'", None),
    ("'\\uD83D\\n'", None),
    ("'\\uD7FF\\uE000'", Some("\u{d7ff}\u{e000}")),
    ("'\\01'", None),
    ("'\\08'", None),
    ("'\\0a'", Some("\0a")),
    ("'\\1'", None),
    ("'\\7'", None),
    ("'\\8'", None),
    ("'\\9'", None),
    ("'\\q\\ö\\-\\\\'", Some("qö-\\")),
    ("'a\\\nb'", Some("ab")),
    ("'a\\\r\nb'", Some("ab")),
    ("'a\\\rb'", Some("ab")),
    ("'a\\\u{2028}b\\\u{2029}'", Some("ab")),
    ("'a\u{2028}b\u{2029}'", Some("a\u{2028}b\u{2029}")),
    ("'a\nb'", None),
    ("'a\rb'", None),
    ("'\\\n\nb'", None),
    ("'\\\n\r\nb'", None),
    ("'\\'", None),
    ("'a\"", None),
    ("'", None),
    ("'\\u{d83d}\\u{}'", None),
];

fn is_said(value: &Option<String>, wanted: Option<&str>) -> bool {
    match value {
        Some(value) => match wanted {
            Some(wanted) => value.as_str() == wanted,
            None => false,
        },
        None => wanted.is_none(),
    }
}

fn string_of(rt: &impl Abort, alloc: Global, text: &str) -> Result<Option<String>, Fail> {
    assert!(rt; text.len() < 100);
    match str_lit(text, 0) {
        Ok(token) => {
            assert_eq!(rt; (token.start, token.next as usize), (0, text.len()));
            let inside = piece(text, token.start + 1, token.next - 1);
            Ok(Some(str_value(alloc, inside)?))
        }
        Err(none) => {
            assert_eq!(rt; none.at, 0);
            Ok(None)
        }
    }
}

#[test]
fn strings(rt: HostRuntime) -> Result<(), Fail> {
    for (text, wanted) in STRINGS {
        let value = string_of(&rt, rt.alloc(), text)?;
        assert!(rt; is_said(&value, wanted), "{text}");
    }
    Ok(())
}

// A text, a place, whether it is the first part, whether there is a tag, and what is read there: where the part ends, whether it is the last,
// and what it says; none where no part stands there.
type PartRow = (
    &'static str,
    u32,
    bool,
    bool,
    Option<(u32, bool, Option<&'static str>)>,
);

const PARTS: [PartRow; 38] = [
    ("`a`x", 0, true, false, Some((3, true, Some("a")))),
    ("``", 0, true, false, Some((2, true, Some("")))),
    (
        "`a\r\nb\rc\nd\u{2028}e`",
        0,
        true,
        false,
        Some((14, true, Some("a\nb\nc\nd\u{2028}e"))),
    ),
    (
        "`a\\\r\nb\\\rc\\\nd`",
        0,
        true,
        false,
        Some((13, true, Some("abcd"))),
    ),
    ("`\\\r`", 0, true, true, Some((4, true, Some("")))),
    ("`\r\r\n\n`", 0, true, true, Some((6, true, Some("\n\n\n")))),
    ("`$a$`", 0, true, false, Some((5, true, Some("$a$")))),
    ("`$$`", 0, true, false, Some((4, true, Some("$$")))),
    ("`{}\"'`", 0, true, false, Some((6, true, Some("{}\"'")))),
    ("`\\``", 0, true, false, Some((4, true, Some("`")))),
    ("`\\${a`", 0, true, false, Some((6, true, Some("${a")))),
    ("`$\\{a`", 0, true, false, Some((6, true, Some("${a")))),
    (
        "`\\u{41}\\x42\\0`",
        0,
        true,
        false,
        Some((14, true, Some("AB\0"))),
    ),
    (
        "`\\uD83D\\uDE00`",
        0,
        true,
        false,
        Some((14, true, Some("😀"))),
    ),
    (
        "`\\uD83D\\\r\n\\uDE00`",
        0,
        true,
        false,
        Some((17, true, Some("😀"))),
    ),
    ("`\\uD83D\r\\uDE00`", 0, true, false, None),
    ("`a${1}b`", 0, true, false, Some((4, false, Some("a")))),
    ("`a${1}b`", 5, false, false, Some((8, true, Some("b")))),
    ("`$${1}$`", 0, true, false, Some((4, false, Some("$")))),
    ("`\\$${1}`", 0, true, false, Some((5, false, Some("$")))),
    ("`\\\\${1}`", 0, true, false, Some((5, false, Some("\\")))),
    (
        "}\\q\r${2}c`",
        0,
        false,
        false,
        Some((6, false, Some("q\n"))),
    ),
    ("}\\u${2}", 0, false, true, Some((5, false, None))),
    ("`\\01`", 0, true, false, None),
    ("`\\01`", 0, true, true, Some((5, true, None))),
    ("`\\8`", 0, true, false, None),
    ("`\\8`", 0, true, true, Some((4, true, None))),
    ("`\\x4`", 0, true, true, Some((5, true, None))),
    ("`\\u{110000}`", 0, true, true, Some((12, true, None))),
    ("`\\u{`", 0, true, true, Some((5, true, None))),
    ("`\\u`", 0, true, false, None),
    ("`\\xg\\``", 0, true, true, Some((7, true, None))),
    ("`\\uD83D`", 0, true, false, None),
    ("`\\uD83D`", 0, true, true, Some((8, true, None))),
    ("`a", 0, true, false, None),
    ("`a\\`", 0, true, true, None),
    ("}a`", 0, true, false, None),
    ("`a`", 0, false, false, None),
];

fn part_of(rt: &impl Abort, alloc: Global, row: PartRow) -> Result<(), Fail> {
    let (text, at, first, tagged, wanted) = row;
    assert!(rt; text.len() < 100);
    match template_text(text, at, first, tagged) {
        Ok(part) => {
            let (next, last, says) = wanted.expect(rt, text);
            assert_eq!(rt;
                part,
                TemplateText {
                    token: Token {
                        start: at,
                        next,
                        new_line: false
                    },
                    last
                },
                "{text}"
            );
            let mark = if last { 1 } else { 2 };
            let inside = piece(text, at + 1, next - mark);
            assert!(rt; inside.len() < 100);
            let value = template_value(alloc, inside)?;
            assert!(rt; is_said(&value, says), "{text}");
        }
        Err(none) => {
            assert_eq!(rt; none.at, at, "{text}");
            assert!(rt; wanted.is_none(), "{text}");
        }
    }
    Ok(())
}

#[test]
fn parts(rt: HostRuntime) -> Result<(), Fail> {
    for row in PARTS {
        part_of(&rt, rt.alloc(), row)?;
    }
    Ok(())
}

// What stands between the ends of a part, and its raw value: what node makes of it by `String.raw`.
const RAW: [(&'static str, &'static str); 6] = [
    ("", ""),
    ("a\r\nb\rc\nd\u{2028}e", "a\nb\nc\nd\u{2028}e"),
    ("\r\r\n\n\r", "\n\n\n\n"),
    ("\\\r\n\\r\\n", "\\\n\\r\\n"),
    ("\\u{ö😀\\01", "\\u{ö😀\\01"),
    ("\\uD83D\\uDE00$", "\\uD83D\\uDE00$"),
];

#[test]
fn raw_values(rt: HostRuntime) -> Result<(), Fail> {
    for (inside, wanted) in RAW {
        assert!(rt; inside.len() < 100);
        let value = template_raw(rt.alloc(), inside)?;
        assert_eq!(rt; value.as_str(), wanted, "{inside}");
    }
    Ok(())
}

#[test]
fn behind_blanks(rt: HostRuntime) -> Result<(), Fail> {
    assert_eq!(rt;
        str_lit("a //\n'\\'b' c", 1),
        Ok(Token {
            start: 5,
            next: 10,
            new_line: true
        })
    );
    assert_eq!(rt; str_lit(" a'b'", 0), Err(NoToken { at: 1 }));
    assert_eq!(rt; str_lit(" /*'b'", 0), Err(NoToken { at: 1 }));
    assert_eq!(rt; str_lit("''", 3), Err(NoToken { at: 3 }));
    let part = TemplateText {
        token: Token {
            start: 7,
            next: 11,
            new_line: true,
        },
        last: false,
    };
    assert_eq!(rt;
        template_text(" /*c*/\n}x$", 0, false, false),
        Err(NoToken { at: 7 })
    );
    assert_eq!(rt; template_text("/*c*/\n }x${", 0, false, false), Ok(part));
    assert_eq!(rt;
        template_text("/*`a`", 0, true, false),
        Err(NoToken { at: 0 })
    );
    assert_eq!(rt; str_value(rt.alloc(), "a\\x\"'\n")?.as_str(), "");
    assert_eq!(rt; str_value(rt.alloc(), "a\"'\n")?.as_str(), "a\"'\n");
    Ok(())
}
