use ecma_lex::*;
use std::process::Abort;
use std::test::*;

#[derive(Clone, Copy)]
enum Literal {
    Num,
    Big,
    Regex,
    PrivName,
    Angle(char),
    Hashbang,
}

type Row = (Literal, &'static str, u32, Result<(u32, u32), u32>);

// Texts that one terminal takes whole, and texts in which it takes nothing at 0.
const NUMERALS: [&str; 17] = [
    "1",
    "1.",
    "1.5",
    ".5",
    "1e3",
    "1.e-3",
    ".5E+2",
    "0",
    "0.5",
    "0e1",
    "0.e1",
    "0x1F",
    "0XfF_0",
    "0o17",
    "0B1_0",
    "1_000.5_0e1_0",
    "9007199254740993",
];

const NO_NUMERALS: [&str; 28] = [
    "1n", "3in", "0x", "0xg", "1_", "1__0", "0x_1", "1._5", "1e_1", "1e+_1", "1.5_", "01", "08",
    "0_1", "00", "0_", "1e", "1e+", "1.e", "1.a", ".", "-1", "0b12", "0o8", "0b", "3ö", "_1",
    "0xfn",
];

const BIG_NUMERALS: [&str; 6] = ["0n", "7n", "1_0n", "0x1Fn", "0B1n", "0o7n"];

const NO_BIG_NUMERALS: [&str; 14] = [
    "1", "1.5n", "01n", "1e3n", "1nn", "0xn", "1_n", "n", "1n1", "00n", "0_1n", ".5n", "1.n", "1na",
];

const REGEXES: [&str; 13] = [
    "/a/",
    "/[/]/",
    "/[\\]/]/u",
    "/\\//",
    "/[[]/",
    "/=/",
    "/\\[/",
    "/[\\\\]/",
    "/]/",
    "/a/gi",
    "/[*]/",
    "/ö/",
    "/a/ü0",
];

const NO_REGEXES: [&str; 11] = [
    "/a",
    "/a\n/",
    "/[a/",
    "/\\\n/",
    "/a\\",
    "/*/",
    "/\u{2028}/",
    "/[\u{2029}]/",
    "/a\\/",
    "/a\r/",
    "a/b/",
];

const PRIV_NAMES: [&str; 2] = ["#a", "#class"];

const NO_PRIV_NAMES: [&str; 5] = ["#", "# a", "#1", "##a", "a"];

// A terminal, a text, a place, and what is read there: start and next, or the failed place.
const ROWS: [Row; 25] = [
    (Literal::Num, " 1;", 0, Ok((1, 2))),
    (Literal::Num, "1..a", 0, Ok((0, 2))),
    (Literal::Num, "1e3.a", 0, Ok((0, 3))),
    (Literal::Num, "a-.5", 2, Ok((2, 4))),
    (Literal::Num, "1.5.a", 0, Ok((0, 3))),
    (Literal::Big, " 7n;", 0, Ok((1, 3))),
    (Literal::Regex, "/a/g;", 0, Ok((0, 4))),
    (Literal::Regex, " /a/ g", 0, Ok((1, 4))),
    (Literal::Regex, "/[]/]/", 0, Ok((0, 4))),
    (Literal::Regex, "//", 0, Err(2)),
    (Literal::PrivName, " #größe=", 0, Ok((1, 9))),
    (Literal::Angle('<'), "<<=", 0, Ok((0, 1))),
    (Literal::Angle('<'), " >", 0, Err(1)),
    (Literal::Angle('>'), ">>", 1, Ok((1, 2))),
    (Literal::Angle('>'), "=>", 0, Err(0)),
    (Literal::Hashbang, "#!/bin/x\n1", 0, Ok((0, 8))),
    (Literal::Hashbang, "#!", 0, Ok((0, 2))),
    (Literal::Hashbang, "#!\u{2028}x", 0, Ok((0, 2))),
    (Literal::Hashbang, "#!ö\r", 0, Ok((0, 4))),
    (Literal::Hashbang, " #!a", 0, Err(1)),
    (Literal::Hashbang, "\n#!a", 0, Err(1)),
    (Literal::Hashbang, "#a", 0, Err(0)),
    (Literal::Hashbang, "# !", 0, Err(0)),
    (Literal::Hashbang, "a#!b", 1, Err(1)),
    (Literal::Hashbang, "/**/#!", 0, Err(4)),
];

fn read(rt: &impl Abort, literal: Literal, text: &str, at: u32) -> Result<(u32, u32), u32> {
    assert!(rt; text.len() < 100);
    let read = match literal {
        Literal::Num => num(text, at),
        Literal::Big => big(text, at),
        Literal::Regex => regex(text, at),
        Literal::PrivName => priv_name(text, at),
        Literal::Angle(sign) => {
            assert!(rt; sign == '<' || sign == '>');
            angle(text, at, sign)
        }
        Literal::Hashbang => hashbang(text, at),
    };
    match read {
        Ok(token) => Ok((token.start, token.next)),
        Err(none) => Err(none.at),
    }
}

fn takes(rt: &impl Abort, literal: Literal, whole: &[&'static str], none: &[&'static str]) {
    for text in whole {
        assert!(rt; text.len() < 100);
        assert_eq!(rt;
            read(rt, literal, text, 0),
            Ok((0, text.len() as u32)),
            "{text}"
        );
    }
    for text in none {
        assert_eq!(rt; read(rt, literal, text, 0), Err(0), "{text}");
    }
}

#[test]
fn texts(rt: HostRuntime) {
    takes(&rt, Literal::Num, &NUMERALS, &NO_NUMERALS);
    takes(&rt, Literal::Big, &BIG_NUMERALS, &NO_BIG_NUMERALS);
    takes(&rt, Literal::Regex, &REGEXES, &NO_REGEXES);
    takes(&rt, Literal::PrivName, &PRIV_NAMES, &NO_PRIV_NAMES);
}

#[test]
fn places(rt: HostRuntime) {
    for (literal, text, at, wanted) in ROWS {
        assert_eq!(rt; read(&rt, literal, text, at), wanted, "{text} at {at}");
    }
    assert_eq!(rt; regex_body_end("/[/]/g", 0), 4);
    assert_eq!(rt; regex_body_end("/a", 1), 1);
    assert_eq!(rt; regex_body_end("", 0), 0);
}
