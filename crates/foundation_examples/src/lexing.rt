use ecma_lex::*;
use std::process::Abort;
use std::test::*;

mod literals;
mod symbols;
mod texts;

#[derive(Clone, Copy)]
enum Terminal {
    Key,
    Name,
    TypeName,
    Word(&'static str),
    Punct(&'static str),
    End,
    EndOfText,
}

type Row = (Terminal, &'static str, u32, Result<(u32, u32, bool), u32>);

// A terminal, a text, a place, and what is read there: start, next and new line, or the failed place.
const ROWS: [Row; 48] = [
    (Terminal::Key, " größe=", 0, Ok((1, 8, false))),
    (Terminal::Key, "x1", 0, Ok((0, 2, false))),
    (Terminal::Key, "1x", 0, Err(0)),
    (Terminal::Key, "größe", 3, Err(3)),
    (Terminal::Key, "\u{300}a", 0, Err(0)),
    (Terminal::Key, "a//c\nb", 1, Ok((5, 6, true))),
    (Terminal::Key, "a//c\u{2028}b", 1, Ok((7, 8, true))),
    (
        Terminal::Key,
        "/*\u{2028}*/\u{feff}b /*",
        0,
        Ok((10, 11, true)),
    ),
    (Terminal::Key, "/* / **/b", 0, Ok((8, 9, false))),
    (Terminal::Key, "a /*/ b", 1, Err(2)),
    (Terminal::Key, "a", 9, Err(9)),
    (Terminal::Key, "while", 0, Ok((0, 5, false))),
    (Terminal::Name, "while", 0, Err(0)),
    (Terminal::Name, " whiles", 0, Ok((1, 7, false))),
    (Terminal::Name, "async", 0, Ok((0, 5, false))),
    (Terminal::TypeName, "number", 0, Ok((0, 6, false))),
    (Terminal::TypeName, "keyofs", 0, Ok((0, 6, false))),
    (Terminal::TypeName, " keyof", 0, Err(1)),
    (Terminal::TypeName, "unique", 0, Err(0)),
    (Terminal::TypeName, "readonly", 0, Err(0)),
    (Terminal::TypeName, "infer", 0, Err(0)),
    (Terminal::TypeName, "typeof", 0, Err(0)),
    (Terminal::Word("as"), "as", 0, Ok((0, 2, false))),
    (Terminal::Word("as"), "asserts", 0, Err(0)),
    (Terminal::Word("as"), "a s", 0, Err(0)),
    (Terminal::Punct("="), "==", 0, Err(0)),
    (Terminal::Punct("="), "= =", 0, Ok((0, 1, false))),
    (Terminal::Punct(">>>="), " >>>=1", 0, Ok((1, 5, false))),
    (Terminal::Punct("?"), "a?.5", 1, Ok((1, 2, false))),
    (Terminal::Punct("?."), "a?.5", 1, Err(1)),
    (Terminal::Punct("?."), "a?.b", 1, Ok((1, 3, false))),
    (Terminal::Punct("."), "..", 0, Ok((0, 1, false))),
    (Terminal::Punct(".."), "..", 0, Err(0)),
    (Terminal::Punct(""), "a", 0, Err(0)),
    (Terminal::Punct("/"), "/ /", 0, Ok((0, 1, false))),
    (Terminal::End, "a ;", 1, Ok((2, 3, false))),
    (Terminal::End, "a\n;", 1, Ok((2, 3, true))),
    (Terminal::End, "a b", 1, Err(2)),
    (Terminal::End, "a /*\r*/ b", 1, Ok((1, 1, true))),
    (Terminal::End, "a }", 1, Ok((1, 1, false))),
    (Terminal::End, "a // b", 1, Ok((1, 1, false))),
    (Terminal::End, "a\n/*", 1, Err(2)),
    (Terminal::End, "a", 5, Err(5)),
    (Terminal::End, "ä\n", 1, Err(1)),
    (Terminal::EndOfText, " // b", 0, Ok((5, 5, false))),
    (Terminal::EndOfText, "\n/* b", 0, Err(1)),
    (Terminal::EndOfText, "b", 0, Err(0)),
    (Terminal::EndOfText, "b", 2, Err(2)),
];

fn read(rt: &impl Abort, terminal: Terminal, text: &str, at: u32) -> Result<(u32, u32, bool), u32> {
    assert!(rt; text.len() < 100);
    let read = match terminal {
        Terminal::Key => key(text, at),
        Terminal::Name => name(text, at),
        Terminal::TypeName => type_name(text, at),
        Terminal::Word(wanted) => word(text, at, wanted),
        Terminal::Punct(punctuator) => punct(text, at, punctuator),
        Terminal::End => end(text, at),
        Terminal::EndOfText => end_of_text(text, at),
    };
    match read {
        Ok(token) => Ok((token.start, token.next, token.new_line)),
        Err(none) => Err(none.at),
    }
}

#[test]
fn terminals(rt: HostRuntime) {
    for (terminal, text, at, wanted) in ROWS {
        assert_eq!(rt; read(&rt, terminal, text, at), wanted, "{text} at {at}");
    }
}

#[test]
fn parts(rt: HostRuntime) {
    assert_eq!(rt;
        skip(" \n/* c", 0),
        Skipped {
            to: 2,
            new_line: true,
            closed: false
        }
    );
    assert_eq!(rt;
        skip("a /* \n", 1),
        Skipped {
            to: 2,
            new_line: false,
            closed: false
        }
    );
    assert_eq!(rt; piece("größe", 2, 4), "ö");
    assert_eq!(rt; piece("größe", 2, 3), "");
    assert!(rt; is_valid_start('ö') && !is_valid_start('1') && !is_valid_start('\u{300}'));
    assert!(rt; is_valid_continue('1') && is_valid_continue('\u{300}') && !is_valid_continue('-'));
}
