use ecma_lex::*;
use std::test::*;

// A text, and what is offered in its place, nothing where it is a name.
const TEXTS: [(&str, &str); 14] = [
    ("a", ""),
    ("größe", ""),
    ("$_\u{200d}1", ""),
    ("async", ""),
    ("_class", ""),
    ("a-b", "ab"),
    ("class", "_class"),
    ("1a", "a"),
    ("", "_"),
    ("1-2", "_"),
    (" \u{300}x y1", "xy1"),
    ("-yield!", "_yield"),
    ("\u{200d}", "_"),
    ("#ö", "ö"),
];

#[test]
fn symbols(rt: HostRuntime) -> Result<(), Fail> {
    for (text, wanted) in TEXTS {
        match verify_symbol(rt.alloc(), text)? {
            Verified::Valid => assert_eq!(rt; wanted, "", "{text}"),
            Verified::Offered(symbol) => assert_eq!(rt; symbol.as_str(), wanted, "{text}"),
        }
    }
    Ok(())
}
