//! Sessions give their marks and keep their slots; words keep their texts; errors say what happened.
use ecma_kind::*;
use std::test::Fail;

#[test]
fn a_session_gives_each_mark_once(rt: HostRuntime) -> Result<(), Fail> {
    let mut session = Session::new(2);
    let first = session.fresh_mark()?;
    let second = session.fresh_mark()?;
    assert!(rt; first != second);
    assert_eq!(rt; session.left(), 0);
    assert_eq!(rt; session.fresh_mark(), Err(Spent));
    let ctxt = SyntaxContext::empty().apply_mark(first);
    assert!(rt; ctxt.has_mark(first));
    assert!(rt; !ctxt.has_mark(second));
    assert!(rt; !SyntaxContext::empty().has_mark(first));
    Ok(())
}

#[test]
fn a_slot_keeps_what_was_put_there(rt: HostRuntime) -> Result<(), Fail> {
    let mut session = Session::new(1);
    let mark = session.fresh_mark()?;
    let ctxt = SyntaxContext::empty().apply_mark(mark);
    assert!(rt; session.slot(3).is_none());
    session.set_slot(3, ctxt, true);
    assert_eq!(rt; session.slot(3), Some((ctxt, true)));
    assert!(rt; session.slot(4).is_none());
    Ok(())
}

#[test]
fn a_word_is_the_text_that_it_was_made_of(rt: HostRuntime) -> Result<(), Fail> {
    for text in ["a", "größe", ""] {
        let sym = JsWord::new(rt.alloc(), text)?;
        let copy = sym.clone()?;
        assert_eq!(rt; sym.as_str(), text);
        assert_eq!(rt; copy.as_str(), text);
        assert!(rt; sym == copy);
    }
    Ok(())
}

#[test]
fn errors_say_what_happened(rt: HostRuntime) -> Result<(), Fail> {
    let alloc = rt.alloc();
    let rows = [
        (
            format!(in alloc; "{Spent}")?,
            "no context is left in the session",
        ),
        (
            format!(in alloc; "{}", PassError::Spent)?,
            "no context is left in the session",
        ),
        (
            format!(in alloc; "{}", PassError::NoMemory)?,
            "out of memory",
        ),
        (format!(in alloc; "{NoMemory}")?, "out of memory"),
    ];
    for (text, expected) in rows {
        assert_eq!(rt; text.as_str(), expected);
    }
    Ok(())
}
