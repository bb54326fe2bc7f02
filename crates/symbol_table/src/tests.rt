//! Texts keep the numbers that they get.
use super::*;
use std::test::Fail;

#[test]
fn a_text_has_one_number(rt: HostRuntime) -> Result<(), Fail> {
    let mut table = SymbolTable::new(rt.alloc());
    for (text, number) in [("a", 0u32), ("b", 1), ("a", 0), ("größe", 2), ("", 3)] {
        assert_eq!(rt; table.intern(text)?, number, "at {text}");
    }
    assert_eq!(rt; table.len(), 4);
    assert_eq!(rt; table.text(2), Some("größe"));
    assert_eq!(rt; table.text(4), None);
    Ok(())
}
