//! Texts that are the same and texts that are not.
use super::*;
use std::test::Fail;

#[test]
fn texts_are_the_same_byte_for_byte(rt: HostRuntime) -> Result<(), Fail> {
    let rows: [(&str, &str, bool); 8] = [
        ("", "", true),
        ("", "a", false),
        ("a", "a", true),
        ("let", "les", false),
        ("let", "set", false),
        ("let", "lets", false),
        ("größe", "größe", true),
        ("größe", "grösse", false),
    ];
    for (text, other, same) in rows {
        assert_eq!(rt; is_same(text, other), same);
        assert_eq!(rt; is_same(other, text), same);
    }
    Ok(())
}
