//! Classes with parameter properties that are not lowered.
use Rule::{KeyAlias, SuperPlace};
use ecma_properties::{PropertyError, Rule, check_properties};
use ecma_text::read_module;
use ecma_tree::Module;
use std::alloc::Global;
use std::test::Fail;

// A function that may let go of a node is proved for every kind that it may have: so this one alone does.
fn let_go(_tree: Module) {}

/// What is told of a text. One that is not read is told as want of memory, of which there is none here.
fn checked(alloc: Global, text: &str) -> Result<(), PropertyError> {
    if 1000 < text.len() {
        return Err(PropertyError::NoMemory);
    }
    let Ok(tree) = read_module(alloc, text) else {
        return Err(PropertyError::NoMemory);
    };
    let done = check_properties(alloc, &tree);
    let_go(tree);
    done
}

/// Modules whose classes are not lowered, with the rule that the first breaks, and where it begins.
const REFUSED: [(&str, Rule, u32); 12] = [
    (
        "class B extends A { constructor(public p: T) { if (c) super(); } }",
        SuperPlace,
        0,
    ),
    (
        "f(); abstract class B extends A { constructor(public p) { } }",
        SuperPlace,
        5,
    ),
    (
        "class B extends A { constructor(public p) { super(); () => super(); } }",
        SuperPlace,
        0,
    ),
    (
        "class B extends A { constructor(public p = super()) { } }",
        SuperPlace,
        0,
    ),
    (
        "class B extends A { constructor(public p) { (super()); } }",
        SuperPlace,
        0,
    ),
    (
        "() => class { [f()] = 1; constructor(private a) { } };",
        KeyAlias,
        6,
    ),
    (
        "function g(b = class { [f()] = 1; constructor(private a) { } }) { }",
        KeyAlias,
        15,
    ),
    (
        "class B { c = class { [f()] = 1; constructor(private a) { } }; }",
        KeyAlias,
        14,
    ),
    (
        "while (b) c(class { [f()] = 1; constructor(private a) { } });",
        KeyAlias,
        12,
    ),
    (
        "for (const b of c(class { [f()] = 1; constructor(private a) { } })) { }",
        KeyAlias,
        18,
    ),
    (
        "enum E { F = c(class { [f()] = 1; constructor(private a) { } }) }",
        KeyAlias,
        15,
    ),
    (
        "class B extends A { constructor(public p) { } } () => class { [f()] = 1; constructor(private a) { } };",
        KeyAlias,
        54,
    ),
];

/// Classes that break no rule.
const TAKEN: [&str; 8] = [
    "class A { [f()] = 1; constructor(private a) { } }",
    "() => { class A { [f()] = 1; constructor(private a) { } } };",
    "while (b) { c(class { [f()] = 1; constructor(private a) { } }); }",
    "class B { [c(class { [f()] = 1; constructor(private a) { } })]() { } }",
    "() => class { [\"f\"] = 1; constructor(private a) { } };",
    "class A extends B { constructor(private a) { f(); super() as T; g(); } }",
    "class A extends B { constructor(private a) { super(); class C extends B { constructor() { super(); } } } }",
    "class A extends B { constructor(a) { if (a) super(); } }",
];

#[test]
fn classes_that_break_a_rule_are_told(rt: HostRuntime) -> Result<(), Fail> {
    let alloc = rt.alloc();
    for (text, rule, at) in REFUSED {
        assert_eq!(rt;
            checked(alloc, text).err(),
            Some(PropertyError::Unlowered { rule, at }),
            "{text}"
        );
    }
    for text in TAKEN {
        assert_eq!(rt; checked(alloc, text).err(), None, "{text}");
    }
    Ok(())
}
