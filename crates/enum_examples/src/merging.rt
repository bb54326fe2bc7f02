//! Declarations that merge: `export` before some alone, and members that are given twice.
use crate::reading::{let_go, tree_of};
use Told::{Mixed, Nothing, Twice};
use ecma_merging::{MergeError, check_merging};
use std::test::Fail;

/// What is told of a module, with the name.
#[derive(Clone, Copy, Debug)]
enum Told {
    Nothing,
    Mixed(&'static str),
    Twice(&'static str),
}

/// Modules, and what is told of them: where TypeScript 4.8 says that the declarations of a name must be all exported or all local (2395, and 2652 of `export default`), and where it says
/// that an identifier is there twice (2300), but for the members of ambient enums.
const MERGING: [(&str, Told); 22] = [
    ("enum E { A } export enum E { B }", Mixed("E")),
    ("export enum E { A } enum E { B }", Mixed("E")),
    ("export enum E { A } export enum E { B }", Nothing),
    ("enum E { A } enum E { B } export { E };", Nothing),
    (
        "class C { } export namespace C { export let a = 1; }",
        Mixed("C"),
    ),
    (
        "function f() { } namespace f { export let a = 1; }",
        Nothing,
    ),
    ("class C { } export namespace C { type T = U; }", Nothing),
    (
        "export default class C { } namespace C { export let a = 1; }",
        Mixed("C"),
    ),
    ("declare enum E { A } export enum E { B }", Mixed("E")),
    (
        "namespace N { enum E { A } export enum E { B } }",
        Mixed("E"),
    ),
    (
        "namespace N { enum E { A } } namespace N { export enum E { B } }",
        Nothing,
    ),
    (
        "namespace N { enum F { A } export enum F { B } } enum E { A } export enum E { B }",
        Mixed("F"),
    ),
    (
        "enum E { A, A } enum F { A } export enum F { B }",
        Mixed("F"),
    ),
    ("enum E { A, B } enum E { B }", Twice("B")),
    ("enum E { A, A }", Twice("A")),
    ("enum E { A, \"A\" }", Twice("A")),
    (
        "export const enum E { A } export const enum E { \"A\" = 1 }",
        Twice("A"),
    ),
    ("enum E { A } enum F { A }", Nothing),
    ("enum E { A } { enum E { A } }", Nothing),
    ("declare enum E { A } enum E { A }", Nothing),
    ("declare namespace N { enum E { A, A } }", Nothing),
    (
        "function f() { enum E { B, B } } enum F { A, A }",
        Twice("B"),
    ),
];

fn is_told(answer: Result<(), MergeError>, wanted: Told) -> bool {
    match (answer, wanted) {
        (Ok(()), Nothing) => true,
        (Err(MergeError::MixedExport { name }), Mixed(text)) => name.as_str() == text,
        (Err(MergeError::Redeclared { name }), Twice(text)) => name.as_str() == text,
        _ => false,
    }
}

#[test]
fn what_merges_is_exported_alike_and_gives_members_once(rt: HostRuntime) -> Result<(), Fail> {
    let alloc = rt.alloc();
    for (text, wanted) in MERGING {
        let Some(tree) = tree_of(alloc, text) else {
            return Err(Fail::from("not read"));
        };
        let answer = check_merging(alloc, &tree);
        let_go(tree);
        assert!(rt; is_told(answer, wanted), "{text}");
    }
    Ok(())
}
