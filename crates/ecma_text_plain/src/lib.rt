//! Laws of what is read as a module: its leaves are bare, and what is read as a plain one is no TypeScript but the two assignment forms, with the functions of one;
//! so it is a plain tree.
//!
//! Each function carries one law over the definitions, and does nothing. The laws are stated in `specs/Laws.antt`.
#![tactic(auto)]

ghost use Rattle.ecma_text_plain.specs.Laws.{FunctionsAreUsualByTests, ReadLeavesAreBare, ReadPlainFunctionsHaveBodies, ReadPlainImportsAreExternal, ReadPlainModulesHavePlainItems, ReadPlainModulesHaveUtf8Hashbangs, ReadPlainNamesAreNotThis, ReadPlainTreesArePlain, ReadPlainTreesAreTaken, ReadPlainTreesHaveNoOtherTypeScript};

use ecma_text_sorts::modules_that_are_read_are_sorted;

/// Each leaf of what is read as a module, in either mode and with any number of levels, has UTF-8 texts and no context, and is a literal with its source
/// text.
#[tactic(auto, using(crate::proofs::Bare::leaves_bare))]
pub fn leaves_that_are_read_are_bare()
    ensures { ReadLeavesAreBare }
{}

/// Each node of what is read as a plain module is bare, and is no TypeScript but an import or export assignment.
#[tactic(auto, using(crate::proofs::Plain::trees_taken))]
pub fn plain_trees_that_are_read_are_taken()
    ensures { ReadPlainTreesAreTaken }
{}

/// Nothing of TypeScript stands in what is read as a plain module but import and export assignments, where these stay; and where
/// they do not, nothing at all.
#[tactic(auto, using(crate::proofs::Plain::forms_kept))]
pub fn plain_trees_that_are_read_have_no_other_typescript()
    ensures { ReadPlainTreesHaveNoOtherTypeScript }
{}

/// What stands behind `#!` in what is read as a plain module is UTF-8.
#[tactic(auto, using(crate::proofs::Plain::hashbangs))]
pub fn plain_modules_that_are_read_have_utf8_hashbangs()
    ensures { ReadPlainModulesHaveUtf8Hashbangs }
{}

/// Each import by `=` in what is read as a plain module is one of an external module, `require("m")`.
pub fn plain_imports_that_are_read_are_external()
    ensures { ReadPlainImportsAreExternal }
{
    modules_that_are_read_are_sorted();
}

/// The items of what is read as a plain module are plain, where import and export assignments may stay and where they may not.
pub fn plain_modules_that_are_read_have_plain_items()
    ensures { ReadPlainModulesHavePlainItems }
{
    modules_that_are_read_are_sorted();
}

/// Each function, constructor, getter and setter of what is read as a plain module has its body.
pub fn plain_functions_that_are_read_have_bodies()
    ensures { ReadPlainFunctionsHaveBodies }
{
    modules_that_are_read_are_sorted();
}

/// No name that is bound in what is read as a plain module is `this`, and no setter has such a parameter before its own.
pub fn plain_names_that_are_read_are_not_this()
    ensures { ReadPlainNamesAreNotThis }
{
    modules_that_are_read_are_sorted();
}

/// A tree has the functions of a plain module where each has its body, and none a parameter `this`.
#[tactic(auto, using(crate::proofs::Usual::usual))]
pub fn functions_are_usual_by_tests()
    ensures { FunctionsAreUsualByTests }
{}

/// What is read as a plain module is a plain tree, as `is_plain` of `ecma_plain` tells one.
pub fn plain_trees_that_are_read_are_plain()
    ensures { ReadPlainTreesArePlain }
{
    modules_that_are_read_are_sorted();
}
