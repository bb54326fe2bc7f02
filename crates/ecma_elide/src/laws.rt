//! Laws of the module without what the options drop, over its definition alone.
//!
//! Each function carries one law, and does nothing. The laws are stated in `specs/Laws.antt`.
ghost use Rattle.ecma_elide.specs.Laws.{ElidedModulesAreSorted, TreesWithoutStay};

/// A module by its sorts is one without what the options drop.
pub fn elided_modules_are_sorted()
    ensures { ElidedModulesAreSorted }
{}

/// A tree without imports, lists of exports, expressions as the default export and `import a = ..` stays as it is: the spans, the order and the own data of
/// its nodes.
pub fn trees_without_imports_and_exports_stay()
    ensures { TreesWithoutStay }
{}
