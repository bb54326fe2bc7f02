//! Laws of the tree without its types, over its definition alone.
//!
//! Each function carries one law, and does nothing. The laws are stated in `specs/Laws.antt`.
ghost use Rattle.ecma_strip.specs.Laws.{NoTypesAreLeft, SortsAreKept};
ghost use Rattle.ecma_strip.specs.Plain.{TreesWithoutTypesStay};

/// Every sort but those of types is kept.
pub fn sorts_are_kept()
    ensures { SortsAreKept }
{}

/// No type part is left: no type, no expression with a type round it, no declaration of a type, nothing that is written
/// `type` or `declare` but a variable in the head of a loop, no modifier. Enums, namespaces, parameter properties, `import a =` and `export =` are lowered later.
pub fn no_types_are_left()
    ensures { NoTypesAreLeft }
{}

/// A tree in which there are no types stays as it is: the spans, the order and the own data of its nodes.
pub fn trees_without_types_stay()
    ensures { TreesWithoutTypesStay }
{}
