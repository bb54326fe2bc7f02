//! A module with its enums written, and with reads of their members, is a module as it was.
//!
//! Each function carries one law over the definitions, and does nothing. The laws are stated in `specs/Laws.antt`.
#![tactic(auto)]

ghost use Rattle.ecma_lower_enums_sources.specs.Laws.{WritingEnumsAddsNoForms, WritingEnumsKeepsIds, WritingEnumsKeepsNamesShort, WritingEnumsMakesNoNames, WrittenEnumsAreSorted, WrittenEnumsHaveTexts, WrittenEnumsKeepClauses};

/// Each node has the sort that its parent asks for, from a module on, where it had.
pub fn written_enums_are_sorted()
    ensures { WrittenEnumsAreSorted }
{}

/// No `if` takes an outer `else`, no link of an optional chain is loose, no member is misread, and no class has two constructors with bodies, each where none did.
pub fn written_enums_keep_clauses()
    ensures { WrittenEnumsKeepClauses }
{}

/// Each literal that is written can be read, and each text is UTF-8, where what is known of members and their names can be written.
pub fn written_enums_have_texts()
    ensures { WrittenEnumsHaveTexts }
{}

/// No identifier that is written has a longer text than one that stood there.
pub fn writing_enums_keeps_names_short()
    ensures { WritingEnumsKeepsNamesShort }
{}

/// Each identifier that is written has the place, the text and the context of one that stood there.
pub fn writing_enums_makes_no_names()
    ensures { WritingEnumsMakesNoNames }
{}

/// No identifier that is written has a text and a context that none of the tree has.
pub fn writing_enums_keeps_ids()
    ensures { WritingEnumsKeepsIds }
{}

/// What is written for enums and for reads of their members is of a few kinds, and no node of any other kind comes in.
pub fn writing_enums_adds_no_forms()
    ensures { WritingEnumsAddsNoForms }
{}
