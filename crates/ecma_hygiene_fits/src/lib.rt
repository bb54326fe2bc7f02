//! Trees with their final texts fit where the trees do, clause by clause and whole, over the definitions alone.
//!
//! Each function carries one law, and does nothing. The laws are stated in `specs/Laws.antt`.
#![tactic(auto)]

ghost use Rattle.ecma_hygiene_fits.specs.Laws.{FinalTextsAreReadable, FinalTextsAreShort, FinalTextsAreSpelled, FinalTextsKeepBranches, FinalTextsKeepChains, FinalTextsKeepConstructors, FinalTextsKeepCounts, FinalTextsKeepFits, FinalTextsKeepMembers, FinalTextsKeepRoles, FinalTextsKeepRules, FinalTextsKeepSorts, FinalTextsKeepSpelling, FinalTextsKeepStrays, FinalTextsKeepTargets, HygieneKeepsFits, HygieneKeepsSpelling, HygienicTextsAreUnreserved};

/// Where a module keeps these clauses of fitting, it keeps them with whatever texts for its identifiers.
pub fn final_texts_keep_clauses_of_what_fits()
    ensures sorts { FinalTextsKeepSorts }
    ensures branches { FinalTextsKeepBranches }
    ensures chains { FinalTextsKeepChains }
    ensures constructors { FinalTextsKeepConstructors }
    ensures counts { FinalTextsKeepCounts }
    ensures members { FinalTextsKeepMembers }
{}

/// Where a module keeps these clauses of fitting, it keeps them with texts of which none is a reserved word or `arguments`; the context
/// rules, where no parameter is `this`.
pub fn unreserved_texts_keep_clauses_of_what_fits()
    ensures roles { FinalTextsKeepRoles }
    ensures rules { FinalTextsKeepRules }
    ensures strays { FinalTextsKeepStrays }
    ensures targets { FinalTextsKeepTargets }
{}

/// Where each leaf is spelled as its terminal reads it, and so is each new text as an identifier, each leaf of the tree with these texts is.
/// So it is with final texts, if no identifier has a text of 2^32 - 64 bytes or more.
pub fn final_texts_keep_spelled_leaves()
    ensures texts { FinalTextsKeepSpelling }
    ensures hygienic { HygieneKeepsSpelling }
{}

/// Of a tree whose leaves are spelled, the final texts are spelled as identifiers are, if they are shorter than 2^32 bytes. They are longer
/// than those that they stand for by at most 64 bytes, so they are if no identifier has a text of 2^32 - 64 bytes or more.
pub fn final_texts_are_spelled()
    ensures spelled { FinalTextsAreSpelled }
    ensures short { FinalTextsAreShort }
    ensures readable { FinalTextsAreReadable }
{}

/// A final text is the id's own, or no reserved word and not `arguments`.
pub fn final_texts_are_unreserved()
    ensures { HygienicTextsAreUnreserved }
{}

/// So what fits fits with texts that are spelled as identifiers are, of which none is a reserved word or `arguments`, where no parameter is
/// `this`; and with final texts, if no identifier has a text of 2^32 - 64 bytes or more.
pub fn final_texts_keep_what_fits()
    ensures texts { FinalTextsKeepFits }
    ensures hygienic { HygieneKeepsFits }
{}
