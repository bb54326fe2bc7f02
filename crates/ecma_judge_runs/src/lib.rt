//! What is judged of expressions, by the tables of `ecma_judge`, is so when they run by the definitions of `ecma_runs`.
//!
//! Each function carries one law, and does nothing. The laws are stated in `specs/Laws.antt`, for whatever tree, and in `specs/OfModules.antt`, for the expressions of modules.
//! All ask that the expression asks nothing of what is known of the enums of its module, by `ecma_run_enums`; what the module knows of these elsewhere does not matter.
#![tactic(auto)]

ghost use Rattle.ecma_judge_runs.specs.OfModules.{CallsOfPureCalleesInModulesAreStill, ClassesWithoutEffectsInModulesAreStill, KnownNumbersInModulesAreSo, KnownTextsInModulesAreSo, SortedExpressionsAreTaken, SortedExpressionsAreValued, WhatHasAKnownTextInModulesIsStill, WhatHasNoEffectsInModulesIsStill, WhatIsAPureNumberInModulesIsStill, WhatIsKnownInModulesIsSo, WhatIsPureInModulesIsStill};
ghost use Rattle.ecma_judge_runs.specs.Laws.{CallsOfPureCalleesAreStill, ClassesWithoutEffectsAreStill, ContextsApplyFunctions, ContextsConstructObjects, PureCalleesAreStill, PureCallsAreStill, WhatHasAKnownTextIsStill, WhatHasNoEffectsIsStill, WhatIsAPureNumberIsStill, WhatIsKnownIsSo, WhatIsPureIsStill};

/// An expression that is said to have no effects changes nothing when it is evaluated: no variable, no object, and nothing that the host sees; however it comes
/// out. It may make objects and environment records. Asked is that its names are told. Of a member of `Math` and a call of `Date` it is so where these names are
/// known to be global, of a call of a function expression that does nothing where calls are known to be those of the program, and of a member of an object literal or
/// a class where what is listed in these has the sort of a property or a member.
pub fn what_has_no_effects_is_still()
    ensures { WhatHasNoEffectsIsStill }
{}

/// So it is with the definition of a class.
pub fn classes_without_effects_are_still()
    ensures { ClassesWithoutEffectsAreStill }
{}

/// So it is with a call, on values that are there, of a callee that is said to be pure: `Date`, a member of `Math` by its name, a method of a text literal that
/// only reads it, or a function expression that does nothing. Asked is that no scope around declares a name with the context of what is not resolved or the empty
/// one, and of a function expression that calls are those of the program and that it has the parts of one.
pub fn calls_of_pure_callees_are_still()
    ensures { CallsOfPureCalleesAreStill }
{}

/// A value that an expression gives is as the expression is judged. Asked is that no scope around declares a name with the context of what is not resolved, that
/// no target of an assignment has a default, and that what is known is told from no construction, unless what the functions of the program construct are objects.
pub fn what_is_known_is_so()
    ensures { WhatIsKnownIsSo }
{}

/// Where the purity of an expression's truth is that of what is pure, the evaluation changes nothing, even where an operand that is left out has effects, as in
/// `true || f()`. Asked is what the law on effects asks, and that no scope around declares a name with the context of what is not resolved.
pub fn what_is_pure_is_still()
    ensures { WhatIsPureIsStill }
{}

/// So it is where the purity of its Number is that of what is pure, as of `[!(true || f())]`.
pub fn what_is_a_pure_number_is_still()
    ensures { WhatIsAPureNumberIsStill }
{}

/// And where its text is known.
pub fn what_has_a_known_text_is_still()
    ensures { WhatHasAKnownTextIsStill }
{}

/// Nor does such a callee itself change anything, as the members `Math.max` and `"a".trim` that are read.
pub fn pure_callees_are_still()
    ensures { PureCalleesAreStill }
{}

/// A call of such a callee where it stands, as `Math.max(a, b)`, changes nothing where it is said to have no effects. Asked is what the law on effects asks of its
/// arguments, and what that on calls asks of the scopes around.
pub fn pure_calls_are_still()
    ensures { PureCallsAreStill }
{}

/// Calls are those of the program in the contexts in which the code of a module runs, and that of the functions that it calls.
pub fn contexts_apply_functions()
    ensures { ContextsApplyFunctions }
{}

/// And what they construct are objects.
pub fn contexts_construct_objects()
    ensures { ContextsConstructObjects }
{}

/// Of a tree with the sort of an expression, as each expression of a module that is read, the laws on effects ask only that its names are told, where the names with the context of what is
/// not resolved, or the empty one, are global, and calls those of the program.
pub fn sorted_expressions_are_taken()
    ensures { SortedExpressionsAreTaken }
{}

/// And that on values asks nothing of it, where constructions give objects.
pub fn sorted_expressions_are_valued()
    ensures { SortedExpressionsAreValued }
{}

/// So in the contexts in which the code of a module runs, and that of the functions that it calls, an expression that is said to have no effects changes nothing, where its names are
/// told: each is declared by the module or has the context of what is not resolved, and the inner names of class expressions have contexts of their own.
pub fn what_has_no_effects_in_modules_is_still()
    ensures { WhatHasNoEffectsInModulesIsStill }
{}

/// So it is with the definition of a class.
pub fn classes_without_effects_in_modules_are_still()
    ensures { ClassesWithoutEffectsInModulesAreStill }
{}

/// So it is with a call, on values that are there, of an expression that is said to be a pure callee; of its names nothing is asked.
pub fn calls_of_pure_callees_in_modules_are_still()
    ensures { CallsOfPureCalleesInModulesAreStill }
{}

/// A value that an expression gives is as the expression is judged. Of its names nothing is asked.
pub fn what_is_known_in_modules_is_so()
    ensures { WhatIsKnownInModulesIsSo }
{}

/// Where the purity of an expression's truth is that of what is pure, the evaluation changes nothing, known or not: nothing is asked of the operand that is left out, as of `f` in
/// `true || (function () { f() })()`, but that its names are told.
pub fn what_is_pure_in_modules_is_still()
    ensures { WhatIsPureInModulesIsStill }
{}

/// So it is where the purity of its Number is that of what is pure.
pub fn what_is_a_pure_number_in_modules_is_still()
    ensures { WhatIsAPureNumberInModulesIsStill }
{}

/// And where its text is known.
pub fn what_has_a_known_text_in_modules_is_still()
    ensures { WhatHasAKnownTextInModulesIsStill }
{}

/// And then it is the text of the value in the state behind the evaluation: of an array that of its elements there, with commas between them.
pub fn known_texts_in_modules_are_so()
    ensures { KnownTextsInModulesAreSo }
{}

/// A known Number is that of the value in the state behind the evaluation, also of an array.
pub fn known_numbers_in_modules_are_so()
    ensures { KnownNumbersInModulesAreSo }
{}
