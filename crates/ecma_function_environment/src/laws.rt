//! Laws of names in the places of what is needed, over their definitions alone. Each function carries one law, and does nothing.
ghost use Rattle.ecma_function_environment.specs.Laws.{AtMostThreeContextsANode, AtMostThreeContextsANodeOfATree, AtMostTwoContextsADeclarator, EachNeedHasOneName};

/// Exactly what had a name or is needed has one, once, in the order of first use, and each new one in a fresh context of its own.
pub fn each_need_has_one_name()
    ensures { EachNeedHasOneName }
{}

/// For a node at most three contexts are drawn.
pub fn at_most_three_contexts_are_drawn_for_a_node()
    ensures trees { AtMostThreeContextsANode }
    ensures tree { AtMostThreeContextsANodeOfATree }
{}

/// For a declarator at most two contexts are drawn.
pub fn at_most_two_contexts_are_drawn_for_a_declarator()
    ensures { AtMostTwoContextsADeclarator }
{}
