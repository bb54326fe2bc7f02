//! Laws over definitions: the layout of a tree of the shapes of `ecma_shapes` is the text of its tokens, and these tokens stand apart.
#![tactic(auto)]
