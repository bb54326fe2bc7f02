//! What a module imports and exports, on its whole way: the written module has the interface of its source.
//!
//! Each function carries a law over the definitions, and does nothing. The laws are stated in `specs/Laws.antt`.
#![tactic(auto)]

ghost use Rattle.ecma_pipeline_interface.specs.Laws.{BoundSourcesHaveTheirInterface, LiteralsKeepInterfaces, ReadTreesKeepInterfaces, WrittenTreesHaveTheirInterface};

/// With parentheses and bound names, resolved, a module has the interface of the resolved module.
pub fn bound_sources_have_their_interface()
    ensures { BoundSourcesHaveTheirInterface }
{}

/// With the source texts of its literals a module has the interface that it has without them.
pub fn literals_keep_interfaces()
    ensures { LiteralsKeepInterfaces }
{}

/// What is read of the layout of a module has its interface, by the texts of its names.
pub fn read_trees_keep_interfaces()
    ensures { ReadTreesKeepInterfaces }
{}

/// What is read of the text that is written for a tree that is ready, whose exported declarations keep their texts, has the interface of the tree.
pub fn written_trees_have_their_interface()
    ensures { WrittenTreesHaveTheirInterface }
{}
