//! Classes with parameter properties that are not lowered.
ghost use Rattle.std.specs.Prelude.{◌≡◌, IfOk};
ghost use Rattle.ecma_rules.specs.Children.{kind_of};
ghost use Rattle.ecma_rules.specs.Failing.{first_failing};
ghost use Rattle.ecma_properties.specs.declared.error.Rule.TheVariants as rule;
ghost use Rattle.ecma_properties.specs.Refusing.{Answers, fails_by, first_refused, is_broken, refused_here};
ghost use Rattle.ecma_properties.specs.Standing.{around_in};

use crate::error::{PropertyError, Rule};
use crate::keys::keeps_keys;
use crate::standing::{Around, around_in, at_root};
use crate::supers::misplaces_super;
use ecma_rules::{failing_here, least};
use ecma_tree::{Class, Kind, Module, NoMemory, Node};
use std::alloc::Global;

fn is_broken(alloc: Global, rule: Rule, is_apart: bool, class: &Class) -> Result<bool, NoMemory>
    ensures { IfOk result (λ broken. broken ≡ is_broken rule is_apart class.now) }
{
    match rule {
        Rule::KeyAlias => {
            if !is_apart {
                return Ok(false);
            }
            keeps_keys(alloc, class)
        }
        Rule::SuperPlace => Ok(misplaces_super(class)),
    }
}

fn fails(alloc: Global, rule: Rule, is_apart: bool, node: &Node) -> Result<bool, NoMemory>
    ensures { IfOk result (λ fails. fails ≡ fails_by (kind_of node.now) rule is_apart node.now) }
{
    match &node.kind {
        Kind::Class { .. } => is_broken(alloc, rule, is_apart, node),
        _ => Ok(false),
    }
}

/// Where a class begins that breaks a rule, and is not gone.
fn refused_here(
    alloc: Global,
    rule: Rule,
    around: Around,
    node: &Node,
) -> Result<Option<u32>, NoMemory>
    ensures { IfOk result (λ place. place ≡ refused_here rule around node.now) }
{
    if around.is_gone {
        return Ok(None);
    }
    let is_failing = fails(alloc, rule, around.is_apart, node)?;
    Ok(failing_here(is_failing, node))
}

/// The least such place in a tree.
fn first_in(alloc: Global, rule: Rule, tree: &Node, around: Around) -> Result<Option<u32>, NoMemory>
    ensures { IfOk result (λ place. place ≡ first_failing Around (refused_here rule) around_in tree.now around) }
{
    let mut found = refused_here(alloc, rule, around, tree)?;
    for i in 0..tree.children.len() {
        let inside = around_in(around, tree, i);
        let below = first_in(alloc, rule, tree.children.at(i), inside)?;
        found = least(found, below);
    }
    Ok(found)
}

fn first_refused(alloc: Global, rule: Rule, tree: &Module) -> Result<Option<u32>, NoMemory>
    ensures { IfOk result (λ place. place ≡ first_refused rule tree.now) }
{
    first_in(alloc, rule, tree, at_root())
}

/// Refuses a class with parameter properties that is not lowered, of a module with its types or without. A class that breaks the rule on keys is answered, or else
/// one that breaks the rule on `super`, of one rule the first in the text; what goes with the types is not asked.
pub fn check_properties(alloc: Global, tree: &Module) -> Result<(), PropertyError>
    ensures { Answers result (first_refused rule.KeyAlias tree.now) (first_refused rule.SuperPlace tree.now) }
{
    let keys = first_refused(alloc, Rule::KeyAlias, tree)?;
    if let Some(at) = keys {
        return Err(PropertyError::Unlowered {
            rule: Rule::KeyAlias,
            at,
        });
    }
    let supers = first_refused(alloc, Rule::SuperPlace, tree)?;
    if let Some(at) = supers {
        return Err(PropertyError::Unlowered {
            rule: Rule::SuperPlace,
            at,
        });
    }
    Ok(())
}
