//! What is found in one list of items.
ghost use Rattle.std.specs.Prelude.{◌≡◌, ◌++◌, [], ◌∷◌, OnOk, cond};
ghost use Rattle.ecma_merging.specs.Merging.{differ, found_among, found_in, is_mixed, is_twice, mixed_of, twice_of};

use crate::asked::Asked;
use crate::finding::Finding;
use crate::given::{Given, given_in};
use crate::items::{Declared, declared_in};
use ecma_tree::{JsWord, NoMemory, Node};
use item_list::ItemList;
use short_texts::is_same;
use std::alloc::Global;

fn differ(a: bool, b: bool) -> bool
    ensures { result ≡ differ a b }
{
    if a { !b } else { b }
}

/// Whether a declaration adds to one of those before it, and only one of the two has `export`.
fn is_mixed(earlier: &[Declared], declared: &Declared) -> bool
    ensures { result ≡ is_mixed earlier.now declared.now }
{
    if !declared.adds {
        return false;
    }
    for other in earlier {
        if is_same(other.name.as_str(), declared.name.as_str())
            && differ(other.is_exported, declared.is_exported)
        {
            return true;
        }
    }
    false
}

/// Whether one of the members before this one has its name, and is of the same enum.
fn is_twice(earlier: &[Given], given: &Given) -> bool
    ensures { result ≡ is_twice earlier.now given.now }
{
    for other in earlier {
        if is_same(other.of.as_str(), given.of.as_str())
            && is_same(other.name.as_str(), given.name.as_str())
        {
            return true;
        }
    }
    false
}

/// Puts a name behind what is there, if it is to be told.
fn push_if(
    told: bool,
    name: &JsWord,
    at: u32,
    findings: &mut ItemList<Finding>,
) -> Result<(), NoMemory>
    ensures { OnOk result (findings.new ≡ findings.old ++ cond told (record { name = name.now; at = at } ∷ []) []) }
{
    if told {
        findings.push(Finding {
            name: name.clone()?,
            at,
        })?;
    }
    Ok(())
}

/// Puts the declarations that are mixed with one before them behind what is there.
fn push_mixed(
    declared: &ItemList<Declared>,
    findings: &mut ItemList<Finding>,
) -> Result<(), NoMemory>
    ensures { OnOk result (findings.new ≡ findings.old ++ found_among is_mixed mixed_of [] declared.now) }
{
    for i in 0..declared.len() {
        let one = declared.at(i);
        let told = is_mixed(&declared.as_slice()[..i], one);
        push_if(told, &one.name, one.at, findings)?;
    }
    Ok(())
}

/// Puts the members that were given before behind what is there.
fn push_twice(given: &ItemList<Given>, findings: &mut ItemList<Finding>) -> Result<(), NoMemory>
    ensures { OnOk result (findings.new ≡ findings.old ++ found_among is_twice twice_of [] given.now) }
{
    for i in 0..given.len() {
        let one = given.at(i);
        let told = is_twice(&given.as_slice()[..i], one);
        push_if(told, &one.name, one.at, findings)?;
    }
    Ok(())
}

/// Puts what is found in a list behind what is there.
pub(crate) fn push_in(
    alloc: Global,
    asked: Asked,
    ambient: bool,
    items: &[Node],
    findings: &mut ItemList<Finding>,
) -> Result<(), NoMemory>
    ensures { OnOk result (findings.new ≡ findings.old ++ found_in asked ambient items.now) }
{
    match asked {
        Asked::Mixed => {
            let declared = declared_in(alloc, ambient, items)?;
            push_mixed(&declared, findings)
        }
        Asked::Twice => {
            if ambient {
                return Ok(());
            }
            let given = given_in(alloc, items)?;
            push_twice(&given, findings)
        }
    }
}
