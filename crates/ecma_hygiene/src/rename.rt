//! Other texts for the identifiers of a tree.
ghost use Rattle.std.specs.Prelude.{◌≡◌, Some, None, IfOk, OnOk, cond};
ghost use Rattle.std.specs.Option.{option_copied};
ghost use Rattle.ecma_tree.specs.declared.node.Node.{out-Node};
ghost use Rattle.ecma_scope.specs.Resolved.{is_name};
ghost use Rattle.ecma_hygiene.specs.Ids.{Id, same_id};
ghost use Rattle.ecma_hygiene.specs.Kept.{texts_in, with_texts};
ghost use Rattle.ecma_hygiene.specs.Renamed.{changed_from, is_sourced, key_name, kind_with_text, lone_name, old_name, old_name_by, renamed_at, shared_by, shared_name, shorthand};
ghost use Rattle.ecma_hygiene.specs.Texts.{text_in};

use crate::expand::{OldName, expand, is_absent};
use crate::ids::copy_id;
use crate::naming::Named;
use crate::spot::{Spot, Standing, is_sourced, spot_in};
use ecma_scope::{Role, is_there, role_by};
use ecma_tree::{Id, JsWord, Kind, NoMemory, Node, Span, SyntaxContext};
use item_list::ItemList;
use std::alloc::Global;
use std::collections::HashMap;

/// Texts by the ids that get them.
#[derive(Drop)]
pub(crate) struct TextMap {
    texts: HashMap<Id, JsWord>,
}

fn no_text(alloc: Global) -> TextMap
    ensures { (id : Id) → texts_in result id ≡ None }
{
    TextMap {
        texts: HashMap::new(alloc),
    }
}

fn add_named(texts: &mut TextMap, named: &Named) -> Result<(), NoMemory>
    ensures { OnOk result ((id : Id) → texts_in texts.new id ≡ cond (same_id named.now.id id) (Some named.now.text) (texts_in texts.old id)) }
{
    texts
        .texts
        .insert(copy_id(&named.id)?, named.text.clone()?)?;
    Ok(())
}

/// These texts by their ids.
pub(crate) fn text_map(alloc: Global, names: &ItemList<Named>) -> Result<TextMap, NoMemory>
    ensures { IfOk result (λ texts. (id : Id) → texts_in texts id ≡ text_in names.now id) }
{
    let mut texts = no_text(alloc);
    for named in names.as_slice() {
        add_named(&mut texts, named)?;
    }
    Ok(texts)
}

/// The name of a specifier that has one name.
#[tactic(auto, using(crate::proofs::Writing::writing))]
fn lone_name(children: &ItemList<Node>) -> Option<&Node>
    ensures { option_copied result ≡ lone_name children.now }
{
    if children.len() == 2 && is_absent(children.at(1)) {
        Some(children.at(0))
    } else {
        None
    }
}

/// The identifier of a shorthand pattern.
#[tactic(auto, using(crate::proofs::Writing::writing))]
fn key_name(children: &ItemList<Node>) -> Option<&Node>
    ensures { option_copied result ≡ key_name children.now }
{
    if children.len() == 2 {
        children.at(0).children.get(0)
    } else {
        None
    }
}

fn shorthand(spot: Spot, node: &Node) -> Option<&Node>
    ensures { option_copied result ≡ shorthand spot node.now }
{
    match spot {
        Spot::Property => Some(node),
        _ => None,
    }
}

fn exported_name(role: Role, children: &ItemList<Node>) -> Option<&Node>
    ensures { option_copied result ≡ cond (is_sourced role) None (lone_name children.now) }
{
    if is_sourced(role) {
        None
    } else {
        lone_name(children)
    }
}

/// The identifier of a node whose text is also a key, or a name that the module has for others.
#[tactic(auto, unfolding(crate::specs::Renamed::shared_by))]
fn shared_name(stands: Standing, node: &Node) -> Option<&Node>
    ensures { option_copied result ≡ shared_name stands node.now }
{
    match &node.kind {
        Kind::Ident { .. } => shorthand(stands.spot, node),
        Kind::ImportNamedSpecifier { .. } => lone_name(&node.children),
        Kind::ExportNamedSpecifier { .. } => exported_name(stands.role, &node.children),
        Kind::AssignPatProp => key_name(&node.children),
        _ => None,
    }
}

/// What is the same all the way down.
#[derive(Drop)]
pub(crate) struct Renaming {
    pub(crate) alloc: Global,
    pub(crate) texts: TextMap,
}

/// The text that an identifier gets, if it gets one.
fn text_for(texts: &TextMap, sym: &JsWord, ctxt: SyntaxContext) -> Result<Option<JsWord>, NoMemory>
    ensures { IfOk result (λ text. text ≡ texts_in texts.now (sym.now, ctxt)) }
{
    let id = (sym.clone()?, ctxt);
    match texts.texts.get(&id) {
        Some(text) => Ok(Some(text.clone()?)),
        None => Ok(None),
    }
}

fn changed_from(text: Option<JsWord>, sym: &JsWord, span: Span) -> Result<Option<OldName>, NoMemory>
    ensures { IfOk result (λ old. old ≡ changed_from text sym.now span) }
{
    if let Some(text) = text {
        if text.as_str() != sym.as_str() {
            let text = sym.clone()?;
            return Ok(Some(OldName { text, span }));
        }
    }
    Ok(None)
}

/// The old text of an identifier that gets another, and where it stands.
fn old_name_by(texts: &TextMap, name: &Node) -> Result<Option<OldName>, NoMemory>
    ensures { IfOk result (λ old. old ≡ old_name_by (texts_in texts.now) (out-Node name.now).span (out-Node name.now).kind) }
{
    match &name.kind {
        Kind::Ident { sym, ctxt, .. } => {
            let text = text_for(texts, sym, *ctxt)?;
            changed_from(text, sym, name.span)
        }
        _ => Ok(None),
    }
}

fn old_name(texts: &TextMap, stands: Standing, node: &Node) -> Result<Option<OldName>, NoMemory>
    ensures { IfOk result (λ old. old ≡ old_name (texts_in texts.now) (shared_name stands node.now)) }
{
    match shared_name(stands, node) {
        Some(name) => old_name_by(texts, name),
        None => Ok(None),
    }
}

fn is_name(role: Role) -> bool
    ensures { result ≡ is_name role }
{
    matches!(role, Role::Name)
}

/// Gives an identifier its text.
fn set_text(texts: &TextMap, named: bool, kind: &mut Kind) -> Result<(), NoMemory>
    ensures { OnOk result (kind.new ≡ kind_with_text (texts_in texts.now) named kind.old) }
{
    if named {
        return Ok(());
    }
    if let Kind::Ident { sym, ctxt, .. } = kind {
        if let Some(text) = text_for(texts, sym, *ctxt)? {
            *sym = text;
        }
    }
    Ok(())
}

/// Gives the identifiers of a node their texts.
#[cycle(renaming)]
pub(crate) fn rename(renaming: &Renaming, stands: Standing, node: &mut Node) -> Result<(), NoMemory>
    ensures { OnOk result (node.new ≡ renamed_at (texts_in renaming.now.texts) node.old stands) }
{
    let old = old_name(&renaming.texts, stands, node)?;
    rename_children(renaming, stands, node)?;
    set_text(&renaming.texts, is_name(stands.role), &mut node.kind)?;
    expand(renaming.alloc, old, node)?;
    Ok(())
}

/// The same of the children of a node.
#[cycle(renaming)]
fn rename_children(renaming: &Renaming, stands: Standing, node: &mut Node) -> Result<(), NoMemory>
    ensures { OnOk result (node.new ≡ with_texts (texts_in renaming.now.texts) stands node.old) }
{
    let sourced = is_there(node, 1);
    let count = node.children.len();
    for i in 0..count {
        let role = role_by(stands.role, &node.kind, sourced, i);
        let spot = spot_in(stands.spot, &node.kind, i);
        rename(renaming, Standing { role, spot }, node.children.get_mut(i))?;
    }
    Ok(())
}
