//! Where the names of exports stand, and where identifiers do that stay in the output.
ghost use Rattle.std.specs.Prelude.{◌≡◌, not};
ghost use Rattle.ecma_tree.specs.declared.node.Node.{out-Node};
ghost use Rattle.ecma_exports.specs.Places.{goes_at, in_declarations, in_exported, in_lists, in_names, in_specifiers, into, look_at, place_in};

use ecma_rules::has_child;
use ecma_strip::stays;
use ecma_tree::{Kind, Node};

/// What is looked for in a node.
#[derive(Clone, Copy, Debug)]
pub enum Place {
    /// Declarations behind `export`, in the module or in its list of items.
    Declarations,
    /// The names of such a declaration.
    Exported,
    /// The names of a pattern in it, or the name itself.
    Names,
    /// Exports in braces, in the module or in its list of items.
    Lists,
    /// The local names of specifiers of one.
    Specifiers,
    /// Such a name.
    Local,
    /// Identifiers, at the node itself or below it.
    Anywhere,
}

fn look_at(wanted: usize, index: usize, place: Place) -> Option<Place>
    ensures { result ≡ look_at wanted index place }
{
    if index == wanted { Some(place) } else { None }
}

#[tactic(auto, unfolding(crate::specs::Places::in_declarations))]
fn in_declarations(kind: &Kind) -> Option<Place>
    ensures { result ≡ in_declarations kind.now }
{
    match kind {
        Kind::Module { .. } => Some(Place::Declarations),
        Kind::List => Some(Place::Declarations),
        Kind::ExportDecl => Some(Place::Exported),
        _ => None,
    }
}

#[tactic(auto, unfolding(crate::specs::Places::in_exported))]
fn in_exported(kind: &Kind, index: usize) -> Option<Place>
    ensures { result ≡ in_exported kind.now index }
{
    match kind {
        Kind::VarDecl { .. } => Some(Place::Names),
        Kind::FnDecl { .. } => look_at(0, index, Place::Names),
        Kind::ClassDecl { .. } => look_at(0, index, Place::Names),
        Kind::TsEnumDecl { .. } => look_at(0, index, Place::Names),
        Kind::TsModuleDecl { global: false, .. } => look_at(0, index, Place::Names),
        _ => None,
    }
}

#[tactic(auto, unfolding(crate::specs::Places::in_names))]
fn in_names(kind: &Kind, index: usize) -> Option<Place>
    ensures { result ≡ in_names kind.now index }
{
    match kind {
        Kind::List => Some(Place::Names),
        Kind::BindingIdent => look_at(0, index, Place::Names),
        Kind::VarDeclarator { .. } => look_at(0, index, Place::Names),
        Kind::ArrayPat { .. } => look_at(0, index, Place::Names),
        Kind::ObjectPat { .. } => look_at(0, index, Place::Names),
        Kind::RestPat => look_at(0, index, Place::Names),
        Kind::AssignPat => look_at(0, index, Place::Names),
        Kind::AssignPatProp => look_at(0, index, Place::Names),
        Kind::KeyValuePatProp => look_at(1, index, Place::Names),
        _ => None,
    }
}

#[tactic(auto, unfolding(crate::specs::Places::in_lists))]
fn in_lists(kind: &Kind, sourced: bool, index: usize) -> Option<Place>
    ensures { result ≡ in_lists kind.now sourced index }
{
    match kind {
        Kind::Module { .. } => Some(Place::Lists),
        Kind::List => Some(Place::Lists),
        Kind::NamedExport { type_only: false } => {
            if sourced {
                None
            } else {
                look_at(0, index, Place::Specifiers)
            }
        }
        _ => None,
    }
}

#[tactic(auto, unfolding(crate::specs::Places::in_specifiers))]
fn in_specifiers(kind: &Kind, index: usize) -> Option<Place>
    ensures { result ≡ in_specifiers kind.now index }
{
    match kind {
        Kind::List => Some(Place::Specifiers),
        Kind::ExportNamedSpecifier {
            is_type_only: false,
        } => look_at(0, index, Place::Local),
        _ => None,
    }
}

fn into(place: Place, kind: &Kind, sourced: bool, index: usize) -> Option<Place>
    ensures { result ≡ into place kind.now sourced index }
{
    match place {
        Place::Declarations => in_declarations(kind),
        Place::Exported => in_exported(kind, index),
        Place::Names => in_names(kind, index),
        Place::Lists => in_lists(kind, sourced, index),
        Place::Specifiers => in_specifiers(kind, index),
        Place::Local => None,
        Place::Anywhere => Some(Place::Anywhere),
    }
}

/// Whether the child at an index is an item that goes from its list when the types go.
fn goes_at(node: &Node, index: usize) -> bool
    ensures { result ≡ goes_at node.now index }
{
    if !matches!(node.kind, Kind::List) {
        return false;
    }
    match node.children.get(index) {
        Some(item) => !stays(item),
        None => false,
    }
}

/// What is looked for in the child at an index.
pub(crate) fn place_in(place: Place, node: &Node, index: usize) -> Option<Place>
    ensures { result ≡ place_in place node.now index }
{
    if goes_at(node, index) {
        return None;
    }
    into(place, &node.kind, has_child(node, 1), index)
}
