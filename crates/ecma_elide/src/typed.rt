//! Where names of types are declared.
ghost use Rattle.std.specs.Prelude.{◌≡◌};
ghost use Rattle.ecma_tree.specs.declared.node.Node.{out-Node};
ghost use Rattle.ecma_tree.specs.Values.{is_value};
ghost use Rattle.ecma_elide.specs.DeclaredNames.{in_imports, in_type_imports, in_types, is_name, look_at, type_in};

use ecma_tree::{Kind, Node, is_value};

/// Which names of types are looked for in a node.
#[derive(Clone, Copy, Debug)]
pub enum Typed {
    /// Those of items of a module.
    Items,
    /// Those of an import that are written `type`.
    Imports,
    /// All those of an import.
    TypeImports,
    /// The identifier itself.
    Name,
}

fn look_at(wanted: usize, index: usize, typed: Typed) -> Option<Typed>
    ensures { result ≡ look_at wanted index typed }
{
    if index == wanted { Some(typed) } else { None }
}

#[tactic(auto, unfolding(crate::specs::DeclaredNames::in_types))]
fn in_types(node: &Node, index: usize) -> Option<Typed>
    ensures { result ≡ in_types (is_value node.now) (out-Node node.now).kind index }
{
    match &node.kind {
        Kind::Module { .. } => Some(Typed::Items),
        Kind::List => Some(Typed::Items),
        Kind::ExportDecl => Some(Typed::Items),
        Kind::ExportDefaultDecl => Some(Typed::Items),
        Kind::TsInterfaceDecl { .. } => look_at(0, index, Typed::Name),
        Kind::TsTypeAliasDecl { .. } => look_at(0, index, Typed::Name),
        Kind::TsModuleDecl { global: false, .. } => {
            if is_value(node) {
                None
            } else {
                look_at(0, index, Typed::Name)
            }
        }
        Kind::TsImportEqualsDecl {
            is_type_only: true,
            ..
        } => look_at(0, index, Typed::Name),
        Kind::ImportDecl { type_only: true } => look_at(0, index, Typed::TypeImports),
        Kind::ImportDecl { type_only: false } => look_at(0, index, Typed::Imports),
        _ => None,
    }
}

#[tactic(auto, unfolding(crate::specs::DeclaredNames::in_imports))]
fn in_imports(kind: &Kind, index: usize) -> Option<Typed>
    ensures { result ≡ in_imports kind.now index }
{
    match kind {
        Kind::List => Some(Typed::Imports),
        Kind::ImportNamedSpecifier { is_type_only: true } => look_at(0, index, Typed::Name),
        _ => None,
    }
}

#[tactic(auto, unfolding(crate::specs::DeclaredNames::in_type_imports))]
fn in_type_imports(kind: &Kind, index: usize) -> Option<Typed>
    ensures { result ≡ in_type_imports kind.now index }
{
    match kind {
        Kind::List => Some(Typed::TypeImports),
        Kind::ImportNamedSpecifier { .. } => look_at(0, index, Typed::Name),
        Kind::ImportDefaultSpecifier => look_at(0, index, Typed::Name),
        Kind::ImportStarAsSpecifier => look_at(0, index, Typed::Name),
        _ => None,
    }
}

/// What is looked for in the child at an index.
pub(crate) fn type_in(typed: Typed, node: &Node, index: usize) -> Option<Typed>
    ensures { result ≡ type_in typed node.now index }
{
    match typed {
        Typed::Items => in_types(node, index),
        Typed::Imports => in_imports(&node.kind, index),
        Typed::TypeImports => in_type_imports(&node.kind, index),
        Typed::Name => None,
    }
}

pub(crate) fn is_name(typed: Typed) -> bool
    ensures { result ≡ is_name typed }
{
    matches!(typed, Typed::Name)
}
