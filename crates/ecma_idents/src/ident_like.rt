//! What names a variable.
ghost use Rattle.std.specs.Prelude.{◌≡◌, ◌<◌, Bool, true, IfOk, IsTrue, Some, length, slice_get};
ghost use Rattle.std.specs.Option.{option_copied};
ghost use Rattle.ecma_kind.specs.declared.ident.Ident.{Ident};
ghost use Rattle.ecma_tree.specs.declared.node.Node.{out-Node};
ghost use Rattle.ecma_idents.specs.Identities.{Id, IdsComeBack, binding_of, has_name, ident_id, name_node, node_id, plain_ident, text_id};

use ecma_tree::{Id, Ident, JsWord, Kind, NoMemory, Node, SyntaxContext};
use std::alloc::Global;

/// What names a variable, or stands for such a name.
pub trait IdentLike: Sized {
    /// Whether a value has a name, without which it has no id.
    ghost has_name: { Self → Bool };

    /// Its id: a text and a context.
    ghost id_of: { Self → Id };

    /// The value that an identifier is.
    ghost of_ident: { Ident → Self };

    /// The value that an identifier is. Its only refusal is want of memory.
    fn from_ident(alloc: Global, ident: &Ident) -> Result<Self, NoMemory>
        ensures { IfOk result (λ value. value ≡ of_ident ident.now) };

    /// The id of a value that has a name. Its only refusal is want of memory.
    fn to_id(&self) -> Result<Id, NoMemory>
        requires { IsTrue (has_name self.now) }
        ensures { IfOk result (λ id. id ≡ id_of self.now) };

    /// The same, of a value that is not needed any more. It takes no memory.
    fn into_id(self) -> Id
        requires { IsTrue (has_name self) }
        ensures { result ≡ id_of self };
}

/// A text stands for the identifier in the empty context.
impl IdentLike for JsWord {
    ghost has_name = { λ _. true };

    ghost id_of = { text_id };

    ghost of_ident = { λ ident. ident.sym };

    fn from_ident(_alloc: Global, ident: &Ident) -> Result<JsWord, NoMemory> {
        Ok(ident.sym.clone()?)
    }

    fn to_id(&self) -> Result<Id, NoMemory> {
        Ok((self.clone()?, SyntaxContext::empty()))
    }

    fn into_id(self) -> Id {
        (self, SyntaxContext::empty())
    }
}

impl IdentLike for Id {
    ghost has_name = { λ _. true };

    ghost id_of = { λ id. id };

    ghost of_ident = { ident_id };

    fn from_ident(_alloc: Global, ident: &Ident) -> Result<Id, NoMemory> {
        Ok((ident.sym.clone()?, ident.ctxt))
    }

    fn to_id(&self) -> Result<Id, NoMemory> {
        Ok((self.0.clone()?, self.1))
    }

    fn into_id(self) -> Id {
        self
    }
}

/// An identifier, which is made without the `?` behind it.
impl IdentLike for Ident {
    ghost has_name = { λ _. true };

    ghost id_of = { ident_id };

    ghost of_ident = { plain_ident };

    fn from_ident(_alloc: Global, ident: &Ident) -> Result<Ident, NoMemory> {
        Ok(Ident {
            span: ident.span,
            ctxt: ident.ctxt,
            sym: ident.sym.clone()?,
            optional: false,
        })
    }

    fn to_id(&self) -> Result<Id, NoMemory> {
        id(self)
    }

    fn into_id(self) -> Id {
        let Ident { ctxt, sym, .. } = self;
        (sym, ctxt)
    }
}

fn name_node(node: &Node) -> Option<&Node>
    ensures { option_copied result ≡ name_node node.now }
{
    match &node.kind {
        Kind::BindingIdent => node.children.get(0),
        _ => Some(node),
    }
}

/// The first child of a node.
fn into_first(node: Node) -> Node
    requires { 0 < length (out-Node node).children }
    ensures { slice_get (out-Node node).children 0 ≡ Some result }
{
    let Node { children, .. } = node;
    let mut children = children.into_vec();
    children.swap_remove(0)
}

#[tactic(auto, using(crate::proofs::Naming::named_first))]
fn into_name_node(node: Node) -> Node
    requires { IsTrue (has_name node) }
    ensures { name_node node ≡ Some result }
{
    match &node.kind {
        Kind::BindingIdent => into_first(node),
        _ => node,
    }
}

/// A declared name, or the node of an identifier; no other node has a name. Of an identifier a declared name is made, without a type.
impl IdentLike for Node {
    ghost has_name = { has_name };

    ghost id_of = { node_id };

    ghost of_ident = { binding_of };

    fn from_ident(alloc: Global, ident: &Ident) -> Result<Node, NoMemory> {
        let name = Node::of_ident(alloc, ident.clone()?);
        Node::binding_ident(alloc, ident.span, name, None)
    }

    fn to_id(&self) -> Result<Id, NoMemory> {
        let Some(name) = name_node(self) else {
            unreachable!()
        };
        match &name.kind {
            Kind::Ident { sym, ctxt, .. } => Ok((sym.clone()?, *ctxt)),
            _ => unreachable!(),
        }
    }

    fn into_id(self) -> Id {
        let name = into_name_node(self);
        let Node { kind, .. } = name;
        match kind {
            Kind::Ident { sym, ctxt, .. } => (sym, ctxt),
            _ => unreachable!(),
        }
    }
}

/// The id of an identifier. Its only refusal is want of memory.
pub fn id(ident: &Ident) -> Result<Id, NoMemory>
    ensures { IfOk result (λ id. id ≡ ident_id ident.now) }
{
    Ok((ident.sym.clone()?, ident.ctxt))
}

/// What is made of an identifier gives its id back; of a text alone, that of the empty context.
pub fn ids_come_back()
    ensures { IdsComeBack }
{}
