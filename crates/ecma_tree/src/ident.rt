//! Identifiers as nodes, and as values of their own.
ghost use Rattle.std.specs.Prelude.{◌≡◌, IfOk};
ghost use Rattle.ecma_tree.specs.Idents.{ident_node, ident_of};

use crate::node::Node;
use ecma_kind::{Ident, Kind, NoMemory};
use std::alloc::Global;

impl Node {
    /// The node of the kind [`Kind::Ident`] that an identifier is. It takes no memory.
    pub fn of_ident(alloc: Global, ident: Ident) -> Node
        ensures { result ≡ ident_node ident }
    {
        let kind = Kind::Ident {
            sym: ident.sym,
            ctxt: ident.ctxt,
            optional: ident.optional,
        };
        Node::leaf(alloc, ident.span, kind)
    }

    /// The identifier that the node is, as a value of its own; `None` exactly where the node is of another kind.
    /// Its only refusal is want of memory.
    pub fn to_ident(&self) -> Result<Option<Ident>, NoMemory>
        ensures { IfOk result (λ ident. ident ≡ ident_of self.now) }
    {
        match &self.kind {
            Kind::Ident {
                sym,
                ctxt,
                optional,
            } => Ok(Some(Ident {
                span: self.span,
                ctxt: *ctxt,
                sym: sym.clone()?,
                optional: *optional,
            })),
            _ => Ok(None),
        }
    }

    /// The identifier that the node is, taken out of it; `None` exactly where the node is of another kind.
    pub fn into_ident(self) -> Option<Ident>
        ensures { result ≡ ident_of self }
    {
        let Node { span, kind, .. } = self;
        match kind {
            Kind::Ident {
                sym,
                ctxt,
                optional,
            } => Some(Ident {
                span,
                ctxt,
                sym,
                optional,
            }),
            _ => None,
        }
    }
}
