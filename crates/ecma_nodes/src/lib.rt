//! Nodes as the forms of the grammar make them of what was read.
#![tactic(auto)]

ghost use Rattle.std.specs.Prelude.{◌≡◌, IfOk};
ghost use Rattle.ecma_grammar.specs.Made.{made_with_types};

mod parts;
mod plain;

use ecma_grammar::Form;
use ecma_nodes_classes::{
    class, field, index_signature, member, method, new_signature, type_signature,
};
pub use ecma_nodes_expressions::only;
use ecma_nodes_expressions::{
    assertion, chained, construction, elements, links, logical, sequence, swapped, template,
};
use ecma_nodes_functions::{
    annotated, arrow, declarator, function, getter, parameter, setter, yield_expr,
};
use ecma_nodes_statements::{declared, headed, import_equals, module_of, namespace};
use ecma_tree::{NoMemory, Node, Nodes, Span};
pub use parts::flag_node;
use plain::plain_kind;
use std::alloc::Global;

/// What a form makes of the nodes that were read, from a place to a place; types hold what was read in them.
pub fn made(alloc: Global, form: Form, lo: u32, hi: u32, items: Nodes) -> Result<Node, NoMemory>
    ensures { IfOk result (λ node. node ≡ made_with_types form lo hi items) }
{
    let span = Span { lo, hi };
    match form {
        Form::Node(plain) | Form::Bare(plain) | Form::First(plain) => {
            Ok(Node::new(span, plain_kind(plain), items))
        }
        Form::Swapped(plain) => Ok(Node::new(span, plain_kind(plain), swapped(items))),
        Form::List => Ok(Node::list(items)),
        Form::Elements => Ok(Node::list(elements(items))),
        Form::Sequence => Ok(sequence(alloc, span, items)),
        Form::Chain => Ok(chained(alloc, items)),
        Form::Links => links(alloc, items),
        Form::Logical => logical(alloc, items),
        Form::Template => template(alloc, span, items),
        Form::Arrow => arrow(alloc, span, items),
        Form::Yield => yield_expr(alloc, span, items),
        Form::New => construction(alloc, span, items),
        Form::Assertion => assertion(alloc, span, items),
        Form::Annotated => annotated(alloc, span, items),
        Form::Declarator => declarator(alloc, span, items),
        Form::Param => parameter(alloc, span, items),
        Form::Function(plain) => function(alloc, span, plain_kind(plain), items),
        Form::Getter => getter(alloc, span, items),
        Form::Setter => setter(alloc, span, items),
        Form::Class { plain, is_abstract } => {
            class(alloc, span, plain_kind(plain), is_abstract, items)
        }
        Form::Method(kind) => method(alloc, span, kind, items),
        Form::Field => field(alloc, span, items),
        Form::Modified => member(alloc, span, items),
        Form::IndexSignature => index_signature(alloc, span, items),
        Form::Signature(kind) => type_signature(alloc, span, kind, items),
        Form::NewSignature => new_signature(alloc, span, items),
        Form::Headed => headed(alloc, span, items),
        Form::Declared => Ok(declared(alloc, span, items)),
        Form::Namespace => namespace(alloc, span, items),
        Form::ImportEquals => import_equals(alloc, span, items),
        Form::Module => module_of(alloc, span, items),
    }
}
