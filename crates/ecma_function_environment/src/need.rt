//! What a function needs of its surroundings: the names that stand for it.
ghost use Rattle.std.specs.Prelude.{◌≡◌, IfOk, string_bytes};
ghost use Rattle.ecma_tree.specs.Idents.{ident_node};
ghost use Rattle.ecma_function_environment.specs.Needs.{context_of, ident_of_need, name_of_need, stem_of, text_of_need};

use ecma_tree::{DUMMY_SP, Expr, Ident, JsWord, NoMemory, Node, SyntaxContext};
use indexmap::IndexMap;
use std::alloc::Global;

/// What is done with a member of `super`.
#[derive(Clone, Copy, Debug, PartialEq, Eq, Hash)]
pub enum Access {
    /// It is read.
    Get,
    /// It is assigned to by `=`.
    Set,
    /// It is any other target.
    Update,
}

/// What a function needs of its surroundings.
#[derive(Debug, Drop, PartialEq, Eq, Hash)]
pub enum Need {
    /// `this`
    This,
    /// `arguments`
    Arguments,
    /// `new.target`
    NewTarget,
    /// A member of `super`: that of a key, or those of keys in brackets.
    Super { access: Access, key: Option<JsWord> },
}

/// The names of what is needed, by their contexts, in the order of first use.
pub(crate) type Names = IndexMap<Need, SyntaxContext>;

/// The text of a name, as far as it says no key.
fn stem_of(need: &Need) -> &'static str
    ensures { result.now ≡ stem_of need.now }
{
    match need {
        Need::This => "_this",
        Need::Arguments => "_arguments",
        Need::NewTarget => "_newtarget",
        Need::Super { access, .. } => match access {
            Access::Get => "_superprop_get",
            Access::Set => "_superprop_set",
            Access::Update => "_superprop_update",
        },
    }
}

/// The text of a name.
fn text_of_need(alloc: Global, need: &Need) -> Result<String, NoMemory>
    ensures { IfOk result (λ text. string_bytes text ≡ text_of_need need.now) }
{
    let mut text = String::from_str(alloc, stem_of(need))?;
    if let Need::Super { key: Some(key), .. } = need {
        text.push_str("_")?;
        text.push_str(key.as_str())?;
    }
    Ok(text)
}

/// The name of a need in this context.
pub(crate) fn ident_of_need(
    alloc: Global,
    need: &Need,
    ctxt: SyntaxContext,
) -> Result<Ident, NoMemory>
    ensures { IfOk result (λ ident. ident ≡ ident_of_need need.now ctxt) }
{
    let text = text_of_need(alloc, need)?;
    ecma_utils::ident_of_text(alloc, ctxt, DUMMY_SP, text.as_str())
}

fn context_of(names: &Names, need: &Need) -> SyntaxContext
    ensures { result ≡ context_of names.now.entries need.now }
{
    match names.get(need) {
        Some(ctxt) => *ctxt,
        None => SyntaxContext::empty(),
    }
}

/// The name of a need, as an expression.
pub(crate) fn name_of_need(alloc: Global, names: &Names, need: &Need) -> Result<Expr, NoMemory>
    ensures { IfOk result (λ node. node ≡ name_of_need names.now.entries need.now) }
{
    let ident = ident_of_need(alloc, need, context_of(names, need))?;
    Ok(Node::of_ident(alloc, ident))
}

pub(crate) fn copy_of(key: &Option<JsWord>) -> Result<Option<JsWord>, NoMemory>
    ensures { IfOk result (λ copy. copy ≡ key.now) }
{
    match key {
        Some(key) => Ok(Some(key.clone()?)),
        None => Ok(None),
    }
}

pub(crate) fn copy_need(need: &Need) -> Result<Need, NoMemory>
    ensures { IfOk result (λ copy. copy ≡ need.now) }
{
    match need {
        Need::This => Ok(Need::This),
        Need::Arguments => Ok(Need::Arguments),
        Need::NewTarget => Ok(Need::NewTarget),
        Need::Super { access, key } => Ok(Need::Super {
            access: *access,
            key: copy_of(key)?,
        }),
    }
}
