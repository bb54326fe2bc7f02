//! What a session keeps of the helpers: of each the context of its name, and whether it is used.
ghost use Rattle.std.specs.Prelude.{◌≡◌, ◌+◌, None, Err, IfOk, IfSome, IsErr, OnErr, OnOk, ◌↔◌};
ghost use Rattle.ecma_kind.specs.Sessions.{HasGiven, drawn};
ghost use Rattle.ecma_kind.specs.declared.error.PassError.TheVariants as pass_error;
ghost use Rattle.ecma_helpers.specs.Names.{name_of_helper};
ghost use Rattle.ecma_helpers.specs.Slots.{context_of, draws_for, kept_of, with_all_unused, with_unused, with_used};

use crate::name::{HelperName, slot_of, text_of};
use ecma_tree::{
    DUMMY_SP, Expr, Ident, JsWord, NoMemory, Node, PassError, Session, Spent, SyntaxContext,
};
use ecma_utils::Callee;
use std::alloc::Global;

/// What a session keeps of a helper, if it was ever used: the context of its name, and whether it is used.
#[tactic(auto, using(std::proofs::lemmas::Option::get_or_from_slice_get))]
pub fn kept_of(session: &Session, name: HelperName) -> Option<(SyntaxContext, bool)>
    ensures kept { result ≡ kept_of name session.now }
    ensures given { IfSome result (λ kept. HasGiven session.now kept.0) }
{
    session.slot(slot_of(name))
}

/// A context that the session gives the mark of.
fn draw(session: &mut Session) -> Result<SyntaxContext, Spent>
    ensures ctxt { IfOk result (λ ctxt. ctxt ≡ session.old.left) }
    ensures given { IfOk result (λ ctxt. HasGiven session.new ctxt) }
    ensures session { OnOk result (session.new ≡ drawn session.old) }
    ensures left { OnOk result (session.new.left + 1 ≡ session.old.left) }
    ensures spent { OnErr result ((session.old.left ≡ 0) × (session.new ≡ session.old)) }
{
    if session.left() == 0 {
        return Err(Spent);
    }
    let mark = session.fresh_mark()?;
    Ok(SyntaxContext::empty().apply_mark(mark))
}

/// Makes a helper used, and gives the context of its name, which is drawn where it has none yet. `Spent` comes exactly where one has to be drawn and none is left;
/// the session is then as it was.
pub fn use_helper(session: &mut Session, name: HelperName) -> Result<SyntaxContext, Spent>
    ensures ctxt { IfOk result (λ ctxt. ctxt ≡ context_of name session.old) }
    ensures session { OnOk result (session.new ≡ with_used name session.old) }
    ensures left { OnOk result (session.new.left + draws_for name session.old ≡ session.old.left) }
    ensures spent { IsErr result ↔ ((session.old.left ≡ 0) × (kept_of name session.old ≡ None)) }
    ensures refused { OnErr result (session.new ≡ session.old) }
{
    let ctxt = match kept_of(session, name) {
        Some((ctxt, _)) => ctxt,
        None => draw(session)?,
    };
    session.set_slot(slot_of(name), ctxt, true);
    Ok(ctxt)
}

/// The name of a helper in this context, as an expression.
pub fn helper_name(alloc: Global, name: HelperName, ctxt: SyntaxContext) -> Result<Expr, NoMemory>
    ensures { IfOk result (λ node. node ≡ name_of_helper name ctxt) }
{
    ecma_utils::name_of_text(alloc, ctxt, DUMMY_SP, text_of(name))
}

/// The name of a helper, to be called. The session keeps that it is used, and draws a context for it where it has none yet. `Spent` comes only where one has to
/// be drawn and none is left. After a refusal the session is as it was.
pub fn helper(alloc: Global, session: &mut Session, name: HelperName) -> Result<Callee, PassError>
    ensures callee { IfOk result (λ callee. callee.node ≡ name_of_helper name (context_of name session.old)) }
    ensures session { OnOk result (session.new ≡ with_used name session.old) }
    ensures left { OnOk result (session.new.left + draws_for name session.old ≡ session.old.left) }
    ensures spent { result ≡ Err pass_error.Spent → (session.old.left ≡ 0) × (kept_of name session.old ≡ None) }
    ensures refused { OnErr result (session.new ≡ session.old) }
{
    let sym = JsWord::new(alloc, text_of(name))?;
    let ctxt = use_helper(session, name)?;
    let ident = Ident {
        span: DUMMY_SP,
        ctxt,
        sym,
        optional: false,
    };
    Ok(Callee {
        node: Node::of_ident(alloc, ident),
    })
}

/// Makes a helper not used. The session keeps its context.
fn set_unused(session: &mut Session, name: HelperName)
    ensures { session.new ≡ with_unused name session.old }
{
    if let Some((ctxt, _)) = kept_of(session, name) {
        session.set_slot(slot_of(name), ctxt, false);
    }
}

/// Makes all helpers not used. The session keeps their contexts.
pub fn set_helpers_unused(session: &mut Session)
    ensures { session.new ≡ with_all_unused session.old }
{
    set_unused(session, HelperName::Get);
    set_unused(session, HelperName::GetPrototypeOf);
    set_unused(session, HelperName::Set);
    set_unused(session, HelperName::Update);
    set_unused(session, HelperName::AssertThisInitialized);
}
