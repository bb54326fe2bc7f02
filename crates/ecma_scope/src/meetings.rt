//! Where the declarations stand that have met in a scope, by their texts.
ghost use Rattle.std.specs.Prelude.{◌≡◌, List, ℕ, OnOk, Some};
ghost use Rattle.ecma_scope.specs.Conflicts.{is_catch, is_lexical, is_parameter, is_var};
ghost use Rattle.ecma_scope.specs.Meetings.{hit, lesser, meets, met_in, nothing_met, only, with_form};

use crate::conflicts::{is_catch, is_lexical, is_parameter, is_var};
use crate::form::{Form, Located};
use crate::role::Role;
use ecma_tree::{JsWord, NoMemory};
use std::alloc::Global;
use std::collections::HashMap;

/// Where the first declaration of one text stands, of each sort: a byte offset from 0 on.
#[derive(Clone, Copy)]
pub(crate) struct Met {
    any: Option<u32>,
    lexical: Option<u32>,
    parameter: Option<u32>,
    caught: Option<u32>,
    var: Option<u32>,
}

const NOTHING_MET: Met = Met {
    any: None,
    lexical: None,
    parameter: None,
    caught: None,
    var: None,
};

/// For each text, where the first declarations of it stand.
#[derive(Drop)]
pub(crate) struct Meetings {
    met: HashMap<JsWord, Met>,
}

/// Of no declarations.
pub(crate) fn no_meetings(alloc: Global) -> Meetings
    ensures { (text : List ℕ) → met_in result text ≡ nothing_met }
{
    Meetings {
        met: HashMap::new(alloc),
    }
}

/// What there is of a text.
pub(crate) fn met_in(meetings: &Meetings, text: &JsWord) -> Met
    ensures { result ≡ met_in meetings.now text.now }
{
    meetings.met.get(text).copied().unwrap_or(NOTHING_MET)
}

/// Of two offsets, where there are any, the less.
pub(crate) fn lesser(a: Option<u32>, b: Option<u32>) -> Option<u32>
    ensures { result ≡ lesser a b }
{
    let Some(first) = a else {
        return b;
    };
    let Some(second) = b else {
        return a;
    };
    Some(first.min(second))
}

/// An offset under a condition.
pub(crate) fn only(holds: bool, at: Option<u32>) -> Option<u32>
    ensures { result ≡ only holds at }
{
    if holds { at } else { None }
}

fn with_form(role: Role, met: Met, form: Form, at: u32) -> Met
    ensures { result ≡ with_form role met form at }
{
    let here = Some(at);
    Met {
        any: lesser(met.any, here),
        lexical: lesser(met.lexical, only(is_lexical(role, form), here)),
        parameter: lesser(met.parameter, only(is_parameter(form), here)),
        caught: lesser(met.caught, only(is_catch(form), here)),
        var: lesser(met.var, only(is_var(form), here)),
    }
}

/// Where the first of those that were met stands that conflicts with a declaration.
pub(crate) fn hit(role: Role, met: Met, form: Form) -> Option<u32>
    ensures { result ≡ hit role met form }
{
    let lexical = lesser(met.lexical, only(is_lexical(role, form), met.any));
    let parameter = only(is_parameter(form), met.parameter);
    let caught = only(is_var(form), met.caught);
    let var = only(is_catch(form), met.var);
    lesser(lexical, lesser(parameter, lesser(caught, var)))
}

/// Adds a declaration, of whose text this was there.
pub(crate) fn meet(role: Role, meetings: &mut Meetings, name: &Located) -> Result<(), NoMemory>
    ensures { OnOk result ((text : List ℕ) → met_in meetings.new text ≡ meets role (met_in meetings.old) name.now text) }
{
    let declaration = &name.declaration;
    let met = with_form(
        role,
        met_in(meetings, &declaration.sym),
        declaration.form,
        name.at,
    );
    meetings.met.insert(declaration.sym.clone()?, met)?;
    Ok(())
}
