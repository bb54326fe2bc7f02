//! Wrappers of functions, and what is made of them.
ghost use Rattle.std.specs.Prelude.{◌≡◌, ◌+◌, ◌<◌, Err, IfOk, None, OnOk};
ghost use Rattle.ecma_kind.specs.declared.error.PassError.TheVariants as pass_error;
ghost use Rattle.ecma_scope.specs.Drawing.{HasGivenAtMost};
ghost use Rattle.ecma_function_wrappers.specs.Counting.{counted_draws};
ghost use Rattle.ecma_function_wrappers.specs.Parts.{child_of, function_of_arrow, params_of};
ghost use Rattle.ecma_function_wrappers.specs.Wrapping.{has_params, is_wrapped, is_wrapped_for_length, is_wrapped_for_name, name_fn_of_decl, name_fn_of_expr, nameless, ref_fn_of, wrapped, wrapped_as, wrapped_draws, wrapper_of, wrapper_of_named};

use crate::counting::counted;
use crate::parts::{first_two, function_of_arrow, params_of};
use crate::written::{
    anonymous, forward_decl, forward_expr, ref_function, ref_ident, with_own_name,
};
use ecma_function_parts::draw_if;
use ecma_tree::{
    Expr, Function, Ident, NoMemory, Node, Nodes, PassError, Session, Stmt, SyntaxContext,
};
use ecma_utils::FunctionFactory;
use std::alloc::Global;

/// A function that is to be called by another in its place. The other takes over its name, and as many parameters as count in its length.
#[derive(Drop)]
pub struct FunctionWrapper {
    /// The name that the function gets where it stands, if it has none of its own.
    pub binding_ident: Option<Ident>,
    /// The function, as an expression without a name.
    pub function: Expr,
    /// Whether a function that only gets a name is not wrapped for it.
    pub ignore_function_name: bool,
    /// Whether a function is not wrapped for its length.
    pub ignore_function_length: bool,
    pub(crate) function_ident: Option<Ident>,
    pub(crate) params: Nodes,
}

/// A function that stands for another, and the one that it calls.
#[derive(Drop)]
pub struct FnWrapperResult {
    /// What stands in the place of the function.
    pub name_fn: Node,
    /// What it calls: it becomes the function when it is first called.
    pub ref_fn: Stmt,
}

/// The wrapper of a function that has this name.
fn wrapper_of(
    alloc: Global,
    session: &mut Session,
    name: Option<Ident>,
    function: Function,
) -> Result<FunctionWrapper, PassError>
    ensures wrapper { IfOk result (λ wrapper. wrapper ≡ wrapper_of name function session.old.left) }
    ensures left { OnOk result (session.new.left + counted_draws (params_of function) ≡ session.old.left) }
    ensures spent { result ≡ Err pass_error.Spent → session.old.left < counted_draws (params_of function) }
    ensures session { HasGivenAtMost (counted_draws (params_of function)) session.old session.new }
{
    let params = counted(alloc, session, params_of(&function))?;
    Ok(FunctionWrapper {
        binding_ident: None,
        function: function.into_fn_expr(alloc, None)?,
        ignore_function_name: false,
        ignore_function_length: false,
        function_ident: name,
        params,
    })
}

/// The wrapper of a named function, as an expression or a declaration.
fn wrapper_of_named(
    alloc: Global,
    session: &mut Session,
    node: Node,
) -> Result<FunctionWrapper, PassError>
    ensures wrapper { IfOk result (λ wrapper. wrapper ≡ wrapper_of_named node session.old.left) }
    ensures left { OnOk result (session.new.left + counted_draws (params_of (child_of node 1)) ≡ session.old.left) }
    ensures spent { result ≡ Err pass_error.Spent → session.old.left < counted_draws (params_of (child_of node 1)) }
    ensures session { HasGivenAtMost (counted_draws (params_of (child_of node 1))) session.old session.new }
{
    let (name, function) = first_two(alloc, node);
    wrapper_of(alloc, session, name.into_ident(), function)
}

fn has_params(params: &Nodes) -> bool
    ensures { result ≡ has_params params.now }
{
    !params.is_empty()
}

fn is_wrapped_for_name(wrapper: &FunctionWrapper) -> bool
    ensures { result ≡ is_wrapped_for_name wrapper.now }
{
    !wrapper.ignore_function_name && wrapper.binding_ident.is_some()
}

fn is_wrapped_for_length(wrapper: &FunctionWrapper) -> bool
    ensures { result ≡ is_wrapped_for_length wrapper.now }
{
    !wrapper.ignore_function_length && has_params(&wrapper.params)
}

/// Whether a function without a name of its own is wrapped.
fn is_wrapped(wrapper: &FunctionWrapper) -> bool
    ensures { result ≡ is_wrapped wrapper.now }
{
    is_wrapped_for_name(wrapper) || is_wrapped_for_length(wrapper)
}

fn nameless(
    alloc: Global,
    function: Expr,
    params: Nodes,
    binding: Option<Ident>,
    is_wrapped: bool,
    ctxt: SyntaxContext,
) -> Result<Expr, NoMemory>
    ensures { IfOk result (λ node. node ≡ nameless function params binding is_wrapped ctxt) }
{
    if is_wrapped {
        anonymous(alloc, function, params, binding, ctxt)
    } else {
        Ok(function)
    }
}

/// What stands for a function, which without a name of its own is wrapped or not.
fn wrapped_as(
    alloc: Global,
    function: Expr,
    params: Nodes,
    name: Option<Ident>,
    binding: Option<Ident>,
    is_wrapped: bool,
    ctxt: SyntaxContext,
) -> Result<Expr, NoMemory>
    ensures { IfOk result (λ node. node ≡ wrapped_as function params name binding is_wrapped ctxt) }
{
    match name {
        Some(name) => with_own_name(alloc, function, params, name, ctxt),
        None => nameless(alloc, function, params, binding, is_wrapped, ctxt),
    }
}

fn wrapped_by(
    alloc: Global,
    wrapper: FunctionWrapper,
    is_wrapped: bool,
    ctxt: SyntaxContext,
) -> Result<Expr, NoMemory>
    ensures { IfOk result (λ node. node ≡ wrapped_as wrapper.function wrapper.params wrapper.function_ident wrapper.binding_ident is_wrapped ctxt) }
{
    let FunctionWrapper {
        binding_ident,
        function,
        function_ident,
        params,
        ..
    } = wrapper;
    wrapped_as(
        alloc,
        function,
        params,
        function_ident,
        binding_ident,
        is_wrapped,
        ctxt,
    )
}

impl FunctionWrapper {
    /// The wrapper of a function expression.
    pub fn from_fn_expr(
        alloc: Global,
        session: &mut Session,
        fn_expr: Expr,
    ) -> Result<FunctionWrapper, PassError>
        ensures wrapper { IfOk result (λ wrapper. wrapper ≡ wrapper_of_named fn_expr session.old.left) }
        ensures left { OnOk result (session.new.left + counted_draws (params_of (child_of fn_expr 1)) ≡ session.old.left) }
        ensures spent { result ≡ Err pass_error.Spent → session.old.left < counted_draws (params_of (child_of fn_expr 1)) }
        ensures session { HasGivenAtMost (counted_draws (params_of (child_of fn_expr 1))) session.old session.new }
    {
        wrapper_of_named(alloc, session, fn_expr)
    }

    /// The wrapper of a function declaration.
    pub fn from_fn_decl(
        alloc: Global,
        session: &mut Session,
        fn_decl: Stmt,
    ) -> Result<FunctionWrapper, PassError>
        ensures wrapper { IfOk result (λ wrapper. wrapper ≡ wrapper_of_named fn_decl session.old.left) }
        ensures left { OnOk result (session.new.left + counted_draws (params_of (child_of fn_decl 1)) ≡ session.old.left) }
        ensures spent { result ≡ Err pass_error.Spent → session.old.left < counted_draws (params_of (child_of fn_decl 1)) }
        ensures session { HasGivenAtMost (counted_draws (params_of (child_of fn_decl 1))) session.old session.new }
    {
        wrapper_of_named(alloc, session, fn_decl)
    }

    /// The wrapper of an arrow function, which becomes a function.
    pub fn from_arrow(
        alloc: Global,
        session: &mut Session,
        arrow: Expr,
    ) -> Result<FunctionWrapper, PassError>
        ensures wrapper { IfOk result (λ wrapper. wrapper ≡ wrapper_of None (function_of_arrow arrow) session.old.left) }
        ensures left { OnOk result (session.new.left + counted_draws (params_of (function_of_arrow arrow)) ≡ session.old.left) }
        ensures spent { result ≡ Err pass_error.Spent → session.old.left < counted_draws (params_of (function_of_arrow arrow)) }
        ensures session { HasGivenAtMost (counted_draws (params_of (function_of_arrow arrow))) session.old session.new }
    {
        let function = function_of_arrow(alloc, arrow)?;
        wrapper_of(alloc, session, None, function)
    }

    /// The expression that stands for the function. A function with a name is called by one of the same name; one without, where it gets a name or where its
    /// parameters count, by one with that name and those parameters; any other stands for itself.
    pub fn into_expr(self, alloc: Global, session: &mut Session) -> Result<Expr, PassError>
        ensures node { IfOk result (λ node. node ≡ wrapped self session.old.left) }
        ensures left { OnOk result (session.new.left + wrapped_draws self ≡ session.old.left) }
        ensures spent { result ≡ Err pass_error.Spent → session.old.left < wrapped_draws self }
        ensures session { HasGivenAtMost (wrapped_draws self) session.old session.new }
    {
        let is_wrapped = is_wrapped(&self);
        let ctxt = draw_if(session, self.function_ident.is_some() || is_wrapped)?;
        Ok(wrapped_by(alloc, self, is_wrapped, ctxt)?)
    }
}

fn result_of_expr(
    alloc: Global,
    wrapper: FunctionWrapper,
    ctxt: SyntaxContext,
) -> Result<FnWrapperResult, NoMemory>
    ensures name_fn { IfOk result (λ two. two.name_fn ≡ name_fn_of_expr wrapper ctxt) }
    ensures ref_fn { IfOk result (λ two. two.ref_fn ≡ ref_fn_of wrapper ctxt) }
{
    let FunctionWrapper {
        binding_ident,
        function,
        function_ident,
        params,
        ..
    } = wrapper;
    let reference = ref_ident(alloc, &function_ident, ctxt)?;
    let name = function_ident.or(binding_ident);
    let name_fn = forward_expr(alloc, params, &reference, name)?;
    let ref_fn = ref_function(alloc, reference, function)?;
    Ok(FnWrapperResult { name_fn, ref_fn })
}

fn result_of_decl(
    alloc: Global,
    wrapper: FunctionWrapper,
    ctxt: SyntaxContext,
) -> Result<FnWrapperResult, NoMemory>
    ensures name_fn { IfOk result (λ two. two.name_fn ≡ name_fn_of_decl wrapper ctxt) }
    ensures ref_fn { IfOk result (λ two. two.ref_fn ≡ ref_fn_of wrapper ctxt) }
{
    let FunctionWrapper {
        function,
        function_ident,
        params,
        ..
    } = wrapper;
    let reference = ref_ident(alloc, &function_ident, ctxt)?;
    let name_fn = forward_decl(alloc, params, &reference, function_ident)?;
    let ref_fn = ref_function(alloc, reference, function)?;
    Ok(FnWrapperResult { name_fn, ref_fn })
}

impl FnWrapperResult {
    /// The two functions for an expression. The first has the function's name, or else the one that it gets where it stands, if there is one.
    pub fn from_expr(
        alloc: Global,
        session: &mut Session,
        wrapper: FunctionWrapper,
    ) -> Result<FnWrapperResult, PassError>
        ensures name_fn { IfOk result (λ two. two.name_fn ≡ name_fn_of_expr wrapper session.old.left) }
        ensures ref_fn { IfOk result (λ two. two.ref_fn ≡ ref_fn_of wrapper session.old.left) }
        ensures left { OnOk result (session.new.left + 1 ≡ session.old.left) }
        ensures spent { result ≡ Err pass_error.Spent → session.old.left < 1 }
        ensures session { HasGivenAtMost 1 session.old session.new }
    {
        let ctxt = draw_if(session, true)?;
        Ok(result_of_expr(alloc, wrapper, ctxt)?)
    }

    /// The two functions for a declaration.
    pub fn from_decl(
        alloc: Global,
        session: &mut Session,
        wrapper: FunctionWrapper,
    ) -> Result<FnWrapperResult, PassError>
        ensures name_fn { IfOk result (λ two. two.name_fn ≡ name_fn_of_decl wrapper session.old.left) }
        ensures ref_fn { IfOk result (λ two. two.ref_fn ≡ ref_fn_of wrapper session.old.left) }
        ensures left { OnOk result (session.new.left + 1 ≡ session.old.left) }
        ensures spent { result ≡ Err pass_error.Spent → session.old.left < 1 }
        ensures session { HasGivenAtMost 1 session.old session.new }
    {
        let ctxt = draw_if(session, true)?;
        Ok(result_of_decl(alloc, wrapper, ctxt)?)
    }
}
