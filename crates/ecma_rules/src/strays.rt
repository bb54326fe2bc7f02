//! What belongs to something around it.
ghost use Rattle.std.specs.Prelude.{◌≡◌};
ghost use Rattle.ecma_rules.specs.Strays.{all_held, as_name, at_child, in_arrow, in_field, in_function, in_loop, in_member, in_named, in_named_function, in_switch, is_new_target, is_stray, nothing_held, strays_in, with_home, without_home};

use ecma_tree::{Kind, MetaPropKind};

/// What would belong to nothing inside the enum initialiser or namespace body around it.
#[derive(Clone, Copy, Debug)]
pub struct Strays {
    /// There is one around.
    pub held: bool,
    /// `this` and `new.target`.
    pub receiver: bool,
    pub arguments: bool,
    /// `super`.
    pub home: bool,
    pub awaiting: bool,
    pub yielding: bool,
    pub returning: bool,
    /// A `break` without a label.
    pub breaking: bool,
    /// A `continue` without a label.
    pub continuing: bool,
}

pub(crate) fn nothing_held() -> Strays
    ensures { result ≡ nothing_held }
{
    Strays {
        held: false,
        receiver: false,
        arguments: false,
        home: false,
        awaiting: false,
        yielding: false,
        returning: false,
        breaking: false,
        continuing: false,
    }
}

fn all_held() -> Strays
    ensures { result ≡ all_held }
{
    Strays {
        held: true,
        receiver: true,
        arguments: true,
        home: true,
        awaiting: true,
        yielding: true,
        returning: true,
        breaking: true,
        continuing: true,
    }
}

fn in_arrow(is_async: bool, strays: Strays) -> Strays
    ensures { result ≡ in_arrow is_async strays }
{
    Strays {
        awaiting: strays.held && !is_async,
        yielding: strays.held,
        returning: false,
        breaking: strays.held,
        continuing: strays.held,
        ..strays
    }
}

fn in_function(is_generator: bool, is_async: bool, strays: Strays) -> Strays
    ensures { result ≡ in_function is_generator is_async strays }
{
    Strays {
        receiver: false,
        arguments: false,
        awaiting: strays.held && !is_async,
        yielding: strays.held && !is_generator,
        returning: false,
        breaking: strays.held,
        continuing: strays.held,
        ..strays
    }
}

fn with_home(strays: Strays) -> Strays
    ensures { result ≡ with_home strays }
{
    Strays {
        home: false,
        ..strays
    }
}

fn without_home(strays: Strays) -> Strays
    ensures { result ≡ without_home strays }
{
    Strays {
        home: strays.held,
        ..strays
    }
}

fn in_member(strays: Strays) -> Strays
    ensures { result ≡ in_member strays }
{
    with_home(in_function(false, false, strays))
}

fn in_field(strays: Strays) -> Strays
    ensures { result ≡ in_field strays }
{
    let held = strays.held;
    Strays {
        held,
        receiver: false,
        arguments: held,
        home: false,
        awaiting: held,
        yielding: held,
        returning: held,
        breaking: held,
        continuing: held,
    }
}

fn in_loop(strays: Strays) -> Strays
    ensures { result ≡ in_loop strays }
{
    Strays {
        breaking: false,
        continuing: false,
        ..strays
    }
}

fn in_switch(strays: Strays) -> Strays
    ensures { result ≡ in_switch strays }
{
    Strays {
        breaking: false,
        ..strays
    }
}

fn as_name(strays: Strays) -> Strays
    ensures { result ≡ as_name strays }
{
    Strays {
        arguments: false,
        ..strays
    }
}

fn at_child(wanted: usize, index: usize, inside: Strays, strays: Strays) -> Strays
    ensures { result ≡ at_child wanted index inside strays }
{
    if index == wanted { inside } else { strays }
}

/// In a node that declares its first child, as a name.
#[tactic(auto, unfolding(crate::specs::Strays::in_named))]
fn in_named(kind: &Kind, index: usize, strays: Strays) -> Strays
    ensures { result ≡ in_named kind.now index strays }
{
    match kind {
        Kind::BindingIdent => at_child(0, index, as_name(strays), strays),
        Kind::LabeledStmt => at_child(0, index, as_name(strays), strays),
        Kind::BreakStmt => as_name(strays),
        Kind::ContinueStmt => as_name(strays),
        Kind::ClassDecl { .. } => at_child(0, index, as_name(strays), strays),
        Kind::ClassExpr => at_child(0, index, as_name(strays), strays),
        Kind::TsInterfaceDecl { .. } => at_child(0, index, as_name(strays), strays),
        Kind::TsTypeAliasDecl { .. } => at_child(0, index, as_name(strays), strays),
        Kind::TsEnumDecl { .. } => at_child(0, index, as_name(strays), strays),
        Kind::TsModuleDecl { .. } => at_child(0, index, as_name(strays), strays),
        Kind::TsNamespaceDecl { .. } => at_child(0, index, as_name(strays), strays),
        Kind::TsImportEqualsDecl { .. } => at_child(0, index, as_name(strays), strays),
        Kind::ImportNamedSpecifier { .. } => as_name(strays),
        Kind::ImportDefaultSpecifier => as_name(strays),
        Kind::ImportStarAsSpecifier => as_name(strays),
        Kind::ExportNamedSpecifier { .. } => as_name(strays),
        Kind::ExportNamespaceSpecifier => as_name(strays),
        Kind::ExportDefaultSpecifier => as_name(strays),
        Kind::TsNamespaceExportDecl => as_name(strays),
        _ => strays,
    }
}

fn in_named_function(index: usize, strays: Strays) -> Strays
    ensures { result ≡ in_named_function index strays }
{
    if index == 1 {
        without_home(strays)
    } else {
        as_name(strays)
    }
}

/// In the child at an index of a node of this kind.
#[tactic(auto, unfolding(crate::specs::Strays::strays_in))]
pub(crate) fn strays_in(strays: Strays, kind: &Kind, index: usize) -> Strays
    ensures { result ≡ strays_in strays kind.now index }
{
    match kind {
        Kind::FnDecl { .. } => in_named_function(index, strays),
        Kind::FnExpr => in_named_function(index, strays),
        Kind::MethodProp => at_child(1, index, with_home(strays), strays),
        Kind::ClassMethod { .. } => at_child(1, index, with_home(strays), strays),
        Kind::PrivateMethod { .. } => at_child(1, index, with_home(strays), strays),
        Kind::Function {
            is_generator,
            is_async,
        } => in_function(*is_generator, *is_async, strays),
        Kind::ArrowExpr { is_async, .. } => in_arrow(*is_async, strays),
        Kind::Constructor { .. } => at_child(0, index, strays, in_member(strays)),
        Kind::GetterProp => at_child(0, index, strays, in_member(strays)),
        Kind::SetterProp => at_child(0, index, strays, in_member(strays)),
        Kind::ClassProp { .. } => at_child(1, index, in_field(strays), strays),
        Kind::PrivateProp { .. } => at_child(1, index, in_field(strays), strays),
        Kind::StaticBlock => in_field(strays),
        Kind::ForStmt => at_child(3, index, in_loop(strays), strays),
        Kind::ForInStmt => at_child(2, index, in_loop(strays), strays),
        Kind::ForOfStmt { .. } => at_child(2, index, in_loop(strays), strays),
        Kind::WhileStmt => at_child(1, index, in_loop(strays), strays),
        Kind::DoWhileStmt => at_child(1, index, in_loop(strays), strays),
        Kind::SwitchStmt => at_child(1, index, in_switch(strays), strays),
        Kind::TsEnumMember => at_child(1, index, all_held(), as_name(strays)),
        Kind::TsModuleBlock => all_held(),
        _ => in_named(kind, index, strays),
    }
}

fn is_new_target(kind: MetaPropKind) -> bool
    ensures { result ≡ is_new_target kind }
{
    matches!(kind, MetaPropKind::NewTarget)
}

/// Whether a node of this kind, which is no jump, is a stray.
///
///     enum E { A = f(async () => await b) }
///     enum E { A = await b }   // refused
#[tactic(auto, unfolding(crate::specs::Strays::is_stray))]
pub(crate) fn is_stray(strays: Strays, kind: &Kind) -> bool
    ensures { result ≡ is_stray strays kind.now }
{
    match kind {
        Kind::ThisExpr => strays.receiver,
        Kind::MetaPropExpr { kind } => strays.receiver && is_new_target(*kind),
        Kind::Ident { sym, .. } => strays.arguments && sym.as_str() == "arguments",
        Kind::Super => strays.home,
        Kind::AwaitExpr => strays.awaiting,
        Kind::ForOfStmt { is_await } => strays.awaiting && *is_await,
        Kind::YieldExpr { .. } => strays.yielding,
        Kind::ReturnStmt => strays.returning,
        _ => false,
    }
}
