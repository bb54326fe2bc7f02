//! What each finder lists, and what it does not enter.
ghost use Rattle.std.specs.Prelude.{◌≡◌, ◌<◌, length, false};
ghost use Rattle.ecma_tree.specs.declared.node.Node.{out-Node};
ghost use Rattle.ecma_find.specs.Finders.{await_enters, collected_leaves_out, declares_by, is_declaring, names_default, rules_of, this_enters, var_declares};
ghost use Rattle.ecma_find.specs.Found.{is_entered, is_left_out, is_listed, place_at, place_of, root_place};
ghost use Rattle.ecma_find.specs.Kinds.{has_id, has_text, is_any_function, is_await, is_key, is_type, is_var};

use ecma_tree::{Id, Kind, Node, NodeRef, Shape, Sort, VarDeclKind, is_value};
use ecma_walks::{is_expression, is_shorthand, root_seat, seat_at};

/// A finder: what is looked for.
#[derive(Clone, Copy)]
pub(crate) enum Finder<'a> {
    /// `this`.
    This,
    /// `arguments`, as an expression or a shorthand.
    Arguments,
    /// An expression that is the name of this id.
    Reference(&'a Id),
    /// An identifier of this id.
    Usage(&'a Id),
    /// `await` and `for await`.
    Await,
    /// A rest pattern.
    Rest,
    /// The names that `var` and function declarations declare.
    Vars,
    /// The identifiers of patterns.
    Pattern,
    /// Declared names, as nodes of the kind [`Kind::BindingIdent`].
    Bindings,
    /// Declared names, in whatever is within.
    Declared,
    /// Identifiers that stand in no expression and no function.
    Collected,
}

/// Where a node stands in the walk of a finder.
#[derive(Clone, Copy, Debug)]
pub(crate) struct Place {
    /// What the node is there for.
    pub seat: Shape,
    /// Whether it is what declares names that are looked for, or within that.
    pub is_declared: bool,
}

/// Where the nodes stand that are referred to.
pub(crate) fn root_place(part: NodeRef<'_>) -> Place
    ensures { result ≡ root_place part.entry }
{
    Place {
        seat: root_seat(part),
        is_declared: false,
    }
}

/// Whether a node is a type, or the declaration of one.
fn is_type(kind: &Kind) -> bool
    ensures { result ≡ is_type kind.now }
{
    matches!(
        kind,
        Kind::TsTypeAnn
            | Kind::TsType
            | Kind::TsTypeParamDecl
            | Kind::TsTypeParamInstantiation
            | Kind::TsInterfaceDecl { .. }
            | Kind::TsTypeAliasDecl { .. }
    )
}

/// Whether a node is an identifier of this text.
pub(crate) fn has_text(kind: &Kind, text: &str) -> bool
    ensures { result ≡ has_text text.now kind.now }
{
    match kind {
        Kind::Ident { sym, .. } => sym.as_str() == text,
        _ => false,
    }
}

/// Whether a node is an identifier of this id.
fn has_id(kind: &Kind, id: &Id) -> bool
    ensures { result ≡ has_id id.now kind.now }
{
    match kind {
        Kind::Ident { sym, ctxt, .. } => sym.as_str() == id.0.as_str() && *ctxt == id.1,
        _ => false,
    }
}

fn is_await(kind: &Kind) -> bool
    ensures { result ≡ is_await kind.now }
{
    match kind {
        Kind::AwaitExpr => true,
        Kind::ForOfStmt { is_await } => *is_await,
        _ => false,
    }
}

fn is_var(kind: &Kind) -> bool
    ensures { result ≡ is_var kind.now }
{
    match kind {
        Kind::VarDecl { kind, .. } => matches!(kind, VarDeclKind::Var),
        _ => false,
    }
}

/// Whether a node is what declares a pattern's names, or within that and no expression.
fn is_declaring(place: Place, kind: &Kind) -> bool
    ensures { result ≡ is_declaring place kind.now }
{
    place.is_declared && !is_expression(place.seat, kind)
}

/// Whether the finder lists a node of this kind that it does not leave out.
fn lists(finder: Finder<'_>, place: Place, kind: &Kind) -> bool
    ensures { result ≡ (rules_of finder.entry).lists place kind.now }
{
    match finder {
        Finder::This => matches!(kind, Kind::ThisExpr),
        Finder::Arguments => {
            (is_expression(place.seat, kind) || is_shorthand(place.seat, kind))
                && has_text(kind, "arguments")
        }
        Finder::Reference(id) => is_expression(place.seat, kind) && has_id(kind, id),
        Finder::Usage(id) => has_id(kind, id),
        Finder::Await => is_await(kind),
        Finder::Rest => matches!(kind, Kind::RestPat),
        Finder::Vars => place.is_declared && matches!(kind, Kind::Ident { .. }),
        Finder::Pattern | Finder::Collected => matches!(kind, Kind::Ident { .. }),
        Finder::Bindings => matches!(kind, Kind::BindingIdent),
        Finder::Declared => is_declaring(place, kind) && matches!(kind, Kind::Ident { .. }),
    }
}

fn is_key(sort: Sort) -> bool
    ensures { result ≡ is_key sort }
{
    matches!(sort, Sort::PropName)
}

/// Whether a node is a function, an arrow function or a constructor.
fn is_any_function(kind: &Kind) -> bool
    ensures { result ≡ is_any_function kind.now }
{
    matches!(
        kind,
        Kind::Function { .. } | Kind::ArrowExpr { .. } | Kind::Constructor { .. }
    )
}

fn collected_leaves_out(seat: Shape, kind: &Kind) -> bool
    ensures { result ≡ collected_leaves_out seat kind.now }
{
    is_expression(seat, kind) || is_key(seat.sort) || is_any_function(kind)
}

/// Whether the finder leaves out a node of this kind, with all that is in it.
fn leaves_out(finder: Finder<'_>, seat: Shape, kind: &Kind) -> bool
    ensures { result ≡ (rules_of finder.entry).leaves_out seat kind.now }
{
    match finder {
        Finder::This | Finder::Arguments => {
            matches!(kind, Kind::Constructor { .. } | Kind::Function { .. })
        }
        Finder::Await => matches!(
            kind,
            Kind::Param | Kind::Function { .. } | Kind::ArrowExpr { .. }
        ),
        Finder::Vars => {
            is_expression(seat, kind)
                || matches!(
                    kind,
                    Kind::Function { .. } | Kind::Class { .. } | Kind::ArrowExpr { .. }
                )
        }
        Finder::Pattern => is_expression(seat, kind) || is_key(seat.sort),
        Finder::Bindings => is_expression(seat, kind),
        Finder::Collected => collected_leaves_out(seat, kind),
        Finder::Reference(_) | Finder::Usage(_) | Finder::Rest | Finder::Declared => false,
    }
}

fn this_enters(kind: &Kind, index: usize) -> bool
    ensures { result ≡ this_enters kind.now index }
{
    match kind {
        Kind::GetterProp => index == 0,
        Kind::SetterProp => index == 0 || index == 2,
        _ => true,
    }
}

fn await_enters(kind: &Kind, index: usize) -> bool
    ensures { result ≡ await_enters kind.now index }
{
    match kind {
        Kind::Constructor { .. }
        | Kind::ClassMethod { .. }
        | Kind::PrivateMethod { .. }
        | Kind::ClassProp { .. }
        | Kind::PrivateProp { .. }
        | Kind::KeyValueProp
        | Kind::AssignProp
        | Kind::GetterProp
        | Kind::SetterProp
        | Kind::MethodProp => index == 0,
        Kind::StaticBlock => false,
        _ => true,
    }
}

/// Whether the finder enters the child at an index of a node of this kind.
fn enters(finder: Finder<'_>, kind: &Kind, index: usize) -> bool
    ensures { result ≡ (rules_of finder.entry).enters kind.now index }
{
    match finder {
        Finder::This => this_enters(kind, index),
        Finder::Await => await_enters(kind, index),
        _ => true,
    }
}

/// Whether the child at an index is the name of a default export: of a class, or of a function with a body.
fn names_default(place: Place, node: &Node, index: usize) -> bool
    ensures { result ≡ names_default place node.now index }
{
    index == 0 && matches!(place.seat.sort, Sort::DefaultDecl) && is_value(node)
}

fn declares_by(place: Place, node: &Node, index: usize) -> bool
    ensures { result ≡ declares_by (out-Node node.now).kind place node.now index }
{
    match &node.kind {
        Kind::VarDeclarator { .. }
        | Kind::ArrowExpr { .. }
        | Kind::FnDecl { .. }
        | Kind::ClassDecl { .. }
        | Kind::ImportNamedSpecifier { .. } => index == 0,
        Kind::Param | Kind::ImportDefaultSpecifier | Kind::ImportStarAsSpecifier => true,
        Kind::FnExpr | Kind::ClassExpr => names_default(place, node, index),
        kind => is_declaring(place, kind),
    }
}

fn var_declares(place: Place, node: &Node, index: usize) -> bool
    ensures { result ≡ var_declares place node.now index }
{
    place.is_declared || is_var(&node.kind) || matches!(node.kind, Kind::FnDecl { .. })
}

/// Whether names that the finder looks for are declared in the child at an index.
fn declares(finder: Finder<'_>, place: Place, node: &Node, index: usize) -> bool
    ensures { result ≡ (rules_of finder.entry).declares place node.now index }
{
    match finder {
        Finder::Vars => var_declares(place, node, index),
        Finder::Declared => declares_by(place, node, index),
        _ => false,
    }
}

/// Whether a node is left out: types always are.
fn is_left_out(finder: Finder<'_>, seat: Shape, kind: &Kind) -> bool
    ensures { result ≡ is_left_out (rules_of finder.entry) seat kind.now }
{
    is_type(kind) || leaves_out(finder, seat, kind)
}

/// Whether the finder lists a node.
pub(crate) fn is_listed(finder: Finder<'_>, place: Place, kind: &Kind) -> bool
    ensures { result ≡ is_listed (rules_of finder.entry) place kind.now }
{
    !is_left_out(finder, place.seat, kind) && lists(finder, place, kind)
}

fn is_entered(finder: Finder<'_>, place: Place, kind: &Kind, index: usize) -> bool
    ensures { result ≡ is_entered (rules_of finder.entry) place kind.now index }
{
    !is_left_out(finder, place.seat, kind) && enters(finder, kind, index)
}

/// Where the child at an index stands; `None` where it is not entered.
pub(crate) fn place_at(finder: Finder<'_>, place: Place, node: &Node, index: usize) -> Option<Place>
    requires { index < length (out-Node node.now).children }
    ensures { result ≡ place_at (rules_of finder.entry) place node.now index }
{
    if !is_entered(finder, place, &node.kind, index) {
        return None;
    }
    let seat = seat_at(place.seat, node, index)?;
    Some(Place {
        seat,
        is_declared: declares(finder, place, node, index),
    })
}
