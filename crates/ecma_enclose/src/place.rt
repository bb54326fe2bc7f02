//! Where a node stands, as far as parentheses are asked for there.
ghost use Rattle.std.specs.Prelude.{◌≡◌};
ghost use Rattle.ecma_enclose.specs.Enclosing.{at_child, in_block, in_list, in_statement, place_in};

use ecma_tree::Kind;

/// Where a node stands.
#[derive(Clone, Copy, Debug)]
pub enum Place {
    /// Where nothing is asked.
    Elsewhere,
    /// The body of a function.
    Body,
    /// The statements of a body or of a module.
    Statements,
    /// The statement that stands first behind the directives once what goes is gone.
    Behind,
    /// The expression of that statement.
    Text,
    /// What stands before `of` in the head of a loop without `await`.
    Left,
}

fn at_child(wanted: usize, index: usize, place: Place) -> Place
    ensures { result ≡ at_child wanted index place }
{
    if index == wanted {
        place
    } else {
        Place::Elsewhere
    }
}

fn in_block(place: Place, index: usize) -> Place
    ensures { result ≡ in_block place index }
{
    match place {
        Place::Body => at_child(0, index, Place::Statements),
        _ => Place::Elsewhere,
    }
}

fn in_list(place: Place, first: usize, index: usize) -> Place
    ensures { result ≡ in_list place first index }
{
    match place {
        Place::Statements => at_child(first, index, Place::Behind),
        _ => Place::Elsewhere,
    }
}

fn in_statement(place: Place, index: usize) -> Place
    ensures { result ≡ in_statement place index }
{
    match place {
        Place::Behind => at_child(0, index, Place::Text),
        _ => Place::Elsewhere,
    }
}

/// Where the child at an index of a node of this kind stands. `first` is the index of the statement behind the directives, in a list of statements.
#[tactic(auto, unfolding(crate::specs::Enclosing::place_in))]
pub(crate) fn place_in(place: Place, kind: &Kind, first: usize, index: usize) -> Place
    ensures { result ≡ place_in place kind.now first index }
{
    match kind {
        Kind::Module { .. } | Kind::Script { .. } => at_child(0, index, Place::Statements),
        Kind::Function { .. } | Kind::ArrowExpr { .. } => at_child(1, index, Place::Body),
        Kind::Constructor { .. } | Kind::GetterProp => at_child(2, index, Place::Body),
        Kind::SetterProp => at_child(3, index, Place::Body),
        Kind::BlockStmt => in_block(place, index),
        Kind::List => in_list(place, first, index),
        Kind::ExprStmt => in_statement(place, index),
        Kind::ForOfStmt { is_await: false } => at_child(0, index, Place::Left),
        _ => Place::Elsewhere,
    }
}
