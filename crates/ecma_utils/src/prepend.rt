//! Statements before those of a list.
ghost use Rattle.std.specs.Prelude.{◌≡◌, ◌&&◌, ◌≤◌, OnErr, OnOk, false, insert, length, true};
ghost use Rattle.std.specs.List.{insert_slice};
ghost use Rattle.ecma_utils.specs.Directives.{front_length, stands_in_front};

use crate::directives::stands_in_front;
use crate::stmt_like::StmtLike;
use ecma_tree::NoMemory;

fn is_in_front<T: StmtLike>(calls: bool, item: &T) -> bool
    ensures { result ≡ (T.is_statement item.now && stands_in_front calls (T.node item.now)) }
{
    match item.as_stmt() {
        Some(stmt) => stands_in_front(calls, stmt),
        None => false,
    }
}

/// How many items stand in front.
#[tactic(auto, using(crate::proofs::Fronts::fronts))]
fn front_length<T: StmtLike>(calls: bool, items: &[T]) -> usize
    ensures value { result ≡ front_length
        (λ item. T.is_statement item && stands_in_front calls (T.node item)) items.now }
    ensures within { result ≤ length items.now }
{
    for i in 0..items.len() {
        if !is_in_front(calls, &items[i]) {
            return i;
        }
    }
    items.len()
}

/// Puts a statement before the first item that is not a statement of a text literal, so behind the directives. Its only refusal is want of
/// memory, which leaves the list as it was.
pub fn prepend_stmt<T: StmtLike + Drop>(stmts: &mut Vec<T>, stmt: T) -> Result<(), NoMemory>
    ensures ok { OnOk result (stmts.new.items ≡ insert stmts.old.items
        (front_length (λ item. T.is_statement item && stands_in_front false (T.node item))
        stmts.old.items) stmt) }
    ensures err { OnErr result (stmts.new.items ≡ stmts.old.items) }
{
    let index = front_length(false, stmts.as_slice());
    stmts.insert(index, stmt)?;
    Ok(())
}

/// Puts statements before the first item that is neither a statement of a text literal nor one that calls `super` or `import`. Its only
/// refusal is want of memory, which leaves the list as it was.
pub fn prepend_stmts<T: StmtLike + Drop>(to: &mut Vec<T>, stmts: Vec<T>) -> Result<(), NoMemory>
    ensures ok { OnOk result (to.new.items ≡ insert_slice to.old.items
        (front_length (λ item. T.is_statement item && stands_in_front true (T.node item))
        to.old.items) stmts.items) }
    ensures err { OnErr result (to.new.items ≡ to.old.items) }
{
    let index = front_length(true, to.as_slice());
    let count = stmts.len();
    let mut stmts = stmts;
    to.append(&mut stmts)?;
    to[index..].rotate_right(count);
    Ok(())
}
