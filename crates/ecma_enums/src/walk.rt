//! The members of all enums of a tree.
ghost use Rattle.std.specs.Prelude.{◌≡◌, false, IfOk};
ghost use Rattle.ecma_enums.specs.Folded.{Answers};
ghost use Rattle.ecma_enums.specs.Names.{name_at};
ghost use Rattle.ecma_enums.specs.Walks as table;
ghost use Rattle.ecma_enums.specs.Walks.{at_first, in_enum, in_order, known_at, walked, walks_of, with_enums};

use crate::computer::EnumValueComputer;
use crate::declaration::{entry_of, first_value, member_value};
use crate::error::EnumError;
use crate::names::name_at;
use crate::record::{TsEnumRecord, TsEnumRecordEntry};
use crate::value::TsEnumRecordValue;
use ecma_tree::{Id, JsWord, Kind, Mark, NoMemory, Node, SyntaxContext};
use std::alloc::Global;

/// What is known where a walk stands.
#[derive(Drop)]
pub(crate) struct Stand {
    /// The members that stand before, and the id of the enum.
    pub computer: EnumValueComputer,
    /// Whether the enum is `const`.
    pub is_const: bool,
    /// The automatic value of its next member, where it is one of those that are computed.
    pub next: Option<TsEnumRecordValue>,
    /// The first place in the text of a number that is none of those that are computed.
    pub refused: Option<u32>,
}

/// The first place in the text, of one and those before.
fn sooner(at: u32, refused: Option<u32>) -> Option<u32>
    ensures { result ≡ table.sooner at refused }
{
    match refused {
        Some(other) => Some(at.min(other)),
        None => Some(at),
    }
}

fn with_entry(
    computer: EnumValueComputer,
    entry: TsEnumRecordEntry,
) -> Result<EnumValueComputer, NoMemory>
    ensures { IfOk result (λ after. after ≡ table.with_entry computer entry) }
{
    let mut after = computer;
    after.members.push(entry)?;
    Ok(after)
}

/// What is known behind a member of this value.
fn with_value(
    alloc: Global,
    stand: Stand,
    member: &Node,
    value: TsEnumRecordValue,
) -> Result<Stand, NoMemory>
    ensures { IfOk result (λ after. after ≡ table.with_value member.now value stand) }
{
    let Stand {
        computer,
        is_const,
        refused,
        ..
    } = stand;
    let next = value.inc();
    let entry = entry_of(alloc, &computer.enum_id, is_const, member, value)?;
    Ok(Stand {
        computer: with_entry(computer, entry)?,
        is_const,
        next,
        refused,
    })
}

/// What is known behind a member.
fn with_member(alloc: Global, stand: Stand, member: &Node) -> Result<Stand, NoMemory>
    ensures { IfOk result (λ after. after ≡ table.with_member member.now stand) }
{
    let Stand {
        computer,
        is_const,
        next,
        refused,
    } = stand;
    match member_value(alloc, &computer, next, member) {
        Ok(value) => {
            let stand = Stand {
                computer,
                is_const,
                next: None,
                refused,
            };
            with_value(alloc, stand, member, value)
        }
        Err(EnumError::EnumNumber { at }) => {
            let stand = Stand {
                computer,
                is_const,
                next: None,
                refused: sooner(at, refused),
            };
            with_value(alloc, stand, member, TsEnumRecordValue::Opaque)
        }
        Err(EnumError::NoMemory) => Err(NoMemory),
    }
}

/// What is known behind the children of a node.
#[cycle(walking)]
#[tactic(auto, using(crate::proofs::Walking::walking))]
fn walk_children(
    alloc: Global,
    is_ambient: bool,
    stand: Stand,
    node: &Node,
) -> Result<Stand, NoMemory>
    ensures { IfOk result (λ after. after ≡ in_order (walks_of node.now) is_ambient stand) }
{
    let mut stand = stand;
    for child in node.children.as_slice() {
        stand = walk(alloc, is_ambient, stand, child)?;
    }
    Ok(stand)
}

/// What is known behind an enum of this id.
#[cycle(walking)]
#[tactic(auto, using(crate::proofs::Walking::walking))]
fn walk_named(
    alloc: Global,
    id: Id,
    is_const_enum: bool,
    stand: Stand,
    node: &Node,
) -> Result<Stand, NoMemory>
    ensures { IfOk result (λ after. after ≡ in_enum (Some id) is_const_enum (walks_of node.now) stand) }
{
    let Stand {
        computer,
        is_const,
        next,
        refused,
    } = stand;
    let EnumValueComputer {
        enum_id,
        unresolved_mark,
        members,
    } = computer;
    let computer = EnumValueComputer {
        enum_id: id,
        unresolved_mark,
        members,
    };
    let entered = Stand {
        computer,
        is_const: is_const_enum,
        next: first_value(),
        refused,
    };
    let Stand {
        computer: inner,
        refused,
        ..
    } = walk_children(alloc, false, entered, node)?;
    let EnumValueComputer { members, .. } = inner;
    let computer = EnumValueComputer {
        enum_id,
        unresolved_mark,
        members,
    };
    Ok(Stand {
        computer,
        is_const,
        next,
        refused,
    })
}

/// What is known behind an enum.
#[cycle(walking)]
#[tactic(auto, using(crate::proofs::Walking::walking))]
fn walk_enum(
    alloc: Global,
    is_const_enum: bool,
    stand: Stand,
    node: &Node,
) -> Result<Stand, NoMemory>
    ensures { IfOk result (λ after. after ≡ in_enum (name_at node.now 0) is_const_enum (walks_of node.now) stand) }
{
    match name_at(node, 0)? {
        Some(id) => walk_named(alloc, id, is_const_enum, stand, node),
        None => Ok(stand),
    }
}

/// What is known behind a member, and what stands inside its initialiser.
#[cycle(walking)]
#[tactic(auto, using(crate::proofs::Walking::walking))]
fn walk_member(
    alloc: Global,
    is_ambient: bool,
    stand: Stand,
    member: &Node,
) -> Result<Stand, NoMemory>
    ensures { IfOk result (λ after. after
        ≡ in_order (walks_of member.now) is_ambient (table.with_member member.now stand)) }
{
    let stand = with_member(alloc, stand, member)?;
    walk_children(alloc, is_ambient, stand, member)
}

/// What is known behind a node.
#[cycle(walking)]
#[tactic(auto, using(crate::proofs::Walking::walking), unfolding(crate::specs::Walks::walk_by))]
fn walk(alloc: Global, is_ambient: bool, stand: Stand, node: &Node) -> Result<Stand, NoMemory>
    ensures { IfOk result (λ after. after ≡ walked node.now is_ambient stand) }
{
    match &node.kind {
        Kind::TsEnumDecl { declare, is_const } => {
            if *declare || is_ambient {
                return Ok(stand);
            }
            walk_enum(alloc, *is_const, stand, node)
        }
        Kind::TsEnumMember => walk_member(alloc, is_ambient, stand, node),
        Kind::TsModuleDecl { declare, .. } => {
            walk_children(alloc, *declare || is_ambient, stand, node)
        }
        _ => walk_children(alloc, is_ambient, stand, node),
    }
}

/// Where nothing is known yet, outside all enums.
fn at_first(alloc: Global, unresolved_mark: Mark) -> Result<Stand, NoMemory>
    ensures { IfOk result (λ stand. stand ≡ at_first unresolved_mark) }
{
    let computer = EnumValueComputer {
        enum_id: (JsWord::new(alloc, "")?, SyntaxContext::empty()),
        unresolved_mark,
        members: TsEnumRecord::new(alloc),
    };
    Ok(Stand {
        computer,
        is_const: false,
        next: None,
        refused: None,
    })
}

fn known_at(stand: Stand) -> Result<TsEnumRecord, EnumError>
    ensures { result ≡ known_at stand }
{
    match stand.refused {
        Some(at) => Err(EnumError::EnumNumber { at }),
        None => Ok(stand.computer.members),
    }
}

/// The members of all enums of a tree, in the order of the text, each with what is known of its value. Of ambient enums, and of those in an ambient
/// namespace, there are none. `EnumNumber` comes exactly where a number of a member is beyond those that are computed; it tells the first in the text.
#[tactic(auto, using(crate::proofs::Answering::answers_same))]
pub fn record_enums(
    alloc: Global,
    unresolved_mark: Mark,
    tree: &Node,
) -> Result<TsEnumRecord, EnumError>
    ensures { Answers result (with_enums unresolved_mark tree.now) }
{
    let stand = at_first(alloc, unresolved_mark)?;
    let stand = walk(alloc, false, stand, tree)?;
    known_at(stand)
}
