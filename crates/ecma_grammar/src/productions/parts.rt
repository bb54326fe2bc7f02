//! What each part is.
ghost use Rattle.std.specs.Prelude.{◌≡◌, true, false};
ghost use Rattle.ecma_grammar.specs.PartBodies.{part_body, link_body, new_link_body};
ghost use Rattle.ecma_grammar.specs.productions.Modules.{module_body};
ghost use Rattle.ecma_grammar.specs.productions.Operators.{binary_body, as_body, satisfies_body};
ghost use Rattle.ecma_grammar.specs.productions.Expressions.{assign_body};
ghost use Rattle.ecma_grammar.specs.productions.Classes.{class_body};
ghost use Rattle.ecma_grammar.specs.Written.{written};

use super::*;

/// Nothing is read.
static NEVER: Production = Unless(&Nothing);

static ASSIGN_PART: Production = assign_body!(false, false);

static ASSIGN_MIDDLE_PART: Production = assign_body!(false, true);

static ASSIGN_NO_IN_PART: Production = assign_body!(true, false);

static ASSIGN_NO_IN_MIDDLE_PART: Production = assign_body!(true, true);

static CLASS_PART: Production = class_body!(false);

static CLASS_NAMED_PART: Production = class_body!(true);

static AS_PART: Production = as_body!(false);

static AS_NO_IN_PART: Production = as_body!(true);

static SATISFIES_PART: Production = satisfies_body!(false);

static SATISFIES_NO_IN_PART: Production = satisfies_body!(true);

static MUL_PART: Production = binary_body!(Mul, false);

static MUL_NO_IN_PART: Production = binary_body!(Mul, true);

static DIV_PART: Production = binary_body!(Div, false);

static DIV_NO_IN_PART: Production = binary_body!(Div, true);

static MOD_PART: Production = binary_body!(Mod, false);

static MOD_NO_IN_PART: Production = binary_body!(Mod, true);

static ADD_PART: Production = binary_body!(Add, false);

static ADD_NO_IN_PART: Production = binary_body!(Add, true);

static SUB_PART: Production = binary_body!(Sub, false);

static SUB_NO_IN_PART: Production = binary_body!(Sub, true);

static L_SHIFT_PART: Production = binary_body!(LShift, false);

static L_SHIFT_NO_IN_PART: Production = binary_body!(LShift, true);

static R_SHIFT_PART: Production = binary_body!(RShift, false);

static R_SHIFT_NO_IN_PART: Production = binary_body!(RShift, true);

static ZERO_FILL_R_SHIFT_PART: Production = binary_body!(ZeroFillRShift, false);

static ZERO_FILL_R_SHIFT_NO_IN_PART: Production = binary_body!(ZeroFillRShift, true);

static LT_PART: Production = binary_body!(Lt, false);

static LT_NO_IN_PART: Production = binary_body!(Lt, true);

static GT_PART: Production = binary_body!(Gt, false);

static GT_NO_IN_PART: Production = binary_body!(Gt, true);

static LT_EQ_PART: Production = binary_body!(LtEq, false);

static LT_EQ_NO_IN_PART: Production = binary_body!(LtEq, true);

static GT_EQ_PART: Production = binary_body!(GtEq, false);

static GT_EQ_NO_IN_PART: Production = binary_body!(GtEq, true);

static INSTANCE_OF_PART: Production = binary_body!(InstanceOf, false);

static INSTANCE_OF_NO_IN_PART: Production = binary_body!(InstanceOf, true);

static IN_PART: Production = binary_body!(In, false);

static IN_NO_IN_PART: Production = binary_body!(In, true);

static EQ_EQ_PART: Production = binary_body!(EqEq, false);

static EQ_EQ_NO_IN_PART: Production = binary_body!(EqEq, true);

static NOT_EQ_PART: Production = binary_body!(NotEq, false);

static NOT_EQ_NO_IN_PART: Production = binary_body!(NotEq, true);

static EQ_EQ_EQ_PART: Production = binary_body!(EqEqEq, false);

static EQ_EQ_EQ_NO_IN_PART: Production = binary_body!(EqEqEq, true);

static NOT_EQ_EQ_PART: Production = binary_body!(NotEqEq, false);

static NOT_EQ_EQ_NO_IN_PART: Production = binary_body!(NotEqEq, true);

static BIT_AND_PART: Production = binary_body!(BitAnd, false);

static BIT_AND_NO_IN_PART: Production = binary_body!(BitAnd, true);

static BIT_XOR_PART: Production = binary_body!(BitXor, false);

static BIT_XOR_NO_IN_PART: Production = binary_body!(BitXor, true);

static BIT_OR_PART: Production = binary_body!(BitOr, false);

static BIT_OR_NO_IN_PART: Production = binary_body!(BitOr, true);

static EXP_PART: Production = binary_body!(Exp, false);

static EXP_NO_IN_PART: Production = binary_body!(Exp, true);

static LOGICAL_AND_PART: Production = binary_body!(LogicalAnd, false);

static LOGICAL_AND_NO_IN_PART: Production = binary_body!(LogicalAnd, true);

static LOGICAL_OR_PART: Production = binary_body!(LogicalOr, false);

static LOGICAL_OR_NO_IN_PART: Production = binary_body!(LogicalOr, true);

static NULLISH_COALESCING_PART: Production = binary_body!(NullishCoalescing, false);

static NULLISH_COALESCING_NO_IN_PART: Production = binary_body!(NullishCoalescing, true);

/// What a part is.
#[tactic(auto, unfolding(crate::specs::productions::Statements::statement_body, crate::specs::productions::Modules::namespace_block, crate::specs::productions::Declarations::declared_body, crate::specs::productions::Patterns::pattern_body, crate::specs::productions::Types::type_body, crate::specs::productions::Types::type_operator_body, crate::specs::productions::Types::array_suffix_body, crate::specs::productions::Operators::assertion_body, crate::specs::productions::Chains::new_body, crate::specs::productions::Operators::power_body, crate::specs::productions::Declarations::dotted_name_body, crate::specs::productions::Modules::dotted_key_body))]
pub fn part_body(part: Part) -> &'static Production
    ensures { written result.now ≡ part_body part }
{
    match part {
        Part::Statement => &STATEMENT_PART,
        Part::NamespaceBody => &NAMESPACE_BLOCK,
        Part::Declared => &DECLARED_BODY,
        Part::Assign { no_in, middle } => assign_part(no_in, middle),
        Part::Pattern => &PATTERN_BODY,
        Part::Type => &TYPE_BODY,
        Part::TypeOperator => &TYPE_OPERATOR_PART,
        Part::ArraySuffix => &ARRAY_SUFFIX_BODY,
        Part::Operand => operator_rule(OperatorRule::Operand),
        Part::Assertion => &ASSERTION_BODY,
        Part::New => &NEW_BODY,
        Part::Power => &POWER_BODY,
        Part::Class { named } => class_part(named),
        Part::As { no_in } => as_part(no_in),
        Part::Satisfies { no_in } => satisfies_part(no_in),
        Part::DottedName => &DOTTED_NAME_BODY,
        Part::DottedKey => &DOTTED_KEY_BODY,
        Part::Link(link) => link_part(link),
        Part::NewLink(link) => new_link_part(link),
        Part::Binary { op, no_in } => binary_part(op, no_in),
    }
}

/// What a link of a chain is.
#[tactic(auto, unfolding(crate::specs::productions::Chains::dot_body, crate::specs::productions::Chains::optional_body, crate::specs::productions::Chains::bracket_body, crate::specs::productions::Chains::call_body, crate::specs::productions::Chains::tagged_body, crate::specs::productions::Chains::non_null_body, crate::specs::productions::Chains::instantiation_body))]
fn link_part(link: Link) -> &'static Production
    ensures { written result.now ≡ link_body link }
{
    match link {
        Link::Dot => &DOT_BODY,
        Link::Optional => &OPTIONAL_BODY,
        Link::Bracket => &BRACKET_BODY,
        Link::Call => &CALL_BODY,
        Link::Tagged => &TAGGED_BODY,
        Link::NonNull => &NON_NULL_BODY,
        Link::Instantiation => &INSTANTIATION_BODY,
    }
}

/// What a link of the callee of `new` is.
#[tactic(auto, unfolding(crate::specs::productions::Chains::new_dot_body, crate::specs::productions::Chains::new_bracket_body, crate::specs::productions::Chains::new_tagged_body, crate::specs::productions::Chains::new_non_null_body))]
fn new_link_part(link: Link) -> &'static Production
    ensures { written result.now ≡ new_link_body link }
{
    match link {
        Link::Dot => &NEW_DOT_BODY,
        Link::Bracket => &NEW_BRACKET_BODY,
        Link::Tagged => &NEW_TAGGED_BODY,
        Link::NonNull => &NEW_NON_NULL_BODY,
        Link::Optional => &NEVER,
        Link::Call => &NEVER,
        Link::Instantiation => &NEVER,
    }
}

/// What `Part::Assign` is.
fn assign_part(no_in: bool, middle: bool) -> &'static Production
    ensures { written result.now ≡ assign_body no_in middle }
{
    match (no_in, middle) {
        (false, false) => &ASSIGN_PART,
        (false, true) => &ASSIGN_MIDDLE_PART,
        (true, false) => &ASSIGN_NO_IN_PART,
        (true, true) => &ASSIGN_NO_IN_MIDDLE_PART,
    }
}

/// What `Part::Class` is.
fn class_part(named: bool) -> &'static Production
    ensures { written result.now ≡ class_body named }
{
    match named {
        false => &CLASS_PART,
        true => &CLASS_NAMED_PART,
    }
}

/// What `Part::As` is.
fn as_part(no_in: bool) -> &'static Production
    ensures { written result.now ≡ as_body no_in }
{
    match no_in {
        false => &AS_PART,
        true => &AS_NO_IN_PART,
    }
}

/// What `Part::Satisfies` is.
fn satisfies_part(no_in: bool) -> &'static Production
    ensures { written result.now ≡ satisfies_body no_in }
{
    match no_in {
        false => &SATISFIES_PART,
        true => &SATISFIES_NO_IN_PART,
    }
}

/// The same, where `in` is an operator.
fn binary_part_in(op: BinaryOp) -> &'static Production
    ensures { written result.now ≡ binary_body op false }
{
    match op {
        BinaryOp::Mul => &MUL_PART,
        BinaryOp::Div => &DIV_PART,
        BinaryOp::Mod => &MOD_PART,
        BinaryOp::Add => &ADD_PART,
        BinaryOp::Sub => &SUB_PART,
        BinaryOp::LShift => &L_SHIFT_PART,
        BinaryOp::RShift => &R_SHIFT_PART,
        BinaryOp::ZeroFillRShift => &ZERO_FILL_R_SHIFT_PART,
        BinaryOp::Lt => &LT_PART,
        BinaryOp::Gt => &GT_PART,
        BinaryOp::LtEq => &LT_EQ_PART,
        BinaryOp::GtEq => &GT_EQ_PART,
        BinaryOp::InstanceOf => &INSTANCE_OF_PART,
        BinaryOp::In => &IN_PART,
        BinaryOp::EqEq => &EQ_EQ_PART,
        BinaryOp::NotEq => &NOT_EQ_PART,
        BinaryOp::EqEqEq => &EQ_EQ_EQ_PART,
        BinaryOp::NotEqEq => &NOT_EQ_EQ_PART,
        BinaryOp::BitAnd => &BIT_AND_PART,
        BinaryOp::BitXor => &BIT_XOR_PART,
        BinaryOp::BitOr => &BIT_OR_PART,
        BinaryOp::Exp => &EXP_PART,
        BinaryOp::LogicalAnd => &LOGICAL_AND_PART,
        BinaryOp::LogicalOr => &LOGICAL_OR_PART,
        BinaryOp::NullishCoalescing => &NULLISH_COALESCING_PART,
    }
}

/// The same, where `in` is no operator.
fn binary_part_no_in(op: BinaryOp) -> &'static Production
    ensures { written result.now ≡ binary_body op true }
{
    match op {
        BinaryOp::Mul => &MUL_NO_IN_PART,
        BinaryOp::Div => &DIV_NO_IN_PART,
        BinaryOp::Mod => &MOD_NO_IN_PART,
        BinaryOp::Add => &ADD_NO_IN_PART,
        BinaryOp::Sub => &SUB_NO_IN_PART,
        BinaryOp::LShift => &L_SHIFT_NO_IN_PART,
        BinaryOp::RShift => &R_SHIFT_NO_IN_PART,
        BinaryOp::ZeroFillRShift => &ZERO_FILL_R_SHIFT_NO_IN_PART,
        BinaryOp::Lt => &LT_NO_IN_PART,
        BinaryOp::Gt => &GT_NO_IN_PART,
        BinaryOp::LtEq => &LT_EQ_NO_IN_PART,
        BinaryOp::GtEq => &GT_EQ_NO_IN_PART,
        BinaryOp::InstanceOf => &INSTANCE_OF_NO_IN_PART,
        BinaryOp::In => &IN_NO_IN_PART,
        BinaryOp::EqEq => &EQ_EQ_NO_IN_PART,
        BinaryOp::NotEq => &NOT_EQ_NO_IN_PART,
        BinaryOp::EqEqEq => &EQ_EQ_EQ_NO_IN_PART,
        BinaryOp::NotEqEq => &NOT_EQ_EQ_NO_IN_PART,
        BinaryOp::BitAnd => &BIT_AND_NO_IN_PART,
        BinaryOp::BitXor => &BIT_XOR_NO_IN_PART,
        BinaryOp::BitOr => &BIT_OR_NO_IN_PART,
        BinaryOp::Exp => &EXP_NO_IN_PART,
        BinaryOp::LogicalAnd => &LOGICAL_AND_NO_IN_PART,
        BinaryOp::LogicalOr => &LOGICAL_OR_NO_IN_PART,
        BinaryOp::NullishCoalescing => &NULLISH_COALESCING_NO_IN_PART,
    }
}

/// The right side of a binary operator, with what stands after it in its chain.
fn binary_part(op: BinaryOp, no_in: bool) -> &'static Production
    ensures { written result.now ≡ binary_body op no_in }
{
    if no_in {
        binary_part_no_in(op)
    } else {
        binary_part_in(op)
    }
}

/// A module.
#[tactic(auto, unfolding(crate::specs::productions::Modules::module_body))]
pub fn module_body() -> &'static Production
    ensures { written result.now ≡ module_body }
{
    &MODULE_BODY
}
