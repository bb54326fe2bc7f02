//! Operators (ECMAScript, 13.4 to 13.13). Chains go to the left, and each operator stands one level deeper than the one before.
ghost use Rattle.std.specs.Prelude.{◌≡◌, false};
ghost use Rattle.ecma_grammar.specs.Rules.{operator_rule};
ghost use Rattle.ecma_grammar.specs.Written.{is_name, written};

use super::*;

/// A production of this topic that has a name.
#[derive(Clone, Copy, Debug)]
pub enum OperatorRule {
    Update,
    Prefixed,
    Operand,
    Exponentiation,
    Factors,
    Terms,
    Shifts,
    Shift,
    Relations { no_in: bool },
    Relation { no_in: bool },
    Equalities { no_in: bool },
    Equality { no_in: bool },
    BitAnd { no_in: bool },
    BitXor { no_in: bool },
    BitOr { no_in: bool },
    ShortCircuit { no_in: bool },
}

/// The production of a name.
#[tactic(auto, unfolding(crate::specs::productions::Operators::update, crate::specs::productions::Operators::prefixed, crate::specs::productions::Operators::operand, crate::specs::productions::Operators::exponentiation, crate::specs::productions::Operators::factors, crate::specs::productions::Operators::terms, crate::specs::productions::Operators::shifts, crate::specs::productions::Operators::shift, crate::specs::productions::Operators::relations, crate::specs::productions::Operators::relation, crate::specs::productions::Operators::equalities, crate::specs::productions::Operators::equality, crate::specs::productions::Operators::bit_and, crate::specs::productions::Operators::bit_xor, crate::specs::productions::Operators::bit_or, crate::specs::productions::Operators::short_circuit))]
pub(super) fn operator_rule(rule: OperatorRule) -> &'static Production
    ensures says { written result.now ≡ operator_rule rule }
    ensures unnamed { is_name result.now ≡ false }
{
    match rule {
        OperatorRule::Update => &UPDATE_BODY,
        OperatorRule::Prefixed => &PREFIXED_BODY,
        OperatorRule::Operand => &OPERAND_BODY,
        OperatorRule::Exponentiation => &EXPONENTIATION_BODY,
        OperatorRule::Factors => &FACTORS_BODY,
        OperatorRule::Terms => &TERMS_BODY,
        OperatorRule::Shifts => &SHIFTS_BODY,
        OperatorRule::Shift => &SHIFT_BODY,
        OperatorRule::Relations { no_in: false } => &RELATIONS_BODY,
        OperatorRule::Relations { no_in: true } => &RELATIONS_NO_IN_BODY,
        OperatorRule::Relation { no_in: false } => &RELATION_BODY,
        OperatorRule::Relation { no_in: true } => &RELATION_NO_IN_BODY,
        OperatorRule::Equalities { no_in: false } => &EQUALITIES_BODY,
        OperatorRule::Equalities { no_in: true } => &EQUALITIES_NO_IN_BODY,
        OperatorRule::Equality { no_in: false } => &EQUALITY_BODY,
        OperatorRule::Equality { no_in: true } => &EQUALITY_NO_IN_BODY,
        OperatorRule::BitAnd { no_in: false } => &BIT_AND_BODY,
        OperatorRule::BitAnd { no_in: true } => &BIT_AND_NO_IN_BODY,
        OperatorRule::BitXor { no_in: false } => &BIT_XOR_BODY,
        OperatorRule::BitXor { no_in: true } => &BIT_XOR_NO_IN_BODY,
        OperatorRule::BitOr { no_in: false } => &BIT_OR_BODY,
        OperatorRule::BitOr { no_in: true } => &BIT_OR_NO_IN_BODY,
        OperatorRule::ShortCircuit { no_in: false } => &SHORT_CIRCUIT_BODY,
        OperatorRule::ShortCircuit { no_in: true } => &SHORT_CIRCUIT_NO_IN_BODY,
    }
}

pub(super) const UPDATE: Production = The(Rule::Operator(OperatorRule::Update));

pub(super) const PREFIXED: Production = The(Rule::Operator(OperatorRule::Prefixed));

pub(super) const OPERAND: Production = The(Rule::Operator(OperatorRule::Operand));

pub(super) const EXPONENTIATION: Production = The(Rule::Operator(OperatorRule::Exponentiation));

pub(super) const FACTORS: Production = The(Rule::Operator(OperatorRule::Factors));

pub(super) const TERMS: Production = The(Rule::Operator(OperatorRule::Terms));

pub(super) const SHIFTS: Production = The(Rule::Operator(OperatorRule::Shifts));

pub(super) const SHIFT: Production = The(Rule::Operator(OperatorRule::Shift));

// (~('++' / '--'))?
pub(super) const UPDATES: Production = first_of!(
    all!(
        SameLine,
        item!(
            Plain::UpdateExpr {
                op: UpdateOp::PlusPlus,
                prefix: false
            },
            punct!("++")
        )
    ),
    all!(
        SameLine,
        item!(
            Plain::UpdateExpr {
                op: UpdateOp::MinusMinus,
                prefix: false
            },
            punct!("--")
        )
    ),
    Nothing
);

// Update = ('++' / '--') Operand / Chain (~('++' / '--'))?
static UPDATE_BODY: Production = first_of!(
    node!(
        Plain::UpdateExpr {
            op: UpdateOp::PlusPlus,
            prefix: true
        },
        Behind(Terminal::Punct("++"), Part::Operand)
    ),
    node!(
        Plain::UpdateExpr {
            op: UpdateOp::MinusMinus,
            prefix: true
        },
        Behind(Terminal::Punct("--"), Part::Operand)
    ),
    Build(Form::Chain, &all!(CHAIN, UPDATES))
);

// Pre Operand
static PREFIXED_BODY: Production = first_of!(
    node!(
        Plain::UnaryExpr(UnaryOp::Delete),
        Behind(Terminal::Word("delete"), Part::Operand)
    ),
    node!(
        Plain::UnaryExpr(UnaryOp::Void),
        Behind(Terminal::Word("void"), Part::Operand)
    ),
    node!(
        Plain::UnaryExpr(UnaryOp::TypeOf),
        Behind(Terminal::Word("typeof"), Part::Operand)
    ),
    node!(
        Plain::UnaryExpr(UnaryOp::Plus),
        Behind(Terminal::Punct("+"), Part::Operand)
    ),
    node!(
        Plain::UnaryExpr(UnaryOp::Minus),
        Behind(Terminal::Punct("-"), Part::Operand)
    ),
    node!(
        Plain::UnaryExpr(UnaryOp::Tilde),
        Behind(Terminal::Punct("~"), Part::Operand)
    ),
    node!(
        Plain::UnaryExpr(UnaryOp::Bang),
        Behind(Terminal::Punct("!"), Part::Operand)
    ),
    node!(
        Plain::AwaitExpr,
        Behind(Terminal::Word("await"), Part::Operand)
    ),
    Marked(&Build(
        Form::Assertion,
        &Behind(Terminal::Kind(TokenKind::LeftAngle), Part::Assertion)
    ))
);

// Operand = Pre Operand / Update
static OPERAND_BODY: Production = first_of!(PREFIXED, UPDATE);

// ('const' / Type) ">" Operand, after "<"
pub(super) static ASSERTION_BODY: Production = all!(
    first_of!(word!("const"), bare!(Plain::TsType, TYPE_)),
    RIGHT_ANGLE,
    OPERAND
);

// Exp = Pre Operand / Update ('**' Exp)?
static EXPONENTIATION_BODY: Production = first_of!(
    PREFIXED,
    Build(
        Form::Chain,
        &all!(
            UPDATE,
            optional!(Behind(Terminal::Punct("**"), Part::Power))
        )
    )
);

pub(super) static POWER_BODY: Production = item!(Plain::BinExpr(BinaryOp::Exp), EXPONENTIATION);

macro_rules! operator {
    ($sign:expr, $op:ident, $no_in:tt) => { Behind(Terminal::Punct($sign), Part::Binary { op: BinaryOp::$op, no_in: $no_in }) };
}

pub(super) use operator;

// Mul, Add, Shift = left chains of `*` `/` `%`, of `+` `-`, of `<<` `>>` `>>>`
static FACTORS_BODY: Production = first_of!(
    operator!("*", Mul, false),
    operator!("/", Div, false),
    operator!("%", Mod, false),
    Nothing
);

static TERMS_BODY: Production = first_of!(
    operator!("+", Add, false),
    operator!("-", Sub, false),
    Nothing
);

static SHIFTS_BODY: Production = first_of!(
    operator!("<<", LShift, false),
    operator!(">>", RShift, false),
    operator!(">>>", ZeroFillRShift, false),
    Nothing
);

pub(super) const PRODUCT: Production = Build(Form::Chain, &all!(EXPONENTIATION, FACTORS));

pub(super) const SUM: Production = Build(Form::Chain, &all!(PRODUCT, TERMS));

static SHIFT_BODY: Production = Build(Form::Chain, &all!(SUM, SHIFTS));

// `in`, where it is an operator
macro_rules! if_in {
    (true, $g:expr) => { Unless(&Nothing) };
    (false, $g:expr) => { $g };
}

pub(super) use if_in;

// (('<' / '>' / '<=' / '>=' / 'instanceof' / 'in') Shift / T ~'as' ('const' / Type) Tighter / T ~'satisfies' Type Tighter)*
macro_rules! relations {
    ($no_in:tt) => { The(Rule::Operator(OperatorRule::Relations { no_in: $no_in })) };
}

pub(super) use relations;

macro_rules! relations_body {
    ($no_in:tt) => { first_of!(operator!("<", Lt, $no_in), operator!(">", Gt, $no_in), operator!("<=", LtEq, $no_in), operator!(">=", GtEq, $no_in), Behind(Terminal::Word("instanceof"), Part::Binary { op: BinaryOp::InstanceOf, no_in: $no_in }), if_in!($no_in, Behind(Terminal::Word("in"), Part::Binary { op: BinaryOp::In, no_in: $no_in })), Marked(&all!(SameLine, Behind(Terminal::Word("as"), Part::As { no_in: $no_in }))), Marked(&all!(SameLine, Behind(Terminal::Word("satisfies"), Part::Satisfies { no_in: $no_in }))), Nothing) };
}

static RELATIONS_BODY: Production = relations_body!(false);

static RELATIONS_NO_IN_BODY: Production = relations_body!(true);

// Rel = (PrivName 'in' Shift / Shift) ..
macro_rules! relation {
    ($no_in:tt) => { The(Rule::Operator(OperatorRule::Relation { no_in: $no_in })) };
}

pub(super) use relation;

macro_rules! relation_body {
    ($no_in:tt) => { Build(Form::Chain, &all!(first_of!(if_in!($no_in, all!(Keep(Leaf::PrivateName), item!(Plain::BinExpr(BinaryOp::In), all!(word!("in"), SHIFT)))), SHIFT), relations!($no_in))) };
}

static RELATION_BODY: Production = relation_body!(false);

static RELATION_NO_IN_BODY: Production = relation_body!(true);

// Tighter = ('**' Exp)? and left chains of `*` `/` `%`, of `+` `-`, of `<<` `>>` `>>>`, whose left operand is all that stands before, and what stands after these
macro_rules! behind_type {
    ($no_in:tt) => { all!(optional!(Behind(Terminal::Punct("**"), Part::Power)), FACTORS, TERMS, SHIFTS, relations!($no_in)) };
}

pub(super) use behind_type;

// 'const' / Type, after `as`
macro_rules! as_body {
    ($no_in:tt) => { all!(first_of!(item!(Plain::TsConstAssertion, word!("const")), item!(Plain::TsAsExpr, bare!(Plain::TsType, TYPE_))), behind_type!($no_in)) };
}

pub(super) use as_body;

macro_rules! satisfies_body {
    ($no_in:tt) => { all!(item!(Plain::TsSatisfiesExpr, bare!(Plain::TsType, TYPE_)), behind_type!($no_in)) };
}

pub(super) use satisfies_body;

// Eq, BitAnd, BitXor, BitOr = left chains of `==` `!=` `===` `!==`, of `&`, of `^`, of `|`
macro_rules! equalities {
    ($no_in:tt) => { The(Rule::Operator(OperatorRule::Equalities { no_in: $no_in })) };
}

pub(super) use equalities;

macro_rules! equalities_body {
    ($no_in:tt) => { first_of!(operator!("==", EqEq, $no_in), operator!("!=", NotEq, $no_in), operator!("===", EqEqEq, $no_in), operator!("!==", NotEqEq, $no_in), Nothing) };
}

static EQUALITIES_BODY: Production = equalities_body!(false);

static EQUALITIES_NO_IN_BODY: Production = equalities_body!(true);

macro_rules! conjunctions {
    ($no_in:tt) => { optional!(operator!("&", BitAnd, $no_in)) };
}

pub(super) use conjunctions;

macro_rules! exclusions {
    ($no_in:tt) => { optional!(operator!("^", BitXor, $no_in)) };
}

pub(super) use exclusions;

macro_rules! disjunctions {
    ($no_in:tt) => { optional!(operator!("|", BitOr, $no_in)) };
}

pub(super) use disjunctions;

macro_rules! equality {
    ($no_in:tt) => { The(Rule::Operator(OperatorRule::Equality { no_in: $no_in })) };
}

pub(super) use equality;

macro_rules! equality_body {
    ($no_in:tt) => { Build(Form::Chain, &all!(relation!($no_in), equalities!($no_in))) };
}

static EQUALITY_BODY: Production = equality_body!(false);

static EQUALITY_NO_IN_BODY: Production = equality_body!(true);

macro_rules! bit_and {
    ($no_in:tt) => { The(Rule::Operator(OperatorRule::BitAnd { no_in: $no_in })) };
}

pub(super) use bit_and;

macro_rules! bit_and_body {
    ($no_in:tt) => { Build(Form::Chain, &all!(equality!($no_in), conjunctions!($no_in))) };
}

static BIT_AND_BODY: Production = bit_and_body!(false);

static BIT_AND_NO_IN_BODY: Production = bit_and_body!(true);

macro_rules! bit_xor {
    ($no_in:tt) => { The(Rule::Operator(OperatorRule::BitXor { no_in: $no_in })) };
}

pub(super) use bit_xor;

macro_rules! bit_xor_body {
    ($no_in:tt) => { Build(Form::Chain, &all!(bit_and!($no_in), exclusions!($no_in))) };
}

static BIT_XOR_BODY: Production = bit_xor_body!(false);

static BIT_XOR_NO_IN_BODY: Production = bit_xor_body!(true);

macro_rules! bit_or {
    ($no_in:tt) => { The(Rule::Operator(OperatorRule::BitOr { no_in: $no_in })) };
}

pub(super) use bit_or;

macro_rules! bit_or_body {
    ($no_in:tt) => { Build(Form::Chain, &all!(bit_xor!($no_in), disjunctions!($no_in))) };
}

static BIT_OR_BODY: Production = bit_or_body!(false);

static BIT_OR_NO_IN_BODY: Production = bit_or_body!(true);

// the right side of an operator, and the operators that stand after it in its chain
macro_rules! right_side {
    (Mul, $no_in:tt) => { EXPONENTIATION };
    (Div, $no_in:tt) => { EXPONENTIATION };
    (Mod, $no_in:tt) => { EXPONENTIATION };
    (Add, $no_in:tt) => { PRODUCT };
    (Sub, $no_in:tt) => { PRODUCT };
    (LShift, $no_in:tt) => { SUM };
    (RShift, $no_in:tt) => { SUM };
    (ZeroFillRShift, $no_in:tt) => { SUM };
    (Lt, $no_in:tt) => { SHIFT };
    (Gt, $no_in:tt) => { SHIFT };
    (LtEq, $no_in:tt) => { SHIFT };
    (GtEq, $no_in:tt) => { SHIFT };
    (InstanceOf, $no_in:tt) => { SHIFT };
    (In, $no_in:tt) => { SHIFT };
    (EqEq, $no_in:tt) => { relation!($no_in) };
    (NotEq, $no_in:tt) => { relation!($no_in) };
    (EqEqEq, $no_in:tt) => { relation!($no_in) };
    (NotEqEq, $no_in:tt) => { relation!($no_in) };
    (BitAnd, $no_in:tt) => { equality!($no_in) };
    (BitXor, $no_in:tt) => { bit_and!($no_in) };
    (BitOr, $no_in:tt) => { bit_xor!($no_in) };
    (Exp, $no_in:tt) => { EXPONENTIATION };
    (LogicalAnd, $no_in:tt) => { bit_or!($no_in) };
    (LogicalOr, $no_in:tt) => { bit_or!($no_in) };
    (NullishCoalescing, $no_in:tt) => { bit_or!($no_in) };
}

pub(super) use right_side;

// Short = BitOr (('??' BitOr)+ / ('&&' BitOr)* ('||' BitOr ('&&' BitOr)*)*)
macro_rules! coalescing {
    ($no_in:tt) => { Behind(Terminal::Punct("??"), Part::Binary { op: BinaryOp::NullishCoalescing, no_in: $no_in }) };
}

pub(super) use coalescing;

macro_rules! logicals {
    ($no_in:tt) => { first_of!(Behind(Terminal::Punct("&&"), Part::Binary { op: BinaryOp::LogicalAnd, no_in: $no_in }), Behind(Terminal::Punct("||"), Part::Binary { op: BinaryOp::LogicalOr, no_in: $no_in }), Nothing) };
}

pub(super) use logicals;

macro_rules! short_circuit {
    ($no_in:tt) => { The(Rule::Operator(OperatorRule::ShortCircuit { no_in: $no_in })) };
}

pub(super) use short_circuit;

macro_rules! short_circuit_body {
    ($no_in:tt) => { Build(Form::Logical, &all!(bit_or!($no_in), first_of!(coalescing!($no_in), logicals!($no_in)))) };
}

static SHORT_CIRCUIT_BODY: Production = short_circuit_body!(false);

static SHORT_CIRCUIT_NO_IN_BODY: Production = short_circuit_body!(true);

// the operators that stand after the right side in its chain
macro_rules! more_operators {
    (Mul, $no_in:tt) => { FACTORS };
    (Div, $no_in:tt) => { FACTORS };
    (Mod, $no_in:tt) => { FACTORS };
    (Add, $no_in:tt) => { TERMS };
    (Sub, $no_in:tt) => { TERMS };
    (LShift, $no_in:tt) => { SHIFTS };
    (RShift, $no_in:tt) => { SHIFTS };
    (ZeroFillRShift, $no_in:tt) => { SHIFTS };
    (Lt, $no_in:tt) => { relations!($no_in) };
    (Gt, $no_in:tt) => { relations!($no_in) };
    (LtEq, $no_in:tt) => { relations!($no_in) };
    (GtEq, $no_in:tt) => { relations!($no_in) };
    (InstanceOf, $no_in:tt) => { relations!($no_in) };
    (In, $no_in:tt) => { relations!($no_in) };
    (EqEq, $no_in:tt) => { equalities!($no_in) };
    (NotEq, $no_in:tt) => { equalities!($no_in) };
    (EqEqEq, $no_in:tt) => { equalities!($no_in) };
    (NotEqEq, $no_in:tt) => { equalities!($no_in) };
    (BitAnd, $no_in:tt) => { conjunctions!($no_in) };
    (BitXor, $no_in:tt) => { exclusions!($no_in) };
    (BitOr, $no_in:tt) => { disjunctions!($no_in) };
    (Exp, $no_in:tt) => { Nothing };
    (LogicalAnd, $no_in:tt) => { logicals!($no_in) };
    (LogicalOr, $no_in:tt) => { logicals!($no_in) };
    (NullishCoalescing, $no_in:tt) => { optional!(coalescing!($no_in)) };
}

pub(super) use more_operators;

// an operator's right side, with what stands after it
macro_rules! binary_body {
    ($op:ident, $no_in:tt) => { all!(item!(Plain::BinExpr(BinaryOp::$op), right_side!($op, $no_in)), more_operators!($op, $no_in)) };
}

pub(super) use binary_body;
