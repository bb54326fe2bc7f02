//! The operators, the words of declarations and members, and the modifiers that kinds hold.

/// A unary operator (ECMAScript, 13.5).
#[derive(Clone, Copy, Debug, PartialEq, Eq)]
pub enum UnaryOp {
    /// `-`
    Minus,
    /// `+`
    Plus,
    /// `!`
    Bang,
    /// `~`
    Tilde,
    TypeOf,
    Void,
    Delete,
}

/// An update operator (ECMAScript, 13.4).
#[derive(Clone, Copy, Debug, PartialEq, Eq)]
pub enum UpdateOp {
    PlusPlus,
    MinusMinus,
}

/// A binary operator (ECMAScript, 13.6 to 13.13).
#[derive(Clone, Copy, Debug, PartialEq, Eq)]
pub enum BinaryOp {
    /// `==`
    EqEq,
    /// `!=`
    NotEq,
    /// `===`
    EqEqEq,
    /// `!==`
    NotEqEq,
    /// `<`
    Lt,
    /// `<=`
    LtEq,
    /// `>`
    Gt,
    /// `>=`
    GtEq,
    /// `<<`
    LShift,
    /// `>>`
    RShift,
    /// `>>>`
    ZeroFillRShift,
    /// `+`
    Add,
    /// `-`
    Sub,
    /// `*`
    Mul,
    /// `/`
    Div,
    /// `%`
    Mod,
    /// `|`
    BitOr,
    /// `^`
    BitXor,
    /// `&`
    BitAnd,
    /// `||`
    LogicalOr,
    /// `&&`
    LogicalAnd,
    In,
    InstanceOf,
    /// `**`
    Exp,
    /// `??`
    NullishCoalescing,
}

/// An assignment operator (ECMAScript, 13.15).
#[derive(Clone, Copy, Debug, PartialEq, Eq)]
pub enum AssignOp {
    /// `=`
    Assign,
    /// `+=`
    AddAssign,
    /// `-=`
    SubAssign,
    /// `*=`
    MulAssign,
    /// `/=`
    DivAssign,
    /// `%=`
    ModAssign,
    /// `<<=`
    LShiftAssign,
    /// `>>=`
    RShiftAssign,
    /// `>>>=`
    ZeroFillRShiftAssign,
    /// `|=`
    BitOrAssign,
    /// `^=`
    BitXorAssign,
    /// `&=`
    BitAndAssign,
    /// `**=`
    ExpAssign,
    /// `&&=`
    AndAssign,
    /// `||=`
    OrAssign,
    /// `??=`
    NullishAssign,
}

/// A meta property (ECMAScript, 13.3.12).
#[derive(Clone, Copy, Debug, PartialEq, Eq)]
pub enum MetaPropKind {
    NewTarget,
    ImportMeta,
}

/// How a variable is declared (ECMAScript, 14.3).
#[derive(Clone, Copy, Debug, PartialEq, Eq)]
pub enum VarDeclKind {
    Var,
    Let,
    Const,
}

/// What a method is (ECMAScript, 15.4).
#[derive(Clone, Copy, Debug, PartialEq, Eq)]
pub enum MethodKind {
    Method,
    Getter,
    Setter,
}

/// Who may use a member of a class (TypeScript handbook, "Member Visibility").
#[derive(Clone, Copy, Debug, PartialEq, Eq)]
pub enum Accessibility {
    Public,
    Protected,
    Private,
}

/// What methods and fields of a class have in common.
#[derive(Clone, Copy, Debug, PartialEq, Eq)]
pub struct MemberModifiers {
    pub accessibility: Option<Accessibility>,
    pub is_static: bool,
    pub is_abstract: bool,
    /// With a `?` after its key.
    pub is_optional: bool,
    pub is_override: bool,
}
