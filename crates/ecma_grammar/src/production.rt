//! Productions as data.
use crate::productions::{
    ChainRule, ClassRule, DeclarationRule, ExpressionRule, FunctionRule, ModuleRule, NameRule,
    OperatorRule, PatternRule, PrimaryRule, StatementRule, TypeRule,
};
use ecma_tree::{AssignOp, BinaryOp, MetaPropKind, MethodKind, UnaryOp, UpdateOp, VarDeclKind};

/// A part of the grammar whose use raises the level.
#[derive(Clone, Copy, Debug)]
pub enum Part {
    Statement,
    NamespaceBody,
    /// A declaration after `declare`.
    Declared,
    /// AssignmentExpression: without the operator `in` where `no_in` is set; in the middle of a conditional expression where `middle` is set.
    Assign { no_in: bool, middle: bool },
    Pattern,
    Type,
    TypeOperator,
    /// `[]` or an index, after the `[` that follows a type.
    ArraySuffix,
    /// The operand of a prefix operator.
    Operand,
    /// What stands after `<` in `<T>e`.
    Assertion,
    /// What stands after `new`.
    New,
    /// The right side of `**`.
    Power,
    /// What stands after `class`; its name may be missing where `named` is not set.
    Class { named: bool },
    Link(Link),
    /// A link of the callee of `new`.
    NewLink(Link),
    /// What stands after a binary operator whose chains go to the left.
    Binary { op: BinaryOp, no_in: bool },
    /// What stands after `as`.
    As { no_in: bool },
    /// What stands after `satisfies`.
    Satisfies { no_in: bool },
    /// A name after a point, in the name of a namespace.
    DottedName,
    /// A name after a point, in what stands after `import a =`.
    DottedKey,
}

/// A link of a chain of members and calls.
#[derive(Clone, Copy, Debug)]
pub enum Link {
    Dot,
    Optional,
    Bracket,
    Call,
    Tagged,
    NonNull,
    Instantiation,
}

/// A text part of a template: the first or a later one, after a tag or not, the last or one before a substitution.
#[derive(Clone, Copy, Debug)]
pub struct TemplatePart {
    pub first: bool,
    pub tagged: bool,
    pub last: bool,
}

/// A kind of token.
#[derive(Clone, Copy, Debug)]
pub enum TokenKind {
    Name,
    Key,
    PrivateName,
    Str,
    Number,
    BigInt,
    Template(TemplatePart),
    /// The character `<`, whatever follows.
    LeftAngle,
    /// The character `>`, whatever follows.
    RightAngle,
    /// The end of a statement.
    End,
    EndOfText,
}

/// A token that a production takes.
#[derive(Clone, Copy, Debug)]
pub enum Terminal {
    /// A key with this text.
    Word(&'static str),
    /// This punctuator.
    Punct(&'static str),
    Kind(TokenKind),
}

/// A token that is kept as a node.
#[derive(Clone, Copy, Debug)]
pub enum Leaf {
    Ident,
    /// A key as an identifier.
    KeyIdent,
    /// `this` as the name of a parameter.
    ThisIdent,
    IdentName,
    PrivateName,
    Str,
    Number,
    BigInt,
    Regex,
    TplElement(TemplatePart),
    This,
    Null,
    True,
    False,
    Super,
    Import,
    /// `#!` and what stands after it, as a name with that text.
    Hashbang,
}

/// A node of no text, which says whether something was read.
#[derive(Clone, Copy, Debug)]
pub enum Flag {
    Absent,
    Present,
}

/// A kind of node without texts of its own.
#[derive(Clone, Copy, Debug)]
pub enum Plain {
    BindingIdent,
    ArrayLit,
    ObjectLit,
    SpreadElement,
    UnaryExpr(UnaryOp),
    UpdateExpr { op: UpdateOp, prefix: bool },
    BinExpr(BinaryOp),
    AssignExpr(AssignOp),
    CondExpr,
    MemberExpr,
    SuperPropExpr,
    CallExpr,
    NewExpr,
    OptChainExpr { optional: bool },
    OptCall,
    SeqExpr,
    Tpl,
    TaggedTpl,
    YieldExpr { delegate: bool },
    AwaitExpr,
    MetaPropExpr(MetaPropKind),
    ParenExpr,
    TsTypeAssertion,
    TsConstAssertion,
    TsNonNullExpr,
    TsAsExpr,
    TsInstantiation,
    TsSatisfiesExpr,
    KeyValueProp,
    AssignProp,
    GetterProp,
    SetterProp,
    MethodProp,
    ComputedPropName,
    FnExpr,
    FnDecl,
    ClassExpr,
    ClassDecl,
    Param,
    StaticBlock,
    ArrayPat,
    ObjectPat,
    RestPat,
    AssignPat,
    KeyValuePatProp,
    AssignPatProp,
    BlockStmt,
    EmptyStmt,
    DebuggerStmt,
    ExprStmt,
    ReturnStmt,
    ThrowStmt,
    LabeledStmt,
    BreakStmt,
    ContinueStmt,
    IfStmt,
    SwitchStmt,
    SwitchCase,
    TryStmt,
    CatchClause,
    WhileStmt,
    DoWhileStmt,
    ForStmt,
    ForInStmt,
    ForOfStmt { is_await: bool },
    VarDecl(VarDeclKind),
    VarDeclarator { definite: bool },
    TsInterfaceDecl,
    TsTypeAliasDecl,
    TsEnumDecl { is_const: bool },
    TsEnumMember,
    TsModuleDecl { global: bool },
    TsNamespaceDecl,
    TsModuleBlock,
    ImportDecl { type_only: bool },
    ImportNamedSpecifier { is_type_only: bool },
    ImportDefaultSpecifier,
    ImportStarAsSpecifier,
    ExportDecl,
    NamedExport { type_only: bool },
    ExportNamedSpecifier { is_type_only: bool },
    ExportNamespaceSpecifier,
    ExportDefaultDecl,
    ExportDefaultExpr,
    ExportAll { type_only: bool },
    TsExternalModuleRef,
    TsQualifiedName,
    TsExportAssignment,
    TsNamespaceExportDecl,
    TsTypeAnn,
    TsType,
    TsTypeParamDecl,
    TsTypeParamInstantiation,
}

/// What is made of the nodes that were read.
#[derive(Clone, Copy, Debug)]
pub enum Form {
    /// A node with these children.
    Node(Plain),
    /// A type, or what holds some: a node with none of them.
    Bare(Plain),
    /// A declaration of a type: a node with the first of them.
    First(Plain),
    /// A node with these children, the last two exchanged.
    Swapped(Plain),
    /// A list of them.
    List,
    /// A list of them, without the last where that is missing.
    Elements,
    /// The one, or a sequence of all.
    Sequence,
    /// The first, in which each of the others holds what stands before it as its first child.
    Chain,
    /// The same for members, calls and templates: optional chains go on, type arguments go into a call, members of `super`.
    Links,
    /// The same for `&&`, `||` and `??`, where `&&` holds more tightly.
    Logical,
    /// A template of its text parts and what stands between them.
    Template,
    /// `async` or not, type parameters, parameters, return type, body.
    Arrow,
    /// `*` or not, operand.
    Yield,
    /// Callee, type arguments, arguments; or nothing, for `new.target`.
    New,
    /// A type and an operand; or the operand alone, for `<const>`.
    Assertion,
    /// A pattern, `?` or not, annotation.
    Annotated,
    /// A pattern, `!` or not, annotation, value.
    Declarator,
    /// Modifiers of a parameter property or nothing, pattern.
    Param,
    /// `async` or not, `*` or not, name, type parameters, parameters, return type, body; as an expression or a declaration, or as the method of an object.
    Function(Plain),
    /// Key, type parameters, parameters, return type, body.
    Getter,
    Setter,
    /// Name, type parameters, heritage, its type arguments, implemented types, members; as an expression or a declaration.
    Class { plain: Plain, is_abstract: bool },
    /// `async` or not, `*` or not, key, `?` or not, `!` or not, type parameters, parameters, return type, body.
    Method(MethodKind),
    /// Key, `?` or not, `!` or not, annotation, value.
    Field,
    /// Modifiers, member of a class.
    Modified,
    /// Modifiers, type of the index, annotation.
    IndexSignature,
    /// A signature inside a type: its key or its type parameters, parameters.
    Signature(MethodKind),
    /// The same after `new`.
    NewSignature,
    /// The head of a loop, its body.
    Headed,
    /// A declaration after `declare`.
    Declared,
    /// The names of a namespace, its body.
    Namespace,
    /// `export` or not, `type` or not, name, what it names.
    ImportEquals,
    /// Hashbang, items.
    Module,
}

/// A production that has a name, by topic.
#[derive(Clone, Copy, Debug)]
pub enum Rule {
    Name(NameRule),
    Type(TypeRule),
    Pattern(PatternRule),
    Function(FunctionRule),
    Primary(PrimaryRule),
    Chain(ChainRule),
    Operator(OperatorRule),
    Expression(ExpressionRule),
    Class(ClassRule),
    Declaration(DeclarationRule),
    Statement(StatementRule),
    Module(ModuleRule),
}

/// A production of the grammar.
#[derive(Clone, Copy)]
pub enum Production {
    /// Nothing.
    Nothing,
    /// A token, of which nothing is kept.
    Take(Terminal),
    /// A token that is kept as a node.
    Keep(Leaf),
    /// A node of no text.
    Put(Flag),
    /// One after the other.
    Then(&'static Production, &'static Production),
    /// The second, where the first fails.
    Or(&'static Production, &'static Production),
    /// As often as it is read.
    Many(&'static Production),
    /// It stands ahead, and is not taken.
    Ahead(&'static Production),
    /// It does not stand ahead.
    Unless(&'static Production),
    /// No line break stands before what follows.
    SameLine,
    /// TypeScript, absent in plain reading.
    Marked(&'static Production),
    /// TypeScript that may stay in plain reading: `import a = require("m")` and `export =`.
    Assigned(&'static Production),
    /// A part, one level further in; too deep where the reading stands.
    Up(Part),
    /// The same, too deep where the next token begins.
    Enter(Part),
    /// A part after a token, one level further in; too deep where that token begins.
    Behind(Terminal, Part),
    /// The production of that name.
    /// The production of that name.
    The(Rule),
    /// What is made of all that is read.
    Build(Form, &'static Production),
}

/// Which of the parts that are TypeScript are read.
#[derive(Clone, Copy, Debug)]
pub struct Mode {
    /// All of them.
    pub typescript: bool,
    /// `import a = require("m")` and `export =`.
    pub assignments: bool,
}
