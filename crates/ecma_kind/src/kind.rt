//! The kinds of nodes, with the data of each that is no node.
use crate::context::SyntaxContext;
use crate::operators::{
    Accessibility, AssignOp, BinaryOp, MemberModifiers, MetaPropKind, MethodKind, UnaryOp,
    UpdateOp, VarDeclKind,
};
use crate::word::JsWord;
use ecma_number::JsNumber;

/// What a node is, with its own data that is no node. A kind fixes the number and the meaning of the node's children:
/// [`field_shapes`](crate::field_shapes) says which they are, in order. A child that may be missing is then
/// [`Kind::Absent`]. Names are those of swc.
#[derive(Debug, Drop, PartialEq, Eq)]
pub enum Kind {
    /// A child that is not there.
    Absent,
    /// Several nodes in one place. Its children are the items.
    List,
    /// A module (ECMAScript, 16.2), with the text after `#!` if it begins so.
    Module {
        shebang: Option<JsWord>,
    },
    /// A script (ECMAScript, 16.1), with the text after `#!` if it begins so.
    Script {
        shebang: Option<JsWord>,
    },
    /// An identifier that names a variable; `optional` with a `?` after it.
    Ident {
        sym: JsWord,
        ctxt: SyntaxContext,
        optional: bool,
    },
    /// A name that is no variable, as the key of a member.
    IdentName {
        sym: JsWord,
    },
    /// A private name, without its `#`.
    PrivateName {
        name: JsWord,
    },
    /// A declared name with its type.
    BindingIdent,
    /// A text: what it says, and its source text if it has one (ECMAScript, 12.9.4).
    Str {
        value: JsWord,
        raw: Option<JsWord>,
    },
    /// `true` or `false`.
    Bool {
        value: bool,
    },
    /// `null`.
    Null,
    /// A numeral: its value where that is in the number domain, and its source text if it has one (ECMAScript, 12.9.3).
    Number {
        value: Option<JsNumber>,
        raw: Option<JsWord>,
    },
    /// A numeral of a BigInt: without separators and without its `n`, and its source text if it has one.
    BigInt {
        value: JsWord,
        raw: Option<JsWord>,
    },
    /// A regular expression: its body and its flags (ECMAScript, 12.9.5).
    Regex {
        exp: JsWord,
        flags: JsWord,
    },
    /// `this`.
    ThisExpr,
    /// `super`, as a callee or before a key.
    Super,
    /// `import` as a callee.
    Import,
    /// An array (ECMAScript, 13.2.4). A hole is `Absent`.
    ArrayLit,
    /// An object (ECMAScript, 13.2.5). An `Ident` among its properties is a shorthand.
    ObjectLit,
    /// `...` and what is spread, in an array, in arguments or in an object.
    SpreadElement,
    /// A function as an expression (ECMAScript, 15.2).
    FnExpr,
    /// A class as an expression (ECMAScript, 15.7).
    ClassExpr,
    /// An arrow function (ECMAScript, 15.3).
    ArrowExpr {
        is_async: bool,
        is_generator: bool,
    },
    /// A unary operator (ECMAScript, 13.5).
    UnaryExpr {
        op: UnaryOp,
    },
    /// `++` or `--`; `prefix` before its operand (ECMAScript, 13.4).
    UpdateExpr {
        op: UpdateOp,
        prefix: bool,
    },
    /// A binary operator (ECMAScript, 13.6 to 13.13). On the left of `in` may stand a private name.
    BinExpr {
        op: BinaryOp,
    },
    /// An assignment (ECMAScript, 13.15).
    AssignExpr {
        op: AssignOp,
    },
    /// A conditional expression (ECMAScript, 13.14).
    CondExpr,
    /// A member of an object (ECMAScript, 13.3.2).
    MemberExpr,
    /// A member of `super` (ECMAScript, 13.3.7).
    SuperPropExpr,
    /// A call (ECMAScript, 13.3.6).
    CallExpr,
    /// A construction; without parentheses its arguments are missing (ECMAScript, 13.3.5).
    NewExpr,
    /// A link of an optional chain (ECMAScript, 13.3.9): `optional` with its own `?.`, else after one that is.
    OptChainExpr {
        optional: bool,
    },
    /// A call in an optional chain.
    OptCall,
    /// Expressions with commas between them (ECMAScript, 13.16), which are its children: at least one, `last` the last, `before` those before it.
    SeqExpr,
    /// A template (ECMAScript, 13.2.8).
    Tpl,
    /// A text part of a template: its source text, what it says if its escapes are well formed, and whether it is the last.
    TplElement {
        raw: JsWord,
        cooked: Option<JsWord>,
        tail: bool,
    },
    /// A template after a tag (ECMAScript, 13.3.11).
    TaggedTpl,
    /// `yield`, or `yield*` with `delegate` (ECMAScript, 15.5).
    YieldExpr {
        delegate: bool,
    },
    /// `await` (ECMAScript, 15.8).
    AwaitExpr,
    /// `new.target` or `import.meta` (ECMAScript, 13.3.12).
    MetaPropExpr {
        kind: MetaPropKind,
    },
    /// An expression in parentheses.
    ParenExpr,
    /// `<T>e`.
    TsTypeAssertion,
    /// `e as const` or `<const>e`.
    TsConstAssertion,
    /// `e!`.
    TsNonNullExpr,
    /// `e as T`.
    TsAsExpr,
    /// `e<T>`.
    TsInstantiation,
    /// `e satisfies T`.
    TsSatisfiesExpr,
    /// A property with its value.
    KeyValueProp,
    /// `{ a = e }`, which is read where a pattern may still come of the object.
    AssignProp,
    /// A getter of an object.
    GetterProp,
    /// A setter of an object.
    SetterProp,
    /// A method of an object.
    MethodProp,
    /// A key in brackets.
    ComputedPropName,
    /// What functions and methods have in common; without a body it is an overload or ambient.
    Function {
        is_generator: bool,
        is_async: bool,
    },
    /// A parameter.
    Param,
    /// What class declarations and expressions have in common.
    Class {
        is_abstract: bool,
    },
    /// A constructor; without a body it is an overload or ambient.
    Constructor {
        accessibility: Option<Accessibility>,
        is_optional: bool,
    },
    /// A parameter that declares a property (TypeScript handbook, "Parameter Properties").
    TsParamProp {
        accessibility: Option<Accessibility>,
        is_override: bool,
        readonly: bool,
    },
    /// A method, a getter or a setter of a class.
    ClassMethod {
        kind: MethodKind,
        modifiers: MemberModifiers,
    },
    /// The same with a private name.
    PrivateMethod {
        kind: MethodKind,
        modifiers: MemberModifiers,
    },
    /// A field of a class; `definite` with a `!` after its key.
    ClassProp {
        modifiers: MemberModifiers,
        readonly: bool,
        declare: bool,
        definite: bool,
    },
    /// The same with a private name.
    PrivateProp {
        modifiers: MemberModifiers,
        readonly: bool,
        declare: bool,
        definite: bool,
    },
    /// A block that runs when the class is made (ECMAScript, 15.7).
    StaticBlock,
    /// An index signature of a class; what it says is not kept.
    TsIndexSignature {
        readonly: bool,
        is_static: bool,
    },
    /// An array pattern (ECMAScript, 14.3.3). A hole is `Absent`.
    ArrayPat {
        optional: bool,
    },
    /// An object pattern.
    ObjectPat {
        optional: bool,
    },
    /// `...` and the pattern that takes the rest.
    RestPat,
    /// A pattern with a default.
    AssignPat,
    /// A property of an object pattern with its pattern.
    KeyValuePatProp,
    /// A name in an object pattern, with its default.
    AssignPatProp,
    /// A block (ECMAScript, 14.2).
    BlockStmt,
    /// `;` alone, as a statement or a member of a class.
    EmptyStmt,
    /// `debugger`.
    DebuggerStmt,
    /// An expression as a statement (ECMAScript, 14.5).
    ExprStmt,
    /// `return`.
    ReturnStmt,
    /// `throw`.
    ThrowStmt,
    /// A statement with a label (ECMAScript, 14.13).
    LabeledStmt,
    /// `break`.
    BreakStmt,
    /// `continue`.
    ContinueStmt,
    /// `if` (ECMAScript, 14.6).
    IfStmt,
    /// `switch` (ECMAScript, 14.12).
    SwitchStmt,
    /// A `case`; `default` without its test.
    SwitchCase,
    /// `try` (ECMAScript, 14.15).
    TryStmt,
    /// `catch`.
    CatchClause,
    /// `while` (ECMAScript, 14.7.3).
    WhileStmt,
    /// `do` .. `while` (ECMAScript, 14.7.2).
    DoWhileStmt,
    /// `for` with three parts (ECMAScript, 14.7.4).
    ForStmt,
    /// `for` over keys (ECMAScript, 14.7.5).
    ForInStmt,
    /// `for` over an iterator, `for await` with `is_await`.
    ForOfStmt {
        is_await: bool,
    },
    /// A function declaration.
    FnDecl {
        declare: bool,
    },
    /// A class declaration.
    ClassDecl {
        declare: bool,
    },
    /// `var`, `let` or `const` (ECMAScript, 14.3).
    VarDecl {
        kind: VarDeclKind,
        declare: bool,
    },
    /// A declared pattern with its value; `definite` with a `!` after its name.
    VarDeclarator {
        definite: bool,
    },
    /// An interface; what it says is not kept.
    TsInterfaceDecl {
        declare: bool,
    },
    /// A type alias; what it stands for is not kept.
    TsTypeAliasDecl {
        declare: bool,
    },
    /// An enum (TypeScript handbook, "Enums").
    TsEnumDecl {
        declare: bool,
        is_const: bool,
    },
    /// A member of an enum.
    TsEnumMember,
    /// A namespace, an ambient module, or `global` (TypeScript handbook, "Namespaces").
    TsModuleDecl {
        declare: bool,
        global: bool,
    },
    /// The body of a namespace.
    TsModuleBlock,
    /// A namespace inside another by its dotted name.
    TsNamespaceDecl {
        declare: bool,
        global: bool,
    },
    /// An import (ECMAScript, 16.2.2).
    ImportDecl {
        type_only: bool,
    },
    /// `a` or `a as b` in an import; without `imported` the two names are one.
    ImportNamedSpecifier {
        is_type_only: bool,
    },
    /// The default import.
    ImportDefaultSpecifier,
    /// `* as a` in an import.
    ImportStarAsSpecifier,
    /// An exported declaration (ECMAScript, 16.2.3).
    ExportDecl,
    /// A list of exports, with its source if it has one.
    NamedExport {
        type_only: bool,
    },
    /// `a` or `a as b` in an export; without `exported` the two names are one.
    ExportNamedSpecifier {
        is_type_only: bool,
    },
    /// A default export of another module by its name. No production of the grammar gives it.
    ExportDefaultSpecifier,
    /// `* as a` in an export.
    ExportNamespaceSpecifier,
    /// A function, a class or an interface as the default export.
    ExportDefaultDecl,
    /// An expression as the default export.
    ExportDefaultExpr,
    /// `export *`.
    ExportAll {
        type_only: bool,
    },
    /// `import a = ..`.
    TsImportEqualsDecl {
        is_export: bool,
        is_type_only: bool,
    },
    /// `require("m")` after `import a =`.
    TsExternalModuleRef,
    /// A dotted name after `import a =`.
    TsQualifiedName,
    /// `export = e`.
    TsExportAssignment,
    /// `export as namespace a`.
    TsNamespaceExportDecl,
    /// A type annotation.
    TsTypeAnn,
    /// A type; what it says is not kept.
    TsType,
    /// Type parameters; what they say is not kept.
    TsTypeParamDecl,
    /// Type arguments; what they say is not kept.
    TsTypeParamInstantiation,
}
