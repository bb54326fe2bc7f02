//! Which children each kind of node has.
ghost use Rattle.std.specs.Prelude.{◌≡◌, IfSome, IsNone, length};
ghost use Rattle.ecma_kind.specs.Shapes.{IsFieldAt, LacksBefore, fields, field_shapes};

use crate::kind::Kind;

/// The name of a child, swc's name of the field.
#[derive(Clone, Copy, Debug, PartialEq, Eq)]
pub enum Field {
    Body,
    Id,
    TypeAnn,
    Elems,
    Props,
    Expr,
    Ident,
    Function,
    Class,
    Params,
    TypeParams,
    ReturnType,
    Arg,
    Left,
    Right,
    Test,
    Cons,
    Alt,
    Obj,
    Prop,
    Callee,
    Args,
    TypeArgs,
    Base,
    Exprs,
    Quasis,
    Tag,
    Tpl,
    Key,
    Value,
    ThisParam,
    Param,
    Pat,
    SuperClass,
    SuperTypeParams,
    Implements,
    Stmts,
    Label,
    Discriminant,
    Cases,
    Block,
    Handler,
    Finalizer,
    Init,
    Update,
    Decls,
    Name,
    Members,
    Specifiers,
    Src,
    With,
    Local,
    Imported,
    Decl,
    Orig,
    Exported,
    ModuleRef,
}

/// A set of kinds: those of one of swc's types.
#[derive(Clone, Copy, Debug, PartialEq, Eq)]
pub enum Sort {
    Program,
    Module,
    Script,
    ModuleItem,
    ModuleDecl,
    Stmt,
    Decl,
    Expr,
    Lit,
    Pat,
    Callee,
    ExprOrSpread,
    PropOrSpread,
    Prop,
    PropName,
    MemberProp,
    SuperProp,
    OptChainBase,
    AssignTarget,
    SimpleAssignTarget,
    AssignTargetPat,
    BlockStmtOrExpr,
    ClassMember,
    ParamOrTsParamProp,
    TsParamPropParam,
    ObjectPatProp,
    VarDeclOrExpr,
    ForHead,
    ImportSpecifier,
    ExportSpecifier,
    ModuleExportName,
    DefaultDecl,
    TsEnumMemberId,
    TsModuleName,
    TsNamespaceBody,
    TsModuleRef,
    TsEntityName,
    Ident,
    TsTypeAnn,
    Function,
    Class,
    TsTypeParamDecl,
    Super,
    TsTypeParamInstantiation,
    TplElement,
    Tpl,
    TsType,
    BlockStmt,
    Param,
    PrivateName,
    BindingIdent,
    SwitchCase,
    CatchClause,
    VarDeclarator,
    TsEnumMember,
    Str,
    ObjectLit,
    IdentName,
}

/// How many nodes of a sort a child is.
#[derive(Clone, Copy, Debug, PartialEq, Eq)]
pub enum Count {
    /// One.
    One,
    /// One, or [`Kind::Absent`].
    Maybe,
    /// A [`Kind::List`] of them.
    Many,
    /// A [`Kind::List`] of them, or [`Kind::Absent`].
    MaybeMany,
    /// A [`Kind::List`] of them, with [`Kind::Absent`] for the holes.
    Holes,
}

/// What a child may be: so many nodes of a sort.
#[derive(Clone, Copy, Debug, PartialEq, Eq)]
pub struct Shape {
    pub count: Count,
    pub sort: Sort,
}

/// A child of a kind: its name, and what it may be.
#[derive(Clone, Copy, Debug, PartialEq, Eq)]
pub struct FieldShape {
    pub field: Field,
    pub shape: Shape,
}

macro_rules! child {
    ($count:ident $field:ident: $sort:ident) => {
        FieldShape {
            field: Field::$field,
            shape: Shape {
                count: Count::$count,
                sort: Sort::$sort,
            },
        }
    };
}

/// The children of a kind, in order. A [`Kind::List`] has its items, and a [`Kind::SeqExpr`] its
/// expressions, and so none of these.
pub fn field_shapes(kind: &Kind) -> &'static [FieldShape]
    ensures { result.now ≡ field_shapes kind.now }
{
    match kind {
        Kind::Absent => &[],
        Kind::List => &[],
        Kind::Module { .. } => &[child!(Many Body: ModuleItem)],
        Kind::Script { .. } => &[child!(Many Body: Stmt)],
        Kind::Ident { .. } => &[],
        Kind::IdentName { .. } => &[],
        Kind::PrivateName { .. } => &[],
        Kind::BindingIdent => &[child!(One Id: Ident), child!(Maybe TypeAnn: TsTypeAnn)],
        Kind::Str { .. } => &[],
        Kind::Bool { .. } => &[],
        Kind::Null => &[],
        Kind::Number { .. } => &[],
        Kind::BigInt { .. } => &[],
        Kind::Regex { .. } => &[],
        Kind::ThisExpr => &[],
        Kind::Super => &[],
        Kind::Import => &[],
        Kind::ArrayLit => &[child!(Holes Elems: ExprOrSpread)],
        Kind::ObjectLit => &[child!(Many Props: PropOrSpread)],
        Kind::SpreadElement => &[child!(One Expr: Expr)],
        Kind::FnExpr => &[child!(Maybe Ident: Ident), child!(One Function: Function)],
        Kind::ClassExpr => &[child!(Maybe Ident: Ident), child!(One Class: Class)],
        Kind::ArrowExpr { .. } => &[
            child!(Many Params: Pat),
            child!(One Body: BlockStmtOrExpr),
            child!(Maybe TypeParams: TsTypeParamDecl),
            child!(Maybe ReturnType: TsTypeAnn),
        ],
        Kind::UnaryExpr { .. } => &[child!(One Arg: Expr)],
        Kind::UpdateExpr { .. } => &[child!(One Arg: Expr)],
        Kind::BinExpr { .. } => &[child!(One Left: Expr), child!(One Right: Expr)],
        Kind::AssignExpr { .. } => &[child!(One Left: AssignTarget), child!(One Right: Expr)],
        Kind::CondExpr => &[
            child!(One Test: Expr),
            child!(One Cons: Expr),
            child!(One Alt: Expr),
        ],
        Kind::MemberExpr => &[child!(One Obj: Expr), child!(One Prop: MemberProp)],
        Kind::SuperPropExpr => &[child!(One Obj: Super), child!(One Prop: SuperProp)],
        Kind::CallExpr => &[
            child!(One Callee: Callee),
            child!(Many Args: ExprOrSpread),
            child!(Maybe TypeArgs: TsTypeParamInstantiation),
        ],
        Kind::NewExpr => &[
            child!(One Callee: Expr),
            child!(MaybeMany Args: ExprOrSpread),
            child!(Maybe TypeArgs: TsTypeParamInstantiation),
        ],
        Kind::OptChainExpr { .. } => &[child!(One Base: OptChainBase)],
        Kind::OptCall => &[
            child!(One Callee: Expr),
            child!(Many Args: ExprOrSpread),
            child!(Maybe TypeArgs: TsTypeParamInstantiation),
        ],
        Kind::SeqExpr => &[],
        Kind::Tpl => &[child!(Many Exprs: Expr), child!(Many Quasis: TplElement)],
        Kind::TplElement { .. } => &[],
        Kind::TaggedTpl => &[
            child!(One Tag: Expr),
            child!(Maybe TypeParams: TsTypeParamInstantiation),
            child!(One Tpl: Tpl),
        ],
        Kind::YieldExpr { .. } => &[child!(Maybe Arg: Expr)],
        Kind::AwaitExpr => &[child!(One Arg: Expr)],
        Kind::MetaPropExpr { .. } => &[],
        Kind::ParenExpr => &[child!(One Expr: Expr)],
        Kind::TsTypeAssertion => &[child!(One Expr: Expr), child!(One TypeAnn: TsType)],
        Kind::TsConstAssertion => &[child!(One Expr: Expr)],
        Kind::TsNonNullExpr => &[child!(One Expr: Expr)],
        Kind::TsAsExpr => &[child!(One Expr: Expr), child!(One TypeAnn: TsType)],
        Kind::TsInstantiation => &[
            child!(One Expr: Expr),
            child!(One TypeArgs: TsTypeParamInstantiation),
        ],
        Kind::TsSatisfiesExpr => &[child!(One Expr: Expr), child!(One TypeAnn: TsType)],
        Kind::KeyValueProp => &[child!(One Key: PropName), child!(One Value: Expr)],
        Kind::AssignProp => &[child!(One Key: Ident), child!(One Value: Expr)],
        Kind::GetterProp => &[
            child!(One Key: PropName),
            child!(Maybe TypeAnn: TsTypeAnn),
            child!(Maybe Body: BlockStmt),
        ],
        Kind::SetterProp => &[
            child!(One Key: PropName),
            child!(Maybe ThisParam: Pat),
            child!(One Param: Pat),
            child!(Maybe Body: BlockStmt),
        ],
        Kind::MethodProp => &[child!(One Key: PropName), child!(One Function: Function)],
        Kind::ComputedPropName => &[child!(One Expr: Expr)],
        Kind::Function { .. } => &[
            child!(Many Params: Param),
            child!(Maybe Body: BlockStmt),
            child!(Maybe TypeParams: TsTypeParamDecl),
            child!(Maybe ReturnType: TsTypeAnn),
        ],
        Kind::Param => &[child!(One Pat: Pat)],
        Kind::Class { .. } => &[
            child!(Maybe SuperClass: Expr),
            child!(Many Body: ClassMember),
            child!(Maybe TypeParams: TsTypeParamDecl),
            child!(Maybe SuperTypeParams: TsTypeParamInstantiation),
            child!(Many Implements: TsType),
        ],
        Kind::Constructor { .. } => &[
            child!(One Key: PropName),
            child!(Many Params: ParamOrTsParamProp),
            child!(Maybe Body: BlockStmt),
        ],
        Kind::TsParamProp { .. } => &[child!(One Param: TsParamPropParam)],
        Kind::ClassMethod { .. } => &[child!(One Key: PropName), child!(One Function: Function)],
        Kind::PrivateMethod { .. } => &[
            child!(One Key: PrivateName),
            child!(One Function: Function),
        ],
        Kind::ClassProp { .. } => &[
            child!(One Key: PropName),
            child!(Maybe Value: Expr),
            child!(Maybe TypeAnn: TsTypeAnn),
        ],
        Kind::PrivateProp { .. } => &[
            child!(One Key: PrivateName),
            child!(Maybe Value: Expr),
            child!(Maybe TypeAnn: TsTypeAnn),
        ],
        Kind::StaticBlock => &[child!(One Body: BlockStmt)],
        Kind::TsIndexSignature { .. } => &[],
        Kind::ArrayPat { .. } => &[child!(Holes Elems: Pat), child!(Maybe TypeAnn: TsTypeAnn)],
        Kind::ObjectPat { .. } => &[
            child!(Many Props: ObjectPatProp),
            child!(Maybe TypeAnn: TsTypeAnn),
        ],
        Kind::RestPat => &[child!(One Arg: Pat), child!(Maybe TypeAnn: TsTypeAnn)],
        Kind::AssignPat => &[child!(One Left: Pat), child!(One Right: Expr)],
        Kind::KeyValuePatProp => &[child!(One Key: PropName), child!(One Value: Pat)],
        Kind::AssignPatProp => &[child!(One Key: BindingIdent), child!(Maybe Value: Expr)],
        Kind::BlockStmt => &[child!(Many Stmts: Stmt)],
        Kind::EmptyStmt => &[],
        Kind::DebuggerStmt => &[],
        Kind::ExprStmt => &[child!(One Expr: Expr)],
        Kind::ReturnStmt => &[child!(Maybe Arg: Expr)],
        Kind::ThrowStmt => &[child!(One Arg: Expr)],
        Kind::LabeledStmt => &[child!(One Label: Ident), child!(One Body: Stmt)],
        Kind::BreakStmt => &[child!(Maybe Label: Ident)],
        Kind::ContinueStmt => &[child!(Maybe Label: Ident)],
        Kind::IfStmt => &[
            child!(One Test: Expr),
            child!(One Cons: Stmt),
            child!(Maybe Alt: Stmt),
        ],
        Kind::SwitchStmt => &[
            child!(One Discriminant: Expr),
            child!(Many Cases: SwitchCase),
        ],
        Kind::SwitchCase => &[child!(Maybe Test: Expr), child!(Many Cons: Stmt)],
        Kind::TryStmt => &[
            child!(One Block: BlockStmt),
            child!(Maybe Handler: CatchClause),
            child!(Maybe Finalizer: BlockStmt),
        ],
        Kind::CatchClause => &[child!(Maybe Param: Pat), child!(One Body: BlockStmt)],
        Kind::WhileStmt => &[child!(One Test: Expr), child!(One Body: Stmt)],
        Kind::DoWhileStmt => &[child!(One Test: Expr), child!(One Body: Stmt)],
        Kind::ForStmt => &[
            child!(Maybe Init: VarDeclOrExpr),
            child!(Maybe Test: Expr),
            child!(Maybe Update: Expr),
            child!(One Body: Stmt),
        ],
        Kind::ForInStmt => &[
            child!(One Left: ForHead),
            child!(One Right: Expr),
            child!(One Body: Stmt),
        ],
        Kind::ForOfStmt { .. } => &[
            child!(One Left: ForHead),
            child!(One Right: Expr),
            child!(One Body: Stmt),
        ],
        Kind::FnDecl { .. } => &[child!(One Ident: Ident), child!(One Function: Function)],
        Kind::ClassDecl { .. } => &[child!(One Ident: Ident), child!(One Class: Class)],
        Kind::VarDecl { .. } => &[child!(Many Decls: VarDeclarator)],
        Kind::VarDeclarator { .. } => &[child!(One Name: Pat), child!(Maybe Init: Expr)],
        Kind::TsInterfaceDecl { .. } => &[child!(One Id: Ident)],
        Kind::TsTypeAliasDecl { .. } => &[child!(One Id: Ident)],
        Kind::TsEnumDecl { .. } => &[child!(One Id: Ident), child!(Many Members: TsEnumMember)],
        Kind::TsEnumMember => &[child!(One Id: TsEnumMemberId), child!(Maybe Init: Expr)],
        Kind::TsModuleDecl { .. } => &[
            child!(One Id: TsModuleName),
            child!(Maybe Body: TsNamespaceBody),
        ],
        Kind::TsModuleBlock => &[child!(Many Body: ModuleItem)],
        Kind::TsNamespaceDecl { .. } => &[child!(One Id: Ident), child!(One Body: TsNamespaceBody)],
        Kind::ImportDecl { .. } => &[
            child!(Many Specifiers: ImportSpecifier),
            child!(One Src: Str),
            child!(Maybe With: ObjectLit),
        ],
        Kind::ImportNamedSpecifier { .. } => &[
            child!(One Local: Ident),
            child!(Maybe Imported: ModuleExportName),
        ],
        Kind::ImportDefaultSpecifier => &[child!(One Local: Ident)],
        Kind::ImportStarAsSpecifier => &[child!(One Local: Ident)],
        Kind::ExportDecl => &[child!(One Decl: Decl)],
        Kind::NamedExport { .. } => &[
            child!(Many Specifiers: ExportSpecifier),
            child!(Maybe Src: Str),
            child!(Maybe With: ObjectLit),
        ],
        Kind::ExportNamedSpecifier { .. } => &[
            child!(One Orig: ModuleExportName),
            child!(Maybe Exported: ModuleExportName),
        ],
        Kind::ExportDefaultSpecifier => &[child!(One Exported: Ident)],
        Kind::ExportNamespaceSpecifier => &[child!(One Name: ModuleExportName)],
        Kind::ExportDefaultDecl => &[child!(One Decl: DefaultDecl)],
        Kind::ExportDefaultExpr => &[child!(One Expr: Expr)],
        Kind::ExportAll { .. } => &[child!(One Src: Str), child!(Maybe With: ObjectLit)],
        Kind::TsImportEqualsDecl { .. } => &[
            child!(One Id: Ident),
            child!(One ModuleRef: TsModuleRef),
        ],
        Kind::TsExternalModuleRef => &[child!(One Expr: Str)],
        Kind::TsQualifiedName => &[child!(One Left: TsEntityName), child!(One Right: IdentName)],
        Kind::TsExportAssignment => &[child!(One Expr: Expr)],
        Kind::TsNamespaceExportDecl => &[child!(One Id: Ident)],
        Kind::TsTypeAnn => &[child!(One TypeAnn: TsType)],
        Kind::TsType => &[],
        Kind::TsTypeParamDecl => &[],
        Kind::TsTypeParamInstantiation => &[],
    }
}

/// The index of the child of this name, counted from 0; `None` exactly where nodes of the kind have no such child.
pub fn field_index(kind: &Kind, field: Field) -> Option<usize>
    ensures some { IfSome result (IsFieldAt field kind.now) }
    ensures none { IsNone result → LacksBefore (length (fields kind.now)) field kind.now }
{
    let children = field_shapes(kind);
    for i in 0..children.len() {
        if children[i].field == field {
            return Some(i);
        }
    }
    None
}
