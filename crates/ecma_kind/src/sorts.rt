//! Which kinds of node each sort has.
ghost use Rattle.std.specs.Prelude.{◌≡◌};
ghost use Rattle.ecma_kind.specs.Sorts.{is_type_wrapper, is_lit, is_expr, is_decl, is_stmt, is_module_decl, is_pattern, is_prop, is_simple_assign_target, is_assign_target_pat, belongs};

use crate::kind::Kind;
use crate::shapes::Sort;

/// Whether it is an expression with a type round it.
fn is_type_wrapper(kind: &Kind) -> bool
    ensures { result ≡ is_type_wrapper kind.now }
{
    match kind {
        Kind::TsTypeAssertion
        | Kind::TsConstAssertion
        | Kind::TsNonNullExpr
        | Kind::TsAsExpr
        | Kind::TsInstantiation
        | Kind::TsSatisfiesExpr => true,
        _ => false,
    }
}

/// Whether it is a literal.
fn is_lit(kind: &Kind) -> bool
    ensures { result ≡ is_lit kind.now }
{
    match kind {
        Kind::Str { .. }
        | Kind::Bool { .. }
        | Kind::Null
        | Kind::Number { .. }
        | Kind::BigInt { .. }
        | Kind::Regex { .. } => true,
        _ => false,
    }
}

/// Whether it is an expression.
fn is_expr(kind: &Kind) -> bool
    ensures { result ≡ is_expr kind.now }
{
    match kind {
        Kind::ThisExpr
        | Kind::ArrayLit
        | Kind::ObjectLit
        | Kind::FnExpr
        | Kind::UnaryExpr { .. }
        | Kind::UpdateExpr { .. }
        | Kind::BinExpr { .. }
        | Kind::AssignExpr { .. }
        | Kind::MemberExpr
        | Kind::SuperPropExpr
        | Kind::CondExpr
        | Kind::CallExpr
        | Kind::NewExpr
        | Kind::SeqExpr
        | Kind::Ident { .. }
        | Kind::Tpl
        | Kind::TaggedTpl
        | Kind::ArrowExpr { .. }
        | Kind::ClassExpr
        | Kind::YieldExpr { .. }
        | Kind::MetaPropExpr { .. }
        | Kind::AwaitExpr
        | Kind::ParenExpr
        | Kind::PrivateName { .. }
        | Kind::OptChainExpr { .. } => true,
        _ => is_lit(kind) || is_type_wrapper(kind),
    }
}

/// Whether it is a declaration.
fn is_decl(kind: &Kind) -> bool
    ensures { result ≡ is_decl kind.now }
{
    match kind {
        Kind::ClassDecl { .. }
        | Kind::FnDecl { .. }
        | Kind::VarDecl { .. }
        | Kind::TsInterfaceDecl { .. }
        | Kind::TsTypeAliasDecl { .. }
        | Kind::TsEnumDecl { .. }
        | Kind::TsModuleDecl { .. } => true,
        _ => false,
    }
}

/// Whether it is a statement or a declaration.
fn is_stmt(kind: &Kind) -> bool
    ensures { result ≡ is_stmt kind.now }
{
    match kind {
        Kind::BlockStmt
        | Kind::EmptyStmt
        | Kind::DebuggerStmt
        | Kind::ReturnStmt
        | Kind::LabeledStmt
        | Kind::BreakStmt
        | Kind::ContinueStmt
        | Kind::IfStmt
        | Kind::SwitchStmt
        | Kind::ThrowStmt
        | Kind::TryStmt
        | Kind::WhileStmt
        | Kind::DoWhileStmt
        | Kind::ForStmt
        | Kind::ForInStmt
        | Kind::ForOfStmt { .. }
        | Kind::ExprStmt => true,
        _ => is_decl(kind),
    }
}

/// Whether it is an import or an export.
fn is_module_decl(kind: &Kind) -> bool
    ensures { result ≡ is_module_decl kind.now }
{
    match kind {
        Kind::ImportDecl { .. }
        | Kind::ExportDecl
        | Kind::NamedExport { .. }
        | Kind::ExportDefaultDecl
        | Kind::ExportDefaultExpr
        | Kind::ExportAll { .. }
        | Kind::TsImportEqualsDecl { .. }
        | Kind::TsExportAssignment
        | Kind::TsNamespaceExportDecl => true,
        _ => false,
    }
}

/// Whether it is a pattern that is no expression.
fn is_pattern(kind: &Kind) -> bool
    ensures { result ≡ is_pattern kind.now }
{
    match kind {
        Kind::BindingIdent
        | Kind::ArrayPat { .. }
        | Kind::RestPat
        | Kind::ObjectPat { .. }
        | Kind::AssignPat => true,
        _ => false,
    }
}

/// Whether it is a property of an object; an identifier there is a shorthand.
fn is_prop(kind: &Kind) -> bool
    ensures { result ≡ is_prop kind.now }
{
    match kind {
        Kind::Ident { .. }
        | Kind::KeyValueProp
        | Kind::AssignProp
        | Kind::GetterProp
        | Kind::SetterProp
        | Kind::MethodProp => true,
        _ => false,
    }
}

/// Whether it may be assigned to and is no pattern.
fn is_simple_assign_target(kind: &Kind) -> bool
    ensures { result ≡ is_simple_assign_target kind.now }
{
    match kind {
        Kind::Ident { .. } | Kind::MemberExpr | Kind::SuperPropExpr | Kind::ParenExpr => true,
        _ => is_type_wrapper(kind),
    }
}

/// Whether it is a pattern that may be assigned to.
fn is_assign_target_pat(kind: &Kind) -> bool
    ensures { result ≡ is_assign_target_pat kind.now }
{
    matches!(kind, Kind::ArrayPat { .. } | Kind::ObjectPat { .. })
}

/// Whether a kind is of a sort.
pub fn belongs(sort: Sort, kind: &Kind) -> bool
    ensures { result ≡ belongs sort kind.now }
{
    match sort {
        Sort::Program => matches!(kind, Kind::Module { .. } | Kind::Script { .. }),
        Sort::Module => matches!(kind, Kind::Module { .. }),
        Sort::Script => matches!(kind, Kind::Script { .. }),
        Sort::ModuleItem => is_stmt(kind) || is_module_decl(kind),
        Sort::ModuleDecl => is_module_decl(kind),
        Sort::Stmt => is_stmt(kind),
        Sort::Decl => is_decl(kind),
        Sort::Expr => is_expr(kind),
        Sort::Lit => is_lit(kind),
        Sort::Pat => is_expr(kind) || is_pattern(kind),
        Sort::Callee => matches!(kind, Kind::Super | Kind::Import) || is_expr(kind),
        Sort::ExprOrSpread => matches!(kind, Kind::SpreadElement) || is_expr(kind),
        Sort::PropOrSpread => matches!(kind, Kind::SpreadElement) || is_prop(kind),
        Sort::Prop => is_prop(kind),
        Sort::PropName => matches!(
            kind,
            Kind::IdentName { .. }
                | Kind::Str { .. }
                | Kind::Number { .. }
                | Kind::ComputedPropName
                | Kind::BigInt { .. }
        ),
        Sort::MemberProp => matches!(
            kind,
            Kind::IdentName { .. } | Kind::PrivateName { .. } | Kind::ComputedPropName
        ),
        Sort::SuperProp => matches!(kind, Kind::IdentName { .. } | Kind::ComputedPropName),
        Sort::OptChainBase => matches!(kind, Kind::MemberExpr | Kind::OptCall),
        Sort::AssignTarget => is_simple_assign_target(kind) || is_assign_target_pat(kind),
        Sort::SimpleAssignTarget => is_simple_assign_target(kind),
        Sort::AssignTargetPat => is_assign_target_pat(kind),
        Sort::BlockStmtOrExpr => matches!(kind, Kind::BlockStmt) || is_expr(kind),
        Sort::ClassMember => matches!(
            kind,
            Kind::Constructor { .. }
                | Kind::ClassMethod { .. }
                | Kind::PrivateMethod { .. }
                | Kind::ClassProp { .. }
                | Kind::PrivateProp { .. }
                | Kind::TsIndexSignature { .. }
                | Kind::EmptyStmt
                | Kind::StaticBlock
        ),
        Sort::ParamOrTsParamProp => matches!(kind, Kind::TsParamProp { .. } | Kind::Param),
        Sort::TsParamPropParam => matches!(kind, Kind::BindingIdent | Kind::AssignPat),
        Sort::ObjectPatProp => matches!(
            kind,
            Kind::KeyValuePatProp | Kind::AssignPatProp | Kind::RestPat
        ),
        Sort::VarDeclOrExpr => matches!(kind, Kind::VarDecl { .. }) || is_expr(kind),
        Sort::ForHead => matches!(kind, Kind::VarDecl { .. }) || is_expr(kind) || is_pattern(kind),
        Sort::ImportSpecifier => matches!(
            kind,
            Kind::ImportNamedSpecifier { .. }
                | Kind::ImportDefaultSpecifier
                | Kind::ImportStarAsSpecifier
        ),
        Sort::ExportSpecifier => matches!(
            kind,
            Kind::ExportNamespaceSpecifier
                | Kind::ExportDefaultSpecifier
                | Kind::ExportNamedSpecifier { .. }
        ),
        Sort::ModuleExportName => matches!(kind, Kind::Ident { .. } | Kind::Str { .. }),
        Sort::DefaultDecl => matches!(
            kind,
            Kind::ClassExpr | Kind::FnExpr | Kind::TsInterfaceDecl { .. }
        ),
        Sort::TsEnumMemberId => matches!(kind, Kind::Ident { .. } | Kind::Str { .. }),
        Sort::TsModuleName => matches!(kind, Kind::Ident { .. } | Kind::Str { .. }),
        Sort::TsNamespaceBody => matches!(kind, Kind::TsModuleBlock | Kind::TsNamespaceDecl { .. }),
        Sort::TsModuleRef => matches!(
            kind,
            Kind::Ident { .. } | Kind::TsQualifiedName | Kind::TsExternalModuleRef
        ),
        Sort::TsEntityName => matches!(kind, Kind::Ident { .. } | Kind::TsQualifiedName),
        Sort::Ident => matches!(kind, Kind::Ident { .. }),
        Sort::TsTypeAnn => matches!(kind, Kind::TsTypeAnn),
        Sort::Function => matches!(kind, Kind::Function { .. }),
        Sort::Class => matches!(kind, Kind::Class { .. }),
        Sort::TsTypeParamDecl => matches!(kind, Kind::TsTypeParamDecl),
        Sort::Super => matches!(kind, Kind::Super),
        Sort::TsTypeParamInstantiation => matches!(kind, Kind::TsTypeParamInstantiation),
        Sort::TplElement => matches!(kind, Kind::TplElement { .. }),
        Sort::Tpl => matches!(kind, Kind::Tpl),
        Sort::TsType => matches!(kind, Kind::TsType),
        Sort::BlockStmt => matches!(kind, Kind::BlockStmt),
        Sort::Param => matches!(kind, Kind::Param),
        Sort::PrivateName => matches!(kind, Kind::PrivateName { .. }),
        Sort::BindingIdent => matches!(kind, Kind::BindingIdent),
        Sort::SwitchCase => matches!(kind, Kind::SwitchCase),
        Sort::CatchClause => matches!(kind, Kind::CatchClause),
        Sort::VarDeclarator => matches!(kind, Kind::VarDeclarator { .. }),
        Sort::TsEnumMember => matches!(kind, Kind::TsEnumMember),
        Sort::Str => matches!(kind, Kind::Str { .. }),
        Sort::ObjectLit => matches!(kind, Kind::ObjectLit),
        Sort::IdentName => matches!(kind, Kind::IdentName { .. }),
    }
}
