//! A kind for each number: one of each variant, and `None` behind the last.
use ecma_tree::{
    Accessibility, AssignOp, BinaryOp, JsWord, Kind, MemberModifiers, MetaPropKind, MethodKind,
    NoMemory, SyntaxContext, UnaryOp, UpdateOp, VarDeclKind,
};
use std::alloc::Global;

const MODIFIERS: MemberModifiers = MemberModifiers {
    accessibility: Some(Accessibility::Private),
    is_static: true,
    is_abstract: false,
    is_optional: true,
    is_override: false,
};

fn word(alloc: Global) -> Result<JsWord, NoMemory> {
    JsWord::new(alloc, "größe")
}

/// Those of which nothing but the variant is told.
fn bare_kind(number: u32) -> Option<Kind> {
    Some(match number {
        0 => Kind::Absent,
        1 => Kind::List,
        2 => Kind::BindingIdent,
        3 => Kind::Null,
        4 => Kind::ThisExpr,
        5 => Kind::Super,
        6 => Kind::Import,
        7 => Kind::ArrayLit,
        8 => Kind::ObjectLit,
        9 => Kind::SpreadElement,
        10 => Kind::FnExpr,
        11 => Kind::ClassExpr,
        12 => Kind::CondExpr,
        13 => Kind::MemberExpr,
        14 => Kind::SuperPropExpr,
        15 => Kind::CallExpr,
        16 => Kind::NewExpr,
        17 => Kind::OptCall,
        18 => Kind::SeqExpr,
        19 => Kind::Tpl,
        20 => Kind::TaggedTpl,
        21 => Kind::AwaitExpr,
        22 => Kind::ParenExpr,
        23 => Kind::TsTypeAssertion,
        24 => Kind::TsConstAssertion,
        25 => Kind::TsNonNullExpr,
        26 => Kind::TsAsExpr,
        27 => Kind::TsInstantiation,
        28 => Kind::TsSatisfiesExpr,
        29 => Kind::KeyValueProp,
        30 => Kind::AssignProp,
        31 => Kind::GetterProp,
        32 => Kind::SetterProp,
        33 => Kind::MethodProp,
        34 => Kind::ComputedPropName,
        35 => Kind::Param,
        36 => Kind::StaticBlock,
        37 => Kind::RestPat,
        38 => Kind::AssignPat,
        39 => Kind::KeyValuePatProp,
        40 => Kind::AssignPatProp,
        41 => Kind::BlockStmt,
        42 => Kind::EmptyStmt,
        43 => Kind::DebuggerStmt,
        44 => Kind::ExprStmt,
        45 => Kind::ReturnStmt,
        46 => Kind::ThrowStmt,
        47 => Kind::LabeledStmt,
        48 => Kind::BreakStmt,
        49 => Kind::ContinueStmt,
        50 => Kind::IfStmt,
        51 => Kind::SwitchStmt,
        52 => Kind::SwitchCase,
        53 => Kind::TryStmt,
        54 => Kind::CatchClause,
        55 => Kind::WhileStmt,
        56 => Kind::DoWhileStmt,
        57 => Kind::ForStmt,
        58 => Kind::ForInStmt,
        59 => Kind::TsEnumMember,
        60 => Kind::TsModuleBlock,
        61 => Kind::ImportDefaultSpecifier,
        62 => Kind::ImportStarAsSpecifier,
        63 => Kind::ExportDecl,
        64 => Kind::ExportDefaultSpecifier,
        65 => Kind::ExportNamespaceSpecifier,
        66 => Kind::ExportDefaultDecl,
        67 => Kind::ExportDefaultExpr,
        68 => Kind::TsExternalModuleRef,
        69 => Kind::TsQualifiedName,
        70 => Kind::TsExportAssignment,
        71 => Kind::TsNamespaceExportDecl,
        72 => Kind::TsTypeAnn,
        73 => Kind::TsType,
        74 => Kind::TsTypeParamDecl,
        75 => Kind::TsTypeParamInstantiation,
        _ => return None,
    })
}

/// Those with data that take no memory.
fn flagged_kind(number: u32) -> Option<Kind> {
    Some(match number {
        0 => Kind::Bool { value: true },
        1 => Kind::ArrowExpr {
            is_async: true,
            is_generator: false,
        },
        2 => Kind::UnaryExpr {
            op: UnaryOp::Delete,
        },
        3 => Kind::UpdateExpr {
            op: UpdateOp::MinusMinus,
            prefix: false,
        },
        4 => Kind::BinExpr {
            op: BinaryOp::NullishCoalescing,
        },
        5 => Kind::AssignExpr {
            op: AssignOp::NullishAssign,
        },
        6 => Kind::OptChainExpr { optional: true },
        7 => Kind::YieldExpr { delegate: true },
        8 => Kind::MetaPropExpr {
            kind: MetaPropKind::ImportMeta,
        },
        9 => Kind::Function {
            is_generator: true,
            is_async: false,
        },
        10 => Kind::Class { is_abstract: true },
        11 => Kind::Constructor {
            accessibility: Some(Accessibility::Protected),
            is_optional: false,
        },
        12 => Kind::TsParamProp {
            accessibility: Some(Accessibility::Protected),
            is_override: false,
            readonly: true,
        },
        13 => Kind::ClassMethod {
            kind: MethodKind::Setter,
            modifiers: MODIFIERS,
        },
        14 => Kind::PrivateMethod {
            kind: MethodKind::Setter,
            modifiers: MODIFIERS,
        },
        15 => Kind::ClassProp {
            modifiers: MODIFIERS,
            readonly: false,
            declare: true,
            definite: false,
        },
        16 => Kind::PrivateProp {
            modifiers: MODIFIERS,
            readonly: false,
            declare: true,
            definite: false,
        },
        17 => Kind::TsIndexSignature {
            readonly: true,
            is_static: false,
        },
        18 => Kind::ArrayPat { optional: true },
        19 => Kind::ObjectPat { optional: true },
        20 => Kind::ForOfStmt { is_await: true },
        21 => Kind::FnDecl { declare: true },
        22 => Kind::ClassDecl { declare: true },
        23 => Kind::VarDecl {
            kind: VarDeclKind::Const,
            declare: false,
        },
        24 => Kind::VarDeclarator { definite: true },
        25 => Kind::TsInterfaceDecl { declare: true },
        26 => Kind::TsTypeAliasDecl { declare: true },
        27 => Kind::TsEnumDecl {
            declare: true,
            is_const: false,
        },
        28 => Kind::TsModuleDecl {
            declare: true,
            global: false,
        },
        29 => Kind::TsNamespaceDecl {
            declare: true,
            global: false,
        },
        30 => Kind::ImportDecl { type_only: true },
        31 => Kind::ImportNamedSpecifier { is_type_only: true },
        32 => Kind::NamedExport { type_only: true },
        33 => Kind::ExportNamedSpecifier { is_type_only: true },
        34 => Kind::ExportAll { type_only: true },
        35 => Kind::TsImportEqualsDecl {
            is_export: true,
            is_type_only: false,
        },
        _ => return None,
    })
}

/// Those with texts.
fn worded_kind(alloc: Global, number: u32) -> Result<Option<Kind>, NoMemory> {
    Ok(Some(match number {
        0 => Kind::Module {
            shebang: Some(word(alloc)?),
        },
        1 => Kind::Script {
            shebang: Some(word(alloc)?),
        },
        2 => Kind::Ident {
            sym: word(alloc)?,
            ctxt: SyntaxContext::empty(),
            optional: true,
        },
        3 => Kind::IdentName { sym: word(alloc)? },
        4 => Kind::PrivateName { name: word(alloc)? },
        5 => Kind::Str {
            value: word(alloc)?,
            raw: Some(word(alloc)?),
        },
        6 => Kind::Number {
            value: None,
            raw: Some(word(alloc)?),
        },
        7 => Kind::BigInt {
            value: word(alloc)?,
            raw: Some(word(alloc)?),
        },
        8 => Kind::Regex {
            exp: word(alloc)?,
            flags: word(alloc)?,
        },
        9 => Kind::TplElement {
            raw: word(alloc)?,
            cooked: Some(word(alloc)?),
            tail: true,
        },
        _ => return Ok(None),
    }))
}

/// How many variants there are.
pub const COUNT: u32 = 122;

/// The kind of a number below [`COUNT`].
pub fn kind_of(alloc: Global, number: u32) -> Result<Option<Kind>, NoMemory> {
    if number < 76 {
        return Ok(bare_kind(number));
    }
    if number < 112 {
        return Ok(flagged_kind(number - 76));
    }
    worded_kind(alloc, number - 112)
}
