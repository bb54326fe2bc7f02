//! Copies of a kind with all its data.
ghost use Rattle.std.specs.Prelude.{◌≡◌, IfOk};

use crate::kind::Kind;
use crate::word::JsWord;
use ecma_number::NoMemory;

fn copy_word(word: &Option<JsWord>) -> Result<Option<JsWord>, NoMemory>
    ensures { IfOk result (λ copy. copy ≡ word.now) }
{
    match word {
        None => Ok(None),
        Some(text) => Ok(Some(text.clone()?)),
    }
}

/// An equal copy.
pub fn copy_kind(kind: &Kind) -> Result<Kind, NoMemory>
    ensures { IfOk result (λ copy. copy ≡ kind.now) }
{
    Ok(match kind {
        Kind::Absent => Kind::Absent,
        Kind::List => Kind::List,
        Kind::Module { shebang } => Kind::Module {
            shebang: copy_word(shebang)?,
        },
        Kind::Script { shebang } => Kind::Script {
            shebang: copy_word(shebang)?,
        },
        Kind::Ident {
            sym,
            ctxt,
            optional,
        } => Kind::Ident {
            sym: sym.clone()?,
            ctxt: *ctxt,
            optional: *optional,
        },
        Kind::IdentName { sym } => Kind::IdentName { sym: sym.clone()? },
        Kind::PrivateName { name } => Kind::PrivateName {
            name: name.clone()?,
        },
        Kind::BindingIdent => Kind::BindingIdent,
        Kind::Str { value, raw } => Kind::Str {
            value: value.clone()?,
            raw: copy_word(raw)?,
        },
        Kind::Bool { value } => Kind::Bool { value: *value },
        Kind::Null => Kind::Null,
        Kind::Number { value, raw } => Kind::Number {
            value: *value,
            raw: copy_word(raw)?,
        },
        Kind::BigInt { value, raw } => Kind::BigInt {
            value: value.clone()?,
            raw: copy_word(raw)?,
        },
        Kind::Regex { exp, flags } => Kind::Regex {
            exp: exp.clone()?,
            flags: flags.clone()?,
        },
        Kind::ThisExpr => Kind::ThisExpr,
        Kind::Super => Kind::Super,
        Kind::Import => Kind::Import,
        Kind::ArrayLit => Kind::ArrayLit,
        Kind::ObjectLit => Kind::ObjectLit,
        Kind::SpreadElement => Kind::SpreadElement,
        Kind::FnExpr => Kind::FnExpr,
        Kind::ClassExpr => Kind::ClassExpr,
        Kind::ArrowExpr {
            is_async,
            is_generator,
        } => Kind::ArrowExpr {
            is_async: *is_async,
            is_generator: *is_generator,
        },
        Kind::UnaryExpr { op } => Kind::UnaryExpr { op: *op },
        Kind::UpdateExpr { op, prefix } => Kind::UpdateExpr {
            op: *op,
            prefix: *prefix,
        },
        Kind::BinExpr { op } => Kind::BinExpr { op: *op },
        Kind::AssignExpr { op } => Kind::AssignExpr { op: *op },
        Kind::CondExpr => Kind::CondExpr,
        Kind::MemberExpr => Kind::MemberExpr,
        Kind::SuperPropExpr => Kind::SuperPropExpr,
        Kind::CallExpr => Kind::CallExpr,
        Kind::NewExpr => Kind::NewExpr,
        Kind::OptChainExpr { optional } => Kind::OptChainExpr {
            optional: *optional,
        },
        Kind::OptCall => Kind::OptCall,
        Kind::SeqExpr => Kind::SeqExpr,
        Kind::Tpl => Kind::Tpl,
        Kind::TplElement { raw, cooked, tail } => Kind::TplElement {
            raw: raw.clone()?,
            cooked: copy_word(cooked)?,
            tail: *tail,
        },
        Kind::TaggedTpl => Kind::TaggedTpl,
        Kind::YieldExpr { delegate } => Kind::YieldExpr {
            delegate: *delegate,
        },
        Kind::AwaitExpr => Kind::AwaitExpr,
        Kind::MetaPropExpr { kind } => Kind::MetaPropExpr { kind: *kind },
        Kind::ParenExpr => Kind::ParenExpr,
        Kind::TsTypeAssertion => Kind::TsTypeAssertion,
        Kind::TsConstAssertion => Kind::TsConstAssertion,
        Kind::TsNonNullExpr => Kind::TsNonNullExpr,
        Kind::TsAsExpr => Kind::TsAsExpr,
        Kind::TsInstantiation => Kind::TsInstantiation,
        Kind::TsSatisfiesExpr => Kind::TsSatisfiesExpr,
        Kind::KeyValueProp => Kind::KeyValueProp,
        Kind::AssignProp => Kind::AssignProp,
        Kind::GetterProp => Kind::GetterProp,
        Kind::SetterProp => Kind::SetterProp,
        Kind::MethodProp => Kind::MethodProp,
        Kind::ComputedPropName => Kind::ComputedPropName,
        Kind::Function {
            is_generator,
            is_async,
        } => Kind::Function {
            is_generator: *is_generator,
            is_async: *is_async,
        },
        Kind::Param => Kind::Param,
        Kind::Class { is_abstract } => Kind::Class {
            is_abstract: *is_abstract,
        },
        Kind::Constructor {
            accessibility,
            is_optional,
        } => Kind::Constructor {
            accessibility: *accessibility,
            is_optional: *is_optional,
        },
        Kind::TsParamProp {
            accessibility,
            is_override,
            readonly,
        } => Kind::TsParamProp {
            accessibility: *accessibility,
            is_override: *is_override,
            readonly: *readonly,
        },
        Kind::ClassMethod { kind, modifiers } => Kind::ClassMethod {
            kind: *kind,
            modifiers: *modifiers,
        },
        Kind::PrivateMethod { kind, modifiers } => Kind::PrivateMethod {
            kind: *kind,
            modifiers: *modifiers,
        },
        Kind::ClassProp {
            modifiers,
            readonly,
            declare,
            definite,
        } => Kind::ClassProp {
            modifiers: *modifiers,
            readonly: *readonly,
            declare: *declare,
            definite: *definite,
        },
        Kind::PrivateProp {
            modifiers,
            readonly,
            declare,
            definite,
        } => Kind::PrivateProp {
            modifiers: *modifiers,
            readonly: *readonly,
            declare: *declare,
            definite: *definite,
        },
        Kind::StaticBlock => Kind::StaticBlock,
        Kind::TsIndexSignature {
            readonly,
            is_static,
        } => Kind::TsIndexSignature {
            readonly: *readonly,
            is_static: *is_static,
        },
        Kind::ArrayPat { optional } => Kind::ArrayPat {
            optional: *optional,
        },
        Kind::ObjectPat { optional } => Kind::ObjectPat {
            optional: *optional,
        },
        Kind::RestPat => Kind::RestPat,
        Kind::AssignPat => Kind::AssignPat,
        Kind::KeyValuePatProp => Kind::KeyValuePatProp,
        Kind::AssignPatProp => Kind::AssignPatProp,
        Kind::BlockStmt => Kind::BlockStmt,
        Kind::EmptyStmt => Kind::EmptyStmt,
        Kind::DebuggerStmt => Kind::DebuggerStmt,
        Kind::ExprStmt => Kind::ExprStmt,
        Kind::ReturnStmt => Kind::ReturnStmt,
        Kind::ThrowStmt => Kind::ThrowStmt,
        Kind::LabeledStmt => Kind::LabeledStmt,
        Kind::BreakStmt => Kind::BreakStmt,
        Kind::ContinueStmt => Kind::ContinueStmt,
        Kind::IfStmt => Kind::IfStmt,
        Kind::SwitchStmt => Kind::SwitchStmt,
        Kind::SwitchCase => Kind::SwitchCase,
        Kind::TryStmt => Kind::TryStmt,
        Kind::CatchClause => Kind::CatchClause,
        Kind::WhileStmt => Kind::WhileStmt,
        Kind::DoWhileStmt => Kind::DoWhileStmt,
        Kind::ForStmt => Kind::ForStmt,
        Kind::ForInStmt => Kind::ForInStmt,
        Kind::ForOfStmt { is_await } => Kind::ForOfStmt {
            is_await: *is_await,
        },
        Kind::FnDecl { declare } => Kind::FnDecl { declare: *declare },
        Kind::ClassDecl { declare } => Kind::ClassDecl { declare: *declare },
        Kind::VarDecl { kind, declare } => Kind::VarDecl {
            kind: *kind,
            declare: *declare,
        },
        Kind::VarDeclarator { definite } => Kind::VarDeclarator {
            definite: *definite,
        },
        Kind::TsInterfaceDecl { declare } => Kind::TsInterfaceDecl { declare: *declare },
        Kind::TsTypeAliasDecl { declare } => Kind::TsTypeAliasDecl { declare: *declare },
        Kind::TsEnumDecl { declare, is_const } => Kind::TsEnumDecl {
            declare: *declare,
            is_const: *is_const,
        },
        Kind::TsEnumMember => Kind::TsEnumMember,
        Kind::TsModuleDecl { declare, global } => Kind::TsModuleDecl {
            declare: *declare,
            global: *global,
        },
        Kind::TsModuleBlock => Kind::TsModuleBlock,
        Kind::TsNamespaceDecl { declare, global } => Kind::TsNamespaceDecl {
            declare: *declare,
            global: *global,
        },
        Kind::ImportDecl { type_only } => Kind::ImportDecl {
            type_only: *type_only,
        },
        Kind::ImportNamedSpecifier { is_type_only } => Kind::ImportNamedSpecifier {
            is_type_only: *is_type_only,
        },
        Kind::ImportDefaultSpecifier => Kind::ImportDefaultSpecifier,
        Kind::ImportStarAsSpecifier => Kind::ImportStarAsSpecifier,
        Kind::ExportDecl => Kind::ExportDecl,
        Kind::NamedExport { type_only } => Kind::NamedExport {
            type_only: *type_only,
        },
        Kind::ExportNamedSpecifier { is_type_only } => Kind::ExportNamedSpecifier {
            is_type_only: *is_type_only,
        },
        Kind::ExportDefaultSpecifier => Kind::ExportDefaultSpecifier,
        Kind::ExportNamespaceSpecifier => Kind::ExportNamespaceSpecifier,
        Kind::ExportDefaultDecl => Kind::ExportDefaultDecl,
        Kind::ExportDefaultExpr => Kind::ExportDefaultExpr,
        Kind::ExportAll { type_only } => Kind::ExportAll {
            type_only: *type_only,
        },
        Kind::TsImportEqualsDecl {
            is_export,
            is_type_only,
        } => Kind::TsImportEqualsDecl {
            is_export: *is_export,
            is_type_only: *is_type_only,
        },
        Kind::TsExternalModuleRef => Kind::TsExternalModuleRef,
        Kind::TsQualifiedName => Kind::TsQualifiedName,
        Kind::TsExportAssignment => Kind::TsExportAssignment,
        Kind::TsNamespaceExportDecl => Kind::TsNamespaceExportDecl,
        Kind::TsTypeAnn => Kind::TsTypeAnn,
        Kind::TsType => Kind::TsType,
        Kind::TsTypeParamDecl => Kind::TsTypeParamDecl,
        Kind::TsTypeParamInstantiation => Kind::TsTypeParamInstantiation,
    })
}
