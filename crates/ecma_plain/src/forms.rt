//! Kinds that plain modules have.
ghost use Rattle.std.specs.Prelude.{◌≡◌};
ghost use Rattle.ecma_plain.specs.Forms.{has_type_modifiers, is_of_forms};
ghost use Rattle.ecma_plain.specs.Plain.{is_questioned};

use ecma_kind::MemberModifiers;
use ecma_tree::Kind;

/// Whether a member has modifiers but `static`.
fn has_type_modifiers(modifiers: &MemberModifiers) -> bool
    ensures { result ≡ has_type_modifiers modifiers.now }
{
    modifiers.accessibility.is_some()
        || modifiers.is_abstract
        || modifiers.is_optional
        || modifiers.is_override
}

/// Whether a kind is no TypeScript, or one of the assignments of CommonJS modules.
pub(crate) fn is_of_forms(kind: &Kind) -> bool
    ensures { result ≡ is_of_forms kind.now }
{
    match kind {
        Kind::TsTypeAssertion
        | Kind::TsConstAssertion
        | Kind::TsNonNullExpr
        | Kind::TsAsExpr
        | Kind::TsInstantiation
        | Kind::TsSatisfiesExpr
        | Kind::TsTypeParamInstantiation
        | Kind::TsTypeAnn
        | Kind::TsType
        | Kind::TsTypeParamDecl
        | Kind::TsInterfaceDecl { .. }
        | Kind::TsTypeAliasDecl { .. }
        | Kind::TsEnumDecl { .. }
        | Kind::TsEnumMember
        | Kind::TsModuleDecl { .. }
        | Kind::TsModuleBlock
        | Kind::TsNamespaceDecl { .. }
        | Kind::TsNamespaceExportDecl
        | Kind::TsQualifiedName
        | Kind::TsIndexSignature { .. }
        | Kind::TsParamProp { .. }
        | Kind::ExportDefaultSpecifier => false,
        Kind::TsImportEqualsDecl { is_type_only, .. }
        | Kind::ImportNamedSpecifier { is_type_only }
        | Kind::ExportNamedSpecifier { is_type_only } => !*is_type_only,
        Kind::ImportDecl { type_only }
        | Kind::NamedExport { type_only }
        | Kind::ExportAll { type_only } => !*type_only,
        Kind::FnDecl { declare } | Kind::ClassDecl { declare } | Kind::VarDecl { declare, .. } => {
            !*declare
        }
        Kind::VarDeclarator { definite } => !*definite,
        Kind::ArrayPat { optional } | Kind::ObjectPat { optional } => !*optional,
        Kind::Class { is_abstract } => !*is_abstract,
        Kind::Constructor {
            accessibility,
            is_optional,
        } => !(accessibility.is_some() || *is_optional),
        Kind::ClassMethod { modifiers, .. } | Kind::PrivateMethod { modifiers, .. } => {
            !has_type_modifiers(modifiers)
        }
        Kind::ClassProp {
            modifiers,
            readonly,
            declare,
            definite,
        }
        | Kind::PrivateProp {
            modifiers,
            readonly,
            declare,
            definite,
        } => !(has_type_modifiers(modifiers) || *readonly || *declare || *definite),
        _ => true,
    }
}

/// Whether a name has a `?` behind it.
pub(crate) fn is_questioned(kind: &Kind) -> bool
    ensures { result ≡ is_questioned kind.now }
{
    match kind {
        Kind::Ident { optional, .. } => *optional,
        _ => false,
    }
}
