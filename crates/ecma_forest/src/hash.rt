//! Where a kind is looked for in the table of kinds. No clause speaks of it: another number would cost time, and change nothing else.
use ecma_tree::{Accessibility, JsWord, Kind, MemberModifiers, MethodKind, SyntaxContext};
use std::hash::{DefaultHasher, Hash, Hasher};

/// A hash with a number more in it.
fn mixed(hash: u32, number: u32) -> u32 {
    (hash ^ number).wrapping_mul(16777619)
}

/// A hash with a flag more in it.
fn flagged(hash: u32, flag: bool) -> u32 {
    mixed(hash, u32::from(flag))
}

/// The hash of a variant without data, by a number of its own.
fn variant(number: u32) -> u32 {
    number.wrapping_mul(2654435761)
}

fn with_word(hash: u32, word: &JsWord) -> u32 {
    let mut found = hash;
    for byte in word.as_str().as_bytes() {
        found = mixed(found, u32::from(*byte));
    }
    found ^ (found >> 15)
}

fn with_maybe(hash: u32, word: &Option<JsWord>) -> u32 {
    match word {
        Some(text) => with_word(mixed(hash, 1), text),
        None => mixed(hash, 2),
    }
}

/// That of the contexts that a name has: the empty one, with which it is read, and else one of a mark.
fn with_context(hash: u32, ctxt: SyntaxContext) -> u32 {
    if ctxt == SyntaxContext::empty() {
        return hash;
    }
    let mut state = DefaultHasher::new();
    ctxt.hash(&mut state);
    mixed(hash, (state.finish() & 4294967295) as u32)
}

fn with_access(hash: u32, access: Option<Accessibility>) -> u32 {
    match access {
        Some(access) => mixed(hash, access as u32),
        None => mixed(hash, 7),
    }
}

fn with_modifiers(hash: u32, modifiers: MemberModifiers) -> u32 {
    let hash = with_access(hash, modifiers.accessibility);
    let hash = flagged(hash, modifiers.is_static);
    let hash = flagged(hash, modifiers.is_abstract);
    let hash = flagged(hash, modifiers.is_optional);
    flagged(hash, modifiers.is_override)
}

fn of_method(number: u32, kind: MethodKind, modifiers: MemberModifiers) -> u32 {
    with_modifiers(mixed(variant(number), kind as u32), modifiers)
}

fn of_field(
    number: u32,
    modifiers: MemberModifiers,
    readonly: bool,
    declare: bool,
    definite: bool,
) -> u32 {
    let hash = with_modifiers(variant(number), modifiers);
    flagged(flagged(flagged(hash, readonly), declare), definite)
}

fn of_flag(number: u32, flag: bool) -> u32 {
    flagged(variant(number), flag)
}

fn of_flags(number: u32, first: bool, second: bool) -> u32 {
    flagged(of_flag(number, first), second)
}

/// That of kinds with texts.
fn worded_hash(kind: &Kind) -> Option<u32> {
    Some(match kind {
        Kind::Module { shebang } => with_maybe(variant(1), shebang),
        Kind::Script { shebang } => with_maybe(variant(2), shebang),
        Kind::Ident {
            sym,
            ctxt,
            optional,
        } => with_context(with_word(of_flag(3, *optional), sym), *ctxt),
        Kind::IdentName { sym } => with_word(variant(4), sym),
        Kind::PrivateName { name } => with_word(variant(5), name),
        Kind::Str { value, raw } => with_maybe(with_word(variant(6), value), raw),
        Kind::Number { raw, .. } => with_maybe(variant(7), raw),
        Kind::BigInt { value, raw } => with_maybe(with_word(variant(8), value), raw),
        Kind::Regex { exp, flags } => with_word(with_word(variant(9), exp), flags),
        Kind::TplElement { raw, cooked, tail } => {
            with_maybe(with_word(of_flag(10, *tail), raw), cooked)
        }
        _ => return None,
    })
}

/// That of kinds without data.
fn bare_hash(kind: &Kind) -> Option<u32> {
    Some(variant(match kind {
        Kind::Absent => 11,
        Kind::List => 12,
        Kind::BindingIdent => 13,
        Kind::Null => 14,
        Kind::ThisExpr => 15,
        Kind::Super => 16,
        Kind::Import => 17,
        Kind::ArrayLit => 18,
        Kind::ObjectLit => 19,
        Kind::SpreadElement => 20,
        Kind::FnExpr => 21,
        Kind::ClassExpr => 22,
        Kind::CondExpr => 23,
        Kind::MemberExpr => 24,
        Kind::SuperPropExpr => 25,
        Kind::CallExpr => 26,
        Kind::NewExpr => 27,
        Kind::OptCall => 28,
        Kind::SeqExpr => 29,
        Kind::Tpl => 30,
        Kind::TaggedTpl => 31,
        Kind::AwaitExpr => 32,
        Kind::ParenExpr => 33,
        Kind::TsTypeAssertion => 34,
        Kind::TsConstAssertion => 35,
        Kind::TsNonNullExpr => 36,
        Kind::TsAsExpr => 37,
        Kind::TsInstantiation => 38,
        Kind::TsSatisfiesExpr => 39,
        Kind::KeyValueProp => 40,
        Kind::AssignProp => 41,
        Kind::GetterProp => 42,
        Kind::SetterProp => 43,
        Kind::MethodProp => 44,
        Kind::ComputedPropName => 45,
        Kind::Param => 46,
        Kind::StaticBlock => 47,
        Kind::RestPat => 48,
        Kind::AssignPat => 49,
        Kind::KeyValuePatProp => 50,
        Kind::AssignPatProp => 51,
        Kind::BlockStmt => 52,
        Kind::EmptyStmt => 53,
        Kind::DebuggerStmt => 54,
        Kind::ExprStmt => 55,
        Kind::ReturnStmt => 56,
        Kind::ThrowStmt => 57,
        Kind::LabeledStmt => 58,
        Kind::BreakStmt => 59,
        Kind::ContinueStmt => 60,
        Kind::IfStmt => 61,
        Kind::SwitchStmt => 62,
        Kind::SwitchCase => 63,
        Kind::TryStmt => 64,
        Kind::CatchClause => 65,
        Kind::WhileStmt => 66,
        Kind::DoWhileStmt => 67,
        Kind::ForStmt => 68,
        Kind::ForInStmt => 69,
        Kind::TsEnumMember => 70,
        Kind::TsModuleBlock => 71,
        Kind::ImportDefaultSpecifier => 72,
        Kind::ImportStarAsSpecifier => 73,
        Kind::ExportDecl => 74,
        Kind::ExportDefaultSpecifier => 75,
        Kind::ExportNamespaceSpecifier => 76,
        Kind::ExportDefaultDecl => 77,
        Kind::ExportDefaultExpr => 78,
        Kind::TsExternalModuleRef => 79,
        Kind::TsQualifiedName => 80,
        Kind::TsExportAssignment => 81,
        Kind::TsNamespaceExportDecl => 82,
        Kind::TsTypeAnn => 83,
        Kind::TsType => 84,
        Kind::TsTypeParamDecl => 85,
        Kind::TsTypeParamInstantiation => 86,
        _ => return None,
    }))
}

/// That of kinds with data that take no memory.
fn data_hash(kind: &Kind) -> u32 {
    match kind {
        Kind::Bool { value } => of_flag(87, *value),
        Kind::ArrowExpr {
            is_async,
            is_generator,
        } => of_flags(88, *is_async, *is_generator),
        Kind::UnaryExpr { op } => mixed(variant(89), *op as u32),
        Kind::UpdateExpr { op, prefix } => mixed(of_flag(90, *prefix), *op as u32),
        Kind::BinExpr { op } => mixed(variant(91), *op as u32),
        Kind::AssignExpr { op } => mixed(variant(92), *op as u32),
        Kind::OptChainExpr { optional } => of_flag(93, *optional),
        Kind::YieldExpr { delegate } => of_flag(94, *delegate),
        Kind::MetaPropExpr { kind } => mixed(variant(95), *kind as u32),
        Kind::Function {
            is_generator,
            is_async,
        } => of_flags(96, *is_generator, *is_async),
        Kind::Class { is_abstract } => of_flag(97, *is_abstract),
        Kind::Constructor {
            accessibility,
            is_optional,
        } => with_access(of_flag(98, *is_optional), *accessibility),
        Kind::TsParamProp {
            accessibility,
            is_override,
            readonly,
        } => with_access(of_flags(99, *is_override, *readonly), *accessibility),
        Kind::ClassMethod { kind, modifiers } => of_method(100, *kind, *modifiers),
        Kind::PrivateMethod { kind, modifiers } => of_method(101, *kind, *modifiers),
        Kind::ClassProp {
            modifiers,
            readonly,
            declare,
            definite,
        } => of_field(102, *modifiers, *readonly, *declare, *definite),
        Kind::PrivateProp {
            modifiers,
            readonly,
            declare,
            definite,
        } => of_field(103, *modifiers, *readonly, *declare, *definite),
        Kind::TsIndexSignature {
            readonly,
            is_static,
        } => of_flags(104, *readonly, *is_static),
        Kind::ArrayPat { optional } => of_flag(105, *optional),
        Kind::ObjectPat { optional } => of_flag(106, *optional),
        Kind::ForOfStmt { is_await } => of_flag(107, *is_await),
        Kind::FnDecl { declare } => of_flag(108, *declare),
        Kind::ClassDecl { declare } => of_flag(109, *declare),
        Kind::VarDecl { kind, declare } => mixed(of_flag(110, *declare), *kind as u32),
        Kind::VarDeclarator { definite } => of_flag(111, *definite),
        Kind::TsInterfaceDecl { declare } => of_flag(112, *declare),
        Kind::TsTypeAliasDecl { declare } => of_flag(113, *declare),
        Kind::TsEnumDecl { declare, is_const } => of_flags(114, *declare, *is_const),
        Kind::TsModuleDecl { declare, global } => of_flags(115, *declare, *global),
        Kind::TsNamespaceDecl { declare, global } => of_flags(116, *declare, *global),
        Kind::ImportDecl { type_only } => of_flag(117, *type_only),
        Kind::ImportNamedSpecifier { is_type_only } => of_flag(118, *is_type_only),
        Kind::NamedExport { type_only } => of_flag(119, *type_only),
        Kind::ExportNamedSpecifier { is_type_only } => of_flag(120, *is_type_only),
        Kind::ExportAll { type_only } => of_flag(121, *type_only),
        Kind::TsImportEqualsDecl {
            is_export,
            is_type_only,
        } => of_flags(122, *is_export, *is_type_only),
        _ => 0,
    }
}

/// A hash of a kind: that of an equal kind is the same.
pub(crate) fn kind_hash(kind: &Kind) -> u32 {
    if let Some(hash) = bare_hash(kind) {
        return hash;
    }
    if let Some(hash) = worded_hash(kind) {
        return hash;
    }
    data_hash(kind)
}
