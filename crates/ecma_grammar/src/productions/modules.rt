//! Modules (ECMAScript, 16.2).
ghost use Rattle.std.specs.Prelude.{◌≡◌, false};
ghost use Rattle.ecma_grammar.specs.Rules.{module_rule};
ghost use Rattle.ecma_grammar.specs.Written.{is_name, written};

use super::*;

/// A production of this topic that has a name.
#[derive(Clone, Copy, Debug)]
pub enum ModuleRule {
    Attributes,
    From,
    Star,
    ImportSpecifier,
    ImportSpecifiers,
    ImportClause,
    Import,
    Require,
    DottedKeys,
    ImportEquals,
    ExportSpecifier,
    ExportNames,
    ExportStarAs,
    ExportStar,
    ExportDefault,
    Export,
    ModuleItem,
}

/// The production of a name.
#[tactic(auto, unfolding(crate::specs::productions::Modules::attributes, crate::specs::productions::Modules::from, crate::specs::productions::Modules::star, crate::specs::productions::Modules::import_specifier, crate::specs::productions::Modules::import_specifiers, crate::specs::productions::Modules::import_clause, crate::specs::productions::Modules::import, crate::specs::productions::Modules::require, crate::specs::productions::Modules::dotted_keys, crate::specs::productions::Modules::import_equals, crate::specs::productions::Modules::export_specifier, crate::specs::productions::Modules::export_names, crate::specs::productions::Modules::export_star_as, crate::specs::productions::Modules::export_star, crate::specs::productions::Modules::export_default, crate::specs::productions::Modules::export, crate::specs::productions::Modules::module_item))]
pub(super) fn module_rule(rule: ModuleRule) -> &'static Production
    ensures says { written result.now ≡ module_rule rule }
    ensures unnamed { is_name result.now ≡ false }
{
    match rule {
        ModuleRule::Attributes => &ATTRIBUTES_BODY,
        ModuleRule::From => &FROM_BODY,
        ModuleRule::Star => &STAR_BODY,
        ModuleRule::ImportSpecifier => &IMPORT_SPECIFIER_BODY,
        ModuleRule::ImportSpecifiers => &IMPORT_SPECIFIERS_BODY,
        ModuleRule::ImportClause => &IMPORT_CLAUSE_BODY,
        ModuleRule::Import => &IMPORT_BODY,
        ModuleRule::Require => &REQUIRE_BODY,
        ModuleRule::DottedKeys => &DOTTED_KEYS_BODY,
        ModuleRule::ImportEquals => &IMPORT_EQUALS_BODY,
        ModuleRule::ExportSpecifier => &EXPORT_SPECIFIER_BODY,
        ModuleRule::ExportNames => &EXPORT_NAMES_BODY,
        ModuleRule::ExportStarAs => &EXPORT_STAR_AS_BODY,
        ModuleRule::ExportStar => &EXPORT_STAR_BODY,
        ModuleRule::ExportDefault => &EXPORT_DEFAULT_BODY,
        ModuleRule::Export => &EXPORT_BODY,
        ModuleRule::ModuleItem => &MODULE_ITEM_BODY,
    }
}

pub(super) const ATTRIBUTES: Production = The(Rule::Module(ModuleRule::Attributes));

pub(super) const FROM: Production = The(Rule::Module(ModuleRule::From));

pub(super) const STAR: Production = The(Rule::Module(ModuleRule::Star));

pub(super) const IMPORT_SPECIFIER: Production = The(Rule::Module(ModuleRule::ImportSpecifier));

pub(super) const IMPORT_SPECIFIERS: Production = The(Rule::Module(ModuleRule::ImportSpecifiers));

pub(super) const IMPORT_CLAUSE: Production = The(Rule::Module(ModuleRule::ImportClause));

pub(super) const IMPORT: Production = The(Rule::Module(ModuleRule::Import));

pub(super) const REQUIRE: Production = The(Rule::Module(ModuleRule::Require));

pub(super) const DOTTED_KEYS: Production = The(Rule::Module(ModuleRule::DottedKeys));

pub(super) const IMPORT_EQUALS: Production = The(Rule::Module(ModuleRule::ImportEquals));

pub(super) const EXPORT_SPECIFIER: Production = The(Rule::Module(ModuleRule::ExportSpecifier));

pub(super) const EXPORT_NAMES: Production = The(Rule::Module(ModuleRule::ExportNames));

pub(super) const EXPORT_STAR_AS: Production = The(Rule::Module(ModuleRule::ExportStarAs));

pub(super) const EXPORT_STAR: Production = The(Rule::Module(ModuleRule::ExportStar));

pub(super) const EXPORT_DEFAULT: Production = The(Rule::Module(ModuleRule::ExportDefault));

pub(super) const EXPORT: Production = The(Rule::Module(ModuleRule::Export));

pub(super) const MODULE_ITEM: Production = The(Rule::Module(ModuleRule::ModuleItem));

// Attrs = 'with' '{' L(MName ':' Str) '}'
static ATTRIBUTES_BODY: Production = maybe!(all!(
    word!("with"),
    node!(
        Plain::ObjectLit,
        all!(
            punct!("{"),
            list!(commas!(node!(
                Plain::KeyValueProp,
                all!(
                    first_of!(Keep(Leaf::IdentName), STRING),
                    punct!(":"),
                    STRING
                )
            ))),
            punct!("}")
        )
    )
));

// 'from' Str Attrs?
static FROM_BODY: Production = all!(word!("from"), STRING, ATTRIBUTES);

// Star = '*' 'as' Name
static STAR_BODY: Production = node!(
    Plain::ImportStarAsSpecifier,
    all!(punct!("*"), word!("as"), IDENT)
);

// Spec = T 'type' 'as' 'as' Name / MName 'as' Name / T 'type' MName 'as' Name / T 'type' Name / Name
static IMPORT_SPECIFIER_BODY: Production = first_of!(
    Marked(&Build(
        Form::Swapped(Plain::ImportNamedSpecifier { is_type_only: true }),
        &all!(
            word!("type"),
            Ahead(&word!("as")),
            IDENT,
            word!("as"),
            IDENT
        )
    )),
    Build(
        Form::Swapped(Plain::ImportNamedSpecifier {
            is_type_only: false
        }),
        &all!(MODULE_EXPORT_NAME, word!("as"), IDENT)
    ),
    Marked(&Build(
        Form::Swapped(Plain::ImportNamedSpecifier { is_type_only: true }),
        &all!(word!("type"), MODULE_EXPORT_NAME, word!("as"), IDENT)
    )),
    Marked(&node!(
        Plain::ImportNamedSpecifier { is_type_only: true },
        all!(word!("type"), IDENT, Put(Flag::Absent))
    )),
    node!(
        Plain::ImportNamedSpecifier {
            is_type_only: false
        },
        all!(IDENT, Put(Flag::Absent))
    )
);

// Specs = '{' L(Spec) '}'
static IMPORT_SPECIFIERS_BODY: Production = all!(
    punct!("{"),
    commas!(IMPORT_SPECIFIER),
    punct!("}")
);

// Clause = Name (',' (Star / Specs))? / Star / Specs
static IMPORT_CLAUSE_BODY: Production = list!(first_of!(
    all!(
        node!(Plain::ImportDefaultSpecifier, IDENT),
        optional!(all!(punct!(","), first_of!(STAR, IMPORT_SPECIFIERS)))
    ),
    STAR,
    IMPORT_SPECIFIERS
));

// Import
static IMPORT_BODY: Production = first_of!(
    node!(
        Plain::ImportDecl { type_only: false },
        all!(word!("import"), list!(Nothing), STRING, ATTRIBUTES, END)
    ),
    Marked(&node!(
        Plain::ImportDecl { type_only: true },
        all!(word!("import"), word!("type"), IMPORT_CLAUSE, FROM, END)
    )),
    node!(
        Plain::ImportDecl { type_only: false },
        all!(word!("import"), IMPORT_CLAUSE, FROM, END)
    )
);

// 'require' '(' Str ')'
static REQUIRE_BODY: Production = node!(
    Plain::TsExternalModuleRef,
    all!(word!("require"), punct!("("), STRING, punct!(")"))
);

// ('.' Key)*
static DOTTED_KEYS_BODY: Production = optional!(Behind(Terminal::Punct("."), Part::DottedKey));

pub(super) static DOTTED_KEY_BODY: Production = all!(
    item!(Plain::TsQualifiedName, Keep(Leaf::IdentName)),
    DOTTED_KEYS
);

// ImportEq = 'export'? 'import' ('type' &Name)? Name '=' ('require' '(' Str ')' / Name ('.' Key)*) End
static IMPORT_EQUALS_BODY: Production = first_of!(
    Assigned(&Build(
        Form::ImportEquals,
        &all!(
            whether!(word!("export")),
            word!("import"),
            Put(Flag::Absent),
            IDENT,
            punct!("="),
            REQUIRE,
            END
        )
    )),
    Marked(&Build(
        Form::ImportEquals,
        &all!(
            whether!(word!("export")),
            word!("import"),
            whether!(all!(word!("type"), Ahead(&token!(TokenKind::Name)))),
            IDENT,
            punct!("="),
            first_of!(REQUIRE, Build(Form::Chain, &all!(IDENT, DOTTED_KEYS))),
            END
        )
    ))
);

// ESpec = T 'type' 'as' 'as' MName / MName 'as' MName / T 'type' MName ('as' MName)? / MName
static EXPORT_SPECIFIER_BODY: Production = first_of!(
    Marked(&node!(
        Plain::ExportNamedSpecifier { is_type_only: true },
        all!(
            word!("type"),
            Ahead(&word!("as")),
            Keep(Leaf::KeyIdent),
            word!("as"),
            MODULE_EXPORT_NAME
        )
    )),
    node!(
        Plain::ExportNamedSpecifier {
            is_type_only: false
        },
        all!(MODULE_EXPORT_NAME, word!("as"), MODULE_EXPORT_NAME)
    ),
    Marked(&node!(
        Plain::ExportNamedSpecifier { is_type_only: true },
        all!(
            word!("type"),
            MODULE_EXPORT_NAME,
            maybe!(all!(word!("as"), MODULE_EXPORT_NAME))
        )
    )),
    node!(
        Plain::ExportNamedSpecifier {
            is_type_only: false
        },
        all!(MODULE_EXPORT_NAME, Put(Flag::Absent))
    )
);

// '{' L(ESpec) '}' ('from' Str Attrs?)? End
static EXPORT_NAMES_BODY: Production = all!(
    punct!("{"),
    list!(commas!(EXPORT_SPECIFIER)),
    punct!("}"),
    first_of!(FROM, all!(Put(Flag::Absent), Put(Flag::Absent))),
    END
);

// '*' 'as' MName 'from' Str Attrs? End
static EXPORT_STAR_AS_BODY: Production = all!(
    list!(node!(
        Plain::ExportNamespaceSpecifier,
        all!(punct!("*"), word!("as"), MODULE_EXPORT_NAME)
    )),
    FROM,
    END
);

// '*' 'from' Str Attrs? End
static EXPORT_STAR_BODY: Production = all!(punct!("*"), FROM, END);

// 'export' 'default' (Fun(Name?) / Class(Name?) / T 'abstract' ~Class(Name?) / T Interface / Assign End)
static EXPORT_DEFAULT_BODY: Production = first_of!(
    node!(
        Plain::ExportDefaultDecl,
        all!(
            word!("export"),
            word!("default"),
            first_of!(
                DEFAULT_FUNCTION,
                CLASS_EXPRESSION,
                Marked(&ABSTRACT_CLASS_EXPRESSION),
                Marked(&INTERFACE)
            )
        )
    ),
    node!(
        Plain::ExportDefaultExpr,
        all!(word!("export"), word!("default"), ASSIGN, END)
    )
);

// Export
static EXPORT_BODY: Production = first_of!(
    EXPORT_DEFAULT,
    Marked(&node!(
        Plain::NamedExport { type_only: true },
        all!(
            word!("export"),
            word!("type"),
            Ahead(&punct!("{")),
            EXPORT_NAMES
        )
    )),
    node!(
        Plain::NamedExport { type_only: false },
        all!(word!("export"), EXPORT_NAMES)
    ),
    Marked(&node!(
        Plain::NamedExport { type_only: true },
        all!(
            word!("export"),
            word!("type"),
            Ahead(&punct!("*")),
            EXPORT_STAR_AS
        )
    )),
    node!(
        Plain::NamedExport { type_only: false },
        all!(word!("export"), EXPORT_STAR_AS)
    ),
    Marked(&node!(
        Plain::ExportAll { type_only: true },
        all!(
            word!("export"),
            word!("type"),
            Ahead(&punct!("*")),
            EXPORT_STAR
        )
    )),
    node!(
        Plain::ExportAll { type_only: false },
        all!(word!("export"), EXPORT_STAR)
    ),
    Marked(&node!(
        Plain::TsNamespaceExportDecl,
        all!(word!("export"), word!("as"), word!("namespace"), IDENT, END)
    )),
    Assigned(&node!(
        Plain::TsExportAssignment,
        all!(word!("export"), punct!("="), expression!(false), END)
    )),
    node!(Plain::ExportDecl, all!(word!("export"), DECLARATION))
);

// Item = Import / T ImportEq / Export / Stmt
static MODULE_ITEM_BODY: Production = first_of!(IMPORT, FROM_IMPORT_EQUALS);

const FROM_IMPORT_EQUALS: Production = first_of!(IMPORT_EQUALS, EXPORT, STATEMENT);

pub(super) static FROM_IMPORT_EQUALS_BODY: Production = FROM_IMPORT_EQUALS;

pub(super) static STATEMENT_ITEM_BODY: Production = STATEMENT;

// NsBody = '{' Item* '}'
pub(super) static NAMESPACE_BLOCK: Production = node!(
    Plain::TsModuleBlock,
    all!(punct!("{"), list!(Many(&MODULE_ITEM)), punct!("}"))
);

// Module = Hashbang? Item* EndOfText
pub(super) static MODULE_BODY: Production = Build(
    Form::Module,
    &all!(
        maybe!(Keep(Leaf::Hashbang)),
        list!(Many(&MODULE_ITEM)),
        token!(TokenKind::EndOfText)
    ),
);
