//! Members, calls and constructions (ECMAScript, 13.3).
ghost use Rattle.std.specs.Prelude.{◌≡◌, false};
ghost use Rattle.ecma_grammar.specs.Rules.{chain_rule};
ghost use Rattle.ecma_grammar.specs.Written.{is_name, written};

use super::*;

/// A production of this topic that has a name.
#[derive(Clone, Copy, Debug)]
pub enum ChainRule {
    Arguments,
    ChainKey,
    Index,
    TemplateStart,
    ImportMeta,
    SuperOfMember,
    SuperOfLink,
    ImportCall,
    Construction,
    Links,
    TaggedTemplate,
    OptionalLink,
    Chain,
    NewLinks,
}

/// The production of a name.
#[tactic(auto, unfolding(crate::specs::productions::Chains::arguments, crate::specs::productions::Chains::chain_key, crate::specs::productions::Chains::index, crate::specs::productions::Chains::template_start, crate::specs::productions::Chains::import_meta, crate::specs::productions::Chains::super_of_member, crate::specs::productions::Chains::super_of_link, crate::specs::productions::Chains::import_call, crate::specs::productions::Chains::construction, crate::specs::productions::Chains::links, crate::specs::productions::Chains::tagged_template, crate::specs::productions::Chains::optional_link, crate::specs::productions::Chains::chain, crate::specs::productions::Chains::new_links))]
pub(super) fn chain_rule(rule: ChainRule) -> &'static Production
    ensures says { written result.now ≡ chain_rule rule }
    ensures unnamed { is_name result.now ≡ false }
{
    match rule {
        ChainRule::Arguments => &ARGUMENTS_BODY,
        ChainRule::ChainKey => &CHAIN_KEY_BODY,
        ChainRule::Index => &INDEX_BODY,
        ChainRule::TemplateStart => &TEMPLATE_START_BODY,
        ChainRule::ImportMeta => &IMPORT_META_BODY,
        ChainRule::SuperOfMember => &SUPER_OF_MEMBER_BODY,
        ChainRule::SuperOfLink => &SUPER_OF_LINK_BODY,
        ChainRule::ImportCall => &IMPORT_CALL_BODY,
        ChainRule::Construction => &CONSTRUCTION_BODY,
        ChainRule::Links => &LINKS_BODY,
        ChainRule::TaggedTemplate => &TAGGED_TEMPLATE_BODY,
        ChainRule::OptionalLink => &OPTIONAL_LINK_BODY,
        ChainRule::Chain => &CHAIN_BODY,
        ChainRule::NewLinks => &NEW_LINKS_BODY,
    }
}

pub(super) const ARGUMENTS: Production = The(Rule::Chain(ChainRule::Arguments));

pub(super) const CHAIN_KEY: Production = The(Rule::Chain(ChainRule::ChainKey));

pub(super) const INDEX: Production = The(Rule::Chain(ChainRule::Index));

pub(super) const TEMPLATE_START: Production = The(Rule::Chain(ChainRule::TemplateStart));

pub(super) const IMPORT_META: Production = The(Rule::Chain(ChainRule::ImportMeta));

pub(super) const SUPER_OF_MEMBER: Production = The(Rule::Chain(ChainRule::SuperOfMember));

pub(super) const SUPER_OF_LINK: Production = The(Rule::Chain(ChainRule::SuperOfLink));

pub(super) const IMPORT_CALL: Production = The(Rule::Chain(ChainRule::ImportCall));

pub(super) const CONSTRUCTION: Production = The(Rule::Chain(ChainRule::Construction));

pub(super) const LINKS: Production = The(Rule::Chain(ChainRule::Links));

pub(super) const TAGGED_TEMPLATE: Production = The(Rule::Chain(ChainRule::TaggedTemplate));

pub(super) const OPTIONAL_LINK: Production = The(Rule::Chain(ChainRule::OptionalLink));

pub(super) const CHAIN: Production = The(Rule::Chain(ChainRule::Chain));

pub(super) const NEW_LINKS: Production = The(Rule::Chain(ChainRule::NewLinks));

// Args = '(' L('...'? Assign) ')'
static ARGUMENTS_BODY: Production = all!(punct!("("), list!(commas!(ELEMENT)), punct!(")"));

// CKey = Key / PrivName
static CHAIN_KEY_BODY: Production = first_of!(Keep(Leaf::IdentName), Keep(Leaf::PrivateName));

// '[' Expr ']'
static INDEX_BODY: Production = node!(
    Plain::ComputedPropName,
    all!(punct!("["), expression!(false), punct!("]"))
);

// a template begins there
static TEMPLATE_START_BODY: Production = first_of!(
    token!(TokenKind::Template(TemplatePart {
        first: true,
        tagged: true,
        last: true
    })),
    token!(TokenKind::Template(TemplatePart {
        first: true,
        tagged: true,
        last: false
    }))
);

// 'import' '.' 'meta'
static IMPORT_META_BODY: Production = node!(
    Plain::MetaPropExpr(MetaPropKind::ImportMeta),
    all!(word!("import"), punct!("."), word!("meta"))
);

// 'super' before a member, or before a call
static SUPER_OF_MEMBER_BODY: Production = all!(
    Keep(Leaf::Super),
    Ahead(&first_of!(all!(punct!("."), token!(TokenKind::Key)), punct!("[")))
);

static SUPER_OF_LINK_BODY: Production = all!(
    Keep(Leaf::Super),
    Ahead(&first_of!(
        punct!("("),
        all!(punct!("."), token!(TokenKind::Key)),
        punct!("[")
    ))
);

// 'import' Args
static IMPORT_CALL_BODY: Production = node!(
    Plain::CallExpr,
    all!(Keep(Leaf::Import), ARGUMENTS, Put(Flag::Absent))
);

// New = 'new' '.' 'target' / 'new' callee [TypeArgs After] Args?
static CONSTRUCTION_BODY: Production = Build(Form::New, &Behind(Terminal::Word("new"), Part::New));

// Link*, of which each stands one level deeper than the one before
static LINKS_BODY: Production = first_of!(
    Behind(Terminal::Punct("."), Part::Link(Link::Dot)),
    Behind(Terminal::Punct("?."), Part::Link(Link::Optional)),
    all!(Ahead(&punct!("[")), Enter(Part::Link(Link::Bracket))),
    all!(Ahead(&punct!("(")), Enter(Part::Link(Link::Call))),
    all!(Ahead(&TEMPLATE_START), Enter(Part::Link(Link::Tagged))),
    Marked(&all!(
        SameLine,
        Behind(Terminal::Punct("!"), Part::Link(Link::NonNull))
    )),
    Marked(&all!(
        Ahead(&token!(TokenKind::LeftAngle)),
        Enter(Part::Link(Link::Instantiation))
    )),
    Nothing
);

macro_rules! member_of {
    ($key:expr) => { item!(Plain::MemberExpr, $key) };
}

pub(super) use member_of;

static TAGGED_TEMPLATE_BODY: Production = item!(
    Plain::TaggedTpl,
    all!(Put(Flag::Absent), template!(true))
);

pub(super) const NON_NULL: Production = item!(Plain::TsNonNullExpr, Nothing);

// '?.' (Args / '[' Expr ']' / T TypeArgs Args / CKey), after '?.'
static OPTIONAL_LINK_BODY: Production = node!(
    Plain::OptChainExpr { optional: true },
    first_of!(
        item!(Plain::OptCall, all!(ARGUMENTS, Put(Flag::Absent))),
        member_of!(INDEX),
        Marked(&Build(
            Form::Swapped(Plain::OptCall),
            &all!(Put(Flag::Absent), TYPE_PARAM_INSTANTIATION, ARGUMENTS)
        )),
        member_of!(CHAIN_KEY)
    )
);

pub(super) static DOT_BODY: Production = all!(member_of!(CHAIN_KEY), LINKS);

pub(super) static OPTIONAL_BODY: Production = all!(OPTIONAL_LINK, LINKS);

pub(super) static BRACKET_BODY: Production = all!(member_of!(INDEX), LINKS);

pub(super) static CALL_BODY: Production = all!(
    item!(Plain::CallExpr, all!(ARGUMENTS, Put(Flag::Absent))),
    LINKS
);

pub(super) static TAGGED_BODY: Production = all!(TAGGED_TEMPLATE, LINKS);

pub(super) static NON_NULL_BODY: Production = all!(NON_NULL, LINKS);

pub(super) static INSTANTIATION_BODY: Production = all!(
    item!(
        Plain::TsInstantiation,
        all!(TYPE_PARAM_INSTANTIATION, AFTER_TYPE_ARGS)
    ),
    LINKS
);

// Chain = ('super' .. / 'import' '.' 'meta' / 'import' Args / New / Primary) Link*
static CHAIN_BODY: Production = Build(
    Form::Links,
    &all!(
        first_of!(
            SUPER_OF_LINK,
            IMPORT_META,
            IMPORT_CALL,
            CONSTRUCTION,
            PRIMARY
        ),
        LINKS
    ),
);

// the links of the callee of `new`
static NEW_LINKS_BODY: Production = first_of!(
    Behind(Terminal::Punct("."), Part::NewLink(Link::Dot)),
    all!(Ahead(&punct!("[")), Enter(Part::NewLink(Link::Bracket))),
    all!(Ahead(&TEMPLATE_START), Enter(Part::NewLink(Link::Tagged))),
    Marked(&all!(
        SameLine,
        Behind(Terminal::Punct("!"), Part::NewLink(Link::NonNull))
    )),
    Nothing
);

pub(super) static NEW_DOT_BODY: Production = all!(member_of!(CHAIN_KEY), NEW_LINKS);

pub(super) static NEW_BRACKET_BODY: Production = all!(member_of!(INDEX), NEW_LINKS);

pub(super) static NEW_TAGGED_BODY: Production = all!(TAGGED_TEMPLATE, NEW_LINKS);

pub(super) static NEW_NON_NULL_BODY: Production = all!(NON_NULL, NEW_LINKS);

// what stands after `new`
pub(super) static NEW_BODY: Production = first_of!(
    all!(punct!("."), word!("target")),
    all!(
        Build(
            Form::Links,
            &all!(
                first_of!(SUPER_OF_MEMBER, IMPORT_META, CONSTRUCTION, PRIMARY),
                NEW_LINKS
            )
        ),
        maybe!(Marked(&all!(TYPE_PARAM_INSTANTIATION, AFTER_TYPE_ARGS))),
        maybe!(ARGUMENTS)
    )
);
