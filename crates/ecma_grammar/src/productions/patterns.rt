//! Patterns (ECMAScript, 14.3.3).
ghost use Rattle.std.specs.Prelude.{◌≡◌, false};
ghost use Rattle.ecma_grammar.specs.Rules.{pattern_rule};
ghost use Rattle.ecma_grammar.specs.Written.{is_name, written};

use super::*;

/// A production of this topic that has a name.
#[derive(Clone, Copy, Debug)]
pub enum PatternRule {
    PatternElement,
    ArrayPattern,
    PatternProperty,
    ObjectPattern,
}

/// The production of a name.
#[tactic(auto, unfolding(crate::specs::productions::Patterns::pattern_element, crate::specs::productions::Patterns::array_pattern, crate::specs::productions::Patterns::pattern_property, crate::specs::productions::Patterns::object_pattern))]
pub(super) fn pattern_rule(rule: PatternRule) -> &'static Production
    ensures says { written result.now ≡ pattern_rule rule }
    ensures unnamed { is_name result.now ≡ false }
{
    match rule {
        PatternRule::PatternElement => &PATTERN_ELEMENT_BODY,
        PatternRule::ArrayPattern => &ARRAY_PATTERN_BODY,
        PatternRule::PatternProperty => &PATTERN_PROPERTY_BODY,
        PatternRule::ObjectPattern => &OBJECT_PATTERN_BODY,
    }
}

pub(super) const PATTERN_ELEMENT: Production = The(Rule::Pattern(PatternRule::PatternElement));

pub(super) const ARRAY_PATTERN: Production = The(Rule::Pattern(PatternRule::ArrayPattern));

pub(super) const PATTERN_PROPERTY: Production = The(Rule::Pattern(PatternRule::PatternProperty));

pub(super) const OBJECT_PATTERN: Production = The(Rule::Pattern(PatternRule::ObjectPattern));

// PElem = '...' Pattern / Pattern ('=' Assign)?
static PATTERN_ELEMENT_BODY: Production = first_of!(
    REST_PATTERN,
    Build(Form::Chain, &all!(PATTERN, DEFAULT_VALUE))
);

// '[' (PElem? (',' PElem?)*) ']'
static ARRAY_PATTERN_BODY: Production = node!(
    Plain::ArrayPat,
    all!(
        punct!("["),
        Build(
            Form::Elements,
            &all!(
                maybe!(PATTERN_ELEMENT),
                Many(&all!(punct!(","), maybe!(PATTERN_ELEMENT)))
            )
        ),
        punct!("]"),
        Put(Flag::Absent)
    )
);

// PProp = '...' Name / PName ':' Pattern ('=' Assign)? / Name ('=' Assign)?
static PATTERN_PROPERTY_BODY: Production = first_of!(
    node!(
        Plain::RestPat,
        all!(punct!("..."), BINDING_IDENT, Put(Flag::Absent))
    ),
    node!(
        Plain::KeyValuePatProp,
        all!(
            PROP_NAME,
            punct!(":"),
            Build(Form::Chain, &all!(PATTERN, DEFAULT_VALUE))
        )
    ),
    node!(
        Plain::AssignPatProp,
        all!(BINDING_IDENT, maybe!(all!(punct!("="), ASSIGN)))
    )
);

// '{' L(PProp) '}'
static OBJECT_PATTERN_BODY: Production = node!(
    Plain::ObjectPat,
    all!(
        punct!("{"),
        list!(commas!(PATTERN_PROPERTY)),
        punct!("}"),
        Put(Flag::Absent)
    )
);

// Pattern = Name / '[' (PElem? (',' PElem?)*) ']' / '{' L(PProp) '}'
pub(super) static PATTERN_BODY: Production = first_of!(
    BINDING_IDENT,
    ARRAY_PATTERN,
    OBJECT_PATTERN
);
