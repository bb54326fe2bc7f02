//! Members, calls, templates, and expressions that stand by themselves.
ghost use Rattle.std.specs.Prelude.{◌≡◌};
ghost use Rattle.ecma_print.specs.Expressions.{object_beside, is_optional, question_dot, callee_spot, link_of, meta_word};

use super::Inside;
use crate::kinds::is_computed;
use crate::out::Out;
use crate::place::{Begins, Beside, Place, Spot};
use crate::precedence;
use ecma_tree::{Kind, MetaPropKind, NoMemory, Node};

/// What an object is, where this link stands in an optional chain or not.
fn object_beside(link: Beside, computed: bool) -> Beside
    ensures { result ≡ object_beside link computed }
{
    match (link, computed) {
        (Beside::OfLink | Beside::OfOptionalLink, _) => Beside::InChain,
        (_, true) => Beside::BeforeLink,
        (_, false) => Beside::BeforeDot,
    }
}

/// Whether a link has its own `?.`.
fn is_optional(link: Beside) -> bool
    ensures { result ≡ is_optional link }
{
    matches!(link, Beside::OfOptionalLink)
}

fn question_dot(optional: bool) -> &'static str
    ensures { result.now ≡ question_dot optional }
{
    if optional { "?." } else { "" }
}

fn link_of(optional: bool) -> Beside
    ensures { result ≡ link_of optional }
{
    if optional {
        Beside::OfOptionalLink
    } else {
        Beside::OfLink
    }
}

/// In the callee of `new` a call stands in parentheses.
fn callee_spot(spot: Spot) -> Spot
    ensures { result ≡ callee_spot spot }
{
    Spot {
        level: precedence::MEMBER,
        begins: Begins::Anywhere,
        without_in: spot.without_in,
        in_callee_of_new: true,
        beside: Beside::BeforeLink,
    }
}

fn meta_word(kind: MetaPropKind) -> &'static str
    ensures { result.now ≡ meta_word kind }
{
    match kind {
        MetaPropKind::NewTarget => "new.target",
        MetaPropKind::ImportMeta => "import.meta",
    }
}

impl<'f, 'n, F: Fn(&mut Out, &Node, Place, &[u8]) -> Result<(), NoMemory>> Inside<'f, 'n, F> {
    ghost use Rattle.std.specs.Prelude.{OnOk};
    ghost use Rattle.ecma_tree.specs.declared.node.Node.{out-Node};
    ghost use Rattle.ecma_print.specs.Expressions.{member, super_member, call, chained_call, construction, chain, tagged, link, parenthesized, spread, primary};
    ghost use Rattle.ecma_print.specs.Layout.{children_of};
    ghost use Rattle.ecma_print.specs.Writing.{Puts, ShowsChildren};

    /// `object.key`, `object[key]`
    fn member(&self, out: &mut Out, spot: Spot) -> Result<(), NoMemory>
        requires { ShowsChildren F.Fn self.now }
        ensures { OnOk result (Puts out.old out.new self.now.margin.now (member (children_of self.now) spot)) }
    {
        let [object, key] = self.node.children.as_slice() else {
            return Ok(());
        };
        let computed = is_computed(key);
        let beside = object_beside(spot.beside, computed);
        self.child(
            out,
            object,
            Place::At(spot.left(precedence::LEFT_HAND_SIDE, beside)),
        )?;
        self.child(out, key, Place::Key(is_optional(spot.beside)))
    }

    /// `super.key`
    fn super_member(&self, out: &mut Out) -> Result<(), NoMemory>
        requires { ShowsChildren F.Fn self.now }
        ensures { OnOk result (Puts out.old out.new self.now.margin.now (super_member (children_of self.now))) }
    {
        let [object, key] = self.node.children.as_slice() else {
            return Ok(());
        };
        self.child(out, object, Place::At(Spot::alone()))?;
        self.child(out, key, Place::Key(false))
    }

    /// `callee(args)`
    #[tactic(auto, using(crate::proofs::Arrays::threes))]
    fn call(&self, out: &mut Out, spot: Spot) -> Result<(), NoMemory>
        requires { ShowsChildren F.Fn self.now }
        ensures { OnOk result (Puts out.old out.new self.now.margin.now (call (children_of self.now) spot)) }
    {
        let [callee, args, type_args] = self.node.children.as_slice() else {
            return Ok(());
        };
        self.child(
            out,
            callee,
            Place::At(spot.left(precedence::LEFT_HAND_SIDE, Beside::BeforeLink)),
        )?;
        self.child(out, args, Place::Arguments)
    }

    /// `callee?.(args)`
    #[tactic(auto, using(crate::proofs::Arrays::threes))]
    fn chained_call(&self, out: &mut Out, spot: Spot) -> Result<(), NoMemory>
        requires { ShowsChildren F.Fn self.now }
        ensures { OnOk result (Puts out.old out.new self.now.margin.now (chained_call (children_of self.now) spot)) }
    {
        let [callee, args, type_args] = self.node.children.as_slice() else {
            return Ok(());
        };
        self.child(
            out,
            callee,
            Place::At(spot.left(precedence::LEFT_HAND_SIDE, Beside::InChain)),
        )?;
        self.say(out, question_dot(is_optional(spot.beside)))?;
        self.child(out, args, Place::Arguments)
    }

    /// `new callee(args)`
    #[tactic(auto, using(crate::proofs::Arrays::threes))]
    fn construction(&self, out: &mut Out, spot: Spot) -> Result<(), NoMemory>
        requires { ShowsChildren F.Fn self.now }
        ensures { OnOk result (Puts out.old out.new self.now.margin.now (construction (children_of self.now) spot)) }
    {
        let [callee, args, type_args] = self.node.children.as_slice() else {
            return Ok(());
        };
        self.say(out, "new ")?;
        self.child(out, callee, Place::At(callee_spot(spot)))?;
        self.child(out, args, Place::Arguments)
    }

    /// A link of an optional chain.
    fn chain(&self, out: &mut Out, optional: bool, spot: Spot) -> Result<(), NoMemory>
        requires { ShowsChildren F.Fn self.now }
        ensures { OnOk result (Puts out.old out.new self.now.margin.now (chain optional (children_of self.now) spot)) }
    {
        let [base] = self.node.children.as_slice() else {
            return Ok(());
        };
        self.child(
            out,
            base,
            Place::At(spot.left(precedence::EXPRESSION, link_of(optional))),
        )
    }

    /// A template after its tag.
    #[tactic(auto, using(crate::proofs::Arrays::threes))]
    fn tagged(&self, out: &mut Out, spot: Spot) -> Result<(), NoMemory>
        requires { ShowsChildren F.Fn self.now }
        ensures { OnOk result (Puts out.old out.new self.now.margin.now (tagged (children_of self.now) spot)) }
    {
        let [tag, type_args, text] = self.node.children.as_slice() else {
            return Ok(());
        };
        self.child(
            out,
            tag,
            Place::At(spot.left(precedence::LEFT_HAND_SIDE, Beside::BeforeLink)),
        )?;
        self.child(out, text, Place::At(Spot::alone()))
    }

    /// Members, calls and templates.
    pub(super) fn link(&self, out: &mut Out, spot: Spot) -> Result<(), NoMemory>
        requires { ShowsChildren F.Fn self.now }
        ensures { OnOk result (Puts out.old out.new self.now.margin.now (link (out-Node self.now.node.now).kind (children_of self.now) spot)) }
    {
        match &self.node.kind {
            Kind::MemberExpr => self.member(out, spot),
            Kind::SuperPropExpr => self.super_member(out),
            Kind::CallExpr => self.call(out, spot),
            Kind::NewExpr => self.construction(out, spot),
            Kind::OptChainExpr { optional } => self.chain(out, *optional, spot),
            Kind::OptCall => self.chained_call(out, spot),
            Kind::Tpl => self.template(out),
            Kind::TaggedTpl => self.tagged(out, spot),
            _ => Ok(()),
        }
    }

    /// `(e)`
    fn parenthesized(&self, out: &mut Out) -> Result<(), NoMemory>
        requires { ShowsChildren F.Fn self.now }
        ensures { OnOk result (Puts out.old out.new self.now.margin.now (parenthesized (children_of self.now))) }
    {
        let [expression] = self.node.children.as_slice() else {
            return Ok(());
        };
        self.say(out, "(")?;
        self.child(out, expression, Place::At(Spot::alone()))?;
        self.say(out, ")")
    }

    /// `...e`
    fn spread(&self, out: &mut Out) -> Result<(), NoMemory>
        requires { ShowsChildren F.Fn self.now }
        ensures { OnOk result (Puts out.old out.new self.now.margin.now (spread (children_of self.now))) }
    {
        let [expression] = self.node.children.as_slice() else {
            return Ok(());
        };
        self.say(out, "...")?;
        self.child(
            out,
            expression,
            Place::At(Spot::free(precedence::ASSIGNMENT)),
        )
    }

    /// All else that is an expression by itself, or a part of one.
    pub(super) fn primary(&self, out: &mut Out) -> Result<(), NoMemory>
        requires { ShowsChildren F.Fn self.now }
        ensures { OnOk result (Puts out.old out.new self.now.margin.now (primary (out-Node self.now.node.now).kind (children_of self.now))) }
    {
        match &self.node.kind {
            Kind::ThisExpr => self.say(out, "this"),
            Kind::Super => self.say(out, "super"),
            Kind::Import => self.say(out, "import"),
            Kind::MetaPropExpr { kind } => self.say(out, meta_word(*kind)),
            Kind::ParenExpr => self.parenthesized(out),
            Kind::SpreadElement => self.spread(out),
            Kind::ArrayLit => self.first_in(out, Place::Brackets),
            Kind::ObjectLit => self.first_in(out, Place::Braces),
            _ => Ok(()),
        }
    }
}
