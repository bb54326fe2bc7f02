//! Properties of objects, and patterns.
use super::Inside;
use super::functions::{behind_blank, plain};
use crate::out::Out;
use crate::place::{Between, Place, Spot};
use crate::precedence;
use ecma_tree::{Kind, NoMemory, Node};

impl<'f, 'n, F: Fn(&mut Out, &Node, Place, &[u8]) -> Result<(), NoMemory>> Inside<'f, 'n, F> {
    ghost use Rattle.std.specs.Prelude.{OnOk};
    ghost use Rattle.ecma_tree.specs.declared.node.Node.{out-Node};
    ghost use Rattle.ecma_print.specs.Functions.{key_value, with_default, getter, setter, method, computed, property, rest_pattern, pattern};
    ghost use Rattle.ecma_print.specs.Layout.{children_of};
    ghost use Rattle.ecma_print.specs.Writing.{Puts, ShowsChildren};

    /// `key: value`
    fn key_value(&self, out: &mut Out) -> Result<(), NoMemory>
        requires { ShowsChildren F.Fn self.now }
        ensures { OnOk result (Puts out.old out.new self.now.margin.now (key_value (children_of self.now))) }
    {
        let [key, value] = self.node.children.as_slice() else {
            return Ok(());
        };
        self.child(out, key, plain())?;
        self.say(out, ": ")?;
        self.child(out, value, plain())
    }

    /// A name or a pattern, and what it is without a value.
    fn with_default(&self, out: &mut Out) -> Result<(), NoMemory>
        requires { ShowsChildren F.Fn self.now }
        ensures { OnOk result (Puts out.old out.new self.now.margin.now (with_default (children_of self.now))) }
    {
        let [target, value] = self.node.children.as_slice() else {
            return Ok(());
        };
        self.child(out, target, plain())?;
        self.child(
            out,
            value,
            Place::Within(Between::Equals, Spot::free(precedence::ASSIGNMENT)),
        )
    }

    /// `get key() {}`
    #[tactic(auto, using(crate::proofs::Arrays::threes))]
    fn getter(&self, out: &mut Out) -> Result<(), NoMemory>
        requires { ShowsChildren F.Fn self.now }
        ensures { OnOk result (Puts out.old out.new self.now.margin.now (getter (children_of self.now))) }
    {
        let [key, type_ann, body] = self.node.children.as_slice() else {
            return Ok(());
        };
        self.say(out, "get ")?;
        self.child(out, key, plain())?;
        self.say(out, "()")?;
        self.child(out, body, behind_blank())
    }

    /// `set key(a) {}`
    #[tactic(auto, using(crate::proofs::Arrays::fours))]
    fn setter(&self, out: &mut Out) -> Result<(), NoMemory>
        requires { ShowsChildren F.Fn self.now }
        ensures { OnOk result (Puts out.old out.new self.now.margin.now (setter (children_of self.now))) }
    {
        let [key, this_param, param, body] = self.node.children.as_slice() else {
            return Ok(());
        };
        self.say(out, "set ")?;
        self.child(out, key, plain())?;
        self.say(out, "(")?;
        self.child(out, param, plain())?;
        self.say(out, ")")?;
        self.child(out, body, behind_blank())
    }

    /// `key() {}`
    fn method(&self, out: &mut Out) -> Result<(), NoMemory>
        requires { ShowsChildren F.Fn self.now }
        ensures { OnOk result (Puts out.old out.new self.now.margin.now (method (children_of self.now))) }
    {
        let [key, function] = self.node.children.as_slice() else {
            return Ok(());
        };
        self.child(out, function, Place::MethodHead)?;
        self.child(out, key, plain())?;
        self.child(out, function, plain())
    }

    /// `[e]`; what stands in the brackets has the precedence that the place asks for.
    fn computed(&self, out: &mut Out, spot: Spot) -> Result<(), NoMemory>
        requires { ShowsChildren F.Fn self.now }
        ensures { OnOk result (Puts out.old out.new self.now.margin.now (computed (children_of self.now) spot)) }
    {
        let [expression] = self.node.children.as_slice() else {
            return Ok(());
        };
        self.say(out, "[")?;
        self.child(out, expression, Place::At(Spot::free(spot.level)))?;
        self.say(out, "]")
    }

    /// Properties of objects.
    pub(super) fn property(&self, out: &mut Out, spot: Spot) -> Result<(), NoMemory>
        requires { ShowsChildren F.Fn self.now }
        ensures { OnOk result (Puts out.old out.new self.now.margin.now (property (out-Node self.now.node.now).kind (children_of self.now) spot)) }
    {
        match &self.node.kind {
            Kind::KeyValueProp => self.key_value(out),
            Kind::AssignProp => self.with_default(out),
            Kind::GetterProp => self.getter(out),
            Kind::SetterProp => self.setter(out),
            Kind::MethodProp => self.method(out),
            Kind::ComputedPropName => self.computed(out, spot),
            _ => Ok(()),
        }
    }

    /// `...a`
    fn rest_pattern(&self, out: &mut Out) -> Result<(), NoMemory>
        requires { ShowsChildren F.Fn self.now }
        ensures { OnOk result (Puts out.old out.new self.now.margin.now (rest_pattern (children_of self.now))) }
    {
        let [pattern, ..] = self.node.children.as_slice() else {
            return Ok(());
        };
        self.say(out, "...")?;
        self.child(out, pattern, plain())
    }

    /// Patterns and parameters.
    pub(super) fn pattern(&self, out: &mut Out) -> Result<(), NoMemory>
        requires { ShowsChildren F.Fn self.now }
        ensures { OnOk result (Puts out.old out.new self.now.margin.now (pattern (out-Node self.now.node.now).kind (children_of self.now))) }
    {
        match &self.node.kind {
            Kind::BindingIdent | Kind::Param | Kind::TsParamProp { .. } => self.first_in(
                out,
                plain(),
            ),
            Kind::ArrayPat { .. } => self.first_in(out, Place::Brackets),
            Kind::ObjectPat { .. } => self.first_in(out, Place::Braces),
            Kind::RestPat => self.rest_pattern(out),
            Kind::AssignPat | Kind::AssignPatProp => self.with_default(out),
            Kind::KeyValuePatProp => self.key_value(out),
            _ => Ok(()),
        }
    }
}
