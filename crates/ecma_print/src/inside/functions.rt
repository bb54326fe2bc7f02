//! Functions, classes and members of classes.
ghost use Rattle.std.specs.Prelude.{◌≡◌};
ghost use Rattle.ecma_print.specs.Functions.{plain, behind_blank, async_word, static_word, accessor_word};

use super::Inside;
use crate::out::Out;
use crate::place::{Begins, Between, Place, Spot};
use crate::precedence;
use ecma_tree::{Kind, MethodKind, NoMemory, Node};

/// By itself, as a part of what stands around.
pub(super) fn plain() -> Place
    ensures { result ≡ plain }
{
    Place::At(Spot::free(precedence::ASSIGNMENT))
}

/// After a blank, if it is there.
pub(super) fn behind_blank() -> Place
    ensures { result ≡ behind_blank }
{
    Place::Within(Between::Blank, Spot::free(precedence::ASSIGNMENT))
}

fn async_word(is_async: bool) -> &'static str
    ensures { result.now ≡ async_word is_async }
{
    if is_async { "async " } else { "" }
}

fn static_word(is_static: bool) -> &'static str
    ensures { result.now ≡ static_word is_static }
{
    if is_static { "static " } else { "" }
}

fn accessor_word(kind: MethodKind) -> &'static str
    ensures { result.now ≡ accessor_word kind }
{
    match kind {
        MethodKind::Method => "",
        MethodKind::Getter => "get ",
        MethodKind::Setter => "set ",
    }
}

impl<'f, 'n, F: Fn(&mut Out, &Node, Place, &[u8]) -> Result<(), NoMemory>> Inside<'f, 'n, F> {
    ghost use Rattle.std.specs.Prelude.{OnOk};
    ghost use Rattle.ecma_tree.specs.declared.node.Node.{out-Node};
    ghost use Rattle.ecma_print.specs.Functions.{named_function, function_rest, arrow, named_class, class_rest, function_text, constructor, class_method, field, static_block, class_member};
    ghost use Rattle.ecma_print.specs.Layout.{children_of};
    ghost use Rattle.ecma_print.specs.Writing.{Puts, ShowsChildren};

    /// A function with the name that it may have.
    fn named_function(&self, out: &mut Out) -> Result<(), NoMemory>
        requires { ShowsChildren F.Fn self.now }
        ensures { OnOk result (Puts out.old out.new self.now.margin.now (named_function (children_of self.now))) }
    {
        let [name, function] = self.node.children.as_slice() else {
            return Ok(());
        };
        self.child(out, function, Place::FunctionHead)?;
        self.child(out, name, behind_blank())?;
        self.child(out, function, plain())
    }

    /// What stands after the name: parameters and body.
    #[tactic(auto, using(crate::proofs::Arrays::fours))]
    fn function_rest(&self, out: &mut Out) -> Result<(), NoMemory>
        requires { ShowsChildren F.Fn self.now }
        ensures { OnOk result (Puts out.old out.new self.now.margin.now (function_rest (children_of self.now))) }
    {
        let [params, body, type_params, return_type] = self.node.children.as_slice() else {
            return Ok(());
        };
        self.child(out, params, Place::Arguments)?;
        self.child(out, body, behind_blank())
    }

    /// `(a) => e`
    #[tactic(auto, using(crate::proofs::Arrays::fours))]
    fn arrow(&self, out: &mut Out, is_async: bool, spot: Spot) -> Result<(), NoMemory>
        requires { ShowsChildren F.Fn self.now }
        ensures { OnOk result (Puts out.old out.new self.now.margin.now (arrow is_async (children_of self.now) spot)) }
    {
        let [params, body, type_params, return_type] = self.node.children.as_slice() else {
            return Ok(());
        };
        let start = Spot::beginning(
            precedence::ASSIGNMENT,
            Begins::ArrowBodyStart,
            spot.without_in,
        );
        self.say(out, async_word(is_async))?;
        self.child(out, params, Place::Arguments)?;
        self.say(out, " => ")?;
        self.child(out, body, Place::At(start))
    }

    /// A class with the name that it may have.
    fn named_class(&self, out: &mut Out) -> Result<(), NoMemory>
        requires { ShowsChildren F.Fn self.now }
        ensures { OnOk result (Puts out.old out.new self.now.margin.now (named_class (children_of self.now))) }
    {
        let [name, body] = self.node.children.as_slice() else {
            return Ok(());
        };
        self.say(out, "class")?;
        self.child(out, name, behind_blank())?;
        self.child(out, body, plain())
    }

    /// What stands after the name: heritage and members.
    #[tactic(auto, using(crate::proofs::Arrays::fives))]
    fn class_rest(&self, out: &mut Out) -> Result<(), NoMemory>
        requires { ShowsChildren F.Fn self.now }
        ensures { OnOk result (Puts out.old out.new self.now.margin.now (class_rest (children_of self.now))) }
    {
        let [
            super_class,
            body,
            type_params,
            super_type_params,
            interfaces,
        ] = self.node.children.as_slice()
        else {
            return Ok(());
        };
        self.child(
            out,
            super_class,
            Place::Within(Between::Extends, Spot::free(precedence::LEFT_HAND_SIDE)),
        )?;
        self.say(out, " ")?;
        self.child(out, body, Place::Block)
    }

    /// Functions and classes.
    pub(super) fn function_text(&self, out: &mut Out, spot: Spot) -> Result<(), NoMemory>
        requires { ShowsChildren F.Fn self.now }
        ensures { OnOk result (Puts out.old out.new self.now.margin.now (function_text (out-Node self.now.node.now).kind (children_of self.now) spot)) }
    {
        match &self.node.kind {
            Kind::FnExpr | Kind::FnDecl { .. } => self.named_function(out),
            Kind::Function { .. } => self.function_rest(out),
            Kind::ArrowExpr { is_async, .. } => self.arrow(out, *is_async, spot),
            Kind::ClassExpr | Kind::ClassDecl { .. } => self.named_class(out),
            Kind::Class { .. } => self.class_rest(out),
            _ => Ok(()),
        }
    }

    /// A constructor.
    #[tactic(auto, using(crate::proofs::Arrays::threes))]
    fn constructor(&self, out: &mut Out) -> Result<(), NoMemory>
        requires { ShowsChildren F.Fn self.now }
        ensures { OnOk result (Puts out.old out.new self.now.margin.now (constructor (children_of self.now))) }
    {
        let [key, params, body] = self.node.children.as_slice() else {
            return Ok(());
        };
        self.child(out, key, plain())?;
        self.child(out, params, Place::Arguments)?;
        self.child(out, body, behind_blank())
    }

    /// A method or an accessor of a class.
    fn class_method(&self, out: &mut Out, kind: MethodKind, is_static: bool) -> Result<(), NoMemory>
        requires { ShowsChildren F.Fn self.now }
        ensures { OnOk result (Puts out.old out.new self.now.margin.now (class_method kind is_static (children_of self.now))) }
    {
        let [key, function] = self.node.children.as_slice() else {
            return Ok(());
        };
        self.say(out, static_word(is_static))?;
        self.say(out, accessor_word(kind))?;
        self.child(out, function, Place::MethodHead)?;
        self.child(out, key, plain())?;
        self.child(out, function, plain())
    }

    /// A field of a class.
    #[tactic(auto, using(crate::proofs::Arrays::threes))]
    fn field(&self, out: &mut Out, is_static: bool) -> Result<(), NoMemory>
        requires { ShowsChildren F.Fn self.now }
        ensures { OnOk result (Puts out.old out.new self.now.margin.now (field is_static (children_of self.now))) }
    {
        let [key, value, type_ann] = self.node.children.as_slice() else {
            return Ok(());
        };
        self.say(out, static_word(is_static))?;
        self.child(out, key, plain())?;
        self.child(
            out,
            value,
            Place::Within(Between::Equals, Spot::free(precedence::ASSIGNMENT)),
        )?;
        self.say(out, ";")
    }

    /// `static {}`
    fn static_block(&self, out: &mut Out) -> Result<(), NoMemory>
        requires { ShowsChildren F.Fn self.now }
        ensures { OnOk result (Puts out.old out.new self.now.margin.now (static_block (children_of self.now))) }
    {
        let [body] = self.node.children.as_slice() else {
            return Ok(());
        };
        self.say(out, "static ")?;
        self.child(out, body, plain())
    }

    /// Members of classes.
    pub(super) fn class_member(&self, out: &mut Out) -> Result<(), NoMemory>
        requires { ShowsChildren F.Fn self.now }
        ensures { OnOk result (Puts out.old out.new self.now.margin.now (class_member (out-Node self.now.node.now).kind (children_of self.now))) }
    {
        match &self.node.kind {
            Kind::Constructor { .. } => self.constructor(out),
            Kind::ClassMethod { kind, modifiers } | Kind::PrivateMethod { kind, modifiers } => {
                self.class_method(out, *kind, modifiers.is_static)
            }
            Kind::ClassProp { modifiers, .. } | Kind::PrivateProp { modifiers, .. } => {
                self.field(out, modifiers.is_static)
            }
            Kind::StaticBlock => self.static_block(out),
            _ => Ok(()),
        }
    }
}
