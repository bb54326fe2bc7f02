//! Several nodes in one place.
ghost use Rattle.std.specs.Prelude.{◌≡◌, map};
ghost use Rattle.ecma_print.specs.Lists.{ends_in_hole, hole_comma, specifier_gap, opening_brace, closing_brace};
ghost use Rattle.ecma_print.specs.Layout.{laid};

use super::Inside;
use crate::kinds::{is_absent, is_named};
use crate::out::Out;
use crate::place::{Place, Spot};
use crate::precedence;
use ecma_tree::{NoMemory, Node};

fn ends_in_hole(items: &[Node]) -> bool
    ensures { result ≡ ends_in_hole (map laid items.now) }
{
    match items {
        [.., last] => is_absent(last),
        [] => false,
    }
}

/// After a last hole stands one comma more.
fn hole_comma(ends_in_hole: bool) -> &'static str
    ensures { result.now ≡ hole_comma ends_in_hole }
{
    if ends_in_hole { "," } else { "" }
}

/// What stands before a specifier, where the one before it stands in braces, or not.
fn specifier_gap(before: bool, named: bool) -> &'static str
    ensures { result.now ≡ specifier_gap before named }
{
    match (before, named) {
        (true, true) => ", ",
        (true, false) => " }, ",
        (false, true) => ", { ",
        (false, false) => ", ",
    }
}

fn opening_brace(named: bool) -> &'static str
    ensures { result.now ≡ opening_brace named }
{
    if named { "{ " } else { "" }
}

fn closing_brace(named: bool) -> &'static str
    ensures { result.now ≡ closing_brace named }
{
    if named { " }" } else { "" }
}

impl<'f, 'n, F: Fn(&mut Out, &Node, Place, &[u8]) -> Result<(), NoMemory>> Inside<'f, 'n, F> {
    ghost use Rattle.std.specs.Prelude.{◌<◌, OnOk};
    ghost use Rattle.ecma_tree.specs.declared.node.Node.{size-Node};
    ghost use Rattle.ecma_print.specs.declared.place.Place.TheVariants.{At};
    ghost use Rattle.ecma_print.specs.Pieces.{deeper};
    ghost use Rattle.ecma_print.specs.Places.{alone};
    ghost use Rattle.ecma_print.specs.Lists.{lines, new_lines, block, commas, arguments, wide_braces, braces, brackets, specifiers, from_specifiers, imports, exports, first_in, listed};
    ghost use Rattle.ecma_print.specs.Layout.{laid, children_of};
    ghost use Rattle.ecma_print.specs.Writing.{Puts, ShowsChildren};

    /// Shows a node inside this one, at another margin.
    fn child_within(&self, out: &mut Out, child: &Node, margin: &[u8]) -> Result<(), NoMemory>
        requires shows { ShowsChildren F.Fn self.now }
        requires inside { size-Node child.now < size-Node self.now.node.now }
        ensures { OnOk result (Puts out.old out.new margin.now ((laid child.now).at (At alone))) }
    {
        (self.show)(out, child, Place::At(Spot::alone()), margin)
    }

    /// Each on a line of its own.
    #[tactic(auto, using(crate::proofs::LaidOut::laying))]
    fn lines(&self, out: &mut Out) -> Result<(), NoMemory>
        requires { ShowsChildren F.Fn self.now }
        ensures { OnOk result (Puts out.old out.new self.now.margin.now (lines (children_of self.now))) }
    {
        for item in self.node.children.as_slice() {
            self.child(out, item, Place::At(Spot::alone()))?;
            self.say(out, "\n")?;
        }
        Ok(())
    }

    /// The same, each after the beginning of its line.
    #[tactic(auto, using(crate::proofs::LaidOut::laying))]
    fn new_lines(&self, out: &mut Out, margin: &[u8]) -> Result<(), NoMemory>
        requires { ShowsChildren F.Fn self.now }
        ensures { OnOk result (Puts out.old out.new margin.now (new_lines (children_of self.now))) }
    {
        for item in self.node.children.as_slice() {
            out.new_line(margin)?;
            self.child_within(out, item, margin)?;
        }
        Ok(())
    }

    /// Each on a line of its own, one level further in.
    fn deeper(&self, out: &mut Out) -> Result<(), NoMemory>
        requires { ShowsChildren F.Fn self.now }
        ensures { OnOk result (Puts out.old out.new self.now.margin.now (deeper (new_lines (children_of self.now)))) }
    {
        let inner = out.further(self.margin)?;
        self.new_lines(out, inner.as_slice())
    }

    /// The same, in braces.
    fn block(&self, out: &mut Out) -> Result<(), NoMemory>
        requires { ShowsChildren F.Fn self.now }
        ensures { OnOk result (Puts out.old out.new self.now.margin.now (block (children_of self.now))) }
    {
        let [first, ..] = self.node.children.as_slice() else {
            return self.say(out, "{}");
        };
        self.say(out, "{")?;
        self.deeper(out)?;
        self.new_line(out)?;
        self.say(out, "}")
    }

    /// With a comma and a blank between.
    #[tactic(auto, using(crate::proofs::LaidOut::laying))]
    fn commas(&self, out: &mut Out, spot: Spot) -> Result<(), NoMemory>
        requires { ShowsChildren F.Fn self.now }
        ensures { OnOk result (Puts out.old out.new self.now.margin.now (commas spot (children_of self.now))) }
    {
        let items = self.node.children.as_slice();
        let [first, ..] = items else {
            return Ok(());
        };
        self.child(out, first, Place::At(spot))?;
        for i in 1..items.len() {
            self.say(out, ", ")?;
            self.child(out, &items[i], Place::At(spot))?;
        }
        Ok(())
    }

    /// `(a, b)`
    fn arguments(&self, out: &mut Out) -> Result<(), NoMemory>
        requires { ShowsChildren F.Fn self.now }
        ensures { OnOk result (Puts out.old out.new self.now.margin.now (arguments (children_of self.now))) }
    {
        self.say(out, "(")?;
        self.commas(out, Spot::free(precedence::ASSIGNMENT))?;
        self.say(out, ")")
    }

    /// In braces, with a blank within each.
    fn wide_braces(&self, out: &mut Out) -> Result<(), NoMemory>
        requires { ShowsChildren F.Fn self.now }
        ensures { OnOk result (Puts out.old out.new self.now.margin.now (wide_braces (children_of self.now))) }
    {
        self.say(out, "{ ")?;
        self.commas(out, Spot::free(precedence::ASSIGNMENT))?;
        self.say(out, " }")
    }

    /// `{ a, b }`
    fn braces(&self, out: &mut Out) -> Result<(), NoMemory>
        requires { ShowsChildren F.Fn self.now }
        ensures { OnOk result (Puts out.old out.new self.now.margin.now (braces (children_of self.now))) }
    {
        let [first, ..] = self.node.children.as_slice() else {
            return self.say(out, "{}");
        };
        self.wide_braces(out)
    }

    /// `[a, b]`
    fn brackets(&self, out: &mut Out) -> Result<(), NoMemory>
        requires { ShowsChildren F.Fn self.now }
        ensures { OnOk result (Puts out.old out.new self.now.margin.now (brackets (children_of self.now))) }
    {
        self.say(out, "[")?;
        self.commas(out, Spot::free(precedence::ASSIGNMENT))?;
        let comma = hole_comma(ends_in_hole(self.node.children.as_slice()));
        self.say(out, comma)?;
        self.say(out, "]")
    }

    /// With commas between; those with names of the module stand in braces.
    #[tactic(auto, using(crate::proofs::LaidOut::laying))]
    fn specifiers(&self, out: &mut Out) -> Result<(), NoMemory>
        requires { ShowsChildren F.Fn self.now }
        ensures { OnOk result (Puts out.old out.new self.now.margin.now (specifiers (children_of self.now))) }
    {
        let items = self.node.children.as_slice();
        let [first, ..] = items else {
            return Ok(());
        };
        let mut named = is_named(first);
        self.say(out, opening_brace(named))?;
        self.child(out, first, Place::At(Spot::alone()))?;
        for i in 1..items.len() {
            let next = is_named(&items[i]);
            self.say(out, specifier_gap(named, next))?;
            self.child(out, &items[i], Place::At(Spot::alone()))?;
            named = next;
        }
        self.say(out, closing_brace(named))
    }

    /// ` a, { b } from `
    fn from_specifiers(&self, out: &mut Out) -> Result<(), NoMemory>
        requires { ShowsChildren F.Fn self.now }
        ensures { OnOk result (Puts out.old out.new self.now.margin.now (from_specifiers (children_of self.now))) }
    {
        self.say(out, " ")?;
        self.specifiers(out)?;
        self.say(out, " from ")
    }

    /// What stands between `import` and the source.
    fn imports(&self, out: &mut Out) -> Result<(), NoMemory>
        requires { ShowsChildren F.Fn self.now }
        ensures { OnOk result (Puts out.old out.new self.now.margin.now (imports (children_of self.now))) }
    {
        let [first, ..] = self.node.children.as_slice() else {
            return self.say(out, " ");
        };
        self.from_specifiers(out)
    }

    /// What stands after `export`.
    fn exports(&self, out: &mut Out) -> Result<(), NoMemory>
        requires { ShowsChildren F.Fn self.now }
        ensures { OnOk result (Puts out.old out.new self.now.margin.now (exports (children_of self.now))) }
    {
        let [first, ..] = self.node.children.as_slice() else {
            return self.say(out, "{}");
        };
        self.specifiers(out)
    }

    /// The first child in this place, where no other has a text.
    pub(super) fn first_in(&self, out: &mut Out, place: Place) -> Result<(), NoMemory>
        requires { ShowsChildren F.Fn self.now }
        ensures { OnOk result (Puts out.old out.new self.now.margin.now (first_in place (children_of self.now))) }
    {
        let [first, ..] = self.node.children.as_slice() else {
            return Ok(());
        };
        self.child(out, first, place)
    }

    /// A list in its place.
    pub(crate) fn listed(&self, out: &mut Out, place: Place) -> Result<(), NoMemory>
        requires { ShowsChildren F.Fn self.now }
        ensures { OnOk result (Puts out.old out.new self.now.margin.now (listed (children_of self.now) place)) }
    {
        match place {
            Place::Lines => self.lines(out),
            Place::Deeper => self.deeper(out),
            Place::Block => self.block(out),
            Place::Commas(spot) => self.commas(out, spot),
            Place::Arguments => self.arguments(out),
            Place::Braces => self.braces(out),
            Place::Brackets => self.brackets(out),
            Place::Imports => self.imports(out),
            Place::Exports => self.exports(out),
            _ => Ok(()),
        }
    }
}
