//! Modules, imports and exports.
ghost use Rattle.std.specs.Prelude.{◌≡◌};
ghost use Rattle.ecma_print.specs.Modules.{import_equals_word};

use super::Inside;
use crate::out::Out;
use crate::place::{Begins, Between, Place, Spot};
use crate::precedence;
use ecma_tree::{JsWord, Kind, NoMemory, Node};

fn import_equals_word(is_export: bool) -> &'static str
    ensures { result.now ≡ import_equals_word is_export }
{
    if is_export {
        "export import "
    } else {
        "import "
    }
}

impl<'f, 'n, F: Fn(&mut Out, &Node, Place, &[u8]) -> Result<(), NoMemory>> Inside<'f, 'n, F> {
    ghost use Rattle.std.specs.Prelude.{OnOk};
    ghost use Rattle.ecma_tree.specs.declared.node.Node.{out-Node};
    ghost use Rattle.ecma_print.specs.Modules.{hashbang, whole_module, import_text, import_specifier, behind_word, ended_behind_word, named_export, export_specifier, export_all, import_equals, module_reference, qualified_name, importing, exporting};
    ghost use Rattle.ecma_print.specs.Layout.{children_of};
    ghost use Rattle.ecma_print.specs.Writing.{Puts, ShowsChildren};

    /// The first line, if the text begins with `#!`.
    fn hashbang(&self, out: &mut Out, shebang: &Option<JsWord>) -> Result<(), NoMemory>
        ensures { OnOk result (Puts out.old out.new self.now.margin.now (hashbang shebang.now)) }
    {
        match shebang {
            None => Ok(()),
            Some(text) => {
                self.say(out, "#!")?;
                self.say(out, text.as_str())?;
                self.say(out, "\n")
            }
        }
    }

    /// The first line and the items.
    fn whole_module(&self, out: &mut Out, shebang: &Option<JsWord>) -> Result<(), NoMemory>
        requires { ShowsChildren F.Fn self.now }
        ensures { OnOk result (Puts out.old out.new self.now.margin.now (whole_module shebang.now (children_of self.now))) }
    {
        let [body] = self.node.children.as_slice() else {
            return Ok(());
        };
        self.hashbang(out, shebang)?;
        self.child(out, body, Place::Lines)
    }

    /// `import a from "m";`
    #[tactic(auto, using(crate::proofs::Arrays::threes))]
    fn import_text(&self, out: &mut Out) -> Result<(), NoMemory>
        requires { ShowsChildren F.Fn self.now }
        ensures { OnOk result (Puts out.old out.new self.now.margin.now (import_text (children_of self.now))) }
    {
        let [specifiers, source, attributes] = self.node.children.as_slice() else {
            return Ok(());
        };
        self.say(out, "import")?;
        self.child(out, specifiers, Place::Imports)?;
        self.child(out, source, Place::At(Spot::alone()))?;
        self.child(
            out,
            attributes,
            Place::Within(Between::Attributes, Spot::alone()),
        )?;
        self.say(out, ";")
    }

    /// `a as b`
    fn import_specifier(&self, out: &mut Out) -> Result<(), NoMemory>
        requires { ShowsChildren F.Fn self.now }
        ensures { OnOk result (Puts out.old out.new self.now.margin.now (import_specifier (children_of self.now))) }
    {
        let [local, imported] = self.node.children.as_slice() else {
            return Ok(());
        };
        self.child(
            out,
            imported,
            Place::Within(Between::BeforeAs, Spot::alone()),
        )?;
        self.child(out, local, Place::At(Spot::alone()))
    }

    /// These characters, and the one child after them.
    fn behind_word(&self, out: &mut Out, word: &str) -> Result<(), NoMemory>
        requires { ShowsChildren F.Fn self.now }
        ensures { OnOk result (Puts out.old out.new self.now.margin.now (behind_word word.now (children_of self.now))) }
    {
        let [child] = self.node.children.as_slice() else {
            return Ok(());
        };
        self.say(out, word)?;
        self.child(out, child, Place::At(Spot::alone()))
    }

    /// The same, and the end of the statement.
    fn ended_behind_word(&self, out: &mut Out, word: &str, spot: Spot) -> Result<(), NoMemory>
        requires { ShowsChildren F.Fn self.now }
        ensures { OnOk result (Puts out.old out.new self.now.margin.now (ended_behind_word word.now (children_of self.now) spot)) }
    {
        let [child] = self.node.children.as_slice() else {
            return Ok(());
        };
        self.say(out, word)?;
        self.child(out, child, Place::At(spot))?;
        self.say(out, ";")
    }

    /// `export { a };`
    #[tactic(auto, using(crate::proofs::Arrays::threes))]
    fn named_export(&self, out: &mut Out) -> Result<(), NoMemory>
        requires { ShowsChildren F.Fn self.now }
        ensures { OnOk result (Puts out.old out.new self.now.margin.now (named_export (children_of self.now))) }
    {
        let [specifiers, source, attributes] = self.node.children.as_slice() else {
            return Ok(());
        };
        self.say(out, "export ")?;
        self.child(out, specifiers, Place::Exports)?;
        self.child(out, source, Place::Within(Between::From, Spot::alone()))?;
        self.child(
            out,
            attributes,
            Place::Within(Between::Attributes, Spot::alone()),
        )?;
        self.say(out, ";")
    }

    /// `a as b`
    fn export_specifier(&self, out: &mut Out) -> Result<(), NoMemory>
        requires { ShowsChildren F.Fn self.now }
        ensures { OnOk result (Puts out.old out.new self.now.margin.now (export_specifier (children_of self.now))) }
    {
        let [original, exported] = self.node.children.as_slice() else {
            return Ok(());
        };
        self.child(out, original, Place::At(Spot::alone()))?;
        self.child(out, exported, Place::Within(Between::As, Spot::alone()))
    }

    /// `export * from "m";`
    fn export_all(&self, out: &mut Out) -> Result<(), NoMemory>
        requires { ShowsChildren F.Fn self.now }
        ensures { OnOk result (Puts out.old out.new self.now.margin.now (export_all (children_of self.now))) }
    {
        let [source, attributes] = self.node.children.as_slice() else {
            return Ok(());
        };
        self.say(out, "export * from ")?;
        self.child(out, source, Place::At(Spot::alone()))?;
        self.child(
            out,
            attributes,
            Place::Within(Between::Attributes, Spot::alone()),
        )?;
        self.say(out, ";")
    }

    /// `import a = require("m");`
    fn import_equals(&self, out: &mut Out, is_export: bool) -> Result<(), NoMemory>
        requires { ShowsChildren F.Fn self.now }
        ensures { OnOk result (Puts out.old out.new self.now.margin.now (import_equals is_export (children_of self.now))) }
    {
        let [name, reference] = self.node.children.as_slice() else {
            return Ok(());
        };
        self.say(out, import_equals_word(is_export))?;
        self.child(out, name, Place::At(Spot::alone()))?;
        self.say(out, " = ")?;
        self.child(out, reference, Place::At(Spot::alone()))?;
        self.say(out, ";")
    }

    /// `require("m")`
    fn module_reference(&self, out: &mut Out) -> Result<(), NoMemory>
        requires { ShowsChildren F.Fn self.now }
        ensures { OnOk result (Puts out.old out.new self.now.margin.now (module_reference (children_of self.now))) }
    {
        let [text] = self.node.children.as_slice() else {
            return Ok(());
        };
        self.say(out, "require(")?;
        self.child(out, text, Place::At(Spot::alone()))?;
        self.say(out, ")")
    }

    /// `a.b`
    fn qualified_name(&self, out: &mut Out) -> Result<(), NoMemory>
        requires { ShowsChildren F.Fn self.now }
        ensures { OnOk result (Puts out.old out.new self.now.margin.now (qualified_name (children_of self.now))) }
    {
        let [first, second] = self.node.children.as_slice() else {
            return Ok(());
        };
        self.child(out, first, Place::At(Spot::alone()))?;
        self.say(out, ".")?;
        self.child(out, second, Place::At(Spot::alone()))
    }

    /// Modules and imports.
    pub(super) fn importing(&self, out: &mut Out) -> Result<(), NoMemory>
        requires { ShowsChildren F.Fn self.now }
        ensures { OnOk result (Puts out.old out.new self.now.margin.now (importing (out-Node self.now.node.now).kind (children_of self.now))) }
    {
        match &self.node.kind {
            Kind::Module { shebang } | Kind::Script { shebang } => self.whole_module(out, shebang),
            Kind::ImportDecl { .. } => self.import_text(out),
            Kind::ImportNamedSpecifier { .. } => self.import_specifier(out),
            Kind::ImportDefaultSpecifier => self.behind_word(out, ""),
            Kind::ImportStarAsSpecifier => self.behind_word(out, "* as "),
            Kind::TsImportEqualsDecl { is_export, .. } => self.import_equals(out, *is_export),
            Kind::TsExternalModuleRef => self.module_reference(out),
            Kind::TsQualifiedName => self.qualified_name(out),
            _ => Ok(()),
        }
    }

    /// Exports.
    pub(super) fn exporting(&self, out: &mut Out) -> Result<(), NoMemory>
        requires { ShowsChildren F.Fn self.now }
        ensures { OnOk result (Puts out.old out.new self.now.margin.now (exporting (out-Node self.now.node.now).kind (children_of self.now))) }
    {
        match &self.node.kind {
            Kind::ExportDecl => self.behind_word(out, "export "),
            Kind::NamedExport { .. } => self.named_export(out),
            Kind::ExportNamedSpecifier { .. } => self.export_specifier(out),
            Kind::ExportDefaultSpecifier => self.behind_word(out, ""),
            Kind::ExportNamespaceSpecifier => self.behind_word(out, "* as "),
            Kind::ExportDefaultDecl => self.behind_word(out, "export default "),
            Kind::ExportDefaultExpr => {
                let start = Spot::beginning(precedence::ASSIGNMENT, Begins::DefaultStart, false);
                self.ended_behind_word(out, "export default ", start)
            }
            Kind::ExportAll { .. } => self.export_all(out),
            Kind::TsExportAssignment => self.ended_behind_word(out, "export = ", Spot::alone()),
            _ => Ok(()),
        }
    }
}
