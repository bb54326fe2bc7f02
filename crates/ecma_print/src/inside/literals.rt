//! Names and literals.
ghost use Rattle.std.specs.Prelude.{◌≡◌};
ghost use Rattle.ecma_print.specs.Literals.{bool_word};

use super::Inside;
use crate::out::Out;
use crate::place::Place;
use ecma_number::{JsNumber, ToJsString};
use ecma_tree::{JsWord, Kind, NoMemory, Node};

fn bool_word(value: bool) -> &'static str
    ensures { result.now ≡ bool_word value }
{
    if value { "true" } else { "false" }
}

impl<'f, 'n, F: Fn(&mut Out, &Node, Place, &[u8]) -> Result<(), NoMemory>> Inside<'f, 'n, F> {
    ghost use Rattle.std.specs.Prelude.{OnOk};
    ghost use Rattle.ecma_tree.specs.declared.node.Node.{out-Node};
    ghost use Rattle.ecma_print.specs.Literals.{number_literal, big_literal, regex_literal, text_literal, literal};
    ghost use Rattle.ecma_print.specs.Writing.{Puts};

    fn number_literal(
        &self,
        out: &mut Out,
        value: &Option<JsNumber>,
        raw: &Option<JsWord>,
    ) -> Result<(), NoMemory>
        ensures { OnOk result (Puts out.old out.new self.now.margin.now (number_literal value.now raw.now)) }
    {
        match (value, raw) {
            (_, Some(raw)) => self.say(out, raw.as_str()),
            (Some(value), None) => {
                let text = value.to_js_string(out.alloc)?;
                self.say(out, text.as_str())
            }
            (None, None) => Ok(()),
        }
    }

    fn big_literal(
        &self,
        out: &mut Out,
        value: &JsWord,
        raw: &Option<JsWord>,
    ) -> Result<(), NoMemory>
        ensures { OnOk result (Puts out.old out.new self.now.margin.now (big_literal value.now raw.now)) }
    {
        match raw {
            Some(raw) => self.say(out, raw.as_str()),
            None => {
                self.say(out, value.as_str())?;
                self.say(out, "n")
            }
        }
    }

    fn regex_literal(&self, out: &mut Out, exp: &JsWord, flags: &JsWord) -> Result<(), NoMemory>
        ensures { OnOk result (Puts out.old out.new self.now.margin.now (regex_literal exp.now flags.now)) }
    {
        self.say(out, "/")?;
        self.say(out, exp.as_str())?;
        self.say(out, "/")?;
        self.say(out, flags.as_str())
    }

    /// A text: its source text, or in quotes.
    fn text_literal(
        &self,
        out: &mut Out,
        value: &JsWord,
        raw: &Option<JsWord>,
    ) -> Result<(), NoMemory>
        ensures { OnOk result (Puts out.old out.new self.now.margin.now (text_literal value.now raw.now)) }
    {
        match raw {
            Some(raw) => self.say(out, raw.as_str()),
            None => out.write_made_text(self.margin, value.as_str()),
        }
    }

    /// Names and literals.
    pub(super) fn literal(&self, out: &mut Out) -> Result<(), NoMemory>
        ensures { OnOk result (Puts out.old out.new self.now.margin.now (literal (out-Node self.now.node.now).kind)) }
    {
        match &self.node.kind {
            Kind::Ident { sym, .. } | Kind::IdentName { sym } => self.say(out, sym.as_str()),
            Kind::PrivateName { name } => {
                self.say(out, "#")?;
                self.say(out, name.as_str())
            }
            Kind::Str { value, raw } => self.text_literal(out, value, raw),
            Kind::Bool { value } => self.say(out, bool_word(*value)),
            Kind::Null => self.say(out, "null"),
            Kind::Number { value, raw } => self.number_literal(out, value, raw),
            Kind::BigInt { value, raw } => self.big_literal(out, value, raw),
            Kind::Regex { exp, flags } => self.regex_literal(out, exp, flags),
            Kind::TplElement { raw, .. } => self.say(out, raw.as_str()),
            _ => Ok(()),
        }
    }
}
