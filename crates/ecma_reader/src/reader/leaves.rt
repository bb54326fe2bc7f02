//! Tokens that are kept as nodes.
ghost use Rattle.std.specs.Prelude.{◌≡◌, IfOk, string_bytes};
ghost use Rattle.ecma_grammar.specs.Reads.{without_separators};

use super::Reader;
use crate::failure::Failure;
use ecma_grammar::{Leaf, TemplatePart, TokenKind};
use ecma_lex::{TemplateText, Token};
use ecma_number::numeral_value;
use ecma_tree::{JsWord, Kind, NoMemory, Node, Nodes, Span, SyntaxContext};
use std::alloc::Global;

impl Reader<'_> {
    ghost use Rattle.std.specs.Prelude.{◌≡◌, ◌+◌, ◌-◌, IfOk};
    ghost use Rattle.ecma_lex.specs.Tokens.{HasInside, HasTail, HasBody};
    ghost use Rattle.ecma_lex.specs.Templates.{HasText, template_raw, template_value};
    ghost use Rattle.ecma_lex.specs.Strings.{str_value};
    ghost use Rattle.ecma_lex.specs.Text.{piece};
    ghost use Rattle.ecma_grammar.specs.Made.{at_token};
    ghost use Rattle.ecma_grammar.specs.Reads.{leaf_node, source, inside, part_inside, hashbang_token, ident_at, regex_token, is_no_separator, without_separators, word_node, word_token};
    ghost use Rattle.ecma_reader.specs.Agreement.{position, kept, Reads, SameText};

    /// What stands between two places, as a word.
    fn word_at(&mut self, from: u32, to: u32) -> Result<JsWord, NoMemory>
        ensures text { SameText self.old self.new }
        ensures position { position self.new ≡ position self.old }
        ensures kept { kept self.new ≡ kept self.old }
        ensures word { IfOk result (λ word. word ≡ piece self.old.text.now from to) }
    {
        let text = self.text;
        self.recent
            .word(self.alloc, ecma_lex::piece(text, from, to))
    }

    /// The source text of a token, as a word.
    fn source(&mut self, token: Token) -> Result<JsWord, NoMemory>
        ensures text { SameText self.old self.new }
        ensures position { position self.new ≡ position self.old }
        ensures kept { kept self.new ≡ kept self.old }
        ensures word { IfOk result (λ word. word ≡ source self.old.text.now token) }
    {
        self.word_at(token.start, token.next)
    }

    /// A node that stands where a token stands.
    fn at_token(&self, token: Token, kind: Kind) -> Node
        ensures { result ≡ at_token token kind }
    {
        let span = Span {
            lo: token.start,
            hi: token.next,
        };
        Node::new(span, kind, Nodes::new(self.alloc))
    }

    /// Reads this word.
    fn the_word(&mut self, wanted: &str) -> Result<Token, Failure>
        ensures { Reads self.old self.new result (word_token self.old.text.now wanted.now) }
    {
        let ahead = self.ahead();
        self.take(ahead.word(self.text, wanted))
    }

    fn ident(&mut self) -> Result<Node, Failure>
        ensures { Reads self.old self.new result (leaf_node self.old.text.now Leaf.Ident) }
    {
        let token = self.any_token(TokenKind::Name)?;
        Ok(self.ident_at(token)?)
    }

    /// An identifier that a token names.
    fn ident_at(&mut self, token: Token) -> Result<Node, NoMemory>
        ensures text { SameText self.old self.new }
        ensures position { position self.new ≡ position self.old }
        ensures kept { kept self.new ≡ kept self.old }
        ensures ident { IfOk result (λ node. node ≡ ident_at self.old.text.now token) }
    {
        let sym = self.source(token)?;
        let kind = Kind::Ident {
            sym,
            ctxt: SyntaxContext::empty(),
            optional: false,
        };
        Ok(self.at_token(token, kind))
    }

    fn key_ident(&mut self) -> Result<Node, Failure>
        ensures { Reads self.old self.new result (leaf_node self.old.text.now Leaf.KeyIdent) }
    {
        let token = self.any_token(TokenKind::Key)?;
        Ok(self.ident_at(token)?)
    }

    fn this_ident(&mut self) -> Result<Node, Failure>
        ensures { Reads self.old self.new result (leaf_node self.old.text.now Leaf.ThisIdent) }
    {
        let token = self.the_word("this")?;
        Ok(self.ident_at(token)?)
    }

    fn ident_name(&mut self) -> Result<Node, Failure>
        ensures { Reads self.old self.new result (leaf_node self.old.text.now Leaf.IdentName) }
    {
        let token = self.any_token(TokenKind::Key)?;
        let sym = self.source(token)?;
        Ok(self.at_token(token, Kind::IdentName { sym }))
    }

    fn private_name(&mut self) -> Result<Node, Failure>
        ensures { Reads self.old self.new result (leaf_node self.old.text.now Leaf.PrivateName) }
    {
        let token = self.priv_name()?;
        let name = self.word_at(token.start + 1, token.next)?;
        Ok(self.at_token(token, Kind::PrivateName { name }))
    }

    /// What stands inside the quotes of a string literal says this.
    fn value_of(&self, token: Token) -> Result<JsWord, NoMemory>
        requires { HasInside self.now.text.now token }
        ensures { IfOk result (λ word. word ≡ str_value (inside self.now.text.now token)) }
    {
        let inside = ecma_lex::piece(self.text, token.start + 1, token.next - 1);
        let value = ecma_lex::str_value(self.alloc, inside)?;
        JsWord::new(self.alloc, value.as_str())
    }

    fn string(&mut self) -> Result<Node, Failure>
        ensures { Reads self.old self.new result (leaf_node self.old.text.now Leaf.Str) }
    {
        let token = self.str_lit()?;
        let value = self.value_of(token)?;
        let raw = Some(self.source(token)?);
        Ok(self.at_token(token, Kind::Str { value, raw }))
    }

    fn number(&mut self) -> Result<Node, Failure>
        ensures { Reads self.old self.new result (leaf_node self.old.text.now Leaf.Number) }
    {
        let token = self.any_token(TokenKind::Number)?;
        let value = numeral_value(ecma_lex::piece(self.text, token.start, token.next));
        let raw = Some(self.source(token)?);
        Ok(self.at_token(token, Kind::Number { value, raw }))
    }

    /// The text of a token without its last character and without separators.
    fn digits_of(&self, token: Token) -> Result<JsWord, NoMemory>
        ensures { IfOk result (λ word. word ≡ without_separators (piece self.now.text.now token.start (token.next - 1))) }
    {
        let last = token.next.saturating_sub(1);
        let digits = ecma_lex::piece(self.text, token.start, last);
        let digits = without_separators(self.alloc, digits)?;
        JsWord::new(self.alloc, digits.as_str())
    }

    fn big_int(&mut self) -> Result<Node, Failure>
        ensures { Reads self.old self.new result (leaf_node self.old.text.now Leaf.BigInt) }
    {
        let token = self.any_token(TokenKind::BigInt)?;
        let value = self.digits_of(token)?;
        let raw = Some(self.source(token)?);
        Ok(self.at_token(token, Kind::BigInt { value, raw }))
    }

    /// Reads a regular expression literal.
    fn regex(&mut self) -> Result<Node, Failure>
        ensures { Reads self.old self.new result (leaf_node self.old.text.now Leaf.Regex) }
    {
        let token = self.regex_token()?;
        let stop = ecma_lex::regex_body_end(self.text, token.start);
        let exp = self.word_at(token.start + 1, stop)?;
        let flags = self.word_at(stop + 1, token.next)?;
        Ok(self.at_token(token, Kind::Regex { exp, flags }))
    }

    fn regex_token(&mut self) -> Result<Token, Failure>
        ensures value { Reads self.old self.new result (regex_token self.old.text.now) }
        ensures body { IfOk result (HasBody self.new.text.now) }
    {
        let ahead = self.ahead();
        self.take(ahead.regex(self.text))
    }

    /// Reads a text part of a template: its raw value, what it says, and whether it is the last.
    fn tpl_element(&mut self, wanted: TemplatePart) -> Result<Node, Failure>
        ensures { Reads self.old self.new result (leaf_node self.old.text.now (Leaf.TplElement wanted)) }
    {
        let part = self.template_part(wanted)?;
        let (raw, cooked) = self.values_of(part)?;
        let kind = Kind::TplElement {
            raw,
            cooked,
            tail: part.last,
        };
        Ok(self.at_token(part.token, kind))
    }

    /// The raw value of a text part of a template, and what it says.
    fn values_of(&self, part: TemplateText) -> Result<(JsWord, Option<JsWord>), NoMemory>
        requires { HasText self.now.text.now part }
        ensures { IfOk result (λ x. (x.0 ≡ template_raw (part_inside self.now.text.now part)) × (x.1 ≡ template_value (part_inside self.now.text.now part))) }
    {
        let token = part.token;
        let end = token.next - if part.last { 1 } else { 2 };
        let inside = ecma_lex::piece(self.text, token.start + 1, end);
        let raw = ecma_lex::template_raw(self.alloc, inside)?;
        let raw = JsWord::new(self.alloc, raw.as_str())?;
        let cooked = match ecma_lex::template_value(self.alloc, inside)? {
            Some(value) => Some(JsWord::new(self.alloc, value.as_str())?),
            None => None,
        };
        Ok((raw, cooked))
    }

    /// Reads `#!` and what stands behind it in its line, as a name with that text.
    fn hashbang(&mut self) -> Result<Node, Failure>
        ensures { Reads self.old self.new result (leaf_node self.old.text.now Leaf.Hashbang) }
    {
        let found = ecma_lex::hashbang(self.text, self.place);
        let token = self.take(found)?;
        let sym = self.word_at(2, token.next)?;
        Ok(self.at_token(token, Kind::IdentName { sym }))
    }

    /// Reads a word that is kept as a node of a kind.
    fn word_node(&mut self, wanted: &str, kind: Kind) -> Result<Node, Failure>
        ensures { Reads self.old self.new result (word_node self.old.text.now wanted.now kind) }
    {
        let token = self.the_word(wanted)?;
        Ok(self.at_token(token, kind))
    }

    /// Reads a token that is kept as a node.
    pub(crate) fn leaf(&mut self, leaf: Leaf) -> Result<Node, Failure>
        ensures { Reads self.old self.new result (leaf_node self.old.text.now leaf) }
    {
        match leaf {
            Leaf::Ident => self.ident(),
            Leaf::KeyIdent => self.key_ident(),
            Leaf::ThisIdent => self.this_ident(),
            Leaf::IdentName => self.ident_name(),
            Leaf::PrivateName => self.private_name(),
            Leaf::Str => self.string(),
            Leaf::Number => self.number(),
            Leaf::BigInt => self.big_int(),
            Leaf::Regex => self.regex(),
            Leaf::TplElement(wanted) => self.tpl_element(wanted),
            Leaf::This => self.word_node("this", Kind::ThisExpr),
            Leaf::Null => self.word_node("null", Kind::Null),
            Leaf::True => self.word_node("true", Kind::Bool { value: true }),
            Leaf::False => self.word_node("false", Kind::Bool { value: false }),
            Leaf::Super => self.word_node("super", Kind::Super),
            Leaf::Import => self.word_node("import", Kind::Import),
            Leaf::Hashbang => self.hashbang(),
        }
    }
}

/// The digits of a numeral without separators.
#[tactic(auto, using(ecma_grammar::proofs::Steps::spelling))]
fn without_separators(alloc: Global, digits: &str) -> Result<String, NoMemory>
    ensures { IfOk result (λ kept. string_bytes kept ≡ without_separators digits.now) }
{
    let mut kept = String::new(alloc);
    for character in digits.chars() {
        if character != '_' {
            kept.push(character)?;
        }
    }
    Ok(kept)
}
