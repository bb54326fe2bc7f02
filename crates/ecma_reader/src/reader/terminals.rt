//! Terminals.
ghost use Rattle.std.specs.Prelude.{◌≡◌, get_or};

use super::Reader;
use crate::failure::Failure;
use ecma_grammar::{TemplatePart, Terminal, TokenKind};
use ecma_lex::{NoToken, TemplateText, Token, Upcoming};

impl Reader<'_> {
    ghost use Rattle.std.specs.Prelude.{◌≡◌, IfOk};
    ghost use Rattle.ecma_lex.specs.Looking.{look};
    ghost use Rattle.ecma_lex.specs.Tokens.{HasInside, HasTail};
    ghost use Rattle.ecma_lex.specs.Templates.{HasText};
    ghost use Rattle.ecma_lex.specs.Blanks.{skipped};
    ghost use Rattle.ecma_grammar.specs.Reading.{terminal_on};
    ghost use Rattle.ecma_grammar.specs.Written.{written_token};
    ghost use Rattle.ecma_grammar.specs.Reads.{any_token, next_start, part_on, same_line_on, taken, template_part, token};
    ghost use Rattle.ecma_reader.specs.Agreement.{position, kept, Reads, SameText, EndsAs, Keeps, KeepsAs};

    /// Looks at what stands at the reader's place, if that was not seen last.
    pub(super) fn look(&mut self)
        ensures text { SameText self.old self.new }
        ensures position { position self.new ≡ position self.old }
        ensures kept { kept self.new ≡ kept self.old }
        ensures place { self.new.ahead.place ≡ self.new.place }
    {
        if self.ahead.place != self.place {
            self.look_anew();
        }
    }

    /// Looks at what stands at the reader's place.
    fn look_anew(&mut self)
        ensures text { SameText self.old self.new }
        ensures position { position self.new ≡ position self.old }
        ensures kept { kept self.new ≡ kept self.old }
        ensures place { self.new.ahead.place ≡ self.new.place }
    {
        self.ahead = ecma_lex::look(self.text, self.place);
        self.first = byte_at(self.text, self.ahead.skipped().to);
    }

    /// What stands at the reader's place: what is known of it, or what is seen there now.
    pub(super) fn ahead(&mut self) -> Upcoming
        ensures text { SameText self.old self.new }
        ensures position { position self.new ≡ position self.old }
        ensures kept { kept self.new ≡ kept self.old }
        ensures place { result.place ≡ self.old.place }
        ensures known { result ≡ look self.old.text.now result.place }
    {
        if self.ahead.place != self.place {
            self.look_anew();
        }
        self.ahead
    }

    /// Goes behind a token that was found, or marks where none was.
    pub(super) fn take(&mut self, found: Result<Token, NoToken>) -> Result<Token, Failure>
        ensures text { SameText self.old self.new }
        ensures kept { kept self.new ≡ kept self.old }
        ensures value { EndsAs result self.new (terminal_on (position self.old) found) }
    {
        match found {
            Ok(token) => {
                self.place = token.next;
                Ok(token)
            }
            Err(none) => {
                self.failed = self.failed.max(none.at);
                Err(Failure::NoMatch)
            }
        }
    }

    /// Goes behind a text part of a template that was found, if it is the last or not, as is wanted.
    fn take_part(
        &mut self,
        last: bool,
        found: Result<TemplateText, NoToken>,
    ) -> Result<TemplateText, Failure>
        ensures text { SameText self.old self.new }
        ensures kept { kept self.new ≡ kept self.old }
        ensures value { EndsAs result self.new (part_on (position self.old) last found) }
    {
        match found {
            Ok(part) => {
                if part.last != last {
                    return Err(Failure::NoMatch);
                }
                self.place = part.token.next;
                Ok(part)
            }
            Err(none) => {
                self.failed = self.failed.max(none.at);
                Err(Failure::NoMatch)
            }
        }
    }

    pub(super) fn template_part(&mut self, wanted: TemplatePart) -> Result<TemplateText, Failure>
        ensures value { Reads self.old self.new result (template_part self.old.text.now wanted) }
        ensures text { IfOk result (HasText self.new.text.now) }
    {
        let ahead = self.ahead();
        let found = ahead.template_text(self.text, wanted.first, wanted.tagged);
        self.take_part(wanted.last, found)
    }

    fn template_token(&mut self, wanted: TemplatePart) -> Result<Token, Failure>
        ensures { Reads self.old self.new result (any_token self.old.text.now (TokenKind.Template wanted)) }
    {
        let part = self.template_part(wanted)?;
        Ok(part.token)
    }

    pub(super) fn str_lit(&mut self) -> Result<Token, Failure>
        ensures value { Reads self.old self.new result (any_token self.old.text.now TokenKind.Str) }
        ensures inside { IfOk result (HasInside self.new.text.now) }
    {
        let ahead = self.ahead();
        self.take(ahead.str_lit(self.text))
    }

    pub(super) fn priv_name(&mut self) -> Result<Token, Failure>
        ensures value { Reads self.old self.new result (any_token self.old.text.now TokenKind.PrivateName) }
        ensures tail { IfOk result (HasTail self.new.text.now) }
    {
        let ahead = self.ahead();
        self.take(ahead.priv_name(self.text))
    }

    /// Reads a token of a kind.
    pub(super) fn any_token(&mut self, kind: TokenKind) -> Result<Token, Failure>
        ensures { Reads self.old self.new result (any_token self.old.text.now kind) }
    {
        let ahead = self.ahead();
        match kind {
            TokenKind::Name => self.take(ahead.name(self.text)),
            TokenKind::Key => self.take(ahead.key()),
            TokenKind::PrivateName => self.priv_name(),
            TokenKind::Str => self.str_lit(),
            TokenKind::Number => self.take(ahead.num(self.text)),
            TokenKind::BigInt => self.take(ahead.big(self.text)),
            TokenKind::Template(wanted) => self.template_token(wanted),
            TokenKind::LeftAngle => self.take(ahead.angle(self.text, '<')),
            TokenKind::RightAngle => self.take(ahead.angle(self.text, '>')),
            TokenKind::End => self.take(ahead.end(self.text)),
            TokenKind::EndOfText => self.take(ahead.end_of_text(self.text)),
        }
    }

    #[inline(never)]
    pub(crate) fn token(&mut self, terminal: Terminal) -> Result<Token, Failure>
        ensures { Reads self.old self.new result (token self.old.text.now (written_token terminal)) }
    {
        let ahead = self.ahead();
        match terminal {
            Terminal::Word(wanted) => self.take(ahead.word(self.text, wanted)),
            Terminal::Punct(punctuator) => self.take(ahead.punct(self.text, punctuator)),
            Terminal::Kind(kind) => self.any_token(kind),
        }
    }

    /// Takes a token, of which nothing is kept.
    pub(crate) fn take_token(&mut self, terminal: Terminal) -> Result<(), Failure>
        ensures { Keeps self.old self.new result (taken self.old.text.now (written_token terminal)) }
    {
        self.token(terminal)?;
        Ok(())
    }

    /// Where the next token begins.
    #[inline(never)]
    pub(crate) fn next_start(&mut self) -> u32
        ensures text { SameText self.old self.new }
        ensures position { position self.new ≡ position self.old }
        ensures kept { kept self.new ≡ kept self.old }
        ensures start { result ≡ next_start self.old.text.now (position self.old) }
    {
        self.ahead().skipped().to
    }

    /// Fails behind a line break, where one stands before what follows.
    #[inline(never)]
    pub(crate) fn same_line(&mut self) -> Result<(), Failure>
        ensures text { SameText self.old self.new }
        ensures value { KeepsAs self.old self.new result (same_line_on (position self.old) (skipped self.old.text.now self.old.place)) }
    {
        let before = self.ahead().skipped();
        if before.new_line {
            self.failed = self.failed.max(before.to);
            return Err(Failure::NoMatch);
        }
        Ok(())
    }
}

/// The byte at a place, or 0 behind the end.
pub(super) fn byte_at(text: &str, at: u32) -> u8
    ensures { result ≡ get_or text.now at 0 }
{
    let bytes = text.as_bytes();
    let at = at as usize;
    if at < bytes.len() { bytes[at] } else { 0 }
}
