//! Texts that are made: in double quotes, with what may not stand there escaped.
ghost use Rattle.std.specs.Prelude.{◌≡◌};
ghost use Rattle.ecma_print.specs.Escapes.{begins_with_separator, separator_escape};

use crate::out::Out;
use ecma_tree::NoMemory;

/// `\\u2028` or `\\u2029`, by the last byte of the character.
fn separator_escape(last: u8) -> &'static [u8]
    ensures { result.now ≡ separator_escape last }
{
    if last == 168 { b"\\u2028" } else { b"\\u2029" }
}

/// Whether one of the two characters that end a line, but no text, stands at the front.
fn begins_with_separator(text: &[u8]) -> bool
    ensures { result ≡ begins_with_separator text.now }
{
    match text {
        [a, b, c, ..] => *a == 226 && *b == 128 && (*c == 168 || *c == 169),
        _ => false,
    }
}

impl Out {
    ghost use Rattle.std.specs.Prelude.{◌≡◌, ◌++◌, OnOk, IfOk};
    ghost use Rattle.ecma_print.specs.Escapes.{escape, escaped, unit, behind_unit, made_text};
    ghost use Rattle.ecma_print.specs.Pieces.{say};
    ghost use Rattle.ecma_print.specs.Texts.{Writes};
    ghost use Rattle.ecma_print.specs.Writing.{Puts};

    /// Writes a byte, by an escape where it may not stand in quotes.
    fn write_escaped(&mut self, byte: u8) -> Result<(), NoMemory>
        ensures { OnOk result (Writes self.old.bytes.items self.new.bytes.items (λ rest. escape byte ++ rest)) }
    {
        match byte {
            b'"' => self.bytes.extend_from_slice(b"\\\"")?,
            b'\\' => self.bytes.extend_from_slice(b"\\\\")?,
            b'\n' => self.bytes.extend_from_slice(b"\\n")?,
            b'\r' => self.bytes.extend_from_slice(b"\\r")?,
            _ => self.bytes.push(byte)?,
        }
        Ok(())
    }

    /// Writes what stands at the front, and gives what is left.
    fn write_unit<'a>(&mut self, left: &'a [u8]) -> Result<&'a [u8], NoMemory>
        ensures { IfOk result (λ behind. Writes self.old.bytes.items self.new.bytes.items (λ rest. unit left.now ++ rest) × (behind.now ≡ behind_unit left.now)) }
    {
        match (begins_with_separator(left), left) {
            (true, [_, _, last, behind @ ..]) => {
                self.bytes.extend_from_slice(separator_escape(*last))?;
                Ok(behind)
            }
            (false, [byte, behind @ ..]) => {
                self.write_escaped(*byte)?;
                Ok(behind)
            }
            _ => Ok(left),
        }
    }

    /// Writes bytes, those that may not stand in quotes by their escapes.
    fn write_all_escaped(&mut self, text: &[u8]) -> Result<(), NoMemory>
        ensures { OnOk result (Writes self.old.bytes.items self.new.bytes.items (λ rest. escaped text.now ++ rest)) }
    {
        let mut left = text;
        while !left.is_empty() {
            left = self.write_unit(left)?;
        }
        Ok(())
    }

    /// Writes a text in double quotes.
    pub(crate) fn write_made_text(&mut self, margin: &[u8], text: &str) -> Result<(), NoMemory>
        ensures { OnOk result (Puts self.old self.new margin.now (say (made_text text.now))) }
    {
        self.bytes.push(b'"')?;
        self.write_all_escaped(text.as_bytes())?;
        self.bytes.push(b'"')?;
        Ok(())
    }
}
