//! The reader: where it stands in a text, and what it has kept.
ghost use Rattle.std.specs.Prelude.{◌≡◌, ◌<◌, ◌^◌, length};
ghost use Rattle.ecma_lex.specs.Looking.{look};
ghost use Rattle.ecma_reader.specs.FirstByte.{first_byte};
ghost use Rattle.ecma_reader.specs.Memo.{Remembers};

mod attempts;
mod keeping;
mod leaves;
mod memo;
mod operands;
mod outlook;
mod recent;
mod terminals;

use ecma_grammar::Mode;
use ecma_lex::Upcoming;
use ecma_tree::{Node, Nodes};
pub(crate) use keeping::Opened;
pub(crate) use memo::Mark;
pub(crate) use operands::Operand;
pub(crate) use outlook::Known;
use std::alloc::Global;

/// Reads a text from its front.
#[derive(Drop)]
pub(crate) struct Reader<'a> {
    alloc: Global,
    text: &'a str,
    /// Which of the parts that are TypeScript are read.
    mode: Mode,
    /// Where the reading goes on.
    place: u32,
    /// The greatest place at which a terminal has failed.
    failed: u32,
    /// What stands at the place that was looked at last.
    ahead: Upcoming,
    /// The byte that stands there behind the blanks, or 0.
    first: u8,
    recent: recent::Recent,
    memo: memo::Memo,
    /// How many parts were begun, up to a multiple of 2 ^ 32.
    begun: u32,
    /// The fewest levels that were left inside a part since something was set aside.
    least: usize,
    /// The nodes that were kept so far, the last at the end.
    kept: Vec<Node>,
    ghost short: { length text.now < 2 ^ 32 },
    ghost known: { ahead ≡ look text.now ahead.place },
    ghost begins: { first ≡ first_byte text.now ahead.place },
    ghost remembers: { Remembers text.now mode memo },
}

impl<'a> Reader<'a> {
    ghost use Rattle.std.specs.Prelude.{◌≡◌, ◌<◌, ◌^◌, length, []};
    ghost use Rattle.ecma_reader.specs.Agreement.{position, kept, SameText};

    pub(crate) fn new(alloc: Global, text: &'a str, mode: Mode) -> Reader<'a>
        requires { length text.now < 2 ^ 32 }
        ensures text { result.text.now ≡ text.now }
        ensures mode { result.mode ≡ mode }
        ensures position { position result ≡ record { place = 0; failed = 0 } }
        ensures kept { kept result ≡ [] }
    {
        let ahead = ecma_lex::look(text, 0);
        let first = terminals::byte_at(text, ahead.skipped().to);
        Reader {
            alloc,
            text,
            mode,
            place: 0,
            failed: 0,
            ahead,
            first,
            recent: recent::Recent::new(alloc),
            memo: memo::Memo::new(alloc),
            begun: 0,
            least: 0,
            kept: Vec::new(alloc),
        }
    }

    pub(crate) fn place(&self) -> u32
        ensures { result ≡ self.now.place }
    {
        self.place
    }

    pub(crate) fn text(&self) -> &str
        ensures { result.now ≡ self.now.text.now }
    {
        self.text
    }

    pub(crate) fn mode(&self) -> Mode
        ensures { result ≡ self.now.mode }
    {
        self.mode
    }

    /// The greatest place at which a terminal has failed.
    pub(crate) fn failed(&self) -> u32
        ensures { result ≡ self.now.failed }
    {
        self.failed
    }

    /// The nodes that were kept.
    pub(crate) fn into_kept(self) -> Nodes
        ensures { result ≡ kept self.entry }
    {
        let Reader { kept, .. } = self;
        Nodes::from_vec(kept)
    }
}
