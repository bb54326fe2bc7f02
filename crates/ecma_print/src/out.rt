//! What a layout is written to: the text so far, and pieces that are added to its end.
use ecma_tree::NoMemory;
use std::alloc::Global;

/// What was written so far.
#[derive(Drop)]
pub(crate) struct Out {
    pub(crate) alloc: Global,
    pub(crate) bytes: Vec<u8>,
}

impl Out {
    ghost use Rattle.std.specs.Prelude.{◌≡◌, [], OnOk, IfOk};
    ghost use Rattle.ecma_print.specs.Pieces.{say, new_line, further};
    ghost use Rattle.ecma_print.specs.Writing.{Puts};

    pub(crate) fn new(alloc: Global) -> Out
        ensures { result.bytes.items ≡ [] }
    {
        Out {
            alloc,
            bytes: Vec::new(alloc),
        }
    }

    /// Writes these characters.
    pub(crate) fn write(&mut self, margin: &[u8], text: &str) -> Result<(), NoMemory>
        ensures { OnOk result (Puts self.old self.new margin.now (say text.now)) }
    {
        self.bytes.extend_from_slice(text.as_bytes())?;
        Ok(())
    }

    /// Begins a new line.
    pub(crate) fn new_line(&mut self, margin: &[u8]) -> Result<(), NoMemory>
        ensures { OnOk result (Puts self.old self.new margin.now new_line) }
    {
        self.bytes.extend_from_slice(b"\n")?;
        self.bytes.extend_from_slice(margin)?;
        Ok(())
    }

    /// The margin one level further in.
    pub(crate) fn further(&self, margin: &[u8]) -> Result<Vec<u8>, NoMemory>
        ensures { IfOk result (λ inner. inner.items ≡ further margin.now) }
    {
        let mut inner = Vec::new(self.alloc);
        inner.extend_from_slice(margin)?;
        inner.extend_from_slice(b"    ")?;
        Ok(inner)
    }
}
