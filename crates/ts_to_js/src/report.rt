//! The line that says why a run came to nothing. It is written piece by piece, and takes no memory.
ghost use Rattle.std.specs.Prelude.{◌≡◌, ◌++◌, ◌∷◌, [], length, OnOk, OnErr, codes};
ghost use Rattle.std.specs.Io.KnownBytes.{append_known};
ghost use Rattle.devices.specs.Counts.{CountedAtMost, CountedExactlyIf, Rose};
ghost use Rattle.devices.specs.Sink.{TakesPart};
ghost use Rattle.ts_to_js.specs.Lines.{line, fault_head, fault_line, fault_tail};

use crate::error::TsError;
use devices::{Sink, SinkError, write_all};

/// Writes a text.
fn write_text<K: Sink>(sink: &mut K, text: &str) -> Result<(), SinkError>
    ensures ok { OnOk result (K.taken sink.new ≡ append_known (K.taken sink.old) text.now) }
    ensures err { OnErr result (TakesPart (K.taken sink.old) (K.taken sink.new) text.now) }
    ensures faults { CountedExactlyIf (result ≡ Err SinkError.Failed) (K.faults sink.old) (K.faults sink.new) }
    ensures calls { CountedAtMost (K.calls sink.old) (K.calls sink.new) (length text.now) }
    ensures called { OnErr result (Rose (K.calls sink.old) (K.calls sink.new)) }
{
    write_all(sink, text.as_bytes())
}

/// Writes two texts, one after the other.
#[tactic(auto, using(crate::proofs::Pieces::pieces))]
fn write_both<K: Sink>(sink: &mut K, first: &str, second: &str) -> Result<(), SinkError>
    ensures ok { OnOk result (K.taken sink.new ≡ append_known (K.taken sink.old) (first.now ++ second.now)) }
    ensures err { OnErr result (TakesPart (K.taken sink.old) (K.taken sink.new) (first.now ++ second.now)) }
    ensures faults { CountedExactlyIf (result ≡ Err SinkError.Failed) (K.faults sink.old) (K.faults sink.new) }
    ensures calls { CountedAtMost (K.calls sink.old) (K.calls sink.new) (length (first.now ++ second.now)) }
    ensures called { OnErr result (Rose (K.calls sink.old) (K.calls sink.new)) }
{
    write_text(sink, first)?;
    write_text(sink, second)
}

/// Writes a line of two texts.
#[tactic(auto, using(crate::proofs::Pieces::pieces))]
pub(crate) fn write_line<K: Sink>(sink: &mut K, head: &str, tail: &str) -> Result<(), SinkError>
    ensures ok { OnOk result (K.taken sink.new ≡ append_known (K.taken sink.old) (line head.now tail.now)) }
    ensures err { OnErr result (TakesPart (K.taken sink.old) (K.taken sink.new) (line head.now tail.now)) }
    ensures faults { CountedExactlyIf (result ≡ Err SinkError.Failed) (K.faults sink.old) (K.faults sink.new) }
    ensures calls { CountedAtMost (K.calls sink.old) (K.calls sink.new) (length (line head.now tail.now)) }
    ensures called { OnErr result (Rose (K.calls sink.old) (K.calls sink.new)) }
{
    write_text(sink, head)?;
    write_both(sink, tail, "\n")
}

/// Writes the line of a refusal: its name, and its place or the name that it tells.
pub(crate) fn write_fault<K: Sink>(sink: &mut K, refusal: &TsError) -> Result<(), SinkError>
    ensures ok { OnOk result (K.taken sink.new ≡ append_known (K.taken sink.old) (fault_line refusal.now)) }
    ensures err { OnErr result (TakesPart (K.taken sink.old) (K.taken sink.new) (fault_line refusal.now)) }
    ensures faults { CountedExactlyIf (result ≡ Err SinkError.Failed) (K.faults sink.old) (K.faults sink.new) }
    ensures calls { CountedAtMost (K.calls sink.old) (K.calls sink.new) (length (fault_line refusal.now)) }
    ensures called { OnErr result (Rose (K.calls sink.old) (K.calls sink.new)) }
{
    let head = fault_head(refusal);
    match refusal {
        TsError::TooDeep { at }
        | TsError::Syntax { at }
        | TsError::ExportAssignTwice { at }
        | TsError::ImportAssign { at }
        | TsError::ExportAssign { at } => {
            let mut digits = itoa::Buffer::new();
            write_line(sink, head, digits.format(*at))
        }
        TsError::Redeclared { name } => write_line(sink, head, name.as_str()),
        TsError::ExportUnbound { name } => write_line(sink, head, name.as_str()),
        TsError::Captured { name } => write_line(sink, head, name.as_str()),
        TsError::TooLong | TsError::NotUtf8 | TsError::Spent | TsError::NoMemory => {
            write_line(sink, head, "")
        }
    }
}

fn fault_head(refusal: &TsError) -> &'static str
    ensures { result.now ≡ fault_head refusal.now }
{
    match refusal {
        TsError::TooLong => "error: TooLong",
        TsError::NotUtf8 => "error: NotUtf8",
        TsError::TooDeep { .. } => "error: TooDeep at ",
        TsError::Syntax { .. } => "error: Syntax at ",
        TsError::Spent => "error: Spent",
        TsError::ExportAssignTwice { .. } => "error: ExportAssignTwice at ",
        TsError::ImportAssign { .. } => "error: ImportAssign at ",
        TsError::ExportAssign { .. } => "error: ExportAssign at ",
        TsError::Redeclared { .. } => "error: Redeclared ",
        TsError::ExportUnbound { .. } => "error: ExportUnbound ",
        TsError::Captured { .. } => "error: Captured ",
        TsError::NoMemory => "error: NoMemory",
    }
}
