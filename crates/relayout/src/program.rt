//! The program over devices: it reads a plain module and writes its layout.
ghost use Rattle.std.specs.Prelude.{◌≡◌, ◌+◌, ℕ, List, IfSome};
ghost use Rattle.devices.specs.Counts.{CountedAtMost, CountedExactlyIf};
ghost use Rattle.ts_to_js.specs.declared.program.TheConstants.{DONE, WRITE_FAULT};
ghost use Rattle.ts_to_js.specs.Running.{expected_of, first_read, seen, Ran};
ghost use Rattle.relayout.specs.Relayout.{IsRelaid, relaid};

use crate::convert::relayout;
use devices::{ReadFault, Sink, Source, read_up_to};
use ecma_round_trip_texts::relaid_modules_are_read_again;
use std::alloc::Global;
use ts_to_js::{LIMIT, NO_MEMORY, READ_FAULT, tell};

/// All that the program does. It reads the source to its end, or its first `LIMIT + 1` bytes where there are more, and writes the layout of
/// the plain module to `out` or the line of the refusal to `err`, with the status of a run of `ts_to_js`.
pub fn run<S: Source, O: Sink, E: Sink>(
    alloc: Global,
    source: &mut S,
    out: &mut O,
    err: &mut E,
) -> u8
    ensures source_calls { CountedAtMost (S.calls source.old) (S.calls source.new) (LIMIT + 2) }

    // A fault is answered exactly where the device answered it, which it counts.
    ensures read_fault { CountedExactlyIf (result ≡ READ_FAULT) (S.faults source.old) (S.faults source.new) }
    ensures write_fault { CountedExactlyIf (result ≡ WRITE_FAULT) (O.faults out.old) (O.faults out.new) }

    // Status, output and errors are those of the bytes that were read; what is written is read again as the tree that was read.
    ensures run { (src : List ℕ) × IfSome (S.left source.old) (λ left. src ≡ first_read left)
        × Ran (expected_of (relaid src)) result (seen O.taken O.faults O.calls out.old) (seen O.taken O.faults O.calls out.new)
        (seen E.taken E.faults E.calls err.old) (seen E.taken E.faults E.calls err.new)
        × (result ≡ DONE → IsRelaid src (expected_of (relaid src)).text) }
{
    relaid_modules_are_read_again();
    match read_up_to(alloc, source, LIMIT + 1) {
        Ok(src) => tell(relayout(alloc, &src), out, err),
        Err(ReadFault::SourceFailed) => READ_FAULT,
        Err(ReadFault::NoMemory) => NO_MEMORY,
    }
}
