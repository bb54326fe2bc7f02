//! The program over devices: its words, its status, and the line that it writes for a refusal.
ghost use Rattle.std.specs.Prelude.{◌≡◌, ◌≢◌, ◌⊎◌, ◌+◌, ℕ, List, Result, IfSome, IsSome};
ghost use Rattle.devices.specs.Counts.{CountedAtMost, CountedExactlyIf, Rose};
ghost use Rattle.ts_to_js.specs.Answer.{Answers};
ghost use Rattle.ts_to_js.specs.Running.{expected_of, IsRunOf, IsUnwritten, first_read, seen, written_status, reported_status, Refuses, NoRunIsSpent, Ran, IsRun};
ghost use Rattle.ts_to_js.specs.Words.{bad_word, config_of};

use crate::convert::{Behind, LIMIT, converted};
use crate::error::TsError;
use crate::options::{Options, bad_word, config_of};
use crate::report::{write_fault, write_line};
use devices::{ReadFault, Sink, SinkError, Source, read_up_to, write_all};
use ecma_config::Config;
use ecma_pipeline::converted_modules_do_what_their_sources_do;
use ecma_text_contexts::needed_is_bounded_by_the_text;
use ecma_tree::Session;
use std::alloc::Global;
use std::rc::RcStr;

/// The status of a run that wrote the whole text.
pub const DONE: u8 = 0;
/// The status of a run whose module was refused for another cause than memory.
pub const REFUSED: u8 = 1;
/// The status of a run with a word that is unknown or repeated.
pub const BAD_WORD: u8 = 2;
/// The status of a run whose source failed.
pub const READ_FAULT: u8 = 3;
/// The status of a run whose output failed.
pub const WRITE_FAULT: u8 = 4;
/// The status of a run that lacked memory.
pub const NO_MEMORY: u8 = 5;

/// All that the program does. It takes the words after its name, reads the source to its end, or its
/// first `LIMIT + 1` bytes where there are more, converts them by the options that the words name, and
/// writes the text to `out` or the line of the refusal to `err`. The words are `--verbatim`,
/// `--preserve-unused` and `--no-empty-export`, in any order, each once at most.
pub fn run<S: Source, O: Sink, E: Sink>(
    alloc: Global,
    words: &[RcStr],
    source: &mut S,
    out: &mut O,
    err: &mut E,
) -> u8
    // With a bad word nothing is read, and want of memory is that of `err`.
    ensures unread { IsSome (bad_word words.now) → source.new ≡ source.old }
    ensures memory { IsSome (bad_word words.now) → result ≡ NO_MEMORY → Rose (E.calls err.old) (E.calls err.new) }
    ensures source_calls { CountedAtMost (S.calls source.old) (S.calls source.new) (LIMIT + 2) }

    // A fault is answered exactly where the device answered it, which it counts.
    ensures read_fault { CountedExactlyIf (result ≡ READ_FAULT) (S.faults source.old) (S.faults source.new) }
    ensures write_fault { CountedExactlyIf (result ≡ WRITE_FAULT) (O.faults out.old) (O.faults out.new) }

    // Status, output and errors are those of the words and the bytes that were read; what is written is
    // a conversion of them, and no refusal is want of contexts.
    ensures run { IsRun (config_of words.now) (bad_word words.now) (S.left source.old) result
        (Rose (S.faults source.old) (S.faults source.new)) (Rose (O.faults out.old) (O.faults out.new))
        (seen O.taken O.faults O.calls out.old) (seen O.taken O.faults O.calls out.new)
        (seen E.taken E.faults E.calls err.old) (seen E.taken E.faults E.calls err.new) }
{
    converted_modules_do_what_their_sources_do();
    no_run_is_spent();
    match bad_word(words) {
        Some(word) => reported(write_line(err, "error: bad word ", word), BAD_WORD),
        None => run_source(alloc, &config_of(words), source, out, err),
    }
}

/// A run has contexts enough: no bytes are refused for want of them.
pub fn no_run_is_spent()
    ensures { NoRunIsSpent }
{
    needed_is_bounded_by_the_text();
}

/// Reads the source, converts its bytes, and writes what comes of them.
fn run_source<S: Source, O: Sink, E: Sink>(
    alloc: Global,
    config: &Config,
    source: &mut S,
    out: &mut O,
    err: &mut E,
) -> u8
    ensures source_calls { CountedAtMost (S.calls source.old) (S.calls source.new) (LIMIT + 2) }
    ensures read_fault { CountedExactlyIf (result ≡ READ_FAULT) (S.faults source.old) (S.faults source.new) }
    ensures write_fault { CountedExactlyIf (result ≡ WRITE_FAULT) (O.faults out.old) (O.faults out.new) }
    ensures run { (src : List ℕ) × IfSome (S.left source.old) (λ left. src ≡ first_read left)
        × IsRunOf config.now src result (seen O.taken O.faults O.calls out.old) (seen O.taken O.faults O.calls out.new)
        (seen E.taken E.faults E.calls err.old) (seen E.taken E.faults E.calls err.new) }
{
    match read_up_to(alloc, source, LIMIT + 1) {
        Ok(src) => convert(alloc, config, &src, out, err),
        Err(ReadFault::SourceFailed) => READ_FAULT,
        Err(ReadFault::NoMemory) => NO_MEMORY,
    }
}

/// Converts the bytes, and writes the text or the line of the refusal.
fn convert<O: Sink, E: Sink>(
    alloc: Global,
    config: &Config,
    src: &[u8],
    out: &mut O,
    err: &mut E,
) -> u8
    ensures write_fault { CountedExactlyIf (result ≡ WRITE_FAULT) (O.faults out.old) (O.faults out.new) }
    ensures no_read_fault { result ≢ READ_FAULT }
    ensures run { IsRunOf config.now src.now result (seen O.taken O.faults O.calls out.old) (seen O.taken O.faults O.calls out.new)
        (seen E.taken E.faults E.calls err.old) (seen E.taken E.faults E.calls err.new) }
{
    let mut session = Session::new(u32::MAX);
    let options = Options { config: *config };
    let answer = converted(alloc, &mut session, src, &options, Behind::Ends);
    tell(answer, out, err)
}

/// Writes the text to `out` or the line of the refusal to `err`, and gives the status.
pub fn tell<O: Sink, E: Sink>(answer: Result<Vec<u8>, TsError>, out: &mut O, err: &mut E) -> u8
    ensures write_fault { CountedExactlyIf (result ≡ WRITE_FAULT) (O.faults out.old) (O.faults out.new) }
    ensures no_read_fault { result ≢ READ_FAULT }
    // Want of memory is that of the answer, which touches no sink, or that of a sink.
    ensures lacking { answer ≡ Err TsError.NoMemory → IsUnwritten result (seen O.taken O.faults O.calls out.old) (seen O.taken O.faults O.calls out.new)
        (seen E.taken E.faults E.calls err.old) (seen E.taken E.faults E.calls err.new) }
    ensures memory { answer ≢ Err TsError.NoMemory → result ≡ NO_MEMORY
        → (Rose (O.calls out.old) (O.calls out.new)) ⊎ (Rose (E.calls err.old) (E.calls err.new)) }
    ensures run { (conversion : Result (List ℕ) TsError) → Answers answer conversion
        → Ran (expected_of conversion) result (seen O.taken O.faults O.calls out.old) (seen O.taken O.faults O.calls out.new)
        (seen E.taken E.faults E.calls err.old) (seen E.taken E.faults E.calls err.new) }
{
    match answer {
        Ok(text) => written(write_all(out, &text)),
        Err(refusal) => refuse(err, refusal),
    }
}

/// Writes the line of a refusal; want of memory has none.
fn refuse<E: Sink>(err: &mut E, refusal: TsError) -> u8
    ensures status { (result ≡ REFUSED) ⊎ (result ≡ NO_MEMORY) }
    ensures line { Refuses refusal result (seen E.taken E.faults E.calls err.old) (seen E.taken E.faults E.calls err.new) }
    // Want of memory is the refusal, or that of the sink.
    ensures memory { refusal ≢ TsError.NoMemory → result ≡ NO_MEMORY → Rose (E.calls err.old) (E.calls err.new) }
{
    match refusal {
        TsError::NoMemory => NO_MEMORY,
        _ => reported(write_fault(err, &refusal), REFUSED),
    }
}

/// The status of a run that wrote its text.
fn written(writing: Result<(), SinkError>) -> u8
    ensures { result ≡ written_status writing }
{
    match writing {
        Ok(()) => DONE,
        Err(SinkError::Failed) => WRITE_FAULT,
        Err(SinkError::NoMemory) => NO_MEMORY,
    }
}

/// The status of a run that wrote its line: it stays, though the line may not have been taken.
fn reported(writing: Result<(), SinkError>, status: u8) -> u8
    ensures { result ≡ reported_status writing status }
{
    match writing {
        Ok(()) | Err(SinkError::Failed) => status,
        Err(SinkError::NoMemory) => NO_MEMORY,
    }
}
