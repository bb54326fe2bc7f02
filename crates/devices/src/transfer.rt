//! All that a program reads and writes: from a source to its end or a limit, and the whole of a text to a sink.
ghost use Rattle.std.specs.Prelude.{◌≡◌, ◌≤◌, ◌<◌, ◌+◌, ◌++◌, [], length, take, IfOk, IfSome, OnErr, OnOk, vec_len};
ghost use Rattle.std.specs.Io.KnownBytes.{append_known};
ghost use Rattle.devices.specs.Counts.{Counted, CountedAtMost, CountedExactlyIf, Rose};
ghost use Rattle.devices.specs.Sink.{TakesPart};
ghost use Rattle.devices.specs.Source.{HandsOut, rest_after};
ghost use Rattle.devices.specs.declared.transfer.ReadFault.TheVariants.{NoMemory, SourceFailed};

use crate::{Failed, Sink, SinkError, Source};
use std::alloc::{AllocError, Global};
use thiserror::Error;

/// Why not all of the bytes were read.
#[derive(Clone, Copy, Debug, PartialEq, Eq, Error)]
pub enum ReadFault {
    /// The source failed, and counted it.
    #[error("the source failed")]
    SourceFailed,
    /// There was no memory for the bytes.
    #[error("out of memory")]
    NoMemory,
}

impl From<Failed> for ReadFault {
    ghost from_gives = { λ _ fault. fault ≡ SourceFailed };

    fn from(_: Failed) -> Self {
        ReadFault::SourceFailed
    }
}

impl From<AllocError> for ReadFault {
    ghost from_gives = { λ _ fault. fault ≡ NoMemory };

    fn from(_: AllocError) -> Self {
        ReadFault::NoMemory
    }
}

/// The most bytes that one read asks for.
const BUFFER_SIZE: usize = 8192;

/// Reads to the source's end, or the first `limit` bytes where there are more.
pub fn read_up_to<S: Source>(
    alloc: Global,
    source: &mut S,
    limit: usize,
) -> Result<Vec<u8>, ReadFault>
    ensures bytes { IfOk result (λ bytes. IfSome (S.left source.old)
        (λ left. bytes.items ≡ take limit left)) }
    ensures rest { OnOk result (S.left source.new ≡ rest_after (S.left source.old) limit) }
    ensures bound { IfOk result (λ bytes. vec_len bytes ≤ limit) }
    ensures faults { CountedExactlyIf (result ≡ Err ReadFault.SourceFailed)
        (S.faults source.old) (S.faults source.new) }
    ensures calls { CountedAtMost (S.calls source.old) (S.calls source.new) limit }
{
    let mut bytes = Vec::new(alloc);
    let mut buffer = [0; BUFFER_SIZE];
    while bytes.len() < limit {
        let room = BUFFER_SIZE.min(limit - bytes.len());
        if read_more(source, &mut buffer[..room], &mut bytes)? == 0 {
            return Ok(bytes);
        }
    }
    Ok(bytes)
}

/// Appends what one read hands out, and returns how many bytes.
fn read_more<S: Source>(
    source: &mut S,
    buffer: &mut [u8],
    bytes: &mut Vec<u8>,
) -> Result<usize, ReadFault>
    requires { 0 < length buffer.old }
    ensures handed_out { IfOk result (HandsOut (S.left source.old) (S.left source.new) buffer.new) }
    ensures appended { IfOk result (λ n. bytes.new.items ≡ bytes.old.items ++ take n buffer.new) }
    ensures len { IfOk result (λ n. vec_len bytes.new ≡ vec_len bytes.old + n) }
    ensures faults { CountedExactlyIf (result ≡ Err ReadFault.SourceFailed)
        (S.faults source.old) (S.faults source.new) }
    ensures call { Counted (S.calls source.old) (S.calls source.new) }
{
    let count = source.read(buffer)?;
    bytes.extend_from_slice(&buffer[..count])?;
    Ok(count)
}

/// Writes all of the bytes. Each write offers all that the sink has not taken yet.
pub fn write_all<K: Sink>(sink: &mut K, bytes: &[u8]) -> Result<(), SinkError>
    ensures ok { OnOk result (K.taken sink.new ≡ append_known (K.taken sink.old) bytes.now) }
    ensures err { OnErr result (TakesPart (K.taken sink.old) (K.taken sink.new) bytes.now) }
    ensures faults { CountedExactlyIf (result ≡ Err SinkError.Failed)
        (K.faults sink.old) (K.faults sink.new) }
    ensures calls { CountedAtMost (K.calls sink.old) (K.calls sink.new) (length bytes.now) }
    ensures called { OnErr result (Rose (K.calls sink.old) (K.calls sink.new)) }
    ensures empty { bytes.now ≡ [] → sink.new ≡ sink.old }
{
    let mut done = 0;
    while done < bytes.len() {
        done += sink.write(&bytes[done..])?;
    }
    Ok(())
}
