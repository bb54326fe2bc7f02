//! Any reader and any writer of the standard library as a source and a sink.
ghost use Rattle.std.specs.Prelude.{◌≡◌, ◌<◌, ℕ, None, IsErr, IfErr, length};
ghost use Rattle.std.specs.Io.KnownBytes.{ReadConsumes, WriteAppends};
ghost use Rattle.devices.specs.Counts.{Counted, CountedExactlyIf};
ghost use Rattle.devices.specs.Sink.{Takes};
ghost use Rattle.devices.specs.Source.{Reads};

use crate::{Failed, Sink, SinkError, Source};
use std::io::{Read, Write};
use std::marker::Model;

/// A reader of the standard library as a source, which tells no bytes.
///
/// Each error of the reader is a fault, also one of kind `Interrupted`: a read is one call of the reader
/// and is not tried again. A system call is interrupted only in a program that handles signals.
#[derive(Drop)]
pub struct StdSource<R> {
    reader: R,
    faults: u64,
    calls: u64,
}

impl<R> Model for StdSource<R> {
    ghost use Rattle.devices.specs.Standard.{StdSourceState};

    ghost Value = { StdSourceState R };

    ghost view = { λ source. record { reader = source.reader; faults = source.faults; calls = source.calls } };
}

impl<R: Read> StdSource<R> {
    pub fn new(reader: R) -> Self
        ensures { result ≡ record { reader = reader; faults = 0; calls = 0 } }
    {
        StdSource {
            reader,
            faults: 0,
            calls: 0,
        }
    }
}

impl<R: Read> Source for StdSource<R> {
    ghost left = { λ _. None };

    ghost faults = { λ source. source.faults };

    ghost calls = { λ source. source.calls };

    fn read(&mut self, buffer: &mut [u8]) -> Result<usize, Failed>
        // As at every source.
        requires { 0 < length buffer.old }
        ensures bytes { Reads None None result buffer.new }
        ensures faults { CountedExactlyIf (IsErr result) self.old.faults self.new.faults }
        ensures call { Counted self.old.calls self.new.calls }

        // As the reader says.
        ensures reader { ReadConsumes (R.remaining self.old.reader) (R.remaining self.new.reader)
            result buffer.new }
    {
        self.calls = self.calls.saturating_add(1);
        match self.reader.read(buffer) {
            Ok(count) => Ok(count),
            Err(_) => {
                self.faults = self.faults.saturating_add(1);
                Err(Failed)
            }
        }
    }
}

/// A writer of the standard library as a sink, which tells no bytes.
///
/// Each error of the writer is a fault, also one of kind `Interrupted`, and so is the answer 0 to a piece
/// that is not empty. A write is one call of the writer, and flushes nothing.
#[derive(Drop)]
pub struct StdSink<W> {
    writer: W,
    faults: u64,
    calls: u64,
}

impl<W> Model for StdSink<W> {
    ghost use Rattle.devices.specs.Standard.{StdSinkState};

    ghost Value = { StdSinkState W };

    ghost view = { λ sink. record { writer = sink.writer; faults = sink.faults; calls = sink.calls } };
}

impl<W: Write> StdSink<W> {
    pub fn new(writer: W) -> Self
        ensures { result ≡ record { writer = writer; faults = 0; calls = 0 } }
    {
        StdSink {
            writer,
            faults: 0,
            calls: 0,
        }
    }
}

impl<W: Write> Sink for StdSink<W> {
    ghost taken = { λ _. None };

    ghost faults = { λ sink. sink.faults };

    ghost calls = { λ sink. sink.calls };

    fn write(&mut self, piece: &[u8]) -> Result<usize, SinkError>
        // As at every sink.
        ensures bytes { Takes None None result piece.now }
        ensures faults { CountedExactlyIf (result ≡ Err SinkError.Failed) self.old.faults self.new.faults }
        ensures call { Counted self.old.calls self.new.calls }

        // As the writer says.
        ensures writer { WriteAppends (W.contents self.old.writer) (W.contents self.new.writer)
            result piece.now }
        ensures failed { IfErr result (λ error. error ≡ SinkError.Failed) }
    {
        self.calls = self.calls.saturating_add(1);
        match self.writer.write(piece) {
            Ok(count) if count > 0 || piece.is_empty() => Ok(count),
            _ => {
                self.faults = self.faults.saturating_add(1);
                Err(SinkError::Failed)
            }
        }
    }
}
