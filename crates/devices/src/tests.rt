//! Devices in memory and over the standard library, at calls that succeed and at calls that fail.
use super::*;
use std::alloc::{AllocError, Global};
use std::io;
use std::io::{ErrorKind, Read, Write};
use std::test::Fail;

/// What each of four reads into three bytes handed out, ended by a comma, and `!` for a failure.
fn four_reads<S: Source>(alloc: Global, source: &mut S) -> Result<Vec<u8>, AllocError> {
    let mut log = Vec::new(alloc);
    let mut buffer = [0; 3];
    for _ in 0..4 {
        match source.read(&mut buffer) {
            Ok(count) => log.extend_from_slice(&buffer[..count])?,
            Err(Failed) => log.push(b'!')?,
        }
        log.push(b',')?;
    }
    Ok(log)
}

/// How many bytes each of three writes of the same piece took, `None` for a failure.
fn three_writes<K: Sink>(
    alloc: Global,
    sink: &mut K,
    piece: &[u8],
) -> Result<Vec<Option<usize>>, AllocError> {
    let mut counts = Vec::new(alloc);
    for _ in 0..3 {
        counts.push(sink.write(piece).ok())?;
    }
    Ok(counts)
}

fn reads_in_memory(alloc: Global, fail_at: &[u64]) -> Result<Vec<u8>, AllocError> {
    let mut source = MemSource::new(b"abcdefg".to_vec(alloc)?, fail_at.to_vec(alloc)?);
    four_reads(alloc, &mut source)
}

fn writes_in_memory(alloc: Global, fail_at: &[u64]) -> Result<Vec<Option<usize>>, AllocError> {
    let mut sink = MemSink::taking_at_most(alloc, 3, fail_at.to_vec(alloc)?);
    three_writes(alloc, &mut sink, b"abcd")
}

#[test]
fn devices_in_memory_fail_at_the_calls_listed(rt: HostRuntime) -> Result<(), Fail> {
    let alloc = rt.alloc();
    let reads: [(&[u64], &[u8]); 3] = [
        (&[], b"abc,def,g,,"),
        (&[2], b"abc,!,def,g,"),
        (&[4, 1], b"!,abc,def,!,"),
    ];
    for (fail_at, want) in reads {
        assert_eq!(rt; reads_in_memory(alloc, fail_at)?.as_slice(), want);
    }
    let writes: [(&[u64], &[Option<usize>]); 2] = [
        (&[], &[Some(3), Some(3), Some(3)]),
        (&[3, 1], &[None, Some(3), None]),
    ];
    for (fail_at, want) in writes {
        assert_eq!(rt; writes_in_memory(alloc, fail_at)?.as_slice(), want);
    }
    Ok(())
}

/// Reads at most three bytes of a text, by a source that fails at the calls listed.
fn three_bytes(
    alloc: Global,
    text: &[u8],
    fail_at: &[u64],
) -> Result<Result<Vec<u8>, ReadFault>, AllocError> {
    let mut source = MemSource::new(text.to_vec(alloc)?, fail_at.to_vec(alloc)?);
    Ok(read_up_to(alloc, &mut source, 3))
}

#[test]
fn reading_goes_on_to_the_end_or_the_limit(rt: HostRuntime) -> Result<(), Fail> {
    let alloc = rt.alloc();
    let rows: [(&[u8], &[u64], Result<&[u8], ReadFault>); 6] = [
        (b"", &[], Ok(b"")),
        (b"ab", &[], Ok(b"ab")),
        (b"abc", &[2], Ok(b"abc")),
        (b"abcd", &[], Ok(b"abc")),
        (b"abc", &[1], Err(ReadFault::SourceFailed)),
        (b"ab", &[2], Err(ReadFault::SourceFailed)),
    ];
    for (text, fail_at, want) in rows {
        let read = three_bytes(alloc, text, fail_at)?;
        assert_eq!(rt;
            read.as_ref()
                .map(|bytes| bytes.as_slice())
                .map_err(|fault| *fault),
            want
        );
    }
    let mut source = SliceSource::new(vec![in alloc; 7; 20_000]?);
    assert_eq!(rt; read_up_to(alloc, &mut source, 30_000)?.len(), 20_000);
    Ok(())
}

/// Writes a text, three bytes a call, to a sink that fails at the calls listed; and what it took.
fn written(
    alloc: Global,
    text: &[u8],
    fail_at: &[u64],
) -> Result<(Result<(), SinkError>, Vec<u8>), AllocError> {
    let mut sink = MemSink::taking_at_most(alloc, 3, fail_at.to_vec(alloc)?);
    let outcome = write_all(&mut sink, text);
    Ok((outcome, sink.taken().to_vec(alloc)?))
}

#[test]
fn writing_goes_on_to_the_end_or_a_failure(rt: HostRuntime) -> Result<(), Fail> {
    let alloc = rt.alloc();
    let rows: [(&[u8], &[u64], Result<(), SinkError>, &[u8]); 4] = [
        (b"", &[1], Ok(()), b""),
        (b"abcdefgh", &[4], Ok(()), b"abcdefgh"),
        (b"abcdefgh", &[3], Err(SinkError::Failed), b"abcdef"),
        (b"abcdefgh", &[1], Err(SinkError::Failed), b""),
    ];
    for (text, fail_at, outcome, taken) in rows {
        let written = written(alloc, text, fail_at)?;
        assert_eq!(rt; written.0, outcome);
        assert_eq!(rt; written.1.as_slice(), taken);
    }
    let mut sink = VecSink::new(alloc);
    write_all(&mut sink, b"abcdefgh")?;
    assert_eq!(rt; sink.taken(), b"abcdefgh".as_slice());
    Ok(())
}

/// A reader that is interrupted at its first call, and a writer that takes nothing then.
#[derive(Drop)]
struct Hesitant<D> {
    device: D,
    is_called: bool,
}

impl<R: Read> Read for Hesitant<R> {
    fn read(&mut self, buffer: &mut [u8]) -> io::Result<usize> {
        if self.is_called {
            return self.device.read(buffer);
        }
        self.is_called = true;
        Err(io::Error::from(ErrorKind::Interrupted))
    }
}

impl<W: Write> Write for Hesitant<W> {
    fn write(&mut self, piece: &[u8]) -> io::Result<usize> {
        if self.is_called {
            return self.device.write(piece);
        }
        self.is_called = true;
        Ok(0)
    }

    fn flush(&mut self) -> io::Result<()> {
        self.device.flush()
    }
}

#[test]
fn a_reader_of_std_is_a_source(rt: HostRuntime) -> Result<(), Fail> {
    let mut source = StdSource::new(Hesitant {
        device: b"abcdefg".as_slice(),
        is_called: false,
    });
    assert_eq!(rt;
        four_reads(rt.alloc(), &mut source)?.as_slice(),
        b"!,abc,def,g,".as_slice()
    );
    Ok(())
}

#[test]
fn a_writer_of_std_is_a_sink(rt: HostRuntime) -> Result<(), Fail> {
    let mut written = Vec::new(rt.alloc());
    let mut sink = StdSink::new(Hesitant {
        device: &mut written,
        is_called: false,
    });
    let counts = three_writes(rt.alloc(), &mut sink, b"abcd")?;
    assert_eq!(rt; counts.as_slice(), [None, Some(4), Some(4)].as_slice());
    assert_eq!(rt; written.as_slice(), b"abcdabcd".as_slice());
    Ok(())
}

#[test]
fn errors_say_what_happened(rt: HostRuntime) -> Result<(), Fail> {
    let alloc = rt.alloc();
    let rows = [
        (format!(in alloc; "{Failed}")?, "the source failed"),
        (
            format!(in alloc; "{}", ReadFault::SourceFailed)?,
            "the source failed",
        ),
        (
            format!(in alloc; "{}", ReadFault::NoMemory)?,
            "out of memory",
        ),
        (
            format!(in alloc; "{}", SinkError::Failed)?,
            "the sink failed",
        ),
        (
            format!(in alloc; "{}", SinkError::NoMemory)?,
            "out of memory",
        ),
    ];
    for (text, want) in &rows {
        assert_eq!(rt; text.as_str(), *want);
    }
    Ok(())
}
