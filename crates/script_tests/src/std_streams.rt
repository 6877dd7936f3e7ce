// The adapters of standard streams over readers and writers that fail once.
use geo_io::{Failed, ReadEnd, StdSink, StdSource, read_all, write_all};
use std::alloc::Global;
use std::io;
use std::io::{ErrorKind, Read, Write};
use std::test::Fail;

// Gives a byte a call, and fails once, before the last byte.
#[derive(Drop)]
struct TornReader {
    bytes: &'static [u8],
    has_failed: bool,
}

impl Read for TornReader {
    fn read(&mut self, buf: &mut [u8]) -> io::Result<usize> {
        if self.bytes.len() == 1 && !self.has_failed {
            self.has_failed = true;
            return Err(ErrorKind::Other.into());
        }
        let count = buf.len().min(1);
        self.bytes.read(&mut buf[..count])
    }
}

#[test]
fn gives_what_the_reader_gives(rt: HostRuntime) -> Result<(), Fail> {
    let mut source = StdSource::new(b"abc".as_slice());
    let bytes = read_all(rt.alloc(), &mut source, 3)?;
    assert!(rt; bytes.as_slice() == b"abc".as_slice());
    assert!(rt; source.faults() == 0);
    Ok(())
}

#[test]
fn counts_an_error_of_the_reader_once(rt: HostRuntime) -> Result<(), Fail> {
    let mut source = StdSource::new(TornReader {
        bytes: b"abc",
        has_failed: false,
    });
    assert!(rt; read_all(rt.alloc(), &mut source, 3).err() == Some(ReadEnd::Fault));
    assert!(rt; source.faults() == 1);
    let bytes = read_all(rt.alloc(), &mut source, 3)?;
    assert!(rt; bytes.as_slice() == b"c".as_slice());
    assert!(rt; source.faults() == 1);
    Ok(())
}

#[derive(Clone, Copy, PartialEq, Eq)]
enum Flaw {
    None,
    WriteFails,
    FlushFails,
    TakesNothing,
}

// Takes a byte a call. It has its flaw once, at the first call.
#[derive(Drop)]
struct TornWriter {
    taken: Vec<u8>,
    flaw: Flaw,
}

impl TornWriter {
    fn meets(&mut self, flaw: Flaw) -> bool {
        let is_met = self.flaw == flaw;
        if is_met {
            self.flaw = Flaw::None;
        }
        is_met
    }
}

impl Write for TornWriter {
    fn write(&mut self, buf: &[u8]) -> io::Result<usize> {
        if self.meets(Flaw::WriteFails) {
            return Err(ErrorKind::Other.into());
        }
        if buf.is_empty() || self.meets(Flaw::TakesNothing) {
            return Ok(0);
        }
        self.taken.push(buf[0])?;
        Ok(1)
    }

    fn flush(&mut self) -> io::Result<()> {
        if self.meets(Flaw::FlushFails) {
            return Err(ErrorKind::Other.into());
        }
        Ok(())
    }
}

#[test]
fn hands_the_bytes_to_the_writer(rt: HostRuntime) {
    let mut sink = StdSink::new(Vec::new(rt.alloc()));
    assert!(rt; write_all(&mut sink, b"abc") == Ok(()));
    assert!(rt; sink.get_ref().as_slice() == b"abc".as_slice());
    assert!(rt; sink.faults() == 0);
}

#[test]
fn counts_a_fault_of_the_writer_once(rt: HostRuntime) {
    for (name, flaw, taken) in [
        ("a write fails", Flaw::WriteFails, "cd"),
        ("a flush fails", Flaw::FlushFails, "acd"),
        ("a write takes nothing", Flaw::TakesNothing, "cd"),
    ] {
        assert!(rt; is_counted_once(rt.alloc(), flaw, taken), "{name}");
    }
}

// Whether a write fails once, is counted once, and leaves the writer with these bytes after the next.
fn is_counted_once(alloc: Global, flaw: Flaw, taken: &str) -> bool {
    let mut sink = StdSink::new(TornWriter {
        taken: Vec::new(alloc),
        flaw,
    });
    let failed = write_all(&mut sink, b"ab") == Err(Failed);
    let once = sink.faults() == 1;
    let passed = write_all(&mut sink, b"cd") == Ok(());
    let same = sink.faults() == 1 && sink.get_ref().taken.as_slice() == taken.as_bytes();
    failed && once && passed && same
}
