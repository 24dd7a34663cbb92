//! Reads and writes over sources and sinks of the standard library.

ghost use Rattle.std.specs.Prelude.{◌≤◌, IfOk};

use io_seam::{Failed, ReadError, Sink, StdSink, StdSource, read_all, write_all};
use std::io::{self, Error, ErrorKind, Read, Write};
use std::test::Fail;

const TEXT: &[u8] = b"hello world";

// A reader and a writer that a signal interrupts at first. Then they move a byte, none, and a byte
// again, and from there on they fail.
#[derive(Drop)]
struct Troubled {
    calls: u8,
}

impl Troubled {
    fn answer(&mut self) -> io::Result<usize>
        ensures { IfOk result (λ count. count ≤ 1) }
    {
        self.calls = self.calls.saturating_add(1);
        match self.calls {
            1 => Err(Error::from(ErrorKind::Interrupted)),
            2 | 4 => Ok(1),
            3 => Ok(0),
            _ => Err(Error::from(ErrorKind::BrokenPipe)),
        }
    }
}

impl Read for Troubled {
    fn read(&mut self, piece: &mut [u8]) -> io::Result<usize> {
        let count = self.answer()?;
        Ok(count.min(piece.len()))
    }
}

impl Write for Troubled {
    fn write(&mut self, piece: &[u8]) -> io::Result<usize> {
        let count = self.answer()?;
        Ok(count.min(piece.len()))
    }

    fn flush(&mut self) -> io::Result<()> {
        Ok(())
    }
}

#[test]
fn standard_readers(rt: HostRuntime) -> Result<(), Fail> {
    let alloc = rt.alloc();
    let bytes = read_all(alloc, &mut StdSource::new(TEXT), 11)?;
    assert!(rt; bytes.as_slice() == TEXT);
    let short = read_all(alloc, &mut StdSource::new(TEXT), 10);
    assert!(rt; matches!(short, Err(ReadError::TooLong)));
    Ok(())
}

// The signal is no fault, 0 bytes are the end, and the next whole read fails after a byte.
#[test]
fn a_troubled_reader(rt: HostRuntime) -> Result<(), Fail> {
    let alloc = rt.alloc();
    let mut source = StdSource::new(Troubled { calls: 0 });
    let bytes = read_all(alloc, &mut source, 9)?;
    assert_eq!(rt; bytes.len(), 1);
    let failed = read_all(alloc, &mut source, 9);
    assert!(rt; matches!(failed, Err(ReadError::ReadFault)));
    Ok(())
}

#[test]
fn standard_writers(rt: HostRuntime) -> Result<(), Fail> {
    let mut written = Vec::new(rt.alloc());
    write_all(&mut StdSink::new(&mut written), TEXT)?;
    assert!(rt; written.as_slice() == TEXT);
    Ok(())
}

// The signal is no fault. A write that takes nothing is one, and isn't tried again in that call.
#[test]
fn a_troubled_writer(rt: HostRuntime) {
    let mut sink = StdSink::new(Troubled { calls: 0 });
    let pieces: [(&[u8], Result<usize, Failed>); 4] = [
        (b"ab", Ok(1)),
        (b"b", Err(Failed)),
        (b"b", Ok(1)),
        (b"", Err(Failed)),
    ];
    for (piece, want) in pieces {
        assert!(rt; sink.give(piece) == want);
    }
}
