//! The adapters over a reader and a writer that fail.
use bfd_edge::{Fault, Sink, Source, StdSink, StdSource};
use std::io;
use std::io::{Cursor, Read, Write};
use std::process::Abort;

/// A reader and a writer that fail always, or accept nothing.
#[derive(Drop)]
struct Broken {
    takes_nothing: bool,
}

impl Read for Broken {
    fn read(&mut self, _buf: &mut [u8]) -> io::Result<usize> {
        Err(io::Error::from(io::ErrorKind::Other))
    }
}

impl Write for Broken {
    fn write(&mut self, _buf: &[u8]) -> io::Result<usize> {
        if self.takes_nothing {
            return Ok(0);
        }
        Err(io::Error::from(io::ErrorKind::Other))
    }

    fn flush(&mut self) -> io::Result<()> {
        Ok(())
    }
}

/// A reader that is interrupted at its first call, and then gives its bytes.
#[derive(Drop)]
struct Interrupted {
    bytes: Cursor<&'static [u8]>,
    came: bool,
}

impl Read for Interrupted {
    fn read(&mut self, buf: &mut [u8]) -> io::Result<usize> {
        if !self.came {
            self.came = true;
            return Err(io::Error::from(io::ErrorKind::Interrupted));
        }
        self.bytes.read(buf)
    }
}

/// How many bytes a read asks for at most, what it answers, and which bytes come.
type Answered = (usize, Result<usize, Fault>, &'static str);

/// Whether a read of so many bytes at most answers so, with these bytes.
fn reads<S: Source>(
    source: &mut S,
    most: usize,
    answer: Result<usize, Fault>,
    bytes: &str,
) -> bool {
    let mut buf = [0; 8];
    if most > 8 || bytes.len() > 8 {
        return false;
    }
    source.read(&mut buf[..most]) == answer && &buf[..bytes.len()] == bytes.as_bytes()
}

/// Each read after the other answers so.
fn check_reads<S: Source, R: Abort>(rt: &R, source: &mut S, all: &[Answered]) {
    for read in all {
        let (most, answer, bytes) = *read;
        assert!(*rt; reads(source, most, answer, bytes));
    }
}

/// All is read to the end; a reader that fails; and one that is interrupted, by which no byte is lost.
#[test]
fn adapted_sources(rt: HostRuntime) {
    let mut whole = StdSource::make(Cursor::new(b"xyz".as_slice()));
    check_reads(&rt, &mut whole, &[(4, Ok(3), "xyz"), (4, Ok(0), "")]);
    let mut broken = StdSource::make(Broken {
        takes_nothing: false,
    });
    check_reads(&rt, &mut broken, &[(4, Err(Fault::Failed), "")]);
    let mut interrupted = StdSource::make(Interrupted {
        bytes: Cursor::new(b"xyz".as_slice()),
        came: false,
    });
    check_reads(
        &rt,
        &mut interrupted,
        &[
            (4, Err(Fault::Failed), ""),
            (2, Ok(2), "xy"),
            (4, Ok(1), "z"),
        ],
    );
}

#[test]
fn adapted_sinks(rt: HostRuntime) {
    // To accept nothing is a fault too, which the count reports.
    for (takes_nothing, answer) in [(false, Err(Fault::Failed)), (true, Ok(0))] {
        let mut sink = StdSink::make(Broken { takes_nothing });
        assert!(rt; sink.write(b"xyz") == answer);
    }
}
