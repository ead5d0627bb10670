//! Readers and writers of std as a source and a sink.
use pk_outside::{Failed, Sink, Source, StdinSource, StdoutSink};
use std::cell::Cell;
use std::io::{self, ErrorKind, Read, Write};

/// Fails so often, in this way, and from then on gives or takes one byte. It counts its calls.
#[derive(Drop)]
struct Fitful<'a> {
    kind: ErrorKind,
    times: u32,
    calls: &'a Cell<u32>,
}

impl Fitful<'_> {
    fn call(&mut self) -> io::Result<()> {
        let calls = self.calls.get().saturating_add(1);
        self.calls.set(calls);
        if calls <= self.times {
            return Err(io::Error::from(self.kind));
        }
        Ok(())
    }
}

impl Read for Fitful<'_> {
    fn read(&mut self, buf: &mut [u8]) -> io::Result<usize> {
        self.call()?;
        match buf {
            [first, ..] => {
                *first = b'a';
                Ok(1)
            }
            [] => Ok(0),
        }
    }
}

impl Write for Fitful<'_> {
    fn write(&mut self, buf: &[u8]) -> io::Result<usize> {
        self.call()?;
        Ok(buf.len().min(1))
    }

    fn flush(&mut self) -> io::Result<()> {
        Ok(())
    }
}

/// How a reader or a writer fails, how often, what a call of it gives, and how often it is made.
const FITS: [(ErrorKind, u32, Result<usize, Failed>, u32); 4] = [
    (ErrorKind::Interrupted, 0, Ok(1), 1),
    (ErrorKind::Interrupted, 63, Ok(1), 64),
    (ErrorKind::Interrupted, 100, Err(Failed), 64),
    (ErrorKind::BrokenPipe, 1, Err(Failed), 1),
];

#[test]
fn interrupted_reads_are_made_again_64_times(rt: HostRuntime) {
    for (kind, times, read, made) in FITS {
        let calls = Cell::new(0);
        let mut source = StdinSource::new(Fitful {
            kind,
            times,
            calls: &calls,
        });
        assert_eq!(rt; source.read(&mut [0; 8]), read, "after {times}");
        assert_eq!(rt; calls.get(), made, "after {times}");
    }
}

#[test]
fn interrupted_writes_are_made_again_64_times(rt: HostRuntime) {
    for (kind, times, written, made) in FITS {
        let calls = Cell::new(0);
        let mut sink = StdoutSink::new(Fitful {
            kind,
            times,
            calls: &calls,
        });
        assert_eq!(rt; sink.write(b"END\n"), written, "after {times}");
        assert_eq!(rt; calls.get(), made, "after {times}");
    }
}
