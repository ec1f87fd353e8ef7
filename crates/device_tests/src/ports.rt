//! Readers and writers of the host as ports, and what stays after a failure of one.
use host_ports::{Failed, Sink, Source, StdSink, StdSource};
use std::io;
use std::io::{Read, Write};
use std::process::Abort;

/// A host of which each second call is an error. The others move one byte.
#[derive(Drop)]
struct Stumbling {
    stumbles: bool,
}

impl Stumbling {
    fn step(&mut self) -> io::Result<()> {
        self.stumbles = !self.stumbles;
        if self.stumbles {
            Ok(())
        } else {
            Err(io::ErrorKind::Other.into())
        }
    }
}

impl Read for Stumbling {
    fn read(&mut self, buf: &mut [u8]) -> io::Result<usize> {
        self.step()?;
        if buf.is_empty() {
            return Ok(0);
        }
        buf[0] = b's';
        Ok(1)
    }
}

impl Write for Stumbling {
    fn write(&mut self, buf: &[u8]) -> io::Result<usize> {
        self.step()?;
        Ok(buf.len().min(1))
    }

    fn flush(&mut self) -> io::Result<()> {
        Ok(())
    }
}

/// A writer that takes nothing.
#[derive(Drop)]
struct Full;

impl Write for Full {
    fn write(&mut self, _buf: &[u8]) -> io::Result<usize> {
        Ok(0)
    }

    fn flush(&mut self) -> io::Result<()> {
        Ok(())
    }
}

/// Each of these turns takes up to four bytes, and has this answer; then the piece, of dots at first, holds these.
fn expect_pieces<S: Source>(
    rt: &impl Abort,
    source: &mut S,
    turns: &[(Result<usize, Failed>, [u8; 4])],
) {
    let mut piece = [b'.'; 4];
    for (answer, held) in turns {
        assert!(rt; source.take(&mut piece) == *answer);
        assert!(rt; piece == *held);
    }
}

/// Each of these pieces is put, and has this answer.
fn expect_puts<K: Sink>(rt: &impl Abort, sink: &mut K, turns: &[(&[u8], Result<usize, Failed>)]) {
    for (piece, answer) in turns {
        assert!(rt; sink.put(piece) == *answer);
    }
}

#[test]
fn a_reader_is_a_source(rt: HostRuntime) {
    let turns = [(Ok(4), *b"seve"), (Ok(3), *b"n be"), (Ok(0), *b"n be")];
    expect_pieces(&rt, &mut StdSource::new(&b"seven b"[..]), &turns);
    let stumbles = [
        (Ok(1), *b"s..."),
        (Err(Failed), *b"s..."),
        (Ok(1), *b"s..."),
        (Err(Failed), *b"s..."),
    ];
    expect_pieces(
        &rt,
        &mut StdSource::new(Stumbling { stumbles: false }),
        &stumbles,
    );
}

#[test]
fn a_writer_is_a_sink(rt: HostRuntime) {
    let mut written = Vec::new(rt.alloc());
    {
        let mut sink = StdSink::new(&mut written);
        let turns = [
            (&b"one"[..], Ok(3)),
            (&b""[..], Ok(0)),
            (&b"four"[..], Ok(4)),
        ];
        expect_puts(&rt, &mut sink, &turns);
    }
    assert_eq!(rt; written.as_slice(), &b"onefour"[..]);
    let two = &b"two"[..];
    let mut stumbling = StdSink::new(Stumbling { stumbles: false });
    expect_puts(
        &rt,
        &mut stumbling,
        &[(two, Ok(1)), (two, Err(Failed)), (two, Ok(1))],
    );
    let mut full = StdSink::new(Full);
    expect_puts(
        &rt,
        &mut full,
        &[(&b"a"[..], Err(Failed)), (&b""[..], Ok(0))],
    );
}
