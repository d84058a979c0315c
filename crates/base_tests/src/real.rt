//! Real files and streams.
use bridge_base::{Failed, FileShelf, Shelf, Sink, StdSink};
use std::fmt::Display;
use std::io::ErrorKind;
use std::test::Fail;
use std::{fs, io};

// A stream that takes some bytes of each piece, and fails where it is to take more than nine.
#[derive(Drop)]
struct Stream {
    takes: usize,
}

impl Print for Stream {
    fn print<D: Display + Drop>(&self, _value: D) -> io::Result<()> {
        Ok(())
    }

    fn println<D: Display + Drop>(&self, _value: D) -> io::Result<()> {
        Ok(())
    }

    fn write_all(&self, _bytes: &[u8]) -> io::Result<()> {
        Ok(())
    }

    fn write_some(&self, bytes: &[u8]) -> io::Result<usize> {
        if self.takes > 9 {
            return Err(io::Error::from(ErrorKind::BrokenPipe));
        }
        Ok(self.takes.min(bytes.len()))
    }
}

#[test]
fn streams_fail_where_nothing_is_taken(rt: HostRuntime) -> Result<(), Fail> {
    for (takes, answer, faults) in [
        (3, Ok(3), 0),
        (9, Ok(4), 0),
        (0, Err(Failed), 1),
        (10, Err(Failed), 1),
    ] {
        let mut sink = StdSink::new(Stream { takes });
        assert_eq!(rt; sink.write(b"text"), answer);
        assert_eq!(rt; sink.faults(), faults);
    }
    assert_eq!(rt; StdSink::stdout(&rt).write(b""), Ok(0));
    assert_eq!(rt; StdSink::stderr(&rt).write(b""), Ok(0));
    Ok(())
}

#[test]
fn reads_real_files(rt: HostRuntime) -> Result<(), Fail> {
    let path = "bridge_base_tests_reads_real_files.txt";
    fs::write(&rt, path, b"text")?;
    let mut shelf = FileShelf::new(rt.clone()?);
    let mut buf = [0; 8];
    assert_eq!(rt; shelf.read(&mut buf), Ok(0));
    for (name, begun, read, faults) in [
        (path, Ok(()), Ok(4), 0),
        ("absent/file", Err(Failed), Ok(0), 1),
        ("/", Ok(()), Err(Failed), 2),
    ] {
        assert_eq!(rt; shelf.begin(name), begun);
        assert_eq!(rt; shelf.read(&mut buf), read);
        assert_eq!(rt; shelf.faults(), faults);
    }
    assert_eq!(rt; buf[..4], b"text"[..]);
    fs::remove_file(&rt, path)?;
    Ok(())
}
