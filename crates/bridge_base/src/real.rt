//! The files of the file system as a shelf, and its streams as sinks.
ghost use Rattle.std.specs.Prelude.{◌≡◌, ◌≤◌, ◌<◌, ℕ, true, false, Ok, IfOk, OnOk, OnErr, length};
ghost use Rattle.bridge_base.specs.Outside.{next_count, HasCause};

use crate::outside::{Failed, Shelf, Sink};
use std::fs;
use std::io::Read;
use std::marker::Model;
use std::rt::{Files, Stderr, Stdout};

/// The files of the file system, by their paths. It tells nothing of what they hold.
///
/// Whatever the system answers as an error, as at a path that is missing or no file, is a failure. Contracts
/// see whether a file is begun, and the number of failures, up to the greatest u64.
#[derive(Drop)]
pub struct FileShelf<R: Files> {
    files: R,
    begun: Option<R::File>,
    faults: u64,
}

impl<R: Files> Model for FileShelf<R> {
    ghost use Rattle.std.specs.Prelude.{is_some};
    ghost use Rattle.bridge_base.specs.Real.{RealShelf};

    ghost Value = { RealShelf };

    ghost view = { λ shelf. record { begun = is_some shelf.begun; faults = shelf.faults } };
}

impl<R: Files> FileShelf<R> {
    /// The shelf of these files, of which none is begun.
    pub fn new(files: R) -> FileShelf<R>
        ensures { result ≡ record { begun = false; faults = 0 } }
    {
        FileShelf {
            files,
            begun: None,
            faults: 0,
        }
    }

    /// How many calls failed, up to the greatest u64.
    pub fn faults(&self) -> u64
        ensures { result ≡ self.now.faults }
    {
        self.faults
    }
}

impl<R: Files> Shelf for FileShelf<R> {
    ghost use Rattle.std.specs.Prelude.{None};

    ghost told = { λ _. None };

    ghost left = { λ _. None };

    ghost faults = { λ shelf. shelf.faults };

    ghost begun = { λ _. None };

    /// Opens the file of that path. Fails where the system can't open it, and then no file is begun.
    fn begin(&mut self, name: &str) -> Result<(), Failed>
        ensures ok { OnOk result (self.new ≡ record { begun = true; faults = self.old.faults }) }
        ensures err { OnErr result (self.new ≡ record { begun = false; faults = next_count self.old.faults }) }
        ensures cause { HasCause self.old.faults self.new.faults result }
    {
        match fs::open(&self.files, name) {
            Ok(file) => {
                self.begun = Some(file);
                Ok(())
            }
            Err(_) => {
                self.begun = None;
                self.faults = self.faults.saturating_add(1);
                Err(Failed)
            }
        }
    }

    /// Reads some of the bytes that are left, none only at the end of the file or where no file is begun.
    /// Fails where the system answers an error.
    fn read(&mut self, buf: &mut [u8]) -> Result<usize, Failed>
        ensures bound { IfOk result (λ count. count ≤ length buf.new) }
        ensures none { self.old.begun ≡ false → result ≡ Ok 0 }
        ensures ok { OnOk result (self.new ≡ self.old) }
        ensures err { OnErr result (self.new ≡ record self.old { faults = next_count self.old.faults }) }
        ensures cause { HasCause self.old.faults self.new.faults result }
    {
        let Some(file) = &mut self.begun else {
            return Ok(0);
        };
        match file.read(buf) {
            Ok(count) => Ok(count),
            Err(_) => {
                self.faults = self.faults.saturating_add(1);
                Err(Failed)
            }
        }
    }
}

/// A standard stream. It tells nothing of what was written.
///
/// Whatever the system answers as an error is a failure, and so is a write of some bytes that takes none. A
/// contract sees the number of failures, up to the greatest u64.
#[derive(Drop)]
pub struct StdSink<P: Print> {
    stream: P,
    faults: u64,
}

impl<P: Print> Model for StdSink<P> {
    ghost use Rattle.std.specs.Prelude.{ℕ};

    ghost Value = { ℕ };

    ghost view = { λ sink. sink.faults };
}

impl StdSink<Stdout> {
    /// The standard output.
    pub fn stdout(rt: &HostRuntime) -> StdSink<Stdout>
        ensures { result ≡ 0 }
    {
        StdSink::new(rt.stdout())
    }
}

impl StdSink<Stderr> {
    /// The standard error.
    pub fn stderr(rt: &HostRuntime) -> StdSink<Stderr>
        ensures { result ≡ 0 }
    {
        StdSink::new(rt.stderr())
    }
}

impl<P: Print> StdSink<P> {
    /// A sink over that stream.
    pub fn new(stream: P) -> StdSink<P>
        ensures { result ≡ 0 }
    {
        StdSink { stream, faults: 0 }
    }

    /// How many calls failed, up to the greatest u64.
    pub fn faults(&self) -> u64
        ensures { result ≡ self.now }
    {
        self.faults
    }
}

impl<P: Print> Sink for StdSink<P> {
    ghost use Rattle.std.specs.Prelude.{None};

    ghost got = { λ _. None };

    ghost faults = { λ sink. sink };

    /// Writes a prefix of the piece at once, without a buffer. Fails where the system answers an error, and
    /// where it takes none of some bytes.
    fn write(&mut self, piece: &[u8]) -> Result<usize, Failed>
        ensures bound { IfOk result (λ count. count ≤ length piece.now) }
        ensures moves { IfOk result (λ count. 0 < length piece.now → 0 < count) }
        ensures ok { OnOk result (self.new ≡ self.old) }
        ensures err { OnErr result (self.new ≡ next_count self.old) }
        ensures cause { HasCause self.old self.new result }
    {
        match self.stream.write_some(piece) {
            Ok(count) if count > 0 || piece.is_empty() => Ok(count),
            _ => {
                self.faults = self.faults.saturating_add(1);
                Err(Failed)
            }
        }
    }
}
