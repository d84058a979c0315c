//! A shelf in memory that fails where it is told to.
ghost use Rattle.std.specs.Prelude.{◌≡◌, ◌<◌, ◌++◌, [], IsTrue, IfOk, OnOk, OnErr, is_ok, is_err, take, drop, length};
ghost use Rattle.bridge_base.specs.Outside.{HasCause};
ghost use Rattle.bridge_base.specs.Calls.{is_listed};
ghost use Rattle.bridge_base.specs.Opened.{as_files};
ghost use Rattle.bridge_base.specs.InMemory.{can_begin, has_begun, begun_none, given, has_read, read_none};

use crate::call_log::CallLog;
use crate::folder::Folder;
use crate::outside::{Failed, Shelf};
use std::marker::Model;

/// A shelf in memory, which fails at the calls that it is told to fail at.
///
/// Calls of `begin` and `read` are counted together from 1, up to the greatest u64, at which the count stays.
/// Beside the listed calls a `begin` of a name that no file has fails, and nothing else.
#[derive(Debug, Drop)]
pub struct MemShelf {
    folder: Folder,
    most: usize,
    log: CallLog,
}

impl Model for MemShelf {
    ghost use Rattle.std.specs.Prelude.{◌<◌};
    ghost use Rattle.bridge_base.specs.InMemory.{ShelfState};

    ghost Value = { ShelfState };

    ghost view = { λ shelf. record { opened = shelf.folder; most = shelf.most; calls = shelf.log } };

    ghost invariant = { λ shelf. 0 < shelf.most };
}

impl MemShelf {
    /// A shelf of these files, each a name and its bytes, of which none is begun. One read gives at most
    /// `most` bytes, and the calls of these numbers fail. Of a name that comes twice the first file counts.
    pub fn new(files: Vec<(String, Vec<u8>)>, most: usize, failing: Vec<u64>) -> MemShelf
        requires { 0 < most }
        ensures files { result.opened ≡ record { files = as_files files.items; left = [] } }
        ensures most { result.most ≡ most }
        ensures calls { result.calls ≡ record { made = 0; failing = failing.items; faults = 0 } }
    {
        MemShelf {
            folder: Folder::new(files),
            most,
            log: CallLog::new(failing),
        }
    }

    /// The files, each a name and its bytes.
    pub fn contents(&self) -> &[(String, Vec<u8>)]
        ensures { as_files result.now ≡ self.now.opened.files }
    {
        self.folder.entries()
    }

    /// How many calls of `begin` and `read` were made, up to the greatest u64.
    pub fn calls(&self) -> u64
        ensures { result ≡ self.now.calls.made }
    {
        self.log.made()
    }

    /// How many calls failed, up to the greatest u64.
    pub fn faults(&self) -> u64
        ensures { result ≡ self.now.calls.faults }
    {
        self.log.faults()
    }
}

impl Shelf for MemShelf {
    ghost use Rattle.std.specs.Prelude.{None, Some};

    ghost told = { λ shelf. Some shelf.opened.files };

    ghost left = { λ shelf. Some shelf.opened.left };

    ghost faults = { λ shelf. shelf.calls.faults };

    ghost begun = { λ _. None };

    /// Begins the file of that name. Fails at a listed call, and where there is no such file.
    fn begin(&mut self, name: &str) -> Result<(), Failed>
        ensures succeeds { is_ok result ≡ can_begin self.old name.now }
        ensures ok { OnOk result (self.new ≡ has_begun self.old name.now) }
        ensures err { OnErr result (self.new ≡ begun_none self.old) }
        ensures cause { HasCause self.old.calls.faults self.new.calls.faults result }
    {
        let counted = self.log.count();
        let found = self.folder.begin(name);
        if counted.is_ok() && found {
            return Ok(());
        }
        self.folder.close();
        counted?;
        Err(self.log.fail())
    }

    /// Reads as many bytes as are left and as fit into the buffer, but no more than the shelf gives at once.
    /// Fails at a listed call alone, and then leaves the buffer as it was.
    fn read(&mut self, buf: &mut [u8]) -> Result<usize, Failed>
        ensures fails { is_err result ≡ is_listed self.old.calls }
        ensures count { IfOk result (λ count. count ≡ given self.old (length buf.old)) }
        ensures bytes { IfOk result (λ count. buf.new ≡ take count self.old.opened.left ++ drop count buf.old) }
        ensures end { result ≡ Ok 0 → 0 < length buf.new → self.old.opened.left ≡ [] }
        ensures ok { IfOk result (λ count. self.new ≡ has_read self.old count) }
        ensures kept { OnErr result (buf.new ≡ buf.old) }
        ensures err { OnErr result (self.new ≡ read_none self.old) }
        ensures cause { HasCause self.old.calls.faults self.new.calls.faults result }
    {
        self.log.count()?;
        Ok(self.folder.read(buf, self.most))
    }
}
