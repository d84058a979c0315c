//! A shelf in memory and a sink, which never fail.
ghost use Rattle.std.specs.Prelude.{◌≡◌, ◌++◌, [], IsOk, IfOk, Ok, take, drop, length, min};
ghost use Rattle.bridge_base.specs.Opened.{as_files, begun, advanced};

use crate::folder::Folder;
use crate::outside::{Failed, Shelf, Sink};
use std::marker::Model;

/// A shelf in memory that never fails: of a name that no file has it begins an empty file.
#[derive(Debug, Drop)]
pub struct QuietShelf {
    folder: Folder,
}

impl Model for QuietShelf {
    ghost use Rattle.bridge_base.specs.Opened.{Opened};

    ghost Value = { Opened };

    ghost view = { λ shelf. shelf.folder };
}

impl QuietShelf {
    /// A shelf of these files, each a name and its bytes, of which none is begun. Of a name that comes twice
    /// the first file counts.
    pub fn new(files: Vec<(String, Vec<u8>)>) -> QuietShelf
        ensures { result ≡ record { files = as_files files.items; left = [] } }
    {
        QuietShelf {
            folder: Folder::new(files),
        }
    }

    /// The files, each a name and its bytes.
    pub fn contents(&self) -> &[(String, Vec<u8>)]
        ensures { as_files result.now ≡ self.now.files }
    {
        self.folder.entries()
    }
}

impl Shelf for QuietShelf {
    ghost use Rattle.std.specs.Prelude.{None, Some};

    ghost told = { λ shelf. Some shelf.files };

    ghost left = { λ shelf. Some shelf.left };

    ghost faults = { λ _. 0 };

    ghost begun = { λ _. None };

    /// Begins the file of that name, or an empty file. Never fails.
    fn begin(&mut self, name: &str) -> Result<(), Failed>
        ensures succeeds { IsOk result }
        ensures begun { self.new ≡ begun self.old name.now }
    {
        self.folder.begin(name);
        Ok(())
    }

    /// Reads as many bytes as are left and as fit into the buffer. Never fails.
    fn read(&mut self, buf: &mut [u8]) -> Result<usize, Failed>
        ensures count { result ≡ Ok (min (length buf.old) (length self.old.left)) }
        ensures bytes { IfOk result (λ count. buf.new ≡ take count self.old.left ++ drop count buf.old) }
        ensures left { IfOk result (λ count. self.new ≡ advanced self.old count) }
    {
        let room = buf.len();
        Ok(self.folder.read(buf, room))
    }
}

/// A sink that drops its bytes and never fails.
#[derive(Clone, Copy, Debug, PartialEq, Eq)]
pub struct QuietSink;

impl Sink for QuietSink {
    ghost use Rattle.std.specs.Prelude.{None};

    ghost got = { λ _. None };

    ghost faults = { λ _. 0 };

    /// Takes the whole piece. Never fails.
    fn write(&mut self, piece: &[u8]) -> Result<usize, Failed>
        ensures { result ≡ Ok (length piece.now) }
    {
        Ok(piece.len())
    }
}
