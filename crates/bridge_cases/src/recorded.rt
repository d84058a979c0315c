//! A shelf in memory that tells which files were begun.
ghost use Rattle.std.specs.Prelude.{◌≡◌, ◌++◌, [], ◌∷◌, Some, map, string_bytes, option_map, OnOk};
ghost use Rattle.bridge_base.specs.Outside.{Begins};

use bridge_base::{Failed, MemShelf, Shelf};
use std::alloc::{AllocError, Global};
use std::marker::Model;

/// A shelf in memory that keeps the names that were begun, in order and each as often as it was.
#[derive(Drop)]
pub(crate) struct RecordedShelf {
    shelf: MemShelf,
    names: Names,
}

impl RecordedShelf {
    /// That shelf, of which no file was begun.
    pub(crate) fn new(alloc: Global, shelf: MemShelf) -> RecordedShelf
        ensures shelf { result.shelf ≡ shelf }
        ensures names { result.names ≡ Some [] }
    {
        RecordedShelf {
            shelf,
            names: Names::new(alloc),
        }
    }

    /// The names that were begun, where they are told.
    pub(crate) fn begun(&self) -> Option<&[String]>
        ensures { option_map (λ names. map string_bytes names.now) result ≡ self.now.names }
    {
        self.names.list()
    }
}

impl Shelf for RecordedShelf {
    ghost use Rattle.std.specs.Prelude.{Some};

    ghost told = { λ shelf. Some shelf.shelf.opened.files };

    ghost left = { λ shelf. Some shelf.shelf.opened.left };

    ghost faults = { λ shelf. shelf.shelf.calls.faults };

    ghost begun = { λ shelf. shelf.names };

    /// Keeps the name, and begins the file of that name. Fails where the shelf in memory does.
    fn begin(&mut self, name: &str) -> Result<(), Failed> {
        self.names.add(name);
        self.shelf.begin(name)
    }

    /// Reads from the shelf in memory. Fails where that does.
    fn read(&mut self, buf: &mut [u8]) -> Result<usize, Failed> {
        self.shelf.read(buf)
    }
}

// Names in order, which are told until there is no memory for a further one.
#[derive(Drop)]
struct Names {
    alloc: Global,
    list: Option<Vec<String>>,
}

impl Model for Names {
    ghost use Rattle.std.specs.Prelude.{ℕ, List, Option, map, string_bytes, option_map};

    ghost Value = { Option (List (List ℕ)) };

    ghost view = { λ names. option_map (λ list. map string_bytes list.items) names.list };
}

impl Names {
    // No names.
    fn new(alloc: Global) -> Names
        ensures { result ≡ Some [] }
    {
        Names {
            alloc,
            list: Some(Vec::new(alloc)),
        }
    }

    // Puts a name behind the others, or keeps none any more.
    fn add(&mut self, name: &str)
        ensures { Begins self.old (name.now ∷ []) self.new }
    {
        if self.try_add(name).is_err() {
            self.list = None;
        }
    }

    // Puts a name behind the others, if they are kept and there is memory for it.
    fn try_add(&mut self, name: &str) -> Result<(), AllocError>
        ensures { OnOk result (Begins self.old (name.now ∷ []) self.new) }
    {
        match &mut self.list {
            Some(list) => add(self.alloc, list, name),
            None => Ok(()),
        }
    }

    // The names, where they are told.
    fn list(&self) -> Option<&[String]>
        ensures { option_map (λ list. map string_bytes list.now) result ≡ self.now }
    {
        match &self.list {
            Some(list) => Some(list.as_slice()),
            None => None,
        }
    }
}

// Puts a name behind these.
fn add(alloc: Global, list: &mut Vec<String>, name: &str) -> Result<(), AllocError>
    ensures { OnOk result (map string_bytes list.new.items ≡ map string_bytes list.old.items ++ name.now ∷ []) }
{
    list.push(String::from_str(alloc, name)?)?;
    Ok(())
}
