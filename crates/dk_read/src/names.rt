//! The names that a reading has met, by number, and what each means.
ghost use Rattle.std.specs.Prelude.{◌≡◌, ◌<◌, ℕ, List, [], ◌∷◌, length, if◌then◌else◌, IfOk};
ghost use Rattle.std.specs.Str.{bytes_eq};
ghost use Rattle.dk_read.specs.declared.terms.Meaning.TheVariants as meaning;
ghost use Rattle.dk_read.specs.Names.{name_at, looked, Keeps, Puts};

use crate::terms::Meaning;
use common::Memory;
use name_table::NameTable;
use std::alloc::Global;
use std::marker::Model;

/// Names by number. Each has a meaning; the first is the empty one, of binders without a name.
#[derive(Drop)]
pub(crate) struct Names {
    table: NameTable,
    meanings: Vec<Meaning>,
}

impl Model for Names {
    ghost use Rattle.dk_read.specs.Names.{Named, coded_names, names_of, AreNames};
    ghost use Rattle.std.specs.Prelude.{List};

    ghost Value = { List Named };

    ghost coded = { coded_names };

    ghost view = { λ n. names_of n.table n.meanings.items };

    ghost invariant = { λ n. AreNames n.table n.meanings.items };
}

impl Names {
    /// No name. It takes no memory.
    pub(crate) fn new(alloc: Global) -> Self
        ensures { result ≡ [] }
    {
        Names {
            table: NameTable::new(alloc),
            meanings: Vec::new(alloc),
        }
    }

    /// The number of a name, the next one if it is new.
    pub(crate) fn number(&mut self, name: &[u8]) -> Result<usize, Memory>
        ensures known { IfOk result (λ n. n < length self.new) }
        ensures named { IfOk result (λ n. name_at self.new n ≡ name.now) }
        ensures keeps { Keeps self.old self.new }
        ensures same { (x : List ℕ) → looked self.new x ≡ looked self.old x }
    {
        self.meanings.reserve(1)?;
        let number = self.table.number(name)?;
        if number < self.meanings.len() {
            return Ok(number);
        }
        self.meanings.push_reserved(Meaning::Nothing);
        Ok(number)
    }

    /// Makes room for so many names more. They stay as they are.
    pub(crate) fn reserve(&mut self, more: usize) -> Result<(), Memory>
        ensures { self.new ≡ self.old }
    {
        self.meanings.reserve(more)?;
        self.table.reserve(more)
    }

    /// The bytes of a name, copied: none for a number that no name has.
    pub(crate) fn copied(&self, number: usize) -> Result<Vec<u8>, Memory>
        ensures { IfOk result (λ bytes. bytes.items ≡ name_at self.now number) }
    {
        self.table.copied(number)
    }

    /// What a name means.
    pub(crate) fn meaning(&self, number: usize) -> Meaning
        requires { number < length self.now }
        ensures { result ≡ looked self.now (name_at self.now number) }
    {
        self.meanings[number]
    }

    /// Gives a name another meaning, and answers with the one that it had.
    pub(crate) fn put(&mut self, number: usize, new: Meaning) -> Meaning
        requires { number < length self.old }
        ensures old { result ≡ looked self.old (name_at self.old number) }
        ensures keeps { Keeps self.old self.new }
        ensures puts { Puts self.old (name_at self.old number) new self.new }
    {
        std::mem::replace(&mut self.meanings[number], new)
    }
}
