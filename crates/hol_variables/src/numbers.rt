//! Sets of numbers.
ghost use Rattle.std.specs.Prelude.{◌≡◌, [], ◌∷◌, nat_eq, OnOk};
ghost use Rattle.std.specs.List.{list_all, IsDistinct};
ghost use Rattle.hol_spec.specs.Lists.{is_in, union};

use common::Memory;
use std::alloc::Global;
use std::marker::Model;
use tree_map::TreeSet;

/// Numbers, each once. Contracts see the list of them, in the order in which they came.
#[derive(Drop)]
pub(crate) struct Numbers {
    numbers: TreeSet<usize>,
}

impl Model for Numbers {
    ghost use Rattle.std.specs.Prelude.{List, ℕ, nat_eq};
    ghost use Rattle.std.specs.List.{IsDistinct};

    ghost Value = { List ℕ };

    ghost view = { λ n. n.numbers };

    ghost invariant = { λ n. IsDistinct nat_eq n.numbers };
}

impl Numbers {
    /// No numbers. It takes no memory.
    pub(crate) fn new(alloc: Global) -> Self
        ensures empty { result ≡ [] }
    {
        Numbers {
            numbers: TreeSet::new(alloc),
        }
    }

    /// The numbers, in the order in which they came.
    pub(crate) fn numbers(&self) -> &[usize]
        ensures numbers { result.now ≡ self.now }
        ensures no_repeats { IsDistinct nat_eq self.now }
    {
        self.numbers.as_slice()
    }

    /// Whether each of some numbers is among these.
    pub(crate) fn has_all(&self, others: &[usize]) -> bool
        ensures { result ≡ list_all (λ n. is_in nat_eq n self.now) others.now }
    {
        others.iter().all(|n| self.has(*n))
    }

    // Whether a number is among these.
    fn has(&self, n: usize) -> bool
        ensures { result ≡ is_in nat_eq n self.now }
    {
        self.numbers.contains(&n)
    }

    /// Takes what is new of some numbers.
    pub(crate) fn unite(&mut self, others: &[usize]) -> Result<(), Memory>
        ensures united { OnOk result (self.new ≡ union nat_eq self.old others.now) }
    {
        for n in others {
            self.add(*n)?;
        }
        Ok(())
    }

    /// Takes a number, if it is new.
    pub(crate) fn add(&mut self, n: usize) -> Result<(), Memory>
        ensures added { OnOk result (self.new ≡ union nat_eq self.old (n ∷ [])) }
    {
        self.numbers.insert_full(n)?;
        Ok(())
    }
}
