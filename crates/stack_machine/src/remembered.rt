//! What was put by which lists, so that lists which are put again are not read once more.
ghost use Rattle.std.specs.Prelude.{◌≡◌, [], IfSome};
ghost use Rattle.stack_machine.specs.Putting.{AreRemembered, IsPutBy};
ghost use Rattle.stack_machine.specs.Stored.{Stored};

use crate::object::List;
use common::Memory;
use hol_rules::Put;
use std::alloc::Global;
use std::collections::BTreeMap;
use std::marker::Model;

// Of lists with no more pairs for terms than this nothing is remembered: so few are read in no time, and most lists that
// articles put are as short.
const FEW: usize = 8;

/// The two lists of a substitution: of pairs for types, and of pairs for terms.
#[derive(Clone, Copy, PartialEq, Eq, PartialOrd, Ord)]
pub(crate) struct Lists {
    pub(crate) types: List,
    pub(crate) terms: List,
}

/// What was put, by the lists that it was read from. Contracts see the entries.
#[derive(Drop)]
pub(crate) struct Remembered {
    puts: BTreeMap<Lists, Put>,
}

impl Model for Remembered {
    ghost use Rattle.std.specs.Prelude.{List};
    ghost use Rattle.hol_rules.specs.declared.made.Substitution.{Substitution};
    ghost use Rattle.stack_machine.specs.declared.remembered.Lists.{Lists as TheLists};

    ghost Value = { List (TheLists × Substitution) };

    ghost view = { λ r. r.puts.entries };
}

impl Remembered {
    /// Nothing is remembered.
    pub(crate) fn new(alloc: Global) -> Self
        ensures empty { result ≡ [] }
    {
        Remembered {
            puts: BTreeMap::new(alloc),
        }
    }

    /// What was put by these lists.
    pub(crate) fn find(&self, lists: Lists) -> Option<&Put>
        ensures { (m : Stored) → AreRemembered m self.now → IfSome result (λ put. IsPutBy m lists put.now) }
    {
        self.puts.get(&lists)
    }

    /// Remembers what is put by these lists, where it is long enough.
    pub(crate) fn keep(&mut self, lists: Lists, put: &Put) -> Result<(), Memory>
        ensures { (m : Stored) → AreRemembered m self.old → IsPutBy m lists put.now → AreRemembered m self.new }
    {
        if put.get().terms.len() <= FEW {
            return Ok(());
        }
        let own = put.again()?;
        self.puts.insert(lists, own)?;
        Ok(())
    }

    /// Forgets all.
    pub(crate) fn forget(&mut self)
        ensures { self.new ≡ [] }
    {
        self.puts.clear();
    }
}
