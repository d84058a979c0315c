//! Numbers of terms, each once, in order.
ghost use Rattle.std.specs.Prelude.{◌≡◌, [], ◌∷◌, IfOk, OnOk};
ghost use Rattle.std.specs.List.{IsDistinct};
ghost use Rattle.hol_spec.specs.Lists.{distinct, is_in, union, without as all_but};
ghost use Rattle.sequent.specs.Sequents.{same_id};

use common::Memory;
use hol_term::TermId;
use std::alloc::Global;
use std::marker::Model;
use tree_map::TreeSet;

/// Numbers of terms in a table, each once, in order.
#[derive(Drop)]
pub(crate) struct Ids {
    set: TreeSet<TermId>,
}

impl Model for Ids {
    ghost use Rattle.std.specs.Prelude.{List};
    ghost use Rattle.std.specs.List.{IsDistinct};
    ghost use Rattle.hol_term.specs.declared.TermId.{TermId as AnId};
    ghost use Rattle.sequent.specs.Sequents.{same_id};

    ghost Value = { List AnId };

    ghost view = { λ i. i.set };

    ghost invariant = { λ i. IsDistinct same_id i.set };
}

impl Ids {
    fn new(alloc: Global) -> Self
        ensures empty { result ≡ [] }
    {
        Ids {
            set: TreeSet::new(alloc),
        }
    }

    // These numbers, each where it occurs first.
    pub(crate) fn of(alloc: Global, numbers: &[TermId]) -> Result<Ids, Memory>
        ensures { IfOk result (λ ids. ids ≡ distinct same_id numbers.now) }
    {
        let mut ids = Ids::new(alloc);
        ids.unite(numbers)?;
        Ok(ids)
    }

    // The numbers, in order.
    pub(crate) fn as_slice(&self) -> &[TermId]
        ensures numbers { result.now ≡ self.now }
        ensures no_repeats { IsDistinct same_id self.now }
    {
        self.set.as_slice()
    }

    // Whether a number is among them.
    pub(crate) fn contains(&self, id: TermId) -> bool
        ensures { result ≡ is_in same_id id self.now }
    {
        self.set.contains(&id)
    }

    // Takes what is new of some numbers.
    pub(crate) fn unite(&mut self, numbers: &[TermId]) -> Result<(), Memory>
        ensures united { OnOk result (self.new ≡ union same_id self.old numbers.now) }
    {
        for id in numbers {
            self.add(*id)?;
        }
        Ok(())
    }

    // Numbers without one of them.
    pub(crate) fn without(alloc: Global, numbers: &[TermId], id: TermId) -> Result<Ids, Memory>
        requires { IsDistinct same_id numbers.now }
        ensures { IfOk result (λ rest. rest ≡ all_but same_id numbers.now id) }
    {
        let mut rest = Ids::new(alloc);
        for number in numbers {
            if *number != id {
                rest.add(*number)?;
            }
        }
        Ok(rest)
    }

    // Takes a number, if it is new.
    fn add(&mut self, id: TermId) -> Result<(), Memory>
        ensures added { OnOk result (self.new ≡ union same_id self.old (id ∷ [])) }
    {
        self.set.insert_full(id)?;
        Ok(())
    }
}
