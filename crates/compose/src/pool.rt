//! The sequents with their steps, and a list of their places for each conclusion.
ghost use Rattle.std.specs.Prelude.{◌≡◌, ◌<◌, ◌-◌, ◌++◌, ◌∷◌, [], length, take, IfSome, OnOk, OnErr};
ghost use Rattle.std.specs.List.{find};
ghost use Rattle.hol_term.specs.Tables.{Trees, IsDistinct};
ghost use Rattle.sequent.specs.Sequents.{IsKnown};
ghost use Rattle.compose.specs.Places.{first_place};
ghost use Rattle.compose.specs.Pools.{is_same_at, said, step_of, steps_in, AreSequentsKnown};

use crate::listing::{Lists, list_for, note, search, strike};
use common::Memory;
use indexmap::IndexMap;
use sequent::Sequent;
use std::alloc::Global;
use std::marker::Model;

/// A sequent, and the step that says it.
#[derive(Drop)]
pub struct Said {
    pub sequent: Sequent,
    pub step: usize,
}

/// Sequents with the steps that say them, in order of adding. Contracts see the list of them.
#[derive(Drop)]
pub struct Pool {
    alloc: Global,
    held: Vec<Said>,
    steps: Vec<usize>,
    lists: Lists,
}

impl Model for Pool {
    ghost use Rattle.std.specs.Prelude.{List};
    ghost use Rattle.compose.specs.declared.pool.Said.{Said as ASaid};
    ghost use Rattle.compose.specs.Pools.{IsPool};

    ghost Value = { List ASaid };

    ghost invariant = { λ p. IsPool p.held.items p.steps.items p.lists.entries };

    ghost view = { λ p. p.held.items };
}

// Adds to both lists, or to none.
fn hold(
    held: &mut Vec<Said>,
    steps: &mut Vec<usize>,
    sequent: Sequent,
    step: usize,
) -> Result<(), Memory>
    ensures held { OnOk result (held.new.items ≡ held.old.items ++ said sequent step ∷ []) }
    ensures steps { OnOk result (steps.new.items ≡ steps.old.items ++ step ∷ []) }
    ensures not_held { OnErr result (held.new.items ≡ held.old.items) }
    ensures same_steps { OnErr result (steps.new.items ≡ steps.old.items) }
{
    let count = held.len();
    held.push(Said { sequent, step })?;
    match steps.push(step) {
        Ok(()) => Ok(()),
        Err(_full) => {
            held.truncate(count);
            Err(Memory)
        }
    }
}

impl Pool {
    /// A pool without sequents. It takes no memory.
    pub fn new(alloc: Global) -> Pool
        ensures empty { result ≡ [] }
    {
        Pool {
            alloc,
            held: Vec::new(alloc),
            steps: Vec::new(alloc),
            lists: IndexMap::new(alloc),
        }
    }

    /// How many sequents there are.
    pub fn len(&self) -> usize
        ensures { result ≡ length self.now }
    {
        self.held.len()
    }

    /// The steps, in order of adding.
    pub fn steps(&self) -> &[usize]
        ensures { result.now ≡ steps_in self.now }
    {
        &self.steps
    }

    /// The step of the first sequent that is the same: the hypotheses equal as sets, and the conclusions equal. It takes
    /// no memory.
    pub fn find(&self, sequent: &Sequent) -> Option<usize>
        ensures { (trees : Trees) → IsDistinct trees.terms → AreSequentsKnown trees self.now → IsKnown trees sequent.now
            → result ≡ step_of (find (is_same_at trees sequent.now) self.now) }
    {
        let place = self.place(sequent)?;
        Some(self.steps[place])
    }

    /// The step of the first sequent that is the same, among so many that were added first. It takes no memory.
    pub fn find_among(&self, count: usize, sequent: &Sequent) -> Option<usize>
        ensures { (trees : Trees) → IsDistinct trees.terms → AreSequentsKnown trees self.now → IsKnown trees sequent.now
            → result ≡ step_of (find (is_same_at trees sequent.now) (take count self.now)) }
    {
        let place = self.place(sequent)?;
        if place < count {
            Some(self.steps[place])
        } else {
            None
        }
    }

    /// Adds a sequent with the step that says it. After want of memory the pool is as before.
    pub fn add(&mut self, sequent: Sequent, step: usize) -> Result<(), Memory>
        ensures added { OnOk result (self.new ≡ self.old ++ said sequent step ∷ []) }
        ensures unchanged { OnErr result (self.new ≡ self.old) }
    {
        let count = self.steps.len();
        let concl = sequent.concl;
        hold(&mut self.held, &mut self.steps, sequent, step)?;
        match note(self.alloc, &mut self.lists, &self.held, concl, count) {
            Ok(()) => Ok(()),
            Err(full) => {
                self.held.truncate(count);
                self.steps.truncate(count);
                Err(full)
            }
        }
    }

    /// Takes back what was added last, if anything was.
    pub fn forget_last(&mut self)
        ensures { self.new ≡ take (length self.old - 1) self.old }
    {
        if let Some(said) = self.held.pop() {
            let _step = self.steps.pop();
            let concl = said.sequent.concl;
            drop(said);
            strike(&mut self.lists, concl, self.held.len());
        }
    }

    // The place of the first sequent that is the same.
    fn place(&self, sequent: &Sequent) -> Option<usize>
        ensures within { IfSome result (λ place. place < length self.now) }
        ensures first { (trees : Trees) → IsDistinct trees.terms → AreSequentsKnown trees self.now → IsKnown trees sequent.now
            → result ≡ first_place (is_same_at trees sequent.now) self.now }
    {
        let list = list_for(&self.lists, sequent.concl);
        match search(list, &self.held, &sequent.hyps) {
            Ok(at) => Some(list[at]),
            Err(_between) => None,
        }
    }
}
