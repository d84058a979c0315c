//! Hypotheses: terms of a table, each once, in a list that copies share.
ghost use Rattle.std.specs.Prelude.{◌≡◌, [], IfOk, option_map, unwrap_or};
ghost use Rattle.std.specs.List.{list_all, IsDistinct};
ghost use Rattle.hol_spec.specs.Lists.{distinct, is_in, union, without as all_but};
ghost use Rattle.hol_spec.specs.Terms.{term_eq};
ghost use Rattle.hol_term.specs.Tables.{Trees, AreKnown, IsDistinct as HasOneOfEach};
ghost use Rattle.sequent.specs.Sequents.{hyps_at, same_id};

use crate::ids::Ids;
use common::Memory;
use hol_term::TermId;
use std::alloc::{AllocError, Global};
use std::marker::Model;
use std::rc::Rc;

/// Hypotheses: the numbers of terms in a table, each once, in order. A copy shares the list, and so does what a rule makes where that
/// is all of one list. Contracts see the list of the numbers.
#[derive(Drop)]
pub struct Hyps {
    list: Option<Rc<Ids>>,
}

impl Model for Hyps {
    ghost use Rattle.std.specs.Prelude.{List, [], option_map, unwrap_or};
    ghost use Rattle.hol_term.specs.declared.TermId.{TermId as AnId};

    ghost Value = { List AnId };

    ghost view = { λ h. unwrap_or (option_map (λ rc. rc.value) h.list) [] };
}

impl Clone for Hyps {
    ghost is_clone = { λ hyps copy. copy ≡ hyps };

    // It takes no memory, and fails only where a list has as many copies as can be counted.
    fn clone(&self) -> Result<Hyps, AllocError> {
        match &self.list {
            Some(list) => Ok(Hyps {
                list: Some(list.clone()?),
            }),
            None => Ok(Hyps { list: None }),
        }
    }
}

impl Hyps {
    /// No hypotheses. It takes no memory.
    pub fn new(_alloc: Global) -> Self
        ensures empty { result ≡ [] }
    {
        Hyps { list: None }
    }

    /// These numbers, each where it occurs first.
    pub fn of(alloc: Global, ids: &[TermId]) -> Result<Hyps, Memory>
        ensures numbers { IfOk result (λ hyps. hyps ≡ distinct same_id ids.now) }
        ensures terms { IfOk result (λ hyps. (trees : Trees) → HasOneOfEach trees.terms → AreKnown trees ids.now
            → hyps_at trees hyps ≡ distinct term_eq (hyps_at trees ids.now)) }
        ensures known { IfOk result (λ hyps. (trees : Trees) → AreKnown trees ids.now → AreKnown trees hyps) }
    {
        let list = Ids::of(alloc, ids)?;
        Hyps::listed(alloc, list)
    }

    // The numbers of a list.
    fn listed(alloc: Global, list: Ids) -> Result<Hyps, Memory>
        ensures { IfOk result (λ hyps. hyps ≡ list) }
    {
        if list.as_slice().is_empty() {
            return Ok(Hyps { list: None });
        }
        match Rc::new(alloc, list) {
            Ok(list) => Ok(Hyps { list: Some(list) }),
            Err(_) => Err(Memory),
        }
    }

    /// These numbers, each where it occurs first: in the same list where they are this one's.
    pub fn again(&self, alloc: Global, ids: &[TermId]) -> Result<Hyps, Memory>
        ensures numbers { IfOk result (λ hyps. hyps ≡ distinct same_id ids.now) }
        ensures terms { IfOk result (λ hyps. (trees : Trees) → HasOneOfEach trees.terms → AreKnown trees ids.now
            → hyps_at trees hyps ≡ distinct term_eq (hyps_at trees ids.now)) }
        ensures known { IfOk result (λ hyps. (trees : Trees) → AreKnown trees ids.now → AreKnown trees hyps) }
    {
        if self.ids() == ids {
            return self.copied();
        }
        Hyps::of(alloc, ids)
    }

    /// The numbers, in order.
    pub fn ids(&self) -> &[TermId]
        ensures numbers { result.now ≡ self.now }
        ensures no_repeats { IsDistinct same_id self.now }
    {
        match &self.list {
            Some(list) => list.as_slice(),
            None => &[],
        }
    }

    /// Whether a number is among them.
    pub fn contains(&self, id: TermId) -> bool
        ensures { result ≡ is_in same_id id self.now }
    {
        match &self.list {
            Some(list) => list.contains(id),
            None => false,
        }
    }

    // Whether each number is one of the others.
    pub(crate) fn are_among(&self, others: &Hyps) -> bool
        ensures { result ≡ list_all (λ id. is_in same_id id others.now) self.now }
    {
        self.ids().iter().all(|id| others.contains(*id))
    }

    // These numbers, followed by what is new of the others: this list itself where nothing is, and the other one where this is empty.
    pub(crate) fn united(&self, alloc: Global, others: &Hyps) -> Result<Hyps, Memory>
        ensures { IfOk result (λ hyps. hyps ≡ union same_id self.now others.now) }
    {
        if others.are_among(self) {
            return self.copied();
        }
        let own = self.ids();
        let more = others.ids();
        if own.is_empty() {
            return others.copied();
        }
        let mut list = Ids::of(alloc, own)?;
        list.unite(more)?;
        Hyps::listed(alloc, list)
    }

    // The numbers without one of them: this list itself where it isn't among them.
    pub(crate) fn without(&self, alloc: Global, id: TermId) -> Result<Hyps, Memory>
        ensures { IfOk result (λ hyps. hyps ≡ all_but same_id self.now id) }
    {
        if !self.contains(id) {
            return self.copied();
        }
        let rest = Ids::without(alloc, self.ids(), id)?;
        Hyps::listed(alloc, rest)
    }

    // The same numbers, in the same list.
    fn copied(&self) -> Result<Hyps, Memory>
        ensures { IfOk result (λ hyps. hyps ≡ self.now) }
    {
        match self.clone() {
            Ok(copy) => Ok(copy),
            Err(AllocError) => Err(Memory),
        }
    }
}
