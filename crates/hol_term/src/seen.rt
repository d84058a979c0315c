//! The parts of a tree that a walk has come to.
ghost use Rattle.std.specs.Prelude.{◌≡◌, ◌++◌, [], ◌∷◌, OnOk, IsTrue, ◌↔◌};
ghost use Rattle.hol_term.specs.declared.TermId.{TermId as AnId};
ghost use Rattle.hol_term.specs.Subterms.{IsAmong};

use crate::TermId;
use common::Memory;
use indexmap::IndexSet;
use std::alloc::Global;
use std::marker::Model;

/// The numbers that were noted, in order.
#[derive(Drop)]
pub(crate) struct Seen {
    ids: IndexSet<TermId>,
}

impl Model for Seen {
    ghost use Rattle.std.specs.Prelude.{List};
    ghost use Rattle.hol_term.specs.declared.TermId.{TermId as AnId};

    ghost Value = { List AnId };

    ghost view = { λ s. s.ids.keys };
}

impl Seen {
    pub(crate) fn new(alloc: Global) -> Self
        ensures empty { result ≡ [] }
    {
        Seen {
            ids: IndexSet::new(alloc),
        }
    }

    pub(crate) fn has(&self, id: TermId) -> bool
        ensures { IsTrue result ↔ IsAmong self.now id }
    {
        self.ids.contains(&id)
    }

    // Notes a number that was not noted.
    pub(crate) fn note(&mut self, id: TermId) -> Result<(), Memory>
        requires { IsAmong self.old id → ⊥ }
        ensures noted { OnOk result (self.new ≡ self.old ++ id ∷ []) }
    {
        self.ids.insert_full(id)?;
        Ok(())
    }

    pub(crate) fn ids(&self) -> &[TermId]
        ensures { result.now ≡ self.now }
    {
        self.ids.as_slice()
    }
}
