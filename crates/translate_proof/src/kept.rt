//! The parameters of the steps that were made lately, kept so that they are found once.
ghost use Rattle.std.specs.Prelude.{◌≡◌, ◌<◌, length, IfOk, IfSome, OnOk};
ghost use Rattle.hol_rules.specs.Kept.{step_count, Kept as AProof};
ghost use Rattle.translate_proof.specs.Keeping.{lent_params, AreKept};
ghost use Rattle.translate_proof.specs.Parameters.{AreParams};

use crate::premise::params_of;
use common::Memory;
use hol_rules::{Proof, StepId};
use sequent::Params;
use std::alloc::Global;

// The parameters of at most so many steps are kept.
const PLACES: usize = 4096;

/// The parameters of some steps, of each at the place of its number. A step takes the place of the one before it there.
#[derive(Drop)]
pub struct KeptParams {
    alloc: Global,
    places: Vec<Option<StepParams>>,
}

/// A step by its number, with its parameters.
#[derive(Drop)]
pub(crate) struct StepParams {
    pub(crate) id: StepId,
    pub(crate) params: Params,
}

/// The parameters of a step, lent by those that are kept or found anew.
#[derive(Drop)]
pub enum LentParams<'a> {
    /// They are kept.
    Lent(&'a Params),
    /// They are found anew.
    Found(Params),
}

impl LentParams<'_> {
    /// The parameters.
    pub fn params(&self) -> &Params
        ensures { result.now ≡ lent_params self.now }
    {
        match self {
            LentParams::Lent(params) => params,
            LentParams::Found(params) => params,
        }
    }
}

impl KeptParams {
    /// None are kept. It takes no memory.
    pub fn new(alloc: Global) -> Self
        ensures kept { (k : AProof) → AreKept k result }
    {
        KeptParams {
            alloc,
            places: Vec::new(alloc),
        }
    }

    /// Finds the parameters of a step and keeps them.
    pub fn note(&mut self, proof: &Proof, id: StepId) -> Result<(), Memory>
        requires id { id < step_count proof.now }
        requires kept { AreKept proof.now self.old }
        ensures kept { AreKept proof.now self.new }
    {
        let place = id % PLACES;
        self.reach(place)?;
        let params = params_of(proof, id)?;
        self.places[place] = Some(StepParams { id, params });
        Ok(())
    }

    // Sees to it that there is this place.
    fn reach(&mut self, place: usize) -> Result<(), Memory>
        ensures kept { (k : AProof) → AreKept k self.old → AreKept k self.new }
        ensures reached { OnOk result (place < length self.new.places.items) }
    {
        while self.places.len() <= place {
            self.places.push(None)?;
        }
        Ok(())
    }

    /// The parameters of a step: those that are kept, or else found anew.
    pub fn lend(&self, proof: &Proof, id: StepId) -> Result<LentParams<'_>, Memory>
        requires id { id < step_count proof.now }
        requires kept { AreKept proof.now self.now }
        ensures { IfOk result (λ lent. AreParams proof.now id (lent_params lent)) }
    {
        match self.get(id) {
            Some(params) => Ok(LentParams::Lent(params)),
            None => Ok(LentParams::Found(params_of(proof, id)?)),
        }
    }

    // The parameters of a step, if they are kept.
    fn get(&self, id: StepId) -> Option<&Params>
        ensures { (k : AProof) → AreKept k self.now → IfSome result (λ params. AreParams k id params.now) }
    {
        let Some(Some(one)) = self.places.get(id % PLACES) else {
            return None;
        };
        if one.id == id {
            Some(&one.params)
        } else {
            None
        }
    }
}
