//! A proof: its table, the symbols that it took and the steps that it made.
ghost use Rattle.std.specs.Prelude.{◌≡◌, ◌<◌, [], length, IfOk};
ghost use Rattle.std.specs.List.{AllByRecursion};
ghost use Rattle.hol_spec.specs.Derivations.{Derives};
ghost use Rattle.hol_spec.specs.Proofs.{assumptions_of, definitions_of, sequent_at, sequents_of, steps_of, symbols_of, IsProof};
ghost use Rattle.hol_spec.specs.Sequents.{free_variables_of, type_variables_of};
ghost use Rattle.hol_type.specs.Tables as type;
ghost use Rattle.hol_term.specs.Subterms.{HaveTypes, variables_of};
ghost use Rattle.hol_defs.specs.Symbols.{symbols_at, AreKnownSymbols};
ghost use Rattle.sequent.specs.Sequents as numbers;
ghost use Rattle.hol_rules.specs.Kept.{step_count};
ghost use Rattle.hol_rules.specs.Views.{made_of, parameters_view, step_at, step_view, AreParametersKnown, IsStepKnown};

use crate::made::{Made, Parameters, Step, StepId};
use common::Memory;
use hol_defs::Symbols;
use hol_spec::StepKind;
use hol_term::TermTable;
use hol_variables::ParamMemo;
use sequent::{Params, Sequent};
use std::alloc::Global;
use std::marker::Model;

/// A proof over a table of terms.
#[derive(Drop)]
pub struct Proof {
    pub(crate) alloc: Global,
    pub(crate) terms: TermTable,
    pub(crate) symbols: Symbols,
    pub(crate) steps: Vec<Step>,
    pub(crate) made: Vec<Made>,
    pub(crate) params: ParamMemo,
}

impl Model for Proof {
    ghost use Rattle.hol_rules.specs.Kept.{Kept, coded_kept};
    ghost use Rattle.hol_rules.specs.Views.{made_view, IsKept};

    ghost Value = { Kept };

    ghost coded = { coded_kept };

    ghost view = { λ p. record { trees = p.terms; made = made_view p.terms p.symbols p.steps.items p.made.items } };

    ghost invariant = { λ p. IsKept p.terms p.symbols p.steps.items p.made.items p.params };
}

impl Proof {
    /// A proof without symbols and steps, over an empty table.
    pub fn new(alloc: Global) -> Result<Proof, Memory>
        ensures empty { IfOk result (λ proof. proof ≡ record { trees = record { types = []; terms = [] }; made = [] }) }
    {
        Ok(Proof {
            alloc,
            terms: TermTable::new(alloc),
            symbols: Symbols::new(alloc)?,
            steps: Vec::new(alloc),
            made: Vec::new(alloc),
            params: ParamMemo::new(alloc),
        })
    }

    /// The table of terms, for reading.
    pub fn terms(&self) -> &TermTable
        ensures { result.now ≡ self.now.trees }
    {
        &self.terms
    }

    /// The symbols that are taken, for reading.
    pub fn symbols(&self) -> &Symbols
        ensures are { symbols_at self.now.trees result.now ≡ symbols_of self.now.made }
        ensures known { AreKnownSymbols self.now.trees result.now }
    {
        &self.symbols
    }

    /// How many steps there are.
    pub fn len(&self) -> usize
        ensures { result ≡ step_count self.now }
    {
        self.steps.len()
    }

    /// What was made, in order: a defined symbol stands with its name, a type operator also with the number of the step
    /// that it was defined from, and a step with its number.
    pub fn made(&self) -> &[Made]
        ensures { made_of (symbols_of self.now.made) (steps_of self.now.made) result.now ≡ self.now.made }
    {
        &self.made
    }

    /// The sequent of a step.
    pub fn sequent(&self, id: StepId) -> &Sequent
        requires { id < step_count self.now }
        ensures is { numbers.sequent_at self.now.trees result.now ≡ sequent_at self.now.made id }
        ensures known { numbers.IsKnown self.now.trees result.now }
    {
        &self.step(id).sequent
    }

    /// The rule by which a step was made.
    pub fn kind(&self, id: StepId) -> StepKind
        requires { id < step_count self.now }
        ensures { result ≡ (step_at self.now.made id).kind }
    {
        self.step(id).inference.kind()
    }

    /// The numbers of the steps that were a step's premises.
    pub fn premises(&self, id: StepId) -> &[StepId]
        requires { id < step_count self.now }
        ensures { result.now ≡ (step_at self.now.made id).premises }
    {
        self.step(id).inference.premises()
    }

    /// What a step's rule was given beside its premises.
    pub fn params(&self, id: StepId) -> &Parameters
        requires { id < step_count self.now }
        ensures is { parameters_view self.now.trees result.now ≡ (step_at self.now.made id).parameters }
        ensures known { AreParametersKnown self.now.trees result.now }
    {
        &self.step(id).parameters
    }

    /// The parameters of a step's sequent, each in order of first occurrence in the hypotheses in order, and then in the
    /// conclusion. They are read off what is noted of its terms, and found by a walk where that isn't kept.
    pub fn params_of(&self, id: StepId) -> Result<Params, Memory>
        requires { id < step_count self.now }
        ensures type_vars { IfOk result (λ params. params.type_vars ≡ type_variables_of (sequent_at self.now.made id)) }
        ensures free_vars { IfOk result (λ params. variables_of self.now.trees params.free_vars ≡ free_variables_of (sequent_at self.now.made id)) }
        ensures known { IfOk result (λ params. HaveTypes self.now.trees params.free_vars) }
        ensures one_each { IfOk result (λ params. type.IsDistinct self.now.trees.types) }
    {
        self.params.params(&self.terms, self.sequent(id))
    }

    // A step.
    fn step(&self, id: StepId) -> &Step
        requires { id < step_count self.now }
        ensures is { step_view self.now.trees result.now ≡ step_at self.now.made id }
        ensures known { IsStepKnown self.now.trees result.now }
    {
        &self.steps[id]
    }

    /// What was made is a proof: each step follows by its rule from steps before it.
    pub fn is_proof(&self)
        ensures { IsProof self.now.made }
    {
        let _made = &self.made;
    }

    /// What each step says derives from the proof's definitions and assumptions.
    pub fn derives(&self)
        ensures { AllByRecursion (Derives (definitions_of self.now.made) (assumptions_of self.now.made)) (sequents_of self.now.made) }
    {
        self.is_proof();
    }
}
