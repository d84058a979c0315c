//! How a rule ends: its sequent is judged by the limits, and its step is kept.
ghost use Rattle.std.specs.Prelude.{◌≡◌, ◌<◌, ◌≤◌, ◌++◌, ◌∷◌, [], Ok, length, vec_len, vec_capacity, IfOk, IfErr, OnOk, OnErr};
ghost use Rattle.article_spec.specs.Conditions.{sequent_in_limits};
ghost use Rattle.article_spec.specs.Results.{Fails};
ghost use Rattle.hol_spec.specs.Proofs.{IsStep};
ghost use Rattle.hol_spec.specs.Proofs as proof;
ghost use Rattle.sequent.specs.Sequents.{sequent_at, IsKnown};
ghost use Rattle.hol_rules.specs.declared.made.Made.TheVariants as one;
ghost use Rattle.hol_rules.specs.Conclusions.{Concludes};
ghost use Rattle.hol_rules.specs.Kept.{step_count};
ghost use Rattle.hol_rules.specs.Views.{step_view, new_step, AreParametersKnown, IsStepKnown};

use crate::inference::Inference;
use crate::limits::check_limits;
use crate::made::{Made, Parameters, Step, StepId};
use crate::proof::Proof;
use common::{Fault, Memory};
use hol_spec::StepKind;
use sequent::Sequent;

impl Proof {
    // The step by this rule, if its sequent is within the limits.
    pub(crate) fn conclude(
        &mut self,
        kind: StepKind,
        premises: &[StepId],
        parameters: Parameters,
        sequent: Sequent,
    ) -> Result<StepId, Fault>
        requires few { length premises.now ≤ 2 }
        requires parameters { AreParametersKnown self.old.trees parameters }
        requires sequent { IsKnown self.old.trees sequent }
        requires follows { IsStep self.old.made (new_step self.old.trees kind premises.now parameters sequent) }
        ensures { Concludes self.old (Ok (new_step self.old.trees kind premises.now parameters sequent)) self.new result }
    {
        self.judged(&sequent)?;
        let inference = Inference::new(kind, premises);
        let step = Step {
            inference,
            parameters,
            sequent,
        };
        let id = self.keep(step)?;
        Ok(id)
    }

    // Refuses a sequent that passes a limit.
    pub(crate) fn judged(&mut self, sequent: &Sequent) -> Result<(), Fault>
        requires { IsKnown self.old.trees sequent.now }
        ensures within { OnOk result (sequent_in_limits (sequent_at self.old.trees sequent.now) ≡ Ok tt) }
        ensures refused { IfErr result (λ fault. Fails fault (sequent_in_limits (sequent_at self.old.trees sequent.now))) }
        ensures unchanged { self.new ≡ self.old }
    {
        check_limits(&self.terms, &mut self.params, sequent)
    }

    // The step becomes the last.
    fn keep(&mut self, step: Step) -> Result<StepId, Memory>
        requires known { IsStepKnown self.old.trees step }
        requires follows { IsStep self.old.made (step_view self.old.trees step) }
        ensures number { IfOk result (λ id. id ≡ step_count self.old) }
        ensures kept { IfOk result (λ id. self.new ≡ record self.old { made = self.old.made ++ proof.Made.step (step_view self.old.trees step) ∷ [] }) }
        ensures unchanged { OnErr result (self.new ≡ self.old) }
    {
        keep_step(&mut self.steps, &mut self.made, step)
    }
}

// The step becomes the last, and is noted as made. The answer is its number.
fn keep_step(steps: &mut Vec<Step>, made: &mut Vec<Made>, step: Step) -> Result<StepId, Memory>
    ensures number { IfOk result (λ id. id ≡ length steps.old.items) }
    ensures kept { OnOk result (steps.new.items ≡ steps.old.items ++ step ∷ []) }
    ensures noted { OnOk result (made.new.items ≡ made.old.items ++ one.Step (length steps.old.items) ∷ []) }
    ensures unchanged { OnErr result (steps.new.items ≡ steps.old.items) }
    ensures unnoted { OnErr result (made.new.items ≡ made.old.items) }
{
    let id = noted_step(steps, made)?;
    steps.push_reserved(step);
    Ok(id)
}

// The next step is noted as made, where there is room for it. The answer is its number.
fn noted_step(steps: &mut Vec<Step>, made: &mut Vec<Made>) -> Result<StepId, Memory>
    ensures number { IfOk result (λ id. id ≡ length steps.old.items) }
    ensures room { OnOk result (vec_len steps.new < vec_capacity steps.new) }
    ensures noted { OnOk result (made.new.items ≡ made.old.items ++ one.Step (length steps.old.items) ∷ []) }
    ensures unnoted { OnErr result (made.new.items ≡ made.old.items) }
    ensures unchanged { steps.new.items ≡ steps.old.items }
{
    let id = steps.len();
    let count = made.len();
    made.reserve(1)?;
    made.push_reserved(Made::Step(id));
    match steps.reserve(1) {
        Ok(()) => Ok(id),
        Err(_) => {
            made.truncate(count);
            Err(Memory)
        }
    }
}
