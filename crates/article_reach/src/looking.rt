//! The pass over the steps, from the last to the first.
ghost use Rattle.std.specs.Prelude.{◌≡◌, ◌<◌, ℕ, [], false, length, IfOk, OnOk, if◌then◌else◌};
ghost use Rattle.std.specs.List.{list_any};
ghost use Rattle.hol_rules.specs.Kept.{step_count};
ghost use Rattle.hol_rules.specs.Views.{step_at};
ghost use Rattle.article_write_spec.specs.ReachedSteps.{serves};
ghost use Rattle.article_lines.specs.Flagged.{flag};
ghost use Rattle.article_reach.specs.declared.walk.Walk.{Walk as AWalk};
ghost use Rattle.article_reach.specs.Found.{need, step_found};
ghost use Rattle.article_reach.specs.Least.{IsLeast};
ghost use Rattle.article_reach.specs.Looked.{AreSteps, IsLooked, IsWalkOf, WalksOn};
ghost use Rattle.article_reach.specs.Walks.{is_marked};

use crate::least::least_free;
use crate::walk::Walk;
use common::Memory;
use hol_rules::{Proof, StepId};
use std::alloc::Global;

// Sets the flags of the steps that the exports reach, and tells the number in the names of the binders.
pub(crate) fn looked(
    alloc: Global,
    proof: &Proof,
    exports: &[StepId],
    told: &mut Vec<bool>,
) -> Result<u64, Memory>
    requires exports { AreSteps proof.now exports.now }
    requires count { length told.old.items ≡ step_count proof.now }
    requires unset { (i : ℕ) → flag told.old.items i ≡ false }
    ensures { IfOk result (λ number. (w : AWalk) × IsLooked proof.now exports.now w told.new.items 0 × IsLeast w.numbers.items number) }
{
    let mut walk = Walk::new(alloc, proof)?;
    walk.want_steps(proof, exports);
    walk.look_all(proof, exports, told)?;
    least_free(alloc, &walk.numbers)
}

impl Walk {
    // Looks at all steps.
    fn look_all(
        &mut self,
        proof: &Proof,
        exports: &[StepId],
        told: &mut Vec<bool>,
    ) -> Result<(), Memory>
        requires { IsLooked proof.now exports.now self.old told.old.items (step_count proof.now) }
        ensures { OnOk result (IsLooked proof.now exports.now self.new told.new.items 0) }
    {
        let mut step = proof.len();
        while step > 0 {
            step -= 1;
            told[step] = self.look(proof, step)?;
        }
        Ok(())
    }

    // Whether a step is reached. If it is, what it needs is marked.
    fn look(&mut self, proof: &Proof, step: StepId) -> Result<bool, Memory>
        requires walk { IsWalkOf proof.now self.old }
        requires tasks { self.old.tasks ≡ [] }
        requires step { step < step_count proof.now }
        ensures is { IfOk result (λ is. is ≡ list_any (λ n. is_marked self.old (need n)) (serves (record { number = step; step = step_at proof.now.made step }))) }
        ensures tasks { OnOk result (self.new.tasks ≡ []) }
        ensures walks { IfOk result (λ is. WalksOn proof.now (if is then step_found (step_at proof.now.made step) else []) self.old self.new) }
    {
        let is_told = self.is_wanted(proof, step);
        if is_told {
            self.visit(proof, step)?;
        }
        Ok(is_told)
    }

    // Marks all that a step needs.
    fn visit(&mut self, proof: &Proof, step: StepId) -> Result<(), Memory>
        requires walk { IsWalkOf proof.now self.old }
        requires step { step < step_count proof.now }
        ensures tasks { OnOk result (self.new.tasks ≡ []) }
        ensures walks { OnOk result (WalksOn proof.now (step_found (step_at proof.now.made step)) self.old self.new) }
    {
        self.want_step(proof, step)?;
        self.run(proof.terms())
    }
}
