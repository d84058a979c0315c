//! The rules that change hypotheses, and those that state a sequent.
ghost use Rattle.std.specs.Prelude.{◌≡◌, ◌<◌, IfOk};
ghost use Rattle.hol_spec.specs.Proofs.{sequent_at};
ghost use Rattle.hol_spec.specs.Rules.{joined, removed};
ghost use Rattle.hol_rules.specs.Conclusions.{Concludes};
ghost use Rattle.hol_rules.specs.Kept.{step_count};
ghost use Rattle.hol_rules.specs.Premises.{AreNumbersOf};
ghost use Rattle.article_spec.specs.RuleSteps.{deduct_antisym_step, prove_hyp_step};

use crate::made::{Parameters, StepId};
use crate::proof::Proof;
use common::{Fault, Memory};
use hol_spec::StepKind;
use sequent::{Hyps, Sequent};

impl Proof {
    /// Two truth values, each derived from the other, are equal.
    pub fn deduct_antisym(&mut self, one: StepId, two: StepId) -> Result<StepId, Fault>
        requires one { one < step_count self.old }
        requires two { two < step_count self.old }
        ensures { Concludes self.old (deduct_antisym_step self.old.made one two) self.new result }
    {
        let p = self.concl(one);
        let q = self.concl(two);
        let concl = self.equation(p, q)?;
        let hyps = self.apart(one, two)?;
        self.conclude(
            StepKind::DeductAntisym,
            &[one, two],
            Parameters::Nothing,
            Sequent { hyps, concl },
        )
    }

    // The hypotheses of two steps, those of each without the conclusion of the other.
    fn apart(&self, one: StepId, two: StepId) -> Result<Hyps, Memory>
        requires one { one < step_count self.now }
        requires two { two < step_count self.now }
        ensures { IfOk result (λ hyps. AreNumbersOf self.now.trees hyps (joined
            (removed (sequent_at self.now.made one).hypotheses (sequent_at self.now.made two).conclusion)
            (removed (sequent_at self.now.made two).hypotheses (sequent_at self.now.made one).conclusion))) }
    {
        let first = self.removed(one, two)?;
        let second = self.removed(two, one)?;
        let hyps = self.united(&first, &second)?;
        Ok(hyps)
    }

    /// A theorem without the hypothesis that another one proves: `two` has it, `one` proves it.
    pub fn prove_hyp(&mut self, one: StepId, two: StepId) -> Result<StepId, Fault>
        requires one { one < step_count self.old }
        requires two { two < step_count self.old }
        ensures { Concludes self.old (prove_hyp_step self.old.made one two) self.new result }
    {
        let hyps = self.discharged(one, two)?;
        let concl = self.concl(two);
        self.conclude(
            StepKind::ProveHyp,
            &[one, two],
            Parameters::Nothing,
            Sequent { hyps, concl },
        )
    }

    // The hypotheses of a step, and those of another without the conclusion of the first: in the other's list where these are the same.
    fn discharged(&self, one: StepId, two: StepId) -> Result<Hyps, Memory>
        requires one { one < step_count self.now }
        requires two { two < step_count self.now }
        ensures { IfOk result (λ hyps. AreNumbersOf self.now.trees hyps (joined (sequent_at self.now.made one).hypotheses
            (removed (sequent_at self.now.made two).hypotheses (sequent_at self.now.made one).conclusion))) }
    {
        let rest = self.removed(two, one)?;
        let hyps = self.united(&self.sequent(one).hyps, &rest)?;
        let kept = kept_in(hyps, &self.sequent(two).hyps)?;
        Ok(kept)
    }
}

// Hypotheses, in another list where that has the same ones in the same order.
fn kept_in(hyps: Hyps, list: &Hyps) -> Result<Hyps, Memory>
    ensures { IfOk result (λ kept. kept ≡ hyps) }
{
    if hyps.ids() == list.ids() {
        let copy = list.clone()?;
        return Ok(copy);
    }
    Ok(hyps)
}
