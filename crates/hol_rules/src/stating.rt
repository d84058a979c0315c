//! The rules that state a sequent.
ghost use Rattle.std.specs.Prelude.{◌≡◌, ◌<◌, ◌∷◌, Ok, IfOk, IfErr, OnOk, length, true};
ghost use Rattle.std.specs.List.{AllByRecursion, list_all};
ghost use Rattle.article_spec.specs.Conditions.{all_bool, follows, is_of_type};
ghost use Rattle.article_spec.specs.Results.{Fails};
ghost use Rattle.article_spec.specs.RuleSteps as stating;
ghost use Rattle.hol_spec.specs.Primitives.{bool as bool_type};
ghost use Rattle.hol_spec.specs.Proofs.{sequent_at as sequent_of};
ghost use Rattle.hol_spec.specs.Sequents.{within};
ghost use Rattle.hol_term.specs.declared.TermId.{TermId as AnId};
ghost use Rattle.hol_term.specs.Tables.{term_at, terms_at, AreKnown, IsDistinct, IsTermAt};
ghost use Rattle.sequent.specs.Sequents.{sequent_at, IsKnown};
ghost use Rattle.hol_rules.specs.Conclusions.{Concludes};
ghost use Rattle.hol_rules.specs.Kept.{step_count};
ghost use Rattle.hol_rules.specs.Premises.{AreTermsAt, IsStated};
ghost use Rattle.article_spec.specs.RuleSteps.{axiom_step, restate_step};

use crate::made::{Parameters, StepId};
use crate::proof::Proof;
use common::{Fault, Kind, Memory};
use hol_spec::StepKind;
use hol_term::TermId;
use sequent::{Hyps, Sequent};

impl Proof {
    /// What an article assumes: these hypotheses, repeats dropped, and a conclusion.
    pub fn axiom(&mut self, hyps: &[TermId], concl: TermId) -> Result<StepId, Fault>
        requires hyps { AreTermsAt self.old.trees hyps.now }
        requires concl { IsTermAt self.old.trees concl.0 }
        ensures { Concludes self.old (axiom_step (terms_at self.old.trees hyps.now) (term_at self.old.trees concl.0)) self.new result }
    {
        self.judge_truth(hyps, concl)?;
        let sequent = self.stated(hyps, concl)?;
        let given = again(&sequent)?;
        self.conclude(StepKind::Axiom, &[], Parameters::Sequent(given), sequent)
    }

    /// A theorem's sequent again, with its hypotheses in another order or with further ones, repeats dropped.
    pub fn restate(&mut self, one: StepId, hyps: &[TermId], concl: TermId) -> Result<StepId, Fault>
        requires one { one < step_count self.old }
        requires hyps { AreTermsAt self.old.trees hyps.now }
        requires concl { IsTermAt self.old.trees concl.0 }
        ensures { Concludes self.old (restate_step self.old.made one (terms_at self.old.trees hyps.now) (term_at self.old.trees concl.0)) self.new result }
    {
        self.judge_truth(hyps, concl)?;
        let sequent = self.restated(one, hyps, concl)?;
        let given = again(&sequent)?;
        self.conclude(
            StepKind::Restate,
            &[one],
            Parameters::Sequent(given),
            sequent,
        )
    }

    // The sequent of these hypotheses, repeats dropped, and this conclusion, if it says no more than a step.
    fn restated(&self, one: StepId, hyps: &[TermId], concl: TermId) -> Result<Sequent, Fault>
        requires one { one < step_count self.now }
        requires hyps { AreTermsAt self.now.trees hyps.now }
        requires concl { IsTermAt self.now.trees concl.0 }
        ensures stated { IfOk result (λ sequent. IsStated self.now.trees sequent
            (stating.stated (terms_at self.now.trees hyps.now) (term_at self.now.trees concl.0))) }
        ensures within { OnOk result (within (sequent_of self.now.made one)
            (stating.stated (terms_at self.now.trees hyps.now) (term_at self.now.trees concl.0)) ≡ true) }
        ensures refused { IfErr result (λ fault. Fails fault (follows (sequent_of self.now.made one)
            (stating.stated (terms_at self.now.trees hyps.now) (term_at self.now.trees concl.0)))) }
    {
        let sequent = self.stated(hyps, concl)?;
        if !Sequent::within(self.sequent(one), &sequent) {
            return Err(Fault::Refused(Kind::NotTheSequent));
        }
        Ok(sequent)
    }

    // Refuses what is no truth value.
    fn judge_truth(&self, hyps: &[TermId], concl: TermId) -> Result<(), Fault>
        requires hyps { AreTermsAt self.now.trees hyps.now }
        requires concl { IsTermAt self.now.trees concl.0 }
        ensures truths { OnOk result (list_all (is_of_type bool_type) (term_at self.now.trees concl.0 ∷ terms_at self.now.trees hyps.now) ≡ true) }
        ensures refused { IfErr result (λ fault. Fails fault (all_bool (term_at self.now.trees concl.0 ∷ terms_at self.now.trees hyps.now))) }
    {
        if !self.is_truth_value(concl) {
            return Err(Fault::Refused(Kind::NotBool));
        }
        for id in hyps {
            if !self.is_truth_value(*id) {
                return Err(Fault::Refused(Kind::NotBool));
            }
        }
        Ok(())
    }

    // The sequent of these hypotheses, repeats dropped, and this conclusion.
    fn stated(&self, hyps: &[TermId], concl: TermId) -> Result<Sequent, Memory>
        requires hyps { AreTermsAt self.now.trees hyps.now }
        requires concl { IsTermAt self.now.trees concl.0 }
        ensures stated { IfOk result (λ sequent. IsStated self.now.trees sequent
            (stating.stated (terms_at self.now.trees hyps.now) (term_at self.now.trees concl.0))) }
        ensures distinct { IsDistinct self.now.trees.terms }
    {
        let _distinct = &self.terms;
        let hyps = self.hyps_of(hyps)?;
        Ok(Sequent { hyps, concl })
    }
}

// The same sequent, which shares its hypotheses.
fn again(sequent: &Sequent) -> Result<Sequent, Memory>
    ensures { IfOk result (λ same. same ≡ sequent.now) }
{
    let hyps = sequent.hyps.clone()?;
    Ok(Sequent {
        hyps,
        concl: sequent.concl,
    })
}
