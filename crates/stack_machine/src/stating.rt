//! The sequents that articles state: assumptions, which what was known may meet, and exports.
ghost use Rattle.std.specs.Prelude.{◌≡◌, ◌<◌, ◌++◌, ◌∷◌, [], length, take, Ok, IfOk, IfErr, IfSome, OnOk, OnErr};
ghost use Rattle.std.specs.List.{find};
ghost use Rattle.std.specs.Option.{option_or};
ghost use Rattle.article_spec.specs.Changes.{by_step};
ghost use Rattle.article_spec.specs.Conditions.{follows};
ghost use Rattle.article_spec.specs.Results.{Fails};
ghost use Rattle.article_spec.specs.RuleSteps.{stated as stated_tree, axiom_step, restate_step};
ghost use Rattle.hol_spec.specs.Proofs.{sequent_at};
ghost use Rattle.hol_spec.specs.Sequents.{same as is_same};
ghost use Rattle.hol_term.specs.Tables.{term_at, terms_at, IsTermAt};
ghost use Rattle.sequent.specs.Sequents as numbers;
ghost use Rattle.compose.specs.Pools.{said, steps_in};
ghost use Rattle.hol_rules.specs.Conclusions.{Concludes};
ghost use Rattle.hol_rules.specs.Kept.{step_count};
ghost use Rattle.hol_rules.specs.Premises.{AreTermsAt, IsStated};
ghost use Rattle.stack_machine.specs.Inferring.{Exports, Infers, assuming, exporting, recording, restating, first_saying};
ghost use Rattle.stack_machine.specs.Stored.{AreSaid, IsStep, IsTerm};

use crate::store::Store;
use common::{Fault, Kind, Memory};
use compose::Pool;
use hol_rules::{Proof, StepId};
use hol_term::TermId;
use sequent::{Hyps, Sequent};
use std::alloc::Global;

// The sequent of these hypotheses, repeats dropped, and this conclusion.
fn stated(alloc: Global, proof: &Proof, hyps: &[TermId], concl: TermId) -> Result<Sequent, Memory>
    requires hyps { AreTermsAt proof.now.trees hyps.now }
    requires concl { concl.0 < length proof.now.trees.terms }
    ensures { IfOk result (λ sequent. IsStated proof.now.trees sequent (stated_tree (terms_at proof.now.trees hyps.now) (term_at proof.now.trees concl.0))) }
{
    let _head = proof.terms().view(concl);
    let hyps = Hyps::of(alloc, hyps)?;
    Ok(Sequent { hyps, concl })
}

// Refuses a sequent that says other than a step, or more.
fn judge(proof: &Proof, id: StepId, sequent: &Sequent) -> Result<(), Fault>
    requires step { id < step_count proof.now }
    requires sequent { numbers.IsKnown proof.now.trees sequent.now }
    ensures follows { OnOk result (follows (sequent_at proof.now.made id) (numbers.sequent_at proof.now.trees sequent.now) ≡ Ok tt) }
    ensures refused { IfErr result (λ fault. Fails fault (follows (sequent_at proof.now.made id) (numbers.sequent_at proof.now.trees sequent.now))) }
{
    let _head = proof.terms().view(sequent.concl);
    if Sequent::within(proof.sequent(id), sequent) {
        Ok(())
    } else {
        Err(Fault::Refused(Kind::NotTheSequent))
    }
}

// The first of a pool's steps that says a sequent.
fn first_of(proof: &Proof, pool: &Pool, sequent: &Sequent) -> Option<StepId>
    requires pool { AreSaid proof.now pool.now }
    requires sequent { numbers.IsKnown proof.now.trees sequent.now }
    ensures { result ≡ find (λ i. is_same (sequent_at proof.now.made i) (numbers.sequent_at proof.now.trees sequent.now)) (steps_in pool.now) }
{
    let _head = proof.terms().view(sequent.concl);
    pool.find(sequent)
}

// The first of a pool's steps that says a sequent, among so many that were added first.
fn first_among(proof: &Proof, pool: &Pool, count: usize, sequent: &Sequent) -> Option<StepId>
    requires pool { AreSaid proof.now pool.now }
    requires sequent { numbers.IsKnown proof.now.trees sequent.now }
    ensures { result ≡ find (λ i. is_same (sequent_at proof.now.made i) (numbers.sequent_at proof.now.trees sequent.now)) (take count (steps_in pool.now)) }
{
    let _head = proof.terms().view(sequent.concl);
    pool.find_among(count, sequent)
}

// Makes an assumption, and notes its sequent with its step.
fn assume_into(
    noted: &mut Pool,
    proof: &mut Proof,
    sequent: Sequent,
    hyps: &[TermId],
    concl: TermId,
) -> Result<StepId, Fault>
    requires hyps { AreTermsAt proof.old.trees hyps.now }
    requires concl { IsTermAt proof.old.trees concl.0 }
    ensures concludes { Concludes proof.old (axiom_step (terms_at proof.old.trees hyps.now) (term_at proof.old.trees concl.0)) proof.new result }
    ensures noted { OnOk result (noted.new ≡ noted.old ++ said sequent (step_count proof.old) ∷ []) }
    ensures unchanged { OnErr result (noted.new ≡ noted.old) }
{
    noted.add(sequent, proof.len())?;
    match proof.axiom(hyps, concl) {
        Ok(id) => Ok(id),
        Err(fault) => {
            noted.forget_last();
            Err(fault)
        }
    }
}

// Restates a theorem, and notes its sequent with the step.
fn restate_into(
    noted: &mut Pool,
    proof: &mut Proof,
    sequent: Sequent,
    one: StepId,
    hyps: &[TermId],
    concl: TermId,
) -> Result<StepId, Fault>
    requires one { one < step_count proof.old }
    requires hyps { AreTermsAt proof.old.trees hyps.now }
    requires concl { IsTermAt proof.old.trees concl.0 }
    ensures concludes { Concludes proof.old (restate_step proof.old.made one (terms_at proof.old.trees hyps.now)
        (term_at proof.old.trees concl.0)) proof.new result }
    ensures noted { OnOk result (noted.new ≡ noted.old ++ said sequent (step_count proof.old) ∷ []) }
    ensures unchanged { OnErr result (noted.new ≡ noted.old) }
{
    noted.add(sequent, proof.len())?;
    match proof.restate(one, hyps, concl) {
        Ok(id) => Ok(id),
        Err(fault) => {
            noted.forget_last();
            Err(fault)
        }
    }
}

impl Store {
    // What an export of an earlier article says, or else an assumption, is restated; what none of these says is the
    // next assumption.
    pub(crate) fn assume_or_meet(
        &mut self,
        alloc: Global,
        hyps: &[TermId],
        concl: TermId,
    ) -> Result<StepId, Fault>
        requires hyps { AreTermsAt self.old.trees hyps.now }
        requires concl { IsTerm self.old concl.0 }
        ensures { Infers self.old (assuming (terms_at self.old.trees hyps.now) (term_at self.old.trees concl.0)) self.new result }
    {
        let sequent = stated(alloc, &self.proof, hyps, concl)?;
        match self.known(&sequent) {
            Some(id) => self.restate(id, hyps, concl),
            None => self.assume_next(sequent, hyps, concl),
        }
    }

    // A step's sequent again, with its hypotheses in another order or with further ones.
    fn restate(&mut self, one: StepId, hyps: &[TermId], concl: TermId) -> Result<StepId, Fault>
        requires one { IsStep self.old one }
        requires hyps { AreTermsAt self.old.trees hyps.now }
        requires concl { IsTerm self.old concl.0 }
        ensures { Infers self.old (by_step (restate_step self.old.run.made one (terms_at self.old.trees hyps.now) (term_at self.old.trees concl.0))) self.new result }
    {
        self.proof.restate(one, hyps, concl)
    }

    // The step that meets what an article assumes.
    fn known(&self, sequent: &Sequent) -> Option<StepId>
        requires { numbers.IsKnown self.now.trees sequent.now }
        ensures first { result ≡ option_or (first_saying self.now (numbers.sequent_at self.now.trees sequent.now) self.now.run.pool)
            (first_saying self.now (numbers.sequent_at self.now.trees sequent.now) self.now.run.assumptions) }
        ensures step { IfSome result (λ id. IsStep self.now id) }
    {
        match self.exported(sequent) {
            Some(id) => Some(id),
            None => self.assumed(sequent),
        }
    }

    // The first export of an earlier article that says a sequent.
    fn exported(&self, sequent: &Sequent) -> Option<StepId>
        requires { numbers.IsKnown self.now.trees sequent.now }
        ensures first { result ≡ first_saying self.now (numbers.sequent_at self.now.trees sequent.now) self.now.run.pool }
        ensures step { IfSome result (λ id. IsStep self.now id) }
    {
        first_among(&self.proof, &self.exports, self.pool, sequent)
    }

    // The first assumption that says a sequent.
    fn assumed(&self, sequent: &Sequent) -> Option<StepId>
        requires { numbers.IsKnown self.now.trees sequent.now }
        ensures first { result ≡ first_saying self.now (numbers.sequent_at self.now.trees sequent.now) self.now.run.assumptions }
        ensures step { IfSome result (λ id. IsStep self.now id) }
    {
        first_of(&self.proof, &self.assumptions, sequent)
    }

    // The sequent becomes the next assumption.
    fn assume_next(
        &mut self,
        sequent: Sequent,
        hyps: &[TermId],
        concl: TermId,
    ) -> Result<StepId, Fault>
        requires stated { IsStated self.old.trees sequent (stated_tree (terms_at self.old.trees hyps.now) (term_at self.old.trees concl.0)) }
        requires hyps { AreTermsAt self.old.trees hyps.now }
        requires concl { IsTerm self.old concl.0 }
        ensures { Infers self.old (recording (terms_at self.old.trees hyps.now) (term_at self.old.trees concl.0)) self.new result }
    {
        assume_into(&mut self.assumptions, &mut self.proof, sequent, hyps, concl)
    }

    // Restates a theorem as the next export, unless an export says the sequent already.
    pub(crate) fn export(
        &mut self,
        alloc: Global,
        one: StepId,
        hyps: &[TermId],
        concl: TermId,
    ) -> Result<(), Fault>
        requires one { IsStep self.old one }
        requires hyps { AreTermsAt self.old.trees hyps.now }
        requires concl { IsTerm self.old concl.0 }
        ensures { Exports self.old (exporting one (terms_at self.old.trees hyps.now) (term_at self.old.trees concl.0)) self.new result }
    {
        self.proof.is_proof();
        let sequent = stated(alloc, &self.proof, hyps, concl)?;
        match first_of(&self.proof, &self.exports, &sequent) {
            Some(_known) => judge(&self.proof, one, &sequent),
            None => self.export_next(sequent, one, hyps, concl),
        }
    }

    // The sequent becomes the next export.
    fn export_next(
        &mut self,
        sequent: Sequent,
        one: StepId,
        hyps: &[TermId],
        concl: TermId,
    ) -> Result<(), Fault>
        requires stated { IsStated self.old.trees sequent (stated_tree (terms_at self.old.trees hyps.now) (term_at self.old.trees concl.0)) }
        requires one { IsStep self.old one }
        requires hyps { AreTermsAt self.old.trees hyps.now }
        requires concl { IsTerm self.old concl.0 }
        ensures { Exports self.old (restating one (terms_at self.old.trees hyps.now) (term_at self.old.trees concl.0)) self.new result }
    {
        let _step = restate_into(
            &mut self.exports,
            &mut self.proof,
            sequent,
            one,
            hyps,
            concl,
        )?;
        Ok(())
    }
}
