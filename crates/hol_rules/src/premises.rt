//! What rules read of their premises, and the terms that they make.
ghost use Rattle.std.specs.Prelude.{◌≡◌, ◌<◌, [], length, IfOk, IfErr};
ghost use Rattle.article_spec.specs.Conditions.{equation_of, is_of_type};
ghost use Rattle.article_spec.specs.Results.{Fails};
ghost use Rattle.hol_spec.specs.Lists.{distinct};
ghost use Rattle.hol_spec.specs.Primitives.{bool as bool_type};
ghost use Rattle.hol_spec.specs.Proofs.{sequent_at};
ghost use Rattle.hol_spec.specs.Rules.{joined as union_of, removed as all_but};
ghost use Rattle.hol_spec.specs.Terms.{HasType, term_eq, equation as equation_tree};
ghost use Rattle.hol_spec.specs.Types.{HolType};
ghost use Rattle.hol_term.specs.Tables.{term_at, terms_at, type_at, AreKnown, IsDistinct, IsTermAt};
ghost use Rattle.hol_rules.specs.Kept.{step_count, Grows};
ghost use Rattle.hol_rules.specs.Premises.{AreNumbersOf, AreSides, IsNumberOf};

use crate::made::StepId;
use crate::proof::Proof;
use common::{Fault, Kind, Memory};
use hol_term::TermId;
use sequent::{Hyps, Sequent};

/// The two sides of an equation.
#[derive(Clone, Copy)]
pub(crate) struct Sides {
    pub(crate) left: TermId,
    pub(crate) right: TermId,
}

impl Proof {
    // The conclusion of a step.
    pub(crate) fn concl(&self, id: StepId) -> TermId
        requires { id < step_count self.now }
        ensures is { IsNumberOf self.now.trees result (sequent_at self.now.made id).conclusion }
        ensures typed { HasType (sequent_at self.now.made id).conclusion bool_type }
        ensures distinct { IsDistinct self.now.trees.terms }
    {
        self.is_proof();
        let _distinct = &self.terms;
        self.sequent(id).concl
    }

    // The two sides of a step's conclusion, if it is an equation.
    pub(crate) fn sides(&self, id: StepId) -> Result<Sides, Fault>
        requires { id < step_count self.now }
        ensures sides { IfOk result (λ sides. AreSides self.now id sides) }
        ensures refused { IfErr result (λ fault. Fails fault (equation_of (sequent_at self.now.made id))) }
        ensures distinct { IsDistinct self.now.trees.terms }
    {
        match self.terms().dest_eq(self.concl(id)) {
            Some((left, right)) => Ok(Sides { left, right }),
            None => Err(Fault::Refused(Kind::NotEquation)),
        }
    }

    // The hypotheses of a step.
    pub(crate) fn hyps(&self, id: StepId) -> Result<Hyps, Memory>
        requires { id < step_count self.now }
        ensures { IfOk result (λ hyps. AreNumbersOf self.now.trees hyps (sequent_at self.now.made id).hypotheses) }
    {
        let copy = self.sequent(id).hyps.clone()?;
        Ok(copy)
    }

    // The hypotheses of two steps.
    pub(crate) fn joined(&self, one: StepId, two: StepId) -> Result<Hyps, Memory>
        requires one { one < step_count self.now }
        requires two { two < step_count self.now }
        ensures { IfOk result (λ hyps. AreNumbersOf self.now.trees hyps
            (union_of (sequent_at self.now.made one).hypotheses (sequent_at self.now.made two).hypotheses)) }
    {
        Sequent::union(self.alloc, &self.sequent(one).hyps, &self.sequent(two).hyps)
    }

    // The hypotheses of a step without the conclusion of another.
    pub(crate) fn removed(&self, id: StepId, other: StepId) -> Result<Hyps, Memory>
        requires id { id < step_count self.now }
        requires other { other < step_count self.now }
        ensures { IfOk result (λ hyps. AreNumbersOf self.now.trees hyps
            (all_but (sequent_at self.now.made id).hypotheses (sequent_at self.now.made other).conclusion)) }
    {
        Sequent::without(self.alloc, &self.sequent(id).hyps, self.concl(other))
    }

    // The union of hypotheses.
    pub(crate) fn united(&self, a: &Hyps, b: &Hyps) -> Result<Hyps, Memory>
        requires first { AreKnown self.now.trees a.now }
        requires second { AreKnown self.now.trees b.now }
        ensures { IfOk result (λ hyps. AreNumbersOf self.now.trees hyps (union_of (terms_at self.now.trees a.now) (terms_at self.now.trees b.now))) }
    {
        Sequent::union(self.alloc, a, b)
    }

    // These hypotheses, each where it occurs first.
    pub(crate) fn hyps_of(&self, ids: &[TermId]) -> Result<Hyps, Memory>
        requires { AreKnown self.now.trees ids.now }
        ensures { IfOk result (λ hyps. AreNumbersOf self.now.trees hyps (distinct term_eq (terms_at self.now.trees ids.now))) }
    {
        if ids.is_empty() {
            return Ok(Hyps::new(self.alloc));
        }
        Hyps::of(self.alloc, ids)
    }

    // Whether a term is a truth value.
    pub(crate) fn is_truth_value(&self, id: TermId) -> bool
        requires { IsTermAt self.now.trees id.0 }
        ensures known { id.0 < length self.now.trees.terms }
        ensures is { result ≡ is_of_type bool_type (term_at self.now.trees id.0) }
    {
        let terms = self.terms();
        terms.types().is_bool(terms.type_of(id))
    }

    // The equation of two terms, at the type of the first.
    pub(crate) fn equation(&mut self, left: TermId, right: TermId) -> Result<TermId, Memory>
        requires left { IsTermAt self.old.trees left.0 }
        requires right { right.0 < length self.old.trees.terms }
        ensures made { IfOk result (λ id. (a : HolType) → HasType (term_at self.old.trees left.0) a →
            IsNumberOf self.new.trees id (equation_tree a (term_at self.old.trees left.0) (term_at self.old.trees right.0))) }
        ensures grows { Grows self.old self.new }
    {
        let ty = self.terms.type_of(left);
        self.terms.raw_equation(ty, left, right)
    }
}
