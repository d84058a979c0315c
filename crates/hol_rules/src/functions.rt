//! The rules of functions: abstraction, application and beta steps.
ghost use Rattle.std.specs.Prelude.{◌≡◌, ◌<◌, is_some, length, IfOk};
ghost use Rattle.hol_spec.specs.Proofs.{sequent_at};
ghost use Rattle.hol_spec.specs.Rules.{abstraction as abstraction_tree, is_free_in};
ghost use Rattle.hol_spec.specs.TermBinding.{put as put_term};
ghost use Rattle.hol_spec.specs.Terms.{type_of, app as app_tree};
ghost use Rattle.hol_variables.specs.Noted.{AreNoted};
ghost use Rattle.hol_term.specs.Tables.{term_at, terms_at, AreKnown, IsTermAt};
ghost use Rattle.hol_rules.specs.Conclusions.{Concludes};
ghost use Rattle.hol_rules.specs.Kept.{step_count, Grows};
ghost use Rattle.hol_rules.specs.Premises.{IsNumberOf};
ghost use Rattle.article_spec.specs.RuleSteps.{abs_thm_step, app_thm_step, beta_conv_step};
ghost use Rattle.hol_rules.specs.Views.{variable_view};

use crate::made::{Parameters, StepId};
use crate::proof::Proof;
use common::{Fault, Kind, Memory};
use hol_spec::StepKind;
use hol_term::{TermId, TermTable, Variable};
use hol_variables::ParamMemo;
use sequent::Sequent;

impl Proof {
    /// Both sides of an equation under an abstraction.
    pub fn abs_thm(&mut self, var: &Variable, one: StepId) -> Result<StepId, Fault>
        requires variable { var.now.ty.0 < length self.old.trees.types }
        requires one { one < step_count self.old }
        ensures { Concludes self.old (abs_thm_step self.old.made (variable_view self.old.trees var.now) one) self.new result }
    {
        let free = self.is_free_in_hyps(var, one)?;
        self.abs_thm_where(free, var, one)
    }

    // Both sides of an equation under an abstraction, where it is known whether the variable is free in its hypotheses.
    fn abs_thm_where(&mut self, free: bool, var: &Variable, one: StepId) -> Result<StepId, Fault>
        requires free { free ≡ is_free_in (variable_view self.old.trees var.now) (sequent_at self.old.made one).hypotheses }
        requires variable { var.now.ty.0 < length self.old.trees.types }
        requires one { one < step_count self.old }
        ensures { Concludes self.old (abs_thm_step self.old.made (variable_view self.old.trees var.now) one) self.new result }
    {
        self.is_proof();
        let sides = self.sides(one)?;
        if free {
            return Err(Fault::Refused(Kind::VarInHyps));
        }
        let left = self.abstraction(var, sides.left)?;
        let right = self.abstraction(var, sides.right)?;
        let concl = self.equation(left, right)?;
        let hyps = self.hyps(one)?;
        let name = var.name.clone()?;
        let given = Variable { name, ty: var.ty };
        self.conclude(
            StepKind::AbsThm,
            &[one],
            Parameters::Variable(given),
            Sequent { hyps, concl },
        )
    }

    /// Equal functions applied to equal arguments.
    pub fn app_thm(&mut self, one: StepId, two: StepId) -> Result<StepId, Fault>
        requires one { one < step_count self.old }
        requires two { two < step_count self.old }
        ensures { Concludes self.old (app_thm_step self.old.made one two) self.new result }
    {
        self.is_proof();
        let functions = self.sides(one)?;
        let arguments = self.sides(two)?;
        let left = self.application(functions.left, arguments.left)?;
        if !self.is_typed(left) {
            return Err(Fault::Refused(Kind::TypeMismatch));
        }
        let right = self.application(functions.right, arguments.right)?;
        let concl = self.equation(left, right)?;
        let hyps = self.joined(one, two)?;
        self.conclude(
            StepKind::AppThm,
            &[one, two],
            Parameters::Nothing,
            Sequent { hyps, concl },
        )
    }

    // The application of a tree to another.
    fn application(&mut self, f: TermId, x: TermId) -> Result<TermId, Memory>
        requires function { f.0 < length self.old.trees.terms }
        requires argument { x.0 < length self.old.trees.terms }
        ensures made { IfOk result (λ id. IsNumberOf self.new.trees id (app_tree (term_at self.old.trees f.0) (term_at self.old.trees x.0))) }
        ensures grows { Grows self.old self.new }
    {
        self.terms.raw_application(f, x)
    }

    // The abstraction of a tree over a free variable.
    fn abstraction(&mut self, var: &Variable, id: TermId) -> Result<TermId, Memory>
        requires variable { var.now.ty.0 < length self.old.trees.types }
        requires body { id.0 < length self.old.trees.terms }
        ensures made { IfOk result (λ r. IsNumberOf self.new.trees r (abstraction_tree (variable_view self.old.trees var.now) (term_at self.old.trees id.0))) }
        ensures grows { Grows self.old self.new }
    {
        self.terms.raw_abstraction(var, id)
    }

    // Whether a tree has a type.
    fn is_typed(&self, id: TermId) -> bool
        requires { id.0 < length self.now.trees.terms }
        ensures { result ≡ is_some (type_of (term_at self.now.trees id.0)) }
    {
        self.terms().ty(id).is_some()
    }

    // Whether a variable is free in a step's hypotheses.
    fn is_free_in_hyps(&mut self, var: &Variable, one: StepId) -> Result<bool, Memory>
        requires variable { var.now.ty.0 < length self.old.trees.types }
        requires one { one < step_count self.old }
        ensures free { IfOk result (λ free. free ≡ is_free_in (variable_view self.old.trees var.now) (sequent_at self.old.made one).hypotheses) }
        ensures unchanged { self.new ≡ self.old }
    {
        let sequent = &self.steps[one].sequent;
        is_free_in_any(&self.terms, &mut self.params, var, sequent.hyps.ids())
    }
}

// A variable, copied.
pub(crate) fn own_variable(var: &Variable) -> Result<Variable, Memory>
    ensures { IfOk result (λ own. own ≡ var.now) }
{
    let name = var.name.clone()?;
    Ok(Variable { name, ty: var.ty })
}

// Whether a variable is free in some of the terms.
fn is_free_in_any(
    terms: &TermTable,
    params: &mut ParamMemo,
    var: &Variable,
    ids: &[TermId],
) -> Result<bool, Memory>
    requires variable { var.now.ty.0 < length terms.now.types }
    requires ids { AreKnown terms.now ids.now }
    requires noted { AreNoted terms.now params.old }
    ensures free { IfOk result (λ free. free ≡ is_free_in (variable_view terms.now var.now) (terms_at terms.now ids.now)) }
    ensures noted { AreNoted terms.now params.new }
{
    for id in ids {
        if params.has_free(terms, var, *id)? {
            return Ok(true);
        }
    }
    Ok(false)
}
