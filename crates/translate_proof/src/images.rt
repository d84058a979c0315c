//! A premise under a substitution: the images stand for its type variables and its free variables, and what proves the images for its
//! hypotheses.
ghost use Rattle.std.specs.Prelude.{◌≡◌, ◌<◌, ◌∷◌, [], length, IfOk};
ghost use Rattle.std.specs.List.{AllByRecursion};
ghost use Rattle.hol_spec.specs.Lists.{IsIn};
ghost use Rattle.hol_term.specs.Substitutions.{AreKnownPairs};
ghost use Rattle.hol_term.specs.Subterms.{HaveTypes, variables_of};
ghost use Rattle.hol_term.specs.Tables.{term_at, terms_at, AreKnown};
ghost use Rattle.hol_rules.specs.Kept.{step_count};
ghost use Rattle.hol_rules.specs.Views.{variable_view};
ghost use Rattle.translate_term.specs.Walks.{Grows};
ghost use Rattle.translate_proof.specs.Grounds.{MakesOn, TellsOne, TellsWhere};
ghost use Rattle.translate_proof.specs.ImageRows.{subst_row, AddsHypothesisImages, AddsTermImage, AddsTermImages, AddsTypeImage, AddsTypeImages, HaveOwnHypotheses, TellsTermImage, TellsTermImages, TellsTypeImage, TellsTypeImages};
ghost use Rattle.translate_proof.specs.Images.{made_term, retyped, HasOwnVariable, IsSubstituted};
ghost use Rattle.translate_proof.specs.Keeping.{AreKept};
ghost use Rattle.translate_proof.specs.Parameters.{AreParams};

use crate::ground::Ground;
use crate::matching::{becomes, makes_term, put_term, put_type};
use crate::premise::Premise;
use common::Memory;
use hol_name::Name;
use hol_rules::{StepId, Substitution};
use hol_term::{TermId, TermTable, Variable};
use holide_sig::{Module, call};
use lp_term::LpId;
use sequent::Params;
use std::alloc::Global;

/// A theorem that a substitution makes another step of, with the parameters of both.
#[derive(Clone, Copy)]
struct Becoming<'a> {
    id: StepId,
    own: &'a Params,
    put: &'a Substitution,
    one: Premise,
    params: &'a Params,
}

/// From a theorem: what a substitution makes of it, which is the step itself.
pub fn subst(
    target: &mut Module,
    ground: Ground<'_>,
    id: StepId,
    put: &Substitution,
    one: Premise,
) -> Result<LpId, Memory>
    requires kept { AreKept ground.proof.now ground.kept.now }
    requires id { id < step_count ground.proof.now }
    requires one { one.id < step_count ground.proof.now }
    requires put { AreKnownPairs ground.proof.now.trees put.now.types.items put.now.terms.items }
    requires substituted { IsSubstituted ground.proof.now put.now id one.id }
    requires told { TellsOne target.old ground.proof.now ground.env.now id }
    ensures made { MakesOn target.old target.new ground.entry (id ∷ []) result (subst_row ground.entry.proof.now put.now one) }
    ensures grows { Grows target.old target.new }
{
    let lent = ground.kept.lend(ground.proof, one.id)?;
    let made = subst_over(target, ground, id, put, one, lent.params());
    drop(lent);
    made
}

/// What a substitution makes of a theorem whose parameters are known.
fn subst_over(
    target: &mut Module,
    ground: Ground<'_>,
    id: StepId,
    put: &Substitution,
    one: Premise,
    params: &Params,
) -> Result<LpId, Memory>
    requires kept { AreKept ground.proof.now ground.kept.now }
    requires id { id < step_count ground.proof.now }
    requires one { one.id < step_count ground.proof.now }
    requires put { AreKnownPairs ground.proof.now.trees put.now.types.items put.now.terms.items }
    requires substituted { IsSubstituted ground.proof.now put.now id one.id }
    requires params { AreParams ground.proof.now one.id params.now }
    requires told { TellsOne target.old ground.proof.now ground.env.now id }
    ensures made { MakesOn target.old target.new ground.entry (id ∷ []) result (subst_row ground.entry.proof.now put.now one) }
    ensures grows { Grows target.old target.new }
{
    let lent = ground.kept.lend(ground.proof, id)?;
    let mut args = Vec::new(ground.env.alloc);
    let step = Becoming {
        id,
        own: lent.params(),
        put,
        one,
        params,
    };
    let made = subst_onto(target, ground, step, &mut args);
    drop(args);
    drop(lent);
    made
}

/// What it makes of the theorem where the step's own parameters are known too. The arguments are added to none.
fn subst_onto(
    target: &mut Module,
    ground: Ground<'_>,
    step: Becoming<'_>,
    args: &mut Vec<LpId>,
) -> Result<LpId, Memory>
    requires id { step.id < step_count ground.proof.now }
    requires one { step.one.id < step_count ground.proof.now }
    requires put { AreKnownPairs ground.proof.now.trees step.put.now.types.items step.put.now.terms.items }
    requires substituted { IsSubstituted ground.proof.now step.put.now step.id step.one.id }
    requires params { AreParams ground.proof.now step.one.id step.params.now }
    requires own_params { AreParams ground.proof.now step.id step.own.now }
    requires none { args.old.items ≡ [] }
    requires told { TellsOne target.old ground.proof.now ground.env.now step.id }
    ensures made { MakesOn target.old target.new ground.entry (step.entry.id ∷ []) result
        (subst_row ground.entry.proof.now step.entry.put.now step.entry.one) }
    ensures grows { Grows target.old target.new }
{
    let sequent = ground.proof.sequent(step.one.id);
    let own = ground.proof.sequent(step.id);
    let variables = step.own.free_vars.variables();
    let general = step.params.free_vars.variables();
    ground.add_type_images(target, step.put, step.params.type_vars.names(), args)?;
    ground.add_term_images(target, step.put, variables, general, args)?;
    ground.add_hypothesis_images(target, step.put, own.hyps.ids(), sequent.hyps.ids(), args)?;
    call(&mut target.table, step.one.symbol, args)
}

impl Ground<'_> {
    // Adds the image of each of some type variables.
    fn add_type_images(
        self,
        target: &mut Module,
        put: &Substitution,
        names: &[Name],
        args: &mut Vec<LpId>,
    ) -> Result<(), Memory>
        requires put { AreKnownPairs self.proof.now.trees put.now.types.items put.now.terms.items }
        requires told { TellsWhere target.old self.proof.now self.env.now (TellsTypeImages self.proof.now put.now names.now) }
        ensures ready { AddsTypeImages target.old target.new self.entry args.old.items args.new.items put.now names.now result }
        ensures grows { Grows target.old target.new }
    {
        for name in names {
            self.add_type_image(target, put, name, args)?;
        }
        Ok(())
    }

    // Adds the image of a type variable.
    fn add_type_image(
        self,
        target: &mut Module,
        put: &Substitution,
        name: &Name,
        args: &mut Vec<LpId>,
    ) -> Result<(), Memory>
        requires put { AreKnownPairs self.proof.now.trees put.now.types.items put.now.terms.items }
        requires told { TellsWhere target.old self.proof.now self.env.now (TellsTypeImage self.proof.now put.now name.now) }
        ensures ready { AddsTypeImage target.old target.new self.entry args.old.items args.new.items put.now name.now result }
        ensures grows { Grows target.old target.new }
    {
        match put_type(&put.types, name) {
            Some(ty) => self.add_type(target, ty, args),
            None => self.env.add_type_variable(target, name, args),
        }
    }

    // Adds the image of each of some free variables. What becomes of one that nothing is put for is among the step's own.
    fn add_term_images(
        self,
        target: &mut Module,
        put: &Substitution,
        own: &[Variable],
        variables: &[Variable],
        args: &mut Vec<LpId>,
    ) -> Result<(), Memory>
        requires put { AreKnownPairs self.proof.now.trees put.now.types.items put.now.terms.items }
        requires own { HaveTypes self.proof.now.trees own.now }
        requires variables { HaveTypes self.proof.now.trees variables.now }
        requires there { AllByRecursion (HasOwnVariable self.proof.now.trees put.now own.now) (variables_of self.proof.now.trees variables.now) }
        requires told { TellsWhere target.old self.proof.now self.env.now (TellsTermImages self.proof.now put.now variables.now) }
        ensures ready { AddsTermImages target.old target.new self.entry args.old.items args.new.items put.now variables.now result }
        ensures grows { Grows target.old target.new }
    {
        for variable in variables {
            self.add_term_image(target, put, own, variable, args)?;
        }
        Ok(())
    }

    // Adds the image of a free variable: the term that is put for it, or else what stands for the variable that it becomes.
    fn add_term_image(
        self,
        target: &mut Module,
        put: &Substitution,
        own: &[Variable],
        variable: &Variable,
        args: &mut Vec<LpId>,
    ) -> Result<(), Memory>
        requires put { AreKnownPairs self.proof.now.trees put.now.types.items put.now.terms.items }
        requires own { HaveTypes self.proof.now.trees own.now }
        requires variable { variable.now.ty.0 < length self.proof.now.trees.types }
        requires there { HasOwnVariable self.proof.now.trees put.now own.now (variable_view self.proof.now.trees variable.now) }
        requires told { TellsWhere target.old self.proof.now self.env.now (TellsTermImage self.proof.now put.now variable.now) }
        ensures ready { AddsTermImage target.old target.new self.entry args.old.items args.new.items put.now variable.now result }
        ensures grows { Grows target.old target.new }
    {
        match put_term(
            self.env.alloc,
            self.proof.terms(),
            put,
            &variable.name,
            variable.ty,
        )? {
            Some(id) => self.add_term(target, id, args),
            None => {
                let made = own_variable(self.env.alloc, self.proof.terms(), put, own, variable)?;
                self.add_free_variable(target, made, args)
            }
        }
    }

    // Adds what proves the image of each of some hypotheses, which are among the step's own.
    fn add_hypothesis_images(
        self,
        target: &mut Module,
        put: &Substitution,
        own: &[TermId],
        hyps: &[TermId],
        args: &mut Vec<LpId>,
    ) -> Result<(), Memory>
        requires put { AreKnownPairs self.proof.now.trees put.now.types.items put.now.terms.items }
        requires own { AreKnown self.proof.now.trees own.now }
        requires hyps { AreKnown self.proof.now.trees hyps.now }
        requires there { HaveOwnHypotheses self.proof.now.trees put.now own.now hyps.now }
        ensures ready { AddsHypothesisImages target.old target.new self.entry args.old.items args.new.items put.now hyps.now result }
        ensures grows { Grows target.old target.new }
    {
        for hyp in hyps {
            let made = own_hypothesis(self.env.alloc, self.proof.terms(), put, own, *hyp)?;
            self.env.add_hypothesis(target, made, args)?;
        }
        Ok(())
    }
}

// The first of the step's own variables that a variable becomes.
fn own_variable<'a>(
    alloc: Global,
    table: &TermTable,
    put: &Substitution,
    own: &'a [Variable],
    variable: &Variable,
) -> Result<&'a Variable, Memory>
    requires put { AreKnownPairs table.now put.now.types.items put.now.terms.items }
    requires own { HaveTypes table.now own.now }
    requires variable { variable.now.ty.0 < length table.now.types }
    requires there { IsIn (variables_of table.now own.now) (retyped table.now put.now variable.now.name variable.now.ty) }
    ensures is { IfOk result (λ found. variable_view table.now found.now ≡ retyped table.now put.now variable.now.name variable.now.ty) }
    ensures known { IfOk result (λ found. found.now.ty.0 < length table.now.types) }
{
    for one in own {
        if becomes(alloc, table, put, &variable.name, variable.ty, one)? {
            return Ok(one);
        }
    }
    unreachable!()
}

// The first of the step's own hypotheses that a hypothesis becomes.
fn own_hypothesis(
    alloc: Global,
    table: &TermTable,
    put: &Substitution,
    own: &[TermId],
    hyp: TermId,
) -> Result<TermId, Memory>
    requires put { AreKnownPairs table.now put.now.types.items put.now.terms.items }
    requires own { AreKnown table.now own.now }
    requires hyp { hyp.0 < length table.now.terms }
    requires there { IsIn (terms_at table.now own.now) (made_term table.now put.now hyp) }
    ensures is { IfOk result (λ found. term_at table.now found.0 ≡ made_term table.now put.now hyp) }
    ensures known { IfOk result (λ found. found.0 < length table.now.terms) }
{
    for one in own {
        if makes_term(alloc, table, put, hyp, *one)? {
            return Ok(*one);
        }
    }
    unreachable!()
}
