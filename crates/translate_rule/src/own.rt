//! A step in the environment of its own binders, and what stands for the parameters of its sequent.
ghost use Rattle.std.specs.Prelude.{◌<◌, length, IfOk};
ghost use Rattle.hol_term.specs.Tables.{term_at};
ghost use Rattle.hol_rules.specs.Kept.{step_count};
ghost use Rattle.hol_rules.specs.Views.{variable_view};
ghost use Rattle.holide_sig.specs.Modules.{IsHeld};
ghost use Rattle.translate_spec.specs.Scopes.{lifted, under_proof as proof_under, under_term};
ghost use Rattle.translate_term.specs.Walks.{Grows};
ghost use Rattle.translate_proof.specs.Keeping.{lent_params, AreKept};
ghost use Rattle.translate_rule.specs.OwnSteps.{outer_scope, own_scope, proof_in, types_scope, variable_scope, IsReady, StandsFor, StandsUnder};
ghost use Rattle.translate_rule.specs.Steps.{AreParams};

use common::Memory;
use hol_name::Name;
use hol_rules::{Proof, StepId};
use hol_term::{TermId, Variable};
use holide_sig::Module;
use sequent::Params;
use std::alloc::Global;
use translate_proof::{Environment, Ground, KeptParams, LentParams};

/// A step with the parameters of its sequent, and what its proof term is made from: its environment is that of its own binders.
#[derive(Clone, Copy)]
pub(crate) struct OwnStep<'a> {
    pub(crate) alloc: Global,
    pub(crate) ground: Ground<'a>,
    pub(crate) params: &'a Params,
    pub(crate) id: StepId,
}

// The parameters of a step's sequent.
pub(crate) fn own_params<'a>(
    proof: &Proof,
    kept: &'a KeptParams,
    id: StepId,
) -> Result<LentParams<'a>, Memory>
    requires kept { AreKept proof.now kept.now }
    requires id { id < step_count proof.now }
    ensures { IfOk result (λ own. AreParams proof.now id (lent_params own).type_vars (lent_params own).free_vars) }
{
    let table = proof.terms();
    let concl = proof.sequent(id).concl;
    // No term of the table has two numbers, and no type has.
    let _conclusion = table.view(concl);
    let _ty = table.ty(concl);
    kept.lend(proof, id)
}

// The environment of its binders.
pub(crate) fn own_environment(
    alloc: Global,
    target: &mut Module,
    proof: &Proof,
    params: &Params,
    id: StepId,
) -> Result<Environment, Memory>
    requires id { id < step_count proof.now }
    requires params { AreParams proof.now id params.now.type_vars params.now.free_vars }
    requires held { IsHeld target.old }
    ensures made { IfOk result (StandsFor proof.now (own_scope proof.now id) target.old target.new) }
    ensures grows { Grows target.old target.new }
{
    Environment::of(alloc, target, params, proof.sequent(id).hyps.ids(), 0)
}

// That of the binders of its type variables and free variables alone.
pub(crate) fn variable_environment(
    target: &mut Module,
    step: OwnStep<'_>,
) -> Result<Environment, Memory>
    requires step { IsReady step target.old }
    ensures made { IfOk result (StandsFor (proof_in step.entry) (variable_scope (proof_in step.entry) step.entry.id) target.old target.new) }
    ensures grows { Grows target.old target.new }
{
    Environment::of(step.alloc, target, step.params, &[], 0)
}

// That of a binder for each of some type variables, and of nothing else.
pub(crate) fn type_environment(
    alloc: Global,
    target: &mut Module,
    proof: &Proof,
    names: &[Name],
    id: StepId,
) -> Result<Environment, Memory>
    requires id { id < step_count proof.now }
    requires held { IsHeld target.old }
    ensures made { IfOk result (StandsFor proof.now (types_scope names.now) target.old target.new) }
    ensures grows { Grows target.old target.new }
{
    let table = proof.terms();
    let concl = proof.sequent(id).concl;
    // No term of the table has two numbers, and no type has.
    let _conclusion = table.view(concl);
    let _ty = table.ty(concl);
    Environment::of_types(alloc, target, names, 0)
}

// What stands for a step's type variables under all its binders, where nothing else is told.
pub(crate) fn outer_environment(
    target: &mut Module,
    step: OwnStep<'_>,
) -> Result<Environment, Memory>
    requires step { IsReady step target.old }
    ensures made { IfOk result (StandsFor (proof_in step.entry) (outer_scope (proof_in step.entry) step.entry.id) target.old target.new) }
    ensures grows { Grows target.old target.new }
{
    let params = step.params;
    let variables = params.free_vars.variables().len();
    let hyps = step.ground.proof.sequent(step.id).hyps.ids().len();
    let inside = hyps as u128 + variables as u128;
    Environment::of_types(step.alloc, target, params.type_vars.names(), inside)
}

// The environment under one binder more, which stands for nothing.
pub(crate) fn under_binder(target: &mut Module, step: OwnStep<'_>) -> Result<Environment, Memory>
    requires step { IsReady step target.old }
    ensures made { IfOk result (StandsUnder step.entry lifted target.old target.new) }
    ensures grows { Grows target.old target.new }
{
    let hyps = step.ground.proof.sequent(step.id).hyps.ids();
    Environment::of(step.alloc, target, step.params, hyps, 1)
}

// That under one binder more, which stands for a variable.
pub(crate) fn under_variable(
    target: &mut Module,
    step: OwnStep<'_>,
    variable: &Variable,
) -> Result<Environment, Memory>
    requires step { IsReady step target.old }
    requires variable { variable.now.ty.0 < length (proof_in step).trees.types }
    ensures made { IfOk result (StandsUnder step.entry (under_term (variable_view (proof_in step.entry).trees variable.now)) target.old target.new) }
    ensures grows { Grows target.old target.new }
{
    let hyps = step.ground.proof.sequent(step.id).hyps.ids();
    Environment::under_variable(step.alloc, target, step.params, hyps, variable)
}

// That under one binder more, which proves a formula.
pub(crate) fn under_proof(
    target: &mut Module,
    step: OwnStep<'_>,
    formula: TermId,
) -> Result<Environment, Memory>
    requires step { IsReady step target.old }
    requires formula { formula.0 < length (proof_in step).trees.terms }
    ensures made { IfOk result (StandsUnder step.entry (proof_under (term_at (proof_in step.entry).trees formula.0)) target.old target.new) }
    ensures grows { Grows target.old target.new }
{
    let hyps = step.ground.proof.sequent(step.id).hyps.ids();
    Environment::under_proof(step.alloc, target, step.params, hyps, formula)
}
