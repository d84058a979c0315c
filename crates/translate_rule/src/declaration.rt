//! The declaration of a step.
ghost use Rattle.std.specs.Prelude.{◌≡◌, ◌<◌, ◌≤◌, length, IfOk};
ghost use Rattle.hol_spec.specs.Proofs.{sequent_at};
ghost use Rattle.hol_rules.specs.Kept.{step_count};
ghost use Rattle.hol_rules.specs.Views.{step_at};
ghost use Rattle.holide_sig.specs.Modules.{declaration_in, declarations_of, IsHeld, IsKnown};
ghost use Rattle.translate_spec.specs.Image.{step_name as name_of_step};
ghost use Rattle.translate_spec.specs.Items.{declaration_of};
ghost use Rattle.translate_spec.specs.Rows.{has_row};
ghost use Rattle.translate_spec.specs.Scopes.{SymbolMap, domains_of};
ghost use Rattle.translate_term.specs.Walks.{Grows};
ghost use Rattle.translate_proof.specs.Keeping.{AreKept};
ghost use Rattle.translate_proof.specs.Numbers.{IsRising};
ghost use Rattle.translate_rule.specs.Unnamed.{IsUnnamedKnown};
ghost use Rattle.translate_rule.specs.OwnSteps.{own_content, IsReady, IsStated, IsStepDeclared, IsStepTold};
ghost use Rattle.translate_rule.specs.Steps.{content_at, AreParams, TellsContent};

use crate::own::{OwnStep, own_environment, own_params};
use crate::proof_term::needed_proof;
use crate::run::Run;
use crate::statement::theorem_type;
use common::Memory;
use hol_rules::{Proof, StepId};
use hol_spec::StepKind;
use holide_sig::{Decl, Form, Ident, Module};
use lp_term::LpId;
use sequent::Params;
use std::alloc::Global;
use translate_proof::{Ground, KeptParams, abstracted, step_name};

/// What a step's declaration has beside its name.
#[derive(Clone, Copy)]
pub(crate) struct Unnamed {
    form: Form,
    ty: LpId,
    body: Option<LpId>,
}

/// Of the steps before one, the symbols of their declarations and the parameters that are kept of some.
#[derive(Clone, Copy)]
struct Earlier<'a> {
    symbols: &'a [usize],
    kept: &'a KeptParams,
}

/// The declaration of a step: a theorem, whose body is the proof by its rule under the binders of its parameters; or a symbol without a
/// body, for an assumption. The declarations of the steps before it have these symbols.
pub fn step(
    alloc: Global,
    target: &mut Module,
    proof: &Proof,
    assumptions: &[StepId],
    exports: &[StepId],
    symbols: &[usize],
    id: StepId,
) -> Result<Decl, Memory>
    requires id { id < step_count proof.now }
    requires assumptions { IsRising assumptions.now }
    requires exports { IsRising exports.now }
    requires symbols { id ≤ length symbols.now }
    requires held { IsHeld target.old }
    requires told { (tables : SymbolMap) × TellsContent (declarations_of target.old) tables (content_at symbols.now proof.now.made id) }
    ensures made { IfOk result (λ decl. (tables : SymbolMap) → TellsContent (declarations_of target.old) tables (content_at symbols.now proof.now.made id)
        → declaration_in target.new.table decl ≡ declaration_of tables
        (name_of_step (record { made = proof.now.made; assumptions = assumptions.now; exports = exports.now }) id (step_at proof.now.made id).kind)
        (content_at symbols.now proof.now.made id)) }
    ensures known { IfOk result (IsKnown target.new.table) }
    ensures grows { Grows target.old target.new }
{
    let kept = KeptParams::new(alloc);
    let run = Run {
        proof,
        assumptions,
        exports,
    };
    let made = step_with(alloc, target, run, symbols, &kept, id);
    drop(kept);
    made
}

// The same, with the parameters that are kept of steps.
pub(crate) fn step_with<'a>(
    alloc: Global,
    target: &mut Module,
    run: Run<'a>,
    symbols: &'a [usize],
    kept: &'a KeptParams,
    id: StepId,
) -> Result<Decl, Memory>
    requires kept { AreKept run.proof.now kept.now }
    requires id { id < step_count run.proof.now }
    requires assumptions { IsRising run.assumptions.now }
    requires exports { IsRising run.exports.now }
    requires symbols { id ≤ length symbols.now }
    requires held { IsHeld target.old }
    requires told { IsStepTold target.old (content_at symbols.now run.proof.now.made id) }
    ensures made { IfOk result (IsStepDeclared target.old target.new run.entry symbols.now id) }
    ensures known { IfOk result (IsKnown target.new.table) }
    ensures grows { Grows target.old target.new }
{
    let own = own_params(run.proof, kept, id)?;
    let earlier = Earlier { symbols, kept };
    let made = stated(alloc, target, run.proof, earlier, own.params(), id);
    drop(own);
    let Unnamed { form, ty, body } = made?;
    let name = Ident::new(step_name(alloc, run.proof, run.assumptions, run.exports, id)?);
    Ok(Decl {
        name,
        form,
        ty,
        body,
    })
}

// What it has beside its name, in the environment of its binders.
fn stated<'a>(
    alloc: Global,
    target: &mut Module,
    proof: &'a Proof,
    earlier: Earlier<'a>,
    params: &'a Params,
    id: StepId,
) -> Result<Unnamed, Memory>
    requires kept { AreKept proof.now earlier.kept.now }
    requires id { id < step_count proof.now }
    requires symbols { id ≤ length earlier.symbols.now }
    requires params { AreParams proof.now id params.now.type_vars params.now.free_vars }
    requires held { IsHeld target.old }
    requires told { IsStepTold target.old (content_at earlier.symbols.now proof.now.made id) }
    ensures made { IfOk result (IsStated target.old target.new (content_at earlier.entry.symbols.now proof.now.made id)) }
    ensures known { IfOk result (IsUnnamedKnown target.new.table) }
    ensures grows { Grows target.old target.new }
{
    let env = own_environment(alloc, target, proof, params, id)?;
    let ground = Ground {
        proof,
        kept: earlier.kept,
        env: &env,
    };
    let step = OwnStep {
        alloc,
        ground,
        params,
        id,
    };
    let made = stated_in(target, step, earlier.symbols);
    drop(env);
    made
}

// Its type, and the body that is its proof term under the binders of the type.
fn stated_in(target: &mut Module, step: OwnStep<'_>, symbols: &[usize]) -> Result<Unnamed, Memory>
    requires step { IsReady step target.old }
    requires symbols { step.id ≤ length symbols.now }
    requires told { IsStepTold target.old (own_content step symbols.now) }
    ensures made { IfOk result (IsStated target.old target.new (own_content step.entry symbols.now)) }
    ensures known { IfOk result (IsUnnamedKnown target.new.table) }
    ensures grows { Grows target.old target.new }
{
    let proof = step.ground.proof;
    proof.is_proof();
    let ty = theorem_type(target, step)?;
    if !has_proof(proof.kind(step.id)) {
        return Ok(Unnamed {
            form: Form::Symbol,
            ty,
            body: None,
        });
    }
    let inner = needed_proof(target, step, symbols)?;
    let count = binder_count(proof, step.params, step.id);
    let body = abstracted(step.alloc, &mut target.table, ty, count, inner)?;
    Ok(Unnamed {
        form: Form::Thm,
        ty,
        body: Some(body),
    })
}

// Whether a step of this kind has a proof.
fn has_proof(kind: StepKind) -> bool
    ensures { result ≡ has_row kind }
{
    match kind {
        StepKind::Axiom => false,
        _ => true,
    }
}

// How many binders a step has.
fn binder_count(proof: &Proof, params: &Params, id: StepId) -> u128
    requires id { id < step_count proof.now }
    requires params { AreParams proof.now id params.now.type_vars params.now.free_vars }
    ensures { (tables : SymbolMap) → length (domains_of tables (sequent_at proof.now.made id)) ≡ result }
{
    let names = params.type_vars.names().len();
    let variables = params.free_vars.variables().len();
    let hyps = proof.sequent(id).hyps.ids().len();
    names as u128 + variables as u128 + hyps as u128
}
