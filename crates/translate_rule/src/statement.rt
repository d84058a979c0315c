//! The type of a step's declaration: the product over the binders of its sequent's parameters.
ghost use Rattle.std.specs.Prelude.{◌<◌, length, IfOk};
ghost use Rattle.hol_term.specs.Subterms.{HaveTypes};
ghost use Rattle.hol_term.specs.Tables.{AreKnown};
ghost use Rattle.lp_spec.specs.Trees.{lift, App, Pi, Sym};
ghost use Rattle.lp_term.specs.Tables.{tree_at, Holds, Keeps};
ghost use Rattle.translate_spec.specs.Scopes.{conclusion_tree, sequent_tree};
ghost use Rattle.translate_term.specs.Walks.{Grows};
ghost use Rattle.translate_rule.specs.OwnSteps.{hypotheses_product, variables_product, IsReady, IsSequentTold, IsTreeOf};
ghost use Rattle.translate_proof.specs.Grounds.{TellsTermAt, TellsTypeAt, TellsVariables, TellsWhere};
ghost use Rattle.translate_rule.specs.Products.{AreOverFormulas, AreOverTypes, IsOverFormula, IsOverType, TellsFormulas};

use crate::generics::over_types;
use crate::own::{OwnStep, type_environment, variable_environment};
use common::Memory;
use hol_rules::Proof;
use hol_term::{TermId, Variable};
use hol_type::TypeId;
use holide_sig::Module;
use holide_sig::symbols::{PROOF, TERM};
use lp_term::{LpId, LpNode, LpTable};
use translate_proof::Environment;

// The type of a step's declaration.
pub(crate) fn theorem_type(target: &mut Module, step: OwnStep<'_>) -> Result<LpId, Memory>
    requires step { IsReady step target.old }
    requires told { IsSequentTold step target.old }
    ensures made { IfOk result (IsTreeOf step.entry sequent_tree target.old target.new) }
    ensures known { IfOk result (λ r. r.0 < length target.new.table) }
    ensures grows { Grows target.old target.new }
{
    let inside = conclusion(target, step)?;
    let under_terms = over_hypotheses(target, step, inside)?;
    let under_types = over_variables(target, step, under_terms)?;
    let count = step.params.type_vars.names().len();
    over_types(&mut target.table, count, under_types)
}

// The proofs of its conclusion.
fn conclusion(target: &mut Module, step: OwnStep<'_>) -> Result<LpId, Memory>
    requires step { IsReady step target.old }
    requires told { IsSequentTold step target.old }
    ensures made { IfOk result (IsTreeOf step.entry conclusion_tree target.old target.new) }
    ensures known { IfOk result (λ r. r.0 < length target.new.table) }
    ensures grows { Grows target.old target.new }
{
    let proof = step.ground.proof;
    proof.is_proof();
    let formula = step
        .ground
        .env
        .term(target, proof, proof.sequent(step.id).concl)?;
    family(&mut target.table, PROOF, formula)
}

// The product over its hypotheses, each outside those after it. They are made outside all of them.
fn over_hypotheses(target: &mut Module, step: OwnStep<'_>, inside: LpId) -> Result<LpId, Memory>
    requires step { IsReady step target.old }
    requires inside { inside.0 < length target.old.table }
    requires told { IsSequentTold step target.old }
    ensures made { IfOk result (IsTreeOf step.entry (hypotheses_product (tree_at target.old.table inside.0)) target.old target.new) }
    ensures known { IfOk result (λ r. r.0 < length target.new.table) }
    ensures grows { Grows target.old target.new }
{
    let proof = step.ground.proof;
    proof.is_proof();
    let hyps = proof.sequent(step.id).hyps.ids();
    if hyps.len() == 0 {
        return Ok(inside);
    }
    let env = variable_environment(target, step)?;
    let made = over_formulas(target, proof, &env, hyps, inside);
    drop(env);
    made
}

// The product over the proofs of formulas that are made in one environment.
fn over_formulas(
    target: &mut Module,
    proof: &Proof,
    env: &Environment,
    hyps: &[TermId],
    inside: LpId,
) -> Result<LpId, Memory>
    requires hyps { AreKnown proof.now.trees hyps.now }
    requires inside { inside.0 < length target.old.table }
    requires told { TellsWhere target.old proof.now env.now (TellsFormulas proof.now hyps.now) }
    ensures made { IfOk result (AreOverFormulas proof.now env.now hyps.now (tree_at target.old.table inside.0) target.old target.new) }
    ensures known { IfOk result (λ r. r.0 < length target.new.table) }
    ensures grows { Grows target.old target.new }
{
    let mut product = inside;
    let mut rest = hyps;
    while let [front @ .., hyp] = rest {
        product = over_formula(target, proof, env, *hyp, front.len(), product)?;
        rest = front;
    }
    Ok(product)
}

// The product over the proofs of a formula, which are lifted over so many binders.
fn over_formula(
    target: &mut Module,
    proof: &Proof,
    env: &Environment,
    id: TermId,
    outside: usize,
    inside: LpId,
) -> Result<LpId, Memory>
    requires id { id.0 < length proof.now.trees.terms }
    requires inside { inside.0 < length target.old.table }
    requires told { TellsWhere target.old proof.now env.now (TellsTermAt proof.now id) }
    ensures made { IfOk result (IsOverFormula proof.now env.now id outside (tree_at target.old.table inside.0) target.old target.new) }
    ensures known { IfOk result (λ r. r.0 < length target.new.table) }
    ensures grows { Grows target.old target.new }
{
    let formula = env.term(target, proof, id)?;
    product_over(&mut target.table, PROOF, formula, outside, inside)
}

// The product over the free variables of a step, each outside those after it. Their types are made outside all of them.
fn over_variables(target: &mut Module, step: OwnStep<'_>, inside: LpId) -> Result<LpId, Memory>
    requires step { IsReady step target.old }
    requires inside { inside.0 < length target.old.table }
    requires told { IsSequentTold step target.old }
    ensures made { IfOk result (IsTreeOf step.entry (variables_product (tree_at target.old.table inside.0)) target.old target.new) }
    ensures known { IfOk result (λ r. r.0 < length target.new.table) }
    ensures grows { Grows target.old target.new }
{
    let proof = step.ground.proof;
    let variables = step.params.free_vars.variables();
    if variables.len() == 0 {
        return Ok(inside);
    }
    let names = step.params.type_vars.names();
    let env = type_environment(step.alloc, target, proof, names, step.id)?;
    let made = over_terms(target, proof, &env, variables, inside);
    drop(env);
    made
}

// The product over the terms of the types of variables, which are made in one environment.
fn over_terms(
    target: &mut Module,
    proof: &Proof,
    env: &Environment,
    variables: &[Variable],
    inside: LpId,
) -> Result<LpId, Memory>
    requires variables { HaveTypes proof.now.trees variables.now }
    requires inside { inside.0 < length target.old.table }
    requires told { TellsWhere target.old proof.now env.now (TellsVariables proof.now variables.now) }
    ensures made { IfOk result (AreOverTypes proof.now env.now variables.now (tree_at target.old.table inside.0) target.old target.new) }
    ensures known { IfOk result (λ r. r.0 < length target.new.table) }
    ensures grows { Grows target.old target.new }
{
    let mut product = inside;
    let mut rest = variables;
    while let [front @ .., variable] = rest {
        product = over_type(target, proof, env, variable.ty, front.len(), product)?;
        rest = front;
    }
    Ok(product)
}

// The product over the terms of a type, which are lifted over so many binders.
fn over_type(
    target: &mut Module,
    proof: &Proof,
    env: &Environment,
    id: TypeId,
    outside: usize,
    inside: LpId,
) -> Result<LpId, Memory>
    requires id { id.0 < length proof.now.trees.types }
    requires inside { inside.0 < length target.old.table }
    requires told { TellsWhere target.old proof.now env.now (TellsTypeAt proof.now id) }
    ensures made { IfOk result (IsOverType proof.now env.now id outside (tree_at target.old.table inside.0) target.old target.new) }
    ensures known { IfOk result (λ r. r.0 < length target.new.table) }
    ensures grows { Grows target.old target.new }
{
    let ty = env.ty(target, proof, id)?;
    product_over(&mut target.table, TERM, ty, outside, inside)
}

// The product over what a symbol gives at a tree, which is lifted over so many binders.
fn product_over(
    table: &mut LpTable,
    symbol: usize,
    tree: LpId,
    outside: usize,
    inside: LpId,
) -> Result<LpId, Memory>
    requires tree { tree.0 < length table.old }
    requires inside { inside.0 < length table.old }
    ensures made { IfOk result (λ r. Holds table.new r.0 (Pi (App (Sym symbol) (lift outside (tree_at table.old tree.0))) (tree_at table.old inside.0))) }
    ensures known { IfOk result (λ r. r.0 < length table.new) }
    ensures keeps { Keeps table.old table.new }
{
    let index = table.lift(outside as u128, tree)?;
    let domain = family(table, symbol, index)?;
    table.node(LpNode::Pi(domain, inside))
}

// What a symbol gives at a tree.
fn family(table: &mut LpTable, symbol: usize, index: LpId) -> Result<LpId, Memory>
    requires { index.0 < length table.old }
    ensures made { IfOk result (λ r. Holds table.new r.0 (App (Sym symbol) (tree_at table.old index.0))) }
    ensures known { IfOk result (λ r. r.0 < length table.new) }
    ensures keeps { Keeps table.old table.new }
{
    let head = table.node(LpNode::Sym(symbol))?;
    table.node(LpNode::App(head, index))
}
