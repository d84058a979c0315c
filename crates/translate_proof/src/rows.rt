//! The proof of a step by its rule, a function for each rule.
ghost use Rattle.std.specs.Prelude.{◌<◌, [], ◌∷◌, length};
ghost use Rattle.hol_rules.specs.Kept.{step_count};
ghost use Rattle.translate_term.specs.Walks.{Grows};
ghost use Rattle.translate_proof.specs.Equations.{IsEquated, IsEquationStep};
ghost use Rattle.translate_proof.specs.Grounds.{MakesOn, TellsOne, TellsThree, TellsTwo};
ghost use Rattle.translate_proof.specs.Keeping.{AreKept};
ghost use Rattle.translate_proof.specs.RuleRows.{app_thm_row, conclusion_row, eq_mp_row, prove_hyp_row, refl_row, sym_row, trans_row, MakesUnderProofs, MakesUnderVariable, TellsUnderProofs, TellsUnderVariable};

use crate::ground::Ground;
use crate::premise::{Premise, Proved};
use crate::scope::Environment;
use common::Memory;
use hol_rules::{Proof, StepId};
use hol_term::{TermId, Variable};
use hol_type::TypeId;
use holide_sig::symbols::{APP_THM, EQ_MP, FUN_EXT, PROOF, PROP_EXT, REFL, SYM, TERM, TRANS};
use holide_sig::{Module, call};
use lp_term::LpId;

/// The type and the sides of an equation.
#[derive(Clone, Copy)]
pub(crate) struct Equated {
    pub(crate) ty: TypeId,
    pub(crate) left: TermId,
    pub(crate) right: TermId,
}

// The type and the sides of the equation that a step's conclusion is.
pub(crate) fn sides(proof: &Proof, id: StepId) -> Equated
    requires id { id < step_count proof.now }
    requires equation { IsEquationStep proof.now id }
    ensures { IsEquated proof.now id result }
{
    proof.is_proof();
    let table = proof.terms();
    let (left, right) = table.dest_eq(proof.sequent(id).concl).unwrap();
    let ty = table.type_of(left);
    Equated { ty, left, right }
}

/// Reflexivity of the right side of a step's own conclusion.
pub fn refl(target: &mut Module, ground: Ground<'_>, id: StepId) -> Result<LpId, Memory>
    requires id { id < step_count ground.proof.now }
    requires equation { IsEquationStep ground.proof.now id }
    requires told { TellsOne target.old ground.proof.now ground.env.now id }
    ensures made { MakesOn target.old target.new ground.entry (id ∷ []) result (refl_row ground.entry.proof.now id) }
    ensures grows { Grows target.old target.new }
{
    let own = sides(ground.proof, id);
    let mut args = Vec::new(ground.env.alloc);
    ground.add_type(target, own.ty, &mut args)?;
    ground.add_term(target, own.right, &mut args)?;
    call(&mut target.table, REFL, &args)
}

/// From `p = q` and p: q.
pub fn eq_mp(
    target: &mut Module,
    ground: Ground<'_>,
    one: Premise,
    two: Premise,
) -> Result<LpId, Memory>
    requires kept { AreKept ground.proof.now ground.kept.now }
    requires one { one.id < step_count ground.proof.now }
    requires two { two.id < step_count ground.proof.now }
    requires equation { IsEquationStep ground.proof.now one.id }
    requires told { TellsTwo target.old ground.proof.now ground.env.now one.id two.id }
    ensures made { MakesOn target.old target.new ground.entry (one.id ∷ two.id ∷ []) result (eq_mp_row ground.entry.proof.now one two) }
    ensures grows { Grows target.old target.new }
{
    let first = sides(ground.proof, one.id);
    let mut args = Vec::new(ground.env.alloc);
    ground.add_term(target, first.left, &mut args)?;
    ground.add_term(target, first.right, &mut args)?;
    ground.add_theorem(target, one, &mut args)?;
    ground.add_theorem(target, two, &mut args)?;
    call(&mut target.table, EQ_MP, &args)
}

/// From `x = y`: `y = x`.
pub fn sym(target: &mut Module, ground: Ground<'_>, one: Premise) -> Result<LpId, Memory>
    requires kept { AreKept ground.proof.now ground.kept.now }
    requires one { one.id < step_count ground.proof.now }
    requires equation { IsEquationStep ground.proof.now one.id }
    requires told { TellsOne target.old ground.proof.now ground.env.now one.id }
    ensures made { MakesOn target.old target.new ground.entry (one.id ∷ []) result (sym_row ground.entry.proof.now one) }
    ensures grows { Grows target.old target.new }
{
    let first = sides(ground.proof, one.id);
    let mut args = Vec::new(ground.env.alloc);
    ground.add_type(target, first.ty, &mut args)?;
    ground.add_term(target, first.left, &mut args)?;
    ground.add_term(target, first.right, &mut args)?;
    ground.add_theorem(target, one, &mut args)?;
    call(&mut target.table, SYM, &args)
}

/// From `x = y` and `y = z`: `x = z`.
pub fn trans(
    target: &mut Module,
    ground: Ground<'_>,
    one: Premise,
    two: Premise,
) -> Result<LpId, Memory>
    requires kept { AreKept ground.proof.now ground.kept.now }
    requires one { one.id < step_count ground.proof.now }
    requires two { two.id < step_count ground.proof.now }
    requires first { IsEquationStep ground.proof.now one.id }
    requires second { IsEquationStep ground.proof.now two.id }
    requires told { TellsTwo target.old ground.proof.now ground.env.now one.id two.id }
    ensures made { MakesOn target.old target.new ground.entry (one.id ∷ two.id ∷ []) result (trans_row ground.entry.proof.now one two) }
    ensures grows { Grows target.old target.new }
{
    let first = sides(ground.proof, one.id);
    let second = sides(ground.proof, two.id);
    let mut args = Vec::new(ground.env.alloc);
    ground.add_type(target, first.ty, &mut args)?;
    ground.add_term(target, first.left, &mut args)?;
    ground.add_term(target, first.right, &mut args)?;
    ground.add_term(target, second.right, &mut args)?;
    ground.add_theorem(target, one, &mut args)?;
    ground.add_theorem(target, two, &mut args)?;
    call(&mut target.table, TRANS, &args)
}

/// From `f = g` and `x = y`: `f x = g y`, which is the conclusion of the step itself.
pub fn app_thm(
    target: &mut Module,
    ground: Ground<'_>,
    id: StepId,
    one: Premise,
    two: Premise,
) -> Result<LpId, Memory>
    requires kept { AreKept ground.proof.now ground.kept.now }
    requires id { id < step_count ground.proof.now }
    requires one { one.id < step_count ground.proof.now }
    requires two { two.id < step_count ground.proof.now }
    requires own { IsEquationStep ground.proof.now id }
    requires first { IsEquationStep ground.proof.now one.id }
    requires second { IsEquationStep ground.proof.now two.id }
    requires told { TellsThree target.old ground.proof.now ground.env.now id one.id two.id }
    ensures made { MakesOn target.old target.new ground.entry (id ∷ one.id ∷ two.id ∷ []) result (app_thm_row ground.entry.proof.now id one two) }
    ensures grows { Grows target.old target.new }
{
    let first = sides(ground.proof, one.id);
    let second = sides(ground.proof, two.id);
    let own = sides(ground.proof, id);
    let mut args = Vec::new(ground.env.alloc);
    ground.add_type(target, second.ty, &mut args)?;
    ground.add_type(target, own.ty, &mut args)?;
    ground.add_term(target, first.left, &mut args)?;
    ground.add_term(target, first.right, &mut args)?;
    ground.add_term(target, second.left, &mut args)?;
    ground.add_term(target, second.right, &mut args)?;
    ground.add_theorem(target, one, &mut args)?;
    ground.add_theorem(target, two, &mut args)?;
    call(&mut target.table, APP_THM, &args)
}

/// From a proof under the binder of a variable, whose environment is the inner one: equality of the two functions.
pub fn abs_thm(
    target: &mut Module,
    ground: Ground<'_>,
    inner: &Environment,
    variable: &Variable,
    one: Premise,
) -> Result<LpId, Memory>
    requires kept { AreKept ground.proof.now ground.kept.now }
    requires one { one.id < step_count ground.proof.now }
    requires variable { variable.now.ty.0 < length ground.proof.now.trees.types }
    requires equation { IsEquationStep ground.proof.now one.id }
    requires told { TellsUnderVariable target.old ground inner.now variable.now one.id }
    ensures made { MakesUnderVariable target.old target.new ground.entry inner.now variable.now one result }
    ensures grows { Grows target.old target.new }
{
    let under = Ground {
        proof: ground.proof,
        kept: ground.kept,
        env: inner,
    };
    let first = sides(ground.proof, one.id);
    let mut args = Vec::new(ground.env.alloc);
    let domain = ground.env.ty(target, ground.proof, variable.ty)?;
    args.push(domain)?;
    ground.add_type(target, first.ty, &mut args)?;
    under.add_function(target, domain, first.left, &mut args)?;
    under.add_function(target, domain, first.right, &mut args)?;
    under.add_abstracted(target, TERM, domain, one, &mut args)?;
    call(&mut target.table, FUN_EXT, &args)
}

/// From p and q, each proved where the other is: `p = q`. The first environment is that in which p is proved by a binder,
/// the second that in which q is.
pub fn deduct_antisym(
    target: &mut Module,
    ground: Ground<'_>,
    first: &Environment,
    second: &Environment,
    one: Premise,
    two: Premise,
) -> Result<LpId, Memory>
    requires kept { AreKept ground.proof.now ground.kept.now }
    requires one { one.id < step_count ground.proof.now }
    requires two { two.id < step_count ground.proof.now }
    requires told { TellsUnderProofs target.old ground first.now second.now one.id two.id }
    ensures made { MakesUnderProofs target.old target.new ground.entry first.now second.now one two result }
    ensures grows { Grows target.old target.new }
{
    let under_one = Ground {
        proof: ground.proof,
        kept: ground.kept,
        env: first,
    };
    let under_two = Ground {
        proof: ground.proof,
        kept: ground.kept,
        env: second,
    };
    let mut args = Vec::new(ground.env.alloc);
    let p = conclusion(target, ground, one.id)?;
    args.push(p)?;
    let q = conclusion(target, ground, two.id)?;
    args.push(q)?;
    under_one.add_abstracted(target, PROOF, p, two, &mut args)?;
    under_two.add_abstracted(target, PROOF, q, one, &mut args)?;
    call(&mut target.table, PROP_EXT, &args)
}

// The tree of a step's conclusion.
fn conclusion(target: &mut Module, ground: Ground<'_>, id: StepId) -> Result<LpId, Memory>
    requires id { id < step_count ground.proof.now }
    requires told { TellsOne target.old ground.proof.now ground.env.now id }
    ensures made { MakesOn target.old target.new ground.entry (id ∷ []) result (conclusion_row ground.entry.proof.now id) }
    ensures grows { Grows target.old target.new }
{
    ground.proof.is_proof();
    ground
        .env
        .term(target, ground.proof, ground.proof.sequent(id).concl)
}

/// The second premise, where the first proves its hypothesis.
pub fn prove_hyp(
    target: &mut Module,
    ground: Ground<'_>,
    one: Premise,
    two: Premise,
) -> Result<LpId, Memory>
    requires kept { AreKept ground.proof.now ground.kept.now }
    requires one { one.id < step_count ground.proof.now }
    requires two { two.id < step_count ground.proof.now }
    requires told { TellsTwo target.old ground.proof.now ground.env.now one.id two.id }
    ensures made { MakesOn target.old target.new ground.entry (one.id ∷ two.id ∷ []) result (prove_hyp_row ground.entry.proof.now one two) }
    ensures grows { Grows target.old target.new }
{
    let id = ground.proof.sequent(one.id).concl;
    let tree = ground.env.theorem(target, ground.proof, ground.kept, one)?;
    ground.theorem_with(target, two, Some(Proved { id, tree }))
}
