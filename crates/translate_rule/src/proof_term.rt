//! The proof term of a step: its proof by its rule, in the environment of its own binders.
ghost use Rattle.std.specs.Prelude.{true, ◌≡◌, ◌<◌, ◌≤◌, ◌∷◌, [], length, IfOk};
ghost use Rattle.hol_spec.specs.declared.StepKind.TheVariants.{AbsThm, DeductAntisym, DefineConstList, FirstLaw, SecondLaw, Subst};
ghost use Rattle.hol_spec.specs.declared.Version.{Version as AVersion};
ghost use Rattle.hol_spec.specs.declared.Version.TheVariants.{Five, Six};
ghost use Rattle.hol_rules.specs.Kept.{step_count};
ghost use Rattle.translate_spec.specs.Rows.{has_row};
ghost use Rattle.translate_term.specs.Walks.{Grows};
ghost use Rattle.translate_rule.specs.LawSteps.{IsFirstLawStep, IsOperatorStep, IsSecondLawStep};
ghost use Rattle.translate_rule.specs.OwnSteps.{needed_step, own_step, proof_in, IsProofBy, IsProofOf, IsProofTold, IsReady};

use crate::own::{OwnStep, outer_environment, under_binder, under_proof, under_variable};
use crate::premises::{one_premise, proves_nothing, two_premises};
use common::Memory;
use hol_rules::{Parameters, Proof, StepId};
use hol_spec::{StepKind, Version};
use holide_sig::Module;
use lp_term::LpId;
use translate_proof::{
    Premise, abs_thm, app_thm, constant_list, deduct_antisym, eq_mp, first_law, first_law_free,
    prove_hyp, refl, second_law, second_law_free, subst, sym, trans,
};

// The proof term of a step with the premises that its proof needs.
pub(crate) fn needed_proof(
    target: &mut Module,
    step: OwnStep<'_>,
    symbols: &[usize],
) -> Result<LpId, Memory>
    requires step { IsReady step target.old }
    requires symbols { step.id ≤ length symbols.now }
    requires kind { has_row (own_step step).kind ≡ true }
    requires told { IsProofTold step (needed_step step) target.old }
    ensures made { IfOk result (IsProofOf step.entry symbols.now (needed_step step.entry) target.old target.new) }
    ensures grows { Grows target.old target.new }
{
    let ground = step.ground;
    ground.proof.is_proof();
    if proves_nothing(ground.proof, step.id) {
        let (_, two) = two_premises(ground.proof, symbols, step.id);
        ground.env.theorem(target, ground.proof, ground.kept, two)
    } else {
        proof_term(target, step, symbols)
    }
}

// The proof term of a step with all its premises.
fn proof_term(target: &mut Module, step: OwnStep<'_>, symbols: &[usize]) -> Result<LpId, Memory>
    requires step { IsReady step target.old }
    requires symbols { step.id ≤ length symbols.now }
    requires kind { has_row (own_step step).kind ≡ true }
    requires told { IsProofTold step (own_step step) target.old }
    ensures made { IfOk result (IsProofOf step.entry symbols.now (own_step step.entry) target.old target.new) }
    ensures grows { Grows target.old target.new }
{
    let OwnStep { ground, id, .. } = step;
    let proof = ground.proof;
    proof.is_proof();
    match proof.kind(id) {
        StepKind::Axiom => unreachable!(),
        StepKind::Refl => refl(target, ground, id),
        StepKind::BetaConv => refl(target, ground, id),
        StepKind::DefineConst => refl(target, ground, id),
        StepKind::Assume => ground.env.hypothesis(target, proof.sequent(id).concl),
        StepKind::AbsThm => abs_proof(target, step, one_premise(proof, symbols, id)),
        StepKind::Sym => sym(target, ground, one_premise(proof, symbols, id)),
        StepKind::Subst => subst_proof(target, step, one_premise(proof, symbols, id)),
        StepKind::Restate => {
            let one = one_premise(proof, symbols, id);
            ground.env.theorem(target, proof, ground.kept, one)
        }
        StepKind::DefineConstList => list_proof(target, step, one_premise(proof, symbols, id)),
        StepKind::FirstLaw => first_law_proof(target, step, one_premise(proof, symbols, id)),
        StepKind::SecondLaw => second_law_proof(target, step, one_premise(proof, symbols, id)),
        StepKind::EqMp => {
            let (one, two) = two_premises(proof, symbols, id);
            eq_mp(target, ground, one, two)
        }
        StepKind::AppThm => {
            let (one, two) = two_premises(proof, symbols, id);
            app_thm(target, ground, id, one, two)
        }
        StepKind::DeductAntisym => {
            let (one, two) = two_premises(proof, symbols, id);
            deduct_proof(target, step, one, two)
        }
        StepKind::Trans => {
            let (one, two) = two_premises(proof, symbols, id);
            trans(target, ground, one, two)
        }
        StepKind::ProveHyp => {
            let (one, two) = two_premises(proof, symbols, id);
            prove_hyp(target, ground, one, two)
        }
    }
}

// That of `absThm`, with the environment under the binder of its variable.
fn abs_proof(target: &mut Module, step: OwnStep<'_>, one: Premise) -> Result<LpId, Memory>
    requires step { IsReady step target.old }
    requires kind { (own_step step).kind ≡ AbsThm }
    requires premise { (own_step step).premises ≡ one.id ∷ [] }
    requires one { one.id < step_count (proof_in step) }
    requires told { IsProofTold step (own_step step) target.old }
    ensures made { IfOk result (IsProofBy step.entry (one ∷ []) target.old target.new) }
    ensures grows { Grows target.old target.new }
{
    let ground = step.ground;
    ground.proof.is_proof();
    let Parameters::Variable(variable) = ground.proof.params(step.id) else {
        unreachable!()
    };
    let inner = under_variable(target, step, variable)?;
    abs_thm(target, ground, &inner, variable, one)
}

// That of `deductAntisym`, with the environments under the binders that prove the conclusions.
fn deduct_proof(
    target: &mut Module,
    step: OwnStep<'_>,
    one: Premise,
    two: Premise,
) -> Result<LpId, Memory>
    requires step { IsReady step target.old }
    requires kind { (own_step step).kind ≡ DeductAntisym }
    requires premises { (own_step step).premises ≡ one.id ∷ two.id ∷ [] }
    requires one { one.id < step_count (proof_in step) }
    requires two { two.id < step_count (proof_in step) }
    requires told { IsProofTold step (own_step step) target.old }
    ensures made { IfOk result (IsProofBy step.entry (one ∷ two ∷ []) target.old target.new) }
    ensures grows { Grows target.old target.new }
{
    let ground = step.ground;
    ground.proof.is_proof();
    let p = ground.proof.sequent(one.id).concl;
    let first = under_proof(target, step, p)?;
    let q = ground.proof.sequent(two.id).concl;
    let second = under_proof(target, step, q)?;
    deduct_antisym(target, ground, &first, &second, one, two)
}

// That of a substitution, by what the step was given.
fn subst_proof(target: &mut Module, step: OwnStep<'_>, one: Premise) -> Result<LpId, Memory>
    requires step { IsReady step target.old }
    requires kind { (own_step step).kind ≡ Subst }
    requires premise { (own_step step).premises ≡ one.id ∷ [] }
    requires one { one.id < step_count (proof_in step) }
    requires told { IsProofTold step (own_step step) target.old }
    ensures made { IfOk result (IsProofBy step.entry (one ∷ []) target.old target.new) }
    ensures grows { Grows target.old target.new }
{
    let ground = step.ground;
    ground.proof.is_proof();
    let Parameters::Subst(put) = ground.proof.params(step.id) else {
        unreachable!()
    };
    subst(target, ground, step.id, put.get(), one)
}

// That of a list of constants, by what the step was given.
fn list_proof(target: &mut Module, step: OwnStep<'_>, one: Premise) -> Result<LpId, Memory>
    requires step { IsReady step target.old }
    requires kind { (own_step step).kind ≡ DefineConstList }
    requires premise { (own_step step).premises ≡ one.id ∷ [] }
    requires one { one.id < step_count (proof_in step) }
    requires told { IsProofTold step (own_step step) target.old }
    ensures made { IfOk result (IsProofBy step.entry (one ∷ []) target.old target.new) }
    ensures grows { Grows target.old target.new }
{
    let ground = step.ground;
    ground.proof.is_proof();
    let Parameters::List(pairs) = ground.proof.params(step.id) else {
        unreachable!()
    };
    constant_list(target, ground, pairs, one)
}

// The version of the article in which a step was given a type operator.
fn law_version(proof: &Proof, id: StepId) -> Version
    requires id { id < step_count proof.now }
    requires operator { (version : AVersion) × IsOperatorStep version proof.now id }
    ensures { IsOperatorStep result proof.now id }
{
    let Parameters::TypeOp(given) = proof.params(id) else {
        unreachable!()
    };
    given.get().version
}

// That of the first law of a type definition, as the law is in the version of its article.
fn first_law_proof(target: &mut Module, step: OwnStep<'_>, one: Premise) -> Result<LpId, Memory>
    requires step { IsReady step target.old }
    requires kind { (own_step step).kind ≡ FirstLaw }
    requires premise { (own_step step).premises ≡ one.id ∷ [] }
    requires one { one.id < step_count (proof_in step) }
    requires told { IsProofTold step (own_step step) target.old }
    ensures made { IfOk result (IsProofBy step.entry (one ∷ []) target.old target.new) }
    ensures grows { Grows target.old target.new }
{
    let proof = step.ground.proof;
    proof.is_proof();
    match law_version(proof, step.id) {
        Version::Five => first_law_free_proof(target, step, one),
        Version::Six => first_law_bound_proof(target, step, one),
    }
}

// In version 5, with the environment of the sequent's type variables alone.
fn first_law_free_proof(
    target: &mut Module,
    step: OwnStep<'_>,
    one: Premise,
) -> Result<LpId, Memory>
    requires step { IsReady step target.old }
    requires kind { (own_step step).kind ≡ FirstLaw }
    requires premise { (own_step step).premises ≡ one.id ∷ [] }
    requires one { one.id < step_count (proof_in step) }
    requires law { IsFirstLawStep Five (proof_in step) step.id one.id }
    requires told { IsProofTold step (own_step step) target.old }
    ensures made { IfOk result (IsProofBy step.entry (one ∷ []) target.old target.new) }
    ensures grows { Grows target.old target.new }
{
    step.ground.proof.is_proof();
    let outer = outer_environment(target, step)?;
    first_law_free(target, step.ground, &outer, step.id, one)
}

// In version 6, with the environment under a binder.
fn first_law_bound_proof(
    target: &mut Module,
    step: OwnStep<'_>,
    one: Premise,
) -> Result<LpId, Memory>
    requires step { IsReady step target.old }
    requires kind { (own_step step).kind ≡ FirstLaw }
    requires premise { (own_step step).premises ≡ one.id ∷ [] }
    requires one { one.id < step_count (proof_in step) }
    requires law { IsFirstLawStep Six (proof_in step) step.id one.id }
    requires told { IsProofTold step (own_step step) target.old }
    ensures made { IfOk result (IsProofBy step.entry (one ∷ []) target.old target.new) }
    ensures grows { Grows target.old target.new }
{
    step.ground.proof.is_proof();
    let inner = under_binder(target, step)?;
    first_law(target, step.ground, &inner, step.id, one)
}

// That of the second law of a type definition, as the law is in the version of its article.
fn second_law_proof(target: &mut Module, step: OwnStep<'_>, one: Premise) -> Result<LpId, Memory>
    requires step { IsReady step target.old }
    requires kind { (own_step step).kind ≡ SecondLaw }
    requires premise { (own_step step).premises ≡ one.id ∷ [] }
    requires one { one.id < step_count (proof_in step) }
    requires told { IsProofTold step (own_step step) target.old }
    ensures made { IfOk result (IsProofBy step.entry (one ∷ []) target.old target.new) }
    ensures grows { Grows target.old target.new }
{
    let proof = step.ground.proof;
    proof.is_proof();
    match law_version(proof, step.id) {
        Version::Five => second_law_free_proof(target, step, one),
        Version::Six => second_law_bound_proof(target, step, one),
    }
}

// In version 5, with the environment of the sequent's type variables alone.
fn second_law_free_proof(
    target: &mut Module,
    step: OwnStep<'_>,
    one: Premise,
) -> Result<LpId, Memory>
    requires step { IsReady step target.old }
    requires kind { (own_step step).kind ≡ SecondLaw }
    requires premise { (own_step step).premises ≡ one.id ∷ [] }
    requires one { one.id < step_count (proof_in step) }
    requires law { IsSecondLawStep Five (proof_in step) step.id one.id }
    requires told { IsProofTold step (own_step step) target.old }
    ensures made { IfOk result (IsProofBy step.entry (one ∷ []) target.old target.new) }
    ensures grows { Grows target.old target.new }
{
    step.ground.proof.is_proof();
    let outer = outer_environment(target, step)?;
    second_law_free(target, step.ground, &outer, step.id, one)
}

// In version 6, with the environment under a binder.
fn second_law_bound_proof(
    target: &mut Module,
    step: OwnStep<'_>,
    one: Premise,
) -> Result<LpId, Memory>
    requires step { IsReady step target.old }
    requires kind { (own_step step).kind ≡ SecondLaw }
    requires premise { (own_step step).premises ≡ one.id ∷ [] }
    requires one { one.id < step_count (proof_in step) }
    requires law { IsSecondLawStep Six (proof_in step) step.id one.id }
    requires told { IsProofTold step (own_step step) target.old }
    ensures made { IfOk result (IsProofBy step.entry (one ∷ []) target.old target.new) }
    ensures grows { Grows target.old target.new }
{
    step.ground.proof.is_proof();
    let inner = under_binder(target, step)?;
    second_law(target, step.ground, &inner, step.id, one)
}
