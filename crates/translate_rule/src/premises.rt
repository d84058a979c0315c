//! The premises of a step, with the symbols of their declarations.
ghost use Rattle.std.specs.Prelude.{◌≡◌, ◌<◌, ◌≤◌, ◌∷◌, [], length, map, not};
ghost use Rattle.hol_spec.specs.Lists.{is_in};
ghost use Rattle.hol_spec.specs.Proofs.{sequent_at};
ghost use Rattle.hol_spec.specs.Terms.{term_eq};
ghost use Rattle.hol_rules.specs.Kept.{step_count};
ghost use Rattle.hol_rules.specs.Views.{step_at};
ghost use Rattle.translate_spec.specs.MadeItems.{proves_nothing as nothing_proved};
ghost use Rattle.translate_rule.specs.Steps.{AreTwo, IsOne, symbol_in};

use hol_rules::{Proof, StepId};
use hol_spec::StepKind;
use translate_proof::Premise;

// The one premise of a step.
pub(crate) fn one_premise(proof: &Proof, symbols: &[usize], id: StepId) -> Premise
    requires id { id < step_count proof.now }
    requires symbols { id ≤ length symbols.now }
    requires one { length (step_at proof.now.made id).premises ≡ 1 }
    ensures { IsOne proof.now symbols.now id result }
{
    proof.is_proof();
    with_symbol(symbols, only(proof.premises(id)))
}

// The two premises of a step.
pub(crate) fn two_premises(proof: &Proof, symbols: &[usize], id: StepId) -> (Premise, Premise)
    requires id { id < step_count proof.now }
    requires symbols { id ≤ length symbols.now }
    requires two { length (step_at proof.now.made id).premises ≡ 2 }
    ensures { AreTwo proof.now symbols.now id result.0 result.1 }
{
    proof.is_proof();
    let (one, two) = pair(proof.premises(id));
    (with_symbol(symbols, one), with_symbol(symbols, two))
}

// The one of these.
fn only(ids: &[StepId]) -> StepId
    requires { length ids.now ≡ 1 }
    ensures { ids.now ≡ result ∷ [] }
{
    ids[0]
}

// The two of these.
fn pair(ids: &[StepId]) -> (StepId, StepId)
    requires { length ids.now ≡ 2 }
    ensures { ids.now ≡ result.0 ∷ result.1 ∷ [] }
{
    (ids[0], ids[1])
}

// A step with the symbol of its declaration.
pub(crate) fn with_symbol(symbols: &[usize], id: StepId) -> Premise
    requires { id < length symbols.now }
    ensures id { result.id ≡ id }
    ensures symbol { result.symbol ≡ symbol_in symbols.now id }
{
    Premise {
        id,
        symbol: symbols[id],
    }
}

// Whether a step is by `proveHyp`, where its first premise proves no hypothesis of the second.
pub(crate) fn proves_nothing(proof: &Proof, id: StepId) -> bool
    requires { id < step_count proof.now }
    ensures { result ≡ nothing_proved (step_at proof.now.made id).kind (map (sequent_at proof.now.made) (step_at proof.now.made id).premises) }
{
    let StepKind::ProveHyp = proof.kind(id) else {
        return false;
    };
    proof.is_proof();
    let (one, two) = pair(proof.premises(id));
    lacks(proof, two, one)
}

// Whether a step has no hypothesis that another says.
fn lacks(proof: &Proof, id: StepId, other: StepId) -> bool
    requires id { id < step_count proof.now }
    requires other { other < step_count proof.now }
    ensures { result ≡ not (is_in term_eq (sequent_at proof.now.made other).conclusion (sequent_at proof.now.made id).hypotheses) }
{
    let formula = proof.sequent(other).concl;
    // No term of the table has two numbers.
    let _formula = proof.terms().view(formula);
    !proof.sequent(id).hyps.contains(formula)
}
