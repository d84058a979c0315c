//! Whether each first law of a type definition is followed by its second.
ghost use Rattle.std.specs.Prelude.{◌≡◌, ◌<◌, ◌+◌, IsTrue};
ghost use Rattle.hol_spec.specs.Proofs.{steps_of};
ghost use Rattle.hol_rules.specs.Kept.{step_count};
ghost use Rattle.article_lines.specs.Flagged.{ArePairs};
ghost use Rattle.article_write.specs.Pairs.{IsFollowed};

use hol_rules::{Proof, StepId};
use hol_spec::StepKind;

// Whether behind each first law stands the second.
pub(crate) fn are_paired(proof: &Proof) -> bool
    ensures { IsTrue result → ArePairs (steps_of proof.now.made) }
{
    for step in 0..proof.len() {
        if !is_followed(proof, step) {
            return false;
        }
    }
    true
}

// Whether a step is followed by a second law, if it is a first one.
fn is_followed(proof: &Proof, step: StepId) -> bool
    requires { step < step_count proof.now }
    ensures { IsTrue result → IsFollowed proof.now step }
{
    let count = proof.len();
    if proof.kind(step) != StepKind::FirstLaw {
        return true;
    }
    let next = step + 1;
    next < count && proof.kind(next) == StepKind::SecondLaw
}
