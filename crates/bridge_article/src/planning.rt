//! The plan of one article of what a run exports, before anything is written.
ghost use Rattle.std.specs.Prelude.{◌≡◌, ◌<◌, IfOk, IfErr, true, false};
ghost use Rattle.std.specs.List.{AllByRecursion};
ghost use Rattle.hol_rules.specs.Kept.{step_count};
ghost use Rattle.article_write.specs.Plans.{run_of};
ghost use Rattle.bridge_article.specs.Runs.{IsWritablePlan, IsHindered, IsShort, IsLong};

use article_write::{Plan, plan};
use bridge_answer::Answer;
use common::Memory;
use hol_rules::{Proof, StepId};
use hol_spec::Version;
use std::alloc::Global;

/// The most bytes that an article may have: those of the largest that is read.
const MAX_ARTICLE: u128 = 4_294_967_296;

/// The plan of an article of this version of what a run of the proof exports, if one article can say it; or what is to be answered.
pub(crate) fn plan_of(
    alloc: Global,
    proof: &Proof,
    version: Version,
    assumptions: &[StepId],
    exports: &[StepId],
) -> Result<Plan, Answer>
    requires { AllByRecursion (λ i. i < step_count proof.now) exports.now }
    ensures planned { IfOk result (IsWritablePlan proof.now version (run_of proof.now assumptions.now exports.now)) }
    ensures hindered { IfErr result (IsHindered version (run_of proof.now assumptions.now exports.now)) }
{
    match plan(alloc, proof, version, assumptions, exports) {
        Ok(made) => {
            if is_writable(&made) {
                return Ok(made);
            }
            drop(made);
            Err(Answer::Unwritable)
        }
        Err(Memory) => Err(Answer::Memory),
    }
}

// Whether one article can say what is planned, in as many bytes as an article may have.
fn is_writable(made: &Plan) -> bool
    ensures short { result ≡ true → IsShort made.now }
    ensures long { result ≡ false → IsLong made.now }
{
    made.fits() && made.len() <= MAX_ARTICLE
}
