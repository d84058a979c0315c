//! The plan of an article.
ghost use Rattle.std.specs.Prelude.{◌<◌, IfOk};
ghost use Rattle.std.specs.List.{AllByRecursion};
ghost use Rattle.hol_rules.specs.Kept.{step_count};
ghost use Rattle.article_write.specs.Plans.{run_of, IsPlanOf};

use crate::fitting::is_fitting;
use crate::pairs::are_paired;
use crate::planned::Plan;
use article_count::article_length;
use article_lines::keys::Keys;
use article_reach::reach;
use article_steps::Room;
use common::Memory;
use hol_rules::{Proof, StepId};
use hol_spec::Version;
use std::alloc::Global;

/// The plan of the article of a version that says again what a run exports, of its proof, its assumptions and its exports. Memory is
/// wanting too where the first law of a type definition isn't followed by the second, which is so in no proof that a machine made.
pub fn plan(
    alloc: Global,
    proof: &Proof,
    version: Version,
    assumptions: &[StepId],
    exports: &[StepId],
) -> Result<Plan, Memory>
    requires exports { AllByRecursion (λ i. i < step_count proof.now) exports.now }
    ensures planned { IfOk result (λ plan. IsPlanOf proof.now version (run_of proof.now assumptions.now exports.now) plan) }
{
    // No assumption is read: those that are told are steps.
    let _ = assumptions;
    if !are_paired(proof) {
        return Err(Memory);
    }
    proof.is_proof();
    let terms = proof.terms();
    let keys = Keys::new(alloc, terms.types().count(), terms.count(), proof.len())?;
    let room = Room::new(alloc, terms)?;
    let reach = reach(alloc, proof, exports)?;
    let fits = is_fitting(proof, version, reach.told(), reach.is_export());
    let count = article_length(
        alloc,
        proof,
        version,
        reach.told(),
        reach.is_export(),
        reach.number(),
    )?;
    Ok(Plan {
        version,
        reach,
        fits,
        count,
        keys,
        room,
    })
}
