//! The article that is planned, written.
ghost use Rattle.std.specs.Prelude.{◌≡◌, true};
ghost use Rattle.hol_spec.specs.declared.Version.{Version as AVersion};
ghost use Rattle.hol_spec.specs.Proofs.{Accepted};
ghost use Rattle.article_write_spec.specs.Article.{article};
ghost use Rattle.article_lines.specs.Writing.{Writes};
ghost use Rattle.article_write.specs.Plans.{IsPlanOf};

use crate::gathering::GatheringSink;
use crate::planned::Plan;
use article_steps::{Source, write_article};
use bridge_base::{Failed, Sink};
use core::mem::replace_with;
use hol_rules::Proof;

/// Writes the article that is planned, of the proof that it was planned of, and gives the plan up. The sink gains the text of the article,
/// or where the call fails a front of it; it fails only where the sink failed. It takes no memory. The sink gets the text by one call for
/// each 4,096 bytes of it, where it takes all that it is given.
pub fn write<S: Sink>(proof: &Proof, plan: Plan, sink: &mut S) -> Result<(), Failed>
    requires planned { (version : AVersion) × (run : Accepted) × IsPlanOf proof.now version run plan }
    requires fits { plan.fits ≡ true }
    ensures { (version : AVersion) (run : Accepted) → IsPlanOf proof.now version run plan
        → Writes (S.got sink.old) (S.faults sink.old) (article version run) (S.got sink.new) (S.faults sink.new) result }
{
    replace_with(sink, (proof, plan), write_gathered)
}

// Writes it to that sink, gathered, and gives the sink back.
fn write_gathered<S: Sink>(sink: S, given: (&Proof, Plan)) -> (S, Result<(), Failed>)
    requires planned { (version : AVersion) × (run : Accepted) × IsPlanOf given.0.now version run given.1 }
    requires fits { given.1.fits ≡ true }
    ensures { (version : AVersion) (run : Accepted) → IsPlanOf given.entry.0.now version run given.entry.1
        → Writes (S.got sink) (S.faults sink) (article version run) (S.got result.0) (S.faults result.0) result.1 }
{
    let (proof, plan) = given;
    let mut gathering = GatheringSink::new(sink);
    let outcome = write_planned(proof, plan, &mut gathering);
    gathering.finish(outcome)
}

// Writes it piece by piece.
fn write_planned<S: Sink>(proof: &Proof, plan: Plan, sink: &mut S) -> Result<(), Failed>
    requires planned { (version : AVersion) × (run : Accepted) × IsPlanOf proof.now version run plan }
    requires fits { plan.fits ≡ true }
    ensures { (version : AVersion) (run : Accepted) → IsPlanOf proof.now version run plan
        → Writes (S.got sink.old) (S.faults sink.old) (article version run) (S.got sink.new) (S.faults sink.new) result }
{
    let Plan {
        version,
        reach,
        mut keys,
        mut room,
        ..
    } = plan;
    let source = Source {
        proof,
        told: reach.told(),
        is_export: reach.is_export(),
        number: reach.number(),
    };
    write_article(version, source, &mut keys, &mut room, sink)
}
