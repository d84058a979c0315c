//! The article of a run as text to a sink, and as a status.
ghost use Rattle.std.specs.Prelude.{◌≤◌, [], ℕ};
ghost use Rattle.hol_spec.specs.Proofs.{Accepted};
ghost use Rattle.hol_spec.specs.declared.Version.{Version as AVersion};
ghost use Rattle.article_spec.specs.Run.{accepted_state};
ghost use Rattle.article_spec.specs.State.{last_version};
ghost use Rattle.article_write_spec.specs.Article.{article as article_of};
ghost use Rattle.bridge_spec.specs.Calls.{sunk};
ghost use Rattle.bridge_spec.specs.Outputs.{Delivers};
ghost use Rattle.bridge_spec.specs.declared.status.Status.TheVariants.{Done};
ghost use Rattle.bridge_article.specs.Runs.{IsWritablePlan, DeliversRun};

use crate::planning::plan_of;
use article_write::{Plan, write};
use bridge_answer::deliver;
use bridge_base::{Sink, write_all};
use bridge_spec::Status;
use hol_rules::Proof;
use stack_machine::Machine;
use std::alloc::Global;

/// Writes one article of what the machine's articles export to `out`, of the version of the last; or to `note` why there is none. It is
/// planned before anything is written.
pub(crate) fn deliver_run<O: Sink, N: Sink>(
    alloc: Global,
    machine: &Machine,
    out: &mut O,
    note: &mut N,
) -> Status
    ensures delivered { DeliversRun (last_version machine.now.place) (accepted_state machine.now) (sunk O.got O.faults out.old out.new)
        (sunk N.got N.faults note.old note.new) result }
    ensures out_count { O.faults out.old ≤ O.faults out.new }
    ensures note_count { N.faults note.old ≤ N.faults note.new }
{
    let proof = machine.proof();
    let planned = plan_of(
        alloc,
        proof,
        machine.version(),
        machine.assumptions(),
        machine.exports(),
    );
    match planned {
        Ok(plan) => deliver_article(proof, plan, out, note),
        Err(answer) => deliver(answer, out, note),
    }
}

// Writes the article that is planned to `out`, and nothing to `note`. Where the output fails, the note says so, and the status is that
// of a write fault. It takes no memory.
fn deliver_article<O: Sink, N: Sink>(proof: &Proof, plan: Plan, out: &mut O, note: &mut N) -> Status
    requires { (version : AVersion) × (run : Accepted) × IsWritablePlan proof.now version run plan }
    ensures delivered { (version : AVersion) (run : Accepted) → IsWritablePlan proof.now version run plan
        → Delivers Done (article_of version run) [] (sunk O.got O.faults out.old out.new) (sunk N.got N.faults note.old note.new) result }
    ensures out_count { O.faults out.old ≤ O.faults out.new }
    ensures note_count { N.faults note.old ≤ N.faults note.new }
{
    if write(proof, plan, out).is_err() {
        let _ = write_all(note, b"write fault\n");
        return Status::WriteFault;
    }
    Status::Done
}
