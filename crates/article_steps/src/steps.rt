//! Steps: what their rules were given, their premises, the words of the rules, and the keys of their theorems.
ghost use Rattle.std.specs.Prelude.{◌≡◌, ◌≢◌, ◌<◌, length};
ghost use Rattle.std.specs.List.{AllByRecursion};
ghost use Rattle.hol_spec.specs.declared.StepKind.TheVariants.{SecondLaw};
ghost use Rattle.hol_rules.specs.Kept.{step_count};
ghost use Rattle.hol_rules.specs.Views.{step_at};
ghost use Rattle.article_write_spec.specs.Drafts.{write_each};
ghost use Rattle.article_write_spec.specs.WrittenSteps.{write_premise as premise_writer, keep_theorem as theorem_keeper, keep_made as made_keeper};
ghost use Rattle.article_lines.specs.declared.keys.Thing.TheVariants as thing;
ghost use Rattle.article_lines.specs.NewSteps.{AreNewLaws, IsNew, IsNewStep};
ghost use Rattle.article_lines.specs.Things.{with_thing};
ghost use Rattle.article_steps.specs.Left.{AddsInAny, AddsOfAny, AddsTo, IsOpen};
ghost use Rattle.article_steps.specs.SelectedSteps.{defined_keeper, laws_keeper};
ghost use Rattle.article_steps.specs.Sources.{assumption_of, export_of, given_of, inferred_of, step_of};

use crate::given::write_given;
use crate::room::Room;
use crate::sources::Source;
use crate::walk::keep;
use article_lines::keys::{Keys, Thing};
use article_lines::lines::{write_key, write_word};
use article_lines::rules::word_of;
use article_spec::Word;
use bridge_base::{Failed, Sink};
use hol_rules::{Proof, StepId};
use hol_spec::StepKind;

/// Writes a step.
pub(crate) fn write_step<S: Sink>(
    source: Source<'_, '_, '_>,
    id: StepId,
    keys: &mut Keys,
    room: &mut Room,
    sink: &mut S,
) -> Result<(), Failed>
    requires step { id < step_count source.proof.now }
    requires exports { length source.is_export.now ≡ step_count source.proof.now }
    requires ready { IsOpen source.proof.now.trees keys.old room.old.room }
    requires count { keys.old.theorems ≡ step_count source.proof.now }
    requires new { IsNewStep keys.old (step_at source.proof.now.made id).kind id }
    ensures { AddsTo S.got S.faults source.entry.proof.now.trees (step_of source.entry id) keys.old sink.old keys.new room.new.room sink.new result }
{
    match source.proof.kind(id) {
        StepKind::Axiom => write_assumption(source, id, keys, room, sink),
        StepKind::Restate => {
            if source.is_export[id] {
                write_export(source, id, keys, room, sink)
            } else {
                write_assumption(source, id, keys, room, sink)
            }
        }
        StepKind::SecondLaw => Ok(()),
        kind => write_inferred(source, id, kind, keys, room, sink),
    }
}

// Writes an export: its premise is below the sequent, and it leaves nothing.
fn write_export<S: Sink>(
    source: Source<'_, '_, '_>,
    id: StepId,
    keys: &mut Keys,
    room: &mut Room,
    sink: &mut S,
) -> Result<(), Failed>
    requires step { id < step_count source.proof.now }
    requires ready { IsOpen source.proof.now.trees keys.old room.old.room }
    requires count { keys.old.theorems ≡ step_count source.proof.now }
    ensures { AddsTo S.got S.faults source.entry.proof.now.trees (export_of source.entry id) keys.old sink.old keys.new room.new.room sink.new result }
{
    write_premises(source.proof, id, keys, sink)?;
    write_parameters(source, id, keys, room, sink)?;
    write_word(Word::Thm, sink)
}

// Writes an assumption, recorded or met again.
fn write_assumption<S: Sink>(
    source: Source<'_, '_, '_>,
    id: StepId,
    keys: &mut Keys,
    room: &mut Room,
    sink: &mut S,
) -> Result<(), Failed>
    requires step { id < step_count source.proof.now }
    requires ready { IsOpen source.proof.now.trees keys.old room.old.room }
    requires count { keys.old.theorems ≡ step_count source.proof.now }
    requires new { IsNew keys.old id }
    ensures { AddsTo S.got S.faults source.entry.proof.now.trees (assumption_of source.entry id) keys.old sink.old keys.new room.new.room sink.new result }
{
    write_parameters(source, id, keys, room, sink)?;
    write_word(Word::Axiom, sink)?;
    keep_theorem(id, keys, sink)
}

// Writes a step by a rule that infers or defines.
fn write_inferred<S: Sink>(
    source: Source<'_, '_, '_>,
    id: StepId,
    kind: StepKind,
    keys: &mut Keys,
    room: &mut Room,
    sink: &mut S,
) -> Result<(), Failed>
    requires step { id < step_count source.proof.now }
    requires kind { kind ≡ (step_at source.proof.now.made id).kind }
    requires other { kind ≢ SecondLaw }
    requires ready { IsOpen source.proof.now.trees keys.old room.old.room }
    requires count { keys.old.theorems ≡ step_count source.proof.now }
    requires new { IsNewStep keys.old kind id }
    ensures { AddsTo S.got S.faults source.entry.proof.now.trees (inferred_of source.entry id) keys.old sink.old keys.new room.new.room sink.new result }
{
    write_parameters(source, id, keys, room, sink)?;
    write_premises(source.proof, id, keys, sink)?;
    write_word(word_of(kind), sink)?;
    keep_made(kind, id, source.proof.len(), keys, sink)
}

// Writes what a step's rule was given beside its premises.
fn write_parameters<S: Sink>(
    source: Source<'_, '_, '_>,
    id: StepId,
    keys: &mut Keys,
    room: &mut Room,
    sink: &mut S,
) -> Result<(), Failed>
    requires step { id < step_count source.proof.now }
    requires ready { IsOpen source.proof.now.trees keys.old room.old.room }
    ensures { AddsTo S.got S.faults source.entry.proof.now.trees (given_of source.entry id) keys.old sink.old keys.new room.new.room sink.new result }
{
    source.proof.is_proof();
    write_given(
        source.proof.terms(),
        source.number,
        source.proof.params(id),
        keys,
        room,
        sink,
    )
}

// Tells the premises of a step by their keys.
fn write_premises<S: Sink>(
    proof: &Proof,
    id: StepId,
    keys: &Keys,
    sink: &mut S,
) -> Result<(), Failed>
    requires step { id < step_count proof.now }
    requires count { keys.now.theorems ≡ step_count proof.now }
    ensures { AddsInAny S.got S.faults proof.now.trees (write_each premise_writer (step_at proof.now.made id).premises)
        keys.now sink.old keys.now sink.new result }
{
    proof.is_proof();
    refer_to_all(proof.premises(id), keys, sink)
}

// Tells theorems by their keys.
fn refer_to_all<S: Sink>(ids: &[StepId], keys: &Keys, sink: &mut S) -> Result<(), Failed>
    requires { AllByRecursion (λ i. i < keys.now.theorems) ids.now }
    ensures { AddsOfAny S.got S.faults (write_each premise_writer ids.now) keys.now sink.old keys.now sink.new result }
{
    for id in ids {
        refer_to(*id, keys, sink)?;
    }
    Ok(())
}

// Tells a theorem by its key.
fn refer_to<S: Sink>(id: StepId, keys: &Keys, sink: &mut S) -> Result<(), Failed>
    requires { id < keys.now.theorems }
    ensures { AddsOfAny S.got S.faults (premise_writer id) keys.now sink.old keys.now sink.new result }
{
    let key = keys.key(Thing::Theorem(id)).unwrap_or(0);
    write_key(key, Word::Ref, sink)
}

// Keeps what a command made, from the top of the stack, and takes it away.
fn keep_made<S: Sink>(
    kind: StepKind,
    id: StepId,
    count: usize,
    keys: &mut Keys,
    sink: &mut S,
) -> Result<(), Failed>
    requires room { id < keys.old.theorems }
    requires count { keys.old.theorems ≡ count }
    requires new { IsNewStep keys.old kind id }
    requires other { kind ≢ SecondLaw }
    ensures { AddsOfAny S.got S.faults (made_keeper kind id) keys.old sink.old keys.new sink.new result }
{
    match kind {
        StepKind::DefineConst => keep_defined(id, keys, sink),
        StepKind::DefineConstList => keep_defined(id, keys, sink),
        StepKind::FirstLaw => keep_laws(id, count, keys, sink),
        _ => keep_theorem(id, keys, sink),
    }
}

// Keeps the theorem of a definition of constants, and takes it and them away.
fn keep_defined<S: Sink>(id: StepId, keys: &mut Keys, sink: &mut S) -> Result<(), Failed>
    requires room { id < keys.old.theorems }
    requires new { IsNew keys.old id }
    ensures { AddsOfAny S.got S.faults (defined_keeper id) keys.old sink.old keys.new sink.new result }
{
    keep_theorem(id, keys, sink)?;
    write_word(Word::Pop, sink)
}

// Keeps the two laws of a type definition, the second on top, and takes them away with what was defined.
fn keep_laws<S: Sink>(
    first: StepId,
    count: usize,
    keys: &mut Keys,
    sink: &mut S,
) -> Result<(), Failed>
    requires count { keys.old.theorems ≡ count }
    requires new { AreNewLaws keys.old first }
    ensures { AddsOfAny S.got S.faults (laws_keeper first) keys.old sink.old keys.new sink.new result }
{
    keep_theorem(first + 1, keys, sink)?;
    keep_theorem(first, keys, sink)?;
    write_word(Word::Pop, sink)?;
    write_word(Word::Pop, sink)?;
    write_word(Word::Pop, sink)
}

// Keeps a theorem that is on top of the stack, and takes it away.
fn keep_theorem<S: Sink>(id: StepId, keys: &mut Keys, sink: &mut S) -> Result<(), Failed>
    requires room { id < keys.old.theorems }
    requires new { IsNew keys.old id }
    ensures kept { keys.new ≡ with_thing (thing.Theorem id) keys.old }
    ensures adds { AddsOfAny S.got S.faults (theorem_keeper id) keys.old sink.old keys.new sink.new result }
{
    keep(Thing::Theorem(id), keys, sink)?;
    write_word(Word::Pop, sink)
}
