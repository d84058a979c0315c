//! An article: what it begins with, and its steps in order.
ghost use Rattle.std.specs.Prelude.{◌≡◌, ◌<◌, ℕ, List, length};
ghost use Rattle.hol_spec.specs.Proofs.{steps_of};
ghost use Rattle.hol_rules.specs.Kept.{step_count};
ghost use Rattle.hol_rules.specs.Views.{step_at};
ghost use Rattle.article_write_spec.specs.ItemTexts.{text_of};
ghost use Rattle.article_write_spec.specs.Article.{version_items};
ghost use Rattle.article_lines.specs.Flagged.{ArePairs};
ghost use Rattle.article_lines.specs.NewSteps.{IsNewStep};
ghost use Rattle.article_lines.specs.Things.{none_keyed};
ghost use Rattle.article_lines.specs.Writing.{Writes, WritesTo};
ghost use Rattle.article_steps.specs.Agendas.{IsRoomy};
ghost use Rattle.article_steps.specs.Left.{AddsTo, IsOpen};
ghost use Rattle.article_steps.specs.Sources.{all_told, told_of, told_text, AreExportsOf};
ghost use Rattle.article_steps.specs.TheoremKeys.{AreNewFrom};

use crate::room::Room;
use crate::sources::Source;
use crate::steps::write_step;
use article_lines::keys::{Keys, are_distinct};
use article_lines::lines::write_key;
use article_spec::Word;
use bridge_base::{Failed, Sink};
use hol_rules::StepId;
use hol_spec::Version;

/// Writes the article of the steps that are told, with this number in the names of binders. It takes no memory.
pub fn write_article<S: Sink>(
    version: Version,
    source: Source<'_, '_, '_>,
    keys: &mut Keys,
    room: &mut Room,
    sink: &mut S,
) -> Result<(), Failed>
    requires told { length source.told.now ≡ step_count source.proof.now }
    requires exports { length source.is_export.now ≡ step_count source.proof.now }
    requires pairs { ArePairs (steps_of source.proof.now.made) }
    requires keys { keys.old ≡ none_keyed (length source.proof.now.trees.types) (length source.proof.now.trees.terms) (step_count source.proof.now) }
    requires room { IsRoomy source.proof.now.trees room.old.room }
    ensures { (exports : List ℕ) → AreExportsOf source.entry exports
        → WritesTo S.got S.faults (told_text source.entry version exports) sink.old sink.new result }
{
    are_distinct(source.proof.terms());
    write_version(version, sink)?;
    write_steps(source, keys, room, sink)
}

// Writes what an article of a version begins with.
fn write_version<S: Sink>(version: Version, sink: &mut S) -> Result<(), Failed>
    ensures { Writes (S.got sink.old) (S.faults sink.old) (text_of (version_items version)) (S.got sink.new) (S.faults sink.new) result }
{
    match version {
        Version::Five => Ok(()),
        Version::Six => write_key(6, Word::Version, sink),
    }
}

// Writes the steps that are told, where no theorem has a key.
fn write_steps<S: Sink>(
    source: Source<'_, '_, '_>,
    keys: &mut Keys,
    room: &mut Room,
    sink: &mut S,
) -> Result<(), Failed>
    requires told { length source.told.now ≡ step_count source.proof.now }
    requires exports { length source.is_export.now ≡ step_count source.proof.now }
    requires pairs { ArePairs (steps_of source.proof.now.made) }
    requires ready { IsOpen source.proof.now.trees keys.old room.old.room }
    requires count { keys.old.theorems ≡ step_count source.proof.now }
    requires new { AreNewFrom (steps_of source.proof.now.made) keys.old 0 }
    ensures { AddsTo S.got S.faults source.entry.proof.now.trees (all_told source.entry) keys.old sink.old keys.new room.new.room sink.new result }
{
    for id in 0..source.told.len() {
        write_told(source, id, keys, room, sink)?;
    }
    Ok(())
}

// Writes a step if it is told.
fn write_told<S: Sink>(
    source: Source<'_, '_, '_>,
    id: StepId,
    keys: &mut Keys,
    room: &mut Room,
    sink: &mut S,
) -> Result<(), Failed>
    requires step { id < step_count source.proof.now }
    requires told { length source.told.now ≡ step_count source.proof.now }
    requires exports { length source.is_export.now ≡ step_count source.proof.now }
    requires ready { IsOpen source.proof.now.trees keys.old room.old.room }
    requires count { keys.old.theorems ≡ step_count source.proof.now }
    requires new { IsNewStep keys.old (step_at source.proof.now.made id).kind id }
    ensures { AddsTo S.got S.faults source.entry.proof.now.trees (told_of source.entry id) keys.old sink.old keys.new room.new.room sink.new result }
{
    if source.told[id] {
        return write_step(source, id, keys, room, sink);
    }
    Ok(())
}
