//! A translation as texts to two sinks, and as a status.
ghost use Rattle.std.specs.Prelude.{◌≡◌, ◌⊎◌, ◌≤◌, ◌++◌, length, OnOk, OnErr};
ghost use Rattle.bridge_base.specs.Outside.{HasCause, Gains, GainsFront};
ghost use Rattle.bridge_answer.specs.AnswerTexts.{note_of, status_of, text_of};
ghost use Rattle.dk_write.specs.Shallow.{AreWithin};
ghost use Rattle.holide_sig.specs.Modules.{declarations_of, IsHeld};
ghost use Rattle.lp_spec.specs.Text.{written};
ghost use Rattle.bridge_spec.specs.Calls.{sunk};
ghost use Rattle.bridge_spec.specs.Outputs.{Delivers};
ghost use Rattle.bridge_spec.specs.Texts.{five_lines};
ghost use Rattle.bridge_spec.specs.declared.status.Status.TheVariants.{Done};
ghost use Rattle.bridge_translate.specs.Translations.{counts_in};

use crate::translation::{Counts, Translation};
use bridge_answer::{Answer, deliver, write_parts};
use bridge_base::{Failed, Sink, write_all};
use bridge_spec::Status;
use common::Memory;
use dk_write::{Path, write};
use itoa::Buffer;
use std::alloc::Global;

/// Writes the module, each theorem with its bound, to `out`, and then its counts and a last line to `note`. Where the output fails, the
/// note says so; where either fails, the status is that of a write fault. Memory is taken before anything is written, and its want is
/// answered.
pub fn deliver_translation<O: Sink, N: Sink>(
    alloc: Global,
    translation: &Translation,
    last: &[u8],
    out: &mut O,
    note: &mut N,
) -> Status
    requires held { IsHeld translation.now.module }
    requires bounds { length translation.now.bounds.items ≡ length translation.now.module.decls }
    ensures delivered { Delivers Done (written (declarations_of translation.now.module) translation.now.bounds.items) (five_lines (counts_in translation.now.counts) ++ last.now) (sunk O.got O.faults out.old out.new) (sunk N.got N.faults note.old note.new) result
        ⊎ Delivers (status_of Answer.Memory) (text_of Answer.Memory) (note_of Answer.Memory) (sunk O.got O.faults out.old out.new) (sunk N.got N.faults note.old note.new) result }
    ensures out_count { O.faults out.old ≤ O.faults out.new }
    ensures note_count { N.faults note.old ≤ N.faults note.new }
{
    match Path::new(alloc, &translation.module) {
        Ok(mut path) => write_translation(translation, &mut path, last, out, note),
        Err(Memory) => deliver(Answer::Memory, out, note),
    }
}

// Writes them along a path that has room for the module.
fn write_translation<O: Sink, N: Sink>(
    translation: &Translation,
    path: &mut Path,
    last: &[u8],
    out: &mut O,
    note: &mut N,
) -> Status
    requires held { IsHeld translation.now.module }
    requires bounds { length translation.now.bounds.items ≡ length translation.now.module.decls }
    requires room { AreWithin path.old.room translation.now.module.table translation.now.module.decls }
    ensures delivered { Delivers Done (written (declarations_of translation.now.module) translation.now.bounds.items)
        (five_lines (counts_in translation.now.counts) ++ last.now) (sunk O.got O.faults out.old out.new) (sunk N.got N.faults note.old note.new) result }
    ensures out_count { O.faults out.old ≤ O.faults out.new }
    ensures note_count { N.faults note.old ≤ N.faults note.new }
{
    if write(&translation.module, &translation.bounds, path, out).is_err() {
        let _ = write_all(note, b"write fault\n");
        return Status::WriteFault;
    }
    if write_counts(note, &translation.counts, last).is_err() {
        return Status::WriteFault;
    }
    Status::Done
}

/// Writes the lines of the counts, and a last line. It takes no memory.
pub fn write_counts<N: Sink>(note: &mut N, counts: &Counts, last: &[u8]) -> Result<(), Failed>
    ensures ok { OnOk result (Gains (N.got note.old) (five_lines (counts_in counts.now) ++ last.now) (N.got note.new)) }
    ensures err { OnErr result (GainsFront (N.got note.old) (five_lines (counts_in counts.now) ++ last.now) (N.got note.new)) }
    ensures cause { HasCause (N.faults note.old) (N.faults note.new) result }
{
    let mut articles = Buffer::new();
    let mut assumptions = Buffer::new();
    let mut exports = Buffer::new();
    let mut declarations = Buffer::new();
    let mut bounds = Buffer::new();
    write_parts(
        note,
        &[
            b"articles ",
            articles.format(counts.articles).as_bytes(),
            b"\nassumptions ",
            assumptions.format(counts.assumptions).as_bytes(),
            b"\nexports ",
            exports.format(counts.exports).as_bytes(),
            b"\ndeclarations ",
            declarations.format(counts.declarations).as_bytes(),
            b"\nbounds ",
            bounds.format(counts.bounds).as_bytes(),
            b"\n",
            last,
        ],
    )
}
