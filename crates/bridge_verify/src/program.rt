//! The part of the program for the words `verify FILE..`.
ghost use Rattle.std.specs.Prelude.{◌≡◌, ◌⊎◌, ◌≤◌, ◌++◌, Bool, Some, codes, length};
ghost use Rattle.holide_sig.specs.Modules.{declarations_of, IsHeld};
ghost use Rattle.lp_kernel.specs.Checks.{PassBelow};
ghost use Rattle.lp_spec.specs.Text.{written};
ghost use Rattle.bridge_answer.specs.AnswerTexts.{note_of, status_of, text_of};
ghost use Rattle.bridge_spec.specs.Forms.{verify};
ghost use Rattle.bridge_spec.specs.Calls.{call, shelved, sunk, names_in};
ghost use Rattle.bridge_spec.specs.Outputs.{Delivers};
ghost use Rattle.bridge_spec.specs.Promises.{Performs};
ghost use Rattle.bridge_spec.specs.Texts.{five_lines};
ghost use Rattle.bridge_spec.specs.declared.status.Status.TheVariants.{Done};
ghost use Rattle.bridge_translate.specs.Translations.{counts_in};

use crate::checking::check_back;
use bridge_answer::{Answer, deliver};
use bridge_base::{Shelf, Sink};
use bridge_spec::Status;
use bridge_translate::{Translation, deliver_translation, translation_of};
use std::alloc::Global;

/// Writes the module of the run of the articles in these files, with shared abbreviations or without, to `out`, once it was read back from
/// its text and checked, and the counts of the run to `note`; or where the run is refused to `note`. Where it is to be fast, the check is
/// one without rechecks of sorts.
pub fn verify<H: Shelf, O: Sink, N: Sink>(
    alloc: Global,
    files: &[String],
    share: bool,
    fast: bool,
    shelf: &mut H,
    out: &mut O,
    note: &mut N,
) -> Status
    ensures { Performs (call (Some (verify share fast (names_in files.now))) (shelved H.told H.faults H.begun shelf.old shelf.new)
        (sunk O.got O.faults out.old out.new) (sunk N.got N.faults note.old note.new)) result }
{
    match translation_of(alloc, files, share, shelf) {
        Ok(mut translation) => match check_back(alloc, &mut translation, fast) {
            Ok(()) => deliver_verified(alloc, &translation, out, note),
            Err(answer) => deliver(answer, out, note),
        },
        Err(stop) => deliver(stop.into_answer(), out, note),
    }
}

// Writes a module that the check accepted, and then its counts and the line that says so. Want of memory is answered before anything is
// written.
fn deliver_verified<O: Sink, N: Sink>(
    alloc: Global,
    translation: &Translation,
    out: &mut O,
    note: &mut N,
) -> Status
    requires accepted { (rechecks : Bool) × PassBelow rechecks (declarations_of translation.now.module) (length (declarations_of translation.now.module)) }
    requires held { IsHeld translation.now.module }
    requires bounds { length translation.now.bounds.items ≡ length translation.now.module.decls }
    ensures delivered { Delivers Done (written (declarations_of translation.now.module) translation.now.bounds.items) (five_lines (counts_in translation.now.counts) ++ codes "verified\n") (sunk O.got O.faults out.old out.new) (sunk N.got N.faults note.old note.new) result
        ⊎ Delivers (status_of Answer.Memory) (text_of Answer.Memory) (note_of Answer.Memory) (sunk O.got O.faults out.old out.new) (sunk N.got N.faults note.old note.new) result }
    ensures out_count { O.faults out.old ≤ O.faults out.new }
    ensures note_count { N.faults note.old ≤ N.faults note.new }
{
    deliver_translation(alloc, translation, b"verified\n", out, note)
}
