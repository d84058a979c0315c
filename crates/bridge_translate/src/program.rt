//! The part of the program for the words `translate [--share] FILE..`.
ghost use Rattle.std.specs.Prelude.{Some};
ghost use Rattle.bridge_spec.specs.Forms.{translate};
ghost use Rattle.bridge_spec.specs.Calls.{call, shelved, sunk, names_in};
ghost use Rattle.bridge_spec.specs.Promises.{Performs};

use crate::delivery::deliver_translation;
use crate::translation::translation_of;
use bridge_answer::deliver;
use bridge_base::{Shelf, Sink};
use bridge_spec::Status;
use std::alloc::Global;

/// Writes the module of the run of the articles in these files, with shared abbreviations or without, to `out`, and the counts of the
/// run to `note`; or where the run is refused to `note`.
pub fn translate<H: Shelf, O: Sink, N: Sink>(
    alloc: Global,
    files: &[String],
    share: bool,
    shelf: &mut H,
    out: &mut O,
    note: &mut N,
) -> Status
    ensures { Performs (call (Some (translate share (names_in files.now))) (shelved H.told H.faults H.begun shelf.old shelf.new)
        (sunk O.got O.faults out.old out.new) (sunk N.got N.faults note.old note.new)) result }
{
    match translation_of(alloc, files, share, shelf) {
        Ok(translation) => {
            let status = deliver_translation(alloc, &translation, b"", out, note);
            drop(translation);
            status
        }
        Err(stop) => deliver(stop.into_answer(), out, note),
    }
}
