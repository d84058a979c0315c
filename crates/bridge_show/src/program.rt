//! The part of the program for the words `show FILE..`.
ghost use Rattle.std.specs.Prelude.{Some};
ghost use Rattle.bridge_spec.specs.Forms.{show};
ghost use Rattle.bridge_spec.specs.Calls.{call, shelved, sunk, names_in};
ghost use Rattle.bridge_spec.specs.Promises.{Performs};

use crate::showing::shown;
use bridge_answer::deliver;
use bridge_base::{Shelf, Sink};
use bridge_spec::Status;
use std::alloc::Global;

/// Writes what the articles in these files assume and export to `out`, a line for each; or where a run of them is refused to
/// `note`.
pub fn show<H: Shelf, O: Sink, N: Sink>(
    alloc: Global,
    files: &[String],
    shelf: &mut H,
    out: &mut O,
    note: &mut N,
) -> Status
    ensures { Performs (call (Some (show (names_in files.now))) (shelved H.told H.faults H.begun shelf.old shelf.new) (sunk O.got O.faults out.old out.new)
        (sunk N.got N.faults note.old note.new)) result }
{
    let answer = shown(alloc, files, shelf);
    deliver(answer, out, note)
}
