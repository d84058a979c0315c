//! The part of the program for the words `decode FILE`.
ghost use Rattle.std.specs.Prelude.{◌≡◌, Some};
ghost use Rattle.bridge_spec.specs.Forms.{decode};
ghost use Rattle.bridge_spec.specs.Calls.{call, shelved, sunk};
ghost use Rattle.bridge_spec.specs.Promises.{Performs};

use crate::decoding::decoded;
use bridge_answer::deliver;
use bridge_base::{Shelf, Sink};
use bridge_spec::Status;
use std::alloc::Global;

/// Reads the module in the file, and writes to `out` what each of its exports says, a line for each; or where the file is
/// refused, or an export says nothing, to `note`.
pub fn decode<H: Shelf, O: Sink, N: Sink>(
    alloc: Global,
    file: &str,
    shelf: &mut H,
    out: &mut O,
    note: &mut N,
) -> Status
    ensures { Performs (call (Some (decode file.now)) (shelved H.told H.faults H.begun shelf.old shelf.new) (sunk O.got O.faults out.old out.new)
        (sunk N.got N.faults note.old note.new)) result }
{
    let answer = decoded(alloc, file, shelf);
    deliver(answer, out, note)
}
