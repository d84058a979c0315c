//! The part of the program for the words `check FILE`.
ghost use Rattle.std.specs.Prelude.{◌≡◌, Some};
ghost use Rattle.bridge_spec.specs.Forms.{check};
ghost use Rattle.bridge_spec.specs.Calls.{call, shelved, sunk};
ghost use Rattle.bridge_spec.specs.Promises.{Performs};

use crate::checking::checked;
use bridge_answer::deliver;
use bridge_base::{Shelf, Sink};
use bridge_spec::Status;
use std::alloc::Global;

/// Reads the module in the file and checks each of its declarations within the budget, without rechecks of sorts where that is to be
/// fast. Where it accepts them, `out` gains their counts, and else `note` gains why it doesn't.
pub fn check<H: Shelf, O: Sink, N: Sink>(
    alloc: Global,
    file: &str,
    budget: u64,
    fast: bool,
    shelf: &mut H,
    out: &mut O,
    note: &mut N,
) -> Status
    ensures { Performs (call (Some (check fast file.now budget)) (shelved H.told H.faults H.begun shelf.old shelf.new) (sunk O.got O.faults out.old out.new)
        (sunk N.got N.faults note.old note.new)) result }
{
    let answer = checked(alloc, file, budget, !fast, shelf);
    deliver(answer, out, note)
}
