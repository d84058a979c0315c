//! The part of the program for the words `trial N`.
ghost use Rattle.std.specs.Prelude.{ℕ, ◌<◌, ◌≤◌, List, Option, Some};
ghost use Rattle.bridge_base.specs.Outside.{Files};
ghost use Rattle.bridge_spec.specs.Forms.{greatest_trial, trial};
ghost use Rattle.bridge_spec.specs.Calls.{call, untouched, sunk};
ghost use Rattle.bridge_spec.specs.Promises.{Performs};

use crate::delivery::deliver_counts;
use crate::verification::verified;
use bridge_answer::deliver;
use bridge_base::Sink;
use bridge_spec::Status;
use std::alloc::Global;

/// Runs the generated article of `n` blocks, checks its module, and writes the counts of the run to `out`. No shelf is touched.
pub fn trial<O: Sink, N: Sink>(alloc: Global, n: u64, out: &mut O, note: &mut N) -> Status
    requires some { 0 < n }
    requires within { n ≤ greatest_trial }
    ensures { (told : Option Files) (faults : ℕ) (begun : Option (List (List ℕ)))
        → Performs (call (Some (trial n)) (untouched told faults begun) (sunk O.got O.faults out.old out.new) (sunk N.got N.faults note.old note.new)) result }
{
    match verified(alloc, n) {
        Ok(counts) => deliver_counts(&counts, out, note),
        Err(answer) => deliver(answer, out, note),
    }
}
