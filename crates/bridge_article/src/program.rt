//! The part of the program for the words `article FILE..`.
ghost use Rattle.std.specs.Prelude.{Some};
ghost use Rattle.bridge_spec.specs.Forms.{Form};
ghost use Rattle.bridge_spec.specs.Calls.{call, shelved, sunk, names_in};
ghost use Rattle.bridge_spec.specs.Promises.{Performs};

use crate::delivery::deliver_run;
use bridge_answer::deliver;
use bridge_base::{Shelf, Sink};
use bridge_reading::read_articles;
use bridge_spec::Status;
use std::alloc::Global;

/// Writes one article of what the run of the articles in these files exports to `out`, of the version of the last of them; or where
/// the run is refused, or no one article can say it, to `note`.
pub fn article<H: Shelf, O: Sink, N: Sink>(
    alloc: Global,
    files: &[String],
    shelf: &mut H,
    out: &mut O,
    note: &mut N,
) -> Status
    ensures { Performs (call (Some (Form.article (names_in files.now))) (shelved H.told H.faults H.begun shelf.old shelf.new)
        (sunk O.got O.faults out.old out.new) (sunk N.got N.faults note.old note.new)) result }
{
    match read_articles(alloc, files, shelf) {
        Ok(machine) => {
            let status = deliver_run(alloc, &machine, out, note);
            drop(machine);
            status
        }
        Err(stop) => deliver(stop.into_answer(), out, note),
    }
}
