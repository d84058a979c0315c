//! The counts of a run as lines to two sinks, and as a status.
ghost use Rattle.std.specs.Prelude.{◌≤◌, []};
ghost use Rattle.bridge_spec.specs.Calls.{sunk};
ghost use Rattle.bridge_spec.specs.Outputs.{Delivers};
ghost use Rattle.bridge_spec.specs.Texts.{six_lines};
ghost use Rattle.bridge_spec.specs.declared.status.Status.TheVariants.{Done};
ghost use Rattle.bridge_translate.specs.Translations.{counts_in};

use bridge_base::{Sink, write_all};
use bridge_spec::Status;
use bridge_translate::{Counts, write_counts};

/// Writes the six lines of a run whose module was checked to `out`, and nothing to `note`. Where the output fails, the note says so, and the
/// status is that of a write fault. It takes no memory.
pub(crate) fn deliver_counts<O: Sink, N: Sink>(counts: &Counts, out: &mut O, note: &mut N) -> Status
    ensures delivered { Delivers Done (six_lines (counts_in counts.now)) [] (sunk O.got O.faults out.old out.new) (sunk N.got N.faults note.old note.new) result }
    ensures out_count { O.faults out.old ≤ O.faults out.new }
    ensures note_count { N.faults note.old ≤ N.faults note.new }
{
    if write_counts(out, counts, b"verified\n").is_err() {
        let _ = write_all(note, b"write fault\n");
        return Status::WriteFault;
    }
    Status::Done
}
