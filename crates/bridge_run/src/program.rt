//! The program as one call.
ghost use Rattle.std.specs.Prelude.{Some};
ghost use Rattle.bridge_spec.specs.Calls.{call, shelved, sunk, form_in};
ghost use Rattle.bridge_spec.specs.Promises.{Performs, Promise};
ghost use Rattle.bridge_words.specs.Asked.{asked};
ghost use Rattle.bridge_run.specs.Blocks.{HasBlocks};

use bridge_answer::{Answer, deliver};
use bridge_article::article;
use bridge_base::{Shelf, Sink};
use bridge_check::check;
use bridge_decode::decode;
use bridge_show::show;
use bridge_spec::Status;
use bridge_translate::translate;
use bridge_trial::trial;
use bridge_verify::verify;
use bridge_words::{Form, form_of};
use common::Memory;
use std::alloc::Global;

/// All that the program does, for the words of its command line, of which the first is its name.
///
/// It reads files from `shelf`, writes what it was asked for to `out` and what there is to say to
/// `note`, and answers how it went. Nothing is written before the run is done, `out` comes before
/// `note`, and a failing write replaces whatever else was to be answered.
pub fn bridge<H: Shelf, O: Sink, N: Sink>(
    alloc: Global,
    words: &[String],
    shelf: &mut H,
    out: &mut O,
    note: &mut N,
) -> Status
    ensures { Promise (call (form_in words.now) (shelved H.told H.faults H.begun shelf.old shelf.new) (sunk O.got O.faults out.old out.new)
        (sunk N.got N.faults note.old note.new)) result }
{
    match form_of(alloc, words) {
        Ok(Some(form)) => {
            let status = answered(alloc, &form, shelf, out, note);
            drop(form);
            status
        }
        Ok(None) => deliver(Answer::Usage, out, note),
        Err(Memory) => deliver(Answer::Memory, out, note),
    }
}

/// What the program does for a form.
fn answered<H: Shelf, O: Sink, N: Sink>(
    alloc: Global,
    form: &Form<'_>,
    shelf: &mut H,
    out: &mut O,
    note: &mut N,
) -> Status
    requires { HasBlocks (Some (asked form.now)) }
    ensures { Performs (call (Some (asked form.now)) (shelved H.told H.faults H.begun shelf.old shelf.new) (sunk O.got O.faults out.old out.new)
        (sunk N.got N.faults note.old note.new)) result }
{
    match form {
        Form::Verify(share, fast, files) => verify(alloc, files, *share, *fast, shelf, out, note),
        Form::Translate(share, files) => translate(alloc, files, *share, shelf, out, note),
        Form::Check(fast, file, budget) => check(alloc, file, *budget, *fast, shelf, out, note),
        Form::Show(files) => show(alloc, files, shelf, out, note),
        Form::Decode(file) => decode(alloc, file, shelf, out, note),
        Form::Trial(n) => trial(alloc, *n, out, note),
        Form::Article(files) => article(alloc, files, shelf, out, note),
    }
}
