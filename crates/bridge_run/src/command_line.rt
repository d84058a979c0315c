//! The program as one call, from the command line as the system gives it to the number with which the process ends.
ghost use Rattle.std.specs.Prelude.{◌≡◌, IfOk, IfErr};
ghost use Rattle.std.specs.IoError.{error_kind};
ghost use Rattle.bridge_spec.specs.Calls.{call, shelved, sunk, form_in};
ghost use Rattle.bridge_spec.specs.Promises.{Promise};
ghost use Rattle.bridge_answer.specs.AnswerTexts.{status_of};
ghost use Rattle.bridge_run.specs.CommandLine.{words_of, form_given, without_words, IsOrWriteFault, IsNumberOf, Ends};

use crate::program::bridge;
use bridge_answer::{Answer, deliver};
use bridge_base::{Shelf, Sink};
use bridge_spec::Status;
use std::alloc::{AllocError, Global};
use std::env::Args;
use std::io;
use std::io::ErrorKind;

/// All that the program does, for the words of its command line as the system gives them, and the number with which it ends.
///
/// Where it doesn't give them, nothing is read: a word that is not UTF-8 is in no form, and else memory was wanting.
pub fn run<H: Shelf, O: Sink, N: Sink>(
    alloc: Global,
    words: io::Result<Args>,
    shelf: &mut H,
    out: &mut O,
    note: &mut N,
) -> u8
    ensures ends { Ends (call (form_given words) (shelved H.told H.faults H.begun shelf.old shelf.new) (sunk O.got O.faults out.old out.new)
        (sunk N.got N.faults note.old note.new)) result }
    ensures without_words { IfErr words (λ error. IsNumberOf (status_of (without_words (error_kind error))) result) }
{
    answered(alloc, words, shelf, out, note).number()
}

/// What the program does for the words as the system gives them.
fn answered<H: Shelf, O: Sink, N: Sink>(
    alloc: Global,
    words: io::Result<Args>,
    shelf: &mut H,
    out: &mut O,
    note: &mut N,
) -> Status
    ensures promise { Promise (call (form_given words) (shelved H.told H.faults H.begun shelf.old shelf.new) (sunk O.got O.faults out.old out.new)
        (sunk N.got N.faults note.old note.new)) result }
    ensures without_words { IfErr words (λ error. IsOrWriteFault (status_of (without_words (error_kind error))) result) }
{
    match words {
        Ok(words) => run_words(alloc, words, shelf, out, note),
        Err(error) => deliver(without_words(error.kind()), out, note),
    }
}

/// What the program does for these words.
fn run_words<H: Shelf, O: Sink, N: Sink>(
    alloc: Global,
    words: Args,
    shelf: &mut H,
    out: &mut O,
    note: &mut N,
) -> Status
    ensures { Promise (call (form_in (words_of words)) (shelved H.told H.faults H.begun shelf.old shelf.new) (sunk O.got O.faults out.old out.new)
        (sunk N.got N.faults note.old note.new)) result }
{
    match listed(alloc, words) {
        Ok(words) => {
            let status = bridge(alloc, &words, shelf, out, note);
            drop(words);
            status
        }
        Err(AllocError) => deliver(Answer::Memory, out, note),
    }
}

/// The words as a list.
fn listed(alloc: Global, words: Args) -> Result<Vec<String>, AllocError>
    ensures { IfOk result (λ list. list.items ≡ words_of words) }
{
    let mut list = Vec::new(alloc);
    for word in words {
        list.push(word)?;
    }
    Ok(list)
}

/// What is to be answered where the system doesn't give the words for such an error.
fn without_words(kind: ErrorKind) -> Answer
    ensures { result ≡ without_words kind }
{
    match kind {
        ErrorKind::InvalidData => Answer::Usage,
        _ => Answer::Memory,
    }
}
