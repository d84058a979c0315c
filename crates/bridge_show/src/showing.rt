//! What articles assume and export, as an answer.
ghost use Rattle.std.specs.Prelude.{◌≡◌, ◌<◌, ◌≤◌, ◌∷◌, ◌++◌, [], IfOk, OnOk};
ghost use Rattle.hol_spec.specs.ClosedForm.{closed_form};
ghost use Rattle.hol_spec.specs.Proofs.{sequent_at};
ghost use Rattle.article_spec.specs.Run.{accepted_state};
ghost use Rattle.sequent.specs.Closed.{closed_view};
ghost use Rattle.hol_rules.specs.Kept.{step_count};
ghost use Rattle.stack_machine.specs.Making.{AreSteps};
ghost use Rattle.bridge_spec.specs.Calls.{names_in, shelved};
ghost use Rattle.bridge_spec.specs.Answers.{AnswersShow};
ghost use Rattle.bridge_spec.specs.Begun.{BeginsFiles};
ghost use Rattle.bridge_spec.specs.Texts.{shown_text, theorem_line, theorem_lines};
ghost use Rattle.bridge_answer.specs.AnswerTexts.{status_of, text_of, note_of};

use bridge_answer::Answer;
use bridge_base::Shelf;
use bridge_reading::read_articles;
use common::Memory;
use hol_rules::{Proof, StepId};
use hol_text::append_closed;
use itoa::Buffer;
use sequent::Closed;
use stack_machine::Machine;
use std::alloc::Global;

/// What is to be answered for the articles in these files: what they assume and export where the machine accepts them.
pub fn shown<H: Shelf>(alloc: Global, files: &[String], shelf: &mut H) -> Answer
    ensures answers { AnswersShow (names_in files.now) (shelved H.told H.faults H.begun shelf.old shelf.new) (status_of result) (text_of result) (note_of result) }
    ensures begun { BeginsFiles (status_of result) (H.begun shelf.old) (names_in files.now) (H.begun shelf.new) }
    ensures told_kept { H.told shelf.new ≡ H.told shelf.old }
    ensures count { H.faults shelf.old ≤ H.faults shelf.new }
{
    match read_articles(alloc, files, shelf) {
        Ok(machine) => {
            let lines = lines_of(alloc, &machine);
            drop(machine);
            match lines {
                Ok(text) => Answer::Told(text),
                Err(Memory) => Answer::Memory,
            }
        }
        Err(stop) => stop.into_answer(),
    }
}

/// The lines of a run: its assumptions, then its exports.
fn lines_of(alloc: Global, machine: &Machine) -> Result<Vec<u8>, Memory>
    ensures { IfOk result (λ text. text.items ≡ shown_text (accepted_state machine.now)) }
{
    let proof = machine.proof();
    let assumptions = machine.assumptions();
    let exports = machine.exports();
    let mut text = Vec::new(alloc);
    add_theorems(alloc, &mut text, b"assumption ", proof, assumptions)?;
    add_theorems(alloc, &mut text, b"export ", proof, exports)?;
    Ok(text)
}

/// Adds a line for the theorem of each of these steps, numbered from 0.
fn add_theorems(
    alloc: Global,
    text: &mut Vec<u8>,
    what: &[u8],
    proof: &Proof,
    steps: &[StepId],
) -> Result<(), Memory>
    requires { AreSteps proof.now.made steps.now }
    ensures { OnOk result (text.new.items ≡ text.old.items ++ theorem_lines what.now proof.now.made 0 steps.now) }
{
    for (number, step) in steps.iter().enumerate() {
        add_theorem(alloc, text, what, number, proof, *step)?;
    }
    Ok(())
}

/// Adds the line for the theorem of a step.
fn add_theorem(
    alloc: Global,
    text: &mut Vec<u8>,
    what: &[u8],
    number: usize,
    proof: &Proof,
    step: StepId,
) -> Result<(), Memory>
    requires { step < step_count proof.now }
    ensures { OnOk result (text.new.items ≡ text.old.items ++ theorem_line what.now number (closed_form (sequent_at proof.now.made step))) }
{
    let closed = closed_of(alloc, proof, step)?;
    let added = add_line(alloc, text, what, number, &closed);
    drop(closed);
    added
}

/// Adds the line for a theorem: what it is, its number, and its closed text.
fn add_line(
    alloc: Global,
    text: &mut Vec<u8>,
    what: &[u8],
    number: usize,
    closed: &Closed,
) -> Result<(), Memory>
    ensures { OnOk result (text.new.items ≡ text.old.items ++ theorem_line what.now number (closed_view closed.now)) }
{
    let mut digits = Buffer::new();
    text.extend_from_slice(what)?;
    text.extend_from_slice(digits.format(number).as_bytes())?;
    text.extend_from_slice(b": ")?;
    append_closed(alloc, text, closed)?;
    text.extend_from_slice(b"\n")?;
    Ok(())
}

/// The closed form of what a step says.
fn closed_of(alloc: Global, proof: &Proof, step: StepId) -> Result<Closed, Memory>
    requires { step < step_count proof.now }
    ensures { IfOk result (λ closed. closed_view closed ≡ closed_form (sequent_at proof.now.made step)) }
{
    let sequent = proof.sequent(step);
    sequent.closed(alloc, proof.terms())
}
