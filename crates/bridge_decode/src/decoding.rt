//! What the exports of the module in a file say, as an answer.
ghost use Rattle.std.specs.Prelude.{◌≡◌, ◌≤◌, [], ◌∷◌};
ghost use Rattle.bridge_base.specs.Outside.{Begins};
ghost use Rattle.holide_sig.specs.Modules.{declarations_of, IsHeld};
ghost use Rattle.bridge_spec.specs.Calls.{shelved};
ghost use Rattle.bridge_spec.specs.Answers.{AnswersDecode};
ghost use Rattle.bridge_answer.specs.AnswerTexts.{status_of, text_of, note_of};
ghost use Rattle.bridge_decode.specs.Saying.{IsAnswer};

use crate::exports::{Said, exports_said};
use bridge_answer::Answer;
use bridge_base::Shelf;
use bridge_module::{Stop, read_module};
use common::Memory;
use holide_sig::Module;
use std::alloc::Global;

/// What is to be answered for the module in a file.
pub fn decoded<H: Shelf>(alloc: Global, file: &str, shelf: &mut H) -> Answer
    ensures answers { AnswersDecode file.now (shelved H.told H.faults H.begun shelf.old shelf.new) (status_of result) (text_of result) (note_of result) }
    ensures told_kept { H.told shelf.new ≡ H.told shelf.old }
    ensures begun { Begins (H.begun shelf.old) (file.now ∷ []) (H.begun shelf.new) }
    ensures count { H.faults shelf.old ≤ H.faults shelf.new }
{
    match read_module(alloc, file, shelf) {
        Ok(source) => {
            let answer = answered(alloc, &source);
            let_go(source);
            answer
        }
        Err(Stop::Refused(place, kind)) => Answer::DkRefused(place, kind),
        Err(Stop::ReadFault) => Answer::ReadFault,
        Err(Stop::Memory) => Answer::Memory,
    }
}

/// What is to be answered for a module.
fn answered(alloc: Global, source: &Module) -> Answer
    requires { IsHeld source.now }
    ensures { IsAnswer (declarations_of source.now) result }
{
    match exports_said(alloc, source) {
        Ok(Said::Lines(text)) => Answer::Told(text),
        Ok(Said::Nothing(i)) => Answer::NotSequent(i as u64),
        Err(Memory) => Answer::Memory,
    }
}

/// Lets a module go.
fn let_go(_module: Module) {}
