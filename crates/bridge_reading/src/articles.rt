//! The articles of a run, one after another.
ghost use Rattle.std.specs.Prelude.{◌≡◌, ◌≤◌, IfOk, IfErr, OnOk};
ghost use Rattle.bridge_base.specs.Outside.{Rose, Begins, BeginsFront};
ghost use Rattle.article_spec.specs.Run.{accepted_state};
ghost use Rattle.article_spec.specs.State.{initial, last_version};
ghost use Rattle.bridge_spec.specs.Answers.{IsRunOf, IsRunOfVersion};
ghost use Rattle.bridge_spec.specs.Calls.{names_in};
ghost use Rattle.bridge_reading.specs.Stops.{Stops, StopsBegun, answer_of_stop, stop_of_halt};

use crate::reading::{Halt, read_article};
use bridge_answer::Answer;
use bridge_base::Shelf;
use common::{Kind, Memory};
use stack_machine::Machine;
use std::alloc::Global;

/// Why a run came to no end.
#[derive(Clone, Copy, Debug, PartialEq, Eq)]
pub enum Stop {
    /// This article, counted from 1, is refused at this line, counted from 1.
    Refused { article: u64, line: u64, kind: Kind },
    /// A file could not be read.
    ReadFault,
    /// There was no memory left.
    Memory,
}

impl Stop {
    /// What is answered for it.
    pub fn into_answer(self) -> Answer
        ensures { result ≡ answer_of_stop self }
    {
        match self {
            Stop::Refused {
                article,
                line,
                kind,
            } => Answer::Refused(article, line, kind),
            Stop::ReadFault => Answer::ReadFault,
            Stop::Memory => Answer::Memory,
        }
    }
}

/// The machine at the end of the articles in these files, in order: of their bytes, where the shelf tells them, and else of the bytes
/// that were read. It has the version of the last. The first article that is refused, or the first fault, ends the run, and no further file is begun.
pub fn read_articles<H: Shelf>(
    alloc: Global,
    files: &[String],
    shelf: &mut H,
) -> Result<Machine, Stop>
    ensures accepted { IfOk result (λ machine. IsRunOf (H.told shelf.old) (names_in files.now) (accepted_state machine)) }
    ensures version { IfOk result (λ machine. IsRunOfVersion (H.told shelf.old) (names_in files.now) (last_version machine.place) (accepted_state machine)) }
    ensures refused { IfErr result (λ stop. Stops stop (H.told shelf.old) (names_in files.now)) }
    ensures all_begun { OnOk result (Begins (H.begun shelf.old) (names_in files.now) (H.begun shelf.new)) }
    ensures refused_begun { IfErr result (λ stop. StopsBegun stop (H.begun shelf.old) (names_in files.now) (H.begun shelf.new)) }
    ensures front_begun { BeginsFront (H.begun shelf.old) (names_in files.now) (H.begun shelf.new) }
    ensures read_fault { IfErr result (λ stop. stop ≡ Stop.ReadFault → Rose (H.faults shelf.old) (H.faults shelf.new)) }
    ensures told_kept { H.told shelf.new ≡ H.told shelf.old }
    ensures count { H.faults shelf.old ≤ H.faults shelf.new }
{
    let mut machine = match Machine::new(alloc) {
        Ok(machine) => machine,
        Err(Memory) => return Err(Stop::Memory),
    };
    match run_articles(alloc, files, shelf, &mut machine) {
        Ok(()) => Ok(machine),
        Err(stop) => {
            drop(machine);
            Err(stop)
        }
    }
}

/// Lets the machine, which is before its first article, obey the articles in these files.
fn run_articles<H: Shelf>(
    alloc: Global,
    files: &[String],
    shelf: &mut H,
    machine: &mut Machine,
) -> Result<(), Stop>
    requires begun { machine.old ≡ initial }
    ensures accepted { OnOk result (IsRunOf (H.told shelf.old) (names_in files.now) (accepted_state machine.new)) }
    ensures version { OnOk result (IsRunOfVersion (H.told shelf.old) (names_in files.now) (last_version machine.new.place) (accepted_state machine.new)) }
    ensures refused { IfErr result (λ stop. Stops stop (H.told shelf.old) (names_in files.now)) }
    ensures all_begun { OnOk result (Begins (H.begun shelf.old) (names_in files.now) (H.begun shelf.new)) }
    ensures refused_begun { IfErr result (λ stop. StopsBegun stop (H.begun shelf.old) (names_in files.now) (H.begun shelf.new)) }
    ensures front_begun { BeginsFront (H.begun shelf.old) (names_in files.now) (H.begun shelf.new) }
    ensures read_fault { IfErr result (λ stop. stop ≡ Stop.ReadFault → Rose (H.faults shelf.old) (H.faults shelf.new)) }
    ensures told_kept { H.told shelf.new ≡ H.told shelf.old }
    ensures count { H.faults shelf.old ≤ H.faults shelf.new }
{
    let mut article = 0u64;
    for file in files {
        article += 1;
        if let Err(halt) = read_article(alloc, file.as_str(), shelf, machine) {
            return Err(stop_in(article, halt));
        }
    }
    Ok(())
}

/// The stop of a run for the halt of an article.
fn stop_in(article: u64, halt: Halt) -> Stop
    ensures { result ≡ stop_of_halt article halt }
{
    match halt {
        Halt::Refused(line, kind) => Stop::Refused {
            article,
            line,
            kind,
        },
        Halt::ReadFault => Stop::ReadFault,
        Halt::Memory => Stop::Memory,
    }
}
