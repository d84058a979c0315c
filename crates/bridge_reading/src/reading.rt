//! An article read from a shelf, piece by piece, to its end.
ghost use Rattle.std.specs.Prelude.{◌≡◌, ◌≢◌, ◌≤◌, [], ◌∷◌, Ok, OnOk, IfOk, IfErr};
ghost use Rattle.bridge_base.specs.Outside.{Rose, Begins};
ghost use Rattle.hol_spec.specs.Mangling.{AreBytes};
ghost use Rattle.article_read.specs.Reading.{fresh};
ghost use Rattle.article_spec.specs.Results.{Fails};
ghost use Rattle.article_spec.specs.Run.{machine as the_machine, obey_all};
ghost use Rattle.article_spec.specs.Step.{step};
ghost use Rattle.bridge_reading.specs.Halts.{Halts, HaltsText, ReadsTo, OfText, Passes, bytes_told, halt_of_fault, halt_of_line};

use article_read::{Command, LineFault, Lines};
use bridge_base::{Failed, Shelf};
use common::{Fault, Kind};
use stack_machine::Machine;
use std::alloc::Global;

/// Why an article came to no end.
#[derive(Clone, Copy)]
pub(crate) enum Halt {
    /// The article is refused at this line.
    Refused(u64, Kind),
    ReadFault,
    Memory,
}

// Lets the machine obey the article in a file, of its bytes, where the shelf tells them, and else of the bytes that were read.
pub(crate) fn read_article<H: Shelf>(
    alloc: Global,
    file: &str,
    shelf: &mut H,
    machine: &mut Machine,
) -> Result<(), Halt>
    ensures passed { OnOk result (OfText (bytes_told (H.told shelf.old) file.now) (λ text. Passes text machine.old machine.new)) }
    ensures refused { IfErr result (λ halt. HaltsText halt (bytes_told (H.told shelf.old) file.now) machine.old) }
    ensures begun { Begins (H.begun shelf.old) (file.now ∷ []) (H.begun shelf.new) }
    ensures read_fault { IfErr result (λ halt. halt ≡ Halt.ReadFault → Rose (H.faults shelf.old) (H.faults shelf.new)) }
    ensures told_kept { H.told shelf.new ≡ H.told shelf.old }
    ensures count { H.faults shelf.old ≤ H.faults shelf.new }
{
    if shelf.begin(file).is_err() {
        return Err(Halt::ReadFault);
    }
    run_article(alloc, shelf, machine)
}

// Lets the machine obey the file begun, and ends the article.
fn run_article<H: Shelf>(alloc: Global, shelf: &mut H, machine: &mut Machine) -> Result<(), Halt>
    ensures passed { OnOk result (OfText (H.left shelf.old) (λ text. Passes text machine.old machine.new)) }
    ensures refused { IfErr result (λ halt. HaltsText halt (H.left shelf.old) machine.old) }
    ensures begun { H.begun shelf.new ≡ H.begun shelf.old }
    ensures read_fault { IfErr result (λ halt. halt ≡ Halt.ReadFault → Rose (H.faults shelf.old) (H.faults shelf.new)) }
    ensures told_kept { H.told shelf.new ≡ H.told shelf.old }
    ensures count { H.faults shelf.old ≤ H.faults shelf.new }
{
    read_commands(alloc, shelf, machine)?;
    machine.finish();
    Ok(())
}

// Gives the machine each command of the file begun.
fn read_commands<H: Shelf>(alloc: Global, shelf: &mut H, machine: &mut Machine) -> Result<(), Halt>
    ensures read { OnOk result (OfText (H.left shelf.old) (λ text. ReadsTo text machine.old machine.new)) }
    ensures refused { IfErr result (λ halt. HaltsText halt (H.left shelf.old) machine.old) }
    ensures begun { H.begun shelf.new ≡ H.begun shelf.old }
    ensures read_fault { IfErr result (λ halt. halt ≡ Halt.ReadFault → Rose (H.faults shelf.old) (H.faults shelf.new)) }
    ensures told_kept { H.told shelf.new ≡ H.told shelf.old }
    ensures count { H.faults shelf.old ≤ H.faults shelf.new }
{
    let mut lines = Lines::new(alloc);
    let mut commands = Vec::new(alloc);
    let read = read_lines(shelf, machine, &mut lines, &mut commands);
    drop(commands);
    drop(lines);
    read
}

// The same by lines that were fed nothing, with a list for the commands of a piece.
fn read_lines<H: Shelf>(
    shelf: &mut H,
    machine: &mut Machine,
    lines: &mut Lines,
    commands: &mut Vec<Command>,
) -> Result<(), Halt>
    requires { lines.old ≡ fresh }
    ensures read { OnOk result (OfText (H.left shelf.old) (λ text. ReadsTo text machine.old machine.new)) }
    ensures refused { IfErr result (λ halt. HaltsText halt (H.left shelf.old) machine.old) }
    ensures begun { H.begun shelf.new ≡ H.begun shelf.old }
    ensures read_fault { IfErr result (λ halt. halt ≡ Halt.ReadFault → Rose (H.faults shelf.old) (H.faults shelf.new)) }
    ensures told_kept { H.told shelf.new ≡ H.told shelf.old }
    ensures count { H.faults shelf.old ≤ H.faults shelf.new }
{
    let mut buffer = [0u8; 4096];
    loop {
        let count = match shelf.read(&mut buffer) {
            Ok(count) => count,
            Err(Failed) => return Err(Halt::ReadFault),
        };
        if count == 0 {
            break;
        }
        let piece = &buffer[..count];
        of_bytes(piece);
        commands.clear();
        let fed = lines.feed(piece, commands);
        run_all(machine, commands)?;
        if let Err(fault) = fed {
            return Err(halt_of(fault));
        }
    }
    commands.clear();
    let ended = lines.finish(commands);
    run_all(machine, commands)?;
    match ended {
        Ok(_) => Ok(()),
        Err(fault) => Err(halt_of(fault)),
    }
}

// Each number of a piece is a byte. A proof knows the range of what is read, so each is read, and nothing is done with it.
fn of_bytes(piece: &[u8])
    ensures { AreBytes piece.now }
{
    for byte in piece {
        let _byte = *byte;
    }
}

// Runs commands up to the first that is refused.
fn run_all(machine: &mut Machine, commands: &[Command]) -> Result<(), Halt>
    ensures obeyed { OnOk result (obey_all the_machine machine.old commands.now ≡ Ok machine.new) }
    ensures halted { IfErr result (λ halt. Halts halt (obey_all the_machine machine.old commands.now)) }
    ensures own { IfErr result (λ halt. halt ≢ Halt.ReadFault) }
{
    for command in commands {
        if let Err(fault) = machine.step(command) {
            return Err(halt_at(command.line, fault));
        }
    }
    Ok(())
}

// The halt for a fault of the machine at a line.
fn halt_at(line: u64, fault: Fault) -> Halt
    ensures halt { result ≡ halt_of_fault line fault }
    ensures own { result ≢ Halt.ReadFault }
{
    match fault {
        Fault::Refused(kind) => Halt::Refused(line, kind),
        Fault::Memory => Halt::Memory,
    }
}

// The halt for a faulty line.
fn halt_of(fault: LineFault) -> Halt
    ensures halt { result ≡ halt_of_line fault }
    ensures own { result ≢ Halt.ReadFault }
{
    match fault {
        LineFault::Refused { line, kind } => Halt::Refused(line, kind),
        LineFault::Memory => Halt::Memory,
    }
}
