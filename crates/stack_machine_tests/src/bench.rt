//! A machine that obeys articles, with the few objects that the tests speak of, and what it made.
use article_read::{LineFault, Lines};
use article_spec::Command;
use common::{Fault, Kind};
use hol_defs::SymbolKind;
use hol_name::Name;
use hol_rules::StepId;
use hol_spec::StepKind;
use stack_machine::Machine;
use std::alloc::Global;

// What stands under the keys: the type `bool` under 0, the terms p and q under 1 and 2, equality of truth values under
// 3, p as a variable under 4, equality of predicates under 5, the type of predicates under 6, the terms p = q and
// p = p under 7 and 8, and the identity, p => p, under 9. Blanks stand for the ends of lines.
const TYPES: &[u8] =
    b"\"bool\" typeOp nil opType 0 def pop \"->\" typeOp 0 ref 0 ref nil cons cons opType 6 def pop \"p\" 0 ref var 4 def varTerm 1 def pop \"q\" 0 ref var varTerm 2 def pop";

const EQUALITIES: &[u8] =
    b"\"=\" const \"->\" typeOp 0 ref 6 ref nil cons cons opType constTerm 3 def pop \"=\" const \"->\" typeOp 6 ref \"->\" typeOp 6 ref 0 ref nil cons cons opType nil cons cons opType constTerm 5 def pop";

const TERMS: &[u8] =
    b"3 ref 1 ref appTerm 2 ref appTerm 7 def pop 3 ref 1 ref appTerm 1 ref appTerm 8 def pop 4 ref 1 ref absTerm 9 def pop";

/// How a name is taken, as a constant and as an operator.
pub(crate) type Kinds = (Option<SymbolKind>, Option<SymbolKind>);

/// A text, and how often it stands.
pub(crate) type Part<'a> = (u32, &'a [u8]);

/// How an article ran: how many lines it has, and how it ended.
#[derive(Clone, Copy)]
pub(crate) struct Ran {
    pub(crate) lines: u64,
    pub(crate) end: Result<(), LineFault>,
}

/// A machine, the lines of its article, and the text and the commands that were read last.
#[derive(Drop)]
pub(crate) struct Bench {
    machine: Machine,
    lines: Lines,
    text: Vec<u8>,
    commands: Vec<Command>,
    alloc: Global,
}

impl Bench {
    /// A machine before its first article.
    pub(crate) fn new(alloc: Global) -> Result<Bench, LineFault> {
        match Machine::new(alloc) {
            Ok(machine) => Ok(Bench {
                machine,
                lines: Lines::new(alloc),
                text: Vec::new(alloc),
                commands: Vec::new(alloc),
                alloc,
            }),
            Err(_) => Err(LineFault::Memory),
        }
    }

    /// Obeys the beginning of an article of version 6.
    pub(crate) fn begin(&mut self) -> Result<(), LineFault> {
        self.obey(b"6 version")?;
        self.begin_body()
    }

    /// Obeys the beginning of a body.
    pub(crate) fn begin_body(&mut self) -> Result<(), LineFault> {
        self.obey(TYPES)?;
        self.obey(EQUALITIES)?;
        self.obey(TERMS)
    }

    /// Obeys commands, up to the first that is refused. Blanks stand for the ends of lines.
    pub(crate) fn obey(&mut self, words: &[u8]) -> Result<(), LineFault> {
        self.read(words)?;
        obey_all(&mut self.machine, &self.commands)
    }

    /// Obeys commands so many times.
    pub(crate) fn repeat(&mut self, times: u32, words: &[u8]) -> Result<(), LineFault> {
        for _ in 0..times {
            self.obey(words)?;
        }
        Ok(())
    }

    /// Ends the article.
    pub(crate) fn end(&mut self) -> Result<(), LineFault> {
        self.commands.clear();
        self.lines.finish(&mut self.commands)?;
        self.machine.finish();
        Ok(())
    }

    /// Whether the commands but the last are obeyed, and the last is refused for this reason, at its line.
    pub(crate) fn is_refused(&mut self, words: &[u8], kind: Kind) -> Result<bool, LineFault> {
        self.read(words)?;
        is_last_refused(&mut self.machine, &self.commands, kind)
    }

    /// Runs an article that comes in pieces of this size.
    pub(crate) fn run(&mut self, text: &[u8], size: usize) -> Result<(), LineFault> {
        run(
            &mut self.machine,
            &mut self.lines,
            &mut self.commands,
            text,
            size,
        )
    }

    /// Runs an article of these parts, one after another, and says how many lines it has.
    pub(crate) fn run_parts(&mut self, parts: &[Part]) -> Result<Ran, LineFault> {
        write_parts(&mut self.text, parts)?;
        let lines = line_count(&self.text);
        let end = run(
            &mut self.machine,
            &mut self.lines,
            &mut self.commands,
            &self.text,
            4096,
        );
        Ok(Ran { lines, end })
    }

    /// Whether the assumptions and the exports are these, and there are so many steps.
    pub(crate) fn has_made(
        &self,
        assumptions: &[StepId],
        exports: &[StepId],
        steps: usize,
    ) -> bool {
        self.machine.assumptions() == assumptions
            && self.machine.exports() == exports
            && self.machine.proof().len() == steps
    }

    /// Whether a step was made by this rule of these steps, and has so many hypotheses.
    pub(crate) fn is_by(
        &self,
        id: StepId,
        kind: StepKind,
        premises: &[StepId],
        hyps: usize,
    ) -> bool {
        let proof = self.machine.proof();
        if id >= proof.len() {
            return false;
        }
        proof.kind(id) == kind
            && proof.premises(id) == premises
            && proof.sequent(id).hyps.ids().len() == hyps
    }

    /// How a name is taken, as a constant and as an operator.
    pub(crate) fn kinds(&self, text: &[u8]) -> Result<Kinds, LineFault> {
        match Name::single(self.alloc, text) {
            Ok(name) => Ok(kinds_of(&self.machine, &name)),
            Err(_) => Err(LineFault::Memory),
        }
    }

    // Reads the commands in these lines.
    fn read(&mut self, words: &[u8]) -> Result<(), LineFault> {
        write_lines(&mut self.text, words)?;
        self.commands.clear();
        self.lines.feed(&self.text, &mut self.commands)
    }
}

fn kinds_of(machine: &Machine, name: &Name) -> Kinds {
    let symbols = machine.symbols();
    (symbols.const_kind(name), symbols.op_kind(name))
}

// Obeys a command.
fn step(machine: &mut Machine, command: &Command) -> Result<(), LineFault> {
    match machine.step(command) {
        Ok(()) => Ok(()),
        Err(fault) => Err(told(command.line, fault)),
    }
}

// Obeys commands up to the first that is refused.
fn obey_all(machine: &mut Machine, commands: &[Command]) -> Result<(), LineFault> {
    for command in commands {
        step(machine, command)?;
    }
    Ok(())
}

// Whether the commands but the last are obeyed, and the last is refused for this reason, at its line.
fn is_last_refused(
    machine: &mut Machine,
    commands: &[Command],
    kind: Kind,
) -> Result<bool, LineFault> {
    let Some((last, front)) = commands.split_last() else {
        return Ok(false);
    };
    obey_all(machine, front)?;
    let steps = machine.proof().len();
    match step(machine, last) {
        Ok(()) => Ok(false),
        Err(LineFault::Memory) => Err(LineFault::Memory),
        Err(LineFault::Refused { line, kind: own }) => {
            Ok(line == last.line && own == kind && machine.proof().len() == steps)
        }
    }
}

// Obeys the commands in a piece of an article, and then what its reader says of it.
fn obey_piece(
    machine: &mut Machine,
    lines: &mut Lines,
    commands: &mut Vec<Command>,
    piece: &[u8],
) -> Result<(), LineFault> {
    commands.clear();
    let fed = lines.feed(piece, commands);
    obey_all(machine, commands)?;
    fed
}

// Obeys the commands in the last line of an article, and ends it.
fn finish(
    machine: &mut Machine,
    lines: &mut Lines,
    commands: &mut Vec<Command>,
) -> Result<(), LineFault> {
    commands.clear();
    let ended = lines.finish(commands);
    obey_all(machine, commands)?;
    ended?;
    machine.finish();
    Ok(())
}

// Runs an article that comes in pieces of this size.
fn run(
    machine: &mut Machine,
    lines: &mut Lines,
    commands: &mut Vec<Command>,
    text: &[u8],
    size: usize,
) -> Result<(), LineFault> {
    for piece in text.chunks(size.max(1)) {
        obey_piece(machine, lines, commands, piece)?;
    }
    finish(machine, lines, commands)
}

// Writes the text whose lines these words are.
fn write_lines(text: &mut Vec<u8>, words: &[u8]) -> Result<(), LineFault> {
    text.clear();
    for byte in words {
        write_byte(text, if *byte == b' ' { b'\n' } else { *byte })?;
    }
    write_byte(text, b'\n')
}

fn write_byte(text: &mut Vec<u8>, byte: u8) -> Result<(), LineFault> {
    match text.push(byte) {
        Ok(()) => Ok(()),
        Err(_) => Err(LineFault::Memory),
    }
}

// Writes the parts, one after another.
fn write_parts(text: &mut Vec<u8>, parts: &[Part]) -> Result<(), LineFault> {
    text.clear();
    for part in parts {
        write_part(text, *part)?;
    }
    Ok(())
}

fn write_part(text: &mut Vec<u8>, (times, part): Part) -> Result<(), LineFault> {
    for _ in 0..times {
        let Ok(()) = text.extend_from_slice(part) else {
            return Err(LineFault::Memory);
        };
    }
    Ok(())
}

fn line_count(text: &[u8]) -> u64 {
    let mut count: u64 = 0;
    for byte in text {
        if *byte == b'\n' {
            count = count.saturating_add(1);
        }
    }
    count
}

// A fault at a line.
fn told(line: u64, fault: Fault) -> LineFault {
    match fault {
        Fault::Refused(kind) => LineFault::Refused { line, kind },
        Fault::Memory => LineFault::Memory,
    }
}
