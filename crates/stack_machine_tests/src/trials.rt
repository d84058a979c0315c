//! What is tried with a machine, which one function owns and lets go: what is let go at the end of a scope costs more to
//! prove, at each end, than all that is done with it.
use crate::bench::{Bench, Part, Ran};
use article_read::LineFault;
use common::Kind;
use hol_defs::SymbolKind;
use hol_rules::StepId;
use hol_spec::StepKind;
use std::alloc::Global;

/// What is done with a machine, or what has to be so.
#[derive(Clone, Copy)]
pub(crate) enum Turn {
    /// Commands are obeyed. Blanks stand for the ends of lines.
    Obey(&'static [u8]),
    /// They are obeyed so many times.
    Often(u32, &'static [u8]),
    /// The article ends.
    End,
    /// A further article of version 6 begins.
    Begin,
    /// The body of one of version 5 begins.
    BeginBody,
    /// The commands but the last are obeyed, and the last is refused for this reason, at its line.
    Refused(&'static [u8], Kind),
    /// The assumptions and the exports are these, and there are so many steps.
    Made(&'static [StepId], &'static [StepId], usize),
    /// A step was made by this rule of these steps, and has so many hypotheses.
    By(StepId, StepKind, &'static [StepId], usize),
    /// A name is taken so as a constant, and so as an operator.
    Taken(&'static [u8], Option<SymbolKind>, Option<SymbolKind>),
}

/// A case in the body of an article: its name, and its turns one after another.
#[derive(Clone, Copy)]
pub(crate) struct Case {
    pub(crate) name: &'static str,
    pub(crate) turns: &'static [Turn],
}

/// What is tried.
#[derive(Clone, Copy)]
pub(crate) enum Trial<'a> {
    /// The turns of a case.
    Turns(&'a [Turn]),
    /// An article comes in pieces of this size, and is obeyed twice.
    Twice(&'a [u8], usize),
    /// An article of these parts is obeyed.
    Passes(&'a [Part<'a>]),
    /// The last line of an article of these parts is refused for this reason.
    Ends(&'a [Part<'a>], Kind),
    /// An article is refused at this line, for this reason.
    Stops(&'a [u8], u64, Kind),
}

// Whether an article ended so. Want of memory is no end.
fn is_end(end: Result<(), LineFault>, wanted: Result<(), LineFault>) -> Result<bool, LineFault> {
    match end {
        Err(LineFault::Memory) => Err(LineFault::Memory),
        Ok(()) => Ok(wanted == Ok(())),
        Err(fault) => Ok(wanted == Err(fault)),
    }
}

// That something was done.
fn done(answer: Result<(), LineFault>) -> Result<bool, LineFault> {
    match answer {
        Ok(()) => Ok(true),
        Err(fault) => Err(fault),
    }
}

// Whether a turn comes out as it must.
fn holds(bench: &mut Bench, turn: Turn) -> Result<bool, LineFault> {
    match turn {
        Turn::Obey(words) => done(bench.obey(words)),
        Turn::Often(times, words) => done(bench.repeat(times, words)),
        Turn::End => done(bench.end()),
        Turn::Begin => done(bench.begin()),
        Turn::BeginBody => done(bench.begin_body()),
        Turn::Refused(words, kind) => bench.is_refused(words, kind),
        Turn::Made(assumptions, exports, steps) => Ok(bench.has_made(assumptions, exports, steps)),
        Turn::By(id, kind, premises, hyps) => Ok(bench.is_by(id, kind, premises, hyps)),
        Turn::Taken(name, constant, operator) => Ok(bench.kinds(name)? == (constant, operator)),
    }
}

// Whether each turn does, in the body of an article.
fn all_hold(bench: &mut Bench, turns: &[Turn]) -> Result<bool, LineFault> {
    bench.begin()?;
    for turn in turns {
        if !holds(bench, *turn)? {
            return Ok(false);
        }
    }
    Ok(true)
}

fn twice(bench: &mut Bench, text: &[u8], size: usize) -> Result<bool, LineFault> {
    bench.run(text, size)?;
    bench.run(text, size)?;
    Ok(true)
}

fn passes(bench: &mut Bench, parts: &[Part]) -> Result<bool, LineFault> {
    let Ran { end, .. } = bench.run_parts(parts)?;
    is_end(end, Ok(()))
}

fn ends(bench: &mut Bench, parts: &[Part], kind: Kind) -> Result<bool, LineFault> {
    let Ran { lines, end } = bench.run_parts(parts)?;
    is_end(end, Err(LineFault::Refused { line: lines, kind }))
}

fn stops(bench: &mut Bench, text: &[u8], line: u64, kind: Kind) -> Result<bool, LineFault> {
    is_end(
        bench.run(text, 4096),
        Err(LineFault::Refused { line, kind }),
    )
}

fn tried_on(bench: &mut Bench, trial: Trial) -> Result<bool, LineFault> {
    match trial {
        Trial::Turns(turns) => all_hold(bench, turns),
        Trial::Twice(text, size) => twice(bench, text, size),
        Trial::Passes(parts) => passes(bench, parts),
        Trial::Ends(parts, kind) => ends(bench, parts, kind),
        Trial::Stops(text, line, kind) => stops(bench, text, line, kind),
    }
}

/// Whether a trial comes out as it must, with a machine of its own.
pub(crate) fn comes_out(alloc: Global, trial: Trial) -> Result<bool, LineFault> {
    let mut bench = Bench::new(alloc)?;
    let right = tried_on(&mut bench, trial);
    drop(bench);
    right
}
