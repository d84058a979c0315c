//! What is written of a module.
ghost use Rattle.std.specs.Prelude.{◌≡◌, ◌<◌, length, IsOk};
ghost use Rattle.holide_sig.specs.Modules.{IsHeld};
ghost use Rattle.dk_write.specs.Shallow.{AreWithin};

use crate::checks::budgets;
use crate::faults::{add_comma, add_number};
use bridge_base::{Failed, MemSink, QuietSink, Sink};
use case_files::{Case, Wrong, number};
use dk_write::{Path, write, write_decl, write_prelude};
use holide_sig::Module;
use std::alloc::Global;

// A module and the bounds that are written with it.
#[derive(Clone, Copy)]
struct Bounded<'a> {
    source: &'a Module,
    bounds: &'a [u128],
}

/// Adds what comes of a module that is written, with the budgets of the case as bounds.
pub(crate) fn add_written(
    alloc: Global,
    case: &Case<'_>,
    by: &str,
    source: &Module,
    came: &mut Vec<u8>,
) -> Result<(), Wrong>
    requires { IsHeld source.now }
{
    let bounds = budgets(alloc, case)?;
    let added = add_bounded(alloc, case, by, source, &bounds, came);
    drop(bounds);
    added
}

// Adds what comes of it with these bounds.
fn add_bounded(
    alloc: Global,
    case: &Case<'_>,
    by: &str,
    source: &Module,
    bounds: &[u128],
    came: &mut Vec<u8>,
) -> Result<(), Wrong>
    requires { IsHeld source.now }
{
    if bounds.len() != source.decls.len() {
        return Err(Wrong("budgets"));
    }
    let Ok(mut path) = Path::new(alloc, source) else {
        return Err(Wrong("out of memory"));
    };
    let added = add_by(alloc, case, by, Bounded { source, bounds }, &mut path, came);
    drop(path);
    added
}

// Adds what is asked.
fn add_by(
    alloc: Global,
    case: &Case<'_>,
    by: &str,
    bounded: Bounded<'_>,
    path: &mut Path,
    came: &mut Vec<u8>,
) -> Result<(), Wrong>
    requires held { IsHeld bounded.source.now }
    requires bounds { length bounded.bounds.now ≡ length bounded.source.now.decls }
    requires room { AreWithin path.old.room bounded.source.now.table bounded.source.now.decls }
{
    match by {
        "write" => add_text(alloc, case, bounded, path, came),
        "pieces" => add_pieces(alloc, bounded, path, came),
        "last" => add_last(alloc, bounded, path, came),
        "discard" => add_discarded(bounded, path, came),
        _ => Err(Wrong("by")),
    }
}

// Adds what a sink holds that fails at the call `fails`, and whether it failed.
fn add_text(
    alloc: Global,
    case: &Case<'_>,
    bounded: Bounded<'_>,
    path: &mut Path,
    came: &mut Vec<u8>,
) -> Result<(), Wrong>
    requires held { IsHeld bounded.source.now }
    requires bounds { length bounded.bounds.now ≡ length bounded.source.now.decls }
    requires room { AreWithin path.old.room bounded.source.now.table bounded.source.now.decls }
{
    let failing = vec![in alloc; number(case, "fails")?]?;
    let mut sink = MemSink::new(Vec::new(alloc), failing);
    let answer = write(bounded.source, bounded.bounds, path, &mut sink);
    let added = add_held(answer, &sink, came);
    drop(sink);
    added
}

// Adds whether a sink failed, and what it holds.
fn add_held(answer: Result<(), Failed>, sink: &MemSink, came: &mut Vec<u8>) -> Result<(), Wrong> {
    if answer.is_err() {
        came.extend_from_slice(b"failed ")?;
    }
    came.extend_from_slice(sink.contents())?;
    Ok(())
}

// Adds how many bytes each piece has that a sink gets.
fn add_pieces(
    alloc: Global,
    bounded: Bounded<'_>,
    path: &mut Path,
    came: &mut Vec<u8>,
) -> Result<(), Wrong>
    requires held { IsHeld bounded.source.now }
    requires bounds { length bounded.bounds.now ≡ length bounded.source.now.decls }
    requires room { AreWithin path.old.room bounded.source.now.table bounded.source.now.decls }
{
    let mut sink = Sizes {
        sizes: Vec::new(alloc),
        lacks: false,
    };
    let answer = write(bounded.source, bounded.bounds, path, &mut sink);
    let added = add_sizes(alloc, answer, &sink, came);
    drop(sink);
    added
}

// Adds these sizes.
fn add_sizes(
    alloc: Global,
    answer: Result<(), Failed>,
    sink: &Sizes,
    came: &mut Vec<u8>,
) -> Result<(), Wrong> {
    if answer.is_err() || sink.lacks {
        return Err(Wrong("out of memory"));
    }
    for size in &sink.sizes {
        add_comma(came)?;
        add_number(alloc, came, *size as u128)?;
    }
    Ok(())
}

/// A sink that takes whole pieces, and notes how many bytes each has.
#[derive(Drop)]
struct Sizes {
    sizes: Vec<usize>,
    lacks: bool,
}

impl Sink for Sizes {
    ghost use Rattle.std.specs.Prelude.{None};

    ghost got = { λ _. None };

    ghost faults = { λ _. 0 };

    fn write(&mut self, piece: &[u8]) -> Result<usize, Failed> {
        if self.sizes.push(piece.len()).is_err() {
            self.lacks = true;
        }
        Ok(piece.len())
    }
}

// Adds the prelude, and then what the last declaration adds to a sink that was cleared.
fn add_last(
    alloc: Global,
    bounded: Bounded<'_>,
    path: &mut Path,
    came: &mut Vec<u8>,
) -> Result<(), Wrong>
    requires held { IsHeld bounded.source.now }
    requires bounds { length bounded.bounds.now ≡ length bounded.source.now.decls }
    requires room { AreWithin path.old.room bounded.source.now.table bounded.source.now.decls }
{
    let mut sink = MemSink::new(Vec::new(alloc), Vec::new(alloc));
    let added = add_last_of(bounded, path, &mut sink, came);
    drop(sink);
    added
}

// Adds them by this sink.
fn add_last_of(
    bounded: Bounded<'_>,
    path: &mut Path,
    sink: &mut MemSink,
    came: &mut Vec<u8>,
) -> Result<(), Wrong>
    requires held { IsHeld bounded.source.now }
    requires bounds { length bounded.bounds.now ≡ length bounded.source.now.decls }
    requires room { AreWithin path.old.room bounded.source.now.table bounded.source.now.decls }
{
    let Some(last) = bounded.bounds.len().checked_sub(1) else {
        return Err(Wrong("text"));
    };
    let first = write_prelude(sink);
    add_held(first, sink, came)?;
    sink.clear();
    let second = write_decl(bounded.source, bounded.bounds, last, path, sink);
    add_held(second, sink, came)
}

// Drops the text of a module: where no write fails, none is answered.
fn discard(bounded: Bounded<'_>, path: &mut Path) -> Result<(), Failed>
    requires held { IsHeld bounded.source.now }
    requires bounds { length bounded.bounds.now ≡ length bounded.source.now.decls }
    requires room { AreWithin path.old.room bounded.source.now.table bounded.source.now.decls }
    ensures { IsOk result }
{
    write(bounded.source, bounded.bounds, path, &mut QuietSink)
}

// Adds whether the text of a module can be dropped.
fn add_discarded(bounded: Bounded<'_>, path: &mut Path, came: &mut Vec<u8>) -> Result<(), Wrong>
    requires held { IsHeld bounded.source.now }
    requires bounds { length bounded.bounds.now ≡ length bounded.source.now.decls }
    requires room { AreWithin path.old.room bounded.source.now.table bounded.source.now.decls }
{
    let word: &[u8] = match discard(bounded, path) {
        Ok(()) => b"written",
        Err(Failed) => b"failed",
    };
    came.extend_from_slice(word)?;
    Ok(())
}
