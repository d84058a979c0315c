//! Writes modules of the lambda-Pi calculus in Dedukti's syntax.
//!
//! A tree for which a name that was declared before is short is written as that name: the text of a tree is as long as what is written of it.
//!
//! `write` puts the one text of a module to a sink, with a bound before each theorem: the whole text, or a front of it where the sink fails. It is
//! `write_prelude`, and then `write_decl` for each declaration, for a caller that wants the text piece by piece. They take no memory: what follows
//! the part that is being written stands in a path, which `Path::new` makes with room for the module's deepest tree. The text is gathered in an
//! array of the path, and the sink gets it declaration by declaration, at most 4,096 bytes at a time. What a failed write left there is forgotten.
//!
//! ```
//! let module = Module::new(alloc)?;
//! let mut path = Path::new(alloc, &module)?;
//! write(&module, &[], &mut path, &mut sink)?;
//! ```
#![tactic(auto)]

ghost use Rattle.std.specs.Prelude.{◌≡◌, ◌<◌, ◌≤◌, ◌^◌, [], length, OnOk, OnErr};
ghost use Rattle.bridge_base.specs.Outside.{Gains, GainsFront, HasCause};
ghost use Rattle.lp_spec.specs.Text.{opening, prelude, written};
ghost use Rattle.holide_sig.specs.Modules.{declarations_of, IsBodyKnown, IsKnown, IsHeld};
ghost use Rattle.dk_write.specs.DeclTexts.{decl_body_text, decl_text};
ghost use Rattle.dk_write.specs.Lines.{line_at};
ghost use Rattle.dk_write.specs.Shallow.{AreWithin, IsBodyWithin, IsWithin};
ghost use Rattle.dk_write.specs.Writing.{WritesTo};

mod gathered;
mod path;
mod tree;

use crate::gathered::Gathered;
use crate::path::Frames;
pub use crate::path::Path;
use crate::tree::write_tree;
use bridge_base::{Failed, Sink, write_all};
use holide_sig::{Decl, Form, Module, PRELUDE};
use itoa::Buffer;
use lp_term::LpId;

// A declaration with the bound that is written before it where it is a theorem.
#[derive(Clone, Copy)]
struct Bounded<'a> {
    decl: &'a Decl,
    bound: u128,
}

/// Writes the text of a module: the prelude, then each declaration on a line of its own, a theorem with its bound on the
/// line before. The sink gets the prelude, and what a declaration adds, by one call for each 4,096 bytes of it, where it takes all
/// that it is given. It fails only where the sink's count of faults rose.
pub fn write<S: Sink>(
    source: &Module,
    bounds: &[u128],
    path: &mut Path,
    sink: &mut S,
) -> Result<(), Failed>
    requires held { IsHeld source.now }
    requires bounds { length bounds.now ≡ length source.now.decls }
    requires room { AreWithin path.old.room source.now.table source.now.decls }
    ensures room { path.new.room ≡ path.old.room }
    ensures ok { OnOk result (Gains (S.got sink.old) (written (declarations_of source.now) bounds.now) (S.got sink.new)) }
    ensures err { OnErr result (GainsFront (S.got sink.old) (written (declarations_of source.now) bounds.now) (S.got sink.new)) }
    ensures cause { HasCause (S.faults sink.old) (S.faults sink.new) result }
{
    write_prelude(sink)?;
    for i in 0..bounds.len() {
        write_decl(source, bounds, i, path, sink)?;
    }
    Ok(())
}

/// Writes the prelude, with which the text of every module begins, or a front of it where the sink fails.
pub fn write_prelude<S: Sink>(sink: &mut S) -> Result<(), Failed>
    ensures ok { OnOk result (Gains (S.got sink.old) prelude (S.got sink.new)) }
    ensures err { OnErr result (GainsFront (S.got sink.old) prelude (S.got sink.new)) }
    ensures cause { HasCause (S.faults sink.old) (S.faults sink.new) result }
{
    write_all(sink, PRELUDE)
}

/// Writes what declaration `i` adds to the text of a module, with `bounds[i]` on the line before where it is a theorem; or a front of it
/// where the sink fails.
pub fn write_decl<S: Sink>(
    source: &Module,
    bounds: &[u128],
    i: usize,
    path: &mut Path,
    sink: &mut S,
) -> Result<(), Failed>
    requires held { IsHeld source.now }
    requires bounds { length bounds.now ≡ length source.now.decls }
    requires room { AreWithin path.old.room source.now.table source.now.decls }
    requires declared { i < length source.now.decls }
    ensures room { path.new.room ≡ path.old.room }
    ensures ok { OnOk result (Gains (S.got sink.old) (line_at (declarations_of source.now) bounds.now i) (S.got sink.new)) }
    ensures err { OnErr result (GainsFront (S.got sink.old) (line_at (declarations_of source.now) bounds.now i) (S.got sink.new)) }
    ensures cause { HasCause (S.faults sink.old) (S.faults sink.new) result }
{
    let line = Bounded {
        decl: source.decls.get(i),
        bound: bounds[i],
    };
    write_by(source, i, line, &mut path.frames, &mut path.gathered, sink)
}

// Writes what a declaration adds, with these frames, whatever stands there and is gathered.
fn write_by<S: Sink>(
    source: &Module,
    before: usize,
    line: Bounded<'_>,
    frames: &mut Frames,
    gathered: &mut Gathered,
    sink: &mut S,
) -> Result<(), Failed>
    requires held { IsHeld source.now }
    requires before { before ≤ length source.now.decls }
    requires known { IsKnown source.now.table line.decl.now }
    requires room { IsWithin frames.old.room source.now.table line.decl.now }
    ensures room { frames.new.room ≡ frames.old.room }
    ensures ok { OnOk result (Gains (S.got sink.old) (decl_text source.now before line.entry) (S.got sink.new)) }
    ensures err { OnErr result (GainsFront (S.got sink.old) (decl_text source.now before line.entry) (S.got sink.new)) }
    ensures cause { HasCause (S.faults sink.old) (S.faults sink.new) result }
{
    frames.clear();
    gathered.forget();
    write_declaration(source, before, line, frames, gathered, sink)?;
    gathered.flush(sink)
}

// Writes the line of a declaration, for a theorem with its bound on the line before.
fn write_declaration<S: Sink>(
    source: &Module,
    before: usize,
    line: Bounded<'_>,
    frames: &mut Frames,
    gathered: &mut Gathered,
    sink: &mut S,
) -> Result<(), Failed>
    requires held { IsHeld source.now }
    requires before { before ≤ length source.now.decls }
    requires known { IsKnown source.now.table line.decl.now }
    requires room { IsWithin frames.old.room source.now.table line.decl.now }
    requires empty { frames.old.frames ≡ [] }
    requires small { frames.old.room < 2 ^ 64 }
    ensures room { frames.new.room ≡ frames.old.room }
    ensures writes { WritesTo S.got S.faults sink.old gathered.old (decl_text source.now before line.entry) sink.new gathered.new result }
{
    write_opening(line.decl.form, line.bound, gathered, sink)?;
    gathered.write_words(&[line.decl.name.as_bytes(), b" : "], sink)?;
    write_tree(source, before, line.decl.ty, frames, gathered, sink)?;
    write_body(source, before, line.decl.body, frames, gathered, sink)?;
    gathered.write_words(&[b".\n"], sink)
}

// Writes what stands before the name of a declaration.
fn write_opening<S: Sink>(
    form: Form,
    bound: u128,
    gathered: &mut Gathered,
    sink: &mut S,
) -> Result<(), Failed>
    ensures { WritesTo S.got S.faults sink.old gathered.old (opening form bound) sink.new gathered.new result }
{
    match form {
        Form::Symbol => Ok(()),
        Form::Def => gathered.write_words(&[b"def "], sink),
        Form::Thm => {
            let mut buffer = Buffer::new();
            let number = buffer.format(bound).as_bytes();
            gathered.write_words(&[b"(; bound ", number, b" ;)\n", b"thm "], sink)
        }
    }
}

// Writes the body of a declaration, if it has one.
fn write_body<S: Sink>(
    source: &Module,
    before: usize,
    body: Option<LpId>,
    frames: &mut Frames,
    gathered: &mut Gathered,
    sink: &mut S,
) -> Result<(), Failed>
    requires held { IsHeld source.now }
    requires before { before ≤ length source.now.decls }
    requires known { IsBodyKnown source.now.table body }
    requires room { IsBodyWithin frames.old.room source.now.table body }
    requires empty { frames.old.frames ≡ [] }
    requires small { frames.old.room < 2 ^ 64 }
    ensures room { frames.new.room ≡ frames.old.room }
    ensures writes { WritesTo S.got S.faults sink.old gathered.old (decl_body_text source.now before body) sink.new gathered.new result }
{
    match body {
        Some(id) => {
            gathered.write_words(&[b" := "], sink)?;
            write_tree(source, before, id, frames, gathered, sink)
        }
        None => Ok(()),
    }
}
