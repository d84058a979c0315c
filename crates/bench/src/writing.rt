//! Makes a module and writes its text to standard output: `bench dk_write COUNT TIMES`, where each of COUNT definitions adds a line of
//! some 600 bytes, and the text is written TIMES times. What writing takes is the time of a run less that of one with TIMES 0.

ghost use Rattle.std.specs.Prelude.{◌≡◌, ◌<◌, length, IfOk, OnOk};
ghost use Rattle.lp_spec.specs.Modules.{signature};
ghost use Rattle.lp_spec.specs.ModuleOrder.{IsOver};
ghost use Rattle.lp_term.specs.Tables.{tree_at, Keeps};
ghost use Rattle.holide_sig.specs.Modules.{IsHeld};
ghost use Rattle.dk_write.specs.Shallow.{AreWithin};

use bridge_base::{Failed, Sink, StdSink};
use common::Memory;
use dk_write::{Path, write};
use holide_sig::{Decl, Form, Ident, Module};
use itoa::Buffer;
use lp_term::{LpId, LpNode, LpTable};
use std::alloc::Global;
use std::io;

// `arr bool` applied to the tree.
fn deeper(table: &mut LpTable, tree: LpId) -> Result<LpId, Memory>
    requires known { tree.0 < length table.old }
    requires over { IsOver (length signature) (tree_at table.old tree.0) }
    ensures known { IfOk result (λ id. id.0 < length table.new) }
    ensures over { IfOk result (λ id. IsOver (length signature) (tree_at table.new id.0)) }
    ensures keeps { Keeps table.old table.new }
{
    let bools = table.node(LpNode::Sym(1))?;
    let arrow = table.node(LpNode::Sym(3))?;
    let from_bools = table.node(LpNode::App(arrow, bools))?;
    table.node(LpNode::App(from_bools, tree))
}

// `bool`, so many times deeper.
fn nest(table: &mut LpTable, count: usize) -> Result<LpId, Memory>
    ensures known { IfOk result (λ id. id.0 < length table.new) }
    ensures over { IfOk result (λ id. IsOver (length signature) (tree_at table.new id.0)) }
    ensures keeps { Keeps table.old table.new }
{
    let mut tree = table.node(LpNode::Sym(1))?;
    for _ in 0..count {
        tree = deeper(table, tree)?;
    }
    Ok(tree)
}

// The name of a number.
fn named(alloc: Global, number: usize) -> Result<Vec<u8>, Memory> {
    let mut buffer = Buffer::new();
    let mut name = Vec::from_slice(alloc, b"def_")?;
    name.extend_from_slice(buffer.format(number).as_bytes())?;
    Ok(name)
}

// Defines a new name as such a tree.
fn push_nest(alloc: Global, into: &mut Module, number: usize, depth: usize) -> Result<(), Memory>
    requires held { IsHeld into.old }
    ensures { OnOk result (IsHeld into.new) }
{
    let ty = into.table.node(LpNode::Sym(0))?;
    let body = nest(&mut into.table, depth)?;
    let name = named(alloc, number)?;
    if into.find(&name).is_some() {
        return Err(Memory);
    }
    let name = Ident::new(name);
    let decl = Decl {
        name,
        form: Form::Def,
        ty,
        body: Some(body),
    };
    into.push(decl)
}

// So many definitions behind those of a module.
fn push_nests(alloc: Global, into: &mut Module, count: usize) -> Result<(), Memory>
    requires { IsHeld into.old }
    ensures { OnOk result (IsHeld into.new) }
{
    for number in 0..count {
        push_nest(alloc, into, number, 40)?;
    }
    Ok(())
}

// Writes a module so many times.
fn write_often<S: Sink>(
    source: &Module,
    bounds: &[u128],
    times: u32,
    path: &mut Path,
    sink: &mut S,
) -> Result<(), Failed>
    requires held { IsHeld source.now }
    requires bounds { length bounds.now ≡ length source.now.decls }
    requires room { AreWithin path.old.room source.now.table source.now.decls }
{
    for _ in 0..times {
        write(source, bounds, path, sink)?;
    }
    Ok(())
}

// So many bounds, each 0.
fn no_bounds(alloc: Global, count: usize) -> Result<Vec<u128>, Memory>
    ensures { IfOk result (λ bounds. length bounds.items ≡ count) }
{
    Ok(vec![in alloc; 0; count]?)
}

// Whether a module was made and written.
fn is_written<S: Sink>(
    alloc: Global,
    target: &mut Module,
    count: usize,
    times: u32,
    sink: &mut S,
) -> Result<bool, Memory>
    requires { IsHeld target.old }
{
    push_nests(alloc, target, count)?;
    let bounds = no_bounds(alloc, target.decls.len())?;
    let mut path = Path::new(alloc, target)?;
    Ok(write_often(target, &bounds, times, &mut path, sink).is_ok())
}

// The same of a module of its own.
fn run<S: Sink>(alloc: Global, count: usize, times: u32, sink: &mut S) -> Result<bool, Memory> {
    let mut target = Module::new(alloc)?;
    let written = is_written(alloc, &mut target, count, times, sink);
    drop(target);
    written
}

/// Writes a module of so many definitions so many times to standard output.
pub(crate) fn timed(rt: &HostRuntime, count: &str, times: u32) -> io::Result<()> {
    let Ok(count) = count.parse::<usize>() else {
        return rt.println("COUNT is a number below 2^32");
    };
    let mut sink = StdSink::stdout(rt);
    match run(rt.alloc(), count, times, &mut sink) {
        Ok(true) => Ok(()),
        Ok(false) => rt.println("write fault"),
        Err(Memory) => rt.println("out of memory"),
    }
}
