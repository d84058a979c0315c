//! Makes so many terms of a thousand applications each, and puts a variable into each: `bench hol_term CALL COUNT`, where
//! CALL is `make` or `inst`. What `inst` takes is the making too.

ghost use Rattle.std.specs.Prelude.{◌<◌, length, IfOk};
ghost use Rattle.bench.specs.Carried.{AreTerms, KeepsTerms};
ghost use Rattle.hol_term.specs.Tables.{IsTermAt};

use common::Fault;
use hol_name::Name;
use hol_term::{TermId, TermTable, TermView, Variable};
use hol_type::TypeId;
use std::alloc::Global;
use std::io;

/// The variables that all the terms have.
#[derive(Clone, Copy)]
struct Shared {
    /// A function of one truth value.
    unary: TermId,
    /// A function of two truth values.
    binary: TermId,
    /// The variable that is bound.
    bound: TermId,
    /// The variable that is put for the bound one.
    argument: TermId,
}

// The name of one component.
fn name(alloc: Global, text: &[u8]) -> Result<Name, Fault> {
    match Name::single(alloc, text) {
        Ok(name) => Ok(name),
        Err(_) => Err(Fault::Memory),
    }
}

// The type of functions from `domain` to `codomain`.
fn function(
    table: &mut TermTable,
    alloc: Global,
    domain: TypeId,
    codomain: TypeId,
) -> Result<TypeId, Fault>
    requires domain { domain.0 < length table.old.types }
    requires codomain { codomain.0 < length table.old.types }
    ensures known { IfOk result (λ id. id.0 < length table.new.types) }
    ensures keeps { KeepsTerms table.old table.new }
{
    let name = name(alloc, b"->")?;
    table.ty_op(&name, &[domain, codomain])
}

// The free variable of this name and type.
fn variable(table: &mut TermTable, alloc: Global, text: &[u8], ty: TypeId) -> Result<TermId, Fault>
    requires { ty.0 < length table.old.types }
    ensures term { IfOk result (λ id. IsTermAt table.new id.0) }
    ensures keeps { KeepsTerms table.old table.new }
{
    let name = name(alloc, text)?;
    table.free(&name, ty)
}

// The application of a function to an argument.
fn application(table: &mut TermTable, f: TermId, x: TermId) -> Result<TermId, Fault>
    requires function { IsTermAt table.old f.0 }
    requires argument { IsTermAt table.old x.0 }
    ensures term { IfOk result (λ id. IsTermAt table.new id.0) }
    ensures keeps { KeepsTerms table.old table.new }
{
    table.app(f, x)
}

// The variables that all the terms have.
fn variables(table: &mut TermTable, alloc: Global) -> Result<Shared, Fault>
    ensures terms { IfOk result (λ shared. AreTerms table.new shared) }
{
    let name = name(alloc, b"bool")?;
    let truth = table.ty_op(&name, &[])?;
    let predicate = function(table, alloc, truth, truth)?;
    let relation = function(table, alloc, truth, predicate)?;
    let unary = variable(table, alloc, b"f", predicate)?;
    let binary = variable(table, alloc, b"g", relation)?;
    let bound = variable(table, alloc, b"y", truth)?;
    let argument = variable(table, alloc, b"z", truth)?;
    Ok(Shared {
        unary,
        binary,
        bound,
        argument,
    })
}

// The function applied so many times, first to the term.
fn iterated(table: &mut TermTable, f: TermId, x: TermId, count: u32) -> Result<TermId, Fault>
    requires function { IsTermAt table.old f.0 }
    requires argument { IsTermAt table.old x.0 }
    ensures term { IfOk result (λ id. IsTermAt table.new id.0) }
    ensures keeps { KeepsTerms table.old table.new }
{
    let mut id = x;
    for _ in 0..count {
        id = application(table, f, id)?;
    }
    Ok(id)
}

// A term of a thousand applications, which no other number gives.
fn tall(table: &mut TermTable, alloc: Global, shared: Shared, number: u32) -> Result<TermId, Fault>
    requires { AreTerms table.old shared }
    ensures term { IfOk result (λ id. IsTermAt table.new id.0) }
    ensures keeps { KeepsTerms table.old table.new }
{
    let ty = table.type_of(shared.bound);
    let own = variable(table, alloc, &number.to_be_bytes(), ty)?;
    let partial = application(table, shared.binary, own)?;
    let inner = application(table, partial, shared.bound)?;
    iterated(table, shared.unary, inner, 998)
}

// The term with the argument put for the variable that is bound.
fn instance(
    table: &mut TermTable,
    alloc: Global,
    shared: Shared,
    id: TermId,
) -> Result<TermId, Fault>
    requires shared { AreTerms table.old shared }
    requires term { IsTermAt table.old id.0 }
    ensures term { IfOk result (λ id. IsTermAt table.new id.0) }
    ensures keeps { KeepsTerms table.old table.new }
{
    let name = name(alloc, b"y")?;
    let ty = table.type_of(shared.argument);
    let abstraction = table.abs(&Variable { name, ty }, id)?;
    let body = match table.view(abstraction) {
        TermView::Lam(_, body) => body,
        TermView::Free(..) | TermView::Bound(_) | TermView::Const(..) | TermView::App(..) => {
            unreachable!()
        }
    };
    table.inst(body, shared.argument)
}

// The size of the last of so many terms, with the argument put or without.
fn run(table: &mut TermTable, alloc: Global, puts: bool, count: u32) -> Result<u64, Fault> {
    let shared = variables(table, alloc)?;
    let mut last = shared.bound;
    for number in 0..count {
        last = tall(table, alloc, shared, number)?;
        if puts {
            last = instance(table, alloc, shared, last)?;
        }
    }
    Ok(table.size(last))
}

/// Runs a call, and tells the size of the last term.
pub(crate) fn timed(rt: &HostRuntime, call: &str, count: u32) -> io::Result<()> {
    let mut table = TermTable::new(rt.alloc());
    match run(&mut table, rt.alloc(), call == "inst", count) {
        Ok(size) => println!(rt; "{call} {count}: size {size}"),
        Err(fault) => println!(rt; "{fault}"),
    }
}
