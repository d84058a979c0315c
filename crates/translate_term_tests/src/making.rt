//! Types and terms over primitive operators, in a table.
ghost use Rattle.std.specs.Prelude.{◌≡◌, ◌∷◌, [], IfOk};
ghost use Rattle.translate_term_tests.specs.Plain.{HasPlainTree, HasPlainType, KeepsPlain};

use common::{Fault, Memory};
use hol_name::Name;
use hol_term::{TermId, TermTable};
use hol_type::TypeId;
use std::alloc::Global;

/// The name of one component.
pub(crate) fn named(alloc: Global, text: &[u8]) -> Result<Name, Memory>
    ensures { IfOk result (λ name. name ≡ text.now ∷ []) }
{
    match Name::single(alloc, text) {
        Ok(name) => Ok(name),
        Err(_) => Err(Memory),
    }
}

// The type variable a.
fn variable(table: &mut TermTable, alloc: Global) -> Result<TypeId, Fault>
    ensures plain { IfOk result (λ id. HasPlainType table.new.types id.0) }
    ensures keeps { KeepsPlain table.old table.new }
{
    let name = named(alloc, b"a")?;
    table.ty_var(&name)
}

// The type of truth values.
fn truth(table: &mut TermTable, alloc: Global) -> Result<TypeId, Fault>
    ensures plain { IfOk result (λ id. HasPlainType table.new.types id.0) }
    ensures keeps { KeepsPlain table.old table.new }
{
    let name = named(alloc, b"bool")?;
    table.ty_op(&name, &[])
}

// The type of functions.
fn function(
    table: &mut TermTable,
    alloc: Global,
    domain: TypeId,
    codomain: TypeId,
) -> Result<TypeId, Fault>
    requires domain { HasPlainType table.old.types domain.0 }
    requires codomain { HasPlainType table.old.types codomain.0 }
    ensures plain { IfOk result (λ id. HasPlainType table.new.types id.0) }
    ensures keeps { KeepsPlain table.old table.new }
{
    let name = named(alloc, b"->")?;
    table.ty_op(&name, &[domain, codomain])
}

// The free variable of this name and type.
fn free(table: &mut TermTable, alloc: Global, text: &[u8], ty: TypeId) -> Result<TermId, Fault>
    requires { HasPlainType table.old.types ty.0 }
    ensures plain { IfOk result (λ id. HasPlainTree table.new id.0) }
    ensures keeps { KeepsPlain table.old table.new }
{
    let name = named(alloc, text)?;
    table.free(&name, ty)
}

// The application of a function to an argument.
fn application(table: &mut TermTable, f: TermId, x: TermId) -> Result<TermId, Memory>
    requires function { HasPlainTree table.old f.0 }
    requires argument { HasPlainTree table.old x.0 }
    ensures plain { IfOk result (λ id. HasPlainTree table.new id.0) }
    ensures keeps { KeepsPlain table.old table.new }
{
    table.raw_application(f, x)
}

/// a -> bool
pub(crate) fn predicate(table: &mut TermTable, alloc: Global) -> Result<TypeId, Fault>
    ensures { IfOk result (λ id. HasPlainType table.new.types id.0) }
{
    let a = variable(table, alloc)?;
    let truth = truth(table, alloc)?;
    function(table, alloc, a, truth)
}

/// The type of functions of two truth values.
pub(crate) fn relation(table: &mut TermTable, alloc: Global) -> Result<TypeId, Fault>
    ensures { IfOk result (λ id. HasPlainType table.new.types id.0) }
{
    let truth = truth(table, alloc)?;
    let predicate = function(table, alloc, truth, truth)?;
    function(table, alloc, truth, predicate)
}

// g t t of a term t, and that again, so many times over.
fn doubled(table: &mut TermTable, g: TermId, t: TermId, times: u32) -> Result<TermId, Memory>
    requires g { HasPlainTree table.old g.0 }
    requires t { HasPlainTree table.old t.0 }
    ensures plain { IfOk result (λ id. HasPlainTree table.new id.0) }
    ensures keeps { KeepsPlain table.old table.new }
{
    let mut id = t;
    for _ in 0..times {
        let half = application(table, g, id)?;
        id = application(table, half, id)?;
    }
    Ok(id)
}

/// So many doublings of the truth value x by a variable g of this type.
pub(crate) fn shared(
    table: &mut TermTable,
    alloc: Global,
    ty: TypeId,
    times: u32,
) -> Result<TermId, Fault>
    requires { HasPlainType table.old.types ty.0 }
    ensures plain { IfOk result (λ id. HasPlainTree table.new id.0) }
    ensures keeps { KeepsPlain table.old table.new }
{
    let g = free(table, alloc, b"g", ty)?;
    let truth = truth(table, alloc)?;
    let x = free(table, alloc, b"x", truth)?;
    let made = doubled(table, g, x, times)?;
    Ok(made)
}
