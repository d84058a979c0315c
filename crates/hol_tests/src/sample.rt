//! A sequent of equations between variables.
ghost use Rattle.std.specs.Prelude.{◌<◌, ◌≤◌, length, IfOk};
ghost use Rattle.sequent.specs.Sequents.{IsKnown};

use common::{Fault, Kind};
use hol_name::Name;
use hol_term::{TermId, TermTable};
use hol_type::TypeId;
use sequent::{Hyps, Sequent};
use std::alloc::Global;

/// A sequent, and the types of its variables.
#[derive(Drop)]
pub(crate) struct Sample {
    pub(crate) sequent: Sequent,
    pub(crate) a: TypeId,
    pub(crate) b: TypeId,
}

fn name(alloc: Global, letter: u8) -> Result<Name, Fault> {
    match Name::single(alloc, &[letter]) {
        Ok(name) => Ok(name),
        Err(_) => Err(Fault::Memory),
    }
}

// The type variable of this letter.
fn variable(table: &mut TermTable, alloc: Global, letter: u8) -> Result<TypeId, Fault>
    ensures { IfOk result (λ id. id.0 < length table.new.types) }
{
    let name = name(alloc, letter)?;
    table.ty_var(&name)
}

// The equation of two free variables of a type.
fn equation(
    table: &mut TermTable,
    alloc: Global,
    left: u8,
    right: u8,
    ty: TypeId,
) -> Result<TermId, Fault>
    ensures known { IfOk result (λ id. id.0 < length table.new.terms) }
    ensures longer { length table.old.terms ≤ length table.new.terms }
{
    let left = name(alloc, left)?;
    let right = name(alloc, right)?;
    if ty.0 < table.types().count() {
        equation_of(table, &left, &right, ty)
    } else {
        Err(Fault::Refused(Kind::WrongKind))
    }
}

fn equation_of(
    table: &mut TermTable,
    left: &Name,
    right: &Name,
    ty: TypeId,
) -> Result<TermId, Fault>
    requires { ty.0 < length table.old.types }
    ensures known { IfOk result (λ id. id.0 < length table.new.terms) }
    ensures longer { length table.old.terms ≤ length table.new.terms }
{
    let l = table.free(left, ty)?;
    let r = table.free(right, ty)?;
    table.mk_eq(l, r)
}

/// `z = x` over B and `y = x` over A, and from them `x = z` over A.
pub(crate) fn make_sample(table: &mut TermTable, alloc: Global) -> Result<Sample, Fault>
    ensures { IfOk result (λ sample. IsKnown table.new sample.sequent) }
{
    let a = variable(table, alloc, b'A')?;
    let b = variable(table, alloc, b'B')?;
    let first = equation(table, alloc, b'z', b'x', b)?;
    let second = equation(table, alloc, b'y', b'x', a)?;
    let concl = equation(table, alloc, b'x', b'z', a)?;
    let hyps = Hyps::of(alloc, &[first, second])?;
    let sequent = Sequent { hyps, concl };
    Ok(Sample { sequent, a, b })
}
