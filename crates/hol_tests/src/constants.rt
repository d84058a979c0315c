//! Constants, at types over truth values.
ghost use Rattle.hol_term.specs.Tables.{Trees};
ghost use Rattle.hol_defs.specs.Symbols.{AreKnownSymbols};

use crate::cases::{Answer, Case, comes};
use crate::made::{is_type, name};
use common::{Fault, Kind};
use hol_defs::{Generic, SymbolKind, Symbols};
use hol_term::TermTable;
use hol_type::TypeId;
use std::alloc::Global;
use std::test::Fail;

/// A type that a constant is used at.
#[derive(Clone, Copy)]
pub(crate) enum Shape {
    /// `bool`
    Truth,
    /// `bool -> bool`
    Endo,
    /// `bool -> bool -> bool`
    Relation,
    /// `(bool -> bool) -> bool`
    Choice,
}

fn truth(table: &mut TermTable, alloc: Global) -> Result<TypeId, Fault> {
    table.ty_op(&name(alloc, b"bool")?, &[])
}

fn function(
    table: &mut TermTable,
    alloc: Global,
    domain: TypeId,
    codomain: TypeId,
) -> Result<TypeId, Fault> {
    let arrow = name(alloc, b"->")?;
    if is_type(table, domain) && is_type(table, codomain) {
        table.ty_op(&arrow, &[domain, codomain])
    } else {
        Err(Fault::Refused(Kind::WrongKind))
    }
}

fn make(table: &mut TermTable, alloc: Global, shape: Shape) -> Result<TypeId, Fault> {
    let truth = truth(table, alloc)?;
    let endo = function(table, alloc, truth, truth)?;
    match shape {
        Shape::Truth => Ok(truth),
        Shape::Endo => Ok(endo),
        Shape::Relation => function(table, alloc, truth, endo),
        Shape::Choice => function(table, alloc, endo, truth),
    }
}

/// Uses a constant of this name at a type.
pub(crate) fn use_at(
    symbols: &mut Symbols,
    table: &mut TermTable,
    alloc: Global,
    text: &[u8],
    shape: Shape,
) -> Result<Answer, Fault>
    requires { (trees : Trees) → AreKnownSymbols trees symbols.old }
{
    let ty = make(table, alloc, shape)?;
    let name = name(alloc, text)?;
    if is_type(table, ty) {
        symbols.use_const(table, &name, ty)?;
        Ok(Answer::Done)
    } else {
        Err(Fault::Refused(Kind::WrongKind))
    }
}

#[test]
fn types_of_primitive_constants_are_judged(rt: HostRuntime) -> Result<(), Fail> {
    let alloc = rt.alloc();
    let done = Ok(Answer::Done);
    let refused = Err(Fault::Refused(Kind::BadConstType));
    assert!(rt; comes(alloc, Case::Constant(b"=", Shape::Relation), done));
    assert!(rt; comes(alloc, Case::Constant(b"=", Shape::Choice), refused));
    assert!(rt; comes(alloc, Case::Constant(b"=", Shape::Endo), refused));
    assert!(rt; comes(alloc, Case::Constant(b"select", Shape::Choice), done));
    assert!(rt; comes(alloc, Case::Constant(b"select", Shape::Relation), refused));
    assert!(rt; comes(alloc, Case::Constant(b"select", Shape::Truth), refused));
    assert!(rt; comes(alloc, Case::Constant(b"list", Shape::Endo), done));
    Ok(())
}

/// The kind and the generic type of a constant of this name.
pub(crate) fn kind_of(symbols: &Symbols, alloc: Global, text: &[u8]) -> Result<Answer, Fault> {
    let name = name(alloc, text)?;
    Ok(Answer::Kind(symbols.const_kind(&name), symbols.generic(&name)))
}

#[test]
fn constants_have_kinds(rt: HostRuntime) -> Result<(), Fail> {
    let alloc = rt.alloc();
    let primitive = Some(SymbolKind::Primitive);
    let equality = Ok(Answer::Kind(primitive, Some(Generic::Eq)));
    let choice = Ok(Answer::Kind(primitive, Some(Generic::Select)));
    let none = Ok(Answer::Kind(None, None));
    assert!(rt; comes(alloc, Case::KindOf(b"="), equality));
    assert!(rt; comes(alloc, Case::KindOf(b"select"), choice));
    assert!(rt; comes(alloc, Case::KindOf(b"list"), none));
    assert!(rt; comes(alloc, Case::KindOf(b"bool"), none));
    Ok(())
}
