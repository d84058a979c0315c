//! Constants that stand for terms.
ghost use Rattle.hol_term.specs.Tables.{IsTermAt, Trees};
ghost use Rattle.hol_defs.specs.Symbols.{AreKnownSymbols};

use crate::cases::{Answer, Case, comes};
use crate::made::{is_term, name};
use common::{Fault, Kind};
use hol_defs::Symbols;
use hol_name::Name;
use hol_term::{TermId, TermTable};
use std::alloc::Global;
use std::test::Fail;

// A constant of truth values.
fn closed(table: &mut TermTable, alloc: Global) -> Result<TermId, Fault> {
    let ty = table.ty_op(&name(alloc, b"bool")?, &[])?;
    table.constant(&name(alloc, b"T")?, ty)
}

// A free variable.
fn open(table: &mut TermTable, alloc: Global) -> Result<TermId, Fault> {
    let ty = table.ty_op(&name(alloc, b"bool")?, &[])?;
    table.free(&name(alloc, b"p")?, ty)
}

// The equation of a term with itself.
fn with_itself(table: &mut TermTable, side: TermId) -> Result<TermId, Fault> {
    if is_term(table, side) {
        table.mk_eq(side, side)
    } else {
        Err(Fault::Refused(Kind::WrongKind))
    }
}

// An equation of a constant of any type with itself, a truth value over a type variable.
fn hiding(table: &mut TermTable, alloc: Global) -> Result<TermId, Fault> {
    let ty = table.ty_var(&name(alloc, b"A")?)?;
    let side = table.constant(&name(alloc, b"c")?, ty)?;
    with_itself(table, side)
}

// The same with a free variable.
fn open_and_hiding(table: &mut TermTable, alloc: Global) -> Result<TermId, Fault> {
    let ty = table.ty_var(&name(alloc, b"A")?)?;
    let side = table.free(&name(alloc, b"x")?, ty)?;
    with_itself(table, side)
}

// A constant over a type variable, which its type has.
fn generic(table: &mut TermTable, alloc: Global) -> Result<TermId, Fault> {
    let ty = table.ty_var(&name(alloc, b"A")?)?;
    table.constant(&name(alloc, b"c")?, ty)
}

/// A term that is to define a constant.
#[derive(Clone, Copy)]
pub(crate) enum By {
    /// A constant of truth values.
    Closed,
    /// A free variable.
    Open,
    /// An equation over a type variable, which its type lacks.
    Hiding,
    /// The same with a free variable.
    OpenAndHiding,
    /// A constant over a type variable.
    Generic,
}

fn make(table: &mut TermTable, alloc: Global, by: By) -> Result<TermId, Fault> {
    match by {
        By::Closed => closed(table, alloc),
        By::Open => open(table, alloc),
        By::Hiding => hiding(table, alloc),
        By::OpenAndHiding => open_and_hiding(table, alloc),
        By::Generic => generic(table, alloc),
    }
}

// Defines a constant, once or twice.
fn define_again(
    symbols: &mut Symbols,
    table: &mut TermTable,
    name: &Name,
    term: TermId,
    twice: bool,
) -> Result<Answer, Fault>
    requires term { IsTermAt table.old term.0 }
    requires known { AreKnownSymbols table.old symbols.old }
{
    symbols.define(table, name, term)?;
    if twice {
        symbols.define(table, name, term)?;
    }
    Ok(Answer::Done)
}

/// Defines a constant of this name by a term, once or twice.
pub(crate) fn define_by(
    symbols: &mut Symbols,
    table: &mut TermTable,
    alloc: Global,
    text: &[u8],
    by: By,
    twice: bool,
) -> Result<Answer, Fault>
    requires { (trees : Trees) → AreKnownSymbols trees symbols.old }
{
    let term = make(table, alloc, by)?;
    let name = name(alloc, text)?;
    if is_term(table, term) {
        define_again(symbols, table, &name, term, twice)
    } else {
        Err(Fault::Refused(Kind::WrongKind))
    }
}

#[test]
fn a_definition_is_refused_for_its_first_condition(rt: HostRuntime) -> Result<(), Fail> {
    let alloc = rt.alloc();
    let done = Ok(Answer::Done);
    let taken = Err(Fault::Refused(Kind::NameTaken));
    let open = Err(Fault::Refused(Kind::NotClosed));
    let extra = Err(Fault::Refused(Kind::ExtraTypeVars));
    assert!(rt; comes(alloc, Case::Define(b"yes", By::Closed), done));
    assert!(rt; comes(alloc, Case::Define(b"some", By::Generic), done));
    assert!(rt; comes(alloc, Case::Define(b"bool", By::Closed), done));
    assert!(rt; comes(alloc, Case::Define(b"=", By::Open), taken));
    assert!(rt; comes(alloc, Case::Define(b"yes", By::Open), open));
    assert!(rt; comes(alloc, Case::Define(b"yes", By::OpenAndHiding), open));
    assert!(rt; comes(alloc, Case::Define(b"yes", By::Hiding), extra));
    Ok(())
}

#[test]
fn a_name_that_is_taken_is_not_defined(rt: HostRuntime) -> Result<(), Fail> {
    let taken = Err(Fault::Refused(Kind::NameTaken));
    assert!(rt; comes(rt.alloc(), Case::DefineTwice(b"yes", By::Closed), taken));
    Ok(())
}
