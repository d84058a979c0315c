//! Many symbols: each is found, however many are taken.
ghost use Rattle.std.specs.Prelude.{◌≡◌, ◌<◌, length};
ghost use Rattle.hol_term.specs.Tables.{Trees};
ghost use Rattle.hol_defs.specs.Symbols.{AreKnownSymbols};

use crate::cases::{Answer, Case, comes};
use crate::made::name;
use common::Fault;
use hol_defs::{SymbolKind, Symbols};
use hol_name::Name;
use hol_term::TermTable;
use hol_type::TypeId;
use std::alloc::Global;
use std::test::Fail;

/// How many names are taken, each as an operator and as a constant.
const COUNT: u32 = 50_000;

// The name of one component that is this number's bytes.
fn numbered(alloc: Global, number: u32) -> Result<Name, Fault> {
    name(alloc, &number.to_le_bytes())
}

// Uses the name of a number as an operator and as a constant.
fn take(
    symbols: &mut Symbols,
    table: &mut TermTable,
    alloc: Global,
    ty: TypeId,
    number: u32,
) -> Result<(), Fault>
    requires ty { ty.0 < length table.old.types }
    requires known { AreKnownSymbols table.old symbols.old }
    ensures table { table.new ≡ table.old }
    ensures known { AreKnownSymbols table.new symbols.new }
{
    let name = numbered(alloc, number)?;
    symbols.use_op(&name, 1)?;
    symbols.use_const(table, &name, ty)
}

// Uses the name of each number.
fn take_all(
    symbols: &mut Symbols,
    table: &mut TermTable,
    alloc: Global,
    ty: TypeId,
) -> Result<(), Fault>
    requires ty { ty.0 < length table.old.types }
    requires known { AreKnownSymbols table.old symbols.old }
{
    for number in 0..COUNT {
        take(symbols, table, alloc, ty, number)?;
    }
    Ok(())
}

// Whether the name of a number is taken, as an operator and as a constant.
fn is_taken(symbols: &Symbols, alloc: Global, number: u32) -> Result<bool, Fault> {
    let name = numbered(alloc, number)?;
    let operator = symbols.op_kind(&name) == Some(SymbolKind::Input);
    let constant = symbols.const_kind(&name) == Some(SymbolKind::Input);
    Ok(operator && constant)
}

// The first number whose name is not taken.
fn first_free(symbols: &Symbols, alloc: Global) -> Result<u32, Fault> {
    for number in 0..u32::MAX {
        let taken = is_taken(symbols, alloc, number)?;
        if !taken {
            return Ok(number);
        }
    }
    Ok(u32::MAX)
}

/// Uses all the names, and gives the first number whose name is not taken then, and how many symbols are.
pub(crate) fn taken(
    symbols: &mut Symbols,
    table: &mut TermTable,
    alloc: Global,
) -> Result<Answer, Fault>
    requires { (trees : Trees) → AreKnownSymbols trees symbols.old }
{
    let ty = table.ty_var(&numbered(alloc, 0)?)?;
    take_all(symbols, table, alloc, ty)?;
    let free = first_free(symbols, alloc)?;
    Ok(Answer::Free(free, symbols.count()))
}

#[test]
fn many_symbols_are_found(rt: HostRuntime) -> Result<(), Fail> {
    assert!(rt; comes(rt.alloc(), Case::Many, Ok(Answer::Free(50_000, 100_000))));
    Ok(())
}
