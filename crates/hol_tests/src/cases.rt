//! What is tried, over symbols and a table of its own, and what comes of it.
ghost use Rattle.hol_term.specs.Tables.{Trees};
ghost use Rattle.hol_defs.specs.Symbols.{AreKnownSymbols};

use crate::constants::{Shape, kind_of, use_at};
use crate::definitions::{By, define_by};
use crate::many::taken;
use crate::operators::{kinds_of_used, use_operator, use_thrice};
use common::Fault;
use hol_defs::{Generic, SymbolKind, Symbols};
use hol_term::TermTable;
use std::alloc::Global;

/// What is tried, where no symbol is taken.
#[derive(Clone, Copy)]
pub(crate) enum Case<'a> {
    /// An operator of this name is used with so many arguments.
    Operator(&'a [u8], usize),
    /// An operator of this name is used, and then the name is looked up.
    KindsOfUsed(&'a [u8]),
    /// One operator is used with none, with two and again with two arguments.
    Thrice,
    /// A constant of this name is used at a type.
    Constant(&'a [u8], Shape),
    /// A constant of this name is looked up.
    KindOf(&'a [u8]),
    /// A constant of this name is defined by a term.
    Define(&'a [u8], By),
    /// A constant of this name is defined twice by a term.
    DefineTwice(&'a [u8], By),
    /// Many names are used, and then looked up.
    Many,
}

/// What comes of it.
#[derive(Clone, Copy, PartialEq, Eq)]
pub(crate) enum Answer {
    /// It is done.
    Done,
    /// So many symbols are taken.
    Count(usize),
    /// The kinds of the name as an operator and as a constant.
    Kinds(Option<SymbolKind>, Option<SymbolKind>),
    /// The kind and the generic type of the constant.
    Kind(Option<SymbolKind>, Option<Generic>),
    /// The first number whose name is not taken, and how many symbols are.
    Free(u32, usize),
}

fn tried_over(
    symbols: &mut Symbols,
    table: &mut TermTable,
    alloc: Global,
    case: Case,
) -> Result<Answer, Fault>
    requires { (trees : Trees) → AreKnownSymbols trees symbols.old }
{
    match case {
        Case::Operator(text, arity) => use_operator(symbols, alloc, text, arity),
        Case::KindsOfUsed(text) => kinds_of_used(symbols, alloc, text),
        Case::Thrice => use_thrice(symbols, alloc),
        Case::Constant(text, shape) => use_at(symbols, table, alloc, text, shape),
        Case::KindOf(text) => kind_of(symbols, alloc, text),
        Case::Define(text, by) => define_by(symbols, table, alloc, text, by, false),
        Case::DefineTwice(text, by) => define_by(symbols, table, alloc, text, by, true),
        Case::Many => taken(symbols, table, alloc),
    }
}

/// What comes of a case.
pub(crate) fn tried(alloc: Global, case: Case) -> Result<Answer, Fault> {
    let mut symbols = Symbols::new(alloc)?;
    let mut table = TermTable::new(alloc);
    let answer = tried_over(&mut symbols, &mut table, alloc, case);
    drop(table);
    drop(symbols);
    answer
}

/// Whether this comes of a case.
pub(crate) fn comes(alloc: Global, case: Case, wanted: Result<Answer, Fault>) -> bool {
    tried(alloc, case) == wanted
}
