//! Names, and what numbers a table has: a check at run time is cheaper to prove than what each call promises of its answer.
ghost use Rattle.std.specs.Prelude.{◌<◌, length};
ghost use Rattle.std.specs.Bool.{OnTrue};
ghost use Rattle.hol_term.specs.Tables.{IsTermAt};

use common::Fault;
use hol_name::Name;
use hol_term::{TermId, TermTable};
use hol_type::TypeId;
use std::alloc::Global;

/// The name of one component.
pub(crate) fn name(alloc: Global, text: &[u8]) -> Result<Name, Fault> {
    match Name::single(alloc, text) {
        Ok(name) => Ok(name),
        Err(_) => Err(Fault::Memory),
    }
}

/// Whether the number is that of a type.
pub(crate) fn is_type(table: &TermTable, id: TypeId) -> bool
    ensures { OnTrue result (id.0 < length table.now.types) }
{
    id.0 < table.types().count()
}

/// Whether the number is that of a term.
pub(crate) fn is_term(table: &TermTable, id: TermId) -> bool
    ensures { OnTrue result (IsTermAt table.now id.0) }
{
    if id.0 >= table.count() {
        return false;
    }
    match table.ty(id) {
        Some(_) => true,
        None => false,
    }
}
