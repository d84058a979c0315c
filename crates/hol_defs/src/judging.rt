//! What is judged of a defining term.
ghost use Rattle.std.specs.Prelude.{◌≡◌, ◌<◌, [], length, IfOk, OnOk};
ghost use Rattle.std.specs.List.{list_all};
ghost use Rattle.hol_spec.specs.Defining.{is_closed as is_closed_term, has_type_variables_of};
ghost use Rattle.hol_spec.specs.Lists.{is_in, union};
ghost use Rattle.hol_spec.specs.NameEquality.{name_eq};
ghost use Rattle.hol_term.specs.Tables.{term_at, type_at, IsTermAt};
ghost use Rattle.hol_defs.specs.Faults.{has_own_variables as has_its_own};

use crate::tables::NameSet;
use common::Memory;
use hol_name::Name;
use hol_term::{TermId, TermTable};
use hol_type::TypeId;
use std::alloc::Global;

// Whether a term has no free variable.
pub(crate) fn is_closed(table: &TermTable, term: TermId) -> Result<bool, Memory>
    requires { term.0 < length table.now.terms }
    ensures { IfOk result (λ is. is ≡ is_closed_term (term_at table.now term.0)) }
{
    let variables = table.free_vars(term)?;
    Ok(variables.len() == 0)
}

// Whether the type of a term has each of its type variables.
pub(crate) fn has_own_variables(
    alloc: Global,
    table: &TermTable,
    term: TermId,
) -> Result<bool, Memory>
    requires { IsTermAt table.now term.0 }
    ensures { IfOk result (λ has. has ≡ has_its_own (term_at table.now term.0)) }
{
    let has = has_variables(alloc, table, table.type_of(term), term)?;
    Ok(has)
}

// Whether a type has each type variable of a term.
pub(crate) fn has_variables(
    alloc: Global,
    table: &TermTable,
    ty: TypeId,
    term: TermId,
) -> Result<bool, Memory>
    requires ty { ty.0 < length table.now.types }
    requires term { term.0 < length table.now.terms }
    ensures { IfOk result (λ has. has ≡ has_type_variables_of (type_at table.now ty.0) (term_at table.now term.0)) }
{
    let mut own = NameSet::new(alloc);
    let has = has_names(table, ty, term, &mut own);
    drop(own);
    has
}

// The same, with a set for the type variables of the type.
fn has_names(table: &TermTable, ty: TypeId, term: TermId, own: &mut NameSet) -> Result<bool, Memory>
    requires ty { ty.0 < length table.now.types }
    requires term { term.0 < length table.now.terms }
    requires own { own.old ≡ [] }
    ensures { IfOk result (λ has. has ≡ has_type_variables_of (type_at table.now ty.0) (term_at table.now term.0)) }
{
    own.unite(table.types().vars(ty)?)?;
    let names = table.type_vars(term)?;
    Ok(are_among(own, &names))
}

// Whether each name is in a set.
pub(crate) fn are_among(set: &NameSet, names: &[Name]) -> bool
    ensures { result ≡ list_all (λ n. is_in name_eq n set.now) names.now }
{
    names.iter().all(|name| set.has(name))
}

// The names, each copied.
pub(crate) fn copied(alloc: Global, names: &[Name]) -> Result<Vec<Name>, Memory>
    ensures { IfOk result (λ copy. copy.items ≡ names.now) }
{
    let mut copy = Vec::new(alloc);
    match push_copies(&mut copy, names) {
        Ok(()) => Ok(copy),
        Err(Memory) => {
            drop(copy);
            Err(Memory)
        }
    }
}

// Puts copies of the names.
fn push_copies(copy: &mut Vec<Name>, names: &[Name]) -> Result<(), Memory>
    requires { copy.old.items ≡ [] }
    ensures { OnOk result (copy.new.items ≡ names.now) }
{
    for name in names {
        copy.push(name.clone()?)?;
    }
    Ok(())
}
