//! What a matching gives: a type for each variable.
ghost use Rattle.std.specs.Prelude.{◌≡◌};

use crate::TypeId;
use hol_name::Name;
use std::marker::Model;

/// Pairs of a variable's name and a type's number. Contracts see the list of them.
#[derive(Drop)]
pub struct TypeMap {
    pairs: Vec<(Name, TypeId)>,
}

impl Model for TypeMap {
    ghost use Rattle.std.specs.Prelude.{List};
    ghost use Rattle.hol_spec.specs.Names.{Name as AName};
    ghost use Rattle.hol_type.specs.declared.table.TypeId.{TypeId as AnId};

    ghost Value = { List (AName × AnId) };

    ghost view = { λ map. map.pairs.items };
}

impl TypeMap {
    // These pairs.
    pub(crate) fn of(pairs: Vec<(Name, TypeId)>) -> Self
        ensures { result ≡ pairs.items }
    {
        TypeMap { pairs }
    }

    /// The pairs. They may be given to `TypeTable::subst`.
    pub fn pairs(&self) -> &[(Name, TypeId)]
        ensures { result.now ≡ self.now }
    {
        &self.pairs
    }
}
