//! The names that are needed.
ghost use Rattle.std.specs.Prelude.{◌≡◌, ◌||◌, [], OnOk};
ghost use Rattle.hol_spec.specs.Lists.{is_in};
ghost use Rattle.hol_spec.specs.Names.{Name as AName};
ghost use Rattle.hol_spec.specs.NameEquality.{name_eq};

use common::Memory;
use hol_name::Name;
use std::alloc::Global;
use std::collections::BTreeSet;
use std::marker::Model;

/// Names, each once. Contracts see the list of them.
#[derive(Drop)]
pub(crate) struct NameSet {
    names: BTreeSet<Name>,
}

impl Model for NameSet {
    ghost use Rattle.std.specs.Prelude.{List};
    ghost use Rattle.hol_spec.specs.Names.{Name as AName};

    ghost Value = { List AName };

    ghost view = { λ s. s.names.keys };
}

impl NameSet {
    // No names. It takes no memory.
    pub(crate) fn new(alloc: Global) -> Self
        ensures empty { result ≡ [] }
    {
        NameSet {
            names: BTreeSet::new(alloc),
        }
    }

    // Whether a name is among them.
    pub(crate) fn has(&self, name: &Name) -> bool
        ensures { result ≡ is_in name_eq name.now self.now }
    {
        self.names.contains(name)
    }

    // Takes a name, if it is new.
    pub(crate) fn note(&mut self, name: &Name) -> Result<(), Memory>
        ensures { OnOk result ((n : AName) → is_in name_eq n self.new ≡ (is_in name_eq n self.old || name_eq n name.now)) }
    {
        if self.has(name) {
            return Ok(());
        }
        self.names.insert(name.clone()?)?;
        Ok(())
    }
}
