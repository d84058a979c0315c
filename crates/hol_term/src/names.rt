//! Names, each kept once, in the order in which they came.
ghost use Rattle.std.specs.Prelude.{◌≡◌, [], ◌∷◌, IfOk, OnOk};
ghost use Rattle.hol_spec.specs.Lists.{union};
ghost use Rattle.hol_spec.specs.NameEquality.{name_eq};

use common::Memory;
use hol_name::Name;
use std::alloc::Global;
use std::marker::Model;
use tree_map::TreeSet;

/// Names without repeats. Contracts see the list of them.
#[derive(Drop)]
pub struct Names {
    names: TreeSet<Name>,
}

impl Model for Names {
    ghost use Rattle.std.specs.Prelude.{List};
    ghost use Rattle.hol_spec.specs.Names.{Name as AName};

    ghost Value = { List AName };

    ghost view = { λ n. n.names };
}

impl Names {
    /// No names. It takes no memory.
    pub fn new(alloc: Global) -> Self
        ensures empty { result ≡ [] }
    {
        Names {
            names: TreeSet::new(alloc),
        }
    }

    /// The names, in the order in which they came.
    pub fn names(&self) -> &[Name]
        ensures { result.now ≡ self.now }
    {
        self.names.as_slice()
    }

    /// Takes what is new of some names.
    pub fn unite(&mut self, found: &[Name]) -> Result<(), Memory>
        ensures united { OnOk result (self.new ≡ union name_eq self.old found.now) }
    {
        for name in found {
            self.add(name)?;
        }
        Ok(())
    }

    /// Takes a name, if it is new.
    pub fn add(&mut self, name: &Name) -> Result<(), Memory>
        ensures added { OnOk result (self.new ≡ union name_eq self.old (name.now ∷ [])) }
    {
        if self.names.contains(name) {
            return Ok(());
        }
        self.names.insert_full(name.clone()?)?;
        Ok(())
    }

    // The names as an array.
    pub(crate) fn listed(&self, alloc: Global) -> Result<Vec<Name>, Memory>
        ensures { IfOk result (λ names. names.items ≡ self.now) }
    {
        copied(alloc, self.names.as_slice())
    }
}

// The names, each copied.
fn copied(alloc: Global, names: &[Name]) -> Result<Vec<Name>, Memory>
    ensures { IfOk result (λ copy. copy.items ≡ names.now) }
{
    let mut copy = Vec::new(alloc);
    push_copies(names, &mut copy)?;
    Ok(copy)
}

// Puts a copy of each name where there is none yet.
fn push_copies(names: &[Name], copy: &mut Vec<Name>) -> Result<(), Memory>
    requires none { copy.old.items ≡ [] }
    ensures { OnOk result (copy.new.items ≡ names.now) }
{
    for name in names {
        copy.push(name.clone()?)?;
    }
    Ok(())
}
