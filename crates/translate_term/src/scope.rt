//! What stands for type variables and free variables.
ghost use Rattle.std.specs.Prelude.{◌≡◌, [], Some, if◌then◌else◌, option_map, OnOk, OnErr};
ghost use Rattle.std.specs.Map.{lookup};
ghost use Rattle.hol_spec.specs.Names.{Name as AName};
ghost use Rattle.hol_spec.specs.NameEquality.{name_eq};
ghost use Rattle.hol_term.specs.declared.Variable.{Variable as AVariable};
ghost use Rattle.sequent.specs.Params.{same_variable};
ghost use Rattle.tree_map.specs.Entries.{insert_entry};

use common::Memory;
use hol_name::Name;
use hol_term::Variable;
use lp_term::LpId;
use std::alloc::Global;
use std::marker::Model;
use tree_map::TreeMap;

/// The context of a translation: the trees that stand for type variables and for free variables.
#[derive(Drop)]
pub struct Scope {
    pub types: ScopeTypes,
    pub terms: ScopeTerms,
}

/// The trees that stand for type variables. Contracts see the list of pairs.
#[derive(Drop)]
pub struct ScopeTypes {
    pairs: TreeMap<Name, LpId>,
}

/// The trees that stand for free variables. Contracts see the list of pairs.
#[derive(Drop)]
pub struct ScopeTerms {
    pairs: TreeMap<Variable, LpId>,
}

impl Model for ScopeTypes {
    ghost use Rattle.std.specs.Prelude.{List};
    ghost use Rattle.hol_spec.specs.Names.{Name as AName};
    ghost use Rattle.lp_term.specs.declared.LpId.{LpId as AnId};

    ghost Value = { List (AName × AnId) };

    ghost view = { λ s. s.pairs };
}

impl Model for ScopeTerms {
    ghost use Rattle.std.specs.Prelude.{List};
    ghost use Rattle.hol_term.specs.declared.Variable.{Variable as AVariable};
    ghost use Rattle.lp_term.specs.declared.LpId.{LpId as AnId};

    ghost Value = { List (AVariable × AnId) };

    ghost view = { λ s. s.pairs };
}

impl Scope {
    /// The context in which nothing is told. It takes no memory.
    pub fn new(alloc: Global) -> Self
        ensures types { result.types ≡ [] }
        ensures terms { result.terms ≡ [] }
    {
        Scope {
            types: ScopeTypes::new(alloc),
            terms: ScopeTerms::new(alloc),
        }
    }
}

impl ScopeTypes {
    /// No type variable. It takes no memory.
    pub fn new(alloc: Global) -> Self
        ensures empty { result ≡ [] }
    {
        ScopeTypes {
            pairs: TreeMap::new(alloc),
        }
    }

    /// Lets a tree stand for a type variable, in place of what stood for it.
    pub fn set(&mut self, name: Name, tree: LpId) -> Result<(), Memory>
        ensures set { OnOk result (self.new ≡ insert_entry name_eq self.old name tree) }
        ensures unchanged { OnErr result (self.new ≡ self.old) }
    {
        self.pairs.insert(name, tree)?;
        Ok(())
    }

    /// What stands for a type variable.
    pub fn find(&self, name: &Name) -> Option<LpId>
        ensures { result ≡ lookup (name_eq name.now) self.now }
    {
        self.pairs.get(name)
    }
}

impl ScopeTerms {
    /// No free variable. It takes no memory.
    pub fn new(alloc: Global) -> Self
        ensures empty { result ≡ [] }
    {
        ScopeTerms {
            pairs: TreeMap::new(alloc),
        }
    }

    /// Lets a tree stand for a free variable, in place of what stood for it.
    pub fn set(&mut self, variable: Variable, tree: LpId) -> Result<(), Memory>
        ensures set { OnOk result (self.new ≡ insert_entry same_variable self.old variable tree) }
        ensures unchanged { OnErr result (self.new ≡ self.old) }
    {
        self.pairs.insert(variable, tree)?;
        Ok(())
    }

    /// What stands for a free variable.
    pub fn find(&self, variable: &Variable) -> Option<LpId>
        ensures { result ≡ lookup (same_variable variable.now) self.now }
    {
        self.pairs.get(variable)
    }
}
