//! The tables by which symbols are found.
ghost use Rattle.std.specs.Prelude.{◌≡◌, ◌++◌, ◌∷◌, [], None, length, take, OnOk, OnErr};
ghost use Rattle.std.specs.Map.{lookup};
ghost use Rattle.hol_spec.specs.Lists.{is_in, union};
ghost use Rattle.hol_spec.specs.NameEquality.{name_eq};
ghost use Rattle.hol_term.specs.declared.Variable.{Variable as AVariable};
ghost use Rattle.hol_defs.specs.Indexes.{same_use};
ghost use Rattle.hol_defs.specs.Lists.{same_variable};

use common::Memory;
use hol_name::Name;
use hol_term::{TermId, Variable};
use hol_type::TypeId;
use std::alloc::Global;
use std::marker::Model;
use tree_map::{TreeMap, TreeSet};

/// Names, each once, in order of coming. Contracts see the list of them.
#[derive(Drop)]
pub(crate) struct NameSet {
    names: TreeSet<Name>,
}

impl Model for NameSet {
    ghost use Rattle.std.specs.Prelude.{List};
    ghost use Rattle.hol_spec.specs.Names.{Name as AName};

    ghost Value = { List AName };

    ghost view = { λ s. s.names };
}

impl NameSet {
    pub(crate) fn new(alloc: Global) -> Self
        ensures empty { result ≡ [] }
    {
        NameSet {
            names: TreeSet::new(alloc),
        }
    }

    pub(crate) fn has(&self, name: &Name) -> bool
        ensures { result ≡ is_in name_eq name.now self.now }
    {
        self.names.contains(name)
    }

    pub(crate) fn len(&self) -> usize
        ensures { result ≡ length self.now }
    {
        self.names.len()
    }

    // Takes a name, if it is new.
    pub(crate) fn add(&mut self, name: Name) -> Result<(), Memory>
        ensures added { OnOk result (self.new ≡ union name_eq self.old (name ∷ [])) }
        ensures unchanged { OnErr result (self.new ≡ self.old) }
    {
        self.names.insert_full(name)?;
        Ok(())
    }

    // Takes a copy of a name, if it is new.
    pub(crate) fn add_copy(&mut self, name: &Name) -> Result<(), Memory>
        ensures added { OnOk result (self.new ≡ union name_eq self.old (name.now ∷ [])) }
        ensures unchanged { OnErr result (self.new ≡ self.old) }
    {
        self.add(name.clone()?)?;
        Ok(())
    }

    // Takes what is new of some names.
    pub(crate) fn unite(&mut self, names: Vec<Name>) -> Result<(), Memory>
        ensures united { OnOk result (self.new ≡ union name_eq self.old names.items) }
    {
        for name in names {
            self.add(name)?;
        }
        Ok(())
    }

    // Gives up all names from this place on.
    pub(crate) fn cut(&mut self, len: usize)
        ensures { self.new ≡ take len self.old }
    {
        self.names.truncate(len);
    }
}

/// Variables, each once, in order of coming. Contracts see the list of them.
#[derive(Drop)]
pub(crate) struct VariableSet {
    variables: TreeSet<Variable>,
}

impl Model for VariableSet {
    ghost use Rattle.std.specs.Prelude.{List};
    ghost use Rattle.hol_term.specs.declared.Variable.{Variable as AVariable};

    ghost Value = { List AVariable };

    ghost view = { λ s. s.variables };
}

impl VariableSet {
    pub(crate) fn new(alloc: Global) -> Self
        ensures empty { result ≡ [] }
    {
        VariableSet {
            variables: TreeSet::new(alloc),
        }
    }

    pub(crate) fn has(&self, variable: &Variable) -> bool
        ensures { result ≡ is_in same_variable variable.now self.now }
    {
        self.variables.contains(variable)
    }

    pub(crate) fn len(&self) -> usize
        ensures { result ≡ length self.now }
    {
        self.variables.len()
    }

    // Takes a variable, if it is new.
    pub(crate) fn add(&mut self, variable: Variable) -> Result<(), Memory>
        ensures added { OnOk result (self.new ≡ union same_variable self.old (variable ∷ [])) }
    {
        self.variables.insert_full(variable)?;
        Ok(())
    }
}

/// The terms of variables, of each the one that came first. Contracts see the list of the pairs.
#[derive(Drop)]
pub(crate) struct FirstTerms {
    terms: TreeMap<Variable, TermId>,
}

impl Model for FirstTerms {
    ghost use Rattle.std.specs.Prelude.{List};
    ghost use Rattle.hol_term.specs.declared.TermId.{TermId as AnId};
    ghost use Rattle.hol_term.specs.declared.Variable.{Variable as AVariable};

    ghost Value = { List (AVariable × AnId) };

    ghost view = { λ s. s.terms };
}

impl FirstTerms {
    pub(crate) fn new(alloc: Global) -> Self
        ensures empty { result ≡ [] }
    {
        FirstTerms {
            terms: TreeMap::new(alloc),
        }
    }

    pub(crate) fn find(&self, variable: &Variable) -> Option<TermId>
        ensures { result ≡ lookup (same_variable variable.now) self.now }
    {
        self.terms.get(variable)
    }

    // Notes the term of a variable, if it has none.
    pub(crate) fn note(&mut self, variable: Variable, term: TermId) -> Result<(), Memory>
        ensures { OnOk result ((v : AVariable) → lookup (same_variable v) self.new ≡ lookup (same_variable v) (self.old ++ (variable, term) ∷ [])) }
    {
        if self.find(&variable).is_some() {
            return Ok(());
        }
        self.terms.insert(variable, term)?;
        Ok(())
    }
}

/// Names of operators, each with a number of arguments. Contracts see the list of the pairs.
#[derive(Drop)]
pub(crate) struct Uses {
    uses: TreeSet<(Name, usize)>,
}

impl Model for Uses {
    ghost use Rattle.std.specs.Prelude.{List, ℕ};
    ghost use Rattle.hol_spec.specs.Names.{Name as AName};

    ghost Value = { List (AName × ℕ) };

    ghost view = { λ s. s.uses };
}

impl Uses {
    pub(crate) fn new(alloc: Global) -> Self
        ensures empty { result ≡ [] }
    {
        Uses {
            uses: TreeSet::new(alloc),
        }
    }

    pub(crate) fn has(&self, operator: &(Name, usize)) -> bool
        ensures { result ≡ is_in same_use operator.now self.now }
    {
        self.uses.contains(operator)
    }

    pub(crate) fn len(&self) -> usize
        ensures { result ≡ length self.now }
    {
        self.uses.len()
    }

    // Takes an operator, if it is new at this number of arguments.
    pub(crate) fn add(&mut self, operator: (Name, usize)) -> Result<(), Memory>
        ensures added { OnOk result (self.new ≡ union same_use self.old (operator ∷ [])) }
        ensures unchanged { OnErr result (self.new ≡ self.old) }
    {
        self.uses.insert_full(operator)?;
        Ok(())
    }

    // Gives up all operators from this place on.
    pub(crate) fn cut(&mut self, len: usize)
        ensures { self.new ≡ take len self.old }
    {
        self.uses.truncate(len);
    }
}

/// The generic types of constants, by name. Contracts see the list of the pairs.
#[derive(Drop)]
pub(crate) struct Generics {
    types: TreeMap<Name, TypeId>,
}

impl Model for Generics {
    ghost use Rattle.std.specs.Prelude.{List};
    ghost use Rattle.hol_spec.specs.Names.{Name as AName};
    ghost use Rattle.hol_type.specs.declared.table.TypeId.{TypeId as AnId};

    ghost Value = { List (AName × AnId) };

    ghost view = { λ s. s.types };
}

impl Generics {
    pub(crate) fn new(alloc: Global) -> Self
        ensures empty { result ≡ [] }
    {
        Generics {
            types: TreeMap::new(alloc),
        }
    }

    pub(crate) fn find(&self, name: &Name) -> Option<TypeId>
        ensures { result ≡ lookup (name_eq name.now) self.now }
    {
        self.types.get(name)
    }

    pub(crate) fn len(&self) -> usize
        ensures { result ≡ length self.now }
    {
        self.types.len()
    }

    // Notes the generic type of a constant that has none.
    pub(crate) fn add(&mut self, name: &Name, ty: TypeId) -> Result<(), Memory>
        requires { lookup (name_eq name.now) self.old ≡ None }
        ensures added { OnOk result (self.new ≡ self.old ++ (name.now, ty) ∷ []) }
        ensures unchanged { OnErr result (self.new ≡ self.old) }
    {
        let own = name.clone()?;
        self.types.insert(own, ty)?;
        Ok(())
    }

    // Gives up all constants from this place on.
    pub(crate) fn cut(&mut self, len: usize)
        ensures { self.new ≡ take len self.old }
    {
        self.types.truncate(len);
    }
}

/// How many arguments operators take, by name. Contracts see the list of the pairs.
#[derive(Drop)]
pub(crate) struct Arities {
    counts: TreeMap<Name, usize>,
}

impl Model for Arities {
    ghost use Rattle.std.specs.Prelude.{List, ℕ};
    ghost use Rattle.hol_spec.specs.Names.{Name as AName};

    ghost Value = { List (AName × ℕ) };

    ghost view = { λ s. s.counts };
}

impl Arities {
    pub(crate) fn new(alloc: Global) -> Self
        ensures empty { result ≡ [] }
    {
        Arities {
            counts: TreeMap::new(alloc),
        }
    }

    pub(crate) fn find(&self, name: &Name) -> Option<usize>
        ensures { result ≡ lookup (name_eq name.now) self.now }
    {
        self.counts.get(name)
    }

    // Notes how many arguments an operator takes of which this isn't known.
    pub(crate) fn add(&mut self, name: &Name, count: usize) -> Result<(), Memory>
        requires { lookup (name_eq name.now) self.old ≡ None }
        ensures added { OnOk result (self.new ≡ self.old ++ (name.now, count) ∷ []) }
        ensures unchanged { OnErr result (self.new ≡ self.old) }
    {
        let own = name.clone()?;
        self.counts.insert(own, count)?;
        Ok(())
    }
}
