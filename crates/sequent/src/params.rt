//! The parameters of a sequent: its type variables and its free variables.
ghost use Rattle.std.specs.Prelude.{◌≡◌, ◌<◌, [], ◌∷◌, length, OnOk};
ghost use Rattle.hol_spec.specs.Lists.{union};
ghost use Rattle.hol_spec.specs.NameEquality.{name_eq};
ghost use Rattle.hol_spec.specs.Terms.{free_places, type_variable_places, variable_eq};
ghost use Rattle.hol_type.specs.Tables as type;
ghost use Rattle.hol_term.specs.Subterms.{HaveTypes, variables_of};
ghost use Rattle.hol_term.specs.Tables.{term_at};
ghost use Rattle.sequent.specs.Params.{same_variable};

use common::Memory;
use hol_term::{Names, TermId, TermTable, Variable};
use std::alloc::Global;
use std::marker::Model;
use tree_map::TreeSet;

/// The parameters of a sequent, in order of first occurrence.
#[derive(Drop)]
pub struct Params {
    pub type_vars: Names,
    pub free_vars: Variables,
}

/// Variables without repeats. Contracts see the list of them.
#[derive(Drop)]
pub struct Variables {
    variables: TreeSet<Variable>,
}

impl Model for Variables {
    ghost use Rattle.std.specs.Prelude.{List};
    ghost use Rattle.hol_term.specs.declared.Variable.{Variable as AVariable};

    ghost Value = { List AVariable };

    ghost view = { λ v. v.variables };
}

impl Params {
    /// No parameters. It takes no memory.
    pub fn new(alloc: Global) -> Self
        ensures type_vars { result.type_vars ≡ [] }
        ensures free_vars { result.free_vars ≡ [] }
    {
        Params {
            type_vars: Names::new(alloc),
            free_vars: Variables::new(alloc),
        }
    }

    // Takes what is new of a term's parameters.
    pub(crate) fn visit(&mut self, table: &TermTable, id: TermId) -> Result<(), Memory>
        requires { id.0 < length table.now.terms }
        ensures type_vars { OnOk result (self.new.type_vars ≡ union name_eq self.old.type_vars (type_variable_places (term_at table.now id.0))) }
        ensures free_vars { OnOk result (HaveTypes table.now self.old.free_vars
            → variables_of table.now self.new.free_vars ≡ union variable_eq (variables_of table.now self.old.free_vars) (free_places (term_at table.now id.0))) }
        ensures known { OnOk result (HaveTypes table.now self.old.free_vars → HaveTypes table.now self.new.free_vars) }
        ensures one_each { OnOk result (type.IsDistinct table.now.types) }
    {
        let names = table.type_vars(id)?;
        self.type_vars.unite(&names)?;
        self.free_vars.unite(table.free_vars(id)?)
    }
}

impl Variables {
    fn new(alloc: Global) -> Self
        ensures empty { result ≡ [] }
    {
        Variables {
            variables: TreeSet::new(alloc),
        }
    }

    /// The variables, in the order in which they came.
    pub fn variables(&self) -> &[Variable]
        ensures { result.now ≡ self.now }
    {
        self.variables.as_slice()
    }

    // Takes what is new of some variables.
    fn unite(&mut self, found: Vec<Variable>) -> Result<(), Memory>
        ensures united { OnOk result (self.new ≡ union same_variable self.old found.items) }
    {
        for variable in found {
            self.add(variable)?;
        }
        Ok(())
    }

    /// Takes a variable, if it is new.
    pub fn add(&mut self, variable: Variable) -> Result<(), Memory>
        ensures added { OnOk result (self.new ≡ union same_variable self.old (variable ∷ [])) }
    {
        self.variables.insert_full(variable)?;
        Ok(())
    }
}
