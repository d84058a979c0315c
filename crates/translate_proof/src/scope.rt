//! What stands for type variables, free variables and hypotheses.
ghost use Rattle.std.specs.Prelude.{◌≡◌, ◌<◌, ◌^◌, [], IfOk, OnOk};
ghost use Rattle.std.specs.Map.{lookup};
ghost use Rattle.hol_spec.specs.NameEquality.{name_eq};
ghost use Rattle.tree_map.specs.Entries.{insert_entry};
ghost use Rattle.sequent.specs.Params.{same_variable};
ghost use Rattle.sequent.specs.Sequents.{same_id};
ghost use Rattle.lp_term.specs.Tables.{Keeps};
ghost use Rattle.translate_term.specs.Walks.{Grows};
ghost use Rattle.translate_proof.specs.Binding.{BindsProof, BindsVariable, PlacesProofs, PlacesTerms, PlacesTypes, StandsPlaced, StandsUnderProof, StandsUnderVariable};
ghost use Rattle.translate_proof.specs.Placing.{TellsNothing};

use common::Memory;
use hol_name::Name;
use hol_term::{TermId, Variable};
use holide_sig::Module;
use lp_term::{LpId, LpNode, LpTable};
use sequent::Params;
use std::alloc::Global;
use translate_term::{Scope, ScopeTerms, ScopeTypes};
use tree_map::TreeMap;

/// The trees that stand for type variables, free variables and hypotheses. Those for variables are the scope of translations.
#[derive(Drop)]
pub struct Environment {
    pub(crate) alloc: Global,
    pub(crate) scope: Scope,
    pub(crate) proofs: TreeMap<TermId, LpId>,
}

impl Environment {
    /// What stands for a sequent's parameters where so many binders more are inside theirs.
    pub fn of(
        alloc: Global,
        target: &mut Module,
        params: &Params,
        hyps: &[TermId],
        inside: u128,
    ) -> Result<Environment, Memory>
        requires { inside < 2 ^ 64 }
        ensures made { IfOk result (StandsPlaced target.old target.new params.now.type_vars params.now.free_vars hyps.now inside) }
        ensures grows { Grows target.old target.new }
    {
        let mut made = Environment::new(alloc);
        made.place(target, params, hyps, inside)?;
        Ok(made)
    }

    /// What stands for type variables under a binder for each, where so many binders more are inside theirs and nothing else is told.
    pub fn of_types(
        alloc: Global,
        target: &mut Module,
        names: &[Name],
        inside: u128,
    ) -> Result<Environment, Memory>
        requires { inside < 2 ^ 65 }
        ensures made { IfOk result (StandsPlaced target.old target.new names.now [] [] inside) }
        ensures grows { Grows target.old target.new }
    {
        let mut made = Environment::new(alloc);
        let depth = inside + names.len() as u128;
        place_types(&mut made.scope.types, &mut target.table, names, depth)?;
        Ok(made)
    }

    /// Lets the binders of a sequent's parameters stand for these where so many binders more are inside theirs, and nothing is told yet.
    fn place(
        &mut self,
        target: &mut Module,
        params: &Params,
        hyps: &[TermId],
        inside: u128,
    ) -> Result<(), Memory>
        requires inside { inside < 2 ^ 64 }
        requires nothing { TellsNothing self.old }
        ensures made { OnOk result (StandsPlaced target.old target.new params.now.type_vars params.now.free_vars hyps.now inside self.new) }
        ensures grows { Grows target.old target.new }
    {
        let names = params.type_vars.names();
        let variables = params.free_vars.variables();
        let proofs = inside + hyps.len() as u128;
        let terms = proofs + variables.len() as u128;
        let types = terms + names.len() as u128;
        place_types(&mut self.scope.types, &mut target.table, names, types)?;
        place_terms(&mut self.scope.terms, &mut target.table, variables, terms)?;
        place_proofs(&mut self.proofs, &mut target.table, hyps, proofs)?;
        Ok(())
    }

    /// What stands for them under one binder more, which stands for a variable.
    pub fn under_variable(
        alloc: Global,
        target: &mut Module,
        params: &Params,
        hyps: &[TermId],
        variable: &Variable,
    ) -> Result<Environment, Memory>
        ensures made { IfOk result (StandsUnderVariable target.old target.new params.now hyps.now variable.now) }
        ensures grows { Grows target.old target.new }
    {
        let mut made = Environment::of(alloc, target, params, hyps, 1)?;
        made.bind_variable(target, variable)?;
        Ok(made)
    }

    /// What stands for them under one binder more, which proves a formula.
    pub fn under_proof(
        alloc: Global,
        target: &mut Module,
        params: &Params,
        hyps: &[TermId],
        id: TermId,
    ) -> Result<Environment, Memory>
        ensures made { IfOk result (StandsUnderProof target.old target.new params.now hyps.now id) }
        ensures grows { Grows target.old target.new }
    {
        let mut made = Environment::of(alloc, target, params, hyps, 1)?;
        made.bind_proof(target, id)?;
        Ok(made)
    }

    /// Lets the innermost binder stand for a variable.
    fn bind_variable(&mut self, target: &mut Module, variable: &Variable) -> Result<(), Memory>
        ensures bound { OnOk result (BindsVariable target.old target.new self.old variable.now self.new) }
        ensures grows { Grows target.old target.new }
    {
        let tree = target.table.node(LpNode::Var(0))?;
        set_term(&mut self.scope.terms, variable, tree)?;
        Ok(())
    }

    /// Lets it prove a formula.
    fn bind_proof(&mut self, target: &mut Module, id: TermId) -> Result<(), Memory>
        ensures bound { OnOk result (BindsProof target.old target.new self.old id self.new) }
        ensures grows { Grows target.old target.new }
    {
        let tree = target.table.node(LpNode::Var(0))?;
        set_proof(&mut self.proofs, id, tree)?;
        Ok(())
    }

    // The environment in which nothing is told.
    fn new(alloc: Global) -> Environment
        ensures nothing { TellsNothing result }
    {
        Environment {
            alloc,
            scope: Scope::new(alloc),
            proofs: TreeMap::new(alloc),
        }
    }

    // What is told of a hypothesis.
    pub(crate) fn find_proof(&self, id: TermId) -> Option<LpId>
        ensures { result ≡ lookup (same_id id) self.now.proofs }
    {
        self.proofs.get(&id)
    }
}

/// Lets the binders from the outermost of so many on stand for type variables, the first of them for the first.
pub fn place_types(
    types: &mut ScopeTypes,
    table: &mut LpTable,
    names: &[Name],
    depth: u128,
) -> Result<(), Memory>
    ensures types { OnOk result (PlacesTypes table.old table.new types.old names.now depth types.new) }
    ensures keeps { Keeps table.old table.new }
{
    let mut place = depth;
    for name in names {
        place = place.saturating_sub(1);
        let tree = table.node(LpNode::Var(place))?;
        set_type(types, name, tree)?;
    }
    Ok(())
}

// Lets them stand for free variables.
fn place_terms(
    terms: &mut ScopeTerms,
    table: &mut LpTable,
    variables: &[Variable],
    depth: u128,
) -> Result<(), Memory>
    ensures terms { OnOk result (PlacesTerms table.old table.new terms.old variables.now depth terms.new) }
    ensures keeps { Keeps table.old table.new }
{
    let mut place = depth;
    for variable in variables {
        place = place.saturating_sub(1);
        let tree = table.node(LpNode::Var(place))?;
        set_term(terms, variable, tree)?;
    }
    Ok(())
}

// Lets them prove hypotheses.
fn place_proofs(
    proofs: &mut TreeMap<TermId, LpId>,
    table: &mut LpTable,
    hyps: &[TermId],
    depth: u128,
) -> Result<(), Memory>
    ensures proofs { OnOk result (PlacesProofs table.old table.new proofs.old hyps.now depth proofs.new) }
    ensures keeps { Keeps table.old table.new }
{
    let mut place = depth;
    for id in hyps {
        place = place.saturating_sub(1);
        let tree = table.node(LpNode::Var(place))?;
        set_proof(proofs, *id, tree)?;
    }
    Ok(())
}

// Lets a tree stand for a type variable.
fn set_type(types: &mut ScopeTypes, name: &Name, tree: LpId) -> Result<(), Memory>
    ensures { OnOk result (types.new ≡ insert_entry name_eq types.old name.now tree) }
{
    types.set(name.clone()?, tree)
}

// Lets a tree stand for a free variable.
fn set_term(terms: &mut ScopeTerms, variable: &Variable, tree: LpId) -> Result<(), Memory>
    ensures { OnOk result (terms.new ≡ insert_entry same_variable terms.old variable.now tree) }
{
    terms.set(copied(variable)?, tree)
}

// Lets a tree prove a hypothesis.
fn set_proof(proofs: &mut TreeMap<TermId, LpId>, id: TermId, tree: LpId) -> Result<(), Memory>
    ensures { OnOk result (proofs.new ≡ insert_entry same_id proofs.old id tree) }
{
    proofs.insert(id, tree)
}

// A variable, copied.
fn copied(variable: &Variable) -> Result<Variable, Memory>
    ensures { IfOk result (λ copy. copy ≡ variable.now) }
{
    Ok(Variable {
        name: variable.name.clone()?,
        ty: variable.ty,
    })
}
