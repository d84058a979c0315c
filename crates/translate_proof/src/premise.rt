//! What is made in an environment: types, terms, and premises as theorems.
ghost use Rattle.std.specs.Prelude.{◌≡◌, ◌<◌, ◌∷◌, [], length, map, IfOk};
ghost use Rattle.hol_term.specs.Subterms.{HaveTypes};
ghost use Rattle.hol_rules.specs.Kept.{step_count};
ghost use Rattle.lp_spec.specs.Trees.{Tree};
ghost use Rattle.lp_term.specs.Tables.{Holds};
ghost use Rattle.translate_spec.specs.Scopes.{TypeScope};
ghost use Rattle.translate_term.specs.Walks.{Grows};
ghost use Rattle.translate_proof.specs.Adding.{AddsAbstracted, AddsFunction, AddsProof, AddsProofs, AddsTerm, AddsTheorem, AddsType, AddsVariable, AddsVariables};
ghost use Rattle.translate_proof.specs.Environments.{TellTypes};
ghost use Rattle.translate_proof.specs.Grounds.{type_row, term_row, variable_row, AddsAlways, MakesTree, MakesWhere, TellsOne, TellsTermAt, TellsTypeAt, TellsVariables, TellsWhere};
ghost use Rattle.translate_proof.specs.Keeping.{AreKept};
ghost use Rattle.translate_proof.specs.Parameters.{AreParams};
ghost use Rattle.translate_proof.specs.ProvedHypotheses.{IsPut, MakesProof, MakesProofWith, MakesTheorem};
ghost use Rattle.translate_proof.specs.RuleRows.{theorem_row};

use crate::ground::Ground;
use crate::kept::KeptParams;
use crate::scope::Environment;
use crate::trees::abstraction;
use common::Memory;
use hol_name::Name;
use hol_rules::{Proof, StepId};
use hol_term::{TermId, Variable};
use hol_type::TypeId;
use holide_sig::symbols::{BOOL, TERM, TYPE};
use holide_sig::{Module, call};
use lp_term::{LpId, LpNode};
use sequent::Params;
use std::alloc::Global;
use translate_term::{filler, tm, ty};

/// A step as a premise of another: its number, and the symbol of its declaration.
#[derive(Clone, Copy)]
pub struct Premise {
    pub id: StepId,
    pub symbol: usize,
}

/// A hypothesis with a tree that proves it.
#[derive(Clone, Copy)]
pub(crate) struct Proved {
    pub(crate) id: TermId,
    pub(crate) tree: LpId,
}

/// The parameters of a step's sequent.
pub(crate) fn params_of(proof: &Proof, id: StepId) -> Result<Params, Memory>
    requires { id < step_count proof.now }
    ensures { IfOk result (AreParams proof.now id) }
{
    proof.params_of(id)
}

impl Environment {
    /// The tree of a type.
    pub fn ty(&self, target: &mut Module, proof: &Proof, id: TypeId) -> Result<LpId, Memory>
        requires id { id.0 < length proof.now.trees.types }
        requires told { TellsWhere target.old proof.now self.now (TellsTypeAt proof.now id) }
        ensures made { MakesWhere target.old target.new proof.now self.now (TellsTypeAt proof.now id) result (type_row proof.now id) }
        ensures grows { Grows target.old target.new }
    {
        ty(self.alloc, target, proof.terms().types(), &self.scope, id)
    }

    /// The tree of a term.
    pub fn term(&self, target: &mut Module, proof: &Proof, id: TermId) -> Result<LpId, Memory>
        requires id { id.0 < length proof.now.trees.terms }
        requires told { TellsWhere target.old proof.now self.now (TellsTermAt proof.now id) }
        ensures made { MakesWhere target.old target.new proof.now self.now (TellsTermAt proof.now id) result (term_row proof.now id) }
        ensures grows { Grows target.old target.new }
    {
        tm(self.alloc, target, proof.terms(), &self.scope, id)
    }

    // What stands for a type variable: `bool` where nothing is told.
    fn type_variable(&self, target: &mut Module, name: &Name) -> Result<LpId, Memory>
        ensures made { IfOk result (λ r. (scope : TypeScope) → TellTypes target.old.table self.now.scope.types scope → Holds target.new.table r.0 (scope name.now)) }
        ensures grows { Grows target.old target.new }
    {
        match self.scope.types.find(name) {
            Some(tree) => Ok(tree),
            None => target.table.node(LpNode::Sym(BOOL)),
        }
    }

    // What stands for a free variable: some term of its type where nothing is told.
    fn free_variable(
        &self,
        target: &mut Module,
        proof: &Proof,
        variable: &Variable,
    ) -> Result<LpId, Memory>
        requires variable { variable.now.ty.0 < length proof.now.trees.types }
        requires told { TellsWhere target.old proof.now self.now (TellsTypeAt proof.now variable.now.ty) }
        ensures made { MakesWhere target.old target.new proof.now self.now (TellsTypeAt proof.now variable.now.ty) result
            (variable_row proof.now variable.now) }
        ensures grows { Grows target.old target.new }
    {
        match self.scope.terms.find(variable) {
            Some(tree) => Ok(tree),
            None => {
                let filled = self.ty(target, proof, variable.ty)?;
                filler(target, filled)
            }
        }
    }

    /// What proves a hypothesis.
    pub fn hypothesis(&self, target: &mut Module, id: TermId) -> Result<LpId, Memory>
        ensures made { MakesProof target.old target.new self.now id result }
        ensures grows { Grows target.old target.new }
    {
        match self.find_proof(id) {
            Some(tree) => Ok(tree),
            // `type` stands where no proof is known.
            None => target.table.node(LpNode::Sym(TYPE)),
        }
    }

    // Adds what stands for a type variable.
    pub(crate) fn add_type_variable(
        &self,
        target: &mut Module,
        name: &Name,
        args: &mut Vec<LpId>,
    ) -> Result<(), Memory>
        ensures ready { AddsAlways target.old target.new self.now args.old.items args.new.items result (λ given. given.scope.types name.now ∷ []) }
        ensures grows { Grows target.old target.new }
    {
        let tree = self.type_variable(target, name)?;
        args.push(tree)?;
        Ok(())
    }

    // Adds what proves a hypothesis.
    pub(crate) fn add_hypothesis(
        &self,
        target: &mut Module,
        id: TermId,
        args: &mut Vec<LpId>,
    ) -> Result<(), Memory>
        ensures ready { AddsProof target.old target.new self.now args.old.items args.new.items id result }
        ensures grows { Grows target.old target.new }
    {
        let tree = self.hypothesis(target, id)?;
        args.push(tree)?;
        Ok(())
    }

    // Adds what stands for each of some type variables.
    pub(crate) fn add_type_variables(
        &self,
        target: &mut Module,
        names: &[Name],
        args: &mut Vec<LpId>,
    ) -> Result<(), Memory>
        ensures ready { AddsAlways target.old target.new self.now args.old.items args.new.items result (λ given. map given.scope.types names.now) }
        ensures grows { Grows target.old target.new }
    {
        for name in names {
            self.add_type_variable(target, name, args)?;
        }
        Ok(())
    }

    // Adds what proves each of some hypotheses, where a tree of its own may prove one.
    fn add_hypotheses(
        &self,
        target: &mut Module,
        hyps: &[TermId],
        proved: Option<Proved>,
        args: &mut Vec<LpId>,
    ) -> Result<(), Memory>
        ensures ready { AddsProofs target.old target.new self.now args.old.items args.new.items hyps.now proved result }
        ensures grows { Grows target.old target.new }
    {
        for id in hyps {
            let tree = self.proof_with(target, *id, proved)?;
            args.push(tree)?;
        }
        Ok(())
    }

    // What proves a hypothesis, where a tree of its own may prove one.
    fn proof_with(
        &self,
        target: &mut Module,
        id: TermId,
        proved: Option<Proved>,
    ) -> Result<LpId, Memory>
        ensures made { MakesProofWith target.old target.new self.now id proved result }
        ensures grows { Grows target.old target.new }
    {
        let Some(own) = proved else {
            return self.hypothesis(target, id);
        };
        if id == own.id {
            return Ok(own.tree);
        }
        self.hypothesis(target, id)
    }

    /// A premise as a theorem: its symbol, applied to what stands for its type variables, its free variables and its hypotheses.
    pub fn theorem(
        &self,
        target: &mut Module,
        proof: &Proof,
        kept: &KeptParams,
        premise: Premise,
    ) -> Result<LpId, Memory>
        requires kept { AreKept proof.now kept.now }
        requires premise { premise.id < step_count proof.now }
        requires told { TellsOne target.old proof.now self.now premise.id }
        ensures made { MakesTree target.old target.new proof.now self.now (premise.id ∷ []) result (theorem_row proof.now premise) }
        ensures grows { Grows target.old target.new }
    {
        let ground = Ground {
            proof,
            kept,
            env: self,
        };
        ground.theorem_with(target, premise, None)
    }
}

impl Ground<'_> {
    /// A premise as a theorem, where a tree of its own may prove one of its hypotheses.
    pub(crate) fn theorem_with(
        self,
        target: &mut Module,
        premise: Premise,
        proved: Option<Proved>,
    ) -> Result<LpId, Memory>
        requires kept { AreKept self.proof.now self.kept.now }
        requires premise { premise.id < step_count self.proof.now }
        requires proved { (x : Tree) × IsPut self.proof.now.trees target.old.table proved x }
        requires told { TellsOne target.old self.proof.now self.env.now premise.id }
        ensures made { MakesTheorem target.old target.new self.entry proved premise result }
        ensures grows { Grows target.old target.new }
    {
        let lent = self.kept.lend(self.proof, premise.id)?;
        let mut args = Vec::new(self.env.alloc);
        let made = self.theorem_over(target, premise, lent.params(), proved, &mut args);
        drop(args);
        drop(lent);
        made
    }

    /// The same, where its parameters are known. The arguments are added to none.
    fn theorem_over(
        self,
        target: &mut Module,
        premise: Premise,
        params: &Params,
        proved: Option<Proved>,
        args: &mut Vec<LpId>,
    ) -> Result<LpId, Memory>
        requires premise { premise.id < step_count self.proof.now }
        requires params { AreParams self.proof.now premise.id params.now }
        requires none { args.old.items ≡ [] }
        requires proved { (x : Tree) × IsPut self.proof.now.trees target.old.table proved x }
        requires told { TellsOne target.old self.proof.now self.env.now premise.id }
        ensures made { MakesTheorem target.old target.new self.entry proved premise result }
        ensures grows { Grows target.old target.new }
    {
        let hyps = self.proof.sequent(premise.id).hyps.ids();
        self.env
            .add_type_variables(target, params.type_vars.names(), args)?;
        self.add_free_variables(target, params.free_vars.variables(), args)?;
        self.env.add_hypotheses(target, hyps, proved, args)?;
        call(&mut target.table, premise.symbol, args)
    }

    // Adds the tree of a type to some arguments.
    pub(crate) fn add_type(
        self,
        target: &mut Module,
        id: TypeId,
        args: &mut Vec<LpId>,
    ) -> Result<(), Memory>
        requires id { id.0 < length self.proof.now.trees.types }
        requires told { TellsWhere target.old self.proof.now self.env.now (TellsTypeAt self.proof.now id) }
        ensures ready { AddsType target.old target.new self.entry args.old.items args.new.items id result }
        ensures grows { Grows target.old target.new }
    {
        let tree = self.env.ty(target, self.proof, id)?;
        args.push(tree)?;
        Ok(())
    }

    // Adds the tree of a term.
    pub(crate) fn add_term(
        self,
        target: &mut Module,
        id: TermId,
        args: &mut Vec<LpId>,
    ) -> Result<(), Memory>
        requires id { id.0 < length self.proof.now.trees.terms }
        requires told { TellsWhere target.old self.proof.now self.env.now (TellsTermAt self.proof.now id) }
        ensures ready { AddsTerm target.old target.new self.entry args.old.items args.new.items id result }
        ensures grows { Grows target.old target.new }
    {
        let tree = self.env.term(target, self.proof, id)?;
        args.push(tree)?;
        Ok(())
    }

    // Adds what stands for a free variable.
    pub(crate) fn add_free_variable(
        self,
        target: &mut Module,
        variable: &Variable,
        args: &mut Vec<LpId>,
    ) -> Result<(), Memory>
        requires variable { variable.now.ty.0 < length self.proof.now.trees.types }
        requires told { TellsWhere target.old self.proof.now self.env.now (TellsTypeAt self.proof.now variable.now.ty) }
        ensures ready { AddsVariable target.old target.new self.entry args.old.items args.new.items variable.now result }
        ensures grows { Grows target.old target.new }
    {
        let tree = self.env.free_variable(target, self.proof, variable)?;
        args.push(tree)?;
        Ok(())
    }

    // Adds what stands for each of some free variables.
    fn add_free_variables(
        self,
        target: &mut Module,
        variables: &[Variable],
        args: &mut Vec<LpId>,
    ) -> Result<(), Memory>
        requires variables { HaveTypes self.proof.now.trees variables.now }
        requires told { TellsWhere target.old self.proof.now self.env.now (TellsVariables self.proof.now variables.now) }
        ensures ready { AddsVariables target.old target.new self.entry args.old.items args.new.items variables.now result }
        ensures grows { Grows target.old target.new }
    {
        for variable in variables {
            self.add_free_variable(target, variable, args)?;
        }
        Ok(())
    }

    // Adds a premise as a theorem.
    pub(crate) fn add_theorem(
        self,
        target: &mut Module,
        premise: Premise,
        args: &mut Vec<LpId>,
    ) -> Result<(), Memory>
        requires kept { AreKept self.proof.now self.kept.now }
        requires premise { premise.id < step_count self.proof.now }
        requires told { TellsOne target.old self.proof.now self.env.now premise.id }
        ensures ready { AddsTheorem target.old target.new self.entry args.old.items args.new.items premise result }
        ensures grows { Grows target.old target.new }
    {
        let tree = self.env.theorem(target, self.proof, self.kept, premise)?;
        args.push(tree)?;
        Ok(())
    }

    // Adds an abstraction over the terms of a type, whose body is the tree of a term.
    pub(crate) fn add_function(
        self,
        target: &mut Module,
        domain: LpId,
        id: TermId,
        args: &mut Vec<LpId>,
    ) -> Result<(), Memory>
        requires domain { domain.0 < length target.old.table }
        requires id { id.0 < length self.proof.now.trees.terms }
        requires told { TellsWhere target.old self.proof.now self.env.now (TellsTermAt self.proof.now id) }
        ensures ready { AddsFunction target.old target.new self.entry args.old.items args.new.items domain id result }
        ensures grows { Grows target.old target.new }
    {
        let body = self.env.term(target, self.proof, id)?;
        let tree = abstraction(&mut target.table, TERM, domain, body)?;
        args.push(tree)?;
        Ok(())
    }

    // Adds an abstraction over what a symbol gives at an index, whose body is a premise as a theorem.
    pub(crate) fn add_abstracted(
        self,
        target: &mut Module,
        family: usize,
        index: LpId,
        premise: Premise,
        args: &mut Vec<LpId>,
    ) -> Result<(), Memory>
        requires index { index.0 < length target.old.table }
        requires kept { AreKept self.proof.now self.kept.now }
        requires premise { premise.id < step_count self.proof.now }
        requires told { TellsOne target.old self.proof.now self.env.now premise.id }
        ensures ready { AddsAbstracted target.old target.new self.entry args.old.items args.new.items family index premise result }
        ensures grows { Grows target.old target.new }
    {
        let body = self.env.theorem(target, self.proof, self.kept, premise)?;
        let tree = abstraction(&mut target.table, family, index, body)?;
        args.push(tree)?;
        Ok(())
    }
}
