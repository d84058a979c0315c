//! What a step needs is marked, or is to be visited.
ghost use Rattle.std.specs.Prelude.{◌≡◌, ◌<◌, ◌++◌, length, OnOk};
ghost use Rattle.hol_rules.specs.Kept.{step_count};
ghost use Rattle.hol_rules.specs.Views.{parameters_view, step_at, AreParametersKnown};
ghost use Rattle.hol_type.specs.Tables as type;
ghost use Rattle.hol_term.specs.Substitutions.{AreKnownPairs, AreTermPairsKnown};
ghost use Rattle.hol_defs.specs.Lists.{ArePairsKnown as AreConstantPairsKnown};
ghost use Rattle.sequent.specs.Sequents as numbers;
ghost use Rattle.article_reach.specs.Found.{given_found, sequent_found, step_found, steps_found, term_found, type_found};
ghost use Rattle.hol_term.specs.Tables.{term_at, type_at};
ghost use Rattle.article_reach.specs.FoundPairs.{types_put, terms_put, term_put, constants_put, variable_found};
ghost use Rattle.article_reach.specs.Looked.{AreSteps, IsWalkOf, WalksOn};

use crate::flags::mark_steps;
use crate::walk::{Task, Walk, note_variable, push_terms};
use common::Memory;
use hol_name::Name;
use hol_rules::{Parameters, Proof, StepId};
use hol_term::{TermId, Variable};
use hol_type::TypeId;
use sequent::Sequent;

impl Walk {
    // What a step needs: its premises, and the symbols of its sequent and of what its rule was given.
    pub(crate) fn want_step(&mut self, proof: &Proof, id: StepId) -> Result<(), Memory>
        requires walk { IsWalkOf proof.now self.old }
        requires id { id < step_count proof.now }
        ensures { OnOk result (WalksOn proof.now (step_found (step_at proof.now.made id)) self.old self.new) }
    {
        proof.is_proof();
        self.want_steps(proof, proof.premises(id));
        self.want_given(proof, proof.params(id))?;
        self.want_sequent(proof, proof.sequent(id))
    }

    // These steps.
    pub(crate) fn want_steps(&mut self, proof: &Proof, ids: &[StepId])
        requires walk { IsWalkOf proof.now self.old }
        requires ids { AreSteps proof.now ids.now }
        ensures walks { WalksOn proof.now (steps_found ids.now) self.old self.new }
        ensures tasks { self.new.tasks ≡ self.old.tasks }
    {
        let _count = proof.len();
        mark_steps(&mut self.steps, ids);
    }

    // The symbols of a sequent, and the names of its variables.
    fn want_sequent(&mut self, proof: &Proof, sequent: &Sequent) -> Result<(), Memory>
        requires walk { IsWalkOf proof.now self.old }
        requires known { numbers.IsKnown proof.now.trees sequent.now }
        ensures { OnOk result (WalksOn proof.now (sequent_found (numbers.sequent_at proof.now.trees sequent.now)) self.old self.new) }
    {
        let _count = proof.len();
        self.tasks.push(Task::Term(sequent.concl))?;
        push_terms(&mut self.tasks, sequent.hyps.ids())
    }

    // What a rule was given beside its premises.
    fn want_given(&mut self, proof: &Proof, given: &Parameters) -> Result<(), Memory>
        requires walk { IsWalkOf proof.now self.old }
        requires known { AreParametersKnown proof.now.trees given.now }
        ensures { OnOk result (WalksOn proof.now (given_found (parameters_view proof.now.trees given.now)) self.old self.new) }
    {
        match given {
            Parameters::Nothing | Parameters::TypeOp(_) => Ok(()),
            Parameters::Term(term) => self.want_term(proof, *term),
            Parameters::Variable(variable) => self.want_variable(proof, variable),
            Parameters::Subst(put) => {
                let put = put.get();
                self.want_put(proof, &put.types, &put.terms)
            }
            Parameters::Sequent(sequent) => self.want_sequent(proof, sequent),
            Parameters::Const(_, term) => self.want_term(proof, *term),
            Parameters::List(pairs) => self.want_constants(proof, pairs),
        }
    }

    // The symbols of a type.
    fn want_type(&mut self, proof: &Proof, ty: TypeId) -> Result<(), Memory>
        requires walk { IsWalkOf proof.now self.old }
        requires known { ty.0 < length proof.now.trees.types }
        ensures { OnOk result (WalksOn proof.now (type_found (type_at proof.now.trees ty.0)) self.old self.new) }
    {
        let _count = proof.len();
        self.tasks.push(Task::Type(ty))
    }

    // The symbols of a term, and the names of its variables.
    fn want_term(&mut self, proof: &Proof, term: TermId) -> Result<(), Memory>
        requires walk { IsWalkOf proof.now self.old }
        requires known { term.0 < length proof.now.trees.terms }
        ensures { OnOk result (WalksOn proof.now (term_found (term_at proof.now.trees term.0)) self.old self.new) }
    {
        let _count = proof.len();
        self.tasks.push(Task::Term(term))
    }

    // The name of a variable, and the symbols of its type.
    fn want_variable(&mut self, proof: &Proof, variable: &Variable) -> Result<(), Memory>
        requires walk { IsWalkOf proof.now self.old }
        requires known { variable.now.ty.0 < length proof.now.trees.types }
        ensures { OnOk result (WalksOn proof.now (variable_found proof.now.trees variable.now) self.old self.new) }
    {
        let _count = proof.len();
        note_variable(&mut self.numbers, &variable.name)?;
        self.tasks.push(Task::Type(variable.ty))
    }

    // What is put for variables.
    fn want_put(
        &mut self,
        proof: &Proof,
        types: &[(Name, TypeId)],
        terms: &[(Variable, TermId)],
    ) -> Result<(), Memory>
        requires walk { IsWalkOf proof.now self.old }
        requires known { AreKnownPairs proof.now.trees types.now terms.now }
        ensures { OnOk result (WalksOn proof.now (types_put proof.now.trees types.now ++ terms_put proof.now.trees terms.now) self.old self.new) }
    {
        self.want_types(proof, types)?;
        self.want_terms(proof, terms)
    }

    // The types that are put for type variables.
    fn want_types(&mut self, proof: &Proof, types: &[(Name, TypeId)]) -> Result<(), Memory>
        requires walk { IsWalkOf proof.now self.old }
        requires known { type.ArePairsKnown proof.now.trees.types types.now }
        ensures { OnOk result (WalksOn proof.now (types_put proof.now.trees types.now) self.old self.new) }
    {
        for pair in types {
            self.want_type(proof, pair.1)?;
        }
        Ok(())
    }

    // Variables, and the terms that are put for them.
    fn want_terms(&mut self, proof: &Proof, terms: &[(Variable, TermId)]) -> Result<(), Memory>
        requires walk { IsWalkOf proof.now self.old }
        requires known { AreTermPairsKnown proof.now.trees terms.now }
        ensures { OnOk result (WalksOn proof.now (terms_put proof.now.trees terms.now) self.old self.new) }
    {
        for pair in terms {
            self.want_term_put(proof, &pair.0, pair.1)?;
        }
        Ok(())
    }

    // A variable, and the term that is put for it.
    fn want_term_put(
        &mut self,
        proof: &Proof,
        variable: &Variable,
        term: TermId,
    ) -> Result<(), Memory>
        requires walk { IsWalkOf proof.now self.old }
        requires variable { variable.now.ty.0 < length proof.now.trees.types }
        requires term { term.0 < length proof.now.trees.terms }
        ensures { OnOk result (WalksOn proof.now (term_put proof.now.trees variable.now term) self.old self.new) }
    {
        self.want_variable(proof, variable)?;
        self.want_term(proof, term)
    }

    // The variables for which constants are put.
    fn want_constants(&mut self, proof: &Proof, pairs: &[(Name, Variable)]) -> Result<(), Memory>
        requires walk { IsWalkOf proof.now self.old }
        requires known { AreConstantPairsKnown proof.now.trees pairs.now }
        ensures { OnOk result (WalksOn proof.now (constants_put proof.now.trees pairs.now) self.old self.new) }
    {
        for pair in pairs {
            self.want_variable(proof, &pair.1)?;
        }
        Ok(())
    }
}
