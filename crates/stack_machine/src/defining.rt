//! Definitions, over what the machine keeps.
ghost use Rattle.std.specs.Prelude.{◌≡◌, ◌∷◌, [], map, Ok, IfOk, IfErr};
ghost use Rattle.hol_spec.specs.Definitions.{Definition};
ghost use Rattle.hol_spec.specs.DefinitionLists.{definitions_in};
ghost use Rattle.hol_spec.specs.Proofs.{sequent_at};
ghost use Rattle.hol_spec.specs.Symbols.{Symbol};
ghost use Rattle.hol_term.specs.Tables.{term_at};
ghost use Rattle.hol_defs.specs.Symbols.{named};
ghost use Rattle.article_spec.specs.RuleSteps.{define_const_step, define_const_list_step, type_laws};
ghost use Rattle.hol_defs.specs.Lists.{pairs_at as constant_pairs_at, ArePairsKnown as AreConstantPairsKnown};
ghost use Rattle.article_spec.specs.DefiningWords.{constant_objects};
ghost use Rattle.article_spec.specs.Operands.{as_name, each};
ghost use Rattle.article_spec.specs.Results.{Fails};
ghost use Rattle.stack_machine.specs.Inferring.{Infers, InfersTwo};
ghost use Rattle.article_spec.specs.Changes.{defining, defining_type};
ghost use Rattle.stack_machine.specs.Stored.{Grows, IsListKnown, IsName, IsStep, IsTerm, list_view, name_at};

use crate::object::{List, NameId, Object};
use crate::operands::name_in;
use crate::store::Store;
use common::{Fault, Memory};
use hol_name::Name;
use hol_rules::StepId;
use hol_spec::Version;
use hol_term::{TermId, Variable};
use std::alloc::Global;

/// The names of a new type operator, and of its constants to and from the new type.
#[derive(Clone, Copy)]
pub(crate) struct TypeNames {
    pub(crate) op: NameId,
    pub(crate) abs: NameId,
    pub(crate) rep: NameId,
}

impl Store {
    // The elements of a list as names, in their order.
    pub(crate) fn names_in(&self, alloc: Global, list: List) -> Result<Vec<Name>, Fault>
        requires { IsListKnown self.now list }
        ensures names { IfOk result (λ names. each as_name (list_view self.now list) ≡ Ok names.items) }
        ensures refused { IfErr result (λ fault. Fails fault (each as_name (list_view self.now list))) }
    {
        let mut names = Vec::new(alloc);
        let mut rest = list;
        while let List::Cell(id) = rest {
            let cell = self.cell(id);
            let name = name_in(cell.head)?;
            names.push(self.name(name)?)?;
            rest = cell.tail;
        }
        Ok(names)
    }

    // The list of the constants of pairs, in their order: made from the last on.
    pub(crate) fn constants_of(&mut self, pairs: &[(Name, Variable)]) -> Result<List, Memory>
        ensures known { IfOk result (λ list. IsListKnown self.new list) }
        ensures made { IfOk result (λ list. list_view self.new list ≡ constant_objects (map (λ p. p.0) pairs.now)) }
        ensures grows { Grows self.old self.new }
        ensures run { self.new.run ≡ self.old.run }
    {
        let mut list = List::Empty;
        let mut left = pairs.len();
        while left > 0 {
            left -= 1;
            let id = self.keep_name(&pairs[left].0)?;
            list = self.cons(Object::Constant(id), list)?;
        }
        Ok(list)
    }

    // The equation of a new constant and the term that it stands for.
    pub(crate) fn define_const(&mut self, name: NameId, t: TermId) -> Result<StepId, Fault>
        requires name { IsName self.old name.0 }
        requires term { IsTerm self.old t.0 }
        ensures { Infers self.old (defining (Symbol.defined (Definition.constant (name_at self.old name.0) (term_at self.old.trees t.0)) ∷ [])
            (define_const_step self.old.run.made (name_at self.old name.0) (term_at self.old.trees t.0))) self.new result }
    {
        let own = self.name(name)?;
        self.proof.define_const(&own, t)
    }

    // A theorem, with new constants for the variables that its hypotheses define.
    pub(crate) fn define_const_list(
        &mut self,
        pairs: &[(Name, Variable)],
        one: StepId,
    ) -> Result<StepId, Fault>
        requires pairs { AreConstantPairsKnown self.old.trees pairs.now }
        requires one { IsStep self.old one }
        ensures { Infers self.old (defining
            (map Symbol.defined (definitions_in (constant_pairs_at self.old.trees pairs.now) (sequent_at self.old.run.made one).hypotheses))
            (define_const_list_step self.old.run.made (constant_pairs_at self.old.trees pairs.now) one)) self.new result }
    {
        self.proof.define_const_list(pairs, one)
    }

    // The two laws of a new type operator, which a theorem shows to have an element, in an article of a version.
    pub(crate) fn define_type_op(
        &mut self,
        ids: TypeNames,
        variables: &[Name],
        one: StepId,
        version: Version,
    ) -> Result<(StepId, StepId), Fault>
        requires op { IsName self.old ids.op.0 }
        requires abs { IsName self.old ids.abs.0 }
        requires rep { IsName self.old ids.rep.0 }
        requires one { IsStep self.old one }
        ensures { InfersTwo self.old (defining_type
            (type_laws version self.old.run.made
            (named (name_at self.old ids.op.0) (name_at self.old ids.abs.0) (name_at self.old ids.rep.0) variables.now) one)) self.new result }
    {
        let op = self.name(ids.op)?;
        let abs = self.name(ids.abs)?;
        let rep = self.name(ids.rep)?;
        self.proof
            .define_type_op(&op, &abs, &rep, variables, one, version)
    }
}
