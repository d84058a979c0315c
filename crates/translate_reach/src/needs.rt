//! What an item needs is marked, or is to be visited.
ghost use Rattle.std.specs.Prelude.{◌≡◌, ◌<◌, ℕ, [], false, not, length, map, IfOk, OnOk, if◌then◌else◌};
ghost use Rattle.hol_spec.specs.Lists.{is_in};
ghost use Rattle.hol_spec.specs.Proofs.{sequent_at};
ghost use Rattle.hol_spec.specs.Rules as rule;
ghost use Rattle.hol_spec.specs.Terms.{term_eq};
ghost use Rattle.hol_rules.specs.Kept.{step_count};
ghost use Rattle.hol_defs.specs.Lists.{pairs_at as pairs_view, ArePairsKnown as AreConstantPairsKnown};
ghost use Rattle.hol_rules.specs.Views.{parameters_view, step_at, AreParametersKnown};
ghost use Rattle.sequent.specs.Sequents as numbers;
ghost use Rattle.translate_spec.specs.MadeItems.{proves_nothing};
ghost use Rattle.translate_spec.specs.Reach.{given_keys, sequent_keys};
ghost use Rattle.translate_spec.specs.Rows.{has_row};
ghost use Rattle.translate_reach.specs.declared.items.Need.TheVariants as need;
ghost use Rattle.translate_reach.specs.MadeItems.{need_at, need_keys, proof_keys, step_keys, AreItems, AreSteps, IsInOrder, IsNeedKnown, IsWalkOf, WantsOf};
ghost use Rattle.translate_reach.specs.Reached.{flag};

use crate::items::{Items, Need};
use crate::walk::{Task, Walk, mark, push_terms};
use common::{Memory, Stack};
use hol_name::Name;
use hol_rules::{Parameters, Proof, StepId};
use hol_spec::StepKind;
use hol_term::Variable;
use hol_type::TypeId;
use sequent::Sequent;
use std::alloc::Global;

impl Walk {
    // A walk that came to nothing yet.
    pub(crate) fn new(alloc: Global, proof: &Proof, items: &Items) -> Result<Walk, Memory>
        requires items { AreItems proof.now items.now }
        ensures walk { IfOk result (λ walk. IsWalkOf proof.now walk) }
        ensures tasks { IfOk result (λ walk. walk.tasks ≡ []) }
        ensures marks { IfOk result (λ walk. (i : ℕ) → flag walk.marks.items i ≡ false) }
    {
        Ok(Walk {
            marks: vec![in alloc; false; items.count()]?,
            types: vec![in alloc; false; proof.terms().types().count()]?,
            terms: vec![in alloc; false; proof.terms().count()]?,
            tasks: Stack::new(alloc),
        })
    }

    // Whether an item is marked. If it is, all items that give what it needs are marked.
    pub(crate) fn look(&mut self, proof: &Proof, items: &Items, item: usize) -> Result<bool, Memory>
        requires order { IsInOrder proof.now }
        requires items { AreItems proof.now items.now }
        requires walk { IsWalkOf proof.now self.old }
        requires tasks { self.old.tasks ≡ [] }
        requires item { item < length items.now.needs.items }
        ensures is { IfOk result (λ is. is ≡ flag self.old.marks.items item) }
        ensures walk { OnOk result (IsWalkOf proof.now self.new) }
        ensures tasks { OnOk result (self.new.tasks ≡ []) }
        ensures wants { OnOk result (WantsOf proof.now
            (if flag self.old.marks.items item then need_keys proof.now (need_at items.now item) else []) self.old self.new) }
    {
        let is_marked = self.marks[item];
        if is_marked {
            self.want(proof, items, items.needs[item])?;
        }
        Ok(is_marked)
    }

    // Marks all items that give what is needed.
    fn want(&mut self, proof: &Proof, items: &Items, need: Need) -> Result<(), Memory>
        requires order { IsInOrder proof.now }
        requires items { AreItems proof.now items.now }
        requires walk { IsWalkOf proof.now self.old }
        requires known { IsNeedKnown proof.now need }
        ensures walk { OnOk result (IsWalkOf proof.now self.new) }
        ensures tasks { OnOk result (self.new.tasks ≡ []) }
        ensures wants { OnOk result (WantsOf proof.now (need_keys proof.now need) self.old self.new) }
    {
        self.want_parts(proof, items, need)?;
        self.run(proof.terms(), &items.index)
    }

    // What is needed is marked, or is to be visited.
    fn want_parts(&mut self, proof: &Proof, items: &Items, need: Need) -> Result<(), Memory>
        requires order { IsInOrder proof.now }
        requires items { AreItems proof.now items.now }
        requires walk { IsWalkOf proof.now self.old }
        requires known { IsNeedKnown proof.now need }
        ensures walk { OnOk result (IsWalkOf proof.now self.new) }
        ensures wants { OnOk result (WantsOf proof.now (need_keys proof.now need) self.old self.new) }
    {
        match need {
            Need::Nothing => Ok(()),
            Need::Term(id) => self.tasks.push(Task::Term(id)),
            Need::Part(premise, ty) => self.want_part(proof, items, premise, ty),
            Need::Step(id) => self.want_step(proof, items, id),
        }
    }

    // What a symbol of a type definition needs: the step from which it is made, and the symbols of a type.
    fn want_part(
        &mut self,
        proof: &Proof,
        items: &Items,
        premise: StepId,
        ty: TypeId,
    ) -> Result<(), Memory>
        requires order { IsInOrder proof.now }
        requires items { AreItems proof.now items.now }
        requires walk { IsWalkOf proof.now self.old }
        requires known { IsNeedKnown proof.now (need.Part premise ty) }
        ensures walk { OnOk result (IsWalkOf proof.now self.new) }
        ensures wants { OnOk result (WantsOf proof.now (need_keys proof.now (need.Part premise ty)) self.old self.new) }
    {
        self.want_steps(proof, items, &[premise]);
        self.tasks.push(Task::Type(ty))
    }

    // What a step needs: the symbols of its sequent, the premises of its proof, and what it defines.
    fn want_step(&mut self, proof: &Proof, items: &Items, id: StepId) -> Result<(), Memory>
        requires order { IsInOrder proof.now }
        requires items { AreItems proof.now items.now }
        requires walk { IsWalkOf proof.now self.old }
        requires id { id < step_count proof.now }
        ensures walk { OnOk result (IsWalkOf proof.now self.new) }
        ensures wants { OnOk result (WantsOf proof.now (need_keys proof.now (need.Step id)) self.old self.new) }
    {
        self.want_sequent(proof, proof.sequent(id))?;
        if has_proof(proof.kind(id)) {
            self.want_premises(proof, items, id)
        } else {
            Ok(())
        }
    }

    // The premises of a proof, and what its step defines. A step that removes a hypothesis that its second premise lacks
    // has that premise alone for its proof.
    fn want_premises(&mut self, proof: &Proof, items: &Items, id: StepId) -> Result<(), Memory>
        requires order { IsInOrder proof.now }
        requires items { AreItems proof.now items.now }
        requires walk { IsWalkOf proof.now self.old }
        requires id { id < step_count proof.now }
        ensures walk { OnOk result (IsWalkOf proof.now self.new) }
        ensures wants { OnOk result (WantsOf proof.now (proof_keys proof.now id) self.old self.new) }
    {
        proof.is_proof();
        let premises = proof.premises(id);
        if is_idle(proof, id) {
            self.want_steps(proof, items, &premises[1..]);
            return Ok(());
        }
        self.want_steps(proof, items, premises);
        self.want_given(proof, items, proof.params(id))
    }

    // The symbols of a sequent.
    fn want_sequent(&mut self, proof: &Proof, sequent: &Sequent) -> Result<(), Memory>
        requires walk { IsWalkOf proof.now self.old }
        requires known { numbers.IsKnown proof.now.trees sequent.now }
        ensures walk { OnOk result (IsWalkOf proof.now self.new) }
        ensures wants { OnOk result (WantsOf proof.now (sequent_keys (numbers.sequent_at proof.now.trees sequent.now)) self.old self.new) }
    {
        self.tasks.push(Task::Term(sequent.concl))?;
        push_terms(&mut self.tasks, sequent.hyps.ids())
    }

    // These steps.
    pub(crate) fn want_steps(&mut self, proof: &Proof, items: &Items, ids: &[StepId])
        requires order { IsInOrder proof.now }
        requires items { AreItems proof.now items.now }
        requires walk { IsWalkOf proof.now self.old }
        requires ids { AreSteps proof.now ids.now }
        ensures walk { IsWalkOf proof.now self.new }
        ensures tasks { self.new.tasks ≡ self.old.tasks }
        ensures wants { WantsOf proof.now (step_keys proof.now ids.now) self.old self.new }
    {
        let _count = proof.len();
        for id in ids {
            mark(&mut self.marks, Some(items.steps[*id]));
        }
    }

    // The constants that a step defines, with their types where they come as a list; the symbols of the type definition whose
    // law it is.
    fn want_given(&mut self, proof: &Proof, items: &Items, given: &Parameters) -> Result<(), Memory>
        requires items { AreItems proof.now items.now }
        requires walk { IsWalkOf proof.now self.old }
        requires known { AreParametersKnown proof.now.trees given.now }
        ensures walk { OnOk result (IsWalkOf proof.now self.new) }
        ensures wants { OnOk result (WantsOf proof.now (given_keys (parameters_view proof.now.trees given.now)) self.old self.new) }
    {
        match given {
            Parameters::Const(name, _) => {
                mark(&mut self.marks, items.index.constant(name));
                Ok(())
            }
            Parameters::List(pairs) => self.want_pairs(proof, items, pairs),
            Parameters::TypeOp(given) => {
                let new = given.get();
                let item = items.index.operator(&new.op, new.names.len())?;
                mark(&mut self.marks, item);
                mark(&mut self.marks, items.index.constant(&new.abs));
                mark(&mut self.marks, items.index.constant(&new.rep));
                Ok(())
            }
            Parameters::Nothing
            | Parameters::Term(_)
            | Parameters::Variable(_)
            | Parameters::Subst(_)
            | Parameters::Sequent(_) => Ok(()),
        }
    }

    // The constants of pairs, with the types of their variables.
    fn want_pairs(
        &mut self,
        proof: &Proof,
        items: &Items,
        pairs: &[(Name, Variable)],
    ) -> Result<(), Memory>
        requires items { AreItems proof.now items.now }
        requires walk { IsWalkOf proof.now self.old }
        requires known { AreConstantPairsKnown proof.now.trees pairs.now }
        ensures walk { OnOk result (IsWalkOf proof.now self.new) }
        ensures wants { OnOk result (WantsOf proof.now (given_keys (rule.Parameters.constants (pairs_view proof.now.trees pairs.now))) self.old self.new) }
    {
        for (name, variable) in pairs {
            mark(&mut self.marks, items.index.constant(name));
            self.tasks.push(Task::Type(variable.ty))?;
        }
        Ok(())
    }
}

// Whether a step of this kind has a proof.
fn has_proof(kind: StepKind) -> bool
    ensures { result ≡ has_row kind }
{
    kind != StepKind::Axiom
}

// Whether a step removes a hypothesis that its second premise lacks.
fn is_idle(proof: &Proof, id: StepId) -> bool
    requires { id < step_count proof.now }
    ensures { result ≡ proves_nothing (step_at proof.now.made id).kind (map (sequent_at proof.now.made) (step_at proof.now.made id).premises) }
{
    proof.is_proof();
    if proof.kind(id) != StepKind::ProveHyp {
        return false;
    }
    match proof.premises(id) {
        [one, two] => lacks(proof, *one, *two),
        _ => false,
    }
}

// Whether what a step proves is no hypothesis of another.
fn lacks(proof: &Proof, one: StepId, two: StepId) -> bool
    requires one { one < step_count proof.now }
    requires two { two < step_count proof.now }
    ensures { result ≡ not (is_in term_eq (sequent_at proof.now.made one).conclusion (sequent_at proof.now.made two).hypotheses) }
{
    let proved = proof.sequent(one).concl;
    // No term has two numbers, so numbers tell terms.
    let _head = proof.terms().view(proved);
    !proof.sequent(two).hyps.contains(proved)
}
