//! The pairs that `subst` and `defineConstList` put, read from lists.
ghost use Rattle.std.specs.Prelude.{◌≡◌, Ok, Some, IfOk, IfErr};
ghost use Rattle.std.specs.Option.{ok_or};
ghost use Rattle.common.specs.declared.faults.Kind.TheVariants as kind;
ghost use Rattle.hol_type.specs.Tables.{pairs_at, ArePairsKnown};
ghost use Rattle.hol_term.specs.Substitutions.{term_pairs_at, AreTermPairs};
ghost use Rattle.hol_term.specs.Tables.{term_at, type_at};
ghost use Rattle.hol_defs.specs.Lists.{pairs_at as constant_pairs_at, ArePairsKnown as AreConstantPairsKnown};
ghost use Rattle.hol_rules.specs.Views.{variable_view};
ghost use Rattle.article_spec.specs.Operands.{as_name, as_term, as_type, as_variable, each, pair_of};
ghost use Rattle.article_spec.specs.Results.{Fails};
ghost use Rattle.stack_machine.specs.Putting.{as_lists, lists_fit, lists_view, AreListsKnown, IsPutBy};
ghost use Rattle.stack_machine.specs.Reading.{one_object, two_objects, Reads};
ghost use Rattle.stack_machine.specs.Stored.{IsKnown, IsListKnown, IsTerm, IsType, list_view, object_view};

use crate::object::{List, Object};
use crate::operands::{list_in, name_in, term_in, type_in, variable_in};
use crate::remembered::Lists;
use crate::store::Store;
use common::{Fault, Kind};
use hol_name::Name;
use hol_rules::Put;
use hol_term::{TermId, Variable};
use hol_type::TypeId;
use std::alloc::Global;

impl Store {
    // The one object of a list of one.
    fn one_in(&self, list: List) -> Result<Object, Fault>
        requires { IsListKnown self.now list }
        ensures one { IfOk result (λ x. one_object (list_view self.now list) ≡ Some (object_view self.now x)) }
        ensures known { IfOk result (λ x. IsKnown self.now x) }
        ensures refused { IfErr result (λ fault. Fails fault (ok_or (one_object (list_view self.now list)) kind.WrongKind)) }
    {
        let List::Cell(id) = list else {
            return Err(Fault::Refused(Kind::WrongKind));
        };
        let cell = self.cell(id);
        match cell.tail {
            List::Empty => Ok(cell.head),
            List::Cell(id) => {
                let _next = self.cell(id);
                Err(Fault::Refused(Kind::WrongKind))
            }
        }
    }

    // The two objects of a list of two.
    fn two_in(&self, object: Object) -> Result<(Object, Object), Fault>
        requires { IsKnown self.now object }
        ensures two { IfOk result (λ p. two_objects (object_view self.now object) ≡ Some (object_view self.now p.0, object_view self.now p.1)) }
        ensures known { IfOk result (λ p. IsKnown self.now p.0 × IsKnown self.now p.1) }
        ensures refused { IfErr result (λ fault. Fails fault (ok_or (two_objects (object_view self.now object)) kind.WrongKind)) }
    {
        let list = list_in(object)?;
        let List::Cell(id) = list else {
            return Err(Fault::Refused(Kind::WrongKind));
        };
        let cell = self.cell(id);
        let second = self.one_in(cell.tail)?;
        Ok((cell.head, second))
    }

    // A name and a type.
    fn type_pair_in(&self, object: Object) -> Result<(Name, TypeId), Fault>
        requires { IsKnown self.now object }
        ensures pair { IfOk result (λ p. pair_of as_name as_type (object_view self.now object) ≡ Ok (p.0, type_at self.now.trees p.1.0)) }
        ensures known { IfOk result (λ p. IsType self.now p.1.0) }
        ensures refused { IfErr result (λ fault. Fails fault (pair_of as_name as_type (object_view self.now object))) }
    {
        let (first, second) = self.two_in(object)?;
        let id = name_in(first)?;
        let ty = type_in(second)?;
        let name = self.name(id)?;
        Ok((name, ty))
    }

    // A variable and a term.
    fn term_pair_in(&self, object: Object) -> Result<(Variable, TermId), Fault>
        requires { IsKnown self.now object }
        ensures pair { IfOk result (λ p. pair_of as_variable as_term (object_view self.now object) ≡ Ok
            (variable_view self.now.trees p.0, term_at self.now.trees p.1.0)) }
        ensures known { IfOk result (λ p. IsType self.now p.0.ty.0 × IsTerm self.now p.1.0) }
        ensures refused { IfErr result (λ fault. Fails fault (pair_of as_variable as_term (object_view self.now object))) }
    {
        let (first, second) = self.two_in(object)?;
        let (name, ty) = variable_in(first)?;
        let term = term_in(second)?;
        let variable = self.variable(name, ty)?;
        Ok((variable, term))
    }

    // A name and a variable.
    fn constant_pair_in(&self, object: Object) -> Result<(Name, Variable), Fault>
        requires { IsKnown self.now object }
        ensures pair { IfOk result (λ p. pair_of as_name as_variable (object_view self.now object) ≡ Ok (p.0, variable_view self.now.trees p.1)) }
        ensures known { IfOk result (λ p. IsType self.now p.1.ty.0) }
        ensures refused { IfErr result (λ fault. Fails fault (pair_of as_name as_variable (object_view self.now object))) }
    {
        let (first, second) = self.two_in(object)?;
        let id = name_in(first)?;
        let (own, ty) = variable_in(second)?;
        let name = self.name(id)?;
        let variable = self.variable(own, ty)?;
        Ok((name, variable))
    }

    // Pairs of a name and a type, in their order.
    fn type_pairs_in(&self, alloc: Global, list: List) -> Result<Vec<(Name, TypeId)>, Fault>
        requires { IsListKnown self.now list }
        ensures pairs { IfOk result (λ pairs. each (pair_of as_name as_type) (list_view self.now list) ≡ Ok (pairs_at self.now.trees.types pairs.items)) }
        ensures known { IfOk result (λ pairs. ArePairsKnown self.now.trees.types pairs.items) }
        ensures refused { IfErr result (λ fault. Fails fault (each (pair_of as_name as_type) (list_view self.now list))) }
    {
        let mut pairs = Vec::new(alloc);
        let mut rest = list;
        while let List::Cell(id) = rest {
            let cell = self.cell(id);
            let pair = self.type_pair_in(cell.head)?;
            pairs.push(pair)?;
            rest = cell.tail;
        }
        Ok(pairs)
    }

    // Pairs of a variable and a term, in their order.
    fn term_pairs_in(&self, alloc: Global, list: List) -> Result<Vec<(Variable, TermId)>, Fault>
        requires { IsListKnown self.now list }
        ensures pairs { IfOk result (λ pairs. each (pair_of as_variable as_term) (list_view self.now list) ≡ Ok (term_pairs_at self.now.trees pairs.items)) }
        ensures known { IfOk result (λ pairs. AreTermPairs self.now.trees pairs.items) }
        ensures refused { IfErr result (λ fault. Fails fault (each (pair_of as_variable as_term) (list_view self.now list))) }
    {
        let mut pairs = Vec::new(alloc);
        let mut rest = list;
        while let List::Cell(id) = rest {
            let cell = self.cell(id);
            let pair = self.term_pair_in(cell.head)?;
            pairs.push(pair)?;
            rest = cell.tail;
        }
        Ok(pairs)
    }

    // Pairs of a name and a variable, in their order.
    pub(crate) fn constant_pairs_in(
        &self,
        alloc: Global,
        list: List,
    ) -> Result<Vec<(Name, Variable)>, Fault>
        requires { IsListKnown self.now list }
        ensures pairs { IfOk result (λ pairs. each (pair_of as_name as_variable) (list_view self.now list) ≡ Ok (constant_pairs_at self.now.trees pairs.items)) }
        ensures known { IfOk result (λ pairs. AreConstantPairsKnown self.now.trees pairs.items) }
        ensures refused { IfErr result (λ fault. Fails fault (each (pair_of as_name as_variable) (list_view self.now list))) }
    {
        let mut pairs = Vec::new(alloc);
        let mut rest = list;
        while let List::Cell(id) = rest {
            let cell = self.cell(id);
            let pair = self.constant_pair_in(cell.head)?;
            pairs.push(pair)?;
            rest = cell.tail;
        }
        Ok(pairs)
    }

    // The two lists of a substitution.
    pub(crate) fn lists_in(&self, object: Object) -> Result<Lists, Fault>
        requires { IsKnown self.now object }
        ensures { Reads self.now as_lists (lists_view self.now) (AreListsKnown self.now) object result }
    {
        let (first, second) = self.two_in(object)?;
        let types = list_in(first)?;
        let terms = list_in(second)?;
        Ok(Lists { types, terms })
    }

    // What two lists put, read and made ready.
    pub(crate) fn put_in(&self, alloc: Global, lists: Lists) -> Result<Put, Fault>
        requires { AreListsKnown self.now lists }
        ensures put { IfOk result (λ put. IsPutBy self.now lists put) }
        ensures refused { IfErr result (λ fault. Fails fault (lists_fit (lists_view self.now lists))) }
    {
        let types = self.type_pairs_in(alloc, lists.types)?;
        let terms = self.term_pairs_in(alloc, lists.terms)?;
        self.proof.prepared(&types, &terms)
    }
}
