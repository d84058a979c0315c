//! What is read of the lists that are noted.
ghost use Rattle.std.specs.Prelude.{◌≡◌, ◌<◌, ◌-◌, ◌^◌, [], true, length, map, min, IfOk, IfSome, OnOk};
ghost use Rattle.std.specs.List.{AllByRecursion};
ghost use Rattle.hol_spec.specs.Lists.{is_in};
ghost use Rattle.hol_spec.specs.Sequents.{parameter_count};
ghost use Rattle.hol_spec.specs.Terms.{free_places, variable_eq};
ghost use Rattle.hol_term.specs.Tables.{Trees, term_at, IsDistinct};
ghost use Rattle.hol_type.specs.Tables as type;
ghost use Rattle.sequent.specs.Sequents.{sequent_at, IsKnown};
ghost use Rattle.hol_variables.specs.Noted.{AreNoted, AreOfSequent, AreOfTerm, Gathers};
ghost use Rattle.hol_variables.specs.Variables.{variable_count, variable_view, variable_at, IsVariableAt};

use crate::ParamMemo;
use crate::numbers::Numbers;
use common::Memory;
use hol_term::{TermId, TermTable, TermView, Variable};
use sequent::Sequent;
use std::alloc::Global;

/// The variables that were found.
#[derive(Drop)]
pub(crate) struct Found {
    pub(crate) names: Numbers,
    pub(crate) variables: Numbers,
}

impl Found {
    pub(crate) fn new(alloc: Global) -> Self
        ensures names { result.names ≡ [] }
        ensures variables { result.variables ≡ [] }
    {
        Found {
            names: Numbers::new(alloc),
            variables: Numbers::new(alloc),
        }
    }
}

impl ParamMemo {
    // The number of a sequent's parameters: `None` where a term isn't noted, or its lists are not kept.
    pub(crate) fn counted(
        &self,
        terms: &TermTable,
        sequent: &Sequent,
    ) -> Result<Option<usize>, Memory>
        requires noted { AreNoted terms.now self.now }
        requires known { IsKnown terms.now sequent.now }
        ensures { IfOk result (λ count. IfSome count (λ n. n ≡ min (parameter_count (sequent_at terms.now sequent.now)) (2 ^ 64 - 1))) }
    {
        if sequent.hyps.ids().is_empty() {
            return Ok(self.listed(terms, sequent.concl));
        }
        let mut found = Found::new(self.alloc);
        if !self.find(terms, sequent, &mut found)? {
            return Ok(None);
        }
        let names = found.names.numbers().len();
        let variables = names.saturating_add(found.variables.numbers().len());
        Ok(Some(variables.saturating_add(sequent.hyps.ids().len())))
    }

    // The number of a term's type variables and free variables: `None` where it isn't noted, or its lists are not kept.
    fn listed(&self, terms: &TermTable, id: TermId) -> Option<usize>
        requires noted { AreNoted terms.now self.now }
        ensures { IfSome result (λ n. n ≡ min (variable_count (term_at terms.now id.0)) (2 ^ 64 - 1)) }
    {
        let Some((names, variables)) = self.lists(terms, id) else {
            return None;
        };
        Some(names.len().saturating_add(variables.len()))
    }

    // The numbers of a term's type variables and of its free variables: `None` where it isn't noted, or its lists are not kept.
    pub(crate) fn lists(&self, terms: &TermTable, id: TermId) -> Option<(&[usize], &[usize])>
        requires noted { AreNoted terms.now self.now }
        ensures { IfSome result (λ lists. AreOfTerm terms.now id.0 lists.0.now lists.1.now) }
    {
        if id.0 >= self.terms.len() {
            return None;
        }
        let own = self.terms[id.0].own();
        let (Some(names), Some(variables)) = (own.names, own.variables) else {
            return None;
        };
        Some((
            self.names.list(names).numbers(),
            self.variables.list(variables).numbers(),
        ))
    }

    // Takes the variables of a sequent's terms, if all are noted and their lists are kept.
    pub(crate) fn find(
        &self,
        terms: &TermTable,
        sequent: &Sequent,
        found: &mut Found,
    ) -> Result<bool, Memory>
        requires noted { AreNoted terms.now self.now }
        requires known { IsKnown terms.now sequent.now }
        requires no_names { found.old.names ≡ [] }
        requires no_variables { found.old.variables ≡ [] }
        ensures { IfOk result (λ all. all ≡ true → AreOfSequent terms.now (sequent_at terms.now sequent.now) found.new.names found.new.variables) }
    {
        for id in sequent.hyps.ids() {
            if !self.gather(terms, *id, found)? {
                return Ok(false);
            }
        }
        self.gather(terms, sequent.concl, found)
    }

    // Takes what is new of a term's variables, if it is noted and its lists are kept.
    fn gather(&self, terms: &TermTable, id: TermId, found: &mut Found) -> Result<bool, Memory>
        requires noted { AreNoted terms.now self.now }
        requires known { id.0 < length terms.now.terms }
        ensures { IfOk result (λ all. all ≡ true → Gathers terms.now id found.old found.new) }
    {
        let _head = terms.view(id);
        let _count = terms.types().count();
        let Some((names, variables)) = self.lists(terms, id) else {
            return Ok(false);
        };
        found.names.unite(names)?;
        found.variables.unite(variables)?;
        Ok(true)
    }

    // Whether the variable is free in a term, where all is noted: `None` where the list of its variables is not kept.
    pub(crate) fn found(&self, terms: &TermTable, variable: &Variable, id: TermId) -> Option<bool>
        requires noted { AreNoted terms.now self.now }
        requires all_terms { length self.now.terms.items ≡ length terms.now.terms }
        requires variable { variable.now.ty.0 < length terms.now.types }
        requires known { id.0 < length terms.now.terms }
        ensures { IfSome result (λ free. free ≡ is_in variable_eq (variable_view terms.now variable.now) (free_places (term_at terms.now id.0))) }
    {
        match self.terms[id.0].own().variables {
            Some(list) => Some(is_among(terms, variable, self.variables.list(list).numbers())),
            None => None,
        }
    }
}

// Whether a variable is among those with these numbers.
fn is_among(terms: &TermTable, variable: &Variable, numbers: &[usize]) -> bool
    requires variable { variable.now.ty.0 < length terms.now.types }
    requires variables { AllByRecursion (IsVariableAt terms.now) numbers.now }
    ensures { result ≡ is_in variable_eq (variable_view terms.now variable.now) (map (variable_at terms.now) numbers.now) }
{
    for n in numbers {
        if is_at(terms, variable, TermId(*n)) {
            return true;
        }
    }
    false
}

// Whether a variable has this number.
fn is_at(terms: &TermTable, variable: &Variable, id: TermId) -> bool
    requires variable { variable.now.ty.0 < length terms.now.types }
    requires known { IsVariableAt terms.now id.0 }
    ensures { result ≡ variable_eq (variable_view terms.now variable.now) (variable_at terms.now id.0) }
{
    let _count = terms.types().count();
    match terms.view(id) {
        TermView::Free(name, ty) => variable.name == *name && variable.ty == ty,
        TermView::Bound(_) | TermView::Const(..) | TermView::App(..) | TermView::Lam(..) => false,
    }
}
