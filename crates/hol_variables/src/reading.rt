//! The parameters of a sequent, read off the lists that are noted.
ghost use Rattle.std.specs.Prelude.{◌≡◌, [], ◌∷◌, true, map, IfOk, OnOk};
ghost use Rattle.std.specs.List.{AllByRecursion};
ghost use Rattle.hol_spec.specs.Lists.{union};
ghost use Rattle.hol_spec.specs.NameEquality.{name_eq};
ghost use Rattle.hol_spec.specs.Sequents.{Sequent as ASequent};
ghost use Rattle.hol_term.specs.Subterms.{HaveTypes};
ghost use Rattle.sequent.specs.Sequents.{sequent_at, IsKnown};
ghost use Rattle.hol_variables.specs.Noted.{AreNoted, AreOfSequent, AreParams, AreTaken};
ghost use Rattle.hol_variables.specs.Variables.{name_at, variable_at, IsNameAt, IsVariableAt};

use crate::ParamMemo;
use crate::counting::Found;
use common::Memory;
use hol_term::{Names, TermId, TermTable, TermView, Variable};
use hol_type::{TypeId, TypeTable, TypeView};
use sequent::{Params, Sequent, Variables};

impl ParamMemo {
    // Takes the parameters of a sequent, if all its terms are noted and their lists are kept.
    pub(crate) fn read(
        &self,
        terms: &TermTable,
        sequent: &Sequent,
        params: &mut Params,
    ) -> Result<bool, Memory>
        requires noted { AreNoted terms.now self.now }
        requires known { IsKnown terms.now sequent.now }
        requires no_names { params.old.type_vars ≡ [] }
        requires no_variables { params.old.free_vars ≡ [] }
        ensures { IfOk result (λ all. all ≡ true → AreParams terms.now (sequent_at terms.now sequent.now) params.new) }
    {
        if !sequent.hyps.ids().is_empty() {
            let mut found = Found::new(self.alloc);
            return self.read_found(terms, sequent, &mut found, params);
        }
        let Some((names, variables)) = self.lists(terms, sequent.concl) else {
            return Ok(false);
        };
        take(terms, names, variables, params)?;
        Ok(true)
    }

    // Takes the parameters of a sequent by way of the numbers of them all.
    fn read_found(
        &self,
        terms: &TermTable,
        sequent: &Sequent,
        found: &mut Found,
        params: &mut Params,
    ) -> Result<bool, Memory>
        requires noted { AreNoted terms.now self.now }
        requires known { IsKnown terms.now sequent.now }
        requires none_named { found.old.names ≡ [] }
        requires none_found { found.old.variables ≡ [] }
        requires no_names { params.old.type_vars ≡ [] }
        requires no_variables { params.old.free_vars ≡ [] }
        ensures { IfOk result (λ all. all ≡ true → AreParams terms.now (sequent_at terms.now sequent.now) params.new) }
    {
        if !self.find(terms, sequent, found)? {
            return Ok(false);
        }
        take(
            terms,
            found.names.numbers(),
            found.variables.numbers(),
            params,
        )?;
        Ok(true)
    }
}

// Takes the type variables and the free variables with these numbers.
fn take(
    terms: &TermTable,
    names: &[usize],
    variables: &[usize],
    params: &mut Params,
) -> Result<(), Memory>
    requires names { AllByRecursion (IsNameAt terms.now.types) names.now }
    requires variables { AllByRecursion (IsVariableAt terms.now) variables.now }
    requires no_names { params.old.type_vars ≡ [] }
    requires no_variables { params.old.free_vars ≡ [] }
    ensures { OnOk result ((s : ASequent) → AreOfSequent terms.now s names.now variables.now → AreParams terms.now s params.new) }
{
    let _count = terms.types().count();
    take_names(terms.types(), names, &mut params.type_vars)?;
    take_variables(terms, variables, &mut params.free_vars)
}

// Takes the names of the type variables with these numbers, as far as they are new.
fn take_names(types: &TypeTable, numbers: &[usize], names: &mut Names) -> Result<(), Memory>
    requires { AllByRecursion (IsNameAt types.now) numbers.now }
    ensures { OnOk result (names.new ≡ union name_eq names.old (map (name_at types.now) numbers.now)) }
{
    for n in numbers {
        take_name(types, TypeId(*n), names)?;
    }
    Ok(())
}

// Takes the name of a type variable, if it is new.
fn take_name(types: &TypeTable, id: TypeId, names: &mut Names) -> Result<(), Memory>
    requires { IsNameAt types.now id.0 }
    ensures { OnOk result (names.new ≡ union name_eq names.old (name_at types.now id.0 ∷ [])) }
{
    match types.view(id) {
        TypeView::Var(name) => names.add(name),
        TypeView::Op(..) => Ok(()),
    }
}

// Takes the free variables with these numbers, as far as they are new.
fn take_variables(
    terms: &TermTable,
    numbers: &[usize],
    variables: &mut Variables,
) -> Result<(), Memory>
    requires each { AllByRecursion (IsVariableAt terms.now) numbers.now }
    requires known { HaveTypes terms.now variables.old }
    ensures { OnOk result (AreTaken terms.now variables.old (map (variable_at terms.now) numbers.now) variables.new) }
{
    for n in numbers {
        take_variable(terms, TermId(*n), variables)?;
    }
    Ok(())
}

// Takes a free variable, if it is new.
fn take_variable(terms: &TermTable, id: TermId, variables: &mut Variables) -> Result<(), Memory>
    requires is { IsVariableAt terms.now id.0 }
    requires known { HaveTypes terms.now variables.old }
    ensures { OnOk result (AreTaken terms.now variables.old (variable_at terms.now id.0 ∷ []) variables.new) }
{
    let _count = terms.types().count();
    match terms.view(id) {
        TermView::Free(name, ty) => {
            let name = name.clone()?;
            variables.add(Variable { name, ty })
        }
        TermView::Bound(_) | TermView::Const(..) | TermView::App(..) | TermView::Lam(..) => Ok(()),
    }
}
