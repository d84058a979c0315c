//! Parameters by a walk.
ghost use Rattle.std.specs.Prelude.{◌≡◌, ◌<◌, ◌-◌, ◌^◌, length, min, IfOk};
ghost use Rattle.hol_spec.specs.Lists.{is_in};
ghost use Rattle.hol_spec.specs.Sequents.{parameter_count};
ghost use Rattle.hol_spec.specs.Terms.{free_places, variable_eq};
ghost use Rattle.hol_type.specs.Tables as type;
ghost use Rattle.hol_term.specs.Tables.{Trees, term_at};
ghost use Rattle.sequent.specs.Sequents.{sequent_at, IsKnown};
ghost use Rattle.hol_variables.specs.Variables.{variable_view};

use common::Memory;
use hol_term::{TermId, TermTable, Variable};
use sequent::Sequent;
use std::alloc::Global;

// How many type variables, free variables and hypotheses the sequent has, or the greatest number of the type if they are more.
pub(crate) fn walked(alloc: Global, terms: &TermTable, sequent: &Sequent) -> Result<usize, Memory>
    requires { IsKnown terms.now sequent.now }
    ensures { IfOk result (λ count. count ≡ min (parameter_count (sequent_at terms.now sequent.now)) (2 ^ 64 - 1)) }
{
    let params = sequent.params(alloc, terms)?;
    let variables = params
        .type_vars
        .names()
        .len()
        .saturating_add(params.free_vars.variables().len());
    Ok(variables.saturating_add(sequent.hyps.ids().len()))
}

// Whether a variable is free in a term.
pub(crate) fn is_walked(terms: &TermTable, variable: &Variable, id: TermId) -> Result<bool, Memory>
    requires variable { variable.now.ty.0 < length terms.now.types }
    requires id { id.0 < length terms.now.terms }
    ensures { IfOk result (λ free. free ≡ is_in variable_eq (variable_view terms.now variable.now) (free_places (term_at terms.now id.0))) }
{
    let variables = terms.free_vars(id)?;
    for own in &variables {
        if is_same(variable, own) {
            return Ok(true);
        }
    }
    Ok(false)
}

// Whether two variables are one, in the table of their types.
fn is_same(variable: &Variable, own: &Variable) -> bool
    ensures { (trees : Trees) → type.IsDistinct trees.types → variable.now.ty.0 < length trees.types → own.now.ty.0 < length trees.types
        → result ≡ variable_eq (variable_view trees variable.now) (variable_view trees own.now) }
{
    variable.name == own.name && variable.ty == own.ty
}
