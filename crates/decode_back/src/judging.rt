//! Whether what the parts of a product make is a closed sequent: within the limits, of formulas, and with its parameters in order.
ghost use Rattle.std.specs.Prelude.{◌≡◌, ◌<◌, ◌≤◌, length, map, IfOk};
ghost use Rattle.std.specs.Bool.{Decides};
ghost use Rattle.std.specs.List.{list_all};
ghost use lib.Pointwise.{pointwise};
ghost use Rattle.hol_spec.specs.ClosedForm.{ClosedSequent};
ghost use Rattle.hol_spec.specs.Terms.{term_eq};
ghost use Rattle.hol_term.specs.Tables.{term_at, terms_at, type_at, AreKnown};
ghost use Rattle.sequent.specs.Sequents.{sequent_at, IsKnown};
ghost use Rattle.hol_term.specs.Subterms.{variables_of, HaveTypes};
ghost use Rattle.decode_spec.specs.Opened.{IsOpen};
ghost use Rattle.decode_back.specs.Walks.{greatest_number, parameter_name as the_name};
ghost use Rattle.decode_back.specs.TermWalks.{free_of};
ghost use Rattle.decode_back.specs.SequentWalks.{AreNumbered, HasNumbered, IsJudged, IsMade, IsMadeOnce, is_bounded_formula};

use crate::constants::{GREATEST_DEPTH, are_numbered};
use common::Memory;
use hol_term::{TermId, TermTable, TermView, Variable};
use sequent::{Closed, Hyps, Params, Sequent};
use std::alloc::Global;

// The closed form of the sequent of these terms, where it is one within the limits and its parameters are numbered in order.
pub(crate) fn check_sequent(
    alloc: Global,
    table: &TermTable,
    count: usize,
    variables: &[TermId],
    ids: &[TermId],
    concl: TermId,
) -> Result<Option<Closed>, Memory>
    requires few { count ≤ greatest_number }
    requires variables { AreKnown table.now variables.now }
    requires ids { AreKnown table.now ids.now }
    requires concl { concl.0 < length table.now.terms }
    ensures judged { IfOk result (λ found. (s : ClosedSequent) → IsMade table.now count variables.now ids.now concl s → IsJudged s found) }
{
    let _distinct = table.view(concl);
    let hyps = Hyps::of(alloc, ids)?;
    let sequent = Sequent { hyps, concl };
    let found = judge_sequent(alloc, table, count, variables, ids, &sequent);
    drop(sequent);
    found
}

// The same, for the sequent with these hypotheses, once each.
fn judge_sequent(
    alloc: Global,
    table: &TermTable,
    count: usize,
    variables: &[TermId],
    ids: &[TermId],
    sequent: &Sequent,
) -> Result<Option<Closed>, Memory>
    requires few { count ≤ greatest_number }
    requires variables { AreKnown table.now variables.now }
    requires ids { AreKnown table.now ids.now }
    requires known { IsKnown table.now sequent.now }
    ensures judged { IfOk result (λ found. (s : ClosedSequent) → IsMadeOnce table.now count variables.now ids.now sequent.now s → IsJudged s found) }
{
    let open = is_open(alloc, table, count, variables, ids, sequent)?;
    if !open {
        return Ok(None);
    }
    let closed = sequent.closed(alloc, table)?;
    Ok(Some(closed))
}

// Whether the sequent with these hypotheses, once each, is one within the limits whose parameters are numbered in order.
fn is_open(
    alloc: Global,
    table: &TermTable,
    count: usize,
    variables: &[TermId],
    ids: &[TermId],
    sequent: &Sequent,
) -> Result<bool, Memory>
    requires few { count ≤ greatest_number }
    requires variables { AreKnown table.now variables.now }
    requires ids { AreKnown table.now ids.now }
    requires known { IsKnown table.now sequent.now }
    ensures { IfOk result (λ told. (s : ClosedSequent) → IsMadeOnce table.now count variables.now ids.now sequent.now s → Decides told (IsOpen the_name s)) }
{
    if !is_as_long(&sequent.hyps, ids) {
        return Ok(false);
    }
    if !are_formulas(table, ids) {
        return Ok(false);
    }
    if !is_formula(table, sequent.concl) {
        return Ok(false);
    }
    are_parameters(alloc, table, count, variables, sequent)
}

// Whether there are as many hypotheses as numbers.
fn is_as_long(hyps: &Hyps, ids: &[TermId]) -> bool
    ensures { Decides result (length hyps.now ≡ length ids.now) }
{
    hyps.ids().len() == ids.len()
}

// Whether the parameters of a sequent are so many type variables and these free variables, in order.
fn are_parameters(
    alloc: Global,
    table: &TermTable,
    count: usize,
    variables: &[TermId],
    sequent: &Sequent,
) -> Result<bool, Memory>
    requires few { count ≤ greatest_number }
    requires variables { AreKnown table.now variables.now }
    requires known { IsKnown table.now sequent.now }
    ensures { IfOk result (λ told. Decides told (HasNumbered (sequent_at table.now sequent.now) count (terms_at table.now variables.now))) }
{
    let params = sequent.params(alloc, table)?;
    let told = are_in_order(alloc, table, count, variables, &params);
    drop(params);
    told
}

// Whether parameters are so many type variables and these free variables, in order.
fn are_in_order(
    alloc: Global,
    table: &TermTable,
    count: usize,
    variables: &[TermId],
    params: &Params,
) -> Result<bool, Memory>
    requires few { count ≤ greatest_number }
    requires variables { AreKnown table.now variables.now }
    requires known { HaveTypes table.now params.now.free_vars }
    ensures { IfOk result (λ told. Decides told
        (AreNumbered count params.now.type_vars (variables_of table.now params.now.free_vars) (terms_at table.now variables.now))) }
{
    let numbered = are_numbered(alloc, params.type_vars.names(), count)?;
    if !numbered {
        return Ok(false);
    }
    Ok(are_these(table, params.free_vars.variables(), variables))
}

// Whether terms are formulas within the greatest depth.
fn are_formulas(table: &TermTable, ids: &[TermId]) -> bool
    requires { AreKnown table.now ids.now }
    ensures { result ≡ list_all is_bounded_formula (terms_at table.now ids.now) }
{
    for id in ids {
        if !is_formula(table, *id) {
            return false;
        }
    }
    true
}

// Whether a term is a formula within the greatest depth.
fn is_formula(table: &TermTable, id: TermId) -> bool
    requires { id.0 < length table.now.terms }
    ensures { result ≡ is_bounded_formula (term_at table.now id.0) }
{
    if table.depth(id) > GREATEST_DEPTH as u64 {
        return false;
    }
    match table.ty(id) {
        Some(ty) => table.types().is_bool(ty),
        None => false,
    }
}

// Whether variables are those of these terms, in order.
fn are_these(table: &TermTable, found: &[Variable], terms: &[TermId]) -> bool
    requires found { HaveTypes table.now found.now }
    requires terms { AreKnown table.now terms.now }
    ensures { result ≡ pointwise term_eq (map free_of (variables_of table.now found.now)) (terms_at table.now terms.now) }
{
    if found.len() != terms.len() {
        return false;
    }
    for (place, variable) in found.iter().enumerate() {
        if !is_this(table, variable, terms[place]) {
            return false;
        }
    }
    true
}

// Whether a term is a free variable, and this one.
fn is_this(table: &TermTable, variable: &Variable, id: TermId) -> bool
    requires variable { variable.now.ty.0 < length table.now.types }
    requires id { id.0 < length table.now.terms }
    ensures { result ≡ term_eq (free_of (variable.now.name, type_at table.now variable.now.ty.0)) (term_at table.now id.0) }
{
    let _distinct = table.types().view(variable.ty);
    let TermView::Free(name, ty) = table.view(id) else {
        return false;
    };
    variable.name == *name && variable.ty == ty
}
