//! The closed sequent that a type stands for: its product is taken apart, the parts are decoded, and what they make is tested.
ghost use Rattle.std.specs.Prelude.{◌≡◌, ◌<◌, ◌≤◌, List, length, ◌+◌, ◌↔◌, IfOk, IfSome, IsTrue, Some};
ghost use Rattle.hol_spec.specs.ClosedForm.{ClosedType};
ghost use Rattle.hol_spec.specs.Limits.{greatest_parameter_count, greatest_size};
ghost use Rattle.hol_spec.specs.Terms as term;
ghost use Rattle.lp_term.specs.Tables as lp;
ghost use Rattle.lp_term.specs.Tables.{tree_at, trees_at};
ghost use Rattle.holide_sig.specs.Modules.{declarations_of, IsHeld};
ghost use Rattle.hol_term.specs.Tables.{AreKnown, Holds, Keeps};
ghost use Rattle.decode_spec.specs.Decode.{variables_from};
ghost use Rattle.decode_back.specs.Sources.{IsSource};
ghost use Rattle.decode_back.specs.Walks.{greatest_number};
ghost use Rattle.decode_back.specs.SequentWalks.{AreHypothesesDecoded, ArePartsKnown, AreTyped, AreVariablesFound, IsDecodedOf, IsStated};

use crate::constants::GREATEST_DEPTH;
use crate::judging::check_sequent;
use crate::names::parameter_name;
use crate::places::Place;
use crate::products::{Parts, parts_of};
use crate::sources::Source;
use crate::terms::decode_term;
use crate::types::decode_type;
use common::{Fault, Memory};
use hol_name::Name;
use hol_spec::{GREATEST_PARAMETER_COUNT, GREATEST_SIZE};
use hol_term::{TermId, TermTable, TermView, Variable};
use holide_sig::Module;
use lp_term::LpId;
use sequent::Closed;
use std::alloc::Global;

// A type with more nodes stands for no sequent within the limits.
const GREATEST_TREE: u128 = 4_227_073;

// The closed sequent that a tree stands for.
pub(crate) fn sequent_of(alloc: Global, source: &Module, id: LpId) -> Result<Option<Closed>, Memory>
    requires held { IsHeld source.now }
    requires known { id.0 < length source.now.table }
    ensures found { IfOk result (IsStated (declarations_of source.now) (tree_at source.now.table id.0)) }
{
    if source.table.size(id) > GREATEST_TREE {
        return Ok(None);
    }
    let Some(parts) = parts_of(alloc, &source.table, id)? else {
        return Ok(None);
    };
    decode_parts(alloc, source, &parts)
}

// The closed sequent for which the parts of a product stand.
fn decode_parts(alloc: Global, source: &Module, parts: &Parts) -> Result<Option<Closed>, Memory>
    requires held { IsHeld source.now }
    requires known { ArePartsKnown source.now.table parts.now }
    ensures found { IfOk result (IsDecodedOf source.now parts.now) }
{
    let mut table = TermTable::new(alloc);
    let found = decode_in(alloc, source, parts, &mut table);
    drop(table);
    found
}

// The same, with the table in which the terms of the parts are made.
fn decode_in(
    alloc: Global,
    source: &Module,
    parts: &Parts,
    table: &mut TermTable,
) -> Result<Option<Closed>, Memory>
    requires held { IsHeld source.now }
    requires known { ArePartsKnown source.now.table parts.now }
    ensures found { IfOk result (IsDecodedOf source.now parts.now) }
{
    if !are_few(
        parts.type_variables,
        parts.variables.len(),
        parts.hypotheses.len(),
    ) {
        return Ok(None);
    }
    let innermost = innermost(alloc, table)?;
    let Some(variables) = free_variables(
        alloc,
        source,
        parts.type_variables,
        &parts.variables,
        table,
    )?
    else {
        return Ok(None);
    };
    let found = decode_terms(alloc, source, parts, &variables, innermost, table);
    drop(variables);
    found
}

// Whether parameters are no more than a sequent may have.
fn are_few(type_variables: usize, variables: usize, hypotheses: usize) -> bool
    ensures { IsTrue result ↔ (type_variables + variables + hypotheses ≤ greatest_parameter_count) }
{
    type_variables <= GREATEST_PARAMETER_COUNT
        && variables <= GREATEST_PARAMETER_COUNT - type_variables
        && hypotheses <= GREATEST_PARAMETER_COUNT - type_variables - variables
}

// The closed sequent for which the parts of a product stand, with the terms of its free variables.
fn decode_terms(
    alloc: Global,
    base: &Module,
    parts: &Parts,
    variables: &[TermId],
    innermost: TermId,
    table: &mut TermTable,
) -> Result<Option<Closed>, Memory>
    requires held { IsHeld base.now }
    requires known { ArePartsKnown base.now.table parts.now }
    requires few { parts.now.type_variables + length variables.now + length parts.now.hypotheses.items ≤ greatest_parameter_count }
    requires variables { AreKnown table.old variables.now }
    requires innermost { Holds table.old innermost.0 (term.bound 0) }
    ensures found { IfOk result (λ found. (types : List ClosedType)
        → AreTyped base.now parts.now table.old variables.now types → IsDecodedOf base.now parts.now found) }
{
    let mut budget = GREATEST_SIZE;
    let place = Place {
        type_variables: parts.type_variables,
        free_variables: variables.len(),
        hypotheses: parts.hypotheses.len(),
        binders: 0,
    };
    let source = Source {
        alloc,
        base,
        place,
        variables,
        innermost,
    };
    let found = decode_hypotheses(source, &parts.hypotheses, table, &mut budget)?;
    let Some(hyps) = found else {
        return Ok(None);
    };
    let found = decode_term(source, table, &mut budget, GREATEST_DEPTH, parts.conclusion)?;
    let Some(concl) = found else {
        return Ok(None);
    };
    check_sequent(alloc, table, parts.type_variables, variables, &hyps, concl)
}

// The term of the variable that the innermost binder binds.
fn innermost(alloc: Global, table: &mut TermTable) -> Result<TermId, Memory>
    ensures held { IfOk result (λ id. Holds table.new id.0 (term.bound 0)) }
    ensures keeps { Keeps table.old table.new }
{
    let Ok(name) = Name::single(alloc, b"") else {
        return Err(Memory);
    };
    let Ok(ty) = table.ty_op(&name, &[]) else {
        return Err(Memory);
    };
    let variable = Variable { name, ty };
    let Ok(free) = table.free(&variable.name, ty) else {
        return Err(Memory);
    };
    let made = table.raw_abstraction(&variable, free)?;
    match table.view(made) {
        TermView::Lam(_, body) => Ok(body),
        TermView::Free(..) | TermView::Bound(_) | TermView::Const(..) | TermView::App(..) => Err(
            Memory,
        ),
    }
}

// The terms of the free variables of these types, each type under the binders of those before it.
fn free_variables(
    alloc: Global,
    source: &Module,
    count: usize,
    trees: &[LpId],
    table: &mut TermTable,
) -> Result<Option<Vec<TermId>>, Memory>
    requires held { IsHeld source.now }
    requires few { count ≤ greatest_number }
    requires many { length trees.now ≤ greatest_number }
    requires known { lp.AreKnown source.now.table trees.now }
    ensures found { IfOk result (AreVariablesFound (variables_from (declarations_of source.now) (trees_at source.now.table trees.now) count 0) table.new) }
    ensures known { IfOk result (λ found. IfSome found (λ ids. AreKnown table.new ids.items)) }
    ensures many { IfOk result (λ found. IfSome found (λ ids. length ids.items ≡ length trees.now)) }
    ensures keeps { Keeps table.old table.new }
{
    let mut ids = Vec::new(alloc);
    for (number, tree) in trees.iter().enumerate() {
        let place = Place {
            type_variables: count,
            free_variables: number,
            hypotheses: 0,
            binders: 0,
        };
        let Some(ty) = decode_type(alloc, source, place, table, GREATEST_DEPTH, *tree)? else {
            return Ok(None);
        };
        let name = parameter_name(alloc, number)?;
        match table.free(&name, ty) {
            Ok(id) => ids.push(id)?,
            Err(Fault::Memory) => return Err(Memory),
            Err(Fault::Refused(_)) => return Ok(None),
        }
    }
    Ok(Some(ids))
}

// The terms of the hypotheses, each under the binders of those before it.
fn decode_hypotheses(
    source: Source<'_>,
    trees: &[LpId],
    table: &mut TermTable,
    budget: &mut u64,
) -> Result<Option<Vec<TermId>>, Memory>
    requires source { IsSource table.old source }
    requires budget { budget.old ≤ greatest_size }
    requires known { lp.AreKnown source.base.now.table trees.now }
    ensures found { IfOk result (AreHypothesesDecoded source.entry trees.now table.old budget.old table.new budget.new) }
    ensures known { IfOk result (λ found. IfSome found (λ ids. AreKnown table.new ids.items)) }
    ensures budget { budget.new ≤ budget.old }
    ensures keeps { Keeps table.old table.new }
{
    let mut ids = Vec::new(source.alloc);
    for (number, tree) in trees.iter().enumerate() {
        let place = Place {
            hypotheses: number,
            binders: 0,
            ..source.place
        };
        let from = Source { place, ..source };
        let Some(id) = decode_term(from, table, budget, GREATEST_DEPTH, *tree)? else {
            return Ok(None);
        };
        ids.push(id)?;
    }
    Ok(Some(ids))
}
