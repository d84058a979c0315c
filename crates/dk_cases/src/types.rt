//! Types of trees in a context.
ghost use Rattle.std.specs.Prelude.{◌∷◌, [], ◌<◌, length, IfSome};
ghost use Rattle.lp_conv.specs.HeadSteps.{IsKnownIf};
ghost use Rattle.lp_term.specs.Tables.{AreKnown};
ghost use Rattle.holide_sig.specs.Modules.{IsHeld};

use crate::faults::add_comma;
use crate::modules::read;
use case_files::{Case, Wrong, listed, number_of};
use common::Budget;
use dk_read::Limit;
use holide_sig::Module;
use lp_kernel::{Inferred, infer};
use lp_term::{LpId, LpNode, LpTable};
use std::alloc::Global;

/// Adds what is found of the type of what stands under the two binders of the last body, in the context of these or in none, for each
/// budget of the case.
pub(crate) fn add_types(
    alloc: Global,
    case: &Case<'_>,
    limit: Limit,
    bound: bool,
    text: &[u8],
    came: &mut Vec<u8>,
) -> Result<(), Wrong> {
    for budget in listed(case, "budgets")? {
        let left = u128::from(number_of(budget, "budgets")?);
        let word = found(alloc, limit, bound, left, text)?;
        add_comma(came)?;
        came.extend_from_slice(word)?;
    }
    Ok(())
}

// What is found within so many steps, as a word.
fn found(
    alloc: Global,
    limit: Limit,
    bound: bool,
    left: u128,
    text: &[u8],
) -> Result<&'static [u8], Wrong> {
    let Ok(mut source) = read(alloc, limit, text) else {
        return Err(Wrong("text"));
    };
    let mut budget = Budget { left };
    let found = found_in(alloc, &mut source, bound, &mut budget);
    drop(source);
    found
}

// What is found in a module.
fn found_in(
    alloc: Global,
    source: &mut Module,
    bound: bool,
    budget: &mut Budget,
) -> Result<&'static [u8], Wrong>
    requires { IsHeld source.old }
{
    match (last_of(source), declared_of(source)) {
        (Some(last), Some(declared)) => {
            let found = type_inside(alloc, source, last, bound, budget)?;
            Ok(found_word(found, declared.inside))
        }
        _ => Err(Wrong("text")),
    }
}

// A tree that begins with two binders: their types, and what stands under both.
#[derive(Clone, Copy)]
struct Under {
    outer: LpId,
    inner: LpId,
    inside: LpId,
}

// The type of a binder with which a tree begins, and what stands under it.
fn binder(table: &LpTable, id: LpId) -> Option<Under>
    requires { id.0 < length table.now }
    ensures { IfSome result (λ parts. AreKnown table.now (parts.inner ∷ parts.outer ∷ parts.inside ∷ [])) }
{
    match table.view(id) {
        LpNode::Lam(ty, inside) | LpNode::Pi(ty, inside) => Some(Under {
            outer: ty,
            inner: ty,
            inside,
        }),
        _ => None,
    }
}

// A tree under its two binders.
fn under_two(table: &LpTable, id: LpId) -> Option<Under>
    requires { id.0 < length table.now }
    ensures { IfSome result (λ parts. AreKnown table.now (parts.inner ∷ parts.outer ∷ parts.inside ∷ [])) }
{
    let first = binder(table, id)?;
    let second = binder(table, first.inside)?;
    Some(Under {
        outer: first.outer,
        inner: second.inner,
        inside: second.inside,
    })
}

// The body of the last declaration.
fn last_body(source: &Module) -> Option<LpId>
    requires { IsHeld source.now }
    ensures { IsKnownIf source.now.table result }
{
    let last = source.decls.len().checked_sub(1)?;
    source.decls.get(last).body
}

// Its type.
fn last_type(source: &Module) -> Option<LpId>
    requires { IsHeld source.now }
    ensures { IsKnownIf source.now.table result }
{
    let last = source.decls.len().checked_sub(1)?;
    Some(source.decls.get(last).ty)
}

// The body of the last declaration, under its two binders.
fn last_of(source: &Module) -> Option<Under>
    requires { IsHeld source.now }
    ensures { IfSome result (λ parts. AreKnown source.now.table (parts.inner ∷ parts.outer ∷ parts.inside ∷ [])) }
{
    under_two(&source.table, last_body(source)?)
}

// Its type, under its two binders.
fn declared_of(source: &Module) -> Option<Under>
    requires { IsHeld source.now }
{
    under_two(&source.table, last_type(source)?)
}

// The type of what stands under two binders, in their context or in none.
fn type_inside(
    alloc: Global,
    source: &mut Module,
    last: Under,
    bound: bool,
    budget: &mut Budget,
) -> Result<Inferred, Wrong>
    requires held { IsHeld source.old }
    requires last { AreKnown source.old.table (last.inner ∷ last.outer ∷ last.inside ∷ []) }
{
    let answer = if bound {
        infer(
            alloc,
            source,
            &[last.inner, last.outer],
            last.inside,
            budget,
        )
    } else {
        infer(alloc, source, &[], last.inside, budget)
    };
    answer.map_err(|_| Wrong("out of memory"))
}

// What is found, as a word.
fn found_word(found: Inferred, declared: LpId) -> &'static [u8] {
    match found {
        Inferred::Found(ty) if ty == declared => b"declared",
        Inferred::Found(_) => b"another",
        Inferred::No => b"none",
        Inferred::Over => b"over",
    }
}
