//! Conversion and head steps of two trees, the bodies of `l` and `r`.
ghost use Rattle.std.specs.Prelude.{◌<◌, ◌≤◌, length};
ghost use Rattle.holide_sig.specs.Modules.{IsHeld};
ghost use Rattle.lp_conv.specs.HeadSteps.{IsKnownIf};

use crate::checks::add_answer;
use crate::modules::read;
use case_files::{Case, Wrong, listed, number_of};
use common::Budget;
use dk_read::Limit;
use holide_sig::{Module, SIGNATURE};
use lp_conv::{Answer, conv, head_step};
use lp_term::LpId;
use std::alloc::Global;

// The body of the declaration of that name.
fn body(from: &Module, name: &[u8]) -> Option<LpId>
    requires held { IsHeld from.now }
    ensures known { IsKnownIf from.now.table result }
{
    let symbol = from.find(name)?;
    if symbol < SIGNATURE || from.decls.len() <= symbol - SIGNATURE {
        return None;
    }
    from.decls.get(symbol - SIGNATURE).body
}

/// Adds whether the two trees of a text are convertible and the steps that are left, for each budget of the case.
pub(crate) fn add_conversions(
    alloc: Global,
    case: &Case<'_>,
    limit: Limit,
    text: &[u8],
    came: &mut Vec<u8>,
) -> Result<(), Wrong> {
    for budget in listed(case, "budgets")? {
        let left = number_of(budget, "budgets")?;
        add_conversion(alloc, limit, text, u128::from(left), came)?;
    }
    Ok(())
}

// Adds the answer for this budget.
fn add_conversion(
    alloc: Global,
    limit: Limit,
    text: &[u8],
    left: u128,
    came: &mut Vec<u8>,
) -> Result<(), Wrong> {
    let Ok(mut source) = read(alloc, limit, text) else {
        return Err(Wrong("text"));
    };
    let mut budget = Budget { left };
    let answer = converted(alloc, &mut source, &mut budget);
    drop(source);
    add_answer(alloc, came, answer?, budget.left)
}

// Whether the two trees are convertible.
fn converted(alloc: Global, source: &mut Module, budget: &mut Budget) -> Result<Answer, Wrong>
    requires { IsHeld source.old }
{
    match (body(source, b"l"), body(source, b"r")) {
        (Some(expected), Some(found)) => {
            conv(alloc, source, expected, found, budget).map_err(|_| Wrong("out of memory"))
        }
        _ => Err(Wrong("text")),
    }
}

/// Adds where the head step of the left tree goes.
pub(crate) fn add_step(alloc: Global, source: &mut Module, came: &mut Vec<u8>) -> Result<(), Wrong>
    requires { IsHeld source.old }
{
    match (body(source, b"l"), body(source, b"r")) {
        (Some(from), Some(to)) => {
            came.extend_from_slice(step_word(step(alloc, source, from)?, to))?;
            Ok(())
        }
        _ => Err(Wrong("text")),
    }
}

// The head step of a tree.
fn step(alloc: Global, source: &mut Module, from: LpId) -> Result<Option<LpId>, Wrong>
    requires held { IsHeld source.old }
    requires from { from.0 < length source.old.table }
{
    head_step(alloc, source, from).map_err(|_| Wrong("out of memory"))
}

// Where a step goes, if there is one.
fn step_word(made: Option<LpId>, to: LpId) -> &'static [u8] {
    match made {
        Some(made) if made == to => b"to r",
        Some(_) => b"elsewhere",
        None => b"none",
    }
}
