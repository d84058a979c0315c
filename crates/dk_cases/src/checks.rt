//! How checks of declarations and modules end.
ghost use Rattle.lp_spec.specs.ModuleOrder.{IsModule};
ghost use Rattle.holide_sig.specs.Modules.{declarations_of, IsHeld};

use crate::faults::{add_comma, add_number};
use crate::modules::read;
use case_files::{Case, Wrong, listed, number_of, numbers};
use common::Budget;
use dk_read::Limit;
use holide_sig::Module;
use lp_conv::Answer;
use lp_kernel::{Verdict, check_decl, check_fast, check_module};
use std::alloc::Global;
use toml::Value;

/// Adds the answer to the check of the last declaration of a text and what is left of it, for each budget of the case.
pub(crate) fn add_checks(
    alloc: Global,
    case: &Case<'_>,
    limit: Limit,
    text: &[u8],
    came: &mut Vec<u8>,
) -> Result<(), Wrong> {
    for budget in listed(case, "budgets")? {
        let left = number_of(budget, "budgets")?;
        add_check(alloc, limit, text, u128::from(left), came)?;
    }
    Ok(())
}

// Adds the answer for this budget.
fn add_check(
    alloc: Global,
    limit: Limit,
    text: &[u8],
    left: u128,
    came: &mut Vec<u8>,
) -> Result<(), Wrong> {
    let Ok(mut source) = read(alloc, limit, text) else {
        return Err(Wrong("text"));
    };
    let mut budget = Budget { left };
    let answer = checked_last(alloc, &mut source, &mut budget);
    drop(source);
    add_answer(alloc, came, answer?, budget.left)
}

// The answer to the check of the last declaration.
fn checked_last(alloc: Global, source: &mut Module, budget: &mut Budget) -> Result<Answer, Wrong>
    requires held { IsHeld source.old }
    requires is_module { IsModule (declarations_of source.old) }
{
    match source.decls.len().checked_sub(1) {
        Some(last) => check_decl(alloc, source, last, budget).map_err(|_| Wrong("out of memory")),
        None => Err(Wrong("text")),
    }
}

/// Adds an answer and the steps that are left.
pub(crate) fn add_answer(
    alloc: Global,
    came: &mut Vec<u8>,
    answer: Answer,
    left: u128,
) -> Result<(), Wrong> {
    add_comma(came)?;
    came.extend_from_slice(answer_word(answer))?;
    add_number(alloc, came, left)
}

// The name of an answer.
fn answer_word(answer: Answer) -> &'static [u8] {
    match answer {
        Answer::Yes => b"Yes ",
        Answer::No => b"No ",
        Answer::Over => b"Over ",
    }
}

/// Adds the verdict on a module, fast or not, under the budgets of the case, of which there are as many as declarations.
pub(crate) fn add_verdict(
    alloc: Global,
    case: &Case<'_>,
    source: &mut Module,
    fast: bool,
    came: &mut Vec<u8>,
) -> Result<(), Wrong>
    requires held { IsHeld source.old }
    requires is_module { IsModule (declarations_of source.old) }
{
    let budgets = budgets(alloc, case)?;
    let verdict = verdict(alloc, source, fast, &budgets);
    drop(budgets);
    add_verdict_of(alloc, verdict?, came)
}

/// The budgets of a case.
pub(crate) fn budgets(alloc: Global, case: &Case<'_>) -> Result<Vec<u128>, Wrong> {
    let numbers = numbers(alloc, case, "budgets")?;
    let mut budgets = Vec::new(alloc);
    let added = add_budgets(&numbers, &mut budgets);
    drop(numbers);
    added?;
    Ok(budgets)
}

// Adds these numbers.
fn add_budgets(numbers: &[u64], budgets: &mut Vec<u128>) -> Result<(), Wrong> {
    for number in numbers {
        budgets.push(u128::from(*number))?;
    }
    Ok(())
}

// The verdict under these budgets.
fn verdict(
    alloc: Global,
    source: &mut Module,
    fast: bool,
    budgets: &[u128],
) -> Result<Verdict, Wrong>
    requires held { IsHeld source.old }
    requires is_module { IsModule (declarations_of source.old) }
{
    if budgets.len() != source.decls.len() {
        return Err(Wrong("budgets"));
    }
    if fast {
        check_fast(alloc, source, budgets).map_err(|_| Wrong("out of memory"))
    } else {
        check_module(alloc, source, budgets).map_err(|_| Wrong("out of memory"))
    }
}

// Adds a verdict, with the declaration that it is about.
fn add_verdict_of(alloc: Global, verdict: Verdict, came: &mut Vec<u8>) -> Result<(), Wrong> {
    match verdict {
        Verdict::Accepted => {
            came.extend_from_slice(b"Accepted")?;
            Ok(())
        }
        Verdict::IllTyped(i) => {
            came.extend_from_slice(b"IllTyped ")?;
            add_number(alloc, came, i as u128)
        }
        Verdict::OverBudget(i) => {
            came.extend_from_slice(b"OverBudget ")?;
            add_number(alloc, came, i as u128)
        }
    }
}
