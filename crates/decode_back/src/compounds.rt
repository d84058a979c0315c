//! Terms that are made of terms: applications and abstractions, at their cost.
ghost use Rattle.std.specs.Prelude.{true, false, ◌≡◌, ◌<◌, ◌≤◌, ◌+◌, ℕ, length, IfOk, IfSome};
ghost use Rattle.hol_spec.specs.Limits.{greatest_size, type_size};
ghost use Rattle.hol_term.specs.Tables.{type_at, AreKnown, Keeps};
ghost use Rattle.decode_back.specs.TermWalks.{outside_name, IsAbstracted};
ghost use Rattle.decode_back.specs.TermTasks.{IsDone};
ghost use Rattle.decode_back.specs.declared.terms.Task.TheVariants as the_task;

use crate::budgets::spend;
use crate::made::{keep, take};
use common::{Fault, Memory, Stack};
use hol_name::Name;
use hol_term::{TermId, TermTable, Variable};
use hol_type::TypeId;
use std::alloc::Global;

// Applies the term made second to last to the one made last.
pub(crate) fn apply(
    table: &mut TermTable,
    budget: &mut u64,
    made: &mut Stack<TermId>,
) -> Result<bool, Memory>
    requires known { AreKnown table.old made.old }
    requires two { 2 ≤ length made.old }
    ensures turned { IfOk result (IsDone the_task.Apply table.old budget.old made.old table.new budget.new made.new) }
    ensures known { IfOk result (λ goes_on. goes_on ≡ true → AreKnown table.new made.new) }
    ensures fewer { IfOk result (λ goes_on. goes_on ≡ true → length made.new + 1 ≡ length made.old) }
    ensures budget { budget.new ≤ budget.old }
    ensures keeps { Keeps table.old table.new }
{
    let argument = take(made);
    let function = take(made);
    if !spend(budget, 1) {
        return Ok(false);
    }
    made.push(table.raw_application(function, argument)?)?;
    Ok(true)
}

// Abstracts over the term made last.
pub(crate) fn abstract_over(
    alloc: Global,
    table: &mut TermTable,
    budget: &mut u64,
    ty: TypeId,
    made: &mut Stack<TermId>,
) -> Result<bool, Memory>
    requires ty { ty.0 < length table.old.types }
    requires known { AreKnown table.old made.old }
    requires one { 1 ≤ length made.old }
    requires budget { budget.old ≤ greatest_size }
    ensures turned { IfOk result (IsDone (the_task.Abstract ty) table.old budget.old made.old table.new budget.new made.new) }
    ensures known { IfOk result (λ goes_on. goes_on ≡ true → AreKnown table.new made.new) }
    ensures many { IfOk result (λ goes_on. goes_on ≡ true → length made.new ≡ length made.old) }
    ensures budget { budget.new ≤ budget.old }
    ensures keeps { Keeps table.old table.new }
{
    let body = take(made);
    let found = abstraction(alloc, table, budget, ty, body)?;
    keep(found, made)
}

// The abstraction over a type of the body of its binder.
fn abstraction(
    alloc: Global,
    table: &mut TermTable,
    budget: &mut u64,
    ty: TypeId,
    body: TermId,
) -> Result<Option<TermId>, Memory>
    requires ty { ty.0 < length table.old.types }
    requires body { body.0 < length table.old.terms }
    requires budget { budget.old ≤ greatest_size }
    ensures made { IfOk result (IsAbstracted table.old ty body budget.old budget.new table.new) }
    ensures known { IfOk result (λ found. IfSome found (λ t. t.0 < length table.new.terms)) }
    ensures budget { budget.new ≤ budget.old }
    ensures keeps { Keeps table.old table.new }
{
    let size = table.types().size(ty);
    if !spend(budget, size) {
        return Ok(None);
    }
    if !spend(budget, 1) {
        return Ok(None);
    }
    let Ok(name) = Name::single(alloc, b"") else {
        return Err(Memory);
    };
    let variable = Variable { name, ty };
    let found = over(table, &variable, body);
    drop(variable);
    found
}

// The same at no cost, with the variable that stands for the binder's while the body is open.
fn over(table: &mut TermTable, variable: &Variable, body: TermId) -> Result<Option<TermId>, Memory>
    requires ty { variable.now.ty.0 < length table.old.types }
    requires body { body.0 < length table.old.terms }
    ensures made { IfOk result (λ found. variable.now.name ≡ outside_name → (there left : ℕ)
        → left + (1 + type_size (type_at table.old variable.now.ty.0)) ≡ there → IsAbstracted table.old variable.now.ty body there left table.new found) }
    ensures known { IfOk result (λ found. IfSome found (λ t. t.0 < length table.new.terms)) }
    ensures keeps { Keeps table.old table.new }
{
    let outside = match table.free(&variable.name, variable.ty) {
        Ok(outside) => outside,
        Err(Fault::Memory) => return Err(Memory),
        Err(Fault::Refused(_)) => return Ok(None),
    };
    let open = table.raw_instance(body, outside)?;
    let made = table.raw_abstraction(variable, open)?;
    Ok(Some(made))
}
