//! The check of a declaration, and of all of a module's.
ghost use Rattle.std.specs.Prelude.{◌≡◌, ℕ, ◌<◌, ◌≤◌, IfOk, length, true, false};
ghost use Rattle.lp_spec.specs.ModuleOrder.{IsModule};
ghost use Rattle.lp_spec.specs.Typing.{WellTyped};
ghost use Rattle.lp_term.specs.Tables.{tree_at};
ghost use Rattle.holide_sig.specs.Modules.{declarations_of, IsHeld, IsBodyKnown};
ghost use Rattle.lp_spec.specs.Check.{body_plan, declaration_plan};
ghost use Rattle.lp_conv.specs.Growth.{Grows};
ghost use Rattle.lp_conv.specs.declared.Answer.TheVariants as answer;
ghost use Rattle.lp_kernel.specs.declared.checks.Verdict.TheVariants as verdict;
ghost use Rattle.lp_kernel.specs.Right.{AreRight, CutsBack};
ghost use Rattle.lp_kernel.specs.Checks.{IsBodyChecked, IsChecked, IsTypedAt, IsJudged, PassWithin, IsRefusedWithin};

use crate::inference::Inferred;
use crate::memo::Memos;
use crate::noting::infer_noted;
use common::{Budget, Memory};
use holide_sig::Module;
use lp_conv::{Answer, conv};
use lp_term::{LpId, LpNode};
use std::alloc::Global;

/// The verdict on a module.
#[derive(Clone, Copy, Debug, PartialEq, Eq)]
pub enum Verdict {
    /// Every declaration passes, and the module is well typed.
    Accepted,
    /// The check of this declaration, counted from 0, says no, and those before it pass.
    IllTyped(usize),
    /// The check of this declaration does not end within its budget, and those before it pass.
    OverBudget(usize),
}

/// Checks a declaration, counted from 0, over those before it, each step taking one of the budget: its type has the sort
/// of types, and its body, where there is one, a type that is convertible to it.
pub fn check_decl(
    alloc: Global,
    base: &mut Module,
    i: usize,
    budget: &mut Budget,
) -> Result<Answer, Memory>
    requires held { IsHeld base.old }
    requires is_module { IsModule (declarations_of base.old) }
    requires i { i < length base.old.decls }
    ensures grows { Grows base.old base.new }
    ensures less { budget.new.left ≤ budget.old.left }
    ensures answered { IfOk result (IsChecked true (declarations_of base.old) i budget.old.left budget.new.left) }
    ensures sound { IfOk result (λ a. a ≡ answer.Yes → IsTypedAt (declarations_of base.old) i) }
{
    let mut memo = Memos::new(alloc, true);
    check_noted(&mut memo, base, i, budget)
}

// Checks a declaration by what is noted of closed trees.
fn check_noted(
    memo: &mut Memos,
    base: &mut Module,
    i: usize,
    budget: &mut Budget,
) -> Result<Answer, Memory>
    requires held { IsHeld base.old }
    requires is_module { IsModule (declarations_of base.old) }
    requires right { AreRight memo.old.turns.rechecks (declarations_of base.old) base.old.table memo.old }
    requires i { i < length base.old.decls }
    ensures grows { Grows base.old base.new }
    ensures less { budget.new.left ≤ budget.old.left }
    ensures answered { IfOk result (IsChecked memo.old.turns.rechecks (declarations_of base.old) i budget.old.left budget.new.left) }
    ensures sound { IfOk result (λ a. a ≡ answer.Yes → IsTypedAt (declarations_of base.old) i) }
    ensures right { IfOk result (λ a. AreRight memo.old.turns.rechecks (declarations_of base.new) base.new.table memo.new) }
{
    let decl = base.decls.get(i);
    let (ty, body) = (decl.ty, decl.body);
    match infer_noted(memo, base, ty, budget)? {
        Inferred::Found(sort) => match base.table.view(sort) {
            LpNode::SortType => check_body(memo, base, ty, body, budget),
            _ => Ok(Answer::No),
        },
        Inferred::No => Ok(Answer::No),
        Inferred::Over => Ok(Answer::Over),
    }
}

// Whether the body of a declaration, where there is one, has a type that is convertible to the declared one.
fn check_body(
    memo: &mut Memos,
    base: &mut Module,
    ty: LpId,
    body: Option<LpId>,
    budget: &mut Budget,
) -> Result<Answer, Memory>
    requires held { IsHeld base.old }
    requires is_module { IsModule (declarations_of base.old) }
    requires right { AreRight memo.old.turns.rechecks (declarations_of base.old) base.old.table memo.old }
    requires ty { ty.0 < length base.old.table }
    requires body { IsBodyKnown base.old.table body }
    ensures grows { Grows base.old base.new }
    ensures less { budget.new.left ≤ budget.old.left }
    ensures answered { IfOk result (IsBodyChecked memo.old.turns.rechecks base.old ty body budget.old.left budget.new.left) }
    ensures right { IfOk result (λ a. AreRight memo.old.turns.rechecks (declarations_of base.new) base.new.table memo.new) }
{
    let Some(tree) = body else {
        return Ok(Answer::Yes);
    };
    match infer_noted(memo, base, tree, budget)? {
        Inferred::Found(found) => conv(memo.turns.alloc, base, ty, found, budget),
        Inferred::No => Ok(Answer::No),
        Inferred::Over => Ok(Answer::Over),
    }
}

/// Checks the declarations in order, each over those before it and within its own budget.
pub fn check_module(alloc: Global, base: &mut Module, budgets: &[u128]) -> Result<Verdict, Memory>
    requires held { IsHeld base.old }
    requires is_module { IsModule (declarations_of base.old) }
    requires budgets { length budgets.now ≡ length base.old.decls }
    ensures grows { Grows base.old base.new }
    ensures judged { IfOk result (IsJudged true (declarations_of base.old) budgets.now) }
    ensures well_typed { IfOk result (λ v. v ≡ verdict.Accepted → WellTyped (declarations_of base.old)) }
    ensures accepts { IfOk result (λ v. PassWithin true (declarations_of base.old) budgets.now (length base.old.decls) → v ≡ verdict.Accepted) }
    ensures refuses { IfOk result (λ v. (i : ℕ) → IsRefusedWithin true (declarations_of base.old) budgets.now i → v ≡ verdict.IllTyped i) }
{
    check_all(alloc, base, true, budgets)
}

/// Checks the declarations in order without rechecks of sorts, each over those before it and within its own budget.
pub fn check_fast(alloc: Global, base: &mut Module, budgets: &[u128]) -> Result<Verdict, Memory>
    requires held { IsHeld base.old }
    requires is_module { IsModule (declarations_of base.old) }
    requires budgets { length budgets.now ≡ length base.old.decls }
    ensures grows { Grows base.old base.new }
    ensures judged { IfOk result (IsJudged false (declarations_of base.old) budgets.now) }
    ensures well_typed { IfOk result (λ v. v ≡ verdict.Accepted → WellTyped (declarations_of base.old)) }
    ensures accepts { IfOk result (λ v. PassWithin false (declarations_of base.old) budgets.now (length base.old.decls) → v ≡ verdict.Accepted) }
    ensures refuses { IfOk result (λ v. (i : ℕ) → IsRefusedWithin false (declarations_of base.old) budgets.now i → v ≡ verdict.IllTyped i) }
{
    check_all(alloc, base, false, budgets)
}

// Checks the declarations in order, with rechecks of sorts or without.
fn check_all(
    alloc: Global,
    base: &mut Module,
    rechecks: bool,
    budgets: &[u128],
) -> Result<Verdict, Memory>
    requires held { IsHeld base.old }
    requires is_module { IsModule (declarations_of base.old) }
    requires budgets { length budgets.now ≡ length base.old.decls }
    ensures grows { Grows base.old base.new }
    ensures judged { IfOk result (IsJudged rechecks (declarations_of base.old) budgets.now) }
    ensures well_typed { IfOk result (λ v. v ≡ verdict.Accepted → WellTyped (declarations_of base.old)) }
    ensures accepts { IfOk result (λ v. PassWithin rechecks (declarations_of base.old) budgets.now (length base.old.decls) → v ≡ verdict.Accepted) }
    ensures refuses { IfOk result (λ v. (i : ℕ) → IsRefusedWithin rechecks (declarations_of base.old) budgets.now i → v ≡ verdict.IllTyped i) }
{
    let kept = base.table.count();
    let mut memo = Memos::with_room(alloc, rechecks, room(kept))?;
    for (i, budget) in budgets.iter().enumerate() {
        let mut left = Budget { left: *budget };
        match check_noted(&mut memo, base, i, &mut left)? {
            Answer::Yes => cut_back(base, &mut memo, kept),
            Answer::No => return Ok(Verdict::IllTyped(i)),
            Answer::Over => return Ok(Verdict::OverBudget(i)),
        }
    }
    Ok(Verdict::Accepted)
}

// How many nodes the checks may make before they are given up: so many, or an eighth of the module's.
const ROOM: usize = 4096;

// Room for the first `kept` nodes and for those that the checks make until they are given up.
fn room(kept: usize) -> usize {
    kept.saturating_add(kept / 8).saturating_add(ROOM)
}

// Gives up the nodes that the checks made after the first `kept`, where they are many, and what is noted of them.
fn cut_back(base: &mut Module, memo: &mut Memos, kept: usize)
    requires { kept ≤ length base.old.table }
    ensures { CutsBack kept base.old memo.old base.new memo.new }
{
    memo.trim();
    let made = base.table.count() - kept;
    if made < ROOM || made < kept / 8 {
        return;
    }
    base.table.cut(kept);
    memo.cut(kept);
}
