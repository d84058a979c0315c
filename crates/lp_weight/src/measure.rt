//! How often variables occur in trees: sums over the places of a tree, each whose tree is large looked at once. The walk keeps a stack of its own.
ghost use Rattle.std.specs.Prelude.{◌≡◌, ◌⊎◌, ℕ, ◌<◌, ◌∷◌, List, length, IfOk, IfSome, IfNone, OnOk};
ghost use Rattle.lp_spec.specs.Trees.{Tree};
ghost use Rattle.lp_weight.specs.declared.memo.Place.{Place as APlace};
ghost use Rattle.lp_weight.specs.declared.measure.Task.TheVariants as task;
ghost use Rattle.lp_weight.specs.Saturation.{saturated};
ghost use Rattle.tree_map.specs.Noted.{IsNoted};
ghost use Rattle.lp_weight.specs.Measures.{IsPlace, IsLarge, IsWalk, IsIdle, place_occurrences, work};

use crate::memo::{Memo, Place};
use crate::occurrences::{Parts, parts_of};
use common::{Memory, Stack};
use holide_sig::Module;
use lp_term::LpId;
use std::alloc::Global;

/// What is still to be done.
#[derive(Clone, Copy)]
pub(crate) enum Task {
    /// To find how often the place's variable occurs there.
    Visit(Place),
    /// To sum the two topmost amounts, which are those of the place's parts.
    Join(Place),
}

// From how many amounts on a walk forgets them before the next.
const MOST: usize = 1 << 14;

// How many nodes a tree has at most that is summed anew at each visit, which costs less than to note it and to look for it.
const SMALL: u128 = 16;

/// A walk, on its way or idle. What it noted stays for the next.
#[derive(Drop)]
pub(crate) struct Walk {
    tasks: Stack<Task>,
    amounts: Stack<u128>,
    memo: Memo,
}

impl Walk {
    /// A walk that has seen nothing. It takes no memory.
    pub(crate) fn new(alloc: Global) -> Self
        ensures { (amount : APlace → ℕ) → IsIdle amount result }
    {
        Walk {
            tasks: Stack::new(alloc),
            amounts: Stack::new(alloc),
            memo: Memo::new(alloc),
        }
    }

    /// Forgets what it noted, if that is much.
    pub(crate) fn trim(&mut self)
        ensures { (amount : APlace → ℕ) → IsIdle amount self.old → IsIdle amount self.new }
    {
        if self.memo.len() > MOST {
            self.memo.clear();
        }
    }
}

/// A tree under no binder.
pub(crate) fn root(id: LpId) -> Place
    ensures { result ≡ record { id = id; depth = 0 } }
{
    Place { id, depth: 0 }
}

/// How often the place's variable occurs there.
pub(crate) fn measured(base: &Module, place: Place, walk: &mut Walk) -> Result<u128, Memory>
    requires place { IsPlace base.now.table place }
    requires idle { IsIdle (place_occurrences base.now) walk.old }
    ensures amount { IfOk result (λ n. n ≡ saturated (place_occurrences base.now place)) }
    ensures idle { OnOk result (IsIdle (place_occurrences base.now) walk.new) }
{
    walk.tasks.push(Task::Visit(place))?;
    while let Some(task) = walk.tasks.pop() {
        turn(base, task, walk)?;
    }
    Ok(walk.amounts.pop().unwrap())
}

// One turn of the walk.
fn turn(base: &Module, task: Task, walk: &mut Walk) -> Result<(), Memory>
    requires walk { (goal : ℕ) × IsWalk (place_occurrences base.now) base.now.table goal (task ∷ walk.old.tasks) walk.old.amounts walk.old.memo }
    ensures walk { OnOk result ((goal : ℕ) → IsWalk (place_occurrences base.now) base.now.table goal (task ∷ walk.old.tasks) walk.old.amounts walk.old.memo
        → IsWalk (place_occurrences base.now) base.now.table goal walk.new.tasks walk.new.amounts walk.new.memo) }
    ensures less { OnOk result (work base.now.table walk.new.tasks < work base.now.table (task ∷ walk.old.tasks)) }
{
    match task {
        Task::Visit(place) => visit(base, place, walk),
        Task::Join(place) => join(base, place, walk),
    }
}

// Takes what the place amounts to, or sets out the tasks that find it, where it has parts and is not noted yet.
fn visit(base: &Module, place: Place, walk: &mut Walk) -> Result<(), Memory>
    requires walk { (goal : ℕ) × IsWalk (place_occurrences base.now) base.now.table goal (task.Visit place ∷ walk.old.tasks) walk.old.amounts walk.old.memo }
    ensures walk { OnOk result ((goal : ℕ)
        → IsWalk (place_occurrences base.now) base.now.table goal (task.Visit place ∷ walk.old.tasks) walk.old.amounts walk.old.memo
        → IsWalk (place_occurrences base.now) base.now.table goal walk.new.tasks walk.new.amounts walk.new.memo) }
    ensures less { OnOk result (work base.now.table walk.new.tasks < work base.now.table (task.Visit place ∷ walk.old.tasks)) }
    ensures once { OnOk result (IsLarge base.now.table place → (n : ℕ) → IsNoted walk.old.memo place n → walk.new.tasks ≡ walk.old.tasks) }
{
    match parts_of(base, place) {
        Parts::Alone(amount) => give(walk, amount),
        Parts::Two(first, second) => match recalled(base, place, &walk.memo) {
            Some(amount) => give(walk, amount),
            None => set_out(walk, place, first, second),
        },
    }
}

// What a place amounts to, if its tree is large and it was noted.
fn recalled(base: &Module, place: Place, memo: &Memo) -> Option<u128>
    requires { place.id.0 < length base.now.table }
    ensures noted { IfSome result (IsNoted memo.now place) }
    ensures absent { IfNone result (IsLarge base.now.table place → (n : ℕ) → IsNoted memo.now place n → ⊥) }
{
    if base.table.size(place.id) > SMALL {
        memo.find(place)
    } else {
        None
    }
}

// Notes what a place amounts to, if its tree is large.
fn note(base: &Module, place: Place, amount: u128, memo: &mut Memo) -> Result<(), Memory>
    requires { place.id.0 < length base.now.table }
    ensures noted { OnOk result ((p : APlace) (n : ℕ) → IsNoted memo.new p n → IsNoted memo.old p n ⊎ ((p ≡ place) × (n ≡ amount))) }
    ensures new { OnOk result (IsLarge base.now.table place → IsNoted memo.new place amount) }
{
    if base.table.size(place.id) > SMALL {
        memo.note(place, amount)?;
    }
    Ok(())
}

// Puts an amount on the others.
fn give(walk: &mut Walk, amount: u128) -> Result<(), Memory>
    ensures amounts { OnOk result (walk.new.amounts ≡ amount ∷ walk.old.amounts) }
    ensures tasks { walk.new.tasks ≡ walk.old.tasks }
    ensures memo { walk.new.memo ≡ walk.old.memo }
{
    walk.amounts.push(amount)?;
    Ok(())
}

// Sets out to sum a place's parts.
fn set_out(walk: &mut Walk, place: Place, first: Place, second: Place) -> Result<(), Memory>
    ensures tasks { OnOk result (walk.new.tasks ≡ task.Visit first ∷ task.Visit second ∷ task.Join place ∷ walk.old.tasks) }
    ensures amounts { walk.new.amounts ≡ walk.old.amounts }
    ensures memo { walk.new.memo ≡ walk.old.memo }
{
    walk.tasks.push(Task::Join(place))?;
    walk.tasks.push(Task::Visit(second))?;
    walk.tasks.push(Task::Visit(first))?;
    Ok(())
}

// Sums the parts of a place, and notes the sum, if the place's tree is large.
fn join(base: &Module, place: Place, walk: &mut Walk) -> Result<(), Memory>
    requires known { place.id.0 < length base.now.table }
    requires two { 1 < length walk.old.amounts }
    ensures tasks { walk.new.tasks ≡ walk.old.tasks }
    ensures walk { OnOk result ((amount : APlace → ℕ) (trees : List Tree) (goal : ℕ)
        → IsWalk amount trees goal (task.Join place ∷ walk.old.tasks) walk.old.amounts walk.old.memo
        → IsWalk amount trees goal walk.new.tasks walk.new.amounts walk.new.memo) }
    ensures noted { OnOk result (IsLarge base.now.table place → (n : ℕ) × IsNoted walk.new.memo place n) }
{
    let (first, second) = two(&mut walk.amounts);
    let amount = first.saturating_add(second);
    note(base, place, amount, &mut walk.memo)?;
    give(walk, amount)
}

// The two topmost amounts, the lower one first.
fn two(amounts: &mut Stack<u128>) -> (u128, u128)
    requires { 1 < length amounts.old }
    ensures { amounts.old ≡ result.1 ∷ result.0 ∷ amounts.new }
{
    let second = amounts.pop().unwrap();
    let first = amounts.pop().unwrap();
    (first, second)
}
