//! The terms that trees stand for, found on stacks of their own.
ghost use Rattle.std.specs.Prelude.{true, false, ◌≡◌, ◌<◌, ◌≤◌, ◌+◌, ◌*◌, ◌-◌, ◌∷◌, length, IfOk, IfSome, OnOk, MatchOption};
ghost use Rattle.hol_spec.specs.Limits.{greatest_depth, greatest_size};
ghost use Rattle.lp_spec.specs.Modules.{applied};
ghost use Rattle.lp_term.specs.Tables as lp;
ghost use Rattle.lp_term.specs.Tables.{tree_at, trees_at};
ghost use Rattle.lp_term.specs.declared.LpId.{LpId as AnId};
ghost use Rattle.hol_term.specs.Tables.{AreKnown, Keeps};
ghost use Rattle.decode_back.specs.Sources.{spine_size, told, tree_of, IsDecoded, IsSource, IsSpine};
ghost use Rattle.decode_back.specs.TermWalks.{IsHead};
ghost use Rattle.decode_back.specs.TermTasks.{abstracting, applying, visiting, visits, with_task, work, AreTermTasks, IsShaped, IsTurned};
ghost use Rattle.decode_back.specs.declared.terms.Task.TheVariants as the_task;

use crate::compounds::{abstract_over, apply};
use crate::heads::{binder, constant, variable};
use crate::places::Place;
use crate::sources::Source;
use common::{Memory, Stack};
use hol_term::{TermId, TermTable};
use hol_type::TypeId;
use lp_term::{LpId, LpNode, LpTable};
use std::alloc::Global;

/// What is still to be done on the way through a term.
#[derive(Clone, Copy)]
enum Task {
    /// To decode this tree, under so many binders of the term's own, into a term no deeper than the level.
    Visit(LpId, usize, usize),
    /// To apply the term made second to last to the one made last.
    Apply,
    /// To abstract over the term made last, by a variable of this type.
    Abstract(TypeId),
}

/// The way through a term: what is still to be done, the terms that were made and not yet taken up, and how many nodes there may still be.
#[derive(Drop)]
struct Walk {
    tasks: Stack<Task>,
    made: Stack<TermId>,
    budget: u64,
}

/// The term that a tree stands for at the place of a source, no larger than what is left of the budget and no deeper than the level. What it
/// takes of the budget is its size.
pub fn decode_term(
    source: Source<'_>,
    table: &mut TermTable,
    budget: &mut u64,
    level: usize,
    id: LpId,
) -> Result<Option<TermId>, Memory>
    requires source { IsSource table.old source }
    requires budget { budget.old ≤ greatest_size }
    requires level { source.place.binders + level ≤ greatest_depth }
    requires known { id.0 < length source.base.now.table }
    ensures decoded { IfOk result (IsDecoded source.entry level (told source.entry (tree_of source.entry id)) table.old budget.old table.new budget.new) }
    ensures known { IfOk result (λ found. IfSome found (λ t. t.0 < length table.new.terms)) }
    ensures budget { budget.new ≤ budget.old }
    ensures keeps { Keeps table.old table.new }
{
    let tasks = Stack::new(source.alloc);
    let made = Stack::new(source.alloc);
    let mut walk = Walk {
        tasks,
        made,
        budget: *budget,
    };
    walk.tasks
        .push(Task::Visit(id, source.place.binders, level))?;
    while let Some(task) = walk.tasks.pop() {
        if !turn(source, table, &mut walk, task)? {
            return Ok(None);
        }
    }
    *budget = walk.budget;
    Ok(walk.made.pop())
}

// One turn of decoding a term, and whether it goes on.
fn turn(
    source: Source<'_>,
    table: &mut TermTable,
    walk: &mut Walk,
    task: Task,
) -> Result<bool, Memory>
    requires source { IsSource table.old source }
    requires budget { walk.old.budget ≤ greatest_size }
    requires shaped { IsShaped source table.old (with_task task walk.old) }
    ensures turned { IfOk result (IsTurned source.entry table.old (with_task task walk.old) table.new walk.new) }
    ensures shaped { IfOk result (λ goes_on. goes_on ≡ true → IsShaped source.entry table.new walk.new) }
    ensures less { IfOk result (λ goes_on. goes_on ≡ true → work source.entry walk.new < work source.entry (with_task task walk.old)) }
    ensures budget { walk.new.budget ≤ walk.old.budget }
    ensures keeps { Keeps table.old table.new }
{
    match task {
        Task::Visit(tree, binders, level) => {
            let place = Place {
                binders,
                ..source.place
            };
            visit(Source { place, ..source }, table, walk, level, tree)
        }
        Task::Apply => apply(table, &mut walk.budget, &mut walk.made),
        Task::Abstract(ty) => {
            abstract_over(source.alloc, table, &mut walk.budget, ty, &mut walk.made)
        }
    }
}

// Decodes the head of a tree, or sets out to decode its body, and sets out to apply it to the terms of what it is applied to.
fn visit(
    source: Source<'_>,
    table: &mut TermTable,
    walk: &mut Walk,
    level: usize,
    tree: LpId,
) -> Result<bool, Memory>
    requires source { IsSource table.old source }
    requires budget { walk.old.budget ≤ greatest_size }
    requires shaped { IsShaped source table.old (visiting source tree level walk.old) }
    ensures turned { IfOk result (IsTurned source.entry table.old (visiting source.entry tree level walk.old) table.new walk.new) }
    ensures shaped { IfOk result (λ goes_on. goes_on ≡ true → IsShaped source.entry table.new walk.new) }
    ensures less { IfOk result (λ goes_on. goes_on ≡ true → work source.entry walk.new < work source.entry (visiting source.entry tree level walk.old)) }
    ensures budget { walk.new.budget ≤ walk.old.budget }
    ensures keeps { Keeps table.old table.new }
{
    if level == 0 {
        return Ok(false);
    }
    let mut args = Stack::new(source.alloc);
    let head = spine(&source.base.table, tree, &mut args)?;
    visit_head(source, table, walk, level, head, &mut args)
}

// What a tree is applied to, the first on top, and what is applied.
fn spine(table: &LpTable, id: LpId, args: &mut Stack<LpId>) -> Result<LpId, Memory>
    requires known { id.0 < length table.now }
    requires args { lp.AreKnown table.now args.old }
    ensures spine { IfOk result (λ head.
        applied (tree_at table.now head.0) (trees_at table.now args.new) ≡ applied (tree_at table.now id.0) (trees_at table.now args.old)) }
    ensures head { IfOk result (λ head. IsHead (tree_at table.now head.0)) }
    ensures known { IfOk result (λ head. head.0 < length table.now) }
    ensures args { OnOk result (lp.AreKnown table.now args.new) }
{
    let mut head = id;
    while let LpNode::App(function, argument) = table.view(head) {
        args.push(argument)?;
        head = function;
    }
    Ok(head)
}

// The same for a tree of which the head and what it is applied to are known. A constant takes its type arguments off the spine.
fn visit_head(
    source: Source<'_>,
    table: &mut TermTable,
    walk: &mut Walk,
    level: usize,
    head: LpId,
    args: &mut Stack<LpId>,
) -> Result<bool, Memory>
    requires source { IsSource table.old source }
    requires budget { walk.old.budget ≤ greatest_size }
    requires level { source.place.binders + level ≤ greatest_depth }
    requires positive { 0 < level }
    requires known { head.0 < length source.base.now.table }
    requires head { IsHead (tree_of source head) }
    requires args { lp.AreKnown source.base.now.table args.old }
    requires made { AreKnown table.old walk.old.made }
    requires tasks { AreTermTasks source.base.now.table table.old walk.old.tasks (length walk.old.made + 1) }
    ensures turned { IfOk result (λ goes_on. (tree : AnId) → IsSpine source.entry head args.old tree
        → IsTurned source.entry table.old (visiting source.entry tree level walk.old) table.new walk.new goes_on) }
    ensures shaped { IfOk result (λ goes_on. goes_on ≡ true → IsShaped source.entry table.new walk.new) }
    ensures less { IfOk result (λ goes_on. goes_on ≡ true
        → work source.entry walk.new < 2 * spine_size source.entry head args.old + work source.entry walk.old) }
    ensures budget { walk.new.budget ≤ walk.old.budget }
    ensures keeps { Keeps table.old table.new }
{
    match source.base.table.view(head) {
        LpNode::Sym(symbol) => {
            let found = constant(source, table, &mut walk.budget, level, symbol, args)?;
            go_on(source, level, found, args, &mut walk.tasks, &mut walk.made)
        }
        LpNode::Var(number) => {
            let found = variable(source, table, &mut walk.budget, number)?;
            go_on(source, level, found, args, &mut walk.tasks, &mut walk.made)
        }
        LpNode::Lam(domain, body) => {
            let found = binder(source, table, level, domain)?;
            go_under(source, level, found, body, args, &mut walk.tasks)
        }
        LpNode::SortType | LpNode::SortKind | LpNode::App(_, _) | LpNode::Pi(_, _) => Ok(false),
    }
}

// Puts the term of a head with those that were made, and sets out to apply it to the terms of what is left of the spine, if it is found.
fn go_on(
    source: Source<'_>,
    level: usize,
    found: Option<TermId>,
    args: &mut Stack<LpId>,
    tasks: &mut Stack<Task>,
    made: &mut Stack<TermId>,
) -> Result<bool, Memory>
    requires { 0 < level }
    ensures { IfOk result (λ goes_on. MatchOption found (goes_on ≡ false) (λ id.
        (goes_on ≡ true) × (made.new ≡ id ∷ made.old) × (tasks.new ≡ applying source.entry level args.old tasks.old))) }
{
    let Some(id) = found else {
        return Ok(false);
    };
    made.push(id)?;
    set_out(source.alloc, source.place.binders, level - 1, args, tasks)?;
    Ok(true)
}

// Sets out to decode the body of an abstraction, to abstract over it and to apply that to the terms of what is left of the spine, if the type
// of its binder is found.
fn go_under(
    source: Source<'_>,
    level: usize,
    found: Option<TypeId>,
    body: LpId,
    args: &mut Stack<LpId>,
    tasks: &mut Stack<Task>,
) -> Result<bool, Memory>
    requires positive { 0 < level }
    requires level { source.place.binders + level ≤ greatest_depth }
    ensures { IfOk result (λ goes_on. MatchOption found (goes_on ≡ false) (λ ty.
        (goes_on ≡ true) × (tasks.new ≡ abstracting source.entry level body ty args.old tasks.old))) }
{
    let Some(ty) = found else {
        return Ok(false);
    };
    set_out(source.alloc, source.place.binders, level - 1, args, tasks)?;
    tasks.push(Task::Abstract(ty))?;
    tasks.push(Task::Visit(body, source.place.binders + 1, level - 1))?;
    Ok(true)
}

// Sets out to apply the term made last to the terms of these trees, one after another.
fn set_out(
    alloc: Global,
    binders: usize,
    level: usize,
    args: &mut Stack<LpId>,
    tasks: &mut Stack<Task>,
) -> Result<(), Memory>
    ensures { OnOk result (tasks.new ≡ visits binders level args.old tasks.old) }
{
    let mut back = Stack::new(alloc);
    while let Some(arg) = args.pop() {
        back.push(arg)?;
    }
    while let Some(arg) = back.pop() {
        tasks.push(Task::Apply)?;
        tasks.push(Task::Visit(arg, binders, level))?;
    }
    Ok(())
}
