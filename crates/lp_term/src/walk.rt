//! The walk that lifts a tree and puts trees into it. It keeps a stack of its own.
ghost use Rattle.std.specs.Prelude.{◌≡◌, ℕ, ◌<◌, ◌≤◌, ◌+◌, ◌-◌, ◌^◌, [], ◌∷◌, List, length, reverse, slice_get, Some, IfOk, IfSome, IfNone, OnOk, OnErr, ◌⊎◌};
ghost use Rattle.std.specs.Bool.{OnTrue};
ghost use Rattle.lp_spec.specs.Trees.{Tree, Var, loose as loose_of};
ghost use Rattle.lp_term.specs.declared.walk.Task.TheVariants as task;
ghost use Rattle.lp_term.specs.declared.LpId.{LpId as AnId};
ghost use Rattle.lp_term.specs.declared.memo.Place.{Place as APlace};
ghost use Rattle.lp_term.specs.Tables.{tree_at, trees_at, AreKnown, Holds, Keeps, IsDistinct};
ghost use Rattle.tree_map.specs.Noted.{IsNoted};
ghost use Rattle.lp_term.specs.Keys.{place_exact};
ghost use Rattle.lp_term.specs.Walks.{IsLeftAlone, IsPlace, IsReplaced, IsWalk, wanted, with_parts as node_with_parts, work};

use crate::memo::{Change, Memo, Place};
use crate::{LpId, LpNode, LpTable};
use common::{Memory, Stack};
use std::alloc::Global;
use tree_map::Key;

/// How many nodes a tree has that is made once for each place, and not again where it stands there again. A smaller one is made again.
const SHARED: u128 = 128;

/// What is still to be done.
#[derive(Clone, Copy)]
pub(crate) enum Task {
    /// To make the tree that is wanted at the place.
    Visit(Place),
    /// To make it of its parts, which are the two topmost trees made.
    Join(Place),
}

/// What stands for a variable.
pub(crate) enum Variable {
    /// The variable with this number.
    Renamed(u128),
    /// This argument, lifted by the binders round the variable.
    Argument(LpId),
}

impl Key for Place {
    ghost exact = { place_exact };
}

/// A walk on its way.
#[derive(Drop)]
pub(crate) struct Walk {
    tasks: Stack<Task>,
    made: Stack<LpId>,
    memo: Memo,
}

impl LpTable {
    // The number of the tree that is wanted at the root. After want of memory the table is as before.
    pub(crate) fn walk(&mut self, alloc: Global, args: &[LpId], root: Place) -> Result<LpId, Memory>
        requires root { IsPlace self.old root }
        requires given { AreKnown self.old args.now }
        ensures known { IfOk result (λ r. r.0 < length self.new) }
        ensures made { IfOk result (λ r. Holds self.new r.0 (wanted (trees_at self.old args.now) self.old root)) }
        ensures keeps { Keeps self.old self.new }
        ensures distinct { IsDistinct self.new }
        ensures unchanged { OnErr result (self.new ≡ self.old) }
    {
        let count = self.count();
        if is_left_alone(self, root) {
            return Ok(root.id);
        }
        match self.walk_on(alloc, args, root) {
            Ok(made) => Ok(made),
            Err(memory) => {
                self.cut(count);
                Err(memory)
            }
        }
    }

    fn walk_on(&mut self, alloc: Global, args: &[LpId], root: Place) -> Result<LpId, Memory>
        requires root { IsPlace self.old root }
        requires given { AreKnown self.old args.now }
        ensures known { IfOk result (λ r. r.0 < length self.new) }
        ensures made { IfOk result (λ r. Holds self.new r.0 (wanted (trees_at self.old args.now) self.old root)) }
        ensures keeps { Keeps self.old self.new }
    {
        let mut walk = Walk {
            tasks: Stack::new(alloc),
            made: Stack::new(alloc),
            memo: Memo::new(alloc),
        };
        walk.tasks.push(Task::Visit(root))?;
        while let Some(task) = walk.tasks.pop() {
            turn(self, args, task, &mut walk)?;
        }
        Ok(walk.made.pop().unwrap())
    }
}

// One turn of the walk.
fn turn(table: &mut LpTable, args: &[LpId], task: Task, walk: &mut Walk) -> Result<(), Memory>
    requires { (given : List Tree) × (goal : Tree) × IsWalk given goal table.old args.now (task ∷ walk.old.tasks) walk.old.made walk.old.memo }
    ensures keeps { Keeps table.old table.new }
    ensures walk { OnOk result ((given : List Tree) (goal : Tree) → IsWalk given goal table.old args.now (task ∷ walk.old.tasks) walk.old.made walk.old.memo
        → IsWalk given goal table.new args.now walk.new.tasks walk.new.made walk.new.memo) }
    ensures less { OnOk result (work table.new args.now walk.new.tasks < work table.old args.now (task ∷ walk.old.tasks)) }
{
    match task {
        Task::Visit(place) => visit(table, args, place, walk),
        Task::Join(place) => join(table, args, place, walk),
    }
}

// Makes the tree of a place, or sets out the tasks that make it.
fn visit(table: &mut LpTable, args: &[LpId], place: Place, walk: &mut Walk) -> Result<(), Memory>
    requires { (given : List Tree) × (goal : Tree) × IsWalk given goal table.old args.now (task.Visit place ∷ walk.old.tasks) walk.old.made walk.old.memo }
    ensures keeps { Keeps table.old table.new }
    ensures walk { OnOk result ((given : List Tree) (goal : Tree)
        → IsWalk given goal table.old args.now (task.Visit place ∷ walk.old.tasks) walk.old.made walk.old.memo
        → IsWalk given goal table.new args.now walk.new.tasks walk.new.made walk.new.memo) }
    ensures less { OnOk result (work table.new args.now walk.new.tasks < work table.old args.now (task.Visit place ∷ walk.old.tasks)) }
{
    match already(table, &walk.memo, place) {
        Some(id) => give(walk, id),
        None => visit_node(table, args, place, walk),
    }
}

// The tree of a place, if the change leaves it alone or it is made already.
fn already(table: &LpTable, memo: &Memo, place: Place) -> Option<LpId>
    requires { place.id.0 < length table.now }
    ensures { IfSome result (λ r. ((r ≡ place.id) × IsLeftAlone table.now place) ⊎ IsNoted memo.now place r) }
{
    if is_left_alone(table, place) {
        Some(place.id)
    } else if table.size(place.id) < SHARED {
        None
    } else {
        memo.find(place)
    }
}

// Whether the change leaves the tree of a place alone.
fn is_left_alone(table: &LpTable, place: Place) -> bool
    requires { place.id.0 < length table.now }
    ensures { OnTrue result (IsLeftAlone table.now place) }
{
    place.change == Change::Raise(0) || table.is_closed_under(place.id, place.depth)
}

// Notes the tree of a place, where it is large enough that it pays.
fn note(memo: &mut Memo, place: Place, id: LpId, size: u128) -> Result<(), Memory>
    ensures noted { OnOk result ((p : APlace) (r : AnId) → IsNoted memo.new p r → IsNoted memo.old p r ⊎ ((p ≡ place) × (r ≡ id))) }
{
    if size < SHARED {
        return Ok(());
    }
    memo.note(place, id)
}

// Puts a tree on those that are made.
fn give(walk: &mut Walk, id: LpId) -> Result<(), Memory>
    ensures made { OnOk result (walk.new.made ≡ id ∷ walk.old.made) }
    ensures tasks { walk.new.tasks ≡ walk.old.tasks }
    ensures memo { walk.new.memo ≡ walk.old.memo }
{
    walk.made.push(id)?;
    Ok(())
}

// Makes the tree of a place that is not made yet, or sets out the tasks that make it.
fn visit_node(
    table: &mut LpTable,
    args: &[LpId],
    place: Place,
    walk: &mut Walk,
) -> Result<(), Memory>
    requires { (given : List Tree) × (goal : Tree) × IsWalk given goal table.old args.now (task.Visit place ∷ walk.old.tasks) walk.old.made walk.old.memo }
    ensures keeps { Keeps table.old table.new }
    ensures walk { OnOk result ((given : List Tree) (goal : Tree)
        → IsWalk given goal table.old args.now (task.Visit place ∷ walk.old.tasks) walk.old.made walk.old.memo
        → IsWalk given goal table.new args.now walk.new.tasks walk.new.made walk.new.memo) }
    ensures less { OnOk result (work table.new args.now walk.new.tasks < work table.old args.now (task.Visit place ∷ walk.old.tasks)) }
{
    match table.view(place.id) {
        LpNode::Var(n) => visit_variable(table, args, place, n, walk),
        LpNode::App(f, x) => set_out(walk, place, f, x, place.depth),
        LpNode::Lam(a, b) | LpNode::Pi(a, b) => set_out(walk, place, a, b, place.depth + 1),
        LpNode::SortType | LpNode::SortKind | LpNode::Sym(_) => give(walk, place.id),
    }
}

// Sets out to make a place of its parts, the second of which is under so many binders.
fn set_out(
    walk: &mut Walk,
    place: Place,
    first: LpId,
    second: LpId,
    depth: u128,
) -> Result<(), Memory>
    ensures tasks { OnOk result (walk.new.tasks ≡ task.Visit (record place { id = first; depth = place.depth }) ∷ task.Visit
        (record place { id = second; depth = depth }) ∷ task.Join place ∷ walk.old.tasks) }
    ensures made { walk.new.made ≡ walk.old.made }
    ensures memo { walk.new.memo ≡ walk.old.memo }
{
    walk.tasks.push(Task::Join(place))?;
    walk.tasks.push(Task::Visit(part(place, second, depth)))?;
    walk.tasks
        .push(Task::Visit(part(place, first, place.depth)))?;
    Ok(())
}

// A tree under so many binders, with the change of this place.
fn part(place: Place, id: LpId, depth: u128) -> Place
    ensures { result ≡ record place { id = id; depth = depth } }
{
    Place {
        id,
        depth,
        change: place.change,
    }
}

// Makes what stands for the variable of a place, or sets out to lift the argument that does.
fn visit_variable(
    table: &mut LpTable,
    args: &[LpId],
    place: Place,
    n: u128,
    walk: &mut Walk,
) -> Result<(), Memory>
    requires variable { Holds table.old place.id.0 (Var n) }
    requires small { length table.old < 2 ^ 63 }
    requires walk { (given : List Tree) × (goal : Tree) × IsWalk given goal table.old args.now (task.Visit place ∷ walk.old.tasks) walk.old.made walk.old.memo }
    ensures keeps { Keeps table.old table.new }
    ensures walk { OnOk result ((given : List Tree) (goal : Tree)
        → IsWalk given goal table.old args.now (task.Visit place ∷ walk.old.tasks) walk.old.made walk.old.memo
        → IsWalk given goal table.new args.now walk.new.tasks walk.new.made walk.new.memo) }
    ensures less { OnOk result (work table.new args.now walk.new.tasks < work table.old args.now (task.Visit place ∷ walk.old.tasks)) }
{
    match replaced(args, place, n)? {
        Variable::Renamed(n) => {
            let id = table.node(LpNode::Var(n))?;
            give(walk, id)
        }
        Variable::Argument(id) => {
            let lifted = Place {
                id,
                depth: 0,
                change: Change::Raise(place.depth),
            };
            walk.tasks.push(Task::Visit(lifted))?;
            Ok(())
        }
    }
}

// What stands for the variable of a place. Where its number does not fit its type, that is want of memory.
fn replaced(args: &[LpId], place: Place, n: u128) -> Result<Variable, Memory>
    ensures { IfOk result (IsReplaced args.now place n) }
{
    if n < place.depth {
        return Ok(Variable::Renamed(n));
    }
    match place.change {
        Change::Raise(by) => match n.checked_add(by) {
            Some(raised) => Ok(Variable::Renamed(raised)),
            None => Err(Memory),
        },
        Change::Replace => match argument(args, n - place.depth) {
            Some(id) => Ok(Variable::Argument(id)),
            None => Ok(Variable::Renamed(n - args.len() as u128)),
        },
    }
}

// The argument that is put for the variable `n`: the last for 0.
fn argument(args: &[LpId], n: u128) -> Option<LpId>
    ensures found { result ≡ slice_get (reverse args.now) n }
    ensures member { IfSome result (λ id. (i : ℕ) × (slice_get args.now i ≡ Some id)) }
    ensures none { IfNone result (length args.now ≤ n) }
{
    let len = args.len() as u128;
    if n < len {
        Some(args[(len - 1 - n) as usize])
    } else {
        None
    }
}

// Makes the tree of a place of its parts, and notes it.
fn join(table: &mut LpTable, args: &[LpId], place: Place, walk: &mut Walk) -> Result<(), Memory>
    requires { (given : List Tree) × (goal : Tree) × IsWalk given goal table.old args.now (task.Join place ∷ walk.old.tasks) walk.old.made walk.old.memo }
    ensures keeps { Keeps table.old table.new }
    ensures walk { OnOk result ((given : List Tree) (goal : Tree)
        → IsWalk given goal table.old args.now (task.Join place ∷ walk.old.tasks) walk.old.made walk.old.memo
        → IsWalk given goal table.new args.now walk.new.tasks walk.new.made walk.new.memo) }
    ensures less { OnOk result (work table.new args.now walk.new.tasks < work table.old args.now (task.Join place ∷ walk.old.tasks)) }
{
    let (first, second) = two(&mut walk.made);
    let size = table.size(place.id);
    let node = with_parts(table.view(place.id), first, second);
    let id = table.node(node)?;
    note(&mut walk.memo, place, id, size)?;
    give(walk, id)
}

// A node of this kind with these parts.
fn with_parts(node: LpNode, first: LpId, second: LpId) -> LpNode
    ensures { result ≡ node_with_parts node first second }
{
    match node {
        LpNode::App(..) => LpNode::App(first, second),
        LpNode::Lam(..) => LpNode::Lam(first, second),
        LpNode::Pi(..) => LpNode::Pi(first, second),
        LpNode::SortType | LpNode::SortKind | LpNode::Var(_) | LpNode::Sym(_) => node,
    }
}

// The two topmost numbers, the lower one first.
fn two(made: &mut Stack<LpId>) -> (LpId, LpId)
    requires { 1 < length made.old }
    ensures { made.old ≡ result.1 ∷ result.0 ∷ made.new }
{
    let second = made.pop().unwrap();
    let first = made.pop().unwrap();
    (first, second)
}
