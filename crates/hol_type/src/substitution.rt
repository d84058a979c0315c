//! The walk that replaces the variables of a type.
ghost use Rattle.std.specs.Prelude.{◌<◌, ◌∷◌, List, length, IfOk, IfErr, OnOk};
ghost use Rattle.hol_spec.specs.Limits.{TypeWithin};
ghost use Rattle.hol_spec.specs.Substitution.{TypePairs, substitute, image};
ghost use Rattle.hol_spec.specs.Types.{HolType, variable};
ghost use Rattle.hol_type.specs.declared.table.TypeId.{TypeId as AnId};
ghost use Rattle.hol_type.specs.declared.visits.Task.TheVariants as task;
ghost use Rattle.hol_type.specs.Refusals.{RefusesType};
ghost use Rattle.hol_type.specs.Tables.{tree_at, pairs_at, ArePairsKnown, Holds, Keeps};
ghost use Rattle.hol_type.specs.Walks.{IsWalk, work, AreDone, AreMade};

use crate::marks::Marks;
use crate::node::Node;
use crate::visits::{Task, set_out};
use crate::{TypeId, TypeTable, TypeView};
use common::{Fault, Memory, Stack};
use hol_name::Name;
use std::alloc::Global;

/// A walk on its way: what it is still to do, and what it has made of each type.
#[derive(Drop)]
pub(crate) struct Walk {
    tasks: Stack<Task>,
    made: Marks,
}

impl TypeTable {
    // What the substitution makes of a type, within the limits. After a failure the table may have more types.
    pub(crate) fn substituted(
        &mut self,
        pairs: &[(Name, TypeId)],
        id: TypeId,
    ) -> Result<TypeId, Fault>
        requires pairs { ArePairsKnown self.old pairs.now }
        requires id { id.0 < length self.old }
        ensures known { IfOk result (λ r. r.0 < length self.new) }
        ensures made { IfOk result (λ r. Holds self.new r.0 (substitute (pairs_at self.old pairs.now) (tree_at self.old id.0))) }
        ensures within { IfOk result (λ r. TypeWithin (substitute (pairs_at self.old pairs.now) (tree_at self.old id.0))) }
        ensures keeps { Keeps self.old self.new }
        ensures refusal { IfErr result (λ fault. RefusesType fault (substitute (pairs_at self.old pairs.now) (tree_at self.old id.0))) }
    {
        let made = self.raw_subst(pairs, id)?;
        self.measures_of(made).check_limits()?;
        Ok(made)
    }

    /// The type with every variable replaced, all at once, by what the first pair of its name gives, whatever its size
    /// and depth. After want of memory the table may have more types.
    pub fn raw_subst(&mut self, pairs: &[(Name, TypeId)], root: TypeId) -> Result<TypeId, Memory>
        requires pairs { ArePairsKnown self.old pairs.now }
        requires root { root.0 < length self.old }
        ensures known { IfOk result (λ r. r.0 < length self.new) }
        ensures made { IfOk result (λ r. Holds self.new r.0 (substitute (pairs_at self.old pairs.now) (tree_at self.old root.0))) }
        ensures keeps { Keeps self.old self.new }
    {
        if pairs.is_empty() {
            return Ok(root);
        }
        let mut walk = Walk {
            tasks: Stack::new(self.alloc),
            made: Marks::new(self.alloc),
        };
        walk.tasks.push(Task::Visit(root))?;
        while let Some(task) = walk.tasks.pop() {
            turn(self, pairs, task, &mut walk)?;
        }
        Ok(walk.made.find(root).unwrap())
    }
}

// One turn of the walk.
fn turn(
    table: &mut TypeTable,
    pairs: &[(Name, TypeId)],
    task: Task,
    walk: &mut Walk,
) -> Result<(), Memory>
    requires { (given : TypePairs) × (root : AnId) × IsWalk given root table.old pairs.now (task ∷ walk.old.tasks) walk.old.made }
    ensures keeps { Keeps table.old table.new }
    ensures walk { OnOk result ((given : TypePairs) (root : AnId) → IsWalk given root table.old pairs.now (task ∷ walk.old.tasks) walk.old.made
        → IsWalk given root table.new pairs.now walk.new.tasks walk.new.made) }
    ensures less { OnOk result (work table.new walk.new.tasks < work table.old (task ∷ walk.old.tasks)) }
{
    match task {
        Task::Visit(id) => visit(table, pairs, id, walk),
        Task::Join(id) => join(table, pairs, id, walk),
    }
}

// Makes what stands for a variable, or sets out to make an operator's arguments.
fn visit(
    table: &mut TypeTable,
    pairs: &[(Name, TypeId)],
    id: TypeId,
    walk: &mut Walk,
) -> Result<(), Memory>
    requires { (given : TypePairs) × (root : AnId) × IsWalk given root table.old pairs.now (task.Visit id ∷ walk.old.tasks) walk.old.made }
    ensures keeps { Keeps table.old table.new }
    ensures walk { OnOk result ((given : TypePairs) (root : AnId) → IsWalk given root table.old pairs.now (task.Visit id ∷ walk.old.tasks) walk.old.made
        → IsWalk given root table.new pairs.now walk.new.tasks walk.new.made) }
    ensures less { OnOk result (work table.new walk.new.tasks < work table.old (task.Visit id ∷ walk.old.tasks)) }
{
    match walk.made.find(id) {
        Some(_) => Ok(()),
        None => match table.view(id) {
            TypeView::Var(name) => walk.made.note(id, replaced(pairs, id, name)),
            TypeView::Op(_, args) => set_out(&mut walk.tasks, id, args),
        },
    }
}

// What the first pair of a variable's name gives for the variable: itself, where no pair has its name.
fn replaced(pairs: &[(Name, TypeId)], id: TypeId, name: &Name) -> TypeId
    ensures { (trees : List HolType) → ArePairsKnown trees pairs.now → Holds trees id.0 (variable name.now)
        → Holds trees result.0 (image (pairs_at trees pairs.now) name.now) }
{
    for (replaced, by) in pairs {
        if name == replaced {
            return *by;
        }
    }
    id
}

// Makes an operator over what was made of its arguments.
fn join(
    table: &mut TypeTable,
    pairs: &[(Name, TypeId)],
    id: TypeId,
    walk: &mut Walk,
) -> Result<(), Memory>
    requires { (given : TypePairs) × (root : AnId) × IsWalk given root table.old pairs.now (task.Join id ∷ walk.old.tasks) walk.old.made }
    ensures keeps { Keeps table.old table.new }
    ensures walk { OnOk result ((given : TypePairs) (root : AnId) → IsWalk given root table.old pairs.now (task.Join id ∷ walk.old.tasks) walk.old.made
        → IsWalk given root table.new pairs.now walk.new.tasks walk.new.made) }
    ensures less { OnOk result (work table.new walk.new.tasks < work table.old (task.Join id ∷ walk.old.tasks)) }
{
    let alloc = table.alloc;
    let TypeView::Op(name, args) = table.view(id) else {
        return Ok(());
    };
    let made = parts(alloc, &walk.made, args)?;
    let measures = table.measures(&made);
    let node = Node::Op(name.clone()?, made);
    let id_made = table.add(node, measures)?;
    walk.made.note(id, id_made)
}

// What was made of some types.
fn parts(alloc: Global, made: &Marks, ids: &[TypeId]) -> Result<Vec<TypeId>, Memory>
    requires { AreDone made.now ids.now }
    ensures { IfOk result (λ parts. AreMade made.now ids.now parts.items) }
{
    let mut parts = Vec::new(alloc);
    for id in ids {
        parts.push(made.find(*id).unwrap())?;
    }
    Ok(parts)
}
