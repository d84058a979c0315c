//! The walk that gathers the variables of a type.
ghost use Rattle.std.specs.Prelude.{◌≡◌, ◌<◌, ◌∷◌, List, length, IfOk, OnOk};
ghost use Rattle.hol_spec.specs.Names.{Name as AName};
ghost use Rattle.hol_spec.specs.Types.{type_variables};
ghost use Rattle.hol_type.specs.declared.table.TypeId.{TypeId as AnId};
ghost use Rattle.hol_type.specs.declared.visits.Task.TheVariants as task;
ghost use Rattle.hol_type.specs.Tables.{tree_at};
ghost use Rattle.hol_type.specs.Walks.{IsSearch, work};

use crate::marks::Marks;
use crate::visits::{Task, set_out};
use crate::{TypeId, TypeTable, TypeView};
use common::{Memory, Stack};
use hol_name::Name;

/// A search on its way: what it is still to do, what it has found, and the types whose variables it has.
#[derive(Drop)]
pub(crate) struct Search {
    tasks: Stack<Task>,
    found: Vec<Name>,
    seen: Marks,
}

// The variables of a type, in order of first occurrence.
pub(crate) fn variables(table: &TypeTable, root: TypeId) -> Result<Vec<Name>, Memory>
    requires { root.0 < length table.now }
    ensures { IfOk result (λ names. names.items ≡ type_variables (tree_at table.now root.0)) }
{
    let mut search = Search {
        tasks: Stack::new(table.alloc),
        found: Vec::new(table.alloc),
        seen: Marks::new(table.alloc),
    };
    search.tasks.push(Task::Visit(root))?;
    while let Some(task) = search.tasks.pop() {
        turn(table, task, &mut search)?;
    }
    Ok(search.found)
}

// One turn of the search.
fn turn(table: &TypeTable, task: Task, search: &mut Search) -> Result<(), Memory>
    requires { (goal : List AName) × (root : AnId) × IsSearch goal root table.now (task ∷ search.old.tasks) search.old.found.items search.old.seen }
    ensures search { OnOk result ((goal : List AName) (root : AnId)
        → IsSearch goal root table.now (task ∷ search.old.tasks) search.old.found.items search.old.seen
        → IsSearch goal root table.now search.new.tasks search.new.found.items search.new.seen) }
    ensures less { OnOk result (work table.now search.new.tasks < work table.now (task ∷ search.old.tasks)) }
{
    match task {
        Task::Visit(id) => visit(table, id, search),
        Task::Join(id) => search.seen.note(id, id),
    }
}

// Gathers a variable that is new, or sets out to visit an operator's arguments.
fn visit(table: &TypeTable, id: TypeId, search: &mut Search) -> Result<(), Memory>
    requires { (goal : List AName) × (root : AnId) × IsSearch goal root table.now (task.Visit id ∷ search.old.tasks) search.old.found.items search.old.seen }
    ensures search { OnOk result ((goal : List AName) (root : AnId)
        → IsSearch goal root table.now (task.Visit id ∷ search.old.tasks) search.old.found.items search.old.seen
        → IsSearch goal root table.now search.new.tasks search.new.found.items search.new.seen) }
    ensures less { OnOk result (work table.now search.new.tasks < work table.now (task.Visit id ∷ search.old.tasks)) }
{
    match search.seen.find(id) {
        Some(_) => Ok(()),
        None => match table.view(id) {
            TypeView::Var(name) => {
                search.found.push(name.clone()?)?;
                search.seen.note(id, id)
            }
            TypeView::Op(_, args) => set_out(&mut search.tasks, id, args),
        },
    }
}
