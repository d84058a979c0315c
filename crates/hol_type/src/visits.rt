//! The tasks of a walk that comes back to an operator after its arguments.
ghost use Rattle.std.specs.Prelude.{◌≡◌, ◌∷◌, OnOk};
ghost use Rattle.hol_type.specs.declared.visits.Task.TheVariants as task;
ghost use Rattle.hol_type.specs.Walks.{visits};

use crate::TypeId;
use common::{Memory, Stack};

/// What is still to be done.
#[derive(Clone, Copy)]
pub(crate) enum Task {
    /// To visit this type and its parts.
    Visit(TypeId),
    /// To come back to this operator, whose arguments were visited.
    Join(TypeId),
}

// Sets out to visit the arguments of an operator, from the first to the last, and then to come back to it.
pub(crate) fn set_out(tasks: &mut Stack<Task>, id: TypeId, args: &[TypeId]) -> Result<(), Memory>
    ensures { OnOk result (tasks.new ≡ visits args.now (task.Join id ∷ tasks.old)) }
{
    tasks.push(Task::Join(id))?;
    let mut rest = args;
    while let [front @ .., last] = rest {
        tasks.push(Task::Visit(*last))?;
        rest = front;
    }
    Ok(())
}
