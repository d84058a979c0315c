//! The tasks of a walk that comes back to a key after its parts.
ghost use Rattle.std.specs.Prelude.{◌≡◌, ◌∷◌, OnOk};
ghost use Rattle.translate_term.specs.declared.tasks.Task.TheVariants as task;
ghost use Rattle.translate_term.specs.Tasks.{visits};

use common::{Memory, Stack};
use hol_type::TypeId;

/// What is still to be done.
#[derive(Clone, Copy)]
pub(crate) enum Task<K> {
    /// To make what a key stands for, and its parts before.
    Visit(K),
    /// To make it of its parts, which are made.
    Join(K),
}

// Sets out to visit the arguments of an operator, from the first to the last, and then to come back to it.
pub(crate) fn set_out(
    tasks: &mut Stack<Task<TypeId>>,
    id: TypeId,
    args: &[TypeId],
) -> Result<(), Memory>
    ensures { OnOk result (tasks.new ≡ visits args.now (task.Join id ∷ tasks.old)) }
{
    tasks.push(Task::Join(id))?;
    let mut rest = args;
    while let [front @ .., last] = rest {
        tasks.push(Task::Visit(*last))?;
        rest = front;
    }
    Ok(())
}
