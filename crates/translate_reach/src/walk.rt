//! The items that are marked, and the walk over the types and terms that they need.
ghost use Rattle.std.specs.Prelude.{◌≡◌, ◌<◌, ℕ, List, [], false, length, IfOk, IfSome, OnOk};
ghost use Rattle.translate_spec.specs.Items.{Item};
ghost use Rattle.translate_reach.specs.declared.walk.Task.TheVariants as task;
ghost use Rattle.translate_reach.specs.Indexes.{IsIndex};
ghost use Rattle.translate_reach.specs.Reached.{flag};
ghost use Rattle.translate_reach.specs.Walks.{marked, with_task, with_terms, with_types, IsWalk, Turned, Wants};

use crate::index::Index;
use common::{Memory, Stack};
use hol_term::{TermId, TermTable, TermView};
use hol_type::{TypeId, TypeView};
use std::alloc::Global;

/// What is still to be visited.
#[derive(Clone, Copy)]
pub(crate) enum Task {
    /// A type.
    Type(TypeId),
    /// A term.
    Term(TermId),
}

/// Of each item whether it is marked, of each type and each term whether the walk came to it, and what is still to be visited.
#[derive(Drop)]
pub(crate) struct Walk {
    pub(crate) marks: Vec<bool>,
    pub(crate) types: Vec<bool>,
    pub(crate) terms: Vec<bool>,
    pub(crate) tasks: Stack<Task>,
}

impl Walk {
    // Visits what is still to be visited.
    pub(crate) fn run(&mut self, terms: &TermTable, index: &Index) -> Result<(), Memory>
        requires { (list : List Item) × IsIndex list index.now × IsWalk terms.now list self.old }
        ensures walk { OnOk result ((list : List Item) → IsIndex list index.now → IsWalk terms.now list self.old → IsWalk terms.now list self.new) }
        ensures wants { OnOk result ((list : List Item) → IsIndex list index.now → IsWalk terms.now list self.old → Wants terms.now list [] self.old self.new) }
        ensures tasks { OnOk result (self.new.tasks ≡ []) }
    {
        while let Some(task) = self.tasks.pop() {
            self.turn(terms, index, task)?;
        }
        Ok(())
    }

    // One turn of the walk.
    fn turn(&mut self, terms: &TermTable, index: &Index, task: Task) -> Result<(), Memory>
        requires { (list : List Item) × IsIndex list index.now × IsWalk terms.now list (with_task task self.old) }
        ensures { OnOk result ((list : List Item) → IsIndex list index.now → IsWalk terms.now list (with_task task self.old)
            → Turned terms.now list task self.old self.new) }
    {
        match task {
            Task::Type(id) => self.visit_type(terms, index, id),
            Task::Term(id) => self.visit_term(terms, index, id),
        }
    }

    // Comes to a type: its operator is marked, and its arguments are to be visited.
    fn visit_type(&mut self, terms: &TermTable, index: &Index, id: TypeId) -> Result<(), Memory>
        requires { (list : List Item) × IsIndex list index.now × IsWalk terms.now list (with_task (task.Type id) self.old) }
        ensures { OnOk result ((list : List Item) → IsIndex list index.now → IsWalk terms.now list (with_task (task.Type id) self.old)
            → Turned terms.now list (task.Type id) self.old self.new) }
    {
        if self.types[id.0] {
            return Ok(());
        }
        self.types[id.0] = true;
        match terms.types().view(id) {
            TypeView::Var(_) => Ok(()),
            TypeView::Op(name, args) => {
                let item = index.operator(name, args.len())?;
                mark(&mut self.marks, item);
                push_types(&mut self.tasks, args)
            }
        }
    }

    // Comes to a term: its constant is marked, and its type and its parts are to be visited.
    fn visit_term(&mut self, terms: &TermTable, index: &Index, id: TermId) -> Result<(), Memory>
        requires { (list : List Item) × IsIndex list index.now × IsWalk terms.now list (with_task (task.Term id) self.old) }
        ensures { OnOk result ((list : List Item) → IsIndex list index.now → IsWalk terms.now list (with_task (task.Term id) self.old)
            → Turned terms.now list (task.Term id) self.old self.new) }
    {
        if self.terms[id.0] {
            return Ok(());
        }
        self.terms[id.0] = true;
        match terms.view(id) {
            TermView::Bound(_) => Ok(()),
            TermView::Free(_, ty) => self.tasks.push(Task::Type(ty)),
            TermView::Const(name, ty) => {
                mark(&mut self.marks, index.constant(name));
                self.tasks.push(Task::Type(ty))
            }
            TermView::App(f, x) => {
                self.tasks.push(Task::Term(x))?;
                self.tasks.push(Task::Term(f))
            }
            TermView::Lam(ty, body) => {
                self.tasks.push(Task::Term(body))?;
                self.tasks.push(Task::Type(ty))
            }
        }
    }
}

// So many flags, none of which is set.
pub(crate) fn unset(alloc: Global, count: usize) -> Result<Vec<bool>, Memory>
    ensures count { IfOk result (λ flags. length flags.items ≡ count) }
    ensures unset { IfOk result (λ flags. (i : ℕ) → flag flags.items i ≡ false) }
{
    let flags = vec![in alloc; false; count]?;
    Ok(flags)
}

// Marks an item, if there is one.
pub(crate) fn mark(marks: &mut Vec<bool>, item: Option<usize>)
    requires { IfSome item (λ i. i < length marks.old.items) }
    ensures { marks.new.items ≡ marked marks.old.items item }
{
    if let Some(item) = item {
        marks[item] = true;
    }
}

// Sets out to visit types, from the first to the last.
fn push_types(tasks: &mut Stack<Task>, ids: &[TypeId]) -> Result<(), Memory>
    ensures { OnOk result (tasks.new ≡ with_types ids.now tasks.old) }
{
    let mut rest = ids;
    while let [front @ .., last] = rest {
        tasks.push(Task::Type(*last))?;
        rest = front;
    }
    Ok(())
}

// Sets out to visit terms, from the first to the last.
pub(crate) fn push_terms(tasks: &mut Stack<Task>, ids: &[TermId]) -> Result<(), Memory>
    ensures { OnOk result (tasks.new ≡ with_terms ids.now tasks.old) }
{
    let mut rest = ids;
    while let [front @ .., last] = rest {
        tasks.push(Task::Term(*last))?;
        rest = front;
    }
    Ok(())
}
