//! What is marked, and the walk over types and terms.
ghost use Rattle.std.specs.Prelude.{◌≡◌, ◌||◌, ℕ, [], length, IfOk, OnOk, false};
ghost use Rattle.hol_term.specs.Tables.{Trees};
ghost use Rattle.hol_rules.specs.Kept.{step_count};
ghost use Rattle.article_write_spec.specs.BinderNames.{is_binder_name};
ghost use Rattle.article_reach.specs.declared.walk.Task.TheVariants as task;
ghost use Rattle.article_reach.specs.Found.{Asked, IsAsked, number as asked_number};
ghost use Rattle.article_reach.specs.Least.{is_among};
ghost use Rattle.article_reach.specs.Looked.{IsWalkOf};
ghost use Rattle.article_reach.specs.Walks.{is_marked, with_task, with_terms, with_types, IsWalk, Turned, Wants};

use crate::flags::unset;
use crate::name_set::NameSet;
use article_lines::binders::binder_number;
use common::{Memory, Stack};
use hol_name::Name;
use hol_rules::Proof;
use hol_term::{TermId, TermTable, TermView};
use hol_type::{TypeId, TypeView};
use std::alloc::Global;

/// What is still to be visited.
#[derive(Clone, Copy)]
pub(crate) enum Task {
    /// A type.
    Type(TypeId),
    /// A term.
    Term(TermId),
}

/// The steps, operators and constants that are needed, the numbers in names of variables that could be binders', of each type and each
/// term whether the walk came to it, and what is still to be visited.
#[derive(Drop)]
pub(crate) struct Walk {
    pub(crate) steps: Vec<bool>,
    pub(crate) operators: NameSet,
    pub(crate) constants: NameSet,
    pub(crate) numbers: Vec<u64>,
    pub(crate) types: Vec<bool>,
    pub(crate) terms: Vec<bool>,
    pub(crate) tasks: Stack<Task>,
}

impl Walk {
    // A walk that came to nothing yet.
    pub(crate) fn new(alloc: Global, proof: &Proof) -> Result<Walk, Memory>
        ensures walk { IfOk result (λ walk. IsWalkOf proof.now walk) }
        ensures tasks { IfOk result (λ walk. walk.tasks ≡ []) }
        ensures marks { IfOk result (λ walk. (x : Asked) → is_marked walk x ≡ false) }
    {
        Ok(Walk {
            steps: unset(alloc, proof.len())?,
            operators: NameSet::new(alloc),
            constants: NameSet::new(alloc),
            numbers: Vec::new(alloc),
            types: unset(alloc, proof.terms().types().count())?,
            terms: unset(alloc, proof.terms().count())?,
            tasks: Stack::new(alloc),
        })
    }

    // Visits what is still to be visited.
    pub(crate) fn run(&mut self, terms: &TermTable) -> Result<(), Memory>
        requires { (count : ℕ) × IsWalk terms.now count self.old }
        ensures walks { OnOk result ((count : ℕ) → IsWalk terms.now count self.old → IsWalk terms.now count self.new × Wants terms.now [] self.old self.new) }
        ensures tasks { OnOk result (self.new.tasks ≡ []) }
    {
        while let Some(task) = self.tasks.pop() {
            self.turn(terms, task)?;
        }
        Ok(())
    }

    // One turn of the walk.
    fn turn(&mut self, terms: &TermTable, task: Task) -> Result<(), Memory>
        requires { (count : ℕ) × IsWalk terms.now count (with_task task self.old) }
        ensures { OnOk result ((count : ℕ) → IsWalk terms.now count (with_task task self.old) → Turned terms.now count task self.old self.new) }
    {
        match task {
            Task::Type(id) => self.visit_type(terms, id),
            Task::Term(id) => self.visit_term(terms, id),
        }
    }

    // Comes to a type: its operator is needed, and its arguments are to be visited.
    fn visit_type(&mut self, terms: &TermTable, id: TypeId) -> Result<(), Memory>
        requires { (count : ℕ) × IsWalk terms.now count (with_task (task.Type id) self.old) }
        ensures { OnOk result ((count : ℕ) → IsWalk terms.now count (with_task (task.Type id) self.old) → Turned terms.now count (task.Type id) self.old self.new) }
    {
        if self.types[id.0] {
            return Ok(());
        }
        self.types[id.0] = true;
        match terms.types().view(id) {
            TypeView::Var(_) => Ok(()),
            TypeView::Op(name, args) => {
                self.operators.note(name)?;
                push_types(&mut self.tasks, args)
            }
        }
    }

    // Comes to a term: its constant is needed, the name of its variable is noted, and its type and its parts are to be visited.
    fn visit_term(&mut self, terms: &TermTable, id: TermId) -> Result<(), Memory>
        requires { (count : ℕ) × IsWalk terms.now count (with_task (task.Term id) self.old) }
        ensures { OnOk result ((count : ℕ) → IsWalk terms.now count (with_task (task.Term id) self.old) → Turned terms.now count (task.Term id) self.old self.new) }
    {
        if self.terms[id.0] {
            return Ok(());
        }
        self.terms[id.0] = true;
        match terms.view(id) {
            TermView::Bound(_) => Ok(()),
            TermView::Free(name, ty) => {
                note_variable(&mut self.numbers, name)?;
                self.tasks.push(Task::Type(ty))
            }
            TermView::Const(name, ty) => {
                self.constants.note(name)?;
                self.tasks.push(Task::Type(ty))
            }
            TermView::App(f, x) => {
                self.tasks.push(Task::Term(x))?;
                self.tasks.push(Task::Term(f))
            }
            TermView::Lam(ty, body) => {
                self.tasks.push(Task::Term(body))?;
                self.tasks.push(Task::Type(ty))
            }
        }
    }
}

// Notes the number in the name of a variable, where it is like the name of a binder.
pub(crate) fn note_variable(numbers: &mut Vec<u64>, name: &Name) -> Result<(), Memory>
    ensures { OnOk result ((q : ℕ) → IsAsked (asked_number q) → is_among numbers.new.items q ≡ (is_among numbers.old.items q || is_binder_name q name.now)) }
{
    if let Some(number) = binder_number(name) {
        numbers.push(number)?;
    }
    Ok(())
}

// Sets out to visit types, from the first to the last.
fn push_types(tasks: &mut Stack<Task>, ids: &[TypeId]) -> Result<(), Memory>
    ensures { OnOk result (tasks.new ≡ with_types ids.now tasks.old) }
{
    let mut rest = ids;
    while let [front @ .., last] = rest {
        tasks.push(Task::Type(*last))?;
        rest = front;
    }
    Ok(())
}

// Sets out to visit terms, from the first to the last.
pub(crate) fn push_terms(tasks: &mut Stack<Task>, ids: &[TermId]) -> Result<(), Memory>
    ensures { OnOk result (tasks.new ≡ with_terms ids.now tasks.old) }
{
    let mut rest = ids;
    while let [front @ .., last] = rest {
        tasks.push(Task::Term(*last))?;
        rest = front;
    }
    Ok(())
}
