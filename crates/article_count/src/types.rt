//! The count of a type.
ghost use Rattle.std.specs.Prelude.{◌≡◌, ◌<◌, ◌∷◌, List, length, None, OnOk};
ghost use Rattle.hol_term.specs.Tables.{type_at};
ghost use Rattle.article_write_spec.specs.TermLengths.{count_type as count_of_type};
ghost use Rattle.article_lines.specs.declared.keys.Thing.TheVariants as thing;
ghost use Rattle.article_count.specs.declared.types.TypeTask.{TypeTask};
ghost use Rattle.article_count.specs.declared.types.TypeTask.TheVariants as the_task;
ghost use Rattle.article_count.specs.Counts.{CanCount, Counts};
ghost use Rattle.article_lines.specs.Things.{thing_key};
ghost use Rattle.article_count.specs.TypeTasks.{CanWalkTypes, WalksTypes, types_work, with_visits};

use crate::tally::Count;
use article_lines::keys::Thing;
use article_lines::lengths::{list_length, name_length, word_length};
use article_spec::Word;
use common::{Memory, Stack};
use hol_term::TermTable;
use hol_type::{TypeId, TypeView};
use std::alloc::Global;

/// What is left to do.
#[derive(Clone, Copy)]
pub(crate) enum TypeTask {
    /// To count a type.
    Visit(TypeId),
    /// To count what stands behind the arguments of an operator, and to give it a key.
    Made(TypeId),
}

impl Count {
    /// Counts a type: at its first place as it is built, later by its key.
    pub(crate) fn count_type(
        &mut self,
        alloc: Global,
        terms: &TermTable,
        id: TypeId,
    ) -> Result<(), Memory>
        requires count { CanCount terms.now self.old }
        requires id { id.0 < length terms.now.types }
        ensures { OnOk result (Counts terms.now self.old self.new (count_of_type (type_at terms.now id.0))) }
    {
        let mut tasks = Stack::new(alloc);
        tasks.push(TypeTask::Visit(id))?;
        while let Some(task) = tasks.pop() {
            self.type_turn(terms, task, &mut tasks)?;
        }
        Ok(())
    }

    // One turn.
    fn type_turn(
        &mut self,
        terms: &TermTable,
        task: TypeTask,
        tasks: &mut Stack<TypeTask>,
    ) -> Result<(), Memory>
        requires { CanWalkTypes terms.now (task ∷ tasks.old) self.old }
        ensures walks { OnOk result (WalksTypes terms.now (task ∷ tasks.old) self.old tasks.new self.new) }
        ensures less { OnOk result (types_work terms.now tasks.new < types_work terms.now (task ∷ tasks.old)) }
    {
        match task {
            TypeTask::Visit(id) => self.visit_type(terms, id, tasks),
            TypeTask::Made(id) => {
                self.type_made(terms, id);
                Ok(())
            }
        }
    }

    // Comes to a type.
    fn visit_type(
        &mut self,
        terms: &TermTable,
        id: TypeId,
        tasks: &mut Stack<TypeTask>,
    ) -> Result<(), Memory>
        requires { CanWalkTypes terms.now (the_task.Visit id ∷ tasks.old) self.old }
        ensures walks { OnOk result (WalksTypes terms.now (the_task.Visit id ∷ tasks.old) self.old tasks.new self.new) }
        ensures less { OnOk result (types_work terms.now tasks.new < types_work terms.now (the_task.Visit id ∷ tasks.old)) }
    {
        match self.tell(Thing::Type(id)) {
            Some(_) => Ok(()),
            None => self.visit_new_type(terms, id, tasks),
        }
    }

    // Comes to a type that has no key.
    fn visit_new_type(
        &mut self,
        terms: &TermTable,
        id: TypeId,
        tasks: &mut Stack<TypeTask>,
    ) -> Result<(), Memory>
        requires walk { CanWalkTypes terms.now (the_task.Visit id ∷ tasks.old) self.old }
        requires new { thing_key self.old.keys (thing.Type id) ≡ None }
        ensures walks { OnOk result (WalksTypes terms.now (the_task.Visit id ∷ tasks.old) self.old tasks.new self.new) }
        ensures less { OnOk result (types_work terms.now tasks.new < types_work terms.now (the_task.Visit id ∷ tasks.old)) }
    {
        match terms.types().view(id) {
            TypeView::Var(name) => {
                self.add(name_length(name));
                self.add(word_length(Word::VarType));
                self.note(Thing::Type(id));
                Ok(())
            }
            TypeView::Op(name, args) => {
                self.add(name_length(name));
                self.add(word_length(Word::TypeOp));
                tasks.push(TypeTask::Made(id))?;
                push_types(tasks, args)
            }
        }
    }

    // The arguments of an operator are counted.
    fn type_made(&mut self, terms: &TermTable, id: TypeId)
        requires { (tasks : List TypeTask) × CanWalkTypes terms.now (the_task.Made id ∷ tasks) self.old }
        ensures { (tasks : List TypeTask) → WalksTypes terms.now (the_task.Made id ∷ tasks) self.old tasks self.new }
    {
        if let TypeView::Op(_, args) = terms.types().view(id) {
            self.add(list_length(args.len()));
            self.add(word_length(Word::OpType));
            self.note(Thing::Type(id));
        }
    }
}

// Sets out to count types, from the first to the last.
fn push_types(tasks: &mut Stack<TypeTask>, ids: &[TypeId]) -> Result<(), Memory>
    ensures { OnOk result (tasks.new ≡ with_visits ids.now tasks.old) }
{
    let mut rest = ids;
    while let [front @ .., last] = rest {
        tasks.push(TypeTask::Visit(*last))?;
        rest = front;
    }
    Ok(())
}
