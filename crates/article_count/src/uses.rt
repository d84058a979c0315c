//! How often the number that a binder binds stands in its body.
ghost use Rattle.std.specs.Prelude.{◌≡◌, ◌<◌, ◌∷◌, if◌then◌else◌, length, IfOk, OnOk};
ghost use Rattle.hol_term.specs.Tables.{term_at};
ghost use Rattle.hol_term.specs.Walks.{NotEmpty};
ghost use Rattle.article_write_spec.specs.Lengths.{capped};
ghost use Rattle.article_write_spec.specs.TermLengths.{uses as uses_of};
ghost use Rattle.article_count.specs.declared.uses.UsesTask.TheVariants as the_task;
ghost use Rattle.article_lines.specs.Greatest.{greatest_length};
ghost use Rattle.article_count.specs.LooseNumbers.{AreLoose};
ghost use Rattle.article_count.specs.Used.{uses_visits, CanSum, Sums, uses_work};

use crate::memo::{Memo, Place};
use common::{Memory, Stack};
use hol_term::{TermId, TermTable, TermView};
use std::alloc::Global;

/// What is left to do.
#[derive(Clone, Copy)]
pub(crate) enum UsesTask {
    /// To sum the uses at a place.
    Visit(Place),
    /// To add the two sums that were made last, and to note this for the place.
    Sum(Place),
}

/// A walk on its way: what is left to do, the sums that are made and not yet taken up, and what was summed at each place.
#[derive(Drop)]
pub(crate) struct UsesWalk {
    tasks: Stack<UsesTask>,
    sums: Stack<u128>,
    memo: Memo,
}

/// How often the number that passes no binder stands in a term, up to the greatest number.
pub(crate) fn uses(
    alloc: Global,
    terms: &TermTable,
    loose: &[u64],
    id: TermId,
) -> Result<u128, Memory>
    requires id { id.0 < length terms.now.terms }
    requires loose { AreLoose terms.now.terms loose.now }
    ensures { IfOk result (λ n. n ≡ capped greatest_length (uses_of 0 (term_at terms.now id.0))) }
{
    let _count = loose.len();
    let mut walk = UsesWalk {
        tasks: Stack::new(alloc),
        sums: Stack::new(alloc),
        memo: Memo::new(alloc),
    };
    walk.tasks.push(UsesTask::Visit(Place { id, depth: 0 }))?;
    while let Some(task) = walk.tasks.pop() {
        walk.turn(terms, loose, task)?;
    }
    Ok(walk.take())
}

impl UsesWalk {
    // One turn.
    fn turn(&mut self, terms: &TermTable, loose: &[u64], task: UsesTask) -> Result<(), Memory>
        requires loose { AreLoose terms.now.terms loose.now }
        requires walk { CanSum terms.now (task ∷ self.old.tasks) self.old }
        ensures sums { OnOk result (Sums terms.now (task ∷ self.old.tasks) self.old self.new) }
        ensures less { OnOk result (uses_work terms.now self.new.tasks < uses_work terms.now (task ∷ self.old.tasks)) }
    {
        match task {
            UsesTask::Visit(place) => self.visit(terms, loose, place),
            UsesTask::Sum(place) => self.sum(terms, place),
        }
    }

    // Comes to a place.
    fn visit(&mut self, terms: &TermTable, loose: &[u64], place: Place) -> Result<(), Memory>
        requires loose { AreLoose terms.now.terms loose.now }
        requires walk { CanSum terms.now (the_task.Visit place ∷ self.old.tasks) self.old }
        ensures sums { OnOk result (Sums terms.now (the_task.Visit place ∷ self.old.tasks) self.old self.new) }
        ensures less { OnOk result (uses_work terms.now self.new.tasks < uses_work terms.now (the_task.Visit place ∷ self.old.tasks)) }
    {
        if loose[place.id.0] <= place.depth {
            return self.sums.push(0);
        }
        match self.memo.find(place) {
            Some(sum) => self.sums.push(sum),
            None => self.visit_anew(terms, place),
        }
    }

    // Comes to a place where nothing is known.
    fn visit_anew(&mut self, terms: &TermTable, place: Place) -> Result<(), Memory>
        requires { CanSum terms.now (the_task.Visit place ∷ self.old.tasks) self.old }
        ensures sums { OnOk result (Sums terms.now (the_task.Visit place ∷ self.old.tasks) self.old self.new) }
        ensures less { OnOk result (uses_work terms.now self.new.tasks < uses_work terms.now (the_task.Visit place ∷ self.old.tasks)) }
    {
        match terms.view(place.id) {
            TermView::Free(..) | TermView::Const(..) => self.sums.push(0),
            TermView::Bound(number) => self.sums.push(one_if(number == place.depth as u128)),
            TermView::App(f, x) => self.set_out(place, f, x),
            TermView::Lam(_, body) => self.tasks.push(UsesTask::Visit(Place {
                id: body,
                depth: place.depth + 1,
            })),
        }
    }

    // Sets out to sum the uses in two parts.
    fn set_out(&mut self, place: Place, f: TermId, x: TermId) -> Result<(), Memory>
        ensures tasks { OnOk result (self.new.tasks ≡ uses_visits place f x (the_task.Sum place ∷ self.old.tasks)) }
        ensures sums { self.new.sums ≡ self.old.sums }
        ensures memo { self.new.memo ≡ self.old.memo }
    {
        self.tasks.push(UsesTask::Sum(place))?;
        self.tasks.push(UsesTask::Visit(Place { id: x, ..place }))?;
        self.tasks.push(UsesTask::Visit(Place { id: f, ..place }))
    }

    // Adds the sums of two parts.
    fn sum(&mut self, terms: &TermTable, place: Place) -> Result<(), Memory>
        requires { CanSum terms.now (the_task.Sum place ∷ self.old.tasks) self.old }
        ensures sums { OnOk result (Sums terms.now (the_task.Sum place ∷ self.old.tasks) self.old self.new) }
        ensures tasks { self.new.tasks ≡ self.old.tasks }
    {
        let argument = self.take();
        let function = self.take();
        let sum = function.saturating_add(argument);
        self.memo.note(place, sum)?;
        self.sums.push(sum)
    }

    // Takes up the sum that was made last.
    fn take(&mut self) -> u128
        requires { NotEmpty self.old.sums }
        ensures sums { self.old.sums ≡ result ∷ self.new.sums }
        ensures tasks { self.new.tasks ≡ self.old.tasks }
        ensures memo { self.new.memo ≡ self.old.memo }
    {
        self.sums.pop().unwrap()
    }
}

// One, if this is so.
fn one_if(is: bool) -> u128
    ensures { result ≡ (if is then 1 else 0) }
{
    u128::from(is)
}
