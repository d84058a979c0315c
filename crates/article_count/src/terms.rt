//! The count of a term.
ghost use Rattle.std.specs.Prelude.{◌≡◌, ◌≢◌, ◌<◌, ◌+◌, ◌*◌, ◌∷◌, None, length, slice_index_or, unwrap_or, IfOk, IfSome, OnOk};
ghost use Rattle.std.specs.Option.{option_map};
ghost use Rattle.hol_spec.specs.TermBinding.{loose as loose_of};
ghost use Rattle.article_count.specs.Noted.{IsNoted};
ghost use Rattle.hol_term.specs.Tables.{term_at, type_at};
ghost use Rattle.hol_term.specs.Walks.{NotEmpty};
ghost use Rattle.article_spec.specs.declared.commands.Word.TheVariants as word;
ghost use Rattle.article_write_spec.specs.Lengths.{add, capped, told_length, word_length as word_length_of};
ghost use Rattle.article_write_spec.specs.TermLengths.{count_under, count_variable as count_of_variable, number_length as number_length_of, uses as uses_of};
ghost use Rattle.article_lines.specs.declared.keys.Thing.TheVariants as thing;
ghost use Rattle.article_count.specs.declared.terms.TermTask.TheVariants as the_task;
ghost use Rattle.article_lines.specs.Greatest.{greatest_length};
ghost use Rattle.article_count.specs.Counts.{count_new_constant, told, type_told, CanCount, Counts, CountsVariable};
ghost use Rattle.article_count.specs.LooseNumbers.{AreLoose};
ghost use Rattle.article_count.specs.TermTasks.{binder_told, visits, CanCountTerms, CanFinish, CanWalkTerms, CountsTerms, Finishes, WalksTerms, terms_work};
ghost use Rattle.article_lines.specs.Things.{thing_key, HasRoom};

use crate::memo::{Memo, Place};
use crate::tally::Count;
use crate::uses::uses;
use article_lines::keys::Thing;
use article_lines::lengths::{
    binder_name_length, name_length, told_length as told_length_of, word_length,
};
use article_spec::Word;
use common::{Memory, Stack};
use hol_name::Name;
use hol_term::{TermId, TermTable, TermView};
use hol_type::TypeId;
use std::alloc::Global;

/// What is left to do.
#[derive(Clone, Copy)]
pub(crate) enum TermTask {
    /// To count a term as a part under binders.
    Visit(Place),
    /// To count what stands behind the parts of a term, and to give it a key if nothing is loose.
    Made(Place),
}

/// What is counted, with what places of terms with loose numbers add.
#[derive(Drop)]
pub(crate) struct TermCount {
    pub(crate) alloc: Global,
    pub(crate) loose: Vec<u64>,
    pub(crate) number: u64,
    pub(crate) count: Count,
    pub(crate) places: Memo,
}

/// What is left to do, and what the places add that were counted and not yet taken up.
#[derive(Drop)]
pub(crate) struct TermWalk {
    tasks: Stack<TermTask>,
    lengths: Stack<u128>,
}

impl TermWalk {
    // Sets out to count the parts of an application, and then what stands behind them.
    fn set_out(&mut self, place: Place, f: TermId, x: TermId) -> Result<(), Memory>
        ensures tasks { OnOk result (self.new.tasks ≡ visits place f x (the_task.Made place ∷ self.old.tasks)) }
        ensures lengths { self.new.lengths ≡ self.old.lengths }
    {
        self.tasks.push(TermTask::Made(place))?;
        self.tasks.push(TermTask::Visit(Place { id: x, ..place }))?;
        self.tasks.push(TermTask::Visit(Place { id: f, ..place }))
    }

    // Sets out to count the body of an abstraction, and then what stands behind it.
    fn set_out_under(&mut self, place: Place, body: Place) -> Result<(), Memory>
        ensures tasks { OnOk result (self.new.tasks ≡ the_task.Visit body ∷ the_task.Made place ∷ self.old.tasks) }
        ensures lengths { self.new.lengths ≡ self.old.lengths }
    {
        self.tasks.push(TermTask::Made(place))?;
        self.tasks.push(TermTask::Visit(body))
    }

    // Takes up the length that was made last.
    fn take(&mut self) -> u128
        requires { NotEmpty self.old.lengths }
        ensures lengths { self.old.lengths ≡ result ∷ self.new.lengths }
        ensures tasks { self.new.tasks ≡ self.old.tasks }
    {
        self.lengths.pop().unwrap()
    }
}

impl Count {
    /// Counts a variable with a name of this length.
    pub(crate) fn count_variable(
        &mut self,
        alloc: Global,
        terms: &TermTable,
        name: u128,
        ty: TypeId,
    ) -> Result<(), Memory>
        requires count { CanCount terms.now self.old }
        requires ty { ty.0 < length terms.now.types }
        ensures { OnOk result (CountsVariable terms.now self.old self.new name ty) }
    {
        self.add(name);
        self.count_type(alloc, terms, ty)?;
        self.add(word_length(Word::Var));
        Ok(())
    }

    // Counts a free variable that has no key.
    fn count_free(
        &mut self,
        alloc: Global,
        terms: &TermTable,
        name: &Name,
        ty: TypeId,
    ) -> Result<(), Memory>
        requires count { CanCount terms.now self.old }
        requires ty { ty.0 < length terms.now.types }
        ensures { OnOk result (Counts terms.now self.old self.new (λ m. add (word_length_of word.VarTerm) (count_of_variable name.now (type_at terms.now ty.0) m))) }
    {
        self.count_variable(alloc, terms, name_length(name), ty)?;
        self.add(word_length(Word::VarTerm));
        Ok(())
    }

    // Counts a constant that has no key.
    fn count_constant(
        &mut self,
        alloc: Global,
        terms: &TermTable,
        name: &Name,
        ty: TypeId,
    ) -> Result<(), Memory>
        requires count { CanCount terms.now self.old }
        requires ty { ty.0 < length terms.now.types }
        ensures { OnOk result (Counts terms.now self.old self.new (count_new_constant name.now (type_at terms.now ty.0))) }
    {
        self.add(name_length(name));
        self.add(word_length(Word::Const));
        self.count_type(alloc, terms, ty)?;
        self.add(word_length(Word::ConstTerm));
        Ok(())
    }

    /// The length of what tells a thing by its key.
    pub(crate) fn key_length(&self, thing: Thing) -> u128
        requires { HasRoom self.now.keys thing }
        ensures { result ≡ told_length (unwrap_or (thing_key self.now.keys thing) 0) }
    {
        told_length_of(self.keys.key(thing).unwrap_or(0))
    }
}

impl TermCount {
    /// Counts a term: what has no loose numbers at its first place as it is built, and later by its key.
    pub(crate) fn count_term(&mut self, terms: &TermTable, id: TermId) -> Result<(), Memory>
        requires count { CanCountTerms terms.now self.old }
        requires id { id.0 < length terms.now.terms }
        ensures { OnOk result (CountsTerms terms.now self.old self.new (λ q. count_under q 0 (term_at terms.now id.0))) }
    {
        let mut walk = TermWalk {
            tasks: Stack::new(self.alloc),
            lengths: Stack::new(self.alloc),
        };
        walk.tasks.push(TermTask::Visit(Place { id, depth: 0 }))?;
        while let Some(task) = walk.tasks.pop() {
            self.term_turn(terms, task, &mut walk)?;
        }
        Ok(())
    }

    // One turn.
    fn term_turn(
        &mut self,
        terms: &TermTable,
        task: TermTask,
        walk: &mut TermWalk,
    ) -> Result<(), Memory>
        requires { CanWalkTerms terms.now (task ∷ walk.old.tasks) self.old walk.old.lengths }
        ensures walks { OnOk result (WalksTerms terms.now (task ∷ walk.old.tasks) self.old walk.old.lengths walk.new.tasks self.new walk.new.lengths) }
        ensures less { OnOk result (terms_work terms.now walk.new.tasks < terms_work terms.now (task ∷ walk.old.tasks)) }
    {
        match task {
            TermTask::Visit(place) => self.visit_term(terms, place, walk),
            TermTask::Made(place) => self.term_made(terms, place, walk),
        }
    }

    // Comes to a place.
    fn visit_term(
        &mut self,
        terms: &TermTable,
        place: Place,
        walk: &mut TermWalk,
    ) -> Result<(), Memory>
        requires { CanWalkTerms terms.now (the_task.Visit place ∷ walk.old.tasks) self.old walk.old.lengths }
        ensures walks { OnOk result (WalksTerms terms.now (the_task.Visit place ∷ walk.old.tasks) self.old walk.old.lengths walk.new.tasks self.new walk.new.lengths) }
        ensures less { OnOk result (terms_work terms.now walk.new.tasks < terms_work terms.now (the_task.Visit place ∷ walk.old.tasks)) }
    {
        match self.known(place) {
            Some(length) => walk.lengths.push(length),
            None => self.visit_new_term(terms, place, walk),
        }
    }

    // Adds what a place adds, if it is known: its key, or what was noted of it.
    fn known(&mut self, place: Place) -> Option<u128>
        requires known { place.id.0 < length self.old.loose.items }
        requires room { place.id.0 < self.old.count.keys.terms }
        ensures counted { self.new ≡ record self.old { count = told result self.old.count } }
        ensures closed { slice_index_or self.old.loose.items place.id.0 0 ≡ 0 → result ≡ option_map told_length (thing_key self.old.count.keys (thing.Term place.id)) }
        ensures noted { slice_index_or self.old.loose.items place.id.0 0 ≢ 0 → IfSome result (λ n. IsNoted self.old.places place n) }
    {
        if self.loose[place.id.0] == 0 {
            return self.count.tell(Thing::Term(place.id));
        }
        let length = self.places.find(place)?;
        self.count.add(length);
        Some(length)
    }

    // Comes to a place where nothing is known.
    fn visit_new_term(
        &mut self,
        terms: &TermTable,
        place: Place,
        walk: &mut TermWalk,
    ) -> Result<(), Memory>
        requires walk { CanWalkTerms terms.now (the_task.Visit place ∷ walk.old.tasks) self.old walk.old.lengths }
        requires new { loose_of (term_at terms.now place.id.0) ≡ 0 → thing_key self.old.count.keys (thing.Term place.id) ≡ None }
        ensures walks { OnOk result (WalksTerms terms.now (the_task.Visit place ∷ walk.old.tasks) self.old walk.old.lengths walk.new.tasks self.new walk.new.lengths) }
        ensures less { OnOk result (terms_work terms.now walk.new.tasks < terms_work terms.now (the_task.Visit place ∷ walk.old.tasks)) }
    {
        match terms.view(place.id) {
            TermView::Free(name, ty) => {
                self.count.count_free(self.alloc, terms, name, ty)?;
                let length = self.count.note(Thing::Term(place.id));
                walk.lengths.push(length)
            }
            TermView::Const(name, ty) => {
                self.count.count_constant(self.alloc, terms, name, ty)?;
                let length = self.count.note(Thing::Term(place.id));
                walk.lengths.push(length)
            }
            TermView::Bound(number) => {
                let length = number_length(self.number, place.depth, number);
                self.count.add(length);
                walk.lengths.push(length)
            }
            TermView::App(f, x) => walk.set_out(place, f, x),
            TermView::Lam(ty, body) => {
                self.count.count_variable(
                    self.alloc,
                    terms,
                    binder_name_length(self.number, place.depth),
                    ty,
                )?;
                walk.set_out_under(
                    place,
                    Place {
                        id: body,
                        depth: place.depth + 1,
                    },
                )
            }
        }
    }

    // The parts of a term are counted: counts what stands behind them.
    fn term_made(
        &mut self,
        terms: &TermTable,
        place: Place,
        walk: &mut TermWalk,
    ) -> Result<(), Memory>
        requires { CanWalkTerms terms.now (the_task.Made place ∷ walk.old.tasks) self.old walk.old.lengths }
        ensures walks { OnOk result (WalksTerms terms.now (the_task.Made place ∷ walk.old.tasks) self.old walk.old.lengths walk.new.tasks self.new walk.new.lengths) }
        ensures tasks { walk.new.tasks ≡ walk.old.tasks }
    {
        match terms.view(place.id) {
            TermView::App(..) => {
                let argument = walk.take();
                let function = walk.take();
                let word = word_length(Word::AppTerm);
                self.count.add(word);
                let length = function.saturating_add(argument).saturating_add(word);
                self.finish(terms, place, length, walk)
            }
            TermView::Lam(ty, body) => {
                let inner = walk.take();
                let more = self.binder_length(terms, ty, body)?;
                self.count.add(more);
                let length = self.open_length(place, ty, inner, more);
                self.finish(terms, place, length, walk)
            }
            TermView::Free(..) | TermView::Bound(_) | TermView::Const(..) => Ok(()),
        }
    }

    // What an abstraction adds behind its body.
    fn binder_length(&self, terms: &TermTable, ty: TypeId, body: TermId) -> Result<u128, Memory>
        requires loose { AreLoose terms.now.terms self.now.loose.items }
        requires room { ty.0 < self.now.count.keys.types }
        requires body { body.0 < length terms.now.terms }
        ensures { IfOk result (λ n. n ≡ capped greatest_length
            (uses_of 0 (term_at terms.now body.0) * type_told self.now.count ty + word_length_of word.AbsTerm)) }
    {
        let times = uses(self.alloc, terms, &self.loose, body)?;
        let key = self.count.key_length(Thing::Type(ty));
        Ok(
            times
                .saturating_mul(key)
                .saturating_add(word_length(Word::AbsTerm)),
        )
    }

    // What an abstraction with loose numbers adds, by what its body adds and what stands behind it.
    fn open_length(&self, place: Place, ty: TypeId, inner: u128, more: u128) -> u128
        requires { ty.0 < self.now.count.keys.types }
        ensures { result ≡ capped greatest_length (binder_told self.now place.depth ty + inner + more) }
    {
        binder_name_length(self.number, place.depth)
            .saturating_add(self.count.key_length(Thing::Type(ty)))
            .saturating_add(word_length(Word::Var))
            .saturating_add(inner)
            .saturating_add(more)
    }

    // Gives a term whose parts are counted a key if nothing is loose, and else notes what its place adds.
    fn finish(
        &mut self,
        terms: &TermTable,
        place: Place,
        length: u128,
        walk: &mut TermWalk,
    ) -> Result<(), Memory>
        requires { CanFinish terms.now place length self.old walk.old.lengths }
        ensures walks { OnOk result (Finishes terms.now place length self.old walk.old.lengths self.new walk.new.lengths) }
        ensures tasks { walk.new.tasks ≡ walk.old.tasks }
    {
        if self.loose[place.id.0] == 0 {
            let length = self.count.note(Thing::Term(place.id));
            return walk.lengths.push(length);
        }
        self.places.note(place, length)?;
        walk.lengths.push(length)
    }
}

// The length of the variable of a bound number under so many binders, without its type, up to the greatest number.
fn number_length(number: u64, depth: u64, bound: u128) -> u128
    ensures { result ≡ capped greatest_length (number_length_of number depth bound) }
{
    let under = match u64::try_from(bound) {
        Ok(bound) => depth.saturating_sub(bound).saturating_sub(1),
        Err(_) => 0,
    };
    binder_name_length(number, under)
        .saturating_add(word_length(Word::Var))
        .saturating_add(word_length(Word::VarTerm))
}
