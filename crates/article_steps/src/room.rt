//! What is left to write of a type or a term, and the binders round it.
ghost use Rattle.std.specs.Prelude.{◌≡◌, ◌<◌, ◌≤◌, ◌+◌, ◌-◌, ◌*◌, ◌^◌, ℕ, min, [], length, slice_get, MatchOption, IfOk, IfNone, IfSome, Some};
ghost use Rattle.hol_spec.specs.Limits.{type_depth, term_depth};
ghost use Rattle.hol_term.specs.Tables.{type_at, term_at};
ghost use Rattle.article_steps.specs.Agendas.{pushed, pushed_all, bound_by, unbound, cleared, IsRoomy};

use article_lines::keys::Thing;
use article_spec::Word;
use common::Memory;
use hol_term::{TermId, TermTable};
use hol_type::TypeId;
use std::alloc::Global;
use std::marker::Model;

/// A part of what is to be written.
#[derive(Clone, Copy)]
pub(crate) enum Job {
    /// A type, built at its first place.
    Type(TypeId),
    /// What builds a type.
    TypeParts(TypeId),
    /// The arguments of an operator, from this one on.
    Arguments(TypeId, usize),
    /// A term under the binders, built at its first place if nothing in it is loose.
    Term(TermId),
    /// What builds a term under the binders.
    TermParts(TermId),
    /// A word.
    Word(Word),
    /// So many times `cons`.
    Conses(usize),
    /// The key that is given to what was built.
    Keep(Thing),
    /// The innermost binder ends.
    Unbind,
}

/// What is left to write, the next on top, and the types of the binders round it, the innermost on top: with room for the deepest tree of
/// a table. It is lent to what writes, which takes no memory.
#[derive(Drop)]
pub struct Room {
    jobs: Vec<Job>,
    len: usize,
    binders: Vec<TypeId>,
    depth: usize,
}

impl Model for Room {
    ghost use Rattle.std.specs.Prelude.{length, reverse, take, ◌≤◌, ◌≡◌};
    ghost use Rattle.article_steps.specs.Agenda.{Agenda};

    ghost Value = { Agenda };

    ghost view = { λ r. record { room = length r.jobs.items; jobs = reverse (take r.len r.jobs.items); binders = reverse (take r.depth r.binders.items) } };

    ghost invariant = { λ r. (r.len ≤ length r.jobs.items) × (r.depth ≤ length r.binders.items) × (length r.binders.items ≡ length r.jobs.items) };
}

impl Room {
    /// Room for every type and every term of a table.
    pub fn new(alloc: Global, terms: &TermTable) -> Result<Room, Memory>
        ensures { IfOk result (λ room. IsRoomy terms.now room.room) }
    {
        let deepest = deepest_type(terms).max(deepest_term(terms));
        let Some(room) = jobs_for(deepest) else {
            return Err(Memory);
        };
        let jobs = vec![in alloc; Job::Unbind; room]?;
        let binders = vec![in alloc; TypeId(0); room]?;
        Ok(Room {
            jobs,
            len: 0,
            binders,
            depth: 0,
        })
    }

    // Nothing is left to write.
    pub(crate) fn clear(&mut self)
        ensures { self.new ≡ cleared self.old }
    {
        self.len = 0;
        self.depth = 0;
    }

    // One job more, which is the next.
    pub(crate) fn push(&mut self, job: Job)
        requires { length self.old.jobs < self.old.room }
        ensures { self.new ≡ pushed job self.old }
    {
        self.jobs[self.len] = job;
        self.len += 1;
    }

    // These jobs more, of which the last is the next.
    pub(crate) fn push_all(&mut self, jobs: &[Job])
        requires { length self.old.jobs + length jobs.now ≤ self.old.room }
        ensures { self.new ≡ pushed_all jobs.now self.old }
    {
        for job in jobs {
            self.push(*job);
        }
    }

    // The next job.
    pub(crate) fn pop(&mut self) -> Option<Job>
        ensures popped { MatchOption result (self.old.jobs ≡ []) (λ job. self.old ≡ pushed job self.new) }
        ensures none { IfNone result (self.new ≡ self.old) }
        ensures left { IfSome result (λ _. length self.new.jobs < self.new.room) }
    {
        if self.len == 0 {
            return None;
        }
        self.len -= 1;
        Some(self.jobs[self.len])
    }

    // One binder more, the innermost.
    pub(crate) fn bind(&mut self, ty: TypeId)
        requires { length self.old.binders < self.old.room }
        ensures { self.new ≡ bound_by ty self.old }
    {
        self.binders[self.depth] = ty;
        self.depth += 1;
    }

    // The innermost binder ends.
    pub(crate) fn unbind(&mut self)
        ensures { self.new ≡ unbound self.old }
    {
        self.depth = self.depth.saturating_sub(1);
    }

    // How many binders there are.
    pub(crate) fn depth(&self) -> usize
        ensures { result ≡ length self.now.binders }
    {
        self.depth
    }

    // The type of a binder, of which so many are within.
    pub(crate) fn binder(&self, number: usize) -> TypeId
        requires { number < length self.now.binders }
        ensures { slice_get self.now.binders number ≡ Some result }
    {
        self.binders[self.depth - 1 - number]
    }
}

// How many jobs come of the deepest tree at most, and some more, where that is a number.
fn jobs_for(deepest: u64) -> Option<usize>
    ensures { IfSome result (λ jobs. jobs ≡ 12 * deepest + 12) }
{
    (deepest as usize).checked_add(1)?.checked_mul(12)
}

// The depth of the deepest type of a table, as the table tells it.
fn deepest_type(terms: &TermTable) -> u64
    ensures { (i : ℕ) → i < length terms.now.types → min (type_depth (type_at terms.now i)) (2 ^ 64 - 1) ≤ result }
{
    let mut deepest = 0;
    for i in 0..terms.types().count() {
        deepest = terms.types().depth(TypeId(i)).max(deepest);
    }
    deepest
}

// The depth of the deepest term of a table, as the table tells it.
fn deepest_term(terms: &TermTable) -> u64
    ensures { (i : ℕ) → i < length terms.now.terms → min (term_depth (term_at terms.now i)) (2 ^ 64 - 1) ≤ result }
{
    let mut deepest = 0;
    for i in 0..terms.count() {
        deepest = terms.depth(TermId(i)).max(deepest);
    }
    deepest
}
