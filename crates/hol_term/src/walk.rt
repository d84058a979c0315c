//! The walk that lifts a tree, puts trees into it, or closes it over a free variable. It comes once to each place, and keeps a stack of its
//! own of what it is still to do.
ghost use Rattle.hol_spec.specs.Terms.{Term, bound};
ghost use Rattle.hol_term.specs.declared.TermId.{TermId as AnId};
ghost use Rattle.hol_term.specs.declared.memo.Place.{Place as APlace};
ghost use Rattle.hol_term.specs.declared.walk.Task.TheVariants as the_task;
ghost use Rattle.std.specs.Prelude.{◌≡◌, ◌⊎◌, ℕ, ◌<◌, ◌≤◌, ◌+◌, ◌-◌, ◌^◌, ◌↔◌, [], ◌∷◌, length, reverse, slice_get, Some, IfOk, IfSome, IfNone, OnOk, IsTrue};
ghost use Rattle.hol_term.specs.declared.memo.Change.TheVariants as the_change;
ghost use Rattle.hol_term.specs.declared.walk.Replacement.TheVariants as the_replacement;
ghost use Rattle.hol_term.specs.Keys.{place_exact};
ghost use Rattle.hol_term.specs.Masks.{IsWithout};
ghost use Rattle.tree_map.specs.Noted.{IsNoted};
ghost use Rattle.hol_term.specs.Tables.{AreKnown, Holds, Keeps, Trees, term_at, terms_at};
ghost use Rattle.hol_term.specs.Walks.{CanClose, IsLeftAlone, IsPlace, IsReplaced, IsWalk, NotEmpty, variable_of, wanted, work};
ghost use Rattle.hol_term.specs.Parts.{IsLeaf};

use crate::memo::{Change, Memo, Place};
use crate::node::Node;
use crate::{Parts, TermId, TermTable};
use common::{Memory, Stack};
use hol_type::TypeId;
use std::alloc::Global;
use tree_map::Key;

/// What stands for a bound number.
pub(crate) enum Replacement {
    /// This number.
    Renamed(u128),
    /// This argument, lifted by the binders round the number.
    Argument(TermId),
}

/// What a walk is still to do.
#[derive(Clone, Copy)]
pub(crate) enum Task {
    /// To make what is wanted at this place.
    Visit(Place),
    /// To apply the tree made second to last to the one made last, and to note this for the place.
    Apply(Place),
    /// To abstract over the tree made last, by a variable of this type, and to note this for the place.
    Abstract(Place, TypeId),
    /// To note the tree made last for this place too.
    Note(Place),
}

impl Key for Place {
    ghost exact = { place_exact };
}

/// A walk on its way: what it is still to do, the trees that are made and not yet taken up, and what was made at each place.
#[derive(Drop)]
pub(crate) struct Walk {
    tasks: Stack<Task>,
    made: Stack<TermId>,
    memo: Memo,
}

impl Walk {
    // A walk that has nothing to do. It takes no memory.
    fn new(alloc: Global) -> Self
        ensures tasks { result.tasks ≡ [] }
        ensures made { result.made ≡ [] }
        ensures memo { (p : APlace) (r : AnId) → IsNoted result.memo p r → ⊥ }
    {
        Walk {
            tasks: Stack::new(alloc),
            made: Stack::new(alloc),
            memo: Memo::new(alloc),
        }
    }

    // Keeps the tree that is made at a place.
    fn keep(&mut self, place: Place, id: TermId) -> Result<(), Memory>
        ensures tasks { self.new.tasks ≡ self.old.tasks }
        ensures made { OnOk result (self.new.made ≡ id ∷ self.old.made) }
        ensures noted { OnOk result ((p : APlace) (r : AnId) → IsNoted self.new.memo p r → IsNoted self.old.memo p r ⊎ ((p ≡ place) × (r ≡ id))) }
    {
        self.memo.note(place, id)?;
        self.made.push(id)
    }

    // Sets out to make the parts of an application, and then to come back to it.
    fn set_out(&mut self, place: Place, function: Place, argument: Place) -> Result<(), Memory>
        ensures tasks { OnOk result (self.new.tasks ≡ the_task.Visit function ∷ the_task.Visit argument ∷ the_task.Apply place ∷ self.old.tasks) }
        ensures made { self.new.made ≡ self.old.made }
        ensures memo { self.new.memo ≡ self.old.memo }
    {
        self.tasks.push(Task::Apply(place))?;
        self.tasks.push(Task::Visit(argument))?;
        self.tasks.push(Task::Visit(function))
    }

    // Sets out to make one tree, and then to do this.
    fn set_out_to(&mut self, next: Place, then: Task) -> Result<(), Memory>
        ensures tasks { OnOk result (self.new.tasks ≡ the_task.Visit next ∷ then ∷ self.old.tasks) }
        ensures made { self.new.made ≡ self.old.made }
        ensures memo { self.new.memo ≡ self.old.memo }
    {
        self.tasks.push(then)?;
        self.tasks.push(Task::Visit(next))
    }

    // Takes up the tree that was made last.
    fn take(&mut self) -> TermId
        requires { NotEmpty self.old.made }
        ensures made { self.old.made ≡ result ∷ self.new.made }
        ensures tasks { self.new.tasks ≡ self.old.tasks }
        ensures memo { self.new.memo ≡ self.old.memo }
    {
        self.made.pop().unwrap()
    }
}

impl TermTable {
    // The tree that is wanted at a place. Memory is taken for the walk and for the trees that are new.
    pub(crate) fn remade(&mut self, args: &[TermId], root: Place) -> Result<TermId, Memory>
        requires root { IsPlace self.old root }
        requires args { AreKnown self.old args.now }
        requires closing { CanClose (terms_at self.old args.now) root.change }
        ensures known { IfOk result (λ r. r.0 < length self.new.terms) }
        ensures made { IfOk result (λ r. Holds self.new r.0 (wanted (terms_at self.old args.now) self.old root)) }
        ensures keeps { Keeps self.old self.new }
    {
        let mut walk = Walk::new(self.alloc);
        walk.tasks.push(Task::Visit(root))?;
        while let Some(task) = walk.tasks.pop() {
            self.turn(args, task, &mut walk)?;
        }
        Ok(walk.take())
    }

    // One turn of the walk.
    fn turn(&mut self, args: &[TermId], task: Task, walk: &mut Walk) -> Result<(), Memory>
        requires { (from : Trees) × (root : Term) × IsWalk from root self.old args.now (task ∷ walk.old.tasks) walk.old.made walk.old.memo }
        ensures keeps { Keeps self.old self.new }
        ensures walk { OnOk result ((from : Trees) (root : Term) → IsWalk from root self.old args.now (task ∷ walk.old.tasks) walk.old.made walk.old.memo
            → IsWalk from root self.new args.now walk.new.tasks walk.new.made walk.new.memo) }
        ensures less { OnOk result ((from : Trees) (root : Term) → IsWalk from root self.old args.now (task ∷ walk.old.tasks) walk.old.made walk.old.memo
            → work from args.now walk.new.tasks < work from args.now (task ∷ walk.old.tasks)) }
    {
        match task {
            Task::Visit(place) => self.visit(args, place, walk),
            Task::Apply(place) => self.apply(args, place, walk),
            Task::Abstract(place, ty) => self.abstract_over(args, place, ty, walk),
            Task::Note(place) => self.note(args, place, walk),
        }
    }

    // Finds what is made at a place already, or sets out to make it.
    fn visit(&mut self, args: &[TermId], place: Place, walk: &mut Walk) -> Result<(), Memory>
        requires { (from : Trees) × (root : Term) × IsWalk from root self.old args.now (the_task.Visit place ∷ walk.old.tasks) walk.old.made walk.old.memo }
        ensures keeps { Keeps self.old self.new }
        ensures walk { OnOk result ((from : Trees) (root : Term)
            → IsWalk from root self.old args.now (the_task.Visit place ∷ walk.old.tasks) walk.old.made walk.old.memo
            → IsWalk from root self.new args.now walk.new.tasks walk.new.made walk.new.memo) }
        ensures less { OnOk result ((from : Trees) (root : Term)
            → IsWalk from root self.old args.now (the_task.Visit place ∷ walk.old.tasks) walk.old.made walk.old.memo
            → work from args.now walk.new.tasks < work from args.now (the_task.Visit place ∷ walk.old.tasks)) }
    {
        match self.already(args, &walk.memo, place) {
            Some(id) => walk.made.push(id),
            None => self.visit_anew(args, place, walk),
        }
    }

    // Makes a leaf, or sets out to make the parts of a tree.
    fn visit_anew(&mut self, args: &[TermId], place: Place, walk: &mut Walk) -> Result<(), Memory>
        requires { (from : Trees) × (root : Term) × IsWalk from root self.old args.now (the_task.Visit place ∷ walk.old.tasks) walk.old.made walk.old.memo }
        ensures keeps { Keeps self.old self.new }
        ensures walk { OnOk result ((from : Trees) (root : Term)
            → IsWalk from root self.old args.now (the_task.Visit place ∷ walk.old.tasks) walk.old.made walk.old.memo
            → IsWalk from root self.new args.now walk.new.tasks walk.new.made walk.new.memo) }
        ensures less { OnOk result ((from : Trees) (root : Term)
            → IsWalk from root self.old args.now (the_task.Visit place ∷ walk.old.tasks) walk.old.made walk.old.memo
            → work from args.now walk.new.tasks < work from args.now (the_task.Visit place ∷ walk.old.tasks)) }
    {
        match self.parts(place.id) {
            Parts::Leaf => {
                let id = self.remade_leaf(args, place)?;
                walk.keep(place, id)
            }
            Parts::Bound(n) => match replaced(args, place, n)? {
                Replacement::Renamed(n) => {
                    let id = self.add_bound(n)?;
                    walk.keep(place, id)
                }
                Replacement::Argument(id) => {
                    walk.set_out_to(lifted(id, place.depth), Task::Note(place))
                }
            },
            Parts::App(f, x) => walk.set_out(
                place,
                part(place, f, place.depth),
                part(place, x, place.depth),
            ),
            Parts::Lam(ty, body) => walk.set_out_to(
                part(place, body, place.depth + 1),
                Task::Abstract(place, ty),
            ),
        }
    }

    // Makes an application of its parts, which are made.
    fn apply(&mut self, args: &[TermId], place: Place, walk: &mut Walk) -> Result<(), Memory>
        requires { (from : Trees) × (root : Term) × IsWalk from root self.old args.now (the_task.Apply place ∷ walk.old.tasks) walk.old.made walk.old.memo }
        ensures keeps { Keeps self.old self.new }
        ensures walk { OnOk result ((from : Trees) (root : Term)
            → IsWalk from root self.old args.now (the_task.Apply place ∷ walk.old.tasks) walk.old.made walk.old.memo
            → IsWalk from root self.new args.now walk.new.tasks walk.new.made walk.new.memo) }
        ensures less { OnOk result ((from : Trees) (root : Term)
            → IsWalk from root self.old args.now (the_task.Apply place ∷ walk.old.tasks) walk.old.made walk.old.memo
            → work from args.now walk.new.tasks < work from args.now (the_task.Apply place ∷ walk.old.tasks)) }
    {
        let argument = walk.take();
        let function = walk.take();
        let id = self.add(Node::App(function, argument))?;
        walk.keep(place, id)
    }

    // Makes an abstraction of its body, which is made.
    fn abstract_over(
        &mut self,
        args: &[TermId],
        place: Place,
        ty: TypeId,
        walk: &mut Walk,
    ) -> Result<(), Memory>
        requires { (from : Trees) × (root : Term) × IsWalk from root self.old args.now (the_task.Abstract place ty ∷ walk.old.tasks) walk.old.made walk.old.memo }
        ensures keeps { Keeps self.old self.new }
        ensures walk { OnOk result ((from : Trees) (root : Term)
            → IsWalk from root self.old args.now (the_task.Abstract place ty ∷ walk.old.tasks) walk.old.made walk.old.memo
            → IsWalk from root self.new args.now walk.new.tasks walk.new.made walk.new.memo) }
        ensures less { OnOk result ((from : Trees) (root : Term)
            → IsWalk from root self.old args.now (the_task.Abstract place ty ∷ walk.old.tasks) walk.old.made walk.old.memo
            → work from args.now walk.new.tasks < work from args.now (the_task.Abstract place ty ∷ walk.old.tasks)) }
    {
        let body = walk.take();
        let id = self.add(Node::Lam(ty, body))?;
        walk.keep(place, id)
    }

    // Notes the tree made last for one place more.
    fn note(&self, args: &[TermId], place: Place, walk: &mut Walk) -> Result<(), Memory>
        requires { (from : Trees) × (root : Term) × IsWalk from root self.now args.now (the_task.Note place ∷ walk.old.tasks) walk.old.made walk.old.memo }
        ensures walk { OnOk result ((from : Trees) (root : Term)
            → IsWalk from root self.now args.now (the_task.Note place ∷ walk.old.tasks) walk.old.made walk.old.memo
            → IsWalk from root self.now args.now walk.new.tasks walk.new.made walk.new.memo) }
        ensures less { OnOk result ((from : Trees) (root : Term)
            → IsWalk from root self.now args.now (the_task.Note place ∷ walk.old.tasks) walk.old.made walk.old.memo
            → work from args.now walk.new.tasks < work from args.now (the_task.Note place ∷ walk.old.tasks)) }
    {
        let id = walk.take();
        walk.keep(place, id)
    }

    // What is wanted in the place of a free variable or a constant.
    fn remade_leaf(&mut self, args: &[TermId], place: Place) -> Result<TermId, Memory>
        requires place { IsPlace self.old place }
        requires leaf { IsLeaf (term_at self.old place.id.0) }
        requires args { AreKnown self.old args.now }
        requires closing { CanClose (terms_at self.old args.now) place.change }
        ensures known { IfOk result (λ r. r.0 < length self.new.terms) }
        ensures made { IfOk result (λ r. Holds self.new r.0 (wanted (terms_at self.old args.now) self.old place)) }
        ensures keeps { Keeps self.old self.new }
    {
        if is_closed_over(args, place) {
            self.add_bound(place.depth)
        } else {
            let _distinct = self.mark();
            Ok(place.id)
        }
    }

    // A bound number. One of 2^64 or more is want of memory.
    fn add_bound(&mut self, n: u128) -> Result<TermId, Memory>
        ensures known { IfOk result (λ id. id.0 < length self.new.terms) }
        ensures made { IfOk result (λ id. Holds self.new id.0 (bound n)) }
        ensures keeps { Keeps self.old self.new }
    {
        let Ok(number) = u64::try_from(n) else {
            return Err(Memory);
        };
        self.add(Node::Bound(number))
    }

    // The tree of a place, if the change leaves it alone or it is made already.
    fn already(&self, args: &[TermId], memo: &Memo, place: Place) -> Option<TermId>
        requires place { place.id.0 < length self.now.terms }
        requires args { AreKnown self.now args.now }
        requires closing { CanClose (terms_at self.now args.now) place.change }
        ensures { IfSome result (λ r. ((r ≡ place.id) × IsLeftAlone (terms_at self.now args.now) self.now place) ⊎ IsNoted memo.now place r) }
    {
        if self.is_left_alone(args, place) {
            return Some(place.id);
        }
        memo.find(place)
    }

    // Whether the measures, or the order of numbers, tell that the change leaves the place's tree alone.
    pub(crate) fn is_left_alone(&self, args: &[TermId], place: Place) -> bool
        requires place { place.id.0 < length self.now.terms }
        requires args { AreKnown self.now args.now }
        requires closing { CanClose (terms_at self.now args.now) place.change }
        ensures { IsTrue result → IsLeftAlone (terms_at self.now args.now) self.now place }
    {
        if place.change == Change::Raise(0) {
            return true;
        }
        if self.measures_of(place.id).loose > place.depth {
            return false;
        }
        place.change != Change::Close || self.is_without(args, place)
    }

    // Whether it is told that the variable that is closed over is not in the place's tree.
    fn is_without(&self, args: &[TermId], place: Place) -> bool
        requires place { place.id.0 < length self.now.terms }
        requires args { AreKnown self.now args.now }
        requires closing { CanClose (terms_at self.now args.now) place.change }
        ensures { IsTrue result → place.change ≡ the_change.Close → IsWithout (variable_of (terms_at self.now args.now)) (term_at self.now place.id.0) }
    {
        match args {
            [variable] => self.is_without_free(place.id, *variable),
            _ => false,
        }
    }
}

// Whether the place's tree is the free variable that is closed over.
fn is_closed_over(args: &[TermId], place: Place) -> bool
    ensures { IsTrue result ↔ ((place.change ≡ the_change.Close) × (args.now ≡ place.id ∷ [])) }
{
    match args {
        [variable] => place.change == Change::Close && *variable == place.id,
        _ => false,
    }
}

// A tree under so many binders, with the change of this place.
fn part(place: Place, id: TermId, depth: u128) -> Place
    ensures { result ≡ record place { id = id; depth = depth } }
{
    Place {
        id,
        depth,
        change: place.change,
    }
}

// An argument that is to be lifted by the binders round it.
fn lifted(id: TermId, depth: u128) -> Place
    ensures { result ≡ record { id = id; depth = 0; change = the_change.Raise depth } }
{
    Place {
        id,
        depth: 0,
        change: Change::Raise(depth),
    }
}

// What stands for the number of a place. One that does not fit its type is want of memory.
fn replaced(args: &[TermId], place: Place, n: u128) -> Result<Replacement, Memory>
    requires { n < 2 ^ 128 - 1 }
    ensures { IfOk result (IsReplaced args.now place n) }
{
    if n < place.depth {
        return Ok(Replacement::Renamed(n));
    }
    match place.change {
        Change::Raise(by) => renamed(n, by),
        Change::Close => renamed(n, 1),
        Change::Replace => match argument(args, n - place.depth) {
            Some(id) => Ok(Replacement::Argument(id)),
            None => Ok(Replacement::Renamed(n - args.len() as u128)),
        },
    }
}

// The number that is greater by so much.
fn renamed(n: u128, by: u128) -> Result<Replacement, Memory>
    ensures { IfOk result (λ r. (r ≡ the_replacement.Renamed (n + by)) × (n + by < 2 ^ 128 - 1)) }
{
    match n.checked_add(by) {
        Some(raised) if raised < u128::MAX => Ok(Replacement::Renamed(raised)),
        _ => Err(Memory),
    }
}

// The argument that is put for the number `n`: the last for 0.
fn argument(args: &[TermId], n: u128) -> Option<TermId>
    ensures found { result ≡ slice_get (reverse args.now) n }
    ensures member { IfSome result (λ id. (i : ℕ) × (slice_get args.now i ≡ Some id)) }
    ensures none { IfNone result (length args.now ≤ n) }
{
    let len = args.len() as u128;
    if n < len {
        Some(args[(len - 1 - n) as usize])
    } else {
        None
    }
}
