//! The walk that finds the type of a tree under binders. It comes once to each part under the same binders, and keeps a stack of its own of
//! what it is still to do.
ghost use Rattle.std.specs.Prelude.{◌≡◌, ◌⊎◌, [], ◌∷◌, Option, OnOk};
ghost use Rattle.hol_type.specs.declared.table.TypeId.{TypeId as AnId};
ghost use Rattle.hol_term.specs.declared.seats.Seat.{Seat as ASeat};
ghost use Rattle.hol_term.specs.declared.seats.Step.TheVariants as the_step;
ghost use Rattle.tree_map.specs.Noted.{IsNoted};
ghost use Rattle.hol_term.specs.Keys.{seat_exact};
ghost use Rattle.hol_term.specs.Walks.{NotEmpty};

use crate::TermId;
use crate::scopes::{ScopeId, Scopes};
use common::{Memory, Stack};
use hol_type::TypeId;
use std::alloc::Global;
use tree_map::Key;

/// A tree as a part under binders.
#[derive(Clone, Copy, PartialEq, Eq, PartialOrd, Ord)]
pub(crate) struct Seat {
    pub(crate) id: TermId,
    pub(crate) scope: ScopeId,
}

impl Key for Seat {
    ghost exact = { seat_exact };
}

/// The types that were found, by their seats: `None` where there is no type.
pub(crate) type Found = tree_map::Memo<Seat, Option<TypeId>>;

/// What is still to do to find a type.
#[derive(Clone, Copy)]
pub(crate) enum Step {
    /// To find the type of this seat's tree.
    Visit(Seat),
    /// To apply the type found second to last to the one found last, and to note this for the seat.
    Apply(Seat),
    /// To make the type of the functions from this type to the one found last, and to note this for the seat.
    Abstract(Seat, TypeId),
}

/// A walk that finds types, on its way: what it is still to do, the types that are found and not yet taken up, the binders that it has
/// gone under, and what was found at each seat.
#[derive(Drop)]
pub(crate) struct Typings {
    pub(crate) steps: Stack<Step>,
    pub(crate) types: Stack<Option<TypeId>>,
    pub(crate) scopes: Scopes,
    pub(crate) found: Found,
}

impl Typings {
    // A walk that has nothing to do. It takes no memory.
    pub(crate) fn new(alloc: Global) -> Self
        ensures steps { result.steps ≡ [] }
        ensures types { result.types ≡ [] }
        ensures scopes { result.scopes ≡ [] ∷ [] }
        ensures found { (s : ASeat) (ty : Option AnId) → IsNoted result.found s ty → ⊥ }
    {
        Typings {
            steps: Stack::new(alloc),
            types: Stack::new(alloc),
            scopes: Scopes::new(alloc),
            found: Found::new(alloc),
        }
    }

    // Keeps the type that is found at a seat.
    pub(crate) fn keep(&mut self, seat: Seat, ty: Option<TypeId>) -> Result<(), Memory>
        ensures steps { self.new.steps ≡ self.old.steps }
        ensures types { OnOk result (self.new.types ≡ ty ∷ self.old.types) }
        ensures scopes { self.new.scopes ≡ self.old.scopes }
        ensures noted { OnOk result ((s : ASeat) (found : Option AnId) → IsNoted self.new.found s found
            → IsNoted self.old.found s found ⊎ ((s ≡ seat) × (found ≡ ty))) }
    {
        self.found.note(seat, ty)?;
        self.types.push(ty)
    }

    // Sets out to find the types of the parts of an application, and then to come back to it.
    pub(crate) fn set_out(
        &mut self,
        seat: Seat,
        function: Seat,
        argument: Seat,
    ) -> Result<(), Memory>
        ensures steps { OnOk result (self.new.steps ≡ the_step.Visit function ∷ the_step.Visit argument ∷ the_step.Apply seat ∷ self.old.steps) }
        ensures types { self.new.types ≡ self.old.types }
        ensures scopes { self.new.scopes ≡ self.old.scopes }
        ensures found { self.new.found ≡ self.old.found }
    {
        self.steps.push(Step::Apply(seat))?;
        self.steps.push(Step::Visit(argument))?;
        self.steps.push(Step::Visit(function))
    }

    // Sets out to find the type of the body of an abstraction, and then to come back to it.
    pub(crate) fn set_out_under(&mut self, seat: Seat, ty: TypeId, body: Seat) -> Result<(), Memory>
        ensures steps { OnOk result (self.new.steps ≡ the_step.Visit body ∷ the_step.Abstract seat ty ∷ self.old.steps) }
        ensures types { self.new.types ≡ self.old.types }
        ensures scopes { self.new.scopes ≡ self.old.scopes }
        ensures found { self.new.found ≡ self.old.found }
    {
        self.steps.push(Step::Abstract(seat, ty))?;
        self.steps.push(Step::Visit(body))
    }

    // Takes up the type that was found last.
    pub(crate) fn take(&mut self) -> Option<TypeId>
        requires { NotEmpty self.old.types }
        ensures types { self.old.types ≡ result ∷ self.new.types }
        ensures steps { self.new.steps ≡ self.old.steps }
        ensures scopes { self.new.scopes ≡ self.old.scopes }
        ensures found { self.new.found ≡ self.old.found }
    {
        self.types.pop().unwrap()
    }
}
