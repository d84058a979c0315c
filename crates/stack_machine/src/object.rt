//! Objects, as numbers of what the machine keeps.

use hol_rules::StepId;
use hol_term::TermId;
use hol_type::TypeId;

/// The number of a name.
#[derive(Clone, Copy)]
pub(crate) struct NameId(pub(crate) usize);

/// The number of a list that isn't empty.
#[derive(Clone, Copy, PartialEq, Eq, PartialOrd, Ord)]
pub(crate) struct CellId(pub(crate) usize);

/// A list.
#[derive(Clone, Copy, PartialEq, Eq, PartialOrd, Ord)]
pub(crate) enum List {
    Empty,
    Cell(CellId),
}

/// What the stack and the dictionary hold.
#[derive(Clone, Copy)]
pub(crate) enum Object {
    Number(i64),
    Name(NameId),
    List(List),
    TypeOperator(NameId),
    Type(TypeId),
    Constant(NameId),
    /// A variable, of this name and type.
    Variable(NameId, TypeId),
    Term(TermId),
    /// A theorem, by the step that made it.
    Theorem(StepId),
}

/// The first element of a list, and the rest of it.
#[derive(Clone, Copy)]
pub(crate) struct Cell {
    pub(crate) head: Object,
    pub(crate) tail: List,
}
