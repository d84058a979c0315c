//! What a walk has made already, so that it makes each part once.
use crate::TermId;

/// What is made of a tree.
#[derive(Clone, Copy, PartialEq, Eq, PartialOrd, Ord)]
pub(crate) enum Change {
    /// Its loose numbers rise by this number.
    Raise(u128),
    /// The call's arguments take the place of its innermost loose numbers.
    Replace,
    /// The free variable that is the call's one argument becomes the variable of a new binder.
    Close,
}

/// A tree as a part under some binders of another, and what is made of it there.
#[derive(Clone, Copy, PartialEq, Eq, PartialOrd, Ord)]
pub(crate) struct Place {
    pub(crate) id: TermId,
    pub(crate) depth: u128,
    pub(crate) change: Change,
}

/// The trees that were made, by their places.
pub(crate) type Memo = tree_map::Memo<Place, TermId>;
