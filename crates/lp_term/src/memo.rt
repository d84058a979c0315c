//! What a walk has made already, so that it makes each part once.
use crate::LpId;

/// What is made of a tree.
#[derive(Clone, Copy, PartialEq, Eq, PartialOrd, Ord)]
pub(crate) enum Change {
    /// Its loose variables rise by this number.
    Raise(u128),
    /// The call's arguments take the place of its innermost loose variables.
    Replace,
}

/// A tree as a part under some binders of another, and what is made of it there.
#[derive(Clone, Copy, PartialEq, Eq, PartialOrd, Ord)]
pub(crate) struct Place {
    pub(crate) id: LpId,
    pub(crate) depth: u128,
    pub(crate) change: Change,
}

/// The trees that were made, by their places.
pub(crate) type Memo = tree_map::Memo<Place, LpId>;
