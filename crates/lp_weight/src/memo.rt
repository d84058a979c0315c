//! What places amount to, so that each is looked at once.
ghost use Rattle.lp_weight.specs.Keys.{place_exact};

use lp_term::LpId;
use tree_map::Key;

/// A tree as a part of another, under so many of its binders.
#[derive(Clone, Copy, PartialEq, Eq, PartialOrd, Ord)]
pub(crate) struct Place {
    pub(crate) id: LpId,
    pub(crate) depth: u64,
}

impl Key for Place {
    ghost exact = { place_exact };
}

/// The amounts that were summed, by their places.
pub(crate) type Memo = tree_map::Memo<Place, u128>;
