//! What a walk has made already, so that it makes each part once.
ghost use Rattle.translate_term.specs.Keys.{place_exact};

use hol_term::TermId;
use hol_type::TypeId;
use lp_term::LpId;
use tree_map::{Key, Memo};

/// A term as a part of another, under so many of its binders.
#[derive(Clone, Copy, PartialEq, Eq, PartialOrd, Ord)]
pub(crate) struct Place {
    pub(crate) id: TermId,
    pub(crate) depth: u128,
}

impl Key for Place {
    ghost exact = { place_exact };
}

/// The tree of the term at each place that was made.
pub(crate) type TermMemo = Memo<Place, LpId>;

/// The tree of each type that was made.
pub(crate) type TypeMemo = Memo<TypeId, LpId>;
