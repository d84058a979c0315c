//! What a walk has noted of each type, so that it visits a shared part once.
ghost use Rattle.hol_type.specs.Keys.{type_exact};

use crate::TypeId;
use tree_map::{Key, Memo};

impl Key for TypeId {
    ghost exact = { type_exact };
}

/// A number for each type that was noted.
pub(crate) type Marks = Memo<TypeId, TypeId>;
