//! The flags of the items.
ghost use Rattle.std.specs.Prelude.{◌≡◌, length};
ghost use Rattle.translate_reach.specs.Reached.{flag};

use std::marker::Model;

/// Of each item, whether the exports reach it. Contracts see the list of the flags.
#[derive(Drop)]
pub struct Reached {
    pub(crate) flags: Vec<bool>,
}

impl Model for Reached {
    ghost use Rattle.std.specs.Prelude.{List, Bool};

    ghost Value = { List Bool };

    ghost view = { λ r. r.flags.items };
}

impl Reached {
    /// Whether the item with this number is reached. Past the last there is none.
    pub fn contains(&self, item: usize) -> bool
        ensures { result ≡ flag self.now item }
    {
        match self.flags.get(item) {
            Some(reached) => *reached,
            None => false,
        }
    }

    /// How many items there are.
    pub fn len(&self) -> usize
        ensures { result ≡ length self.now }
    {
        self.flags.len()
    }
}
