//! The types of the loose variables of the tree that is walked.
ghost use Rattle.std.specs.Prelude.{◌≡◌, [], ◌∷◌, OnOk, OnErr, IfOk, slice_get};
ghost use Rattle.lp_kernel.specs.Pending.{outside};

use common::Memory;
use lp_term::LpId;
use std::alloc::Global;
use std::marker::Model;

/// The types of the variables, which contracts see as a list, the innermost first.
#[derive(Drop)]
pub struct Context {
    entries: Vec<LpId>,
}

impl Model for Context {
    ghost use Rattle.std.specs.Prelude.{List};
    ghost use Rattle.lp_term.specs.declared.LpId.{LpId as AnId};

    ghost Value = { List AnId };

    ghost use Rattle.std.specs.Prelude.{reverse};

    ghost view = { λ c. reverse c.entries.items };
}

impl Context {
    /// The context of these types, the innermost first.
    pub(crate) fn of(alloc: Global, types: &[LpId]) -> Result<Self, Memory>
        ensures { IfOk result (λ c. c ≡ types.now) }
    {
        let mut entries = Vec::from_slice(alloc, types)?;
        entries.reverse();
        Ok(Context { entries })
    }

    /// The type of a variable.
    pub(crate) fn get(&self, n: u128) -> Option<LpId>
        ensures { result ≡ slice_get self.now n }
    {
        let count = self.entries.len();
        if n < count as u128 {
            Some(self.entries[count - 1 - n as usize])
        } else {
            None
        }
    }

    /// Leaves out the innermost variable.
    pub(crate) fn pop(&mut self)
        ensures { self.new ≡ outside self.old }
    {
        self.entries.pop();
    }

    /// Leaves out all variables.
    pub(crate) fn clear(&mut self)
        ensures { self.new ≡ [] }
    {
        self.entries.clear();
    }

    /// A new innermost variable of this type.
    pub(crate) fn push(&mut self, id: LpId) -> Result<(), Memory>
        ensures pushed { OnOk result (self.new ≡ id ∷ self.old) }
        ensures unchanged { OnErr result (self.new ≡ self.old) }
    {
        self.entries.push(id)?;
        Ok(())
    }
}
