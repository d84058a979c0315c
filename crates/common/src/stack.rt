//! A stack, which contracts see as the list of its items from the top down.
ghost use Rattle.std.specs.Prelude.{◌≡◌, [], ◌∷◌, OnOk, OnErr, IfNone, MatchOption};

use crate::Memory;
use std::alloc::Global;
use std::marker::Model;

/// A stack of items: what was pushed last is popped first.
#[derive(Drop)]
pub struct Stack<T> {
    items: Vec<T>,
}

impl<T> Model for Stack<T> {
    ghost use Rattle.std.specs.Prelude.{List};
    ghost use Rattle.std.specs.Coded.{coded_list};

    ghost Value = { List T };

    ghost coded = { coded_list T.code };

    ghost use Rattle.std.specs.Prelude.{reverse};

    ghost view = { λ s. reverse s.items.items };
}

impl<T> Stack<T> {
    /// An empty stack. It takes no memory.
    pub fn new(alloc: Global) -> Self
        ensures empty { result ≡ [] }
    {
        Stack {
            items: Vec::new(alloc),
        }
    }

    /// Puts an item on top. After want of memory the stack is as before.
    pub fn push(&mut self, item: T) -> Result<(), Memory>
    where
        T: Drop,
        ensures pushed { OnOk result (self.new ≡ item ∷ self.old) }
        ensures unchanged { OnErr result (self.new ≡ self.old) }
    {
        self.items.push(item)?;
        Ok(())
    }

    /// Takes the top item, or `None` from an empty stack.
    pub fn pop(&mut self) -> Option<T>
        ensures popped { MatchOption result (self.old ≡ []) (λ item. self.old ≡ item ∷ self.new) }
        ensures still_empty { IfNone result (self.new ≡ []) }
    {
        self.items.pop()
    }
}
