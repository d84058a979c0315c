//! The stack of an article.
ghost use Rattle.std.specs.Prelude.{◌≡◌, ◌<◌, ◌≤◌, ◌∷◌, [], length, map, reverse, drop, slice_get, slice_set, OnOk, OnErr};
ghost use Rattle.std.specs.List.{fold};
ghost use Rattle.stack_machine.specs.Collecting.{holding, numbered};
ghost use Rattle.stack_machine.specs.Concluding.{IsConcluded};

use crate::collect::{Held, Numbers};
use crate::object::Object;
use common::{Fault, Memory};
use hol_rules::StepId;
use std::alloc::Global;
use std::marker::Model;

/// The objects, which grow at the end. Contracts see them from the top.
#[derive(Drop)]
pub(crate) struct Stack {
    items: Vec<Object>,
}

impl Model for Stack {
    ghost use Rattle.std.specs.Prelude.{List, reverse};
    ghost use Rattle.stack_machine.specs.declared.object.Object.{Object as AnObject};

    ghost Value = { List AnObject };

    ghost view = { λ s. reverse s.items.items };
}

impl Stack {
    /// No objects.
    pub(crate) fn new(alloc: Global) -> Stack
        ensures empty { result ≡ [] }
    {
        Stack {
            items: Vec::new(alloc),
        }
    }

    /// How many objects there are.
    pub(crate) fn len(&self) -> usize
        ensures { result ≡ length self.now }
    {
        self.items.len()
    }

    /// The object at a depth below the top.
    pub(crate) fn at(&self, depth: usize) -> Option<Object>
        ensures { result ≡ slice_get self.now depth }
    {
        let count = self.items.len();
        if depth < count {
            Some(self.items[count - 1 - depth])
        } else {
            None
        }
    }

    /// Puts an object on top.
    pub(crate) fn push(&mut self, object: Object) -> Result<(), Memory>
        ensures pushed { OnOk result (self.new ≡ object ∷ self.old) }
        ensures unchanged { OnErr result (self.new ≡ self.old) }
    {
        self.items.push(object)?;
        Ok(())
    }

    /// Puts another object at a depth below the top.
    pub(crate) fn set(&mut self, depth: usize, object: Object)
        requires { depth < length self.old }
        ensures { self.new ≡ slice_set self.old depth object }
    {
        let place = self.items.len() - 1 - depth;
        self.items[place] = object;
    }

    /// Takes so many objects off the top, or all where there are fewer.
    pub(crate) fn drop_top(&mut self, count: usize)
        ensures { self.new ≡ drop count self.old }
    {
        let keep = self.items.len().saturating_sub(count);
        self.items.truncate(keep);
    }

    /// Puts an object in place of so many on top.
    pub(crate) fn put(&mut self, count: usize, object: Object)
        requires some { 0 < count }
        requires there { count ≤ length self.old }
        ensures { self.new ≡ object ∷ drop count self.old }
    {
        self.drop_top(count - 1);
        self.set(0, object);
    }

    /// Puts a rule's theorem in place of so many objects on top, where the rule made a step, or answers its fault.
    pub(crate) fn conclude(
        &mut self,
        count: usize,
        step: Result<StepId, Fault>,
    ) -> Result<(), Fault>
        requires some { 0 < count }
        requires there { count ≤ length self.old }
        ensures { IsConcluded count self.old step self.new result }
    {
        match step {
            Ok(id) => {
                self.put(count, Object::Theorem(id));
                Ok(())
            }
            Err(fault) => Err(fault),
        }
    }

    /// Puts two objects in place of so many on top, the second on top of the first.
    pub(crate) fn put_two(&mut self, count: usize, first: Object, second: Object)
        requires two { 2 ≤ count }
        requires there { count ≤ length self.old }
        ensures { self.new ≡ second ∷ first ∷ drop count self.old }
    {
        self.drop_top(count - 2);
        self.set(1, first);
        self.set(0, second);
    }

    /// Puts five objects in place of the five on top, the fifth on top.
    pub(crate) fn put_five(
        &mut self,
        first: Object,
        second: Object,
        third: Object,
        fourth: Object,
        fifth: Object,
    )
        requires { 5 ≤ length self.old }
        ensures { self.new ≡ fifth ∷ fourth ∷ third ∷ second ∷ first ∷ drop 5 self.old }
    {
        self.set(4, first);
        self.set(3, second);
        self.set(2, third);
        self.set(1, fourth);
        self.set(0, fifth);
    }

    /// Holds what the objects hold themselves.
    pub(crate) fn hold(&self, held: &mut Held)
        ensures { held.new ≡ fold holding held.old (reverse self.now) }
    {
        held.hold_all(&self.items);
    }

    /// Rewrites the objects by new numbers.
    pub(crate) fn renumber(&mut self, numbers: &Numbers)
        ensures { self.new ≡ map (numbered numbers.now) self.old }
    {
        numbers.rewrite_all(&mut self.items);
    }

    /// Takes all objects off.
    pub(crate) fn clear(&mut self)
        ensures { self.new ≡ [] }
    {
        self.items.clear();
    }
}
