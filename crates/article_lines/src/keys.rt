//! The keys of types, terms and theorems.
ghost use Rattle.std.specs.Prelude.{◌≡◌, ◌^◌, ◌<◌, ◌+◌, None, length, IfOk, IfSome};
ghost use Rattle.article_lines.specs.KeptThings.{AreDistinct};
ghost use Rattle.article_lines.specs.Things.{HasRoom, thing_key, none_keyed, with_thing};
ghost use Rattle.article_lines.specs.Slots.{none_put, put, slot, HasPlace};

use common::Memory;
use hol_term::{TermId, TermTable};
use hol_type::TypeId;
use std::alloc::Global;
use std::marker::Model;

/// A thing that can have a key, by its number: a theorem by that of its step.
#[derive(Clone, Copy)]
pub enum Thing {
    Type(TypeId),
    Term(TermId),
    Theorem(usize),
}

// What stands at the place of a thing that has no key.
const NO_KEY: u64 = u64::MAX;

// A number at the place of each type, each term and each theorem.
#[derive(Drop)]
struct Slots {
    types: Vec<u64>,
    terms: Vec<u64>,
    theorems: Vec<u64>,
}

impl Model for Slots {
    ghost use Rattle.article_lines.specs.Slots.{AllSlots};

    ghost Value = { AllSlots };

    ghost view = { λ s. record { types = s.types.items; terms = s.terms.items; theorems = s.theorems.items } };
}

/// Which things have a key, and which: keys are numbers from 0, in the order in which they were given. Contracts see the things in the
/// order of their keys, and for how many there is room.
#[derive(Drop)]
pub struct Keys {
    slots: Slots,
    next: u64,
}

impl Model for Keys {
    ghost use Rattle.article_lines.specs.Things.{Keyed};

    ghost Value = { Keyed };

    ghost use Rattle.article_lines.specs.Slots.{keyed, AreKeys};

    ghost view = { λ k. keyed k.slots k.next };

    ghost invariant = { λ k. AreKeys k.slots k.next };
}

impl Slots {
    // No keys, and room for so many.
    fn new(alloc: Global, types: usize, terms: usize, theorems: usize) -> Result<Slots, Memory>
        ensures { IfOk result (λ slots. slots ≡ none_put types terms theorems) }
    {
        let types = vec![in alloc; NO_KEY; types]?;
        let terms = vec![in alloc; NO_KEY; terms]?;
        let theorems = vec![in alloc; NO_KEY; theorems]?;
        Ok(Slots {
            types,
            terms,
            theorems,
        })
    }

    // What stands at a thing's place.
    fn get(&self, thing: Thing) -> u64
        requires { HasPlace self.now thing }
        ensures { result ≡ slot self.now thing }
    {
        match thing {
            Thing::Type(id) => self.types[id.0],
            Thing::Term(id) => self.terms[id.0],
            Thing::Theorem(id) => self.theorems[id],
        }
    }

    // Puts a number at a thing's place.
    fn set(&mut self, thing: Thing, key: u64)
        requires { HasPlace self.old thing }
        ensures { self.new ≡ put thing key self.old }
    {
        match thing {
            Thing::Type(id) => self.types[id.0] = key,
            Thing::Term(id) => self.terms[id.0] = key,
            Thing::Theorem(id) => self.theorems[id] = key,
        }
    }
}

impl Keys {
    /// No keys, and room for those of so many types, terms and theorems.
    pub fn new(alloc: Global, types: usize, terms: usize, theorems: usize) -> Result<Keys, Memory>
        ensures { IfOk result (λ keys. keys ≡ none_keyed types terms theorems) }
    {
        let Some(_) = total(types, terms, theorems) else {
            return Err(Memory);
        };
        let slots = Slots::new(alloc, types, terms, theorems)?;
        Ok(Keys { slots, next: 0 })
    }

    /// The key of a thing, if it has one.
    pub fn key(&self, thing: Thing) -> Option<u64>
        requires room { HasRoom self.now thing }
        ensures key { result ≡ thing_key self.now thing }
    {
        let key = self.slots.get(thing);
        if key == NO_KEY { None } else { Some(key) }
    }

    /// Gives the next key to a thing that has none.
    pub fn keep(&mut self, thing: Thing) -> u64
        requires room { HasRoom self.old thing }
        requires new { thing_key self.old thing ≡ None }
        ensures kept { self.new ≡ with_thing thing self.old }
        ensures key { result ≡ length self.old.things }
    {
        let key = self.next;
        self.next = key + 1;
        self.slots.set(thing, key);
        key
    }
}

// How many places these are, where they are no more than a key can tell.
fn total(types: usize, terms: usize, theorems: usize) -> Option<usize>
    ensures { IfSome result (λ _. types + terms + theorems < 2 ^ 64) }
{
    types.checked_add(terms)?.checked_add(theorems)
}

/// No type and no term of a table has two numbers.
pub fn are_distinct(terms: &TermTable)
    ensures { AreDistinct terms.now }
{
    if terms.types().count() != 0 {
        let _first = terms.types().view(TypeId(0));
    }
    if terms.count() != 0 {
        let _first = terms.view(TermId(0));
    }
}
