//! What a check remembers: the types of applications, the products that types reach, and lifted types.
ghost use Rattle.std.specs.Prelude.{◌≡◌, [], suc, ◌<◌, ◌⊎◌, Bool, List, length, IfOk, IfNone, IfSome, OnOk};
ghost use Rattle.lp_term.specs.declared.LpId.{LpId as AnId};
ghost use Rattle.lp_spec.specs.Trees.{Tree};
ghost use Rattle.lp_spec.specs.Modules.{Declaration};
ghost use Rattle.lp_kernel.specs.Noted.{IsNoted, IsEmpty, IsCutOff, IsLonger, IsForgotten};
ghost use Rattle.lp_kernel.specs.Right.{AreRight};

use crate::contexts::Contexts;
use crate::latest::Latest;
use common::Memory;
use lp_term::LpId;
use std::alloc::Global;
use std::marker::Model;

/// Types that were found, by the numbers of the trees that they were found for: a list in place of a table with a hash, so that no module
/// makes it slow.
#[derive(Drop)]
pub(crate) struct Memo {
    // One more than the type's number, or 0 where none is noted.
    types: Vec<u32>,
}

impl Model for Memo {
    ghost use Rattle.std.specs.Prelude.{List, ℕ};
    ghost use Rattle.std.specs.Coded.{coded_list, coded_ℕ};

    ghost Value = { List ℕ };

    ghost coded = { coded_list coded_ℕ };

    ghost view = { λ m. m.types.items };
}

impl Memo {
    /// Nothing is known.
    pub(crate) fn new(alloc: Global) -> Self
        ensures empty { IsEmpty result }
    {
        Memo {
            types: Vec::new(alloc),
        }
    }

    /// Nothing is known, and there is room for so many trees.
    pub(crate) fn with_room(alloc: Global, count: usize) -> Result<Self, Memory>
        ensures empty { IfOk result IsEmpty }
    {
        let types = Vec::with_capacity(alloc, count)?;
        Ok(Memo { types })
    }

    /// The type that was noted of a tree.
    pub(crate) fn find(&self, id: LpId) -> Option<LpId>
        ensures noted { IfSome result (λ r. IsNoted self.now id r) }
        ensures absent { IfNone result ((r : AnId) → IsNoted self.now id r → ⊥) }
    {
        let noted = *self.types.get(id.0)?;
        let number = noted.checked_sub(1)?;
        Some(LpId(number as usize))
    }

    /// Notes the type of a tree. A number of 2^32 or more is want of memory.
    pub(crate) fn note(&mut self, id: LpId, found: LpId) -> Result<(), Memory>
        ensures noted { OnOk result ((t : AnId) (r : AnId) → IsNoted self.new t r → IsNoted self.old t r ⊎ ((t ≡ id) × (r ≡ found))) }
        ensures new { OnOk result (IsNoted self.new id found) }
        ensures kept { OnOk result ((t : AnId) (r : AnId) → IsNoted self.old t r → (t ≡ id) ⊎ IsNoted self.new t r) }
    {
        let noted = one_more(found)?;
        reach_to(&mut self.types, id.0)?;
        self.types[id.0] = noted;
        Ok(())
    }

    /// Forgets each tree and each type with a number of `len` or more.
    pub(crate) fn cut(&mut self, len: usize)
        ensures lower { IsCutOff self.old self.new len }
        ensures kept { (t : AnId) (r : AnId) → t.0 < len → r.0 < len → IsNoted self.old t r → IsNoted self.new t r }
    {
        self.types.truncate(len);
        forget(&mut self.types, len);
    }
}

/// How the turns of a check go on, and what they remember.
#[derive(Drop)]
pub(crate) struct Turns {
    pub(crate) alloc: Global,
    /// Whether sorts are rechecked.
    pub(crate) rechecks: bool,
    /// The products that types reach by head steps.
    pub(crate) products: Memo,
    /// The contexts that have numbers.
    pub(crate) contexts: Contexts,
}

impl Turns {
    /// Nothing is known.
    pub(crate) fn new(alloc: Global, rechecks: bool) -> Self
        ensures rechecks { result.rechecks ≡ rechecks }
        ensures products { IsEmpty result.products }
    {
        Turns {
            alloc,
            rechecks,
            products: Memo::new(alloc),
            contexts: Contexts::new(alloc),
        }
    }
}

/// A check, and what it remembers.
#[derive(Drop)]
pub(crate) struct Memos {
    /// The types of closed trees.
    pub(crate) types: Memo,
    /// Types that were lifted.
    pub(crate) lifts: Latest,
    /// The types of open trees in the contexts that have numbers.
    pub(crate) open_types: Latest,
    pub(crate) turns: Turns,
}

impl Memos {
    /// Nothing is known.
    pub(crate) fn new(alloc: Global, rechecks: bool) -> Self
        ensures rechecks { result.turns.rechecks ≡ rechecks }
        ensures types { IsEmpty result.types }
        ensures products { IsEmpty result.turns.products }
        ensures lifts { result.lifts ≡ [] }
        ensures open_types { result.open_types ≡ [] }
    {
        Memos {
            types: Memo::new(alloc),
            lifts: Latest::new(alloc),
            open_types: Latest::new(alloc),
            turns: Turns::new(alloc, rechecks),
        }
    }

    /// Nothing is known, and there is room for so many trees.
    pub(crate) fn with_room(alloc: Global, rechecks: bool, count: usize) -> Result<Self, Memory>
        ensures rechecks { IfOk result (λ memo. memo.turns.rechecks ≡ rechecks) }
        ensures types { IfOk result (λ memo. IsEmpty memo.types) }
        ensures products { IfOk result (λ memo. IsEmpty memo.turns.products) }
        ensures lifts { IfOk result (λ memo. memo.lifts ≡ []) }
        ensures open_types { IfOk result (λ memo. memo.open_types ≡ []) }
    {
        let types = Memo::with_room(alloc, count)?;
        let Ok(products) = Memo::with_room(alloc, count) else {
            drop(types);
            return Err(Memory);
        };
        Ok(Memos {
            types,
            lifts: Latest::new(alloc),
            open_types: Latest::new(alloc),
            turns: Turns {
                alloc,
                rechecks,
                products,
                contexts: Contexts::new(alloc),
            },
        })
    }

    /// Forgets each tree and each type with a number of `len` or more, all that was lifted, and all contexts.
    pub(crate) fn cut(&mut self, len: usize)
        ensures rechecks { self.new.turns.rechecks ≡ self.old.turns.rechecks }
        ensures types { IsCutOff self.old.types self.new.types len }
        ensures products { IsCutOff self.old.turns.products self.new.turns.products len }
        ensures lifts { self.new.lifts ≡ [] }
        ensures open_types { self.new.open_types ≡ [] }
    {
        self.types.cut(len);
        self.turns.products.cut(len);
        self.lifts.clear();
        self.forget_contexts();
    }

    /// Forgets all contexts, where they are many.
    pub(crate) fn trim(&mut self)
        ensures { (rechecks : Bool) (ds : List Declaration) (ts : List Tree) → AreRight rechecks ds ts self.old → AreRight rechecks ds ts self.new }
    {
        if self.turns.contexts.len() > MOST {
            self.forget_contexts();
        }
    }

    // Forgets all contexts, and what was found in them.
    fn forget_contexts(&mut self)
        ensures rechecks { self.new.turns.rechecks ≡ self.old.turns.rechecks }
        ensures types { self.new.types ≡ self.old.types }
        ensures products { self.new.turns.products ≡ self.old.turns.products }
        ensures lifts { self.new.lifts ≡ self.old.lifts }
        ensures open_types { self.new.open_types ≡ [] }
    {
        self.turns.contexts.clear();
        self.open_types.clear();
    }
}

// How many contexts have numbers before they are forgotten.
const MOST: usize = 4096;

// One more than the number of a tree.
fn one_more(id: LpId) -> Result<u32, Memory>
    ensures { IfOk result (λ n. n ≡ suc id.0) }
{
    match u32::try_from(id.0) {
        Ok(number) => number.checked_add(1).ok_or(Memory),
        Err(_) => Err(Memory),
    }
}

// Lengthens a list so that it has this place. Nothing is noted there.
fn reach_to(types: &mut Vec<u32>, place: usize) -> Result<(), Memory>
    ensures reached { OnOk result (place < length types.new.items) }
    ensures longer { OnOk result (IsLonger types.old.items types.new.items) }
{
    while types.len() <= place {
        types.push(0)?;
    }
    Ok(())
}

// Forgets the types with a number of `len` or more.
fn forget(types: &mut Vec<u32>, len: usize)
    ensures { IsForgotten types.old.items types.new.items (length types.new.items) len }
{
    for place in 0..types.len() {
        if types[place] as usize > len {
            types[place] = 0;
        }
    }
}
