//! Lists of numbers, each kept under a number of its own.
ghost use Rattle.std.specs.Prelude.{◌≡◌, ◌<◌, [], ◌∷◌, Some, length, slice_get, nat_eq, IsTrue, IfOk};
ghost use Rattle.std.specs.List.{list_all, IsDistinct};
ghost use Rattle.hol_spec.specs.Lists.{is_in, union};
ghost use Rattle.hol_variables.specs.Lists.{list_in, HasUnion, IsThere, KeepsLists};

use crate::numbers::Numbers;
use common::Memory;
use std::alloc::Global;
use std::marker::Model;

// How many numbers a list has at most that is kept. Each term has one, so lists that may be longer, up to the number of parameters that a
// sequent may have, would take more memory than all else.
const LONGEST: usize = 1_024;

// How many numbers the kept lists may have in all: so many, and so many more for each list. Each list is that of a term or a type, so what is
// kept is in proportion to the table; what comes when there is no room isn't kept.
const ROOM: usize = 4_194_304;

const ROOM_OF_EACH: usize = 16;

/// The number of a list. The empty list has 0.
#[derive(Clone, Copy, PartialEq, Eq)]
pub(crate) struct ListId(pub(crate) usize);

/// Lists of numbers. Contracts see each of them, by its number.
#[derive(Drop)]
pub(crate) struct Lists {
    alloc: Global,
    nothing: Numbers,
    others: Vec<Numbers>,
    // How many numbers the others have in all.
    kept: usize,
}

impl Model for Lists {
    ghost use Rattle.std.specs.Prelude.{List, ℕ, ◌∷◌};

    ghost Value = { List (List ℕ) };

    ghost view = { λ l. l.nothing ∷ l.others.items };

    ghost use Rattle.std.specs.Prelude.{◌≡◌, []};

    ghost invariant = { λ l. l.nothing ≡ [] };
}

impl Lists {
    /// The empty list alone. It takes no memory.
    pub(crate) fn new(alloc: Global) -> Self
        ensures none { result ≡ [] ∷ [] }
    {
        Lists {
            alloc,
            nothing: Numbers::new(alloc),
            others: Vec::new(alloc),
            kept: 0,
        }
    }

    /// The empty list.
    pub(crate) fn nothing(&self) -> ListId
        ensures { slice_get self.now result.0 ≡ Some [] }
    {
        let _nothing = &self.nothing;
        ListId(0)
    }

    /// The numbers of a list.
    pub(crate) fn list(&self, id: ListId) -> &Numbers
        requires { id.0 < length self.now }
        ensures { slice_get self.now id.0 ≡ Some result.now }
    {
        if id.0 == 0 {
            &self.nothing
        } else {
            &self.others[id.0 - 1]
        }
    }

    /// A list of one number.
    pub(crate) fn single(&mut self, n: usize) -> Result<ListId, Memory>
        ensures made { IfOk result (λ id. slice_get self.new id.0 ≡ Some (n ∷ [])) }
        ensures keeps { KeepsLists self.old self.new }
    {
        let mut numbers = Numbers::new(self.alloc);
        numbers.add(n)?;
        self.push(numbers)
    }

    /// The first of two lists, followed by what is new of the second, where both are kept and their union has no more
    /// numbers than a list has, and there is room for it.
    pub(crate) fn unite(
        &mut self,
        first: Option<ListId>,
        second: Option<ListId>,
    ) -> Result<Option<ListId>, Memory>
        requires first { IsThere self.old first }
        requires second { IsThere self.old second }
        ensures united { IfOk result (λ id. HasUnion self.old first second self.new id) }
        ensures keeps { KeepsLists self.old self.new }
    {
        let Some(first) = first else {
            return Ok(None);
        };
        let Some(second) = second else {
            return Ok(None);
        };
        self.united(first, second)
    }

    // The union of two lists: one of them where it is that, or else a new one.
    fn united(&mut self, first: ListId, second: ListId) -> Result<Option<ListId>, Memory>
        requires first { first.0 < length self.old }
        requires second { second.0 < length self.old }
        ensures united { IfOk result (λ id. HasUnion self.old (Some first) (Some second) self.new id) }
        ensures keeps { KeepsLists self.old self.new }
    {
        if self.has_all(first, second) {
            return Ok(Some(first));
        }
        if self.is_empty(first) {
            return Ok(Some(second));
        }
        let whole = self.whole(first, second)?;
        if !self.has_room(whole.numbers().len()) {
            return Ok(None);
        }
        Ok(Some(self.push(whole)?))
    }

    // Whether a list of so many numbers may be kept.
    fn has_room(&self, count: usize) -> bool {
        let most = self
            .others
            .len()
            .saturating_mul(ROOM_OF_EACH)
            .saturating_add(ROOM);
        count <= LONGEST && self.kept.saturating_add(count) <= most
    }

    // Whether a list has each number of another.
    fn has_all(&self, first: ListId, second: ListId) -> bool
        requires first { first.0 < length self.now }
        requires second { second.0 < length self.now }
        ensures all { result ≡ list_all (λ n. is_in nat_eq n (list_in self.now first.0)) (list_in self.now second.0) }
        ensures no_repeats { IsDistinct nat_eq (list_in self.now second.0) }
    {
        let others = self.list(second).numbers();
        first == second || self.list(first).has_all(others)
    }

    // Whether a list is empty.
    fn is_empty(&self, id: ListId) -> bool
        requires { id.0 < length self.now }
        ensures { IsTrue result → list_in self.now id.0 ≡ [] }
    {
        self.list(id).numbers().is_empty()
    }

    // The union of two lists.
    fn whole(&self, first: ListId, second: ListId) -> Result<Numbers, Memory>
        requires first { first.0 < length self.now }
        requires second { second.0 < length self.now }
        ensures { IfOk result (λ whole. whole ≡ union nat_eq (list_in self.now first.0) (list_in self.now second.0)) }
    {
        let mut whole = Numbers::new(self.alloc);
        whole.unite(self.list(first).numbers())?;
        whole.unite(self.list(second).numbers())?;
        Ok(whole)
    }

    // Keeps a list under the next number.
    fn push(&mut self, numbers: Numbers) -> Result<ListId, Memory>
        ensures made { IfOk result (λ id. slice_get self.new id.0 ≡ Some numbers) }
        ensures keeps { KeepsLists self.old self.new }
    {
        let id = ListId(self.others.len() + 1);
        let count = numbers.numbers().len();
        self.others.push(numbers)?;
        self.kept = self.kept.saturating_add(count);
        Ok(id)
    }
}
