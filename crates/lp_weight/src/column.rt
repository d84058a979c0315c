//! The spreads of a module's trees by number, in little room: an amount that is small stands in its entry, and one that is large in a list.
ghost use Rattle.std.specs.Prelude.{◌≡◌, ◌<◌, ◌-◌, ◌^◌, [], ◌∷◌, ◌++◌, length, map, slice_get, Some, IfOk, OnOk};
ghost use Rattle.common.specs.Amounts.{IsCode, IsGrown};
ghost use Rattle.lp_weight.specs.Packed.{spread_in, AreEntries};

use common::{Amounts, Memory};
use lp_term::LpId;
use std::alloc::Global;
use std::marker::Model;

/// How far the symbol at the head of a tree spreads.
#[derive(Clone, Copy)]
pub(crate) struct Head {
    // What is left of the symbol's type past the products that its arguments took.
    pub(crate) rest: LpId,
    // What the domains of those products come to, with the arguments put in wherever their variables occur.
    pub(crate) spent: u128,
}

/// What a tree is, seen from its root.
#[derive(Clone, Copy)]
pub(crate) enum Front {
    /// A symbol of the module stands at its head.
    Symbol(Head),
    /// None does. Of a product, how often its variable occurs in its body.
    Plain(u128),
}

/// The spreads of a tree's symbols: that of its head, where a symbol stands there, and the others'.
#[derive(Clone, Copy)]
pub(crate) struct Spread {
    pub(crate) front: Front,
    pub(crate) inner: u128,
}

// The number of no tree.
const NONE: u32 = u32::MAX;

// A spread in little room: the rest of a head, and the codes of two amounts.
#[derive(Clone, Copy)]
pub(crate) struct Entry {
    rest: u32,
    front: u32,
    inner: u32,
}

// There is an entry for each tree of a module.
const _: () = prove!(size_of::<Entry>() == 12);

/// The spreads of the first trees.
#[derive(Drop)]
pub(crate) struct Column {
    entries: Vec<Entry>,
    amounts: Amounts,
}

impl Model for Column {
    ghost use Rattle.std.specs.Prelude.{List, map, length};
    ghost use Rattle.lp_weight.specs.declared.column.Spread.{Spread as ASpread};
    ghost use Rattle.lp_weight.specs.Packed.{spread_in, AreEntries};

    ghost Value = { List ASpread };

    ghost view = { λ c. map (spread_in c.amounts) c.entries.items };

    ghost invariant = { λ c. AreEntries (length c.amounts) c.entries.items };
}

impl Column {
    /// The spreads of no tree. It takes no memory.
    pub(crate) fn new(alloc: Global) -> Self
        ensures { result ≡ [] }
    {
        Column {
            entries: Vec::new(alloc),
            amounts: Amounts::new(alloc),
        }
    }

    /// How many there are.
    pub(crate) fn len(&self) -> usize
        ensures { result ≡ length self.now }
    {
        self.entries.len()
    }

    /// The spread of the tree with this number.
    pub(crate) fn get(&self, number: usize) -> Spread
        requires { number < length self.now }
        ensures { slice_get self.now number ≡ Some result }
    {
        unpacked(&self.amounts, self.entries[number])
    }

    /// Makes room for the spreads of so many trees. The column stays as it is.
    pub(crate) fn reserve(&mut self, count: usize) -> Result<(), Memory>
        ensures { self.new ≡ self.old }
    {
        let more = count.saturating_sub(self.entries.len());
        self.entries.reserve(more)?;
        Ok(())
    }

    /// Puts the next tree's spread last. After want of memory the column is of no more use.
    pub(crate) fn push(&mut self, spread: Spread) -> Result<(), Memory>
        ensures { OnOk result (self.new ≡ self.old ++ spread ∷ []) }
    {
        put(&mut self.entries, &mut self.amounts, spread)
    }
}

// The spread of an entry.
fn unpacked(amounts: &Amounts, entry: Entry) -> Spread
    requires front { IsCode (length amounts.now) entry.front }
    requires inner { IsCode (length amounts.now) entry.inner }
    ensures { result ≡ spread_in amounts.now entry }
{
    let front = amounts.get(entry.front);
    Spread {
        front: if entry.rest == NONE {
            Front::Plain(front)
        } else {
            Front::Symbol(Head {
                rest: LpId(entry.rest as usize),
                spent: front,
            })
        },
        inner: amounts.get(entry.inner),
    }
}

// The rest of a head in an entry.
fn rest_of(id: LpId) -> Result<u32, Memory>
    ensures { IfOk result (λ n. (n ≡ id.0) × (n < 2 ^ 32 - 1)) }
{
    match u32::try_from(id.0) {
        Ok(number) if number < NONE => Ok(number),
        _ => Err(Memory),
    }
}

// The entry of a spread.
fn packed(amounts: &mut Amounts, spread: Spread) -> Result<Entry, Memory>
    ensures front { IfOk result (λ entry. IsCode (length amounts.new) entry.front) }
    ensures inner { IfOk result (λ entry. IsCode (length amounts.new) entry.inner) }
    ensures spread { IfOk result (λ entry. spread_in amounts.new entry ≡ spread) }
    ensures grown { IsGrown amounts.old amounts.new }
{
    let (rest, front) = match spread.front {
        Front::Symbol(head) => (rest_of(head.rest)?, head.spent),
        Front::Plain(count) => (NONE, count),
    };
    let front = amounts.code(front)?;
    let inner = amounts.code(spread.inner)?;
    Ok(Entry { rest, front, inner })
}

// Puts a spread last.
fn put(entries: &mut Vec<Entry>, amounts: &mut Amounts, spread: Spread) -> Result<(), Memory>
    requires { AreEntries (length amounts.old) entries.old.items }
    ensures entries { AreEntries (length amounts.new) entries.new.items }
    ensures put { OnOk result (map (spread_in amounts.new) entries.new.items ≡ map (spread_in amounts.old) entries.old.items ++ spread ∷ []) }
{
    let entry = packed(amounts, spread)?;
    entries.push(entry)?;
    Ok(())
}
