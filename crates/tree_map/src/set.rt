//! Sets in the order in which their keys came.
ghost use Rattle.std.specs.Prelude.{◌≡◌, ℕ, ◌<◌, ◌≤◌, ◌-◌, ◌^◌, ◌++◌, ◌∷◌, [], true, not, length, take, slice_get, position, Some, IfOk, OnOk, OnErr};
ghost use Rattle.std.specs.Option.{option_copied};
ghost use Rattle.std.specs.List.{list_any, position_or_len};
ghost use Rattle.std.specs.Ordering.{eq_by_cmp};
ghost use Rattle.std.specs.BTreeMap.{get};
ghost use Rattle.tree_map.specs.Places.{place as place_of, Finds, FindsWith, ArePlaced};
ghost use Rattle.tree_map.specs.Entries.{insert_key};

use common::Memory;
use std::alloc::Global;
use std::collections::BTreeMap;
use std::marker::Model;

// How many keys are looked through in order. Where there are more, they are found by the tree.
const FEW: usize = 8;

/// Keys, each once, in the order in which they came. Contracts see the list of them.
#[derive(Drop)]
pub struct TreeSet<T: Ord> {
    // The place of each key, where there are more than a few keys; else any.
    places: BTreeMap<T, usize>,
    keys: Vec<T>,
}

impl<T: Ord> Model for TreeSet<T> {
    ghost use Rattle.std.specs.Prelude.{List};
    ghost use Rattle.std.specs.Ordering.{eq_by_cmp};
    ghost use Rattle.std.specs.BTreeMap.{get};

    ghost Value = { List T };

    ghost use Rattle.tree_map.specs.Places.{ArePlaced};

    ghost view = { λ s. s.keys.items };

    ghost invariant = { λ s. ArePlaced (eq_by_cmp T.cmp) (get T.cmp s.places) s.keys.items };
}

impl<T: Ord> TreeSet<T> {
    /// No key. It takes no memory.
    pub fn new(alloc: Global) -> Self
        ensures empty { result ≡ [] }
    {
        TreeSet {
            places: BTreeMap::new(alloc),
            keys: Vec::new(alloc),
        }
    }

    /// How many keys there are.
    pub fn len(&self) -> usize
        ensures count { result ≡ length self.now }
        ensures small { result < 2 ^ 63 }
    {
        self.keys.len()
    }

    /// Whether a key is there.
    pub fn contains(&self, key: &T) -> bool
        ensures { result ≡ list_any (T.eq key.now) self.now }
    {
        self.place(key).is_some()
    }

    /// The keys, in the order in which they came.
    pub fn as_slice(&self) -> &[T]
        ensures { result.now ≡ self.now }
    {
        self.keys.as_slice()
    }

    /// The key at a place.
    pub fn get_index(&self, index: usize) -> Option<&T>
        ensures { option_copied result ≡ slice_get self.now index }
    {
        self.keys.get(index)
    }

    /// The place of a key.
    pub(crate) fn place(&self, key: &T) -> Option<usize>
        ensures { result ≡ place_of (T.eq key.now) self.now }
    {
        if self.keys.len() <= FEW {
            seek(&self.keys, key)
        } else {
            self.places.get(key).copied()
        }
    }
}

impl<T: Ord + Drop> TreeSet<T> {
    /// Gives up the keys from this place on.
    pub fn truncate(&mut self, len: usize)
        ensures { self.new ≡ take len self.old }
    {
        while self.len() > len {
            self.pop();
        }
    }

    // Gives up the last key.
    fn pop(&mut self)
        ensures { self.new ≡ take (length self.old - 1) self.old }
    {
        if let Some(key) = self.keys.pop() {
            self.places.remove(&key);
        }
    }
}

impl<T: Ord + Clone + Drop> TreeSet<T> {
    /// Takes a key, if it is new: its place, and whether it is new.
    pub fn insert_full(&mut self, key: T) -> Result<(usize, bool), Memory>
        requires clones { (x y : T) → T.is_clone x y → y ≡ x }
        ensures keys { OnOk result (self.new ≡ insert_key T.eq self.old key) }
        ensures index { IfOk result (λ r. r.0 ≡ position_or_len (T.eq key) self.old) }
        ensures within { IfOk result (λ r. r.0 < length self.new) }
        ensures added { IfOk result (λ r. r.1 ≡ not (list_any (T.eq key) self.old)) }
        ensures unchanged { OnErr result (self.new ≡ self.old) }
    {
        match self.place(&key) {
            Some(place) => Ok((place, false)),
            None => add(&mut self.places, &mut self.keys, key),
        }
    }
}

// The place of a key among a few.
fn seek<T: Ord>(keys: &[T], key: &T) -> Option<usize>
    ensures { result ≡ position (T.eq key.now) keys.now }
{
    keys.iter().position(|known| *key == *known)
}

// Gives the next place to a key that is new.
fn add<T: Ord + Clone + Drop>(
    places: &mut BTreeMap<T, usize>,
    keys: &mut Vec<T>,
    key: T,
) -> Result<(usize, bool), Memory>
    requires clones { (x y : T) → T.is_clone x y → y ≡ x }
    requires placed { ArePlaced (eq_by_cmp T.cmp) (get T.cmp places.old) keys.old.items }
    ensures place { IfOk result (λ r. r ≡ (length keys.old.items, true)) }
    ensures keys { OnOk result (keys.new.items ≡ keys.old.items ++ key ∷ []) }
    ensures placed { OnOk result (8 ≤ length keys.old.items → FindsWith (eq_by_cmp T.cmp) (get T.cmp places.new) keys.old.items key) }
    ensures unchanged { OnErr result ((keys.new.items ≡ keys.old.items)
        × (8 < length keys.old.items → Finds (eq_by_cmp T.cmp) (get T.cmp places.new) keys.old.items)) }
{
    keys.reserve(1)?;
    let place = keys.len();
    note(places, keys, &key)?;
    keys.push_reserved(key);
    Ok((place, true))
}

// Notes that a new key has the next place, where it isn't among a few.
fn note<T: Ord + Clone + Drop>(
    places: &mut BTreeMap<T, usize>,
    keys: &[T],
    key: &T,
) -> Result<(), Memory>
    requires clones { (x y : T) → T.is_clone x y → y ≡ x }
    requires placed { ArePlaced (eq_by_cmp T.cmp) (get T.cmp places.old) keys.now }
    ensures placed { OnOk result (8 ≤ length keys.now → FindsWith (eq_by_cmp T.cmp) (get T.cmp places.new) keys.now key.now) }
    ensures unchanged { OnErr result (8 < length keys.now → Finds (eq_by_cmp T.cmp) (get T.cmp places.new) keys.now) }
{
    if keys.len() < FEW {
        Ok(())
    } else {
        note_in_tree(places, keys, key)
    }
}

// Notes in the tree that a new key has the next place.
fn note_in_tree<T: Ord + Clone + Drop>(
    places: &mut BTreeMap<T, usize>,
    keys: &[T],
    key: &T,
) -> Result<(), Memory>
    requires clones { (x y : T) → T.is_clone x y → y ≡ x }
    requires placed { ArePlaced (eq_by_cmp T.cmp) (get T.cmp places.old) keys.now }
    requires many { 8 ≤ length keys.now }
    ensures placed { OnOk result (FindsWith (eq_by_cmp T.cmp) (get T.cmp places.new) keys.now key.now) }
    ensures unchanged { OnErr result (8 < length keys.now → Finds (eq_by_cmp T.cmp) (get T.cmp places.new) keys.now) }
{
    ready(places, keys)?;
    let place = keys.len();
    let copy = key.clone()?;
    places.insert(copy, place)?;
    Ok(())
}

// Sees to it that the tree has each key, where there are as many as a few or more.
fn ready<T: Ord + Clone + Drop>(places: &mut BTreeMap<T, usize>, keys: &[T]) -> Result<(), Memory>
    requires clones { (x y : T) → T.is_clone x y → y ≡ x }
    requires placed { ArePlaced (eq_by_cmp T.cmp) (get T.cmp places.old) keys.now }
    requires many { 8 ≤ length keys.now }
    ensures ready { OnOk result (Finds (eq_by_cmp T.cmp) (get T.cmp places.new) keys.now) }
    ensures refused { OnErr result (length keys.now ≡ 8) }
{
    if keys.len() == FEW {
        fill(places, keys)
    } else {
        Ok(())
    }
}

// Makes the tree anew, of keys that stand once each.
fn fill<T: Ord + Clone + Drop>(places: &mut BTreeMap<T, usize>, keys: &[T]) -> Result<(), Memory>
    requires clones { (x y : T) → T.is_clone x y → y ≡ x }
    requires once { (n : ℕ) (x : T) → slice_get keys.now n ≡ Some x → place_of (eq_by_cmp T.cmp x) keys.now ≡ Some n }
    ensures { OnOk result (Finds (eq_by_cmp T.cmp) (get T.cmp places.new) keys.now) }
{
    places.clear();
    for at in 0..keys.len() {
        let copy = keys[at].clone()?;
        places.insert(copy, at)?;
    }
    Ok(())
}
