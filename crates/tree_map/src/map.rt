//! Maps in the order in which their keys came.
ghost use Rattle.std.specs.Prelude.{◌≡◌, ◌<◌, ◌^◌, [], length, take, slice_get, OnOk, OnErr};
ghost use Rattle.std.specs.List.{zip};
ghost use Rattle.std.specs.Map.{lookup};
ghost use Rattle.tree_map.specs.Entries.{insert_entry};

use crate::set::TreeSet;
use common::Memory;
use std::alloc::Global;
use std::marker::Model;

/// Keys with a value each, in the order in which the keys came. Contracts see the list of the pairs.
#[derive(Drop)]
pub struct TreeMap<K: Ord, V> {
    keys: TreeSet<K>,
    // The value of each key, at its place.
    values: Vec<V>,
}

impl<K: Ord, V> Model for TreeMap<K, V> {
    ghost use Rattle.std.specs.Prelude.{◌≡◌, List, length};
    ghost use Rattle.std.specs.List.{zip};

    ghost Value = { List (K × V) };

    ghost view = { λ m. zip m.keys m.values.items };

    ghost invariant = { λ m. length m.values.items ≡ length m.keys };
}

impl<K: Ord, V> TreeMap<K, V> {
    /// No key. It takes no memory.
    pub fn new(alloc: Global) -> Self
        ensures empty { result ≡ [] }
    {
        TreeMap {
            keys: TreeSet::new(alloc),
            values: Vec::new(alloc),
        }
    }

    /// How many keys there are.
    pub fn len(&self) -> usize
        ensures count { result ≡ length self.now }
        ensures small { result < 2 ^ 63 }
    {
        self.keys.len()
    }

    /// The value of a key.
    pub fn get(&self, key: &K) -> Option<V>
    where
        V: Copy,
        ensures { result ≡ lookup (K.eq key.now) self.now }
    {
        match self.keys.place(key) {
            Some(place) => value_at(&self.values, place),
            None => None,
        }
    }
}

impl<K: Ord + Drop, V: Drop> TreeMap<K, V> {
    /// Gives up the keys from this place on.
    pub fn truncate(&mut self, len: usize)
        ensures { self.new ≡ take len self.old }
    {
        self.keys.truncate(len);
        self.values.truncate(len);
    }
}

impl<K: Ord + Clone + Drop, V: Drop> TreeMap<K, V> {
    /// Gives a key this value. A key that is there keeps its place, and a new one goes last.
    pub fn insert(&mut self, key: K, value: V) -> Result<(), Memory>
        requires clones { (x y : K) → K.is_clone x y → y ≡ x }
        ensures entries { OnOk result (self.new ≡ insert_entry K.eq self.old key value) }
        ensures unchanged { OnErr result (self.new ≡ self.old) }
    {
        put(&mut self.keys, &mut self.values, key, value)
    }
}

// The value at a place.
fn value_at<V: Copy>(values: &[V], place: usize) -> Option<V>
    ensures { result ≡ slice_get values.now place }
{
    values.get(place).copied()
}

// Gives a key this value.
fn put<K: Ord + Clone + Drop, V: Drop>(
    keys: &mut TreeSet<K>,
    values: &mut Vec<V>,
    key: K,
    value: V,
) -> Result<(), Memory>
    requires clones { (x y : K) → K.is_clone x y → y ≡ x }
    requires even { length values.old.items ≡ length keys.old }
    ensures entries { OnOk result (zip keys.new values.new.items ≡ insert_entry K.eq (zip keys.old values.old.items) key value) }
    ensures still_even { length values.new.items ≡ length keys.new }
    ensures unchanged { OnErr result ((keys.new ≡ keys.old) × (values.new.items ≡ values.old.items)) }
{
    values.reserve(1)?;
    let (place, is_new) = keys.insert_full(key)?;
    if is_new {
        values.push_reserved(value);
    } else {
        values[place] = value;
    }
    Ok(())
}
