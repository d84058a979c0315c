//! What a walk found for its keys, noted so that each is found once.
ghost use Rattle.std.specs.Prelude.{◌≡◌, ◌⊎◌, true, length, IfSome, IfNone, OnOk, OnErr};
ghost use Rattle.std.specs.List.{find};
ghost use Rattle.std.specs.Option.{option_map};
ghost use Rattle.tree_map.specs.Noted.{IsNoted};

use common::Memory;
use std::alloc::Global;
use std::collections::BTreeMap;
use std::marker::Model;

// How many pairs are looked through in order. Those that come later are found by the tree.
const FEW: usize = 8;

/// A key that is equal by `==` to itself alone.
pub trait Key: Copy + Ord {
    ghost exact: { (x y : Self) → Self.eq x y ≡ true → x ≡ y };
}

/// Values that were noted for keys. Contracts see the list of the pairs of a key and its value.
#[derive(Drop)]
pub struct Memo<K: Ord, V> {
    // The first pairs, as many as a few.
    few: Vec<(K, V)>,
    // The later ones.
    many: BTreeMap<K, V>,
}

impl<K: Ord, V> Model for Memo<K, V> {
    ghost use Rattle.std.specs.Prelude.{List, ◌++◌};

    ghost Value = { List (K × V) };

    ghost view = { λ m. m.many.entries ++ m.few.items };
}

impl<K: Key, V: Copy> Memo<K, V> {
    /// Nothing is noted. It takes no memory.
    pub fn new(alloc: Global) -> Self
        ensures empty { (k : K) (v : V) → IsNoted result k v → ⊥ }
    {
        Memo {
            few: Vec::new(alloc),
            many: BTreeMap::new(alloc),
        }
    }

    /// A value that was noted for a key.
    pub fn find(&self, key: K) -> Option<V>
        ensures noted { IfSome result (λ v. IsNoted self.now key v) }
        ensures absent { IfNone result ((v : V) → IsNoted self.now key v → ⊥) }
    {
        match self.many.get(&key).copied() {
            Some(value) => Some(value),
            None => match seek(&self.few, key) {
                Some(pair) => Some(pair.1),
                None => None,
            },
        }
    }

    /// Notes a value for a key. After want of memory the same is noted as before.
    pub fn note(&mut self, key: K, value: V) -> Result<(), Memory>
        ensures noted { OnOk result ((k : K) (v : V) → IsNoted self.new k v → IsNoted self.old k v ⊎ ((k ≡ key) × (v ≡ value))) }
        ensures new { OnOk result (IsNoted self.new key value) }
        ensures kept { OnOk result ((k : K) (v : V) → IsNoted self.old k v → (k ≡ key) ⊎ IsNoted self.new k v) }
        ensures unchanged { OnErr result (self.new ≡ self.old) }
    {
        if self.few.len() < FEW {
            self.few.push((key, value))?;
            return Ok(());
        }
        self.many.insert(key, value)?;
        Ok(())
    }

    /// How many pairs are noted.
    pub fn len(&self) -> usize
        ensures count { result ≡ length self.now }
    {
        self.many.len() + self.few.len()
    }

    /// Forgets all that is noted.
    pub fn clear(&mut self)
        ensures empty { (k : K) (v : V) → IsNoted self.new k v → ⊥ }
    {
        self.many.clear();
        self.few.clear();
    }
}

// The first pair of a key among a few.
fn seek<K: Key, V: Copy>(few: &[(K, V)], key: K) -> Option<&(K, V)>
    ensures { option_map (λ e. e.now) result ≡ find (λ e. K.eq key e.0) few.now }
{
    few.iter().find(|pair| key == pair.0)
}
