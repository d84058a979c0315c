//! The names that have numbers.
ghost use Rattle.std.specs.Prelude.{◌≡◌, ◌<◌, ◌^◌, ◌++◌, ◌∷◌, [], ℕ, List, if◌then◌else◌, length, get_or, slice_get, position, Option, Some, IfOk, OnOk, OnErr};
ghost use Rattle.std.specs.Str.{bytes_eq};
ghost use Rattle.std.specs.Ordering.{nat_cmp};
ghost use Rattle.std.specs.BTreeMap.{get, Updates};
ghost use Rattle.name_table.specs.Spellings.{unpacked, IsShort};
ghost use Rattle.name_table.specs.Places.{get_long, with_name, ArePlaced};

use crate::recent::{guess_long, guess_short, note_long, note_short, widen};
use crate::spelling::{SHORT, Spelling, packed};
use common::Memory;
use std::alloc::Global;
use std::collections::BTreeMap;
use std::marker::Model;

/// Names by number, each of them once, in the order in which they came.
#[derive(Drop)]
pub struct NameTable {
    alloc: Global,
    // The number of each short name, by the number of its bytes.
    shorts: BTreeMap<u128, usize>,
    // The number of each longer name.
    longs: BTreeMap<Vec<u8>, usize>,
    names: Vec<Spelling>,
    // Numbers that were lately asked for, if they are below 2^32.
    recent: Vec<u32>,
}

impl Model for NameTable {
    ghost use Rattle.std.specs.Prelude.{List, ℕ};
    ghost use Rattle.std.specs.Ordering.{nat_cmp};
    ghost use Rattle.std.specs.BTreeMap.{get};

    ghost Value = { List (List ℕ) };

    ghost use Rattle.name_table.specs.Places.{get_long, ArePlaced};

    ghost view = { λ t. t.names.items };

    ghost invariant = { λ t. ArePlaced (get nat_cmp t.shorts) (get_long t.longs) t.names.items };
}

impl NameTable {
    /// No name. It takes no memory.
    pub fn new(alloc: Global) -> Self
        ensures { result ≡ [] }
    {
        NameTable {
            alloc,
            shorts: BTreeMap::new(alloc),
            longs: BTreeMap::new(alloc),
            names: Vec::new(alloc),
            recent: Vec::new(alloc),
        }
    }

    /// How many names there are.
    pub fn len(&self) -> usize
        ensures count { result ≡ length self.now }
        ensures small { result < 2 ^ 63 }
    {
        self.names.len()
    }

    /// The number of a name, if it has one. It takes no memory.
    pub fn find(&self, name: &[u8]) -> Option<usize>
        ensures { result ≡ position (λ n. bytes_eq n name.now) self.now }
    {
        if name.len() <= SHORT {
            self.find_short(packed(name))
        } else {
            self.find_long(name)
        }
    }

    /// The number of a name, the next one if it is new.
    pub fn number(&mut self, name: &[u8]) -> Result<usize, Memory>
        ensures number { IfOk result (λ number. slice_get self.new number ≡ Some name.now) }
        ensures names { OnOk result (self.new ≡ with_name self.old name.now) }
        ensures unchanged { OnErr result (self.new ≡ self.old) }
    {
        if name.len() <= SHORT {
            self.number_short(packed(name))
        } else {
            self.number_long(name)
        }
    }

    /// Makes room for so many names more. The table stays as it is.
    pub fn reserve(&mut self, more: usize) -> Result<(), Memory>
        ensures { self.new ≡ self.old }
    {
        self.names.reserve(more)?;
        Ok(())
    }

    /// The bytes of a name, copied: none for a number that no name has.
    pub fn copied(&self, number: usize) -> Result<Vec<u8>, Memory>
        ensures { IfOk result (λ bytes. bytes.items ≡ get_or self.now number []) }
    {
        match self.names.get(number) {
            Some(name) => name.copied(self.alloc),
            None => Ok(Vec::new(self.alloc)),
        }
    }

    // The number of the short name that is this number, if it has one.
    fn find_short(&self, key: u128) -> Option<usize>
        requires { IsShort key }
        ensures { result ≡ position (λ n. bytes_eq n (unpacked key)) self.now }
    {
        match guess_short(&self.names, &self.recent, key) {
            Some(number) => Some(number),
            None => self.shorts.get(&key).copied(),
        }
    }

    // The number of a name that is not short, if it has one.
    fn find_long(&self, name: &[u8]) -> Option<usize>
        requires { 15 < length name.now }
        ensures { result ≡ position (λ n. bytes_eq n name.now) self.now }
    {
        match guess_long(&self.names, &self.recent, name) {
            Some(number) => Some(number),
            None => self.longs.get(name).copied(),
        }
    }

    // The number of the short name that is this number, the next one if it is new.
    fn number_short(&mut self, key: u128) -> Result<usize, Memory>
        requires { IsShort key }
        ensures number { IfOk result (λ number. slice_get self.new number ≡ Some (unpacked key)) }
        ensures names { OnOk result (self.new ≡ with_name self.old (unpacked key)) }
        ensures unchanged { OnErr result (self.new ≡ self.old) }
    {
        if let Some(number) = guess_short(&self.names, &self.recent, key) {
            return Ok(number);
        }
        let number = number_by_shorts(&mut self.shorts, &mut self.names, key)?;
        widen(&mut self.recent, &self.names);
        note_short(&mut self.recent, key, number);
        Ok(number)
    }

    // The number of a name that is not short, the next one if it is new.
    fn number_long(&mut self, name: &[u8]) -> Result<usize, Memory>
        requires { 15 < length name.now }
        ensures number { IfOk result (λ number. slice_get self.new number ≡ Some name.now) }
        ensures names { OnOk result (self.new ≡ with_name self.old name.now) }
        ensures unchanged { OnErr result (self.new ≡ self.old) }
    {
        if let Some(number) = guess_long(&self.names, &self.recent, name) {
            return Ok(number);
        }
        let number = number_by_longs(self.alloc, &mut self.longs, &mut self.names, name)?;
        widen(&mut self.recent, &self.names);
        note_long(&mut self.recent, name, number);
        Ok(number)
    }
}

// The number of the short name that is this number, the next one if it is new.
fn number_by_shorts(
    shorts: &mut BTreeMap<u128, usize>,
    names: &mut Vec<Spelling>,
    key: u128,
) -> Result<usize, Memory>
    requires short { IsShort key }
    requires found { get nat_cmp shorts.old key ≡ position (λ n. bytes_eq n (unpacked key)) names.old.items }
    ensures number { IfOk result (λ number. slice_get names.new.items number ≡ Some (unpacked key)) }
    ensures names { OnOk result (names.new.items ≡ with_name names.old.items (unpacked key)) }
    ensures placed { (long : List ℕ → Option ℕ) → ArePlaced (get nat_cmp shorts.old) long names.old.items
        → ArePlaced (get nat_cmp shorts.new) long names.new.items }
    ensures unchanged { OnErr result (names.new.items ≡ names.old.items) }
{
    match shorts.get(&key) {
        Some(number) => Ok(*number),
        None => add_short(shorts, names, key),
    }
}

// The number of a name that is not short, the next one if it is new.
fn number_by_longs(
    alloc: Global,
    longs: &mut BTreeMap<Vec<u8>, usize>,
    names: &mut Vec<Spelling>,
    name: &[u8],
) -> Result<usize, Memory>
    requires long { 15 < length name.now }
    requires found { get_long longs.old name.now ≡ position (λ n. bytes_eq n name.now) names.old.items }
    ensures number { IfOk result (λ number. slice_get names.new.items number ≡ Some name.now) }
    ensures names { OnOk result (names.new.items ≡ with_name names.old.items name.now) }
    ensures placed { (short : ℕ → Option ℕ) → ArePlaced short (get_long longs.old) names.old.items → ArePlaced short (get_long longs.new) names.new.items }
    ensures unchanged { OnErr result (names.new.items ≡ names.old.items) }
{
    match longs.get(name) {
        Some(number) => Ok(*number),
        None => add_long(alloc, longs, names, name),
    }
}

// Gives the next number to the short name that is this number.
fn add_short(
    shorts: &mut BTreeMap<u128, usize>,
    names: &mut Vec<Spelling>,
    key: u128,
) -> Result<usize, Memory>
    requires { IsShort key }
    ensures number { IfOk result (λ number. number ≡ length names.old.items) }
    ensures names { OnOk result (names.new.items ≡ names.old.items ++ unpacked key ∷ []) }
    ensures placed { OnOk result (Updates nat_cmp shorts.old shorts.new key (Some (length names.old.items))) }
    ensures unchanged { OnErr result ((names.new.items ≡ names.old.items) × (shorts.new.entries ≡ shorts.old.entries)) }
{
    names.reserve(1)?;
    let number = names.len();
    shorts.insert(key, number)?;
    names.push_reserved(Spelling::short(key));
    Ok(number)
}

// Gives the next number to a name that is not short.
fn add_long(
    alloc: Global,
    longs: &mut BTreeMap<Vec<u8>, usize>,
    names: &mut Vec<Spelling>,
    name: &[u8],
) -> Result<usize, Memory>
    requires { 15 < length name.now }
    ensures number { IfOk result (λ number. number ≡ length names.old.items) }
    ensures names { OnOk result (names.new.items ≡ names.old.items ++ name.now ∷ []) }
    ensures placed { OnOk result ((x : List ℕ) → get_long longs.new x ≡ (if bytes_eq name.now x then Some (length names.old.items) else get_long longs.old x)) }
    ensures unchanged { OnErr result ((names.new.items ≡ names.old.items) × (longs.new.entries ≡ longs.old.entries)) }
{
    names.reserve(1)?;
    let number = names.len();
    let key = Vec::from_slice(alloc, name)?;
    let spelling = Spelling::long(alloc, name)?;
    longs.insert(key, number)?;
    names.push_reserved(spelling);
    Ok(number)
}
