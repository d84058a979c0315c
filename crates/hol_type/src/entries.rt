//! Entries by number, each node once.
//!
//! The numbers stand in a tree of nodes in order. Nothing is hashed, so no choice of names makes a look-up long.
ghost use Rattle.std.specs.Prelude.{◌≡◌, ℕ, ◌<◌, ◌^◌, [], ◌∷◌, ◌++◌, length, take, Some, None, slice_get, true, vec_len, vec_capacity, IfOk, OnOk, OnErr};
ghost use Rattle.std.specs.BTreeMap.{Updates};
ghost use Rattle.hol_type.specs.declared.node.Node.{Node as ANode};
ghost use Rattle.hol_type.specs.Numbered.{node_cmp, number_in, AreAlike, IsInserted, AreNumbered};

use crate::node::{Entry, Node};
use common::Memory;
use std::alloc::Global;
use std::collections::BTreeMap;
use std::marker::Model;

/// Entries by number, each node once.
#[derive(Drop)]
pub(crate) struct Entries {
    alloc: Global,
    entries: Vec<Entry>,
    // The number of each node.
    numbers: BTreeMap<Node, usize>,
}

impl Model for Entries {
    ghost use Rattle.std.specs.Prelude.{List};
    ghost use Rattle.hol_type.specs.declared.node.Entry.{Entry as AnEntry};

    ghost Value = { List AnEntry };

    ghost use Rattle.hol_type.specs.Numbered.{number_in, AreNumbered};

    ghost view = { λ e. e.entries.items };

    ghost invariant = { λ e. AreNumbered e.entries.items (number_in e.numbers) };
}

impl Entries {
    /// No entry. It takes no memory.
    pub(crate) fn new(alloc: Global) -> Self
        ensures { result ≡ [] }
    {
        Entries {
            alloc,
            entries: Vec::new(alloc),
            numbers: BTreeMap::new(alloc),
        }
    }

    /// How many there are.
    pub(crate) fn len(&self) -> usize
        ensures { result ≡ length self.now }
    {
        self.entries.len()
    }

    /// The entry of a number.
    pub(crate) fn get(&self, index: usize) -> &Entry
        requires { index < length self.now }
        ensures { slice_get self.now index ≡ Some result.now }
    {
        &self.entries[index]
    }

    /// The number of the first entry with an equal node, or the next one if the node is new, and whether it is.
    pub(crate) fn insert_full(&mut self, entry: Entry) -> Result<(usize, bool), Memory>
        ensures inserted { IfOk result (λ r. IsInserted self.old self.new entry r.0 r.1) }
        ensures unchanged { OnErr result (self.new ≡ self.old) }
    {
        match find(&self.numbers, &entry.node) {
            Some(number) => {
                drop(entry);
                Ok((number, false))
            }
            None => {
                let number = put(self.alloc, &mut self.entries, &mut self.numbers, entry)?;
                Ok((number, true))
            }
        }
    }

    /// Gives up all entries from the number `len` on.
    pub(crate) fn truncate(&mut self, len: usize)
        ensures { self.new ≡ take len self.old }
    {
        forget(&self.entries, &mut self.numbers, len);
        self.entries.truncate(len);
    }
}

// The number of a node.
fn find(numbers: &BTreeMap<Node, usize>, node: &Node) -> Option<usize>
    ensures { result ≡ number_in numbers.now node.now }
{
    numbers.get(node).copied()
}

// The node, copied.
fn copied(alloc: Global, node: &Node) -> Result<Node, Memory>
    ensures { IfOk result (λ copy. AreAlike copy node.now) }
{
    match node {
        Node::Var(name) => Ok(Node::Var(name.clone()?)),
        Node::Op(name, args) => {
            let name = name.clone()?;
            match Vec::from_slice(alloc, args) {
                Ok(args) => Ok(Node::Op(name, args)),
                Err(_) => Err(Memory),
            }
        }
    }
}

// Gives the next number to a node that has none, with room for its entry.
fn give_number(
    alloc: Global,
    entries: &mut Vec<Entry>,
    numbers: &mut BTreeMap<Node, usize>,
    node: &Node,
) -> Result<usize, Memory>
    ensures number { IfOk result (λ n. n ≡ length entries.old.items) }
    ensures entries { entries.new.items ≡ entries.old.items }
    ensures room { OnOk result (vec_len entries.new < vec_capacity entries.new) }
    ensures numbers { OnOk result ((copy : ANode) × AreAlike copy node.now × Updates node_cmp numbers.old numbers.new copy (Some (length entries.old.items))) }
    ensures unchanged { OnErr result (numbers.new.entries ≡ numbers.old.entries) }
{
    entries.reserve(1)?;
    let number = entries.len();
    let key = copied(alloc, node)?;
    numbers.insert(key, number)?;
    Ok(number)
}

// Puts a new entry last.
fn put(
    alloc: Global,
    entries: &mut Vec<Entry>,
    numbers: &mut BTreeMap<Node, usize>,
    entry: Entry,
) -> Result<usize, Memory>
    ensures number { IfOk result (λ n. n ≡ length entries.old.items) }
    ensures entries { OnOk result (entries.new.items ≡ entries.old.items ++ entry ∷ []) }
    ensures numbers { OnOk result ((copy : ANode) × AreAlike copy entry.node × Updates node_cmp numbers.old numbers.new copy (Some (length entries.old.items))) }
    ensures unchanged { OnErr result ((entries.new.items ≡ entries.old.items) × (numbers.new.entries ≡ numbers.old.entries)) }
{
    match give_number(alloc, entries, numbers, &entry.node) {
        Ok(number) => {
            entries.push_reserved(entry);
            Ok(number)
        }
        Err(memory) => {
            drop(entry);
            Err(memory)
        }
    }
}

// Takes the nodes from the number `len` on out of the tree of nodes.
fn forget(entries: &[Entry], numbers: &mut BTreeMap<Node, usize>, len: usize)
    requires { AreNumbered entries.now (number_in numbers.old) }
    ensures stay { (s : ANode) (n : ℕ) → n < len → number_in numbers.old s ≡ Some n → number_in numbers.new s ≡ Some n }
    ensures go { (s : ANode) (n : ℕ) → number_in numbers.new s ≡ Some n → (number_in numbers.old s ≡ Some n) × (n < len) }
{
    for number in len..entries.len() {
        numbers.remove(&entries[number].node);
    }
}
