//! Entries by number, each node once, and where each is found.
//!
//! A tree has a higher number than its parts, and most trees are made soon after them. So a node with parts stands with
//! the greatest of its parts, as far as there is room: to look for it reads what was written last. Where there is no
//! room, and where a node has no parts, it stands in a tree of nodes in order. Nothing is hashed, so no choice of names
//! and numbers makes a look-up long.
ghost use Rattle.std.specs.Prelude.{◌≡◌, ℕ, ◌<◌, ◌-◌, ◌^◌, [], ◌∷◌, ◌++◌, length, take, Some, slice_get, slice_set, vec_len, vec_capacity, IfOk, OnOk, OnErr};
ghost use Rattle.std.specs.Bool.{OnTrue, OnFalse};
ghost use Rattle.std.specs.BTreeMap.{Updates};
ghost use Rattle.hol_term.specs.declared.node.Node.{Node as ANode};
ghost use Rattle.hol_term.specs.declared.entries.Children.{Children as AChildren};
ghost use Rattle.hol_term.specs.Indexed.{node_cmp, nodes_of, greater_part as greater_part_of, kept_in, nothing, no_children, with_child, HasRoom, Has, Finds, FindsNumber, FindsOther, Forgets, IsInserted, IsIndexed};

use crate::node::{Entry, Node};
use common::Memory;
use std::alloc::Global;
use std::collections::BTreeMap;
use std::marker::Model;

// The number of no node.
const NONE: u32 = u32::MAX;

/// The nodes that stand with the greatest of their parts, by their numbers: the first three.
#[derive(Clone, Copy)]
pub(crate) struct Children {
    pub(crate) first: u32,
    pub(crate) second: u32,
    pub(crate) third: u32,
}

/// Where a node is, or where it is to be put.
#[derive(Clone, Copy)]
pub(crate) enum Slot {
    /// It has this number.
    At(usize),
    /// With this part of its own.
    With(usize),
    /// In the tree of nodes.
    Apart,
}

/// Entries by number, each node once.
#[derive(Drop)]
pub(crate) struct Entries {
    entries: Vec<Entry>,
    children: Vec<Children>,
    others: BTreeMap<Node, usize>,
}

impl Model for Entries {
    ghost use Rattle.std.specs.Prelude.{List};
    ghost use Rattle.hol_term.specs.declared.node.Entry.{Entry as AnEntry};

    ghost Value = { List AnEntry };

    ghost use Rattle.hol_term.specs.Indexed.{nodes_of, kept_in, IsIndexed};

    ghost view = { λ e. e.entries.items };

    ghost invariant = { λ e. IsIndexed (nodes_of e.entries.items) e.children.items (kept_in e.others) };
}

impl Entries {
    /// No entry. It takes no memory.
    pub(crate) fn new(alloc: Global) -> Self
        ensures { result ≡ [] }
    {
        Entries {
            entries: Vec::new(alloc),
            children: Vec::new(alloc),
            others: BTreeMap::new(alloc),
        }
    }

    /// How many there are.
    pub(crate) fn len(&self) -> usize
        ensures count { result ≡ length self.now }
        ensures small { length self.now < 2 ^ 63 }
    {
        self.entries.len()
    }

    /// The entry of a number.
    pub(crate) fn get(&self, index: usize) -> &Entry
        requires { index < length self.now }
        ensures { slice_get self.now index ≡ Some result.now }
    {
        &self.entries[index]
    }

    /// The number of a node, if it has one.
    pub(crate) fn number_of(&self, node: &Node) -> Option<usize>
        ensures { FindsNumber (nodes_of self.now) node.now result }
    {
        match find(&self.entries, &self.children, &self.others, node) {
            Slot::At(number) => Some(number),
            Slot::With(_) | Slot::Apart => None,
        }
    }

    /// The number of the first entry with an equal node, or the next one if the node is new, and whether it is.
    pub(crate) fn insert_full(&mut self, entry: Entry) -> Result<(usize, bool), Memory>
        requires { (part : ℕ) → greater_part_of entry.node ≡ Some part → part < length self.old }
        ensures inserted { IfOk result (λ r. IsInserted self.old self.new entry r.0 r.1) }
        ensures unchanged { OnErr result (self.new ≡ self.old) }
    {
        match find(&self.entries, &self.children, &self.others, &entry.node) {
            Slot::At(number) => {
                drop(entry);
                Ok((number, false))
            }
            Slot::With(part) => {
                let number = put_with(&mut self.entries, &mut self.children, entry, part)?;
                Ok((number, true))
            }
            Slot::Apart => {
                let number = put_apart(
                    &mut self.entries,
                    &mut self.children,
                    &mut self.others,
                    entry,
                )?;
                Ok((number, true))
            }
        }
    }

    /// Gives up all entries from the number `len` on.
    pub(crate) fn truncate(&mut self, len: usize)
        ensures { self.new ≡ take len self.old }
    {
        forget(&self.entries, &mut self.others, len);
        self.children.truncate(len);
        self.entries.truncate(len);
    }
}

// The greatest part of a node, if it has parts.
fn greater_part(node: &Node) -> Option<usize>
    ensures { result ≡ greater_part_of node.now }
{
    match node {
        Node::App(f, x) => Some(f.0.max(x.0)),
        Node::Lam(_, body) => Some(body.0),
        Node::Free(..) | Node::Bound(_) | Node::Const(..) => None,
    }
}

// Whether a number is that of the node.
fn has(entries: &[Entry], number: u32, node: &Node) -> bool
    ensures yes { OnTrue result (Has (nodes_of entries.now) number node.now) }
    ensures no { OnFalse result (Has (nodes_of entries.now) number node.now → ⊥) }
{
    match entries.get(number as usize) {
        Some(entry) => entry.node == *node,
        None => false,
    }
}

// Whether one more node can stand with these, where there are `count` nodes.
fn has_room(with: Children, count: usize) -> bool
    ensures room { OnTrue result (HasRoom with) }
    ensures few { OnTrue result (count < nothing) }
    ensures no { OnFalse result (HasRoom with → count < nothing → ⊥) }
{
    with.third == NONE && count < NONE as usize
}

// Where a node is that does not stand with its greatest part, or is to be put.
fn find_other(others: &BTreeMap<Node, usize>, node: &Node) -> Slot
    ensures { FindsOther (kept_in others.now) node.now result }
{
    match others.get(node) {
        Some(number) => Slot::At(*number),
        None => Slot::Apart,
    }
}

// Where a node with parts is, or is to be put.
fn find_with(
    entries: &[Entry],
    children: &[Children],
    others: &BTreeMap<Node, usize>,
    node: &Node,
    part: usize,
) -> Slot
    requires indexed { IsIndexed (nodes_of entries.now) children.now (kept_in others.now) }
    requires part { greater_part_of node.now ≡ Some part }
    ensures { Finds (nodes_of entries.now) children.now node.now result }
{
    let Some(with) = children.get(part) else {
        return find_other(others, node);
    };
    let with = *with;
    if has(entries, with.first, node) {
        return Slot::At(with.first as usize);
    }
    if has(entries, with.second, node) {
        return Slot::At(with.second as usize);
    }
    if has(entries, with.third, node) {
        return Slot::At(with.third as usize);
    }
    if has_room(with, entries.len()) {
        return Slot::With(part);
    }
    find_other(others, node)
}

// Where a node is, or is to be put.
fn find(
    entries: &[Entry],
    children: &[Children],
    others: &BTreeMap<Node, usize>,
    node: &Node,
) -> Slot
    requires { IsIndexed (nodes_of entries.now) children.now (kept_in others.now) }
    ensures { Finds (nodes_of entries.now) children.now node.now result }
{
    match greater_part(node) {
        Some(part) => find_with(entries, children, others, node, part),
        None => find_other(others, node),
    }
}

// One more child, where there is room.
fn with_one_more(children: Children, child: u32) -> Children
    ensures { result ≡ with_child children child }
{
    let mut with = children;
    if with.first == NONE {
        with.first = child;
    } else if with.second == NONE {
        with.second = child;
    } else {
        with.third = child;
    }
    with
}

// A node that has no children.
fn childless() -> Children
    ensures { result ≡ no_children }
{
    Children {
        first: NONE,
        second: NONE,
        third: NONE,
    }
}

// The node, copied.
fn copied(node: &Node) -> Result<Node, Memory>
    ensures { IfOk result (λ copy. copy ≡ node.now) }
{
    match node {
        Node::Free(name, ty) => Ok(Node::Free(name.clone()?, *ty)),
        Node::Bound(n) => Ok(Node::Bound(*n)),
        Node::Const(name, ty) => Ok(Node::Const(name.clone()?, *ty)),
        Node::App(f, x) => Ok(Node::App(*f, *x)),
        Node::Lam(ty, body) => Ok(Node::Lam(*ty, *body)),
    }
}

// Puts a new entry last, with its node's greatest part, which has room.
fn put_with(
    entries: &mut Vec<Entry>,
    children: &mut Vec<Children>,
    entry: Entry,
    part: usize,
) -> Result<usize, Memory>
    requires part { part < length children.old.items }
    requires few { length entries.old.items < nothing }
    ensures number { IfOk result (λ n. n ≡ length entries.old.items) }
    ensures entries { OnOk result (entries.new.items ≡ entries.old.items ++ entry ∷ []) }
    ensures children { OnOk result ((c : AChildren) → slice_get children.old.items part ≡ Some c
        → children.new.items ≡ slice_set (children.old.items ++ no_children ∷ []) part (with_child c (length entries.old.items))) }
    ensures unchanged { OnErr result ((entries.new.items ≡ entries.old.items) × (children.new.items ≡ children.old.items)) }
{
    match reserve(entries, children) {
        Ok(()) => {
            let number = entries.len();
            let with = children[part];
            children.push_reserved(childless());
            children[part] = with_one_more(with, number as u32);
            entries.push_reserved(entry);
            Ok(number)
        }
        Err(memory) => {
            drop(entry);
            Err(memory)
        }
    }
}

// Puts a new entry last, and its node into the tree of nodes.
fn put_apart(
    entries: &mut Vec<Entry>,
    children: &mut Vec<Children>,
    others: &mut BTreeMap<Node, usize>,
    entry: Entry,
) -> Result<usize, Memory>
    ensures number { IfOk result (λ n. n ≡ length entries.old.items) }
    ensures entries { OnOk result (entries.new.items ≡ entries.old.items ++ entry ∷ []) }
    ensures children { OnOk result (children.new.items ≡ children.old.items ++ no_children ∷ []) }
    ensures others { OnOk result (Updates node_cmp others.old others.new entry.node (Some (length entries.old.items))) }
    ensures unchanged { OnErr result ((entries.new.items ≡ entries.old.items) × (children.new.items ≡ children.old.items)
        × (others.new.entries ≡ others.old.entries)) }
{
    match number_apart(entries, children, others, &entry.node) {
        Ok(number) => {
            children.push_reserved(childless());
            entries.push_reserved(entry);
            Ok(number)
        }
        Err(memory) => {
            drop(entry);
            Err(memory)
        }
    }
}

// Room for one entry more.
fn reserve(entries: &mut Vec<Entry>, children: &mut Vec<Children>) -> Result<(), Memory>
    ensures entries { entries.new.items ≡ entries.old.items }
    ensures children { children.new.items ≡ children.old.items }
    ensures room { OnOk result (vec_len entries.new < vec_capacity entries.new) }
    ensures child_room { OnOk result (vec_len children.new < vec_capacity children.new) }
{
    entries.reserve(1)?;
    children.reserve(1)?;
    Ok(())
}

// Gives the next number to a node in the tree of nodes, with room for its entry.
fn number_apart(
    entries: &mut Vec<Entry>,
    children: &mut Vec<Children>,
    others: &mut BTreeMap<Node, usize>,
    node: &Node,
) -> Result<usize, Memory>
    ensures number { IfOk result (λ n. n ≡ length entries.old.items) }
    ensures entries { entries.new.items ≡ entries.old.items }
    ensures children { children.new.items ≡ children.old.items }
    ensures room { OnOk result (vec_len entries.new < vec_capacity entries.new) }
    ensures child_room { OnOk result (vec_len children.new < vec_capacity children.new) }
    ensures others { OnOk result (Updates node_cmp others.old others.new node.now (Some (length entries.old.items))) }
    ensures unchanged { OnErr result (others.new.entries ≡ others.old.entries) }
{
    reserve(entries, children)?;
    let number = entries.len();
    let key = copied(node)?;
    others.insert(key, number)?;
    Ok(number)
}

// Takes the nodes from the number `len` on out of the tree of nodes.
fn forget(entries: &[Entry], others: &mut BTreeMap<Node, usize>, len: usize)
    requires { (n : ℕ) (s : ANode) → kept_in others.old s ≡ Some n → Has (nodes_of entries.now) n s }
    ensures stay { (s : ANode) (n : ℕ) → n < len → kept_in others.old s ≡ Some n → kept_in others.new s ≡ Some n }
    ensures go { (s : ANode) (n : ℕ) → kept_in others.new s ≡ Some n → (kept_in others.old s ≡ Some n) × (n < len) }
{
    for number in len..entries.len() {
        forget_node(others, &entries[number].node, number);
    }
}

// Takes a node out of the tree of nodes, if it has this number there.
fn forget_node(others: &mut BTreeMap<Node, usize>, node: &Node, number: usize)
    ensures { Forgets (kept_in others.old) (kept_in others.new) node.now number }
{
    if let Some(kept) = others.get(node) {
        if *kept == number {
            others.remove(node);
        }
    }
}
