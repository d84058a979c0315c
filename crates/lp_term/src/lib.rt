//! Trees of the lambda-Pi calculus, each kept once under a number.
//!
//! A table's value is the list of its trees, by number: two numbers are equal exactly where their trees are. A
//! call that makes trees keeps every number that was given before, and after want of memory the table is as
//! before. Walks keep a stack of their own, so a deep tree costs memory and nothing else.
//!
//! ```
//! let mut table = LpTable::new(alloc);
//! let zero = table.node(LpNode::Var(0))?;
//! let three = table.lift(3, zero)?;
//! ```
#![tactic(auto)]

ghost use Rattle.std.specs.Prelude.{◌≡◌, ◌<◌, ◌≤◌, ◌^◌, ◌-◌, ◌+◌, [], length, min, max, take, IfOk, OnErr};
ghost use Rattle.std.specs.Bool.{OnTrue};
ghost use Rattle.lp_spec.specs.Trees.{size as size_of, depth as depth_of, loose as loose_of, lift as lift_tree, put as put_tree, put_all as put_all_trees};
ghost use Rattle.lp_term.specs.Tables.{tree_at, trees_at, tree_of_node, AreKnown, PartsBelow, Holds, Keeps, Adds, IsDistinct};
ghost use Rattle.lp_term.specs.Shapes.{node_of};
ghost use Rattle.lp_term.specs.Measured.{IsMeasured};

mod binding;
mod measures;
mod memo;
mod recent;
mod shape;
mod shapes;
mod walk;

use crate::measures::{Column, Measures, push_measures};
use crate::memo::{Change, Place};
use crate::shape::Shape;
use crate::shapes::Shapes;
use common::Memory;
use std::alloc::Global;
use std::marker::Model;

/// The number of a tree in its table. A number that no call of the table gave means nothing there.
#[derive(Clone, Copy, Debug, PartialEq, Eq, PartialOrd, Ord, Hash)]
pub struct LpId(pub usize);

/// The head of a tree, with the numbers of its parts.
#[derive(Clone, Copy, Debug, PartialEq, Eq, Hash)]
pub enum LpNode {
    /// The sort of types, `Type`.
    SortType,
    /// The sort of `Type`, which no source text can name.
    SortKind,
    /// A variable: the number of binders between it and its own.
    Var(u128),
    /// A symbol, by its number in the module.
    Sym(usize),
    /// A function and its argument.
    App(LpId, LpId),
    /// An abstraction: its variable's type and its body.
    Lam(LpId, LpId),
    /// A product: its variable's type and its body.
    Pi(LpId, LpId),
}

/// A table of trees.
#[derive(Drop)]
pub struct LpTable {
    alloc: Global,
    shapes: Shapes,
    measures: Column,
}

impl Model for LpTable {
    ghost use Rattle.std.specs.Prelude.{List};
    ghost use Rattle.std.specs.Coded.{coded_list};
    ghost use Rattle.lp_spec.specs.Trees.{Tree};
    ghost use Rattle.lp_spec.specs.TreeCode.{coded_tree};

    ghost Value = { List Tree };

    ghost coded = { coded_list coded_tree };

    ghost use Rattle.lp_term.specs.Columns.{trees_of, IsTable};

    ghost view = { λ t. trees_of t.shapes };

    ghost invariant = { λ t. IsTable t.shapes t.measures };
}

impl LpTable {
    /// An empty table. It takes no memory.
    pub fn new(alloc: Global) -> Self
        ensures empty { result ≡ [] }
    {
        LpTable {
            alloc,
            shapes: Shapes::new(alloc),
            measures: Column::new(alloc),
        }
    }

    /// The tree of this node, which has a number already, or else gets the next one. A number or a depth of 2^32 or more
    /// is want of memory.
    pub fn node(&mut self, node: LpNode) -> Result<LpId, Memory>
        requires { PartsBelow (length self.old) node }
        ensures known { IfOk result (λ id. id.0 < length self.new) }
        ensures made { IfOk result (λ id. Holds self.new id.0 (tree_of_node self.old node)) }
        ensures adds { Adds self.old self.new (tree_of_node self.old node) }
        ensures keeps { Keeps self.old self.new }
        ensures distinct { IsDistinct self.new }
        ensures unchanged { OnErr result (self.new ≡ self.old) }
    {
        // A node that is refused leaves a table in which no tree stands twice: its shapes tell.
        let _ = &self.shapes;
        let shape = Shape::of(node)?;
        let (index, is_new) = self.shapes.insert(shape)?;
        if !is_new {
            return Ok(LpId(index));
        }
        if let Err(memory) = push_measures(&mut self.measures, shape) {
            self.shapes.truncate(index);
            return Err(memory);
        }
        Ok(LpId(index))
    }

    /// The node of a tree. Its parts have lower numbers.
    pub fn view(&self, id: LpId) -> LpNode
        requires { id.0 < length self.now }
        ensures is { Holds self.now id.0 (tree_of_node self.now result) }
        ensures lower { PartsBelow id.0 result }
        ensures distinct { IsDistinct self.now }
        ensures small { length self.now < 2 ^ 63 }
    {
        self.shape_of(id).node()
    }

    /// How many nodes the tree has, or the greatest number of the type if they are more.
    pub fn size(&self, id: LpId) -> u128
        requires { id.0 < length self.now }
        ensures { result ≡ min (size_of (tree_at self.now id.0)) (2 ^ 128 - 1) }
    {
        self.measures_of(id).size
    }

    /// How many nodes the tree's longest path has, or the greatest number of the type if they are more.
    pub fn depth(&self, id: LpId) -> u64
        requires { id.0 < length self.now }
        ensures { result ≡ min (depth_of (tree_at self.now id.0)) (2 ^ 64 - 1) }
    {
        self.measures_of(id).depth as u64
    }

    /// The tree with its loose variables raised by `k`. A number that does not fit its type is want of memory.
    pub fn lift(&mut self, k: u128, id: LpId) -> Result<LpId, Memory>
        requires { id.0 < length self.old }
        ensures known { IfOk result (λ r. r.0 < length self.new) }
        ensures made { IfOk result (λ r. Holds self.new r.0 (lift_tree k (tree_at self.old id.0))) }
        ensures keeps { Keeps self.old self.new }
        ensures distinct { IsDistinct self.new }
        ensures unchanged { OnErr result (self.new ≡ self.old) }
    {
        self.walk(self.alloc, &[], root(id, Change::Raise(k)))
    }

    /// The body of a binder with `arg` put for its variable: the greater loose variables are lowered.
    pub fn put(&mut self, arg: LpId, body: LpId) -> Result<LpId, Memory>
        requires arg { arg.0 < length self.old }
        requires body { body.0 < length self.old }
        ensures known { IfOk result (λ r. r.0 < length self.new) }
        ensures made { IfOk result (λ r. Holds self.new r.0 (put_tree (tree_at self.old arg.0) (tree_at self.old body.0))) }
        ensures keeps { Keeps self.old self.new }
        ensures distinct { IsDistinct self.new }
        ensures unchanged { OnErr result (self.new ≡ self.old) }
    {
        self.walk(self.alloc, &[arg], root(body, Change::Replace))
    }

    /// The body of as many binders as there are arguments, with each argument put for its variable. They stand
    /// in the order of an application: the last is put for the innermost.
    pub fn put_all(&mut self, args: &[LpId], body: LpId) -> Result<LpId, Memory>
        requires args { AreKnown self.old args.now }
        requires body { body.0 < length self.old }
        ensures known { IfOk result (λ r. r.0 < length self.new) }
        ensures made { IfOk result (λ r. Holds self.new r.0 (put_all_trees (trees_at self.old args.now) (tree_at self.old body.0))) }
        ensures keeps { Keeps self.old self.new }
        ensures distinct { IsDistinct self.new }
        ensures unchanged { OnErr result (self.new ≡ self.old) }
    {
        self.walk(self.alloc, args, root(body, Change::Replace))
    }

    /// Whether so many binders round the tree leave it no loose variable. It may answer no where they are countless.
    pub fn is_closed_under(&self, id: LpId, depth: u128) -> bool
        requires { id.0 < length self.now }
        ensures closed { OnTrue result (depth < 2 ^ 64 → loose_of (tree_at self.now id.0) ≤ depth) }
    {
        let loose = self.measures_of(id).loose;
        loose < u32::MAX && loose as u128 <= depth
    }

    // The shape of a tree's node.
    fn shape_of(&self, id: LpId) -> Shape
        requires { id.0 < length self.now }
        ensures is { Holds self.now id.0 (tree_of_node self.now (node_of result)) }
        ensures lower { PartsBelow id.0 (node_of result) }
        ensures distinct { IsDistinct self.now }
        ensures small { length self.now < 2 ^ 63 }
    {
        let _count = self.shapes.len();
        self.shapes.get(id.0)
    }

    // The measures of a tree.
    fn measures_of(&self, id: LpId) -> Measures
        requires { id.0 < length self.now }
        ensures { IsMeasured result (tree_at self.now id.0) }
    {
        self.measures.get(id.0)
    }

    /// Gives up all trees from the number `len` on. Those below keep their numbers.
    pub fn cut(&mut self, len: usize)
        requires { len ≤ length self.old }
        ensures { self.new ≡ take len self.old }
    {
        self.shapes.truncate(len);
        self.measures.truncate(len);
    }

    /// How many trees it has.
    pub fn count(&self) -> usize
        ensures count { result ≡ length self.now }
        ensures distinct { IsDistinct self.now }
    {
        self.shapes.len()
    }
}

// A tree under no binder.
fn root(id: LpId, change: Change) -> Place
    ensures { result ≡ record { id = id; depth = 0; change = change } }
{
    Place {
        id,
        depth: 0,
        change,
    }
}
