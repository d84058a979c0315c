//! The measures that a table keeps of a tree.
ghost use Rattle.std.specs.Prelude.{◌≡◌, ◌<◌, ◌+◌, ◌-◌, ◌^◌, [], ◌∷◌, ◌++◌, List, length, max, min, slice_get, take, Some, IfOk, IfSome, OnOk, OnErr};
ghost use Rattle.lp_spec.specs.Trees.{Tree};
ghost use Rattle.lp_term.specs.Tables.{tree_of_node, PartsBelow};
ghost use Rattle.lp_term.specs.Shapes.{node_of};
ghost use Rattle.lp_term.specs.Measured.{AreMeasured, IsJoined, IsMeasured};
ghost use Rattle.lp_term.specs.Packed.{IsLargeFrom};

use crate::shape::Shape;
use common::amounts::is_large;
use common::{Amounts, Memory};
use std::alloc::Global;
use std::marker::Model;

/// The measures of a tree.
#[derive(Clone, Copy)]
pub(crate) struct Measures {
    // How many nodes it has, or the greatest number of the type if they are more.
    pub(crate) size: u128,
    pub(crate) depth: u32,
    // How many binders round the tree leave it no loose variable; at the greatest number of the type, unknown.
    pub(crate) loose: u32,
}

/// The measures of a tree in little room, its size by a code.
#[derive(Clone, Copy)]
pub(crate) struct Entry {
    size: u32,
    depth: u32,
    loose: u32,
}

// Most of the memory of a large module is shapes and their measures.
const _: () = prove!(size_of::<Entry>() == 12);

/// The measures of the first trees. Contracts see the list of them.
#[derive(Drop)]
pub(crate) struct Column {
    entries: Vec<Entry>,
    sizes: Amounts,
}

impl Model for Column {
    ghost use Rattle.std.specs.Prelude.{List, map};
    ghost use Rattle.lp_term.specs.declared.measures.Measures.{Measures as SomeMeasures};
    ghost use Rattle.lp_term.specs.Packed.{measures_in, AreEntries};

    ghost Value = { List SomeMeasures };

    ghost view = { λ c. map (measures_in c.sizes) c.entries.items };

    ghost use Rattle.std.specs.Prelude.{length};

    ghost invariant = { λ c. AreEntries (length c.sizes) c.entries.items };
}

impl Column {
    /// The measures of no tree. It takes no memory.
    pub(crate) fn new(alloc: Global) -> Self
        ensures { result ≡ [] }
    {
        Column {
            entries: Vec::new(alloc),
            sizes: Amounts::new(alloc),
        }
    }

    /// The measures of the tree with this number.
    pub(crate) fn get(&self, number: usize) -> Measures
        requires { number < length self.now }
        ensures { slice_get self.now number ≡ Some result }
    {
        let entry = self.entries[number];
        Measures {
            size: self.sizes.get(entry.size),
            depth: entry.depth,
            loose: entry.loose,
        }
    }

    /// Puts the measures of the next tree last. After want of memory they are as before.
    pub(crate) fn push(&mut self, measures: Measures) -> Result<(), Memory>
        ensures pushed { OnOk result (self.new ≡ self.old ++ measures ∷ []) }
        ensures unchanged { OnErr result (self.new ≡ self.old) }
    {
        self.entries.reserve(1)?;
        let size = self.sizes.code(measures.size)?;
        self.entries.push_reserved(Entry {
            size,
            depth: measures.depth,
            loose: measures.loose,
        });
        Ok(())
    }

    /// Gives up the measures of all trees from the number `len` on.
    pub(crate) fn truncate(&mut self, len: usize)
        ensures { self.new ≡ take len self.old }
    {
        if let Some(code) = first_large(&self.entries, len) {
            self.sizes.forget(code);
        }
        self.entries.truncate(len);
    }
}

// The first code of a large size from an entry on, if there is one.
fn first_large(entries: &[Entry], from: usize) -> Option<u32>
    ensures { IfSome result (IsLargeFrom entries.now from) }
{
    let mut at = from;
    while let Some(entry) = entries.get(at) {
        if is_large(entry.size) {
            return Some(entry.size);
        }
        at += 1;
    }
    None
}

impl Measures {
    /// The measures of a node's tree, of those of its parts. A depth of 2^32 or more is want of memory.
    pub(crate) fn of(shape: Shape, column: &Column) -> Result<Measures, Memory>
        requires { PartsBelow (length column.now) (node_of shape) }
        ensures { IfOk result (λ m. (trees : List Tree) → AreMeasured column.now trees → IsMeasured m (tree_of_node trees (node_of shape))) }
    {
        match shape {
            Shape::SortType | Shape::SortKind | Shape::Sym(_) => Ok(Measures::leaf(0)),
            Shape::Var(n) => Ok(Measures::leaf(n.saturating_add(1))),
            Shape::App(f, x) => {
                let argument = part(column, x);
                Measures::joined(part(column, f), argument, argument.loose)
            }
            Shape::Lam(a, b) | Shape::Pi(a, b) => {
                let body = part(column, b);
                Measures::joined(part(column, a), body, under_binder(body.loose))
            }
        }
    }

    // The measures of a node without parts.
    fn leaf(loose: u32) -> Measures
        ensures size { result.size ≡ 1 }
        ensures depth { result.depth ≡ 1 }
        ensures loose { result.loose ≡ loose }
    {
        Measures {
            size: 1,
            depth: 1,
            loose,
        }
    }

    // The measures of a node with two parts, where the second's loose variables are these.
    fn joined(first: Measures, second: Measures, loose: u32) -> Result<Measures, Memory>
        ensures { IfOk result (IsJoined first second loose) }
    {
        let parts = first.size.saturating_add(second.size);
        match first.depth.max(second.depth).checked_add(1) {
            Some(depth) => Ok(Measures {
                size: parts.saturating_add(1),
                depth,
                loose: first.loose.max(loose),
            }),
            None => Err(Memory),
        }
    }
}

// The measures of the tree with this number.
fn part(column: &Column, number: u32) -> Measures
    requires { number < length column.now }
    ensures { slice_get column.now number ≡ Some result }
{
    column.get(number as usize)
}

/// Puts the measures of a node's tree last in a column. After want of memory the column is as before.
pub(crate) fn push_measures(column: &mut Column, shape: Shape) -> Result<(), Memory>
    requires { PartsBelow (length column.old) (node_of shape) }
    ensures pushed { OnOk result ((trees : List Tree) → AreMeasured column.old trees
        → AreMeasured column.new (trees ++ tree_of_node trees (node_of shape) ∷ [])) }
    ensures unchanged { OnErr result (column.new ≡ column.old) }
{
    let measures = Measures::of(shape, column)?;
    column.push(measures)?;
    Ok(())
}

// The loose variables of a body, outside its binder.
fn under_binder(loose: u32) -> u32
    ensures known { result < 2 ^ 32 - 1 → result ≡ loose - 1 }
    ensures unknown { loose ≡ 2 ^ 32 - 1 → result ≡ loose }
{
    if loose == u32::MAX {
        loose
    } else {
        loose.saturating_sub(1)
    }
}
