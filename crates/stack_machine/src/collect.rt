//! What gives up names and cells of lists while an article runs, once nothing holds them any more.
//!
//! The objects of the stack and of the dictionary hold names and cells, and a cell that is held holds what its two parts
//! name. What is held moves down to the lowest numbers, in its order, and every number is rewritten: each object stands
//! for what it stood for. So of an article there are at most twice as many names and cells as the stack and the dictionary
//! held when some were last given up, or as many as these have objects, or a constant.
ghost use Rattle.std.specs.Prelude.{◌≡◌, ◌<◌, true, length, map, slice_get, slice_set, Some, IfOk, OnOk, OnErr};
ghost use Rattle.std.specs.Bool.{Decides};
ghost use Rattle.std.specs.BTreeMap.{values};
ghost use Rattle.std.specs.List.{fold, items_where_true};
ghost use Rattle.stack_machine.specs.Collecting.{AreBefore, HoldsMore, IsClosed, IsLeast, holding, holding_list, holding_parts, nothing_held, new_number, new_numbers, numbered, numbered_cell, numbered_entries, numbered_list, numbered_name, numbering};
ghost use Rattle.stack_machine.specs.Crowds.{kept_count, IsCrowded};
ghost use Rattle.stack_machine.specs.Moves.{Moves};

use crate::object::{Cell, CellId, List, NameId, Object};
use crate::store::Store;
use common::Memory;
use std::alloc::Global;
use std::collections::BTreeMap;
use std::marker::Model;

// None are given up where there are fewer names and cells than this.
const FLOOR: usize = 4096;

// Sets the flag of a number, if it has one.
fn set_flag(flags: &mut Vec<bool>, number: usize)
    ensures { flags.new.items ≡ slice_set flags.old.items number true }
{
    if number < flags.len() {
        flags[number] = true;
    }
}

// The numbers that what has a set flag has once the rest is gone.
fn numbers_of(alloc: Global, flags: &[bool]) -> Result<Vec<usize>, Memory>
    ensures { IfOk result (λ numbers. numbers.items ≡ new_numbers 0 flags.now) }
{
    let mut numbers = Vec::with_capacity(alloc, flags.len())?;
    let mut next = 0;
    for flag in flags {
        numbers.push(next)?;
        if *flag {
            next += 1;
        }
    }
    Ok(numbers)
}

// Drops what has no set flag, and moves the rest down in its order.
fn keep_set<T: Drop>(items: &mut Vec<T>, flags: &[bool])
    requires { length flags.now ≡ length items.old.items }
    ensures { items.new.items ≡ items_where_true flags.now items.old.items }
{
    let mut count = 0;
    for (i, flag) in flags.iter().enumerate() {
        if *flag {
            items.swap(count, i);
            count += 1;
        }
    }
    items.truncate(count);
}

/// Which names and which cells are held.
#[derive(Drop)]
pub(crate) struct Held {
    names: Vec<bool>,
    cells: Vec<bool>,
}

impl Model for Held {
    ghost use Rattle.stack_machine.specs.Collecting.{Holding};

    ghost Value = { Holding };

    ghost view = { λ h. record { names = h.names.items; cells = h.cells.items } };
}

impl Held {
    /// Nothing is held of so many names and cells.
    pub(crate) fn none(alloc: Global, names: usize, cells: usize) -> Result<Held, Memory>
        ensures { IfOk result (λ held. held ≡ nothing_held names cells) }
    {
        Ok(Held {
            names: vec![in alloc; false; names]?,
            cells: vec![in alloc; false; cells]?,
        })
    }

    /// Holds what an object holds itself.
    pub(crate) fn hold(&mut self, object: Object)
        ensures { self.new ≡ holding self.old object }
    {
        match object {
            Object::Name(name)
            | Object::TypeOperator(name)
            | Object::Constant(name)
            | Object::Variable(name, _) => set_flag(&mut self.names, name.0),
            Object::List(list) => self.hold_list(list),
            Object::Number(_) | Object::Type(_) | Object::Term(_) | Object::Theorem(_) => {}
        }
    }

    // Holds the first cell of a list.
    fn hold_list(&mut self, list: List)
        ensures { self.new ≡ holding_list self.old list }
    {
        if let List::Cell(id) = list {
            set_flag(&mut self.cells, id.0);
        }
    }

    /// Holds what objects hold themselves.
    pub(crate) fn hold_all(&mut self, objects: &[Object])
        ensures { self.new ≡ fold holding self.old objects.now }
    {
        for object in objects {
            self.hold(*object);
        }
    }

    /// Holds what the dictionary's objects hold themselves.
    pub(crate) fn hold_values(&mut self, dictionary: &BTreeMap<i64, Object>)
        ensures { self.new ≡ fold holding self.old (values dictionary.now) }
    {
        for value in dictionary.values() {
            self.hold(*value);
        }
    }

    // Whether a cell is held.
    fn has_cell(&self, id: CellId) -> bool
        requires { id.0 < length self.now.cells }
        ensures { slice_get self.now.cells id.0 ≡ Some result }
    {
        self.cells[id.0]
    }

    // Holds what held cells hold. Cells hold lower ones alone: one pass from the last to the first finds all.
    fn hold_parts(&mut self, cells: &[Cell])
        requires count { length self.old.cells ≡ length cells.now }
        requires before { AreBefore (length self.old.names) cells.now }
        ensures more { HoldsMore self.old self.new }
        ensures closed { IsClosed self.new cells.now }
        ensures least { IsLeast self.old self.new cells.now }
    {
        for i in (0..cells.len()).rev() {
            if self.has_cell(CellId(i)) {
                self.hold_cell(cells[i]);
            }
        }
    }

    // Holds what a cell holds.
    fn hold_cell(&mut self, cell: Cell)
        ensures { self.new ≡ holding_parts self.old cell }
    {
        self.hold(cell.head);
        self.hold_list(cell.tail);
    }
}

// A new number; what has none keeps its own.
fn number_in(numbers: &[usize], old: usize) -> usize
    ensures { result ≡ new_number numbers.now old }
{
    numbers.get(old).copied().unwrap_or(old)
}

/// The new numbers of names and cells.
#[derive(Drop)]
pub(crate) struct Numbers {
    names: Vec<usize>,
    cells: Vec<usize>,
}

impl Model for Numbers {
    ghost use Rattle.stack_machine.specs.Collecting.{Numbering};

    ghost Value = { Numbering };

    ghost view = { λ r. record { names = r.names.items; cells = r.cells.items } };
}

impl Numbers {
    // The numbers that what is held has once the rest is gone.
    fn of(alloc: Global, held: &Held) -> Result<Numbers, Memory>
        ensures { IfOk result (λ numbers. numbers ≡ numbering held.now) }
    {
        Ok(Numbers {
            names: numbers_of(alloc, &held.names)?,
            cells: numbers_of(alloc, &held.cells)?,
        })
    }

    fn name(&self, name: NameId) -> NameId
        ensures { result ≡ numbered_name self.now name }
    {
        NameId(number_in(&self.names, name.0))
    }

    fn list(&self, list: List) -> List
        ensures { result ≡ numbered_list self.now list }
    {
        match list {
            List::Empty => List::Empty,
            List::Cell(id) => List::Cell(CellId(number_in(&self.cells, id.0))),
        }
    }

    /// The object by the new numbers.
    pub(crate) fn object(&self, object: Object) -> Object
        ensures { result ≡ numbered self.now object }
    {
        match object {
            Object::Name(name) => Object::Name(self.name(name)),
            Object::List(list) => Object::List(self.list(list)),
            Object::TypeOperator(name) => Object::TypeOperator(self.name(name)),
            Object::Constant(name) => Object::Constant(self.name(name)),
            Object::Variable(name, ty) => Object::Variable(self.name(name), ty),
            Object::Number(_) | Object::Type(_) | Object::Term(_) | Object::Theorem(_) => object,
        }
    }

    // The cell by the new numbers.
    fn cell(&self, cell: Cell) -> Cell
        ensures { result ≡ numbered_cell self.now cell }
    {
        Cell {
            head: self.object(cell.head),
            tail: self.list(cell.tail),
        }
    }

    // Rewrites cells by the new numbers.
    fn rewrite_cells(&self, cells: &mut Vec<Cell>)
        ensures { cells.new.items ≡ map (numbered_cell self.now) cells.old.items }
    {
        for cell in cells.iter_mut() {
            *cell = self.cell(*cell);
        }
    }

    /// Rewrites objects by the new numbers.
    pub(crate) fn rewrite_all(&self, objects: &mut Vec<Object>)
        ensures { objects.new.items ≡ map (numbered self.now) objects.old.items }
    {
        for object in objects.iter_mut() {
            *object = self.object(*object);
        }
    }

    /// Rewrites the dictionary's objects by the new numbers.
    pub(crate) fn rewrite_values(&self, dictionary: &mut BTreeMap<i64, Object>)
        ensures { dictionary.new.entries ≡ numbered_entries self.now dictionary.old.entries }
    {
        dictionary.retain(|_key, object| {
            *object = self.object(*object);
            true
        });
    }
}

impl Store {
    /// Whether there are enough names and cells to look which of them so many objects hold: as many as these objects,
    /// and twice as many as were left the last time. So the looking takes no longer than the commands in between.
    pub(crate) fn is_crowded(&self, objects: usize, left: usize) -> bool
        ensures { Decides result (IsCrowded self.now objects left) }
    {
        let count = self.names.len() + self.cells.len();
        count >= FLOOR && count >= objects && count / 2 >= left
    }

    /// Nothing is held of the names and cells that there are.
    pub(crate) fn none_held(&self, alloc: Global) -> Result<Held, Memory>
        ensures { IfOk result (λ held. held ≡ nothing_held (length self.now.names) (length self.now.lists)) }
    {
        Held::none(alloc, self.names.len(), self.cells.len())
    }

    /// Gives up the names and cells that are neither held nor parts of cells that are, notes how many are left, and answers
    /// the new numbers of these. Without the memory for them nothing changes.
    pub(crate) fn give_up(
        &mut self,
        alloc: Global,
        mut held: Held,
        left: &mut usize,
    ) -> Result<Numbers, Memory>
        requires names { length held.names ≡ length self.old.names }
        requires cells { length held.cells ≡ length self.old.lists }
        ensures moved { IfOk result (λ numbers. Moves held numbers self.old self.new) }
        ensures left { OnOk result (left.new ≡ kept_count self.new) }
        ensures unchanged { OnErr result (self.new ≡ self.old) }
        ensures unnoted { OnErr result (left.new ≡ left.old) }
    {
        held.hold_parts(&self.cells);
        let numbers = Numbers::of(alloc, &held)?;
        keep_set(&mut self.names, &held.names);
        keep_set(&mut self.cells, &held.cells);
        numbers.rewrite_cells(&mut self.cells);
        *left = self.names.len() + self.cells.len();
        Ok(numbers)
    }
}
