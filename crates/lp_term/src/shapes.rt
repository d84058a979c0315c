//! Shapes by number, each once, and where each is found.
//!
//! A node has a higher number than its parts, and most nodes are made soon after them. So a shape with parts stands with the
//! greater of its two parts, as far as there is room: to look for it reads what was written last, and no table is ordered
//! anew as it grows. Where there is no room, and where a shape has no parts, it stands in a tree, which no choice of shapes
//! can slow. What was lately looked for there is noted, and found without the way through the tree.
ghost use Rattle.std.specs.Prelude.{◌≡◌, ℕ, ◌<◌, ◌-◌, ◌^◌, [], ◌∷◌, ◌++◌, length, take, Some, slice_get, slice_set, IfOk, IfSome, IfNone, OnOk, OnErr};
ghost use Rattle.std.specs.Bool.{OnTrue, OnFalse};
ghost use Rattle.lp_term.specs.Columns.{IsInserted};
ghost use Rattle.lp_term.specs.declared.shape.Shape.{Shape as AShape};
ghost use Rattle.lp_term.specs.declared.shapes.Children.{Children as AChildren};
ghost use Rattle.lp_term.specs.Indexed.{greater_part as greater_part_of, kept_in, no_children, with_child, Has, Finds, FindsOther, IsIndexed};

use crate::recent::{guess, note, widen};
use crate::shape::Shape;
use common::Memory;
use std::alloc::Global;
use std::collections::BTreeMap;
use std::marker::Model;

// The number of no shape.
const NONE: u32 = u32::MAX;

/// The shapes that stand with the greater of their parts, by their numbers: the first three.
#[derive(Clone, Copy)]
pub(crate) struct Children {
    pub(crate) first: u32,
    pub(crate) second: u32,
    pub(crate) third: u32,
}

/// Where a shape is, or where it is to be put.
#[derive(Clone, Copy)]
pub(crate) enum Slot {
    /// It has this number.
    At(u32),
    /// With this part of its own.
    With(u32),
    /// In the tree.
    Apart,
}

/// Shapes by number, each once.
#[derive(Drop)]
pub(crate) struct Shapes {
    shapes: Vec<Shape>,
    children: Vec<Children>,
    others: BTreeMap<Shape, u32>,
    // Numbers of shapes that were lately looked for in the tree.
    recent: Vec<u32>,
}

impl Model for Shapes {
    ghost use Rattle.std.specs.Prelude.{List};
    ghost use Rattle.lp_term.specs.declared.shape.Shape.{Shape as AShape};

    ghost Value = { List AShape };

    ghost use Rattle.lp_term.specs.Indexed.{kept_in, IsIndexed};

    ghost view = { λ s. s.shapes.items };

    ghost invariant = { λ s. IsIndexed s.shapes.items s.children.items (kept_in s.others) };
}

impl Shapes {
    /// No shape. It takes no memory.
    pub(crate) fn new(alloc: Global) -> Self
        ensures { result ≡ [] }
    {
        Shapes {
            shapes: Vec::new(alloc),
            children: Vec::new(alloc),
            others: BTreeMap::new(alloc),
            recent: Vec::new(alloc),
        }
    }

    /// How many there are.
    pub(crate) fn len(&self) -> usize
        ensures count { result ≡ length self.now }
        ensures few { length self.now < 2 ^ 32 }
    {
        self.shapes.len()
    }

    /// The shape of a number.
    pub(crate) fn get(&self, number: usize) -> Shape
        requires { number < length self.now }
        ensures { slice_get self.now number ≡ Some result }
    {
        self.shapes[number]
    }

    /// The number of a shape, the next one if it is new, and whether it is.
    pub(crate) fn insert(&mut self, shape: Shape) -> Result<(usize, bool), Memory>
        requires { (part : ℕ) → greater_part_of shape ≡ Some part → part < length self.old }
        ensures inserted { IfOk result (λ r. IsInserted self.old self.new shape r.0 r.1) }
        ensures unchanged { OnErr result (self.new ≡ self.old) }
    {
        match find(
            &self.shapes,
            &self.children,
            &self.others,
            &mut self.recent,
            shape,
        ) {
            Slot::At(number) => Ok((number as usize, false)),
            Slot::With(part) => {
                let number = put_with(&mut self.shapes, &mut self.children, shape, part)?;
                Ok((number as usize, true))
            }
            Slot::Apart => {
                let number = put_apart(
                    &mut self.shapes,
                    &mut self.children,
                    &mut self.others,
                    &mut self.recent,
                    shape,
                )?;
                Ok((number as usize, true))
            }
        }
    }

    /// Gives up all shapes from the number `len` on.
    pub(crate) fn truncate(&mut self, len: usize)
        ensures { self.new ≡ take len self.old }
    {
        forget(&self.shapes, &self.children, &mut self.others, len);
        self.shapes.truncate(len);
        self.children.truncate(len);
    }
}

// The greater part of a shape, if it has parts.
fn greater_part(shape: Shape) -> Option<u32>
    ensures { result ≡ greater_part_of shape }
{
    match shape {
        Shape::App(a, b) | Shape::Lam(a, b) | Shape::Pi(a, b) => Some(a.max(b)),
        Shape::SortType | Shape::SortKind | Shape::Var(_) | Shape::Sym(_) => None,
    }
}

/// Whether a number is that of the shape.
pub(crate) fn has(shapes: &[Shape], number: u32, shape: Shape) -> bool
    ensures yes { OnTrue result (Has shapes.now number shape) }
    ensures no { OnFalse result (Has shapes.now number shape → ⊥) }
{
    match shapes.get(number as usize) {
        Some(other) => *other == shape,
        None => false,
    }
}

// The number of a shape that stands in the tree.
fn find_apart(shapes: &[Shape], others: &BTreeMap<Shape, u32>, shape: Shape) -> Option<u32>
    ensures found { IfSome result (λ number. Has shapes.now number shape) }
    ensures none { IfNone result ((number : ℕ) → Has shapes.now number shape → kept_in others.now shape ≡ Some number → ⊥) }
{
    match others.get(&shape) {
        Some(number) if has(shapes, *number, shape) => Some(*number),
        _ => None,
    }
}

// Where a shape is that does not stand with its greater part, or is to be put.
fn find_other(
    shapes: &[Shape],
    others: &BTreeMap<Shape, u32>,
    recent: &mut Vec<u32>,
    shape: Shape,
) -> Slot
    ensures { FindsOther shapes.now (kept_in others.now) shape result }
{
    if let Some(number) = guess(shapes, recent, shape) {
        return Slot::At(number);
    }
    match find_apart(shapes, others, shape) {
        Some(number) => {
            note(recent, shape, number);
            Slot::At(number)
        }
        None => Slot::Apart,
    }
}

// Where a shape with parts is, or is to be put.
fn find_with(
    shapes: &[Shape],
    children: &[Children],
    others: &BTreeMap<Shape, u32>,
    recent: &mut Vec<u32>,
    shape: Shape,
    part: u32,
) -> Slot
    requires indexed { IsIndexed shapes.now children.now (kept_in others.now) }
    requires part { greater_part_of shape ≡ Some part }
    ensures { Finds shapes.now children.now shape result }
{
    let Some(with) = children.get(part as usize) else {
        return find_other(shapes, others, recent, shape);
    };
    let with = *with;
    if has(shapes, with.first, shape) {
        return Slot::At(with.first);
    }
    if has(shapes, with.second, shape) {
        return Slot::At(with.second);
    }
    if has(shapes, with.third, shape) {
        return Slot::At(with.third);
    }
    if with.third == NONE {
        return Slot::With(part);
    }
    find_other(shapes, others, recent, shape)
}

// Where a shape is, or is to be put.
fn find(
    shapes: &[Shape],
    children: &[Children],
    others: &BTreeMap<Shape, u32>,
    recent: &mut Vec<u32>,
    shape: Shape,
) -> Slot
    requires { IsIndexed shapes.now children.now (kept_in others.now) }
    ensures { Finds shapes.now children.now shape result }
{
    match greater_part(shape) {
        Some(part) => find_with(shapes, children, others, recent, shape, part),
        None => find_other(shapes, others, recent, shape),
    }
}

// The next number.
fn next(shapes: &[Shape]) -> Result<u32, Memory>
    ensures { IfOk result (λ n. (n ≡ length shapes.now) × (n < 2 ^ 32 - 1)) }
{
    match u32::try_from(shapes.len()) {
        Ok(number) if number < NONE => Ok(number),
        _ => Err(Memory),
    }
}

// One more child, where there is room.
fn with_one_more(children: Children, child: u32) -> Children
    ensures { result ≡ with_child children child }
{
    let mut with = children;
    if with.first == NONE {
        with.first = child;
    } else if with.second == NONE {
        with.second = child;
    } else {
        with.third = child;
    }
    with
}

// Puts a shape last, without children.
fn push(shapes: &mut Vec<Shape>, children: &mut Vec<Children>, shape: Shape) -> Result<(), Memory>
    ensures shapes { OnOk result (shapes.new.items ≡ shapes.old.items ++ shape ∷ []) }
    ensures children { OnOk result (children.new.items ≡ children.old.items ++ no_children ∷ []) }
    ensures unchanged { OnErr result ((shapes.new.items ≡ shapes.old.items) × (children.new.items ≡ children.old.items)) }
{
    let none = Children {
        first: NONE,
        second: NONE,
        third: NONE,
    };
    children.push(none)?;
    match shapes.push(shape) {
        Ok(()) => Ok(()),
        Err(_) => {
            let _none = children.pop();
            Err(Memory)
        }
    }
}

// Puts a new shape last, with its greater part, which has room.
fn put_with(
    shapes: &mut Vec<Shape>,
    children: &mut Vec<Children>,
    shape: Shape,
    part: u32,
) -> Result<u32, Memory>
    requires { part < length children.old.items }
    ensures number { IfOk result (λ n. (n ≡ length shapes.old.items) × (n < 2 ^ 32 - 1)) }
    ensures shapes { OnOk result (shapes.new.items ≡ shapes.old.items ++ shape ∷ []) }
    ensures children { IfOk result (λ n. (c : AChildren) → slice_get children.old.items part ≡ Some c
        → children.new.items ≡ slice_set (children.old.items ++ no_children ∷ []) part (with_child c n)) }
    ensures unchanged { OnErr result ((shapes.new.items ≡ shapes.old.items) × (children.new.items ≡ children.old.items)) }
{
    let number = next(shapes)?;
    let with = children[part as usize];
    push(shapes, children, shape)?;
    children[part as usize] = with_one_more(with, number);
    Ok(number)
}

// Puts a new shape last, and into the tree.
fn put_apart(
    shapes: &mut Vec<Shape>,
    children: &mut Vec<Children>,
    others: &mut BTreeMap<Shape, u32>,
    recent: &mut Vec<u32>,
    shape: Shape,
) -> Result<u32, Memory>
    ensures number { IfOk result (λ n. (n ≡ length shapes.old.items) × (n < 2 ^ 32 - 1)) }
    ensures shapes { OnOk result (shapes.new.items ≡ shapes.old.items ++ shape ∷ []) }
    ensures children { OnOk result (children.new.items ≡ children.old.items ++ no_children ∷ []) }
    ensures kept { IfOk result (λ n. kept_in others.new shape ≡ Some n) }
    ensures others { (other : AShape) → (shape ≡ other → ⊥) → kept_in others.new other ≡ kept_in others.old other }
    ensures unchanged { OnErr result ((shapes.new.items ≡ shapes.old.items) × (children.new.items ≡ children.old.items)) }
{
    let number = next(shapes)?;
    others.insert(shape, number)?;
    push(shapes, children, shape)?;
    widen(recent, others.len());
    note(recent, shape, number);
    Ok(number)
}

// Takes the shapes from the number `len` on out of the tree.
fn forget(shapes: &[Shape], children: &[Children], others: &mut BTreeMap<Shape, u32>, len: usize)
    ensures lower_stay { (s : AShape) (n : ℕ) → n < len → kept_in others.old s ≡ Some n → kept_in others.new s ≡ Some n }
{
    let mut number = len;
    while let Some(shape) = shapes.get(number) {
        if !is_with(children, *shape, number) {
            take_out(others, *shape, len);
        }
        number += 1;
    }
}

// Whether the shape of a number stands with the greater of its parts, so that it need not be taken out of the tree.
fn is_with(children: &[Children], shape: Shape, number: usize) -> bool {
    let Some(part) = greater_part(shape) else {
        return false;
    };
    match children.get(part as usize) {
        Some(with) => {
            with.first as usize == number
                || with.second as usize == number
                || with.third as usize == number
        }
        None => false,
    }
}

// Takes a shape out of the tree, if its number there is `len` or more.
fn take_out(others: &mut BTreeMap<Shape, u32>, shape: Shape, len: usize)
    ensures lower_stay { (s : AShape) (n : ℕ) → n < len → kept_in others.old s ≡ Some n → kept_in others.new s ≡ Some n }
{
    if is_from(others, shape, len) {
        others.remove(&shape);
    }
}

// Whether the number of a shape in the tree is `len` or more.
fn is_from(others: &BTreeMap<Shape, u32>, shape: Shape, len: usize) -> bool
    ensures { OnTrue result ((n : ℕ) → n < len → kept_in others.now shape ≡ Some n → ⊥) }
{
    match others.get(&shape) {
        Some(number) => *number as usize >= len,
        None => false,
    }
}
