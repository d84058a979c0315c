//! Numbers of shapes that were lately looked for in the tree. What is noted is a guess: the shape that has the number may be
//! another, so a guess is compared with the shape that is looked for.
ghost use Rattle.std.specs.Prelude.{IfSome};
ghost use Rattle.lp_term.specs.Indexed.{Has};

use crate::shape::Shape;
use crate::shapes::has;
use std::alloc::Global;

// The fewest places for guesses, once there are any.
const FEWEST: usize = 256;

/// The number that is noted for a shape, if the shape has it.
pub(crate) fn guess(shapes: &[Shape], recent: &[u32], shape: Shape) -> Option<u32>
    ensures { IfSome result (λ number. Has shapes.now number shape) }
{
    let number = *recent.get(place(shape, recent.len()))?;
    if has(shapes, number, shape) {
        Some(number)
    } else {
        None
    }
}

/// Notes the number of a shape.
pub(crate) fn note(recent: &mut Vec<u32>, shape: Shape, number: u32) {
    let place = place(shape, recent.len());
    if let Some(noted) = recent.get_mut(place) {
        *noted = number;
    }
}

/// Makes more than `count` places, where there are fewer. Where no memory is left for them, they stay as they are.
pub(crate) fn widen(recent: &mut Vec<u32>, count: usize) {
    let len = recent.len();
    if len <= count {
        let _ = recent.resize(len.saturating_mul(2).max(FEWEST), 0);
    }
}

// The place of a shape among so many places, a power of two.
fn place(shape: Shape, count: usize) -> usize {
    mix(shape) as usize & count.wrapping_sub(1)
}

// A number of which the low bits depend on the kind and on both numbers of a shape.
fn mix(shape: Shape) -> u64 {
    let key = match shape {
        Shape::SortType => pair(0, 0),
        Shape::SortKind => pair(0, 1),
        Shape::Var(n) => pair(1, n),
        Shape::Sym(s) => pair(2, s),
        Shape::App(f, x) => pair(f, x),
        Shape::Lam(a, b) => pair(a, b).rotate_left(21),
        Shape::Pi(a, b) => pair(a, b).rotate_left(42),
    };
    let mixed = key.wrapping_mul(0x9E37_79B9_7F4A_7C15);
    mixed ^ (mixed >> 32)
}

// Two numbers as one, each in bits of its own.
fn pair(first: u32, second: u32) -> u64 {
    first as u64 * (1 << 32) + second as u64
}
