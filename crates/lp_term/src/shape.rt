//! What a table keeps of a tree: its node, with numbers that are narrow.
ghost use Rattle.std.specs.Prelude.{◌≡◌, IfOk};
ghost use Rattle.lp_term.specs.Shapes.{node_of};

use crate::{LpId, LpNode};
use common::Memory;
use common::amounts::narrow;

/// A node whose numbers are below 2^32.
#[derive(Clone, Copy, PartialEq, Eq, PartialOrd, Ord)]
pub(crate) enum Shape {
    SortType,
    SortKind,
    Var(u32),
    Sym(u32),
    App(u32, u32),
    Lam(u32, u32),
    Pi(u32, u32),
}

// Most of the memory of a large module is shapes and their measures.
const _: () = prove!(size_of::<Shape>() == 12);

impl Shape {
    /// The shape of a node. A greater number is want of memory.
    pub(crate) fn of(node: LpNode) -> Result<Shape, Memory>
        ensures { IfOk result (λ shape. node_of shape ≡ node) }
    {
        match node {
            LpNode::SortType => Ok(Shape::SortType),
            LpNode::SortKind => Ok(Shape::SortKind),
            LpNode::Var(n) => Ok(Shape::Var(narrow(n)?)),
            LpNode::Sym(s) => Ok(Shape::Sym(narrow(s as u128)?)),
            LpNode::App(f, x) => Ok(Shape::App(narrow(f.0 as u128)?, narrow(x.0 as u128)?)),
            LpNode::Lam(a, b) => Ok(Shape::Lam(narrow(a.0 as u128)?, narrow(b.0 as u128)?)),
            LpNode::Pi(a, b) => Ok(Shape::Pi(narrow(a.0 as u128)?, narrow(b.0 as u128)?)),
        }
    }

    /// The node of this shape.
    pub(crate) fn node(self) -> LpNode
        ensures { result ≡ node_of self }
    {
        match self {
            Shape::SortType => LpNode::SortType,
            Shape::SortKind => LpNode::SortKind,
            Shape::Var(n) => LpNode::Var(n as u128),
            Shape::Sym(s) => LpNode::Sym(s as usize),
            Shape::App(f, x) => LpNode::App(LpId(f as usize), LpId(x as usize)),
            Shape::Lam(a, b) => LpNode::Lam(LpId(a as usize), LpId(b as usize)),
            Shape::Pi(a, b) => LpNode::Pi(LpId(a as usize), LpId(b as usize)),
        }
    }
}
