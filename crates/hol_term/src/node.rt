//! Nodes of a table of terms, and their measures.
ghost use Rattle.std.specs.Prelude.{◌≡◌, ◌≤◌, ◌+◌, ◌-◌, ◌^◌, min, max, IfOk, OnOk, IfErr};
ghost use Rattle.std.specs.Int.Bits.{bit_or};
ghost use Rattle.common.specs.declared.faults.Fault.TheVariants as the_fault;
ghost use Rattle.hol_spec.specs.Limits.{greatest_size, greatest_depth};
ghost use Rattle.hol_type.specs.Refusals.{Refuses};
ghost use Rattle.hol_term.specs.Packed.{type_numbered};

use crate::TermId;
use common::amounts::narrow;
use common::{Fault, Kind, Memory};
use hol_name::Name;
use hol_spec::{GREATEST_DEPTH, GREATEST_SIZE};
use hol_type::TypeId;
use std::marker::Model;

/// The head of a tree, with the numbers of its parts.
#[derive(PartialEq, Eq, PartialOrd, Ord, Drop)]
pub(crate) enum Node {
    /// A free variable.
    Free(Name, TypeId),
    /// A variable that a binder binds: the number of binders between it and its own.
    Bound(u64),
    /// A constant.
    Const(Name, TypeId),
    /// A function and its argument.
    App(TermId, TermId),
    /// An abstraction: its variable's type and its body.
    Lam(TypeId, TermId),
}

/// How large and how deep a tree is, how many binders round it leave it no loose number, and a mask with the bits of its
/// free variables. At the greatest number of its type, size or depth says no more than that.
#[derive(Clone, Copy)]
pub(crate) struct Measures {
    pub(crate) size: u64,
    pub(crate) depth: u64,
    pub(crate) loose: u128,
    pub(crate) mask: u64,
}

/// The measures of a tree, and the number of its type if it is a term.
#[derive(Clone, Copy)]
pub(crate) struct Facts {
    pub(crate) measures: Measures,
    pub(crate) ty: Option<TypeId>,
}

// The number of no type.
const NO_TYPE: u32 = u32::MAX;

/// The facts of a tree in little room.
#[derive(Drop)]
pub(crate) struct Packed {
    size: u64,
    mask: u64,
    depth: u32,
    loose: u32,
    ty: u32,
}

impl Model for Packed {
    ghost use Rattle.hol_term.specs.declared.node.Facts.{Facts as TheFacts};

    ghost Value = { TheFacts };

    ghost use Rattle.hol_term.specs.Packed.{type_numbered};

    ghost view = { λ p. record { measures = record { size = p.size; depth = p.depth; loose = p.loose; mask = p.mask }; ty = type_numbered p.ty } };
}

/// A node with the facts of its tree.
#[derive(Drop)]
pub(crate) struct Entry {
    pub(crate) node: Node,
    pub(crate) facts: Packed,
}

// Most of the memory of a large table is its entries.
const _: () = prove!(size_of::<Entry>() == 56);

impl Measures {
    // Refuses what passes a limit: for its size, or else for its depth.
    pub(crate) fn check_limits(self) -> Result<(), Fault>
        ensures size { OnOk result (self.size ≤ greatest_size) }
        ensures depth { OnOk result (self.depth ≤ greatest_depth) }
        ensures refusal { IfErr result (λ fault. Refuses fault self.size self.depth) }
        ensures limit { IfErr result (λ fault. fault ≡ the_fault.Memory → ⊥) }
    {
        if self.size > GREATEST_SIZE {
            return Err(Fault::Refused(Kind::TooLarge));
        }
        if self.depth > GREATEST_DEPTH {
            return Err(Fault::Refused(Kind::TooDeep));
        }
        Ok(())
    }

    // The measures of a tree without parts, over a type of this size and depth.
    pub(crate) fn leaf(size: u64, depth: u64, loose: u128, mask: u64) -> Measures
        ensures size { result.size ≡ min (1 + size) (2 ^ 64 - 1) }
        ensures depth { result.depth ≡ min (1 + depth) (2 ^ 64 - 1) }
        ensures loose { result.loose ≡ loose }
        ensures mask { result.mask ≡ mask }
    {
        Measures {
            size: size.saturating_add(1),
            depth: depth.saturating_add(1),
            loose,
            mask,
        }
    }

    // The measures of a tree of two parts.
    pub(crate) fn joined(self, other: Measures) -> Measures
        ensures size { result.size ≡ min (1 + self.size + other.size) (2 ^ 64 - 1) }
        ensures depth { result.depth ≡ min (1 + max self.depth other.depth) (2 ^ 64 - 1) }
        ensures loose { result.loose ≡ max self.loose other.loose }
        ensures mask { result.mask ≡ bit_or self.mask other.mask }
    {
        Measures {
            size: self.size.saturating_add(other.size).saturating_add(1),
            depth: self.depth.max(other.depth).saturating_add(1),
            loose: self.loose.max(other.loose),
            mask: self.mask | other.mask,
        }
    }

    // The measures of a body, outside its binder as far as loose numbers go.
    pub(crate) fn under_binder(self) -> Measures
        ensures size { result.size ≡ self.size }
        ensures depth { result.depth ≡ self.depth }
        ensures loose { result.loose ≡ self.loose - 1 }
        ensures mask { result.mask ≡ self.mask }
    {
        Measures {
            loose: self.loose.saturating_sub(1),
            ..self
        }
    }
}

impl Packed {
    /// These facts in little room. A depth, a loose number or the number of a type of 2^32 or more is want of memory.
    pub(crate) fn of(facts: Facts) -> Result<Packed, Memory>
        ensures { IfOk result (λ packed. packed ≡ facts) }
    {
        Ok(Packed {
            size: facts.measures.size,
            mask: facts.measures.mask,
            depth: narrow(facts.measures.depth as u128)?,
            loose: narrow(facts.measures.loose)?,
            ty: narrow_type(facts.ty)?,
        })
    }

    /// The measures of the tree.
    pub(crate) fn measures(&self) -> Measures
        ensures { result ≡ self.now.measures }
    {
        Measures {
            size: self.size,
            depth: self.depth as u64,
            loose: self.loose as u128,
            mask: self.mask,
        }
    }

    /// The number of the tree's type, if it is a term.
    pub(crate) fn ty(&self) -> Option<TypeId>
        ensures { result ≡ self.now.ty }
    {
        if self.ty == NO_TYPE {
            None
        } else {
            Some(TypeId(self.ty as usize))
        }
    }
}

// The number of a type in 32 bits, or that of no type.
fn narrow_type(ty: Option<TypeId>) -> Result<u32, Memory>
    ensures { IfOk result (λ n. type_numbered n ≡ ty) }
{
    let Some(id) = ty else {
        return Ok(NO_TYPE);
    };
    let number = narrow(id.0 as u128)?;
    if number < NO_TYPE {
        Ok(number)
    } else {
        Err(Memory)
    }
}
