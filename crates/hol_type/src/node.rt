//! Nodes of a table of types, and their measures.
ghost use Rattle.std.specs.Prelude.{◌≡◌, OnOk, IfErr};
ghost use Rattle.common.specs.declared.faults.Fault.TheVariants as the_fault;
ghost use Rattle.hol_spec.specs.Types.{HolType};
ghost use Rattle.hol_spec.specs.Limits.{TypeWithin};
ghost use Rattle.hol_type.specs.Refusals.{RefusesType};
ghost use Rattle.hol_type.specs.Measured.{IsMeasured};

use crate::TypeId;
use common::{Fault, Kind};
use hol_name::Name;
use hol_spec::{GREATEST_DEPTH, GREATEST_SIZE};

/// A type's head, with the numbers of its arguments.
#[derive(PartialEq, Eq, PartialOrd, Ord, Drop)]
pub(crate) enum Node {
    /// A variable.
    Var(Name),
    /// An operator with its arguments.
    Op(Name, Vec<TypeId>),
}

/// How large and how deep a type is. At the greatest number of its type, a measure says no more than that.
#[derive(Clone, Copy)]
pub(crate) struct Measures {
    pub(crate) size: u64,
    pub(crate) depth: u64,
}

/// A node with the measures of its type.
#[derive(Drop)]
pub(crate) struct Entry {
    pub(crate) node: Node,
    pub(crate) measures: Measures,
}

impl Measures {
    // Refuses what passes a limit: for its size, or else for its depth.
    pub(crate) fn check_limits(self) -> Result<(), Fault>
        ensures within { OnOk result ((t : HolType) → IsMeasured self t → TypeWithin t) }
        ensures refusal { IfErr result (λ fault. (t : HolType) → IsMeasured self t → RefusesType fault t) }
        ensures limit { IfErr result (λ fault. fault ≡ the_fault.Memory → ⊥) }
    {
        if self.size > GREATEST_SIZE {
            return Err(Fault::Refused(Kind::TooLarge));
        }
        if self.depth > GREATEST_DEPTH {
            return Err(Fault::Refused(Kind::TooDeep));
        }
        Ok(())
    }
}
