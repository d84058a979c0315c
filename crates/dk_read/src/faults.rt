//! Why a text is refused.
ghost use Rattle.std.specs.Prelude.{◌≡◌};
ghost use Rattle.dk_read.specs.declared.faults.DkFault.TheVariants as variant;
ghost use Rattle.dk_read.specs.declared.faults.Stop.TheVariants as stop;

use common::Memory;
use lp_spec::DkKind;
use thiserror::Error;

/// Why a reader stopped.
#[derive(Debug, Drop, PartialEq, Eq, Error)]
pub enum DkFault {
    /// The text is refused at this byte, counted from 0.
    #[error("byte {place}: {kind}")]
    Refused { place: u64, kind: DkKind },
    /// Memory ran out.
    #[error("out of memory")]
    Memory,
}

impl From<Memory> for DkFault {
    ghost from_gives = { λ _ fault. fault ≡ variant.Memory };

    fn from(_memory: Memory) -> DkFault {
        DkFault::Memory
    }
}

/// Why a reading stops: at a place, or for want of memory. A name is told by its number, so that a stop is copied at no
/// cost.
#[derive(Clone, Copy)]
pub(crate) enum Stop {
    /// A token can't follow here, or a byte begins none.
    BadText(u64),
    /// The name of this number means nothing here.
    UnknownName(u64, usize),
    /// The name of this number is a symbol's already.
    NameTwice(u64, usize),
    /// A type or a body that ends here is too deep.
    TooDeep(u64),
    /// Memory ran out.
    Memory,
}

impl From<Memory> for Stop {
    ghost from_gives = { λ _ made. made ≡ stop.Memory };

    fn from(_memory: Memory) -> Stop {
        Stop::Memory
    }
}
