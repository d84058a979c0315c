//! Masks: bits that tell which free variables may be in a tree.
ghost use Rattle.std.specs.Prelude.{◌≡◌, ◌<◌, ◌^◌};
ghost use Rattle.hol_term.specs.Masks.{bit_of, mixed, with_pairs};

use crate::{TermId, Variable};
use hol_name::Name;

// The mask of a name alone.
pub(crate) fn bit_mask(name: &Name) -> u64
    ensures { result ≡ 2 ^ bit_of name.now }
{
    let last = name.component(name.len() - 1);
    1 << number(last)
}

// The number below 64 that these bytes come to.
fn number(bytes: &[u8]) -> u64
    ensures is { result ≡ mixed 0 bytes.now }
    ensures below { result < 64 }
{
    let mut number = 0;
    for byte in bytes {
        number = (number * 31 + *byte as u64) % 64;
    }
    number
}

// The mask of the variables of some pairs.
pub(crate) fn pairs_mask(pairs: &[(Variable, TermId)]) -> u64
    ensures { result ≡ with_pairs 0 pairs.now }
{
    let mut mask = 0;
    for (variable, _) in pairs {
        mask |= bit_mask(&variable.name);
    }
    mask
}
