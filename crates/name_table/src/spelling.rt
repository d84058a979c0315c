//! The spelling of a name: a short one is one number, which is compared at once.
ghost use Rattle.std.specs.Prelude.{◌≡◌, ◌<◌, ◌≤◌, length, IfOk};
ghost use Rattle.std.specs.Str.{bytes_eq};
ghost use Rattle.name_table.specs.Spellings.{packed as number_of, unpacked as bytes_of_number, IsShort};

use crate::recent::{mix, mix_long};
use common::Memory;
use std::alloc::Global;
use std::marker::Model;

/// How many bytes a short name has at most.
pub(crate) const SHORT: usize = 15;

/// The bytes of a name.
#[derive(Drop)]
pub(crate) struct Spelling {
    bytes: Bytes,
}

/// A short name as a number, in which each byte is a digit, or a longer one as its bytes.
#[derive(Drop)]
enum Bytes {
    Short(u128),
    Long(Vec<u8>),
}

impl Model for Spelling {
    ghost use Rattle.std.specs.Prelude.{List, ℕ};

    ghost Value = { List ℕ };

    ghost use Rattle.name_table.specs.SpellingViews.{bytes_in, IsSpelling};

    ghost view = { λ s. bytes_in s.bytes };

    ghost invariant = { λ s. IsSpelling s.bytes };
}

impl Spelling {
    /// The short name of a number. It takes no memory.
    pub(crate) fn short(number: u128) -> Spelling
        requires { IsShort number }
        ensures { result ≡ bytes_of_number number }
    {
        Spelling {
            bytes: Bytes::Short(number),
        }
    }

    /// A name that is not short.
    pub(crate) fn long(alloc: Global, name: &[u8]) -> Result<Spelling, Memory>
        requires { 15 < length name.now }
        ensures { IfOk result (λ s. s ≡ name.now) }
    {
        let bytes = Vec::from_slice(alloc, name)?;
        Ok(Spelling {
            bytes: Bytes::Long(bytes),
        })
    }

    /// Whether it is the short name of a number.
    pub(crate) fn is_short(&self, number: u128) -> bool
        requires { IsShort number }
        ensures { result ≡ bytes_eq self.now (bytes_of_number number) }
    {
        match &self.bytes {
            Bytes::Short(own) => *own == number,
            Bytes::Long(_) => false,
        }
    }

    /// Whether it is this name, which is not short.
    pub(crate) fn is_long(&self, name: &[u8]) -> bool
        requires { 15 < length name.now }
        ensures { result ≡ bytes_eq self.now name.now }
    {
        match &self.bytes {
            Bytes::Short(_) => false,
            Bytes::Long(bytes) => bytes.as_slice() == name,
        }
    }

    /// A number of which most bits depend on most of its last bytes.
    pub(crate) fn mixed(&self) -> u64 {
        match &self.bytes {
            Bytes::Short(number) => mix(*number),
            Bytes::Long(bytes) => mix_long(bytes),
        }
    }

    /// The bytes, copied.
    pub(crate) fn copied(&self, alloc: Global) -> Result<Vec<u8>, Memory>
        ensures { IfOk result (λ bytes. bytes.items ≡ self.now) }
    {
        match &self.bytes {
            Bytes::Short(number) => unpacked(alloc, *number),
            Bytes::Long(bytes) => {
                let copy = Vec::from_slice(alloc, bytes)?;
                Ok(copy)
            }
        }
    }
}

/// The number of a short name.
pub(crate) fn packed(name: &[u8]) -> u128
    requires short { length name.now ≤ 15 }
    ensures number { result ≡ number_of name.now }
    ensures gives_back { bytes_of_number result ≡ name.now }
{
    let mut number = 0;
    let mut left = name;
    while let [rest @ .., byte] = left {
        number = number * 256 + *byte as u128 + 1;
        left = rest;
    }
    number
}

// The short name of a number.
fn unpacked(alloc: Global, number: u128) -> Result<Vec<u8>, Memory>
    requires { IsShort number }
    ensures { IfOk result (λ bytes. bytes.items ≡ bytes_of_number number) }
{
    let mut bytes = Vec::with_capacity(alloc, SHORT)?;
    let mut left = number;
    while left > 0 {
        let digit = left - 1;
        bytes.push((digit % 256) as u8)?;
        left = digit / 256;
    }
    Ok(bytes)
}
