//! Numbers of names that were lately asked for. A number that is noted for a name is a guess: the name that has it may be another, so a guess
//! is compared with the name that was asked for.
ghost use Rattle.std.specs.Prelude.{◌≡◌, ◌<◌, length, slice_get, Some, IfSome};
ghost use Rattle.name_table.specs.Spellings.{unpacked, IsShort};

use crate::spelling::{SHORT, Spelling, packed};
use std::alloc::Global;

// The fewest places for guesses, once there are any.
const FEWEST: usize = 1024;

/// The number that is noted for the short name of a number, if that name has it.
pub(crate) fn guess_short(names: &[Spelling], recent: &[u32], key: u128) -> Option<usize>
    requires { IsShort key }
    ensures { IfSome result (λ number. slice_get names.now number ≡ Some (unpacked key)) }
{
    let number = *recent.get(place(mix(key), recent.len()))? as usize;
    if names.get(number)?.is_short(key) {
        Some(number)
    } else {
        None
    }
}

/// The number that is noted for a name that is not short, if that name has it.
pub(crate) fn guess_long(names: &[Spelling], recent: &[u32], name: &[u8]) -> Option<usize>
    requires { 15 < length name.now }
    ensures { IfSome result (λ number. slice_get names.now number ≡ Some name.now) }
{
    let number = *recent.get(place(mix_long(name), recent.len()))? as usize;
    if names.get(number)?.is_long(name) {
        Some(number)
    } else {
        None
    }
}

/// Notes the number of the short name of a number.
pub(crate) fn note_short(recent: &mut Vec<u32>, key: u128, number: usize) {
    let place = place(mix(key), recent.len());
    note(recent, place, number);
}

/// Notes the number of a name that is not short.
pub(crate) fn note_long(recent: &mut Vec<u32>, name: &[u8], number: usize)
    requires { 15 < length name.now }
{
    let place = place(mix_long(name), recent.len());
    note(recent, place, number);
}

/// Makes twice as many places as there are names, where there are fewer, and notes all names anew. Where no memory is left for more places, they
/// stay as they are.
pub(crate) fn widen(recent: &mut Vec<u32>, names: &[Spelling]) {
    let len = recent.len();
    if len < names.len().saturating_mul(2) {
        let wanted = len.saturating_mul(2).max(FEWEST);
        if recent.resize(wanted, 0).is_ok() {
            note_all(recent, names);
        }
    }
}

// Notes the number of each name.
fn note_all(recent: &mut Vec<u32>, names: &[Spelling]) {
    for number in 0..names.len() {
        let place = place(names[number].mixed(), recent.len());
        note(recent, place, number);
    }
}

fn note(recent: &mut Vec<u32>, place: usize, number: usize) {
    let Ok(number) = u32::try_from(number) else {
        return;
    };
    if let Some(noted) = recent.get_mut(place) {
        *noted = number;
    }
}

// The place of a name whose bytes are mixed to this number, among so many places, a power of two.
fn place(mixed: u64, count: usize) -> usize {
    mixed as usize & count.wrapping_sub(1)
}

/// A number of which most bits depend on most bytes of a short name.
pub(crate) fn mix(key: u128) -> u64 {
    let low = (key % 18_446_744_073_709_551_616) as u64;
    let high = (key / 18_446_744_073_709_551_616) as u64;
    let mixed = (low ^ high.rotate_left(29)).wrapping_mul(0x9E37_79B9_7F4A_7C15);
    mixed ^ (mixed >> 32)
}

/// The same of the last bytes of a name that is not short.
pub(crate) fn mix_long(name: &[u8]) -> u64
    requires { 15 < length name.now }
{
    let end = &name[name.len() - SHORT..];
    mix(packed(end))
}
