//! The least number that isn't among some.
ghost use Rattle.std.specs.Prelude.{◌≡◌, ◌<◌, ◌≤◌, ◌||◌, ℕ, true, false, length, IfOk};
ghost use Rattle.article_lines.specs.Flagged.{flag};
ghost use Rattle.article_reach.specs.Least.{is_among, IsLeast};

use crate::flags::unset;
use common::Memory;
use std::alloc::Global;

// The least number that isn't among these.
pub(crate) fn least_free(alloc: Global, numbers: &[u64]) -> Result<u64, Memory>
    ensures { IfOk result (λ number. IsLeast numbers.now number) }
{
    let mut taken = unset(alloc, numbers.len() + 1)?;
    mark_numbers(&mut taken, numbers);
    Ok(first_unset(&taken) as u64)
}

// Sets the flags of these numbers, as far as there are flags.
fn mark_numbers(flags: &mut Vec<bool>, numbers: &[u64])
    ensures count { length flags.new.items ≡ length flags.old.items }
    ensures each { (i : ℕ) → i < length flags.old.items → flag flags.new.items i ≡ (flag flags.old.items i || is_among numbers.now i) }
{
    for number in numbers {
        if *number < flags.len() as u64 {
            flags[*number as usize] = true;
        }
    }
}

// The place of the first flag that isn't set, or how many flags there are.
fn first_unset(flags: &[bool]) -> usize
    ensures within { result ≤ length flags.now }
    ensures unset { result < length flags.now → flag flags.now result ≡ false }
    ensures set { (i : ℕ) → i < result → flag flags.now i ≡ true }
{
    for place in 0..flags.len() {
        if !flags[place] {
            return place;
        }
    }
    flags.len()
}
