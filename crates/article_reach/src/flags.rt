//! Flags by number.
ghost use Rattle.std.specs.Prelude.{◌≡◌, ◌<◌, ◌||◌, ℕ, false, length, IfOk};
ghost use Rattle.std.specs.List.{AllByRecursion};
ghost use Rattle.article_lines.specs.Flagged.{flag};
ghost use Rattle.article_reach.specs.Least.{is_among};

use common::Memory;
use hol_rules::StepId;
use std::alloc::Global;

// So many flags, none of which is set.
pub(crate) fn unset(alloc: Global, count: usize) -> Result<Vec<bool>, Memory>
    ensures count { IfOk result (λ flags. length flags.items ≡ count) }
    ensures unset { IfOk result (λ flags. (i : ℕ) → flag flags.items i ≡ false) }
{
    let flags = vec![in alloc; false; count]?;
    Ok(flags)
}

// Sets the flags of these steps.
pub(crate) fn mark_steps(flags: &mut Vec<bool>, ids: &[StepId])
    requires { AllByRecursion (λ i. i < length flags.old.items) ids.now }
    ensures count { length flags.new.items ≡ length flags.old.items }
    ensures each { (i : ℕ) → flag flags.new.items i ≡ (flag flags.old.items i || is_among ids.now i) }
{
    for id in ids {
        flags[*id] = true;
    }
}

// The flag with a number; past the last there is none.
pub(crate) fn flag_of(flags: &[bool], number: usize) -> bool
    ensures { result ≡ flag flags.now number }
{
    match flags.get(number) {
        Some(flag) => *flag,
        None => false,
    }
}
