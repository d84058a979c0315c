//! Checks each declaration of a module by itself, and counts the steps of budget.
ghost use Rattle.std.specs.Prelude.{◌≡◌, ◌<◌, length};
ghost use Rattle.lp_spec.specs.ModuleOrder.{IsModule};
ghost use Rattle.holide_sig.specs.Modules.{declarations_of, IsHeld};

use common::{Budget, Memory};
use holide_sig::Module;
use lp_conv::Answer;
use lp_kernel::check_decl;
use std::alloc::Global;

// Checks a declaration, and says what the module keeps.
fn answer(alloc: Global, base: &mut Module, i: usize, budget: &mut Budget) -> Result<Answer, Memory>
    requires held { IsHeld base.old }
    requires is_module { IsModule (declarations_of base.old) }
    requires i { i < length base.old.decls }
    ensures held { IsHeld base.new }
    ensures is_module { IsModule (declarations_of base.new) }
    ensures decls { base.new.decls ≡ base.old.decls }
{
    check_decl(alloc, base, i, budget)
}

// How many declarations are accepted under the budget.
fn checked(alloc: Global, base: &mut Module, budget: &mut Budget) -> Result<usize, Memory>
    requires held { IsHeld base.old }
    requires is_module { IsModule (declarations_of base.old) }
{
    let mut count: usize = 0;
    for i in 0..base.decls.len() {
        if let Answer::Yes = answer(alloc, base, i, budget)? {
            count = count.saturating_add(1);
        }
    }
    Ok(count)
}

/// How many declarations are accepted, each checked by itself, and the steps that they take of a budget as large as there is.
pub(crate) fn counted(alloc: Global, base: &mut Module) -> Result<(usize, u128), Memory>
    requires held { IsHeld base.old }
    requires is_module { IsModule (declarations_of base.old) }
{
    let mut budget = Budget { left: u128::MAX };
    let count = checked(alloc, base, &mut budget)?;
    Ok((count, u128::MAX.saturating_sub(budget.left)))
}
