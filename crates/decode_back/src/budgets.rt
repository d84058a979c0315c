//! How many nodes a term may still have.
ghost use Rattle.std.specs.Prelude.{true, false, ◌≡◌, ◌<◌, ◌≤◌, ◌+◌};

// Takes a cost off a budget, unless it is greater.
pub(crate) fn spend(budget: &mut u64, cost: u64) -> bool
    ensures paid { result ≡ true → budget.new + cost ≡ budget.old }
    ensures short { result ≡ false → budget.old < cost }
    ensures less { budget.new ≤ budget.old }
{
    if *budget < cost {
        return false;
    }
    *budget -= cost;
    true
}
