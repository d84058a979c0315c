//! What a walk has made and not yet taken up.
ghost use Rattle.std.specs.Prelude.{true, false, ◌≡◌, ◌<◌, ◌∷◌, length, IfOk, MatchOption};

use common::{Memory, Stack};

// Takes up what was made last.
pub(crate) fn take<T>(made: &mut Stack<T>) -> T
    requires { 0 < length made.old }
    ensures { made.old ≡ result ∷ made.new }
{
    made.pop().unwrap()
}

// Puts what is found with what was made, and tells whether it is found.
pub(crate) fn keep<T>(found: Option<T>, made: &mut Stack<T>) -> Result<bool, Memory>
where
    T: Drop,
    ensures { IfOk result (λ is_found. MatchOption found (is_found ≡ false) (λ item. (is_found ≡ true) × (made.new ≡ item ∷ made.old))) }
{
    let Some(item) = found else {
        return Ok(false);
    };
    made.push(item)?;
    Ok(true)
}
