//! How many steps a bounded piece of work may still take.

ghost use Rattle.std.specs.Prelude.{◌≡◌, ◌<◌, ◌+◌, true, false};

/// A number of steps that may still be taken.
#[derive(Clone, Copy, Debug, PartialEq, Eq)]
pub struct Budget {
    /// How many are left.
    pub left: u128,
}

impl Budget {
    /// Takes one step, unless none is left.
    pub fn tick(&mut self) -> bool
        ensures spent { self.old.left ≡ 0 → (result ≡ false) × (self.new.left ≡ 0) }
        ensures taken { 0 < self.old.left → (result ≡ true) × (self.new.left + 1 ≡ self.old.left) }
    {
        if self.left == 0 {
            return false;
        }
        self.left -= 1;
        true
    }
}
