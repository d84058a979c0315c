//! Where a part of a sequent's product stands.
ghost use Rattle.std.specs.Prelude.{◌≡◌};
ghost use Rattle.translate_spec.specs.TypeEnc.{depth_of};
ghost use Rattle.decode_back.specs.Walks.{at_place};

/// How many binders are round a part: those of type variables, of free variables and of hypotheses, from without, and then those of its
/// own term.
#[derive(Clone, Copy)]
pub struct Place {
    pub type_variables: usize,
    pub free_variables: usize,
    pub hypotheses: usize,
    pub binders: usize,
}

impl Place {
    // How many binders there are.
    pub(crate) fn depth(self) -> u128
        ensures { result ≡ depth_of (at_place self) }
    {
        self.type_variables as u128
            + self.free_variables as u128
            + self.hypotheses as u128
            + self.binders as u128
    }
}
