//! What tells that a free variable is not in a tree: the bits of the tree's mask, and the order of numbers, by which parts come first.
ghost use Rattle.std.specs.Prelude.{◌<◌, length, IsTrue};
ghost use Rattle.hol_spec.specs.Terms.{Variable as AVariable, free as free_tree};
ghost use Rattle.hol_term.specs.Masks.{AreAbsent, IsWithout};
ghost use Rattle.hol_term.specs.Substitutions.{term_pairs_at, AreTermPairsKnown};
ghost use Rattle.hol_term.specs.Tables.{term_at, type_at, Holds};

use crate::masks::bit_mask;
use crate::node::Node;
use crate::{TermId, TermTable, Variable};
use hol_name::Name;
use hol_type::TypeId;

impl TermTable {
    // Whether the masks or the numbers of a free variable and a tree tell that the variable is not in it.
    pub(crate) fn is_without_free(&self, id: TermId, variable: TermId) -> bool
        requires id { id.0 < length self.now.terms }
        requires variable { variable.0 < length self.now.terms }
        ensures { IsTrue result → (v : AVariable) → Holds self.now variable.0 (free_tree v.0 v.1) → IsWithout v (term_at self.now id.0) }
    {
        if self.is_before(id, variable) {
            return true;
        }
        self.measures_of(id).mask & self.measures_of(variable).mask == 0
    }

    // Whether a tree has a lower number than a free variable.
    fn is_before(&self, id: TermId, variable: TermId) -> bool
        requires { id.0 < length self.now.terms }
        ensures { IsTrue result → (v : AVariable) → Holds self.now variable.0 (free_tree v.0 v.1) → IsWithout v (term_at self.now id.0) }
    {
        // That parts come first is the table's invariant.
        let _ = &self.entries;
        id.0 < variable.0
    }

    // Whether it is told of each pair that its variable is not in a tree.
    pub(crate) fn are_absent(&self, pairs: &[(Variable, TermId)], id: TermId) -> bool
        requires pairs { AreTermPairsKnown self.now pairs.now }
        requires id { id.0 < length self.now.terms }
        ensures { IsTrue result → AreAbsent (term_pairs_at self.now pairs.now) (term_at self.now id.0) }
    {
        for (variable, _) in pairs {
            if !self.is_absent(variable, id) {
                return false;
            }
        }
        true
    }

    // Whether the tree's mask, or the number of a free variable, tells that the variable is not in the tree.
    fn is_absent(&self, variable: &Variable, id: TermId) -> bool
        requires ty { variable.now.ty.0 < length self.now.types }
        requires id { id.0 < length self.now.terms }
        ensures { IsTrue result → IsWithout (variable.now.name, type_at self.now variable.now.ty.0) (term_at self.now id.0) }
    {
        if self.measures_of(id).mask & bit_mask(&variable.name) == 0 {
            return true;
        }
        match variable.name.clone() {
            Ok(name) => self.comes_later(name, variable.ty, id),
            Err(_) => false,
        }
    }

    // Whether a free variable has a greater number than a tree, or none.
    fn comes_later(&self, name: Name, ty: TypeId, id: TermId) -> bool
        requires ty { ty.0 < length self.now.types }
        requires id { id.0 < length self.now.terms }
        ensures { IsTrue result → IsWithout (name, type_at self.now ty.0) (term_at self.now id.0) }
    {
        let node = Node::Free(name, ty);
        let found = self.entries.number_of(&node);
        drop(node);
        match found {
            Some(number) => id.0 < number,
            None => true,
        }
    }
}
