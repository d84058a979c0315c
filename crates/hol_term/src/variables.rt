//! The variables of a term.
ghost use Rattle.std.specs.Prelude.{◌≡◌, ◌++◌, ◌<◌, List, [], ◌∷◌, length, IfOk, OnOk};
ghost use Rattle.hol_spec.specs.Lists.{distinct, union};
ghost use Rattle.hol_spec.specs.NameEquality.{name_eq};
ghost use Rattle.hol_spec.specs.Terms.{variable_eq, free_places, type_variable_places};
ghost use Rattle.hol_spec.specs.Types.{variable_places};
ghost use Rattle.hol_type.specs.Tables as type;
ghost use Rattle.hol_term.specs.declared.TermId.{TermId as AnId};
ghost use Rattle.hol_term.specs.Subterms.{Comes, HaveTypes, IsOnTour, IsOnWay, sizes, free_head, gathered, type_head, variables_of};
ghost use Rattle.hol_term.specs.Tables.{term_at, type_at, terms_at, AreKnown};

use crate::names::Names;
use crate::node::Node;
use crate::seen::Seen;
use crate::{Parts, TermId, TermTable, Variable};
use common::{Memory, Stack};
use hol_name::Name;
use hol_type::TypeId;

impl TermTable {
    /// The free variables of a term, in order of first occurrence.
    pub fn free_vars(&self, id: TermId) -> Result<Vec<Variable>, Memory>
        requires { id.0 < length self.now.terms }
        ensures variables { IfOk result (λ variables. variables_of self.now variables.items ≡ distinct variable_eq (free_places (term_at self.now id.0))) }
        ensures known { IfOk result (λ variables. HaveTypes self.now variables.items) }
        ensures one_each { type.IsDistinct self.now.types }
    {
        let mut seen = Seen::new(self.alloc);
        self.free_vars_seen(id, &mut seen)
    }

    /// The type variables of a term, in order of first occurrence, those of a binder's type before those of its body.
    pub fn type_vars(&self, id: TermId) -> Result<Vec<Name>, Memory>
        requires { id.0 < length self.now.terms }
        ensures { IfOk result (λ names. names.items ≡ distinct name_eq (type_variable_places (term_at self.now id.0))) }
    {
        let mut seen = Seen::new(self.alloc);
        let mut names = Names::new(self.alloc);
        self.type_vars_seen(id, &mut seen, &mut names)
    }

    // The free variables of a term of which nothing is seen yet.
    fn free_vars_seen(&self, id: TermId, seen: &mut Seen) -> Result<Vec<Variable>, Memory>
        requires id { id.0 < length self.now.terms }
        requires empty { seen.old ≡ [] }
        ensures variables { IfOk result (λ variables. variables_of self.now variables.items ≡ distinct variable_eq (free_places (term_at self.now id.0))) }
        ensures known { IfOk result (λ variables. HaveTypes self.now variables.items) }
    {
        self.come_to(id, seen)?;
        self.free_among(seen.ids())
    }

    // The type variables of a term of which nothing is seen yet.
    fn type_vars_seen(
        &self,
        id: TermId,
        seen: &mut Seen,
        names: &mut Names,
    ) -> Result<Vec<Name>, Memory>
        requires id { id.0 < length self.now.terms }
        requires empty { seen.old ≡ [] }
        requires none { names.old ≡ [] }
        ensures { IfOk result (λ names. names.items ≡ distinct name_eq (type_variable_places (term_at self.now id.0))) }
    {
        self.come_to(id, seen)?;
        self.unite_heads(seen.ids(), names)?;
        names.listed(self.alloc)
    }

    // Comes to a tree and then to its parts, from the left to the right, to each once.
    fn come_to(&self, root: TermId, seen: &mut Seen) -> Result<(), Memory>
        requires root { root.0 < length self.now.terms }
        requires way { IsOnWay self.now root seen.old }
        ensures { OnOk result (Comes self.now root seen.old seen.new) }
    {
        let mut next = Stack::new(self.alloc);
        next.push(root)?;
        while let Some(id) = next.pop() {
            self.come_by(id, &mut next, seen)?;
        }
        Ok(())
    }

    // Notes a tree and sets out for its parts, if it isn't noted yet.
    fn come_by(&self, id: TermId, next: &mut Stack<TermId>, seen: &mut Seen) -> Result<(), Memory>
        requires { (root : AnId) × (before : List AnId) × IsOnTour self.now root before (id ∷ next.old) seen.old }
        ensures tour { OnOk result ((root : AnId) (before : List AnId) → IsOnTour self.now root before (id ∷ next.old) seen.old
            → IsOnTour self.now root before next.new seen.new) }
        ensures less { OnOk result (sizes self.now next.new < sizes self.now (id ∷ next.old)) }
    {
        if seen.has(id) {
            return Ok(());
        }
        seen.note(id)?;
        match self.parts(id) {
            Parts::Leaf | Parts::Bound(_) => Ok(()),
            Parts::App(f, x) => {
                next.push(x)?;
                next.push(f)
            }
            Parts::Lam(_, body) => next.push(body),
        }
    }

    // The free variables that are among some trees.
    fn free_among(&self, ids: &[TermId]) -> Result<Vec<Variable>, Memory>
        requires { AreKnown self.now ids.now }
        ensures variables { IfOk result (λ variables. variables_of self.now variables.items ≡ gathered free_head (terms_at self.now ids.now)) }
        ensures known { IfOk result (λ variables. HaveTypes self.now variables.items) }
    {
        let mut found = Vec::new(self.alloc);
        self.push_free_among(ids, &mut found)?;
        Ok(found)
    }

    // Puts the free variables that are among some trees where there is none yet.
    fn push_free_among(&self, ids: &[TermId], found: &mut Vec<Variable>) -> Result<(), Memory>
        requires ids { AreKnown self.now ids.now }
        requires none { found.old.items ≡ [] }
        ensures variables { OnOk result (variables_of self.now found.new.items ≡ gathered free_head (terms_at self.now ids.now)) }
        ensures known { OnOk result (HaveTypes self.now found.new.items) }
    {
        for id in ids {
            self.push_free(*id, found)?;
        }
        Ok(())
    }

    // Puts a tree last, if it is a free variable.
    fn push_free(&self, id: TermId, found: &mut Vec<Variable>) -> Result<(), Memory>
        requires { id.0 < length self.now.terms }
        ensures variables { OnOk result (variables_of self.now found.new.items ≡ variables_of self.now found.old.items ++ free_head (term_at self.now id.0)) }
        ensures known { OnOk result (HaveTypes self.now found.old.items → HaveTypes self.now found.new.items) }
    {
        match &self.entry(id).node {
            Node::Free(name, ty) => {
                let name = name.clone()?;
                found.push(Variable { name, ty: *ty })?;
                Ok(())
            }
            Node::Bound(_) | Node::Const(..) | Node::App(..) | Node::Lam(..) => Ok(()),
        }
    }

    // Takes the type variables in the heads of some trees, each once, where there is none yet.
    fn unite_heads(&self, ids: &[TermId], names: &mut Names) -> Result<(), Memory>
        requires known { AreKnown self.now ids.now }
        requires none { names.old ≡ [] }
        ensures { OnOk result (names.new ≡ distinct name_eq (gathered type_head (terms_at self.now ids.now))) }
    {
        for id in ids {
            self.unite_head(*id, names)?;
        }
        Ok(())
    }

    // Takes the type variables in the head of a tree.
    fn unite_head(&self, id: TermId, names: &mut Names) -> Result<(), Memory>
        requires { id.0 < length self.now.terms }
        ensures { OnOk result (names.new ≡ union name_eq names.old (type_head (term_at self.now id.0))) }
    {
        match &self.entry(id).node {
            Node::Free(_, ty) | Node::Const(_, ty) | Node::Lam(ty, _) => {
                self.unite_type(*ty, names)
            }
            Node::Bound(_) | Node::App(..) => Ok(()),
        }
    }

    // Takes the variables of a type.
    fn unite_type(&self, ty: TypeId, names: &mut Names) -> Result<(), Memory>
        requires { ty.0 < length self.now.types }
        ensures { OnOk result (names.new ≡ union name_eq names.old (variable_places (type_at self.now ty.0))) }
    {
        let found = self.types.vars(ty)?;
        names.unite(&found)
    }
}
