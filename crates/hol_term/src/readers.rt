//! The calls that read terms.
ghost use Rattle.std.specs.Prelude.{◌≡◌, ◌<◌, ◌-◌, ◌^◌, ◌↔◌, length, min, IsTrue, IfSome, IfNone};
ghost use Rattle.hol_spec.specs.Limits.{term_size, term_depth};
ghost use Rattle.hol_spec.specs.Terms.{Term};
ghost use Rattle.hol_term.specs.Shapes.{IsEquality, IsEquation, IsRedex, IsRelation};
ghost use Rattle.hol_term.specs.Tables.{term_at, type_at, Holds, IsDistinct, IsTermAt};
ghost use Rattle.hol_term.specs.Views.{tree_of_view, ViewBelow};

use crate::node::Node;
use crate::{Parts, TermId, TermTable, TermView};
use hol_type::TypeId;

impl TermTable {
    /// How large a tree is, types counted, or the greatest number of the type if it is larger.
    pub fn size(&self, id: TermId) -> u64
        requires { id.0 < length self.now.terms }
        ensures { result ≡ min (term_size (term_at self.now id.0)) (2 ^ 64 - 1) }
    {
        self.measures_of(id).size
    }

    /// How deep a tree is, types counted, or the greatest number of the type if it is deeper.
    pub fn depth(&self, id: TermId) -> u64
        requires { id.0 < length self.now.terms }
        ensures { result ≡ min (term_depth (term_at self.now id.0)) (2 ^ 64 - 1) }
    {
        self.measures_of(id).depth
    }

    /// The head of a tree. Its parts have lower numbers.
    pub fn view(&self, id: TermId) -> TermView<'_>
        requires { id.0 < length self.now.terms }
        ensures is { Holds self.now id.0 (tree_of_view self.now result) }
        ensures lower { ViewBelow self.now id.0 result }
        ensures distinct { IsDistinct self.now.terms }
    {
        match &self.entry(id).node {
            Node::Free(name, ty) => TermView::Free(name, *ty),
            Node::Bound(n) => TermView::Bound(*n as u128),
            Node::Const(name, ty) => TermView::Const(name, *ty),
            Node::App(f, x) => TermView::App(*f, *x),
            Node::Lam(ty, body) => TermView::Lam(*ty, *body),
        }
    }

    /// Whether a term is an abstraction applied to an argument.
    pub fn is_redex(&self, id: TermId) -> bool
        requires { IsTermAt self.now id.0 }
        ensures { IsTrue result ↔ IsRedex (term_at self.now id.0) }
    {
        let Parts::App(f, _) = self.parts(id) else {
            return false;
        };
        match self.parts(f) {
            Parts::Lam(..) => true,
            Parts::Leaf | Parts::Bound(_) | Parts::App(..) => false,
        }
    }

    /// The two sides of an equation, or `None` for a term that is none.
    pub fn dest_eq(&self, id: TermId) -> Option<(TermId, TermId)>
        requires { IsTermAt self.now id.0 }
        ensures sides { IfSome result (λ sides. IsEquation (term_at self.now id.0) (term_at self.now sides.0.0) (term_at self.now sides.1.0)) }
        ensures left { IfSome result (λ sides. sides.0.0 < id.0) }
        ensures right { IfSome result (λ sides. sides.1.0 < id.0) }
        ensures none { IfNone result ((l r : Term) → IsEquation (term_at self.now id.0) l r → ⊥) }
    {
        let Parts::App(left, r) = self.parts(id) else {
            return None;
        };
        let Parts::App(equality, l) = self.parts(left) else {
            return None;
        };
        if self.is_equality(equality) {
            Some((l, r))
        } else {
            None
        }
    }

    // Whether a tree is the constant of equality over a type.
    fn is_equality(&self, id: TermId) -> bool
        requires { id.0 < length self.now.terms }
        ensures { IsTrue result ↔ IsEquality (term_at self.now id.0) }
    {
        match &self.entry(id).node {
            Node::Const(name, ty) => {
                if !name.is_single(b"=") {
                    return false;
                }
                self.is_relation(*ty)
            }
            Node::Free(..) | Node::Bound(_) | Node::App(..) | Node::Lam(..) => false,
        }
    }

    // Whether a type is that of the relations over some type: `a -> a -> bool`.
    pub(crate) fn is_relation(&self, ty: TypeId) -> bool
        requires { ty.0 < length self.now.types }
        ensures { IsTrue result ↔ IsRelation (type_at self.now ty.0) }
    {
        let Some((domain, predicate)) = self.types.function_parts(ty) else {
            return false;
        };
        let Some((second, truth)) = self.types.function_parts(predicate) else {
            return false;
        };
        if domain != second {
            return false;
        }
        self.types.is_bool(truth)
    }
}
