//! The constants of equality, each found again by the number of its type.
ghost use Rattle.std.specs.Prelude.{◌≡◌, ◌<◌, length, IfOk, IfSome, IsTrue};
ghost use Rattle.hol_spec.specs.Primitives.{equality_name, equality_type};
ghost use Rattle.hol_spec.specs.Terms.{constant as constant_tree};
ghost use Rattle.hol_term.specs.Tables.{type_at, Holds, Keeps};

use crate::node::Node;
use crate::{TermId, TermTable};
use common::Memory;
use hol_name::Name;
use hol_type::TypeId;

impl TermTable {
    // The constant of equality over a type.
    pub(crate) fn equality(&mut self, ty: TypeId) -> Result<TermId, Memory>
        requires { ty.0 < length self.old.types }
        ensures known { IfOk result (λ id. id.0 < length self.new.terms) }
        ensures made { IfOk result (λ id. Holds self.new id.0 (constant_tree equality_name (equality_type (type_at self.old ty.0)))) }
        ensures keeps { Keeps self.old self.new }
    {
        if let Some(id) = self.noted_equality(ty) {
            return Ok(id);
        }
        let id = self.new_equality(ty)?;
        self.note_equality(ty, id)?;
        Ok(id)
    }

    // The constant of equality over a type, if its number is noted.
    fn noted_equality(&self, ty: TypeId) -> Option<TermId>
        requires { ty.0 < length self.now.types }
        ensures known { IfSome result (λ id. id.0 < length self.now.terms) }
        ensures is { IfSome result (λ id. Holds self.now id.0 (constant_tree equality_name (equality_type (type_at self.now ty.0)))) }
    {
        let Some(id) = self.equalities.get(ty.0).copied() else {
            return None;
        };
        if id.0 < self.count() && self.is_equality_over(id, ty) {
            Some(id)
        } else {
            None
        }
    }

    // Whether a tree is the constant of equality over a type.
    fn is_equality_over(&self, id: TermId, ty: TypeId) -> bool
        requires id { id.0 < length self.now.terms }
        requires ty { ty.0 < length self.now.types }
        ensures { IsTrue result → Holds self.now id.0 (constant_tree equality_name (equality_type (type_at self.now ty.0))) }
    {
        match &self.entry(id).node {
            Node::Const(name, relation) => {
                name.is_single(b"=") && self.is_relation_over(*relation, ty)
            }
            Node::Free(..) | Node::Bound(_) | Node::App(..) | Node::Lam(..) => false,
        }
    }

    // Whether a type is that of the relations over another.
    fn is_relation_over(&self, relation: TypeId, ty: TypeId) -> bool
        requires relation { relation.0 < length self.now.types }
        requires ty { ty.0 < length self.now.types }
        ensures { IsTrue result → type_at self.now relation.0 ≡ equality_type (type_at self.now ty.0) }
    {
        match self.types.function_parts(relation) {
            Some((domain, _)) => domain == ty && self.is_relation(relation),
            None => false,
        }
    }

    // Notes the number of the constant of equality over a type.
    fn note_equality(&mut self, ty: TypeId, id: TermId) -> Result<(), Memory>
        ensures unchanged { self.new ≡ self.old }
    {
        note(&mut self.equalities, ty.0, id)
    }

    // The constant of equality over a type, made anew or found among the terms.
    fn new_equality(&mut self, ty: TypeId) -> Result<TermId, Memory>
        requires { ty.0 < length self.old.types }
        ensures known { IfOk result (λ id. id.0 < length self.new.terms) }
        ensures made { IfOk result (λ id. Holds self.new id.0 (constant_tree equality_name (equality_type (type_at self.old ty.0)))) }
        ensures keeps { Keeps self.old self.new }
    {
        let Ok(name) = Name::single(self.alloc, b"=") else {
            return Err(Memory);
        };
        let relation = self.relation_type(ty)?;
        self.add(Node::Const(name, relation))
    }

    // The type of equality over a type. No term is made.
    fn relation_type(&mut self, ty: TypeId) -> Result<TypeId, Memory>
        requires { ty.0 < length self.old.types }
        ensures known { IfOk result (λ id. id.0 < length self.new.types) }
        ensures made { IfOk result (λ id. type_at self.new id.0 ≡ equality_type (type_at self.old ty.0)) }
        ensures terms { self.new.terms ≡ self.old.terms }
        ensures keeps { Keeps self.old self.new }
    {
        let truth = self.bool_type()?;
        let predicate = self.function_type(ty, truth)?;
        self.function_type(ty, predicate)
    }
}

// Puts a number at a place, and at the places before it that there aren't yet.
fn note(numbers: &mut Vec<TermId>, place: usize, id: TermId) -> Result<(), Memory> {
    while numbers.len() <= place {
        numbers.push(id)?;
    }
    numbers[place] = id;
    Ok(())
}
