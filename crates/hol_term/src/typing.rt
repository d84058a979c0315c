//! How a tree is made with its measures and its type.
ghost use Rattle.std.specs.Prelude.{◌≡◌, ◌⊎◌, ◌<◌, ◌+◌, ◌-◌, ◌^◌, [], ◌∷◌, min, Option, length, IfOk, IfSome, OnOk};
ghost use Rattle.std.specs.Option.{option_map};
ghost use Rattle.hol_spec.specs.Types.{HolType};
ghost use Rattle.hol_spec.specs.Primitives.{function as function_type};
ghost use Rattle.hol_spec.specs.Terms.{type_of, lam, application_type};
ghost use Rattle.hol_spec.specs.TermBinding.{loose};
ghost use Rattle.hol_spec.specs.Limits.{type_size, type_depth};
ghost use Rattle.hol_type.specs.declared.table.TypeId.{TypeId as ATypeId};
ghost use Rattle.hol_type.specs.Tables as type;
ghost use Rattle.hol_term.specs.declared.seats.Seat.{Seat as ASeat};
ghost use Rattle.hol_term.specs.declared.seats.Step.TheVariants as the_step;
ghost use Rattle.tree_map.specs.Noted.{IsNoted};
ghost use Rattle.hol_term.specs.Tables.{term_at, type_at, Holds, Keeps, IsTypeNumber};
ghost use Rattle.hol_term.specs.Nodes.{tree_of_node, PartsBelow, AreMeasures};
ghost use Rattle.hol_term.specs.Typing.{seat_type, AreTypings, IsSeat};
ghost use Rattle.hol_term.specs.Inferring.{IsInferring, count};

use crate::masks::bit_mask;
use crate::node::{Entry, Facts, Measures, Node, Packed};
use crate::scopes::NO_BINDERS;
use crate::seats::{Found, Seat, Step, Typings};
use crate::{Parts, TermId, TermTable};
use common::Memory;
use hol_type::TypeId;

impl TermTable {
    // The tree of this node, which has a number already, or else gets the next one.
    pub(crate) fn add(&mut self, node: Node) -> Result<TermId, Memory>
        requires { PartsBelow (length self.old.terms) (length self.old.types) node }
        ensures known { IfOk result (λ id. id.0 < length self.new.terms) }
        ensures made { IfOk result (λ id. Holds self.new id.0 (tree_of_node self.old node)) }
        ensures keeps { Keeps self.old self.new }
    {
        let measures = self.measures(&node);
        let ty = self.type_of_node(&node)?;
        let facts = Packed::of(Facts { measures, ty })?;
        self.insert(Entry { node, facts })
    }

    // The measures of this node.
    fn measures(&self, node: &Node) -> Measures
        requires { PartsBelow (length self.now.terms) (length self.now.types) node.now }
        ensures { AreMeasures result (tree_of_node self.now node.now) }
    {
        match node {
            Node::Free(name, ty) => self.leaf_measures(*ty, bit_mask(name)),
            Node::Bound(n) => Measures::leaf(0, 0, *n as u128 + 1, 0),
            Node::Const(_, ty) => self.leaf_measures(*ty, 0),
            Node::App(f, x) => self.measures_of(*f).joined(self.measures_of(*x)),
            Node::Lam(ty, body) => {
                let body = self.measures_of(*body).under_binder();
                self.type_measures(*ty).joined(body)
            }
        }
    }

    // The type of this node, if it is a term.
    fn type_of_node(&mut self, node: &Node) -> Result<Option<TypeId>, Memory>
        requires { PartsBelow (length self.old.terms) (length self.old.types) node.now }
        ensures typed { IfOk result (λ ty. IsTypeNumber self.new.types ty (type_of (tree_of_node self.old node.now))) }
        ensures terms { self.new.terms ≡ self.old.terms }
        ensures keeps { Keeps self.old self.new }
    {
        match node {
            Node::Free(_, ty) | Node::Const(_, ty) => Ok(Some(*ty)),
            Node::Bound(_) => Ok(None),
            Node::App(f, x) => Ok(self.applied(self.ty(*f), self.ty(*x))),
            Node::Lam(ty, body) => self.abstraction_type(*ty, *body),
        }
    }

    // The type of an application, from those of its parts.
    pub(crate) fn applied(
        &self,
        function: Option<TypeId>,
        argument: Option<TypeId>,
    ) -> Option<TypeId>
        requires { (o : Option HolType) × IsTypeNumber self.now.types function o }
        ensures { (o p : Option HolType) → IsTypeNumber self.now.types function o → IsTypeNumber self.now.types argument p
            → IsTypeNumber self.now.types result (application_type o p) }
    {
        let (Some(function), Some(argument)) = (function, argument) else {
            return None;
        };
        match self.types.function_parts(function) {
            Some((domain, codomain)) if domain == argument => Some(codomain),
            _ => None,
        }
    }

    // The type of an abstraction, from those of its variable and of its body.
    fn abstracted(&mut self, ty: TypeId, body: Option<TypeId>) -> Result<Option<TypeId>, Memory>
        requires ty { ty.0 < length self.old.types }
        requires body { (o : Option HolType) × IsTypeNumber self.old.types body o }
        ensures typed { IfOk result (λ r. (o : Option HolType) → IsTypeNumber self.old.types body o
            → IsTypeNumber self.new.types r (option_map (function_type (type_at self.old ty.0)) o)) }
        ensures terms { self.new.terms ≡ self.old.terms }
        ensures keeps { Keeps self.old self.new }
    {
        match body {
            Some(body) => Ok(Some(self.function_type(ty, body)?)),
            None => Ok(None),
        }
    }

    // The type of an abstraction, if it is a term.
    fn abstraction_type(&mut self, ty: TypeId, body: TermId) -> Result<Option<TypeId>, Memory>
        requires ty { ty.0 < length self.old.types }
        requires body { body.0 < length self.old.terms }
        ensures typed { IfOk result (λ r. IsTypeNumber self.new.types r (type_of (lam (type_at self.old ty.0) (term_at self.old body.0)))) }
        ensures terms { self.new.terms ≡ self.old.terms }
        ensures keeps { Keeps self.old self.new }
    {
        if self.measures_of(body).loose > 1 {
            return Ok(None);
        }
        let mut typings = Typings::new(self.alloc);
        self.abstraction_inferred(ty, body, &mut typings)
    }

    // The type of an abstraction under no binders, if it has one, by a walk that has nothing to do yet.
    fn abstraction_inferred(
        &mut self,
        ty: TypeId,
        body: TermId,
        typings: &mut Typings,
    ) -> Result<Option<TypeId>, Memory>
        requires ty { ty.0 < length self.old.types }
        requires body { body.0 < length self.old.terms }
        requires steps { typings.old.steps ≡ [] }
        requires types { typings.old.types ≡ [] }
        requires scopes { typings.old.scopes ≡ [] ∷ [] }
        requires found { (s : ASeat) (r : Option ATypeId) → IsNoted typings.old.found s r → ⊥ }
        ensures typed { IfOk result (λ r. IsTypeNumber self.new.types r (type_of (lam (type_at self.old ty.0) (term_at self.old body.0)))) }
        ensures terms { self.new.terms ≡ self.old.terms }
        ensures keeps { Keeps self.old self.new }
    {
        let scope = typings.scopes.enter(NO_BINDERS, ty)?;
        let codomain = self.inferred(Seat { id: body, scope }, typings)?;
        self.abstracted(ty, codomain)
    }

    // The type of a tree under binders, if it has one, by a walk that has nothing to do yet.
    fn inferred(&mut self, root: Seat, typings: &mut Typings) -> Result<Option<TypeId>, Memory>
        requires root { IsSeat self.old typings.old.scopes root }
        requires steps { typings.old.steps ≡ [] }
        requires types { typings.old.types ≡ [] }
        requires typings { AreTypings self.old typings.old.scopes typings.old.found }
        ensures typed { IfOk result (λ ty. IsTypeNumber self.new.types ty (seat_type self.old typings.old.scopes root)) }
        ensures terms { self.new.terms ≡ self.old.terms }
        ensures keeps { Keeps self.old self.new }
    {
        typings.steps.push(Step::Visit(root))?;
        while let Some(step) = typings.steps.pop() {
            self.step(step, typings)?;
        }
        Ok(typings.take())
    }

    // One step of the walk.
    fn step(&mut self, step: Step, typings: &mut Typings) -> Result<(), Memory>
        requires { (root : Option HolType) × IsInferring root self.old typings.old.scopes typings.old.found (step ∷ typings.old.steps) typings.old.types }
        ensures keeps { Keeps self.old self.new }
        ensures terms { self.new.terms ≡ self.old.terms }
        ensures walk { OnOk result ((root : Option HolType)
            → IsInferring root self.old typings.old.scopes typings.old.found (step ∷ typings.old.steps) typings.old.types
            → IsInferring root self.new typings.new.scopes typings.new.found typings.new.steps typings.new.types) }
        ensures less { OnOk result (count self.new.terms typings.new.steps < count self.old.terms (step ∷ typings.old.steps)) }
    {
        match step {
            Step::Visit(seat) => self.visit_seat(seat, typings),
            Step::Apply(seat) => self.apply_types(seat, typings),
            Step::Abstract(seat, ty) => self.abstract_type(seat, ty, typings),
        }
    }

    // Finds what is known of a seat already, or sets out to find its type.
    fn visit_seat(&self, seat: Seat, typings: &mut Typings) -> Result<(), Memory>
        requires { (root : Option HolType)
            × IsInferring root self.now typings.old.scopes typings.old.found (the_step.Visit seat ∷ typings.old.steps) typings.old.types }
        ensures walk { OnOk result ((root : Option HolType)
            → IsInferring root self.now typings.old.scopes typings.old.found (the_step.Visit seat ∷ typings.old.steps) typings.old.types
            → IsInferring root self.now typings.new.scopes typings.new.found typings.new.steps typings.new.types) }
        ensures less { OnOk result (count self.now.terms typings.new.steps < count self.now.terms (the_step.Visit seat ∷ typings.old.steps)) }
    {
        match self.found_type(&typings.found, seat) {
            Some(ty) => typings.types.push(ty),
            None => self.visit_seat_anew(seat, typings),
        }
    }

    // The type of a seat's tree, if it is found already. A tree without loose numbers has the type that it is kept with.
    fn found_type(&self, found: &Found, seat: Seat) -> Option<Option<TypeId>>
        requires { seat.id.0 < length self.now.terms }
        ensures { IfSome result (λ ty. ((loose (term_at self.now seat.id.0) ≡ 0) × IsTypeNumber self.now.types ty (type_of (term_at self.now seat.id.0)))
            ⊎ IsNoted found.now seat ty) }
    {
        if self.measures_of(seat.id).loose == 0 {
            return Some(self.ty(seat.id));
        }
        found.find(seat)
    }

    // Finds the type of a leaf, or sets out to find those of the parts of a tree.
    fn visit_seat_anew(&self, seat: Seat, typings: &mut Typings) -> Result<(), Memory>
        requires { (root : Option HolType)
            × IsInferring root self.now typings.old.scopes typings.old.found (the_step.Visit seat ∷ typings.old.steps) typings.old.types }
        ensures walk { OnOk result ((root : Option HolType)
            → IsInferring root self.now typings.old.scopes typings.old.found (the_step.Visit seat ∷ typings.old.steps) typings.old.types
            → IsInferring root self.now typings.new.scopes typings.new.found typings.new.steps typings.new.types) }
        ensures less { OnOk result (count self.now.terms typings.new.steps < count self.now.terms (the_step.Visit seat ∷ typings.old.steps)) }
    {
        let scope = seat.scope;
        match self.parts(seat.id) {
            Parts::Leaf => typings.keep(seat, self.ty(seat.id)),
            Parts::Bound(n) => {
                let ty = typings.scopes.at(scope, n);
                typings.keep(seat, ty)
            }
            Parts::App(f, x) => {
                typings.set_out(seat, Seat { id: f, scope }, Seat { id: x, scope })
            }
            Parts::Lam(ty, body) => {
                let scope = typings.scopes.enter(scope, ty)?;
                typings.set_out_under(seat, ty, Seat { id: body, scope })
            }
        }
    }

    // Finds the type of an application from those of its parts, which are found.
    fn apply_types(&self, seat: Seat, typings: &mut Typings) -> Result<(), Memory>
        requires { (root : Option HolType)
            × IsInferring root self.now typings.old.scopes typings.old.found (the_step.Apply seat ∷ typings.old.steps) typings.old.types }
        ensures walk { OnOk result ((root : Option HolType)
            → IsInferring root self.now typings.old.scopes typings.old.found (the_step.Apply seat ∷ typings.old.steps) typings.old.types
            → IsInferring root self.now typings.new.scopes typings.new.found typings.new.steps typings.new.types) }
        ensures less { OnOk result (count self.now.terms typings.new.steps < count self.now.terms (the_step.Apply seat ∷ typings.old.steps)) }
    {
        let argument = typings.take();
        let function = typings.take();
        typings.keep(seat, self.applied(function, argument))
    }

    // Makes the type of an abstraction from that of its body, which is found.
    fn abstract_type(&mut self, seat: Seat, ty: TypeId, typings: &mut Typings) -> Result<(), Memory>
        requires { (root : Option HolType)
            × IsInferring root self.old typings.old.scopes typings.old.found (the_step.Abstract seat ty ∷ typings.old.steps) typings.old.types }
        ensures keeps { Keeps self.old self.new }
        ensures terms { self.new.terms ≡ self.old.terms }
        ensures walk { OnOk result ((root : Option HolType)
            → IsInferring root self.old typings.old.scopes typings.old.found (the_step.Abstract seat ty ∷ typings.old.steps) typings.old.types
            → IsInferring root self.new typings.new.scopes typings.new.found typings.new.steps typings.new.types) }
        ensures less { OnOk result (count self.new.terms typings.new.steps < count self.old.terms (the_step.Abstract seat ty ∷ typings.old.steps)) }
    {
        let codomain = typings.take();
        let made = self.abstracted(ty, codomain)?;
        typings.keep(seat, made)
    }

    // The measures of a free variable or a constant of this type, with this mask.
    fn leaf_measures(&self, ty: TypeId, mask: u64) -> Measures
        requires { ty.0 < length self.now.types }
        ensures size { result.size ≡ min (1 + type_size (type_at self.now ty.0)) (2 ^ 64 - 1) }
        ensures depth { result.depth ≡ min (1 + type_depth (type_at self.now ty.0)) (2 ^ 64 - 1) }
        ensures loose { result.loose ≡ 0 }
        ensures mask { result.mask ≡ mask }
    {
        Measures::leaf(self.types.size(ty), self.types.depth(ty), 0, mask)
    }

    // The measures of a type, as of a tree.
    fn type_measures(&self, ty: TypeId) -> Measures
        requires { ty.0 < length self.now.types }
        ensures size { result.size ≡ min (type_size (type_at self.now ty.0)) (2 ^ 64 - 1) }
        ensures depth { result.depth ≡ min (type_depth (type_at self.now ty.0)) (2 ^ 64 - 1) }
        ensures loose { result.loose ≡ 0 }
    {
        Measures {
            size: self.types.size(ty),
            depth: self.types.depth(ty),
            loose: 0,
            mask: 0,
        }
    }
}
