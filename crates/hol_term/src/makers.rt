//! The calls that make types and terms.
ghost use Rattle.std.specs.Prelude.{◌≡◌, ◌<◌, None, Some, length, IfOk, IfErr, IfSome, IsTrue, OnErr, MatchOption};
ghost use Rattle.common.specs.declared.faults.Fault.TheVariants as the_fault;
ghost use Rattle.hol_spec.specs.Limits.{TermWithin, TypeWithin};
ghost use Rattle.hol_spec.specs.Substitution.{TypePairs, substitute};
ghost use Rattle.hol_spec.specs.TermBinding.{close, put as put_term};
ghost use Rattle.hol_spec.specs.Terms.{Term, IsTerm, HasType, free as free_tree, constant as constant_tree, app as app_tree, lam, equation as equation_tree};
ghost use Rattle.hol_spec.specs.Primitives.{equality_name, equality_type};
ghost use Rattle.hol_spec.specs.Types.{HolType, variable, operator, types_of};
ghost use Rattle.hol_type.specs.Refusals.{RefusesType};
ghost use Rattle.hol_type.specs.Tables as type;
ghost use Rattle.hol_term.specs.Owned.{IsEarlier};
ghost use Rattle.hol_term.specs.Refusals.{RefusesTerm, RefusesTyped};
ghost use Rattle.hol_term.specs.Shapes.{equation_of};
ghost use Rattle.hol_term.specs.Tables.{Trees, term_at, type_at, terms_at, AreKnown, Holds, IsBodyFor, IsDistinct, IsTermAt, Keeps};
ghost use Rattle.hol_term.specs.Walks.{CanClose, changed};

use crate::masks::bit_mask;
use crate::memo::{Change, Place};
use crate::node::Node;
use crate::{Mark, TermId, TermTable, Variable};
use common::{Fault, Kind, Memory};
use hol_name::Name;
use hol_type::{TypeId, TypeMap};

impl TermTable {
    /// The type variable of this name.
    pub fn ty_var(&mut self, name: &Name) -> Result<TypeId, Fault>
        ensures known { IfOk result (λ id. id.0 < length self.new.types) }
        ensures made { IfOk result (λ id. type.Holds self.new.types id.0 (variable name.now)) }
        ensures terms { self.new.terms ≡ self.old.terms }
        ensures keeps { Keeps self.old self.new }
        ensures refusal { IfErr result (λ fault. fault ≡ the_fault.Memory) }
        ensures unchanged { OnErr result (self.new ≡ self.old) }
    {
        self.types.var(name)
    }

    /// The type operator of this name over these arguments. It is refused where it passes the limit of size, and else
    /// where it passes that of depth.
    pub fn ty_op(&mut self, name: &Name, args: &[TypeId]) -> Result<TypeId, Fault>
        requires { type.AreKnown self.old.types args.now }
        ensures known { IfOk result (λ id. id.0 < length self.new.types) }
        ensures made { IfOk result (λ id. type.Holds self.new.types id.0 (operator name.now (types_of (type.types_at self.old.types args.now)))) }
        ensures within { IfOk result (λ id. TypeWithin (operator name.now (types_of (type.types_at self.old.types args.now)))) }
        ensures terms { self.new.terms ≡ self.old.terms }
        ensures keeps { Keeps self.old self.new }
        ensures refusal { IfErr result (λ fault. RefusesType fault (operator name.now (types_of (type.types_at self.old.types args.now)))) }
        ensures unchanged { OnErr result (self.new ≡ self.old) }
    {
        self.types.op(name, args)
    }

    /// The type with every variable replaced, all at once, by what the first pair of its name gives. It is refused
    /// where it passes the limit of size, and else where it passes that of depth.
    pub fn ty_subst(&mut self, pairs: &[(Name, TypeId)], id: TypeId) -> Result<TypeId, Fault>
        requires pairs { type.ArePairsKnown self.old.types pairs.now }
        requires id { id.0 < length self.old.types }
        ensures known { IfOk result (λ r. r.0 < length self.new.types) }
        ensures made { IfOk result (λ r. type.Holds self.new.types r.0 (substitute (type.pairs_at self.old.types pairs.now) (type_at self.old id.0))) }
        ensures within { IfOk result (λ r. TypeWithin (substitute (type.pairs_at self.old.types pairs.now) (type_at self.old id.0))) }
        ensures terms { self.new.terms ≡ self.old.terms }
        ensures keeps { Keeps self.old self.new }
        ensures refusal { IfErr result (λ fault. RefusesType fault (substitute (type.pairs_at self.old.types pairs.now) (type_at self.old id.0))) }
        ensures unchanged { OnErr result (self.new ≡ self.old) }
    {
        self.types.subst(pairs, id)
    }

    /// A type for each variable of `general` under which it becomes `instance`, or `None` exactly where no
    /// substitution makes it that.
    pub fn ty_match(&self, general: TypeId, instance: TypeId) -> Result<Option<TypeMap>, Memory>
        requires general { general.0 < length self.now.types }
        requires instance { instance.0 < length self.now.types }
        ensures matches { IfOk result (λ found. MatchOption found
            ((s : TypePairs) → substitute s (type_at self.now general.0) ≡ type_at self.now instance.0 → ⊥)
            (λ pairs. substitute (type.pairs_at self.now.types pairs) (type_at self.now general.0) ≡ type_at self.now instance.0)) }
        ensures known { IfOk result (λ found. IfSome found (λ pairs. type.ArePairsKnown self.now.types pairs)) }
    {
        self.types.match_to(general, instance)
    }

    /// The free variable of this name and type. It is refused where it passes the limit of size, and else where it
    /// passes that of depth.
    pub fn free(&mut self, name: &Name, ty: TypeId) -> Result<TermId, Fault>
        requires { ty.0 < length self.old.types }
        ensures known { IfOk result (λ id. id.0 < length self.new.terms) }
        ensures made { IfOk result (λ id. Holds self.new id.0 (free_tree name.now (type_at self.old ty.0))) }
        ensures within { IfOk result (λ id. TermWithin (free_tree name.now (type_at self.old ty.0))) }
        ensures keeps { Keeps self.old self.new }
        ensures distinct { IsDistinct self.new.terms }
        ensures refusal { IfErr result (λ fault. RefusesTerm fault (free_tree name.now (type_at self.old ty.0))) }
        ensures unchanged { OnErr result (self.new ≡ self.old) }
    {
        let mark = self.mark();
        let made = self.free_node(name, ty);
        self.settle(mark, made)
    }

    /// The constant of this name and type. It is refused where it passes the limit of size, and else where it passes
    /// that of depth.
    pub fn constant(&mut self, name: &Name, ty: TypeId) -> Result<TermId, Fault>
        requires { ty.0 < length self.old.types }
        ensures known { IfOk result (λ id. id.0 < length self.new.terms) }
        ensures made { IfOk result (λ id. Holds self.new id.0 (constant_tree name.now (type_at self.old ty.0))) }
        ensures within { IfOk result (λ id. TermWithin (constant_tree name.now (type_at self.old ty.0))) }
        ensures keeps { Keeps self.old self.new }
        ensures distinct { IsDistinct self.new.terms }
        ensures refusal { IfErr result (λ fault. RefusesTerm fault (constant_tree name.now (type_at self.old ty.0))) }
        ensures unchanged { OnErr result (self.new ≡ self.old) }
    {
        let mark = self.mark();
        let made = self.constant_node(name, ty);
        self.settle(mark, made)
    }

    /// The application of a function to an argument. It is refused where the types do not fit, else where it passes the
    /// limit of size, and else where it passes that of depth.
    pub fn app(&mut self, f: TermId, x: TermId) -> Result<TermId, Fault>
        requires function { IsTermAt self.old f.0 }
        requires argument { IsTermAt self.old x.0 }
        ensures known { IfOk result (λ id. id.0 < length self.new.terms) }
        ensures made { IfOk result (λ id. Holds self.new id.0 (app_tree (term_at self.old f.0) (term_at self.old x.0))) }
        ensures typed { IfOk result (λ id. IsTerm (app_tree (term_at self.old f.0) (term_at self.old x.0))) }
        ensures within { IfOk result (λ id. TermWithin (app_tree (term_at self.old f.0) (term_at self.old x.0))) }
        ensures keeps { Keeps self.old self.new }
        ensures distinct { IsDistinct self.new.terms }
        ensures refusal { IfErr result (λ fault. RefusesTyped fault (app_tree (term_at self.old f.0) (term_at self.old x.0))) }
        ensures unchanged { OnErr result (self.new ≡ self.old) }
    {
        let mark = self.mark();
        let Some(_ty) = self.applied(self.ty(f), self.ty(x)) else {
            return Err(Fault::Refused(Kind::TypeMismatch));
        };
        let made = self.raw_application(f, x);
        self.settle(mark, made)
    }

    /// The abstraction of a term over a free variable. It is refused where it passes the limit of size, and else where
    /// it passes that of depth.
    pub fn abs(&mut self, var: &Variable, id: TermId) -> Result<TermId, Fault>
        requires variable { var.now.ty.0 < length self.old.types }
        requires body { IsTermAt self.old id.0 }
        ensures known { IfOk result (λ r. r.0 < length self.new.terms) }
        ensures made { IfOk result (λ r. Holds self.new r.0
            (lam (type_at self.old var.now.ty.0) (close (var.now.name, type_at self.old var.now.ty.0) (term_at self.old id.0)))) }
        ensures within { IfOk result (λ r. TermWithin
            (lam (type_at self.old var.now.ty.0) (close (var.now.name, type_at self.old var.now.ty.0) (term_at self.old id.0)))) }
        ensures keeps { Keeps self.old self.new }
        ensures distinct { IsDistinct self.new.terms }
        ensures refusal { IfErr result (λ fault. RefusesTerm fault
            (lam (type_at self.old var.now.ty.0) (close (var.now.name, type_at self.old var.now.ty.0) (term_at self.old id.0)))) }
        ensures unchanged { OnErr result (self.new ≡ self.old) }
    {
        let mark = self.mark();
        let made = self.raw_abstraction(var, id);
        self.settle(mark, made)
    }

    /// The body of an abstraction with an argument of the abstraction's type put for its variable. It is refused where
    /// it passes the limit of size, and else where it passes that of depth.
    pub fn inst(&mut self, body: TermId, arg: TermId) -> Result<TermId, Fault>
        requires body { body.0 < length self.old.terms }
        requires fits { IsBodyFor self.old body.0 arg.0 }
        ensures known { IfOk result (λ id. id.0 < length self.new.terms) }
        ensures made { IfOk result (λ id. Holds self.new id.0 (put_term (term_at self.old arg.0) (term_at self.old body.0))) }
        ensures typed { IfOk result (λ id. IsTerm (put_term (term_at self.old arg.0) (term_at self.old body.0))) }
        ensures within { IfOk result (λ id. TermWithin (put_term (term_at self.old arg.0) (term_at self.old body.0))) }
        ensures keeps { Keeps self.old self.new }
        ensures distinct { IsDistinct self.new.terms }
        ensures refusal { IfErr result (λ fault. RefusesTerm fault (put_term (term_at self.old arg.0) (term_at self.old body.0))) }
        ensures unchanged { OnErr result (self.new ≡ self.old) }
    {
        let mark = self.mark();
        let made = self.raw_instance(body, arg);
        self.settle(mark, made)
    }

    /// The equation of two terms. It is refused where their types differ, else where it passes the limit of size, and
    /// else where it passes that of depth.
    pub fn mk_eq(&mut self, l: TermId, r: TermId) -> Result<TermId, Fault>
        requires left { IsTermAt self.old l.0 }
        requires right { IsTermAt self.old r.0 }
        ensures known { IfOk result (λ id. id.0 < length self.new.terms) }
        ensures made { IfOk result (λ id. Holds self.new id.0 (equation_of (term_at self.old l.0) (term_at self.old r.0))) }
        ensures typed { IfOk result (λ id. IsTerm (equation_of (term_at self.old l.0) (term_at self.old r.0))) }
        ensures within { IfOk result (λ id. TermWithin (equation_of (term_at self.old l.0) (term_at self.old r.0))) }
        ensures keeps { Keeps self.old self.new }
        ensures distinct { IsDistinct self.new.terms }
        ensures refusal { IfErr result (λ fault. RefusesTyped fault (equation_of (term_at self.old l.0) (term_at self.old r.0))) }
        ensures unchanged { OnErr result (self.new ≡ self.old) }
    {
        let mark = self.mark();
        let ty = self.type_of(l);
        if ty != self.type_of(r) {
            return Err(Fault::Refused(Kind::TypeMismatch));
        }
        let made = self.raw_equation(ty, l, r);
        self.settle(mark, made)
    }

    /// The number of a term's type.
    pub fn type_of(&self, id: TermId) -> TypeId
        requires { IsTermAt self.now id.0 }
        ensures known { result.0 < length self.now.types }
        ensures is { HasType (term_at self.now id.0) (type_at self.now result.0) }
        ensures distinct { type.IsDistinct self.now.types }
    {
        self.ty(id).unwrap()
    }

    fn free_node(&mut self, name: &Name, ty: TypeId) -> Result<TermId, Memory>
        requires { ty.0 < length self.old.types }
        ensures known { IfOk result (λ id. id.0 < length self.new.terms) }
        ensures made { IfOk result (λ id. Holds self.new id.0 (free_tree name.now (type_at self.old ty.0))) }
        ensures keeps { Keeps self.old self.new }
    {
        let name = name.clone()?;
        self.add(Node::Free(name, ty))
    }

    fn constant_node(&mut self, name: &Name, ty: TypeId) -> Result<TermId, Memory>
        requires { ty.0 < length self.old.types }
        ensures known { IfOk result (λ id. id.0 < length self.new.terms) }
        ensures made { IfOk result (λ id. Holds self.new id.0 (constant_tree name.now (type_at self.old ty.0))) }
        ensures keeps { Keeps self.old self.new }
    {
        let name = name.clone()?;
        self.add(Node::Const(name, ty))
    }

    /// The application of a tree to another, whatever its size and depth. Where the types do not fit it has none.
    pub fn raw_application(&mut self, f: TermId, x: TermId) -> Result<TermId, Memory>
        requires function { f.0 < length self.old.terms }
        requires argument { x.0 < length self.old.terms }
        ensures known { IfOk result (λ id. id.0 < length self.new.terms) }
        ensures made { IfOk result (λ id. Holds self.new id.0 (app_tree (term_at self.old f.0) (term_at self.old x.0))) }
        ensures keeps { Keeps self.old self.new }
    {
        self.add(Node::App(f, x))
    }

    /// The abstraction of a tree over a free variable, whatever its size and depth.
    pub fn raw_abstraction(&mut self, var: &Variable, id: TermId) -> Result<TermId, Memory>
        requires variable { var.now.ty.0 < length self.old.types }
        requires body { id.0 < length self.old.terms }
        ensures known { IfOk result (λ r. r.0 < length self.new.terms) }
        ensures made { IfOk result (λ r. Holds self.new r.0
            (lam (type_at self.old var.now.ty.0) (close (var.now.name, type_at self.old var.now.ty.0) (term_at self.old id.0)))) }
        ensures keeps { Keeps self.old self.new }
    {
        let body = self.closed(var, id)?;
        self.add(Node::Lam(var.ty, body))
    }

    // The body of a new binder that binds a free variable of a tree. Where the measures tell that nothing changes, no
    // variable is made.
    fn closed(&mut self, var: &Variable, id: TermId) -> Result<TermId, Memory>
        requires variable { var.now.ty.0 < length self.old.types }
        requires body { id.0 < length self.old.terms }
        ensures known { IfOk result (λ r. r.0 < length self.new.terms) }
        ensures made { IfOk result (λ r. Holds self.new r.0 (close (var.now.name, type_at self.old var.now.ty.0) (term_at self.old id.0))) }
        ensures keeps { Keeps self.old self.new }
    {
        if self.is_closed_as_it_is(&var.name, id) {
            return Ok(id);
        }
        let variable = self.free_node(&var.name, var.ty)?;
        self.changed(&[variable], Change::Close, id)
    }

    // Whether the measures tell that to close a tree over a variable of this name leaves it alone.
    fn is_closed_as_it_is(&self, name: &Name, id: TermId) -> bool
        requires { id.0 < length self.now.terms }
        ensures { IsTrue result → (ty : HolType) → close (name.now, ty) (term_at self.now id.0) ≡ term_at self.now id.0 }
    {
        let measures = self.measures_of(id);
        if measures.loose > 0 {
            return false;
        }
        measures.mask & bit_mask(name) == 0
    }

    /// The body of a binder with `arg` put for its variable, whatever its size and depth.
    pub fn raw_instance(&mut self, body: TermId, arg: TermId) -> Result<TermId, Memory>
        requires body { body.0 < length self.old.terms }
        requires arg { arg.0 < length self.old.terms }
        ensures known { IfOk result (λ id. id.0 < length self.new.terms) }
        ensures made { IfOk result (λ id. Holds self.new id.0 (put_term (term_at self.old arg.0) (term_at self.old body.0))) }
        ensures keeps { Keeps self.old self.new }
    {
        self.changed(&[arg], Change::Replace, body)
    }

    /// The equation of two trees at a type, whatever its size and depth.
    pub fn raw_equation(&mut self, ty: TypeId, l: TermId, r: TermId) -> Result<TermId, Memory>
        requires ty { ty.0 < length self.old.types }
        requires left { l.0 < length self.old.terms }
        requires right { r.0 < length self.old.terms }
        ensures known { IfOk result (λ id. id.0 < length self.new.terms) }
        ensures made { IfOk result (λ id. Holds self.new id.0 (equation_tree (type_at self.old ty.0) (term_at self.old l.0) (term_at self.old r.0))) }
        ensures keeps { Keeps self.old self.new }
    {
        let constant = self.equality(ty)?;
        let left = self.add(Node::App(constant, l))?;
        self.add(Node::App(left, r))
    }

    // What a change with these arguments makes of a tree.
    pub(crate) fn changed(
        &mut self,
        args: &[TermId],
        change: Change,
        id: TermId,
    ) -> Result<TermId, Memory>
        requires id { id.0 < length self.old.terms }
        requires args { AreKnown self.old args.now }
        requires closing { CanClose (terms_at self.old args.now) change }
        ensures known { IfOk result (λ r. r.0 < length self.new.terms) }
        ensures made { IfOk result (λ r. Holds self.new r.0 (changed (terms_at self.old args.now) change 0 (term_at self.old id.0))) }
        ensures keeps { Keeps self.old self.new }
    {
        let _small = self.mark();
        let root = Place {
            id,
            depth: 0,
            change,
        };
        if self.is_left_alone(args, root) {
            return Ok(id);
        }
        self.remade(args, root)
    }

    // What was made, if it is within the limits; else all that came after the mark is given up.
    pub(crate) fn settle(
        &mut self,
        mark: Mark,
        made: Result<TermId, Memory>,
    ) -> Result<TermId, Fault>
        requires earlier { (before : Trees) × IsEarlier before self.old mark }
        requires made { IfOk made (λ id. id.0 < length self.old.terms) }
        ensures known { IfOk result (λ id. id.0 < length self.new.terms) }
        ensures made { (t : Term) → IfOk made (λ id. Holds self.old id.0 t) → IfOk result (λ id. Holds self.new id.0 t) }
        ensures within { (t : Term) → IfOk made (λ id. Holds self.old id.0 t) → IfOk result (λ id. TermWithin t) }
        ensures refusal { (t : Term) → IfOk made (λ id. Holds self.old id.0 t) → IfErr result (λ fault. RefusesTerm fault t) }
        ensures keeps { (before : Trees) → IsEarlier before self.old mark → Keeps before self.new }
        ensures distinct { IsDistinct self.new.terms }
        ensures unchanged { OnErr result ((before : Trees) → IsEarlier before self.old mark → self.new ≡ before) }
    {
        match made {
            Ok(id) => match self.measures_of(id).check_limits() {
                Ok(()) => {
                    let _distinct = self.mark();
                    Ok(id)
                }
                Err(fault) => {
                    self.cut(mark);
                    let _distinct = self.mark();
                    Err(fault)
                }
            },
            Err(_) => {
                self.cut(mark);
                let _distinct = self.mark();
                Err(Fault::Memory)
            }
        }
    }
}
