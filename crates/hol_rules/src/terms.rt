//! The calls that make types and terms, and that take symbols, over the proof's table and its symbols.
ghost use Rattle.std.specs.Prelude.{◌≡◌, ◌<◌, ◌++◌, length, map, IfOk, IfErr, OnOk, OnErr};
ghost use Rattle.common.specs.declared.faults.Fault.TheVariants as the_fault;
ghost use Rattle.hol_defs.specs.Refusals.{FitsGeneric, FitsArity, RefusesConstant, RefusesOperator};
ghost use Rattle.hol_defs.specs.Symbols.{symbols_at, AreKnownSymbols};
ghost use Rattle.hol_spec.specs.Limits.{TermWithin, TypeWithin};
ghost use Rattle.hol_spec.specs.Proofs as proof;
ghost use Rattle.hol_spec.specs.Proofs.{symbols_of};
ghost use Rattle.hol_spec.specs.Rules.{abstraction as abstraction_tree};
ghost use Rattle.hol_spec.specs.Symbols.{generic_type, operator_arity, new_constant, new_operator};
ghost use Rattle.hol_spec.specs.Terms.{IsTerm, free as free_tree, constant as constant_tree, app as app_tree};
ghost use Rattle.hol_spec.specs.Types.{variable, operator, types_of};
ghost use Rattle.hol_term.specs.Refusals.{RefusesTerm, RefusesTyped};
ghost use Rattle.hol_term.specs.Tables.{term_at, type_at, IsTermAt, Trees};
ghost use Rattle.hol_type.specs.Refusals.{RefusesType};
ghost use Rattle.hol_type.specs.Tables as type;
ghost use Rattle.hol_rules.specs.Kept.{Grows};
ghost use Rattle.hol_rules.specs.Premises.{IsNumberOf};
ghost use Rattle.hol_rules.specs.Views.{variable_view};
ghost use Rattle.hol_rules.specs.declared.made.Made.TheVariants as one;

use crate::made::Made;
use crate::proof::Proof;
use common::Fault;
use hol_defs::Symbols;
use hol_name::Name;
use hol_term::{TermId, TermTable, Variable};
use hol_type::TypeId;

impl Proof {
    /// The type variable of this name.
    pub fn ty_var(&mut self, name: &Name) -> Result<TypeId, Fault>
        ensures known { IfOk result (λ id. id.0 < length self.new.trees.types) }
        ensures made { IfOk result (λ id. type_at self.new.trees id.0 ≡ variable name.now) }
        ensures refusal { IfErr result (λ fault. fault ≡ the_fault.Memory) }
        ensures grows { Grows self.old self.new }
    {
        self.terms.ty_var(name)
    }

    /// The type operator of this name over these arguments. It is refused where it passes the limit of size, and else
    /// where it passes that of depth.
    pub fn ty_op(&mut self, name: &Name, args: &[TypeId]) -> Result<TypeId, Fault>
        requires { type.AreKnown self.old.trees.types args.now }
        ensures known { IfOk result (λ id. id.0 < length self.new.trees.types) }
        ensures made { IfOk result (λ id. type_at self.new.trees id.0 ≡ operator name.now (types_of (type.types_at self.old.trees.types args.now))) }
        ensures within { IfOk result (λ id. TypeWithin (operator name.now (types_of (type.types_at self.old.trees.types args.now)))) }
        ensures refusal { IfErr result (λ fault. RefusesType fault (operator name.now (types_of (type.types_at self.old.trees.types args.now)))) }
        ensures grows { Grows self.old self.new }
    {
        self.terms.ty_op(name, args)
    }

    /// The free variable of this name and type. It is refused where it passes the limit of size, and else where it
    /// passes that of depth.
    pub fn free(&mut self, name: &Name, ty: TypeId) -> Result<TermId, Fault>
        requires { ty.0 < length self.old.trees.types }
        ensures made { IfOk result (λ id. IsNumberOf self.new.trees id (free_tree name.now (type_at self.old.trees ty.0))) }
        ensures within { IfOk result (λ id. TermWithin (free_tree name.now (type_at self.old.trees ty.0))) }
        ensures refusal { IfErr result (λ fault. RefusesTerm fault (free_tree name.now (type_at self.old.trees ty.0))) }
        ensures grows { Grows self.old self.new }
    {
        self.terms.free(name, ty)
    }

    /// The constant of this name and type. It is refused where it passes the limit of size, and else where it passes
    /// that of depth.
    pub fn constant(&mut self, name: &Name, ty: TypeId) -> Result<TermId, Fault>
        requires { ty.0 < length self.old.trees.types }
        ensures made { IfOk result (λ id. IsNumberOf self.new.trees id (constant_tree name.now (type_at self.old.trees ty.0))) }
        ensures within { IfOk result (λ id. TermWithin (constant_tree name.now (type_at self.old.trees ty.0))) }
        ensures refusal { IfErr result (λ fault. RefusesTerm fault (constant_tree name.now (type_at self.old.trees ty.0))) }
        ensures grows { Grows self.old self.new }
    {
        self.terms.constant(name, ty)
    }

    /// The application of a function to an argument. It is refused where the types do not fit, else where it passes the
    /// limit of size, and else where it passes that of depth.
    pub fn app(&mut self, f: TermId, x: TermId) -> Result<TermId, Fault>
        requires function { IsTermAt self.old.trees f.0 }
        requires argument { IsTermAt self.old.trees x.0 }
        ensures made { IfOk result (λ id. IsNumberOf self.new.trees id (app_tree (term_at self.old.trees f.0) (term_at self.old.trees x.0))) }
        ensures typed { IfOk result (λ id. IsTerm (app_tree (term_at self.old.trees f.0) (term_at self.old.trees x.0))) }
        ensures within { IfOk result (λ id. TermWithin (app_tree (term_at self.old.trees f.0) (term_at self.old.trees x.0))) }
        ensures refusal { IfErr result (λ fault. RefusesTyped fault (app_tree (term_at self.old.trees f.0) (term_at self.old.trees x.0))) }
        ensures grows { Grows self.old self.new }
    {
        self.terms.app(f, x)
    }

    /// The abstraction of a term over a free variable. It is refused where it passes the limit of size, and else where
    /// it passes that of depth.
    pub fn abs(&mut self, var: &Variable, id: TermId) -> Result<TermId, Fault>
        requires variable { var.now.ty.0 < length self.old.trees.types }
        requires body { IsTermAt self.old.trees id.0 }
        ensures made { IfOk result (λ r. IsNumberOf self.new.trees r (abstraction_tree (variable_view self.old.trees var.now) (term_at self.old.trees id.0))) }
        ensures within { IfOk result (λ r. TermWithin (abstraction_tree (variable_view self.old.trees var.now) (term_at self.old.trees id.0))) }
        ensures refusal { IfErr result (λ fault. RefusesTerm fault (abstraction_tree (variable_view self.old.trees var.now) (term_at self.old.trees id.0))) }
        ensures grows { Grows self.old self.new }
    {
        self.terms.abs(var, id)
    }

    /// The use of a constant of this name at a type: it is taken where it is no constant yet. It is refused with
    /// `BadConstType` exactly where it has a generic type of which this type is no instance.
    pub fn use_const(&mut self, name: &Name, ty: TypeId) -> Result<(), Fault>
        requires { ty.0 < length self.old.trees.types }
        ensures takes { OnOk result (self.new.made ≡ self.old.made ++ map proof.Made.symbol (new_constant (symbols_of self.old.made) name.now)) }
        ensures fits { OnOk result (FitsGeneric (generic_type (symbols_of self.old.made) name.now) (type_at self.old.trees ty.0)) }
        ensures refusal { IfErr result (λ fault. RefusesConstant fault (generic_type (symbols_of self.old.made) name.now) (type_at self.old.trees ty.0)) }
        ensures unchanged { OnErr result (self.new.made ≡ self.old.made) }
        ensures trees { self.new.trees ≡ self.old.trees }
    {
        use_constant(&mut self.symbols, &mut self.terms, &mut self.made, name, ty)
    }

    /// The use of an operator of this name with `arity` arguments: it is taken where it is no operator yet. It is
    /// refused with `BadArity` exactly where it is an operator that takes another number of arguments.
    pub fn use_op(&mut self, name: &Name, arity: usize) -> Result<(), Fault>
        ensures takes { OnOk result (self.new.made ≡ self.old.made ++ map proof.Made.symbol (new_operator (symbols_of self.old.made) name.now arity)) }
        ensures fits { OnOk result (FitsArity (operator_arity (symbols_of self.old.made) name.now) arity) }
        ensures refusal { IfErr result (λ fault. RefusesOperator fault (operator_arity (symbols_of self.old.made) name.now) arity) }
        ensures unchanged { OnErr result (self.new.made ≡ self.old.made) }
        ensures trees { self.new.trees ≡ self.old.trees }
    {
        use_operator(&mut self.symbols, &mut self.made, name, arity)
    }
}

// The use of a constant, which is noted as made where it is taken. It is noted first, so that nothing fails once it is
// taken.
fn use_constant(
    symbols: &mut Symbols,
    terms: &mut TermTable,
    made: &mut Vec<Made>,
    name: &Name,
    ty: TypeId,
) -> Result<(), Fault>
    requires known { AreKnownSymbols terms.old symbols.old }
    requires ty { ty.0 < length terms.old.types }
    ensures takes { OnOk result (symbols_at terms.old symbols.new ≡
        symbols_at terms.old symbols.old ++ new_constant (symbols_at terms.old symbols.old) name.now) }
    ensures noted { OnOk result (made.new.items ≡
        made.old.items ++ map (λ _. one.InputConst name.now) (new_constant (symbols_at terms.old symbols.old) name.now)) }
    ensures fits { OnOk result (FitsGeneric (generic_type (symbols_at terms.old symbols.old) name.now) (type_at terms.old ty.0)) }
    ensures refusal { IfErr result (λ fault. RefusesConstant fault (generic_type (symbols_at terms.old symbols.old) name.now) (type_at terms.old ty.0)) }
    ensures untaken { OnErr result (symbols.new ≡ symbols.old) }
    ensures unnoted { OnErr result (made.new.items ≡ made.old.items) }
    ensures known { AreKnownSymbols terms.old symbols.new }
    ensures table { terms.new ≡ terms.old }
{
    made.reserve(1)?;
    let own = name.clone()?;
    let count = symbols.count();
    let place = made.len();
    made.push_reserved(Made::InputConst(own));
    match symbols.use_const(terms, name, ty) {
        Ok(()) => {
            if symbols.count() > count {
                return Ok(());
            }
            made.truncate(place);
            Ok(())
        }
        Err(fault) => {
            made.truncate(place);
            Err(fault)
        }
    }
}

// The use of an operator, which is noted as made where it is taken. It is noted first, so that nothing fails once it is
// taken.
fn use_operator(
    symbols: &mut Symbols,
    made: &mut Vec<Made>,
    name: &Name,
    arity: usize,
) -> Result<(), Fault>
    ensures takes { OnOk result ((trees : Trees) →
        symbols_at trees symbols.new ≡ symbols_at trees symbols.old ++ new_operator (symbols_at trees symbols.old) name.now arity) }
    ensures noted { OnOk result ((trees : Trees) →
        made.new.items ≡ made.old.items ++ map (λ _. one.InputOp name.now arity) (new_operator (symbols_at trees symbols.old) name.now arity)) }
    ensures fits { OnOk result ((trees : Trees) → FitsArity (operator_arity (symbols_at trees symbols.old) name.now) arity) }
    ensures refusal { IfErr result (λ fault. (trees : Trees) → RefusesOperator fault (operator_arity (symbols_at trees symbols.old) name.now) arity) }
    ensures untaken { OnErr result (symbols.new ≡ symbols.old) }
    ensures unnoted { OnErr result (made.new.items ≡ made.old.items) }
    ensures known { (trees : Trees) → AreKnownSymbols trees symbols.old → AreKnownSymbols trees symbols.new }
{
    made.reserve(1)?;
    let own = name.clone()?;
    let count = symbols.count();
    let place = made.len();
    made.push_reserved(Made::InputOp(own, arity));
    match symbols.use_op(name, arity) {
        Ok(()) => {
            if symbols.count() > count {
                return Ok(());
            }
            made.truncate(place);
            Ok(())
        }
        Err(fault) => {
            made.truncate(place);
            Err(fault)
        }
    }
}
