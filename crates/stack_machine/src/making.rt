//! Types of operators and constants, with the symbols that they take. An input is taken last, when nothing can fail
//! but for want of memory; any other symbol is judged first, and takes nothing.
ghost use Rattle.std.specs.Prelude.{◌≡◌, ◌<◌, ◌++◌, None, is_some, true, length, map, Ok, IfOk, IfErr, OnOk, OnErr};
ghost use Rattle.hol_spec.specs.Proofs.{Made, symbols_of};
ghost use Rattle.hol_spec.specs.Symbols.{generic_type, operator_arity, new_constant, new_operator};
ghost use Rattle.hol_spec.specs.Terms.{constant};
ghost use Rattle.hol_spec.specs.Types.{operator, types_of};
ghost use Rattle.hol_type.specs.Tables.{AreKnown as AreTypes, types_at};
ghost use Rattle.hol_term.specs.Tables.{Keeps, IsTermAt, term_at, type_at};
ghost use Rattle.hol_rules.specs.Premises.{IsNumberOf};
ghost use Rattle.article_spec.specs.Results.{Fails};
ghost use Rattle.stack_machine.specs.Making.{is_own_kind};
ghost use Rattle.stack_machine.specs.Refusals.{constant_fits, operator_fits};

use common::Fault;
use hol_defs::SymbolKind;
use hol_name::Name;
use hol_rules::Proof;
use hol_term::TermId;
use hol_type::TypeId;

// Whether a name is taken so that its type or its number of arguments is settled.
fn is_own(kind: Option<SymbolKind>) -> bool
    ensures { result ≡ is_own_kind kind }
{
    match kind {
        Some(SymbolKind::Primitive | SymbolKind::Defined) => true,
        Some(SymbolKind::Input) | None => false,
    }
}

// Whether a name is that of a primitive or defined operator.
fn is_own_operator(proof: &Proof, name: &Name) -> bool
    ensures { result ≡ is_some (operator_arity (symbols_of proof.now.made) name.now) }
{
    is_own(proof.symbols().op_kind(name))
}

// Whether a name is that of a primitive or defined constant.
fn is_own_constant(proof: &Proof, name: &Name) -> bool
    ensures { result ≡ is_some (generic_type (symbols_of proof.now.made) name.now) }
{
    is_own(proof.symbols().const_kind(name))
}

// The type of an operator with these arguments.
pub(crate) fn make_operator(
    proof: &mut Proof,
    name: &Name,
    args: &[TypeId],
) -> Result<TypeId, Fault>
    requires args { AreTypes proof.old.trees.types args.now }
    ensures known { IfOk result (λ id. id.0 < length proof.new.trees.types) }
    ensures made { IfOk result (λ id. type_at proof.new.trees id.0 ≡ operator name.now (types_of (types_at proof.old.trees.types args.now))) }
    ensures fits { OnOk result (operator_fits (symbols_of proof.old.made) name.now (types_at proof.old.trees.types args.now) ≡ Ok tt) }
    ensures takes { OnOk result (proof.new.made ≡ proof.old.made ++ map Made.symbol
        (new_operator (symbols_of proof.old.made) name.now (length (types_at proof.old.trees.types args.now)))) }
    ensures refused { IfErr result (λ fault. Fails fault (operator_fits (symbols_of proof.old.made) name.now (types_at proof.old.trees.types args.now))) }
    ensures unchanged { OnErr result (proof.new.made ≡ proof.old.made) }
    ensures keeps { Keeps proof.old.trees proof.new.trees }
{
    if is_own_operator(proof, name) {
        own_operator(proof, name, args)
    } else {
        input_operator(proof, name, args)
    }
}

// The same of an operator that is no input.
fn own_operator(proof: &mut Proof, name: &Name, args: &[TypeId]) -> Result<TypeId, Fault>
    requires args { AreTypes proof.old.trees.types args.now }
    requires own { is_some (operator_arity (symbols_of proof.old.made) name.now) ≡ true }
    ensures known { IfOk result (λ id. id.0 < length proof.new.trees.types) }
    ensures made { IfOk result (λ id. type_at proof.new.trees id.0 ≡ operator name.now (types_of (types_at proof.old.trees.types args.now))) }
    ensures fits { OnOk result (operator_fits (symbols_of proof.old.made) name.now (types_at proof.old.trees.types args.now) ≡ Ok tt) }
    ensures takes { OnOk result (proof.new.made ≡ proof.old.made ++ map Made.symbol
        (new_operator (symbols_of proof.old.made) name.now (length (types_at proof.old.trees.types args.now)))) }
    ensures refused { IfErr result (λ fault. Fails fault (operator_fits (symbols_of proof.old.made) name.now (types_at proof.old.trees.types args.now))) }
    ensures unchanged { OnErr result (proof.new.made ≡ proof.old.made) }
    ensures keeps { Keeps proof.old.trees proof.new.trees }
{
    proof.use_op(name, args.len())?;
    let ty = proof.ty_op(name, args)?;
    Ok(ty)
}

// The same of an operator that is or becomes an input.
fn input_operator(proof: &mut Proof, name: &Name, args: &[TypeId]) -> Result<TypeId, Fault>
    requires args { AreTypes proof.old.trees.types args.now }
    requires input { operator_arity (symbols_of proof.old.made) name.now ≡ None }
    ensures known { IfOk result (λ id. id.0 < length proof.new.trees.types) }
    ensures made { IfOk result (λ id. type_at proof.new.trees id.0 ≡ operator name.now (types_of (types_at proof.old.trees.types args.now))) }
    ensures fits { OnOk result (operator_fits (symbols_of proof.old.made) name.now (types_at proof.old.trees.types args.now) ≡ Ok tt) }
    ensures takes { OnOk result (proof.new.made ≡ proof.old.made ++ map Made.symbol
        (new_operator (symbols_of proof.old.made) name.now (length (types_at proof.old.trees.types args.now)))) }
    ensures refused { IfErr result (λ fault. Fails fault (operator_fits (symbols_of proof.old.made) name.now (types_at proof.old.trees.types args.now))) }
    ensures unchanged { OnErr result (proof.new.made ≡ proof.old.made) }
    ensures keeps { Keeps proof.old.trees proof.new.trees }
{
    let ty = proof.ty_op(name, args)?;
    proof.use_op(name, args.len())?;
    Ok(ty)
}

// The constant of a name at a type.
pub(crate) fn make_constant(proof: &mut Proof, name: &Name, ty: TypeId) -> Result<TermId, Fault>
    requires ty { ty.0 < length proof.old.trees.types }
    ensures known { IfOk result (λ id. id.0 < length proof.new.trees.terms) }
    ensures typed { IfOk result (λ id. IsTermAt proof.new.trees id.0) }
    ensures made { IfOk result (λ id. term_at proof.new.trees id.0 ≡ constant name.now (type_at proof.old.trees ty.0)) }
    ensures fits { OnOk result (constant_fits (symbols_of proof.old.made) name.now (type_at proof.old.trees ty.0) ≡ Ok tt) }
    ensures takes { OnOk result (proof.new.made ≡ proof.old.made ++ map Made.symbol (new_constant (symbols_of proof.old.made) name.now)) }
    ensures refused { IfErr result (λ fault. Fails fault (constant_fits (symbols_of proof.old.made) name.now (type_at proof.old.trees ty.0))) }
    ensures unchanged { OnErr result (proof.new.made ≡ proof.old.made) }
    ensures keeps { Keeps proof.old.trees proof.new.trees }
{
    if is_own_constant(proof, name) {
        own_constant(proof, name, ty)
    } else {
        input_constant(proof, name, ty)
    }
}

// The same of a constant that is no input.
fn own_constant(proof: &mut Proof, name: &Name, ty: TypeId) -> Result<TermId, Fault>
    requires ty { ty.0 < length proof.old.trees.types }
    requires own { is_some (generic_type (symbols_of proof.old.made) name.now) ≡ true }
    ensures known { IfOk result (λ id. id.0 < length proof.new.trees.terms) }
    ensures typed { IfOk result (λ id. IsTermAt proof.new.trees id.0) }
    ensures made { IfOk result (λ id. term_at proof.new.trees id.0 ≡ constant name.now (type_at proof.old.trees ty.0)) }
    ensures fits { OnOk result (constant_fits (symbols_of proof.old.made) name.now (type_at proof.old.trees ty.0) ≡ Ok tt) }
    ensures takes { OnOk result (proof.new.made ≡ proof.old.made ++ map Made.symbol (new_constant (symbols_of proof.old.made) name.now)) }
    ensures refused { IfErr result (λ fault. Fails fault (constant_fits (symbols_of proof.old.made) name.now (type_at proof.old.trees ty.0))) }
    ensures unchanged { OnErr result (proof.new.made ≡ proof.old.made) }
    ensures keeps { Keeps proof.old.trees proof.new.trees }
{
    proof.use_const(name, ty)?;
    let term = proof.constant(name, ty)?;
    Ok(term)
}

// The same of a constant that is or becomes an input.
fn input_constant(proof: &mut Proof, name: &Name, ty: TypeId) -> Result<TermId, Fault>
    requires ty { ty.0 < length proof.old.trees.types }
    requires input { generic_type (symbols_of proof.old.made) name.now ≡ None }
    ensures known { IfOk result (λ id. id.0 < length proof.new.trees.terms) }
    ensures typed { IfOk result (λ id. IsTermAt proof.new.trees id.0) }
    ensures made { IfOk result (λ id. term_at proof.new.trees id.0 ≡ constant name.now (type_at proof.old.trees ty.0)) }
    ensures fits { OnOk result (constant_fits (symbols_of proof.old.made) name.now (type_at proof.old.trees ty.0) ≡ Ok tt) }
    ensures takes { OnOk result (proof.new.made ≡ proof.old.made ++ map Made.symbol (new_constant (symbols_of proof.old.made) name.now)) }
    ensures refused { IfErr result (λ fault. Fails fault (constant_fits (symbols_of proof.old.made) name.now (type_at proof.old.trees ty.0))) }
    ensures unchanged { OnErr result (proof.new.made ≡ proof.old.made) }
    ensures keeps { Keeps proof.old.trees proof.new.trees }
{
    let term = proof.constant(name, ty)?;
    proof.use_const(name, ty)?;
    Ok(term)
}
