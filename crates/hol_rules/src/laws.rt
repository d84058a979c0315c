//! The laws of a new type: that its two constants undo each other.
ghost use Rattle.std.specs.Prelude.{◌≡◌, ◌<◌, length, map, IfOk};
ghost use Rattle.hol_spec.specs.NewTypes.{new_type};
ghost use Rattle.hol_spec.specs.Primitives.{bool as bool_type, function};
ghost use Rattle.hol_spec.specs.Rules.{abstraction as abstraction_tree};
ghost use Rattle.hol_spec.specs.Terms.{app, equation as equation_tree};
ghost use Rattle.hol_spec.specs.Types.{variable as type_variable};
ghost use Rattle.hol_type.specs.Tables as type;
ghost use Rattle.hol_term.specs.Tables.{term_at, type_at, Keeps};
ghost use Rattle.hol_rules.specs.Laws.{part_constants, first_tree, first_tree_free, first_tree_of, named_by, second_tree, second_tree_free, second_tree_of, AreNewTypes, IsNewPart, IsPartKnown, IsTypeOf, IsWithoutVariables};
ghost use Rattle.hol_rules.specs.Premises.{IsNumberOf};
ghost use Rattle.hol_rules.specs.Views.{variable_view};

use crate::definitions::constant_of;
use common::Memory;
use hol_name::Name;
use hol_spec::Version;
use hol_term::{TermId, TermTable, Variable};
use hol_type::TypeId;
use std::alloc::Global;

/// The names that the definition of a type operator gives.
#[derive(Clone, Copy)]
pub(crate) struct NewNames<'a> {
    pub(crate) op: &'a Name,
    pub(crate) abs: &'a Name,
    pub(crate) rep: &'a Name,
    pub(crate) variables: &'a [Name],
}

/// The new type, and the constants to it and from it.
#[derive(Clone, Copy)]
pub(crate) struct NewPart {
    pub(crate) ty: TypeId,
    pub(crate) abs: TermId,
    pub(crate) rep: TermId,
}

/// The new type, and the types of the constants to it and from it.
#[derive(Clone, Copy)]
struct NewTypes {
    part: TypeId,
    abs: TypeId,
    rep: TypeId,
}

// The type and the constants that a definition makes, whose types are within the limits.
pub(crate) fn new_part(
    alloc: Global,
    terms: &mut TermTable,
    names: NewNames<'_>,
    whole: TypeId,
) -> Result<NewPart, Memory>
    requires { whole.0 < length terms.old.types }
    ensures made { IfOk result (λ part. IsNewPart terms.new (named_by names.entry) (type_at terms.old whole.0) part) }
    ensures keeps { Keeps terms.old terms.new }
{
    let types = new_types(alloc, terms, names, whole)?;
    let abs = constant_of(alloc, terms, names.abs, types.abs)?;
    let rep = constant_of(alloc, terms, names.rep, types.rep)?;
    Ok(NewPart {
        ty: types.part,
        abs,
        rep,
    })
}

// The types that a definition makes, which are within the limits.
fn new_types(
    alloc: Global,
    terms: &mut TermTable,
    names: NewNames<'_>,
    whole: TypeId,
) -> Result<NewTypes, Memory>
    requires { whole.0 < length terms.old.types }
    ensures types { IfOk result (λ types. AreNewTypes terms.new (named_by names.entry) (type_at terms.old whole.0) types) }
    ensures keeps { Keeps terms.old terms.new }
{
    let part = part_type(alloc, terms, names)?;
    let abs = function_type(alloc, terms, whole, part)?;
    let rep = function_type(alloc, terms, part, whole)?;
    Ok(NewTypes { part, abs, rep })
}

// The operator over the type variables of these names.
fn part_type(alloc: Global, terms: &mut TermTable, names: NewNames<'_>) -> Result<TypeId, Memory>
    ensures made { IfOk result (λ id. IsTypeOf terms.new id (new_type (named_by names.entry))) }
    ensures keeps { Keeps terms.old terms.new }
{
    let variables = type_variables(alloc, terms, names.variables)?;
    let Ok(part) = terms.ty_op(names.op, &variables) else {
        return Err(Memory);
    };
    Ok(part)
}

// The type variables of these names.
fn type_variables(
    alloc: Global,
    terms: &mut TermTable,
    names: &[Name],
) -> Result<Vec<TypeId>, Memory>
    ensures known { IfOk result (λ ids. type.AreKnown terms.new.types ids.items) }
    ensures made { IfOk result (λ ids. type.types_at terms.new.types ids.items ≡ map type_variable names.now) }
    ensures keeps { Keeps terms.old terms.new }
{
    let mut ids = Vec::new(alloc);
    for name in names {
        let Ok(id) = terms.ty_var(name) else {
            return Err(Memory);
        };
        ids.push(id)?;
    }
    Ok(ids)
}

// The type of functions from one type to another.
fn function_type(
    alloc: Global,
    terms: &mut TermTable,
    domain: TypeId,
    codomain: TypeId,
) -> Result<TypeId, Memory>
    requires domain { domain.0 < length terms.old.types }
    requires codomain { codomain.0 < length terms.old.types }
    ensures made { IfOk result (λ id. IsTypeOf terms.new id (function (type_at terms.old domain.0) (type_at terms.old codomain.0))) }
    ensures keeps { Keeps terms.old terms.new }
{
    let Ok(arrow) = Name::single(alloc, b"->") else {
        return Err(Memory);
    };
    let Ok(made) = terms.ty_op(&arrow, &[domain, codomain]) else {
        return Err(Memory);
    };
    Ok(made)
}

// The type of truth values.
fn truth_type(alloc: Global, terms: &mut TermTable) -> Result<TypeId, Memory>
    ensures made { IfOk result (λ id. IsTypeOf terms.new id bool_type) }
    ensures keeps { Keeps terms.old terms.new }
{
    let Ok(name) = Name::single(alloc, b"bool") else {
        return Err(Memory);
    };
    let Ok(made) = terms.ty_op(&name, &[]) else {
        return Err(Memory);
    };
    Ok(made)
}

// A constant of what another makes of a tree.
fn composed(
    terms: &mut TermTable,
    outer: TermId,
    inner: TermId,
    x: TermId,
) -> Result<TermId, Memory>
    requires outer { outer.0 < length terms.old.terms }
    requires inner { inner.0 < length terms.old.terms }
    requires argument { x.0 < length terms.old.terms }
    ensures made { IfOk result (λ id. IsNumberOf terms.new id (app (term_at terms.old outer.0) (app (term_at terms.old inner.0) (term_at terms.old x.0)))) }
    ensures keeps { Keeps terms.old terms.new }
{
    let part = terms.raw_application(inner, x)?;
    terms.raw_application(outer, part)
}

// The abstractions of two trees over a variable, in an equation at this type.
fn abstractions(
    terms: &mut TermTable,
    variable: &Variable,
    left: TermId,
    right: TermId,
    ty: TypeId,
) -> Result<TermId, Memory>
    requires variable { variable.now.ty.0 < length terms.old.types }
    requires left { left.0 < length terms.old.terms }
    requires right { right.0 < length terms.old.terms }
    requires ty { ty.0 < length terms.old.types }
    ensures made { IfOk result (λ id. IsNumberOf terms.new id (equation_tree (type_at terms.old ty.0)
        (abstraction_tree (variable_view terms.old variable.now) (term_at terms.old left.0))
        (abstraction_tree (variable_view terms.old variable.now) (term_at terms.old right.0)))) }
    ensures keeps { Keeps terms.old terms.new }
{
    let left = terms.raw_abstraction(variable, left)?;
    let right = terms.raw_abstraction(variable, right)?;
    terms.raw_equation(ty, left, right)
}

// The conclusion of the first law in an article of a version, over the variable `a`.
pub(crate) fn first_law(
    alloc: Global,
    terms: &mut TermTable,
    part: NewPart,
    version: Version,
) -> Result<TermId, Memory>
    requires { IsPartKnown terms.old part }
    ensures made { IfOk result (λ id. IsNumberOf terms.new id (first_tree_of version (type_at terms.old part.ty.0) (part_constants terms.old part))) }
    ensures keeps { Keeps terms.old terms.new }
{
    let Ok(name) = Name::single(alloc, b"a") else {
        return Err(Memory);
    };
    let variable = Variable { name, ty: part.ty };
    let made = match version {
        Version::Five => first_law_free(terms, part, &variable),
        Version::Six => first_law_closed(alloc, terms, part, &variable),
    };
    drop(variable);
    made
}

// The first law over this variable, `abs (rep a) = a`.
fn first_law_free(
    terms: &mut TermTable,
    part: NewPart,
    variable: &Variable,
) -> Result<TermId, Memory>
    requires part { IsPartKnown terms.old part }
    requires variable { variable.now.ty.0 < length terms.old.types }
    ensures made { IfOk result (λ id. IsNumberOf terms.new id (first_tree_free (variable_view terms.old variable.now) (part_constants terms.old part))) }
    ensures keeps { Keeps terms.old terms.new }
{
    let Ok(own) = terms.free(&variable.name, variable.ty) else {
        return Err(Memory);
    };
    let both = composed(terms, part.abs, part.rep, own)?;
    terms.raw_equation(variable.ty, both, own)
}

// The first law over abstractions of this variable, `(\a. abs (rep a)) = (\a. a)`.
fn first_law_closed(
    alloc: Global,
    terms: &mut TermTable,
    part: NewPart,
    variable: &Variable,
) -> Result<TermId, Memory>
    requires part { IsPartKnown terms.old part }
    requires variable { variable.now.ty.0 < length terms.old.types }
    ensures made { IfOk result (λ id. IsNumberOf terms.new id (first_tree (type_at terms.old variable.now.ty.0) (part_constants terms.old part))) }
    ensures keeps { Keeps terms.old terms.new }
{
    let Ok(own) = terms.free(&variable.name, variable.ty) else {
        return Err(Memory);
    };
    let both = composed(terms, part.abs, part.rep, own)?;
    let ty = function_type(alloc, terms, variable.ty, variable.ty)?;
    abstractions(terms, variable, both, own, ty)
}

// The conclusion of the second law in an article of a version, over the variable `r`, where f has no free variable.
pub(crate) fn second_law(
    alloc: Global,
    terms: &mut TermTable,
    part: NewPart,
    whole: TypeId,
    predicate: TermId,
    version: Version,
) -> Result<TermId, Memory>
    requires part { IsPartKnown terms.old part }
    requires whole { whole.0 < length terms.old.types }
    requires predicate { predicate.0 < length terms.old.terms }
    requires closed { IsWithoutVariables (term_at terms.old predicate.0) }
    ensures made { IfOk result (λ id. IsNumberOf terms.new id
        (second_tree_of version (type_at terms.old whole.0) (part_constants terms.old part) (term_at terms.old predicate.0))) }
    ensures keeps { Keeps terms.old terms.new }
{
    let Ok(name) = Name::single(alloc, b"r") else {
        return Err(Memory);
    };
    let variable = Variable { name, ty: whole };
    let made = match version {
        Version::Five => second_law_free(alloc, terms, part, &variable, predicate),
        Version::Six => second_law_closed(alloc, terms, part, &variable, predicate),
    };
    drop(variable);
    made
}

// The second law over this variable r, `f r = (rep (abs r) = r)`: nothing binds it, so it is free in the law.
fn second_law_free(
    alloc: Global,
    terms: &mut TermTable,
    part: NewPart,
    variable: &Variable,
    predicate: TermId,
) -> Result<TermId, Memory>
    requires part { IsPartKnown terms.old part }
    requires variable { variable.now.ty.0 < length terms.old.types }
    requires predicate { predicate.0 < length terms.old.terms }
    ensures made { IfOk result (λ id. IsNumberOf terms.new id
        (second_tree_free (variable_view terms.old variable.now) (part_constants terms.old part) (term_at terms.old predicate.0))) }
    ensures keeps { Keeps terms.old terms.new }
{
    let Ok(own) = terms.free(&variable.name, variable.ty) else {
        return Err(Memory);
    };
    let both = composed(terms, part.rep, part.abs, own)?;
    let back = terms.raw_equation(variable.ty, both, own)?;
    let holds = terms.raw_application(predicate, own)?;
    let truth = truth_type(alloc, terms)?;
    terms.raw_equation(truth, holds, back)
}

// The second law over abstractions of this variable, `(\r. rep (abs r) = r) = (\r. f r)`.
fn second_law_closed(
    alloc: Global,
    terms: &mut TermTable,
    part: NewPart,
    variable: &Variable,
    predicate: TermId,
) -> Result<TermId, Memory>
    requires part { IsPartKnown terms.old part }
    requires variable { variable.now.ty.0 < length terms.old.types }
    requires predicate { predicate.0 < length terms.old.terms }
    requires closed { IsWithoutVariables (term_at terms.old predicate.0) }
    ensures made { IfOk result (λ id. IsNumberOf terms.new id
        (second_tree (type_at terms.old variable.now.ty.0) (part_constants terms.old part) (term_at terms.old predicate.0))) }
    ensures keeps { Keeps terms.old terms.new }
{
    let Ok(own) = terms.free(&variable.name, variable.ty) else {
        return Err(Memory);
    };
    let both = composed(terms, part.rep, part.abs, own)?;
    let back = terms.raw_equation(variable.ty, both, own)?;
    let holds = terms.raw_application(predicate, own)?;
    let truth = truth_type(alloc, terms)?;
    let ty = function_type(alloc, terms, variable.ty, truth)?;
    abstractions(terms, variable, back, holds, ty)
}
