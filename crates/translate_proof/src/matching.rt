//! Whether a substitution makes one type or term of another, told without making any. Parts are compared as often as they occur; those that are
//! still to be compared lie on a stack.
ghost use Rattle.std.specs.Prelude.{◌≡◌, ◌<◌, ◌≤◌, ◌+◌, ◌&&◌, ◌∷◌, length, IfOk, OnOk};
ghost use Rattle.std.specs.Map.{lookup};
ghost use Rattle.hol_spec.specs.Limits.{types_size};
ghost use Rattle.hol_spec.specs.NameEquality.{name_eq};
ghost use Rattle.hol_spec.specs.Terms.{term_eq, variable_eq};
ghost use Rattle.hol_spec.specs.Types.{types_of};
ghost use Rattle.hol_type.specs.Tables as type;
ghost use Rattle.hol_spec.specs.TermSubstitution.{term_image};
ghost use Rattle.hol_term.specs.Substitutions.{AreKnownPairs, IsPutFor};
ghost use Rattle.hol_term.specs.Tables.{term_at};
ghost use Rattle.hol_rules.specs.Views.{variable_view};
ghost use Rattle.translate_proof.specs.Images.{made_term, retyped, term_pairs};
ghost use Rattle.translate_proof.specs.Matching.{are_terms_made, is_named_made, is_type_made, terms_left, types_left, AreTermsLeft, AreTypesLeft, LeavesAll, LeavesTypes};

use common::{Memory, Stack};
use hol_name::Name;
use hol_rules::Substitution;
use hol_term::{TermId, TermTable, TermView, Variable};
use hol_type::{TypeId, TypeTable, TypeView};
use std::alloc::Global;

// A name and a type, as of a variable or a constant.
#[derive(Clone, Copy)]
struct Named<'a> {
    name: &'a Name,
    ty: TypeId,
}

// The type that is put for a type variable: the first pair of its name counts.
pub(crate) fn put_type(pairs: &[(Name, TypeId)], name: &Name) -> Option<TypeId>
    ensures { result ≡ lookup (name_eq name.now) pairs.now }
{
    for (own, ty) in pairs {
        if name == own {
            return Some(*ty);
        }
    }
    None
}

// Whether the pairs make this type of a general one.
pub(crate) fn makes_type(
    alloc: Global,
    table: &TypeTable,
    pairs: &[(Name, TypeId)],
    general: TypeId,
    ty: TypeId,
) -> Result<bool, Memory>
    requires pairs { type.ArePairsKnown table.now pairs.now }
    requires general { general.0 < length table.now }
    requires ty { ty.0 < length table.now }
    ensures { IfOk result (λ made. made ≡ is_type_made table.now pairs.now general ty) }
{
    let mut left = Stack::new(alloc);
    left.push((general, ty))?;
    while let Some((one, own)) = left.pop() {
        if !sees_type(table, pairs, one, own, &mut left)? {
            return Ok(false);
        }
    }
    Ok(true)
}

// Whether what is seen of a type is what the pairs make of a general one; the parts of both are left to be compared.
fn sees_type(
    table: &TypeTable,
    pairs: &[(Name, TypeId)],
    general: TypeId,
    ty: TypeId,
    left: &mut Stack<(TypeId, TypeId)>,
) -> Result<bool, Memory>
    requires pairs { type.ArePairsKnown table.now pairs.now }
    requires known { AreTypesLeft table.now ((general, ty) ∷ left.old) }
    ensures made { IfOk result (LeavesTypes table.now pairs.now ((general, ty) ∷ left.old) left.new) }
    ensures known { OnOk result (AreTypesLeft table.now left.new) }
    ensures less { OnOk result (types_left table.now left.new < types_left table.now ((general, ty) ∷ left.old)) }
{
    match table.view(general) {
        TypeView::Var(name) => match put_type(pairs, name) {
            Some(id) => Ok(id == ty),
            None => Ok(general == ty),
        },
        TypeView::Op(name, args) => match table.view(ty) {
            TypeView::Op(own, parts) => {
                if name != own {
                    return Ok(false);
                }
                leave_types(table, pairs, args, parts, left)
            }
            TypeView::Var(_) => Ok(false),
        },
    }
}

// Leaves types to be compared, each general one with its own. The answer is no where there aren't as many.
fn leave_types(
    table: &TypeTable,
    pairs: &[(Name, TypeId)],
    general: &[TypeId],
    types: &[TypeId],
    left: &mut Stack<(TypeId, TypeId)>,
) -> Result<bool, Memory>
    requires general { type.AreKnown table.now general.now }
    requires types { type.AreKnown table.now types.now }
    requires known { AreTypesLeft table.now left.old }
    ensures made { IfOk result (LeavesAll table.now pairs.now general.now types.now left.old left.new) }
    ensures known { OnOk result (AreTypesLeft table.now left.new) }
    ensures less { OnOk result (types_left table.now left.new ≤ types_size (types_of (type.types_at table.now general.now)) + types_left table.now left.old) }
{
    let mut rest = general;
    let mut others = types;
    while let [first, after @ ..] = rest {
        let [own, behind @ ..] = others else {
            return Ok(false);
        };
        left.push((*first, *own))?;
        rest = after;
        others = behind;
    }
    Ok(others.is_empty())
}

// Whether a name is another, and the pairs make a type of a general one.
fn makes_named(
    alloc: Global,
    table: &TypeTable,
    pairs: &[(Name, TypeId)],
    general: Named<'_>,
    own: Named<'_>,
) -> Result<bool, Memory>
    requires pairs { type.ArePairsKnown table.now pairs.now }
    requires general { general.ty.0 < length table.now }
    requires own { own.ty.0 < length table.now }
    ensures { IfOk result (λ made. made ≡ is_named_made table.now pairs.now general.entry own.entry) }
{
    if general.name != own.name {
        return Ok(false);
    }
    makes_type(alloc, table, pairs, general.ty, own.ty)
}

// Whether a variable of this name and type is this one once its type is changed.
pub(crate) fn becomes(
    alloc: Global,
    table: &TermTable,
    put: &Substitution,
    name: &Name,
    ty: TypeId,
    own: &Variable,
) -> Result<bool, Memory>
    requires put { AreKnownPairs table.now put.now.types.items put.now.terms.items }
    requires ty { ty.0 < length table.now.types }
    requires own { own.now.ty.0 < length table.now.types }
    ensures { IfOk result (λ same. same ≡ variable_eq (retyped table.now put.now name.now ty) (variable_view table.now own.now)) }
{
    let own = Named {
        name: &own.name,
        ty: own.ty,
    };
    makes_named(alloc, table.types(), &put.types, Named { name, ty }, own)
}

// The term that is put for a variable of this name and type once its type is changed: the first pair of what it becomes counts.
pub(crate) fn put_term(
    alloc: Global,
    table: &TermTable,
    put: &Substitution,
    name: &Name,
    ty: TypeId,
) -> Result<Option<TermId>, Memory>
    requires put { AreKnownPairs table.now put.now.types.items put.now.terms.items }
    requires ty { ty.0 < length table.now.types }
    ensures { IfOk result (λ image. IsPutFor table.now put.now.terms.items (retyped table.now put.now name.now ty) image) }
{
    for (variable, id) in &put.terms {
        if becomes(alloc, table, put, name, ty, variable)? {
            return Ok(Some(*id));
        }
    }
    Ok(None)
}

// Whether the pairs make this term of a general one.
pub(crate) fn makes_term(
    alloc: Global,
    table: &TermTable,
    put: &Substitution,
    general: TermId,
    id: TermId,
) -> Result<bool, Memory>
    requires put { AreKnownPairs table.now put.now.types.items put.now.terms.items }
    requires general { general.0 < length table.now.terms }
    requires id { id.0 < length table.now.terms }
    ensures { IfOk result (λ made. made ≡ term_eq (made_term table.now put.now general) (term_at table.now id.0)) }
{
    let mut left = Stack::new(alloc);
    left.push((general, id))?;
    while let Some((one, own)) = left.pop() {
        if !sees_term(alloc, table, put, one, own, &mut left)? {
            return Ok(false);
        }
    }
    Ok(true)
}

// Whether what is seen of a term is what the pairs make of a general one; the parts of both are left to be compared.
fn sees_term(
    alloc: Global,
    table: &TermTable,
    put: &Substitution,
    general: TermId,
    id: TermId,
    left: &mut Stack<(TermId, TermId)>,
) -> Result<bool, Memory>
    requires put { AreKnownPairs table.now put.now.types.items put.now.terms.items }
    requires known { AreTermsLeft table.now ((general, id) ∷ left.old) }
    ensures made { IfOk result (λ seen. are_terms_made table.now put.now ((general, id) ∷ left.old) ≡ (seen && are_terms_made table.now put.now left.new)) }
    ensures known { OnOk result (AreTermsLeft table.now left.new) }
    ensures less { OnOk result (terms_left table.now left.new < terms_left table.now ((general, id) ∷ left.old)) }
{
    match table.view(general) {
        TermView::Free(name, ty) => makes_variable(alloc, table, put, name, ty, id),
        TermView::Bound(_) => Ok(general == id),
        TermView::Const(name, ty) => match table.view(id) {
            TermView::Const(own, made) => {
                let own = Named {
                    name: own,
                    ty: made,
                };
                makes_named(alloc, table.types(), &put.types, Named { name, ty }, own)
            }
            _ => Ok(false),
        },
        TermView::App(function, argument) => match table.view(id) {
            TermView::App(f, x) => {
                left.push((argument, x))?;
                left.push((function, f))?;
                Ok(true)
            }
            _ => Ok(false),
        },
        TermView::Lam(ty, body) => match table.view(id) {
            TermView::Lam(made, inside) => {
                left.push((body, inside))?;
                makes_type(alloc, table.types(), &put.types, ty, made)
            }
            _ => Ok(false),
        },
    }
}

// Whether they make this term of a free variable.
fn makes_variable(
    alloc: Global,
    table: &TermTable,
    put: &Substitution,
    name: &Name,
    ty: TypeId,
    id: TermId,
) -> Result<bool, Memory>
    requires put { AreKnownPairs table.now put.now.types.items put.now.terms.items }
    requires ty { ty.0 < length table.now.types }
    requires id { id.0 < length table.now.terms }
    ensures { IfOk result (λ made. made ≡ term_eq (term_image (term_pairs table.now put.now) (retyped table.now put.now name.now ty)) (term_at table.now id.0)) }
{
    let view = table.view(id);
    match put_term(alloc, table, put, name, ty)? {
        Some(image) => Ok(image == id),
        None => match view {
            TermView::Free(own, made) => {
                let own = Named {
                    name: own,
                    ty: made,
                };
                makes_named(alloc, table.types(), &put.types, Named { name, ty }, own)
            }
            _ => Ok(false),
        },
    }
}
