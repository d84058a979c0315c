//! The primitive symbols, and the types at which the primitive constants stand.
ghost use Rattle.std.specs.Prelude.{◌≡◌, ◌↔◌, ◌<◌, ◌∷◌, [], length, IsTrue};
ghost use Rattle.std.specs.Option.{option_map};
ghost use Rattle.hol_spec.specs.NameEquality.{name_eq};
ghost use Rattle.hol_spec.specs.Primitives.{primitive_arity, primitive_type};
ghost use Rattle.hol_spec.specs.Substitution.{is_instance};
ghost use Rattle.hol_type.specs.Tables.{tree_at};
ghost use Rattle.hol_defs.specs.Generics.{generic_of, IsEqualityType, IsSelectType};

use hol_name::Name;
use hol_type::{TypeId, TypeTable};

/// A primitive constant.
#[derive(Clone, Copy)]
pub(crate) enum Primitive {
    /// Equality, `=`.
    Equality,
    /// Choice, `select`.
    Choice,
}

impl Primitive {
    // The primitive constant of this name.
    pub(crate) fn named(name: &Name) -> Option<Primitive>
        ensures { option_map generic_of result ≡ primitive_type name.now }
    {
        if is_named(name, b"=") {
            return Some(Primitive::Equality);
        }
        if is_named(name, b"select") {
            return Some(Primitive::Choice);
        }
        None
    }

    // Whether the constant may stand at this type.
    pub(crate) fn stands_at(self, types: &TypeTable, ty: TypeId) -> bool
        requires { ty.0 < length types.now }
        ensures { result ≡ is_instance (generic_of self) (tree_at types.now ty.0) }
    {
        match self {
            Primitive::Equality => is_equality_type(types, ty),
            Primitive::Choice => is_select_type(types, ty),
        }
    }
}

// How many arguments the primitive operator of this name takes.
pub(crate) fn arity_of(name: &Name) -> Option<usize>
    ensures { result ≡ primitive_arity name.now }
{
    if is_named(name, b"->") {
        return Some(2);
    }
    if is_named(name, b"bool") {
        return Some(0);
    }
    if is_named(name, b"ind") {
        return Some(0);
    }
    None
}

// Whether the name has this text as its one component.
fn is_named(name: &Name, text: &[u8]) -> bool
    ensures { result ≡ name_eq name.now (text.now ∷ []) }
{
    name.is_single(text)
}

// Whether the type is that of equality over some type.
fn is_equality_type(types: &TypeTable, ty: TypeId) -> bool
    requires { ty.0 < length types.now }
    ensures { IsTrue result ↔ IsEqualityType (tree_at types.now ty.0) }
{
    let Some((left, rest)) = types.function_parts(ty) else {
        return false;
    };
    let Some((right, truth)) = types.function_parts(rest) else {
        return false;
    };
    types.is_bool(truth) && left == right
}

// Whether the type is that of choice over some type.
fn is_select_type(types: &TypeTable, ty: TypeId) -> bool
    requires { ty.0 < length types.now }
    ensures { IsTrue result ↔ IsSelectType (tree_at types.now ty.0) }
{
    let Some((predicate, chosen)) = types.function_parts(ty) else {
        return false;
    };
    let Some((element, truth)) = types.function_parts(predicate) else {
        return false;
    };
    types.is_bool(truth) && element == chosen
}
