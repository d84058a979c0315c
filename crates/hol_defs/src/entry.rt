//! What is kept of each symbol.
use hol_name::Name;
use hol_term::TermId;
use hol_type::TypeId;

/// A symbol that is taken.
#[derive(Drop)]
pub(crate) enum Entry {
    /// A constant without a definition, which may be used at any type.
    InputConst(Name),
    /// An operator without a definition, with so many arguments.
    InputOp(Name, usize),
    /// A constant, the term that it stands for, and its generic type.
    Const(Name, TermId, TypeId),
    /// A type operator with its two constants.
    TypeOp(NewType),
}

/// The definition of a type operator.
#[derive(Drop)]
pub(crate) struct NewType {
    /// The operator.
    pub(crate) op: Name,
    /// The constant from the type of which it is a part.
    pub(crate) abs: Name,
    /// The constant to that type.
    pub(crate) rep: Name,
    /// The type variables that are its arguments, in their order.
    pub(crate) names: Vec<Name>,
    /// The type of which it is a part.
    pub(crate) whole: TypeId,
    /// The predicate that holds in the part.
    pub(crate) predicate: TermId,
    /// The generic type of `abs`.
    pub(crate) abs_type: TypeId,
    /// The generic type of `rep`.
    pub(crate) rep_type: TypeId,
}
