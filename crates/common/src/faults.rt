//! Why an article is refused.
ghost use Rattle.std.specs.Prelude.{◌≡◌};
ghost use Rattle.common.specs.Kinds.{kind_number, kind_name};

use std::alloc::{AllocError, AllocFailed};
use std::fmt;
use thiserror::Error;

/// Why an article is refused. `number` counts the kinds from 1, in the order in which they stand here.
#[derive(Clone, Copy, Debug, PartialEq, Eq)]
pub enum Kind {
    /// A line of the article is no line of the format.
    BadLine,
    /// A command finds fewer objects on the stack than it takes.
    StackShort,
    /// A command finds an object of another kind than it takes.
    WrongKind,
    /// `ref` or `remove` names a key that the dictionary lacks.
    NoSuchKey,
    /// `version` stands elsewhere than second, or gives another version.
    VersionPlace,
    /// A hypothesis or a conclusion isn't of type `bool`.
    NotBool,
    /// A function and its argument don't fit in their types.
    TypeMismatch,
    /// The conclusion of a premise isn't an equation.
    NotEquation,
    /// Two terms that have to be alike aren't.
    NotAlike,
    /// The variable of an abstraction is free in the hypotheses.
    VarInHyps,
    /// `betaConv` is given a term that isn't a beta redex.
    NotRedex,
    /// A type operator is given another number of arguments than it takes.
    BadArity,
    /// A constant is given a type that is no instance of its generic type.
    BadConstType,
    /// A definition's name is taken.
    NameTaken,
    /// A defined term has a free variable.
    NotClosed,
    /// A defined term has a type variable that its type lacks.
    ExtraTypeVars,
    /// The premise of `defineConstList` isn't one defining equation for each pair.
    BadDefinitionList,
    /// The names of `defineTypeOp` aren't the predicate's type variables, each once.
    BadTypeVars,
    /// A substitution gives a variable a term of another type.
    BadSubst,
    /// The theorem isn't the sequent that the command states.
    NotTheSequent,
    /// A number is out of range.
    NumberRange,
    /// A line is too long.
    LineTooLong,
    /// A type, a term or a sequent is too large.
    TooLarge,
    /// A type or a term is too deep.
    TooDeep,
    /// A sequent has too many type variables or free variables.
    TooManyParams,
    /// The article is too long.
    InputTooLong,
    /// `hdTl` is given the empty list.
    EmptyList,
}

impl Kind {
    /// The kind's number, from 1 to 27, which is printed beside its name.
    pub fn number(&self) -> u8
        ensures { result ≡ kind_number self.now }
    {
        match self {
            Kind::BadLine => 1,
            Kind::StackShort => 2,
            Kind::WrongKind => 3,
            Kind::NoSuchKey => 4,
            Kind::VersionPlace => 5,
            Kind::NotBool => 6,
            Kind::TypeMismatch => 7,
            Kind::NotEquation => 8,
            Kind::NotAlike => 9,
            Kind::VarInHyps => 10,
            Kind::NotRedex => 11,
            Kind::BadArity => 12,
            Kind::BadConstType => 13,
            Kind::NameTaken => 14,
            Kind::NotClosed => 15,
            Kind::ExtraTypeVars => 16,
            Kind::BadDefinitionList => 17,
            Kind::BadTypeVars => 18,
            Kind::BadSubst => 19,
            Kind::NotTheSequent => 20,
            Kind::NumberRange => 21,
            Kind::LineTooLong => 22,
            Kind::TooLarge => 23,
            Kind::TooDeep => 24,
            Kind::TooManyParams => 25,
            Kind::InputTooLong => 26,
            Kind::EmptyList => 27,
        }
    }

    /// The kind's name, as it is printed.
    pub fn name(&self) -> &'static str
        ensures { result.now ≡ kind_name self.now }
    {
        match self {
            Kind::BadLine => "BadLine",
            Kind::StackShort => "StackShort",
            Kind::WrongKind => "WrongKind",
            Kind::NoSuchKey => "NoSuchKey",
            Kind::VersionPlace => "VersionPlace",
            Kind::NotBool => "NotBool",
            Kind::TypeMismatch => "TypeMismatch",
            Kind::NotEquation => "NotEquation",
            Kind::NotAlike => "NotAlike",
            Kind::VarInHyps => "VarInHyps",
            Kind::NotRedex => "NotRedex",
            Kind::BadArity => "BadArity",
            Kind::BadConstType => "BadConstType",
            Kind::NameTaken => "NameTaken",
            Kind::NotClosed => "NotClosed",
            Kind::ExtraTypeVars => "ExtraTypeVars",
            Kind::BadDefinitionList => "BadDefinitionList",
            Kind::BadTypeVars => "BadTypeVars",
            Kind::BadSubst => "BadSubst",
            Kind::NotTheSequent => "NotTheSequent",
            Kind::NumberRange => "NumberRange",
            Kind::LineTooLong => "LineTooLong",
            Kind::TooLarge => "TooLarge",
            Kind::TooDeep => "TooDeep",
            Kind::TooManyParams => "TooManyParams",
            Kind::InputTooLong => "InputTooLong",
            Kind::EmptyList => "EmptyList",
        }
    }
}

/// The kind's name.
impl fmt::Display for Kind {
    ghost use Rattle.std.specs.Prelude.{Some};

    ghost output = { λ kind. Some (kind_name kind) };

    fn fmt<W: fmt::Write>(&self, f: &mut fmt::Formatter<W>) -> fmt::Result {
        f.write_str(self.name())
    }
}

/// Memory ran out: the one error of a call that can fail in no other way.
#[derive(Clone, Copy, Debug, PartialEq, Eq, Error)]
#[error("out of memory")]
pub struct Memory;

impl From<AllocError> for Memory {
    ghost from_gives = { λ _ memory. memory ≡ record {} };

    fn from(_error: AllocError) -> Memory {
        Memory
    }
}

impl<T: Drop> From<AllocFailed<T>> for Memory {
    ghost from_gives = { λ _ memory. memory ≡ record {} };

    fn from(_error: AllocFailed<T>) -> Memory {
        Memory
    }
}

/// Why a call of the article's side failed.
#[derive(Clone, Copy, Debug, PartialEq, Eq, Error)]
pub enum Fault {
    /// The article is refused.
    #[error("{0}")]
    Refused(Kind),
    /// Memory ran out.
    #[error("out of memory")]
    Memory,
}

impl From<Memory> for Fault {
    ghost use Rattle.std.specs.Prelude.{◌≡◌};
    ghost use Rattle.common.specs.declared.faults.Fault.TheVariants.{Memory};

    ghost from_gives = { λ _ fault. fault ≡ Memory };

    fn from(_memory: Memory) -> Fault {
        Fault::Memory
    }
}

impl From<AllocError> for Fault {
    ghost use Rattle.std.specs.Prelude.{◌≡◌};
    ghost use Rattle.common.specs.declared.faults.Fault.TheVariants.{Memory};

    ghost from_gives = { λ _ fault. fault ≡ Memory };

    fn from(_error: AllocError) -> Fault {
        Fault::Memory
    }
}

impl<T: Drop> From<AllocFailed<T>> for Fault {
    ghost use Rattle.std.specs.Prelude.{◌≡◌};
    ghost use Rattle.common.specs.declared.faults.Fault.TheVariants.{Memory};

    ghost from_gives = { λ _ fault. fault ≡ Memory };

    fn from(_error: AllocFailed<T>) -> Fault {
        Fault::Memory
    }
}
