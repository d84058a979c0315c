//! The symbols of a run: the constants and type operators that are taken beside the primitive ones.
//!
//! A name that is neither primitive nor defined is an input, taken where it is first used: as a constant at any
//! type, as an operator once for each number of arguments. Constants and operators have names apart. A constant is
//! defined by a closed term, whose type is its generic type; an operator by a predicate over its type variables, with a
//! constant from the type of which it is a part, and one to that type. A definition is refused for the first condition
//! that fails. What is kept of each symbol are numbers of a table of terms: the value is the list of what is kept, in
//! order of taking, and `symbols_at` gives the symbols by the trees of a table that has these numbers. A second use of a
//! name changes nothing, and after a refusal or want of memory the symbols are as before. Symbols are found by tables,
//! however many are taken.
//!
//! ```
//! let mut symbols = Symbols::new(alloc)?;
//! symbols.use_op(&Name::single(alloc, b"list")?, 1)?;
//! symbols.use_const(&mut table, &Name::single(alloc, b"nil")?, ty)?;
//! symbols.define(&mut table, &Name::single(alloc, b"T")?, truth)?;
//! ```
#![tactic(auto)]

ghost use Rattle.std.specs.Prelude.{◌≡◌, ◌<◌, List, [], length, IfOk, IfSome};
ghost use Rattle.std.specs.Option.{option_map, option_or};
ghost use Rattle.hol_spec.specs.Lists.{is_in};
ghost use Rattle.hol_spec.specs.NameEquality.{name_eq};
ghost use Rattle.hol_spec.specs.Types.{HolType};
ghost use Rattle.hol_spec.specs.Symbols.{generic_type, operator_arity, is_taken_constant, is_taken_operator};
ghost use Rattle.hol_term.specs.Tables.{Trees};
ghost use Rattle.hol_defs.specs.Generics.{generic_at, generic_of, number_at, IsGenericKnown};
ghost use Rattle.hol_defs.specs.Indexes.{inputs_of, uses_of, same_use};
ghost use Rattle.hol_defs.specs.Kinds.{constant_kind, operator_kind, first_kind};
ghost use Rattle.hol_defs.specs.Symbols.{symbols_at, AreKnownSymbols};

mod constants;
mod entry;
mod judging;
mod lists;
mod operators;
mod primitive;
mod readers;
mod tables;
mod uses;

use crate::entry::Entry;
use crate::primitive::{Primitive, arity_of};
use crate::tables::{Arities, Generics, NameSet, Uses};
use common::Memory;
use hol_name::Name;
use hol_type::TypeId;
pub use readers::{SymbolView, TypeOpView};
use std::alloc::Global;
use std::marker::Model;

/// How a name is taken.
#[derive(Clone, Copy, Debug, PartialEq, Eq)]
pub enum SymbolKind {
    /// It is one of the primitive symbols.
    Primitive,
    /// It was used without a definition.
    Input,
    /// It was defined.
    Defined,
}

/// The generic type of a constant: it stands at the instances of this type alone.
#[derive(Clone, Copy, Debug, PartialEq, Eq)]
pub enum Generic {
    /// That of equality, `A -> A -> bool`.
    Eq,
    /// That of choice, `(A -> bool) -> A`.
    Select,
    /// That of a defined constant, which has this number.
    Defined(TypeId),
}

/// The symbols that are taken, in order of taking.
#[derive(Drop)]
pub struct Symbols {
    pub(crate) alloc: Global,
    pub(crate) taken: Vec<Entry>,
    // The input constants.
    pub(crate) inputs: NameSet,
    // The defined constants.
    pub(crate) generics: Generics,
    // The input operators, and their names.
    pub(crate) uses: Uses,
    pub(crate) names: NameSet,
    // The defined operators.
    pub(crate) arities: Arities,
}

impl Model for Symbols {
    ghost use Rattle.std.specs.Prelude.{List, map};
    ghost use Rattle.std.specs.Coded.{coded_list};
    ghost use Rattle.hol_defs.specs.Symbols.{Taken, coded_taken};
    ghost use Rattle.hol_defs.specs.Indexes.{taken_of};

    ghost Value = { List Taken };

    ghost coded = { coded_list coded_taken };

    ghost view = { λ s. map taken_of s.taken.items };

    ghost use Rattle.hol_defs.specs.Indexes.{IsIndexed};

    ghost invariant = { λ s. IsIndexed (map taken_of s.taken.items) s.inputs s.generics s.uses s.names s.arities };
}

impl Symbols {
    /// No symbol beside the primitive ones.
    pub fn new(alloc: Global) -> Result<Symbols, Memory>
        ensures empty { IfOk result (λ symbols. symbols ≡ []) }
        ensures known { IfOk result (λ symbols. (trees : Trees) → AreKnownSymbols trees symbols) }
    {
        Ok(Symbols {
            alloc,
            taken: Vec::new(alloc),
            inputs: NameSet::new(alloc),
            generics: Generics::new(alloc),
            uses: Uses::new(alloc),
            names: NameSet::new(alloc),
            arities: Arities::new(alloc),
        })
    }

    /// How the name is taken as a constant: `None` exactly where it isn't.
    pub fn const_kind(&self, name: &Name) -> Option<SymbolKind>
        ensures kind { (trees : Trees) → AreKnownSymbols trees self.now → result ≡ constant_kind (symbols_at trees self.now) name.now }
    {
        kind_by(
            Primitive::named(name).is_some(),
            self.generics.find(name).is_some(),
            self.inputs.has(name),
        )
    }

    /// How the name is taken as an operator, with any number of arguments: `None` exactly where it isn't.
    pub fn op_kind(&self, name: &Name) -> Option<SymbolKind>
        ensures kind { (trees : Trees) → result ≡ operator_kind (symbols_at trees self.now) name.now }
    {
        kind_by(
            arity_of(name).is_some(),
            self.arities.find(name).is_some(),
            self.names.has(name),
        )
    }

    /// The generic type of a primitive or defined constant: `None` exactly where the name is neither.
    pub fn generic(&self, name: &Name) -> Option<Generic>
        ensures tells { (trees : Trees) → AreKnownSymbols trees self.now →
            option_map (generic_at trees.types) result ≡ generic_type (symbols_at trees self.now) name.now }
        ensures known { (trees : Trees) → AreKnownSymbols trees self.now → IfSome result (λ generic. IsGenericKnown trees.types generic) }
    {
        told(Primitive::named(name), self.generics.find(name))
    }

    /// How many symbols are taken.
    pub fn count(&self) -> usize
        ensures { result ≡ length self.now }
    {
        self.taken.len()
    }

    // How many arguments a primitive or defined operator takes.
    pub(crate) fn arity(&self, name: &Name) -> Option<usize>
        ensures { (trees : Trees) → result ≡ operator_arity (symbols_at trees self.now) name.now }
    {
        arity_of(name).or(self.arities.find(name))
    }

    // Whether the name is an input constant.
    pub(crate) fn is_input(&self, name: &Name) -> bool
        ensures { result ≡ is_in name_eq name.now (inputs_of self.now) }
    {
        self.inputs.has(name)
    }

    // Whether this is an input operator with so many arguments.
    pub(crate) fn is_use(&self, operator: &(Name, usize)) -> bool
        ensures { result ≡ is_in same_use operator.now (uses_of self.now) }
    {
        self.uses.has(operator)
    }

    // Whether a constant has the name.
    pub(crate) fn is_constant(&self, name: &Name) -> bool
        ensures { (trees : Trees) → AreKnownSymbols trees self.now → result ≡ is_taken_constant (symbols_at trees self.now) name.now }
    {
        self.const_kind(name).is_some()
    }

    // Whether an operator has the name.
    pub(crate) fn is_operator(&self, name: &Name) -> bool
        ensures { (trees : Trees) → result ≡ is_taken_operator (symbols_at trees self.now) name.now }
    {
        self.op_kind(name).is_some()
    }
}

// How a name is taken that is primitive, defined or an input.
fn kind_by(primitive: bool, defined: bool, input: bool) -> Option<SymbolKind>
    ensures { result ≡ first_kind primitive defined input }
{
    if primitive {
        Some(SymbolKind::Primitive)
    } else if defined {
        Some(SymbolKind::Defined)
    } else if input {
        Some(SymbolKind::Input)
    } else {
        None
    }
}

// The generic type of a primitive constant, or else of a defined one.
fn told(primitive: Option<Primitive>, defined: Option<TypeId>) -> Option<Generic>
    ensures tells { (types : List HolType) →
        option_map (generic_at types) result ≡ option_or (option_map generic_of primitive) (option_map (number_at types) defined) }
    ensures known { (types : List HolType) → IfSome defined (λ id. id.0 < length types) → IfSome result (λ generic. IsGenericKnown types generic) }
{
    match primitive {
        Some(Primitive::Equality) => Some(Generic::Eq),
        Some(Primitive::Choice) => Some(Generic::Select),
        None => defined_type(defined),
    }
}

// The generic type of a defined constant.
fn defined_type(defined: Option<TypeId>) -> Option<Generic>
    ensures tells { (types : List HolType) → option_map (generic_at types) result ≡ option_map (number_at types) defined }
    ensures known { (types : List HolType) → IfSome defined (λ id. id.0 < length types) → IfSome result (λ generic. IsGenericKnown types generic) }
{
    match defined {
        Some(id) => Some(Generic::Defined(id)),
        None => None,
    }
}
