//! Laws of names, lists, types, terms and sequents, over the definitions of `hol_spec`.
//!
//! The crates of tables and names prove with them. There is no code: what is shown beyond lemmas is a function that does nothing,
//! whose contract is the law.
//!
//! | File | Laws of |
//! |---|---|
//! | `NameLaws`, `NameEqualityLaws`, `ManglingLaws` | the name that a line writes; equality of names; different names have different texts |
//! | `ListLaws`, `Members`, `PlaceLaws` | lists read as sets; what is in a list, and what holds of all in it; what stands at a place |
//! | `TypeLaws`, `SubstitutionLaws`, `GenericInstances`, `PrimitiveLaws` | types, their codes and instances |
//! | `TermLaws`, `TermRenamings`, `TermBindingLaws`, `TermClosed` | terms and their codes; lifting, putting and closing |
//! | `TermTyping`, `TermInstances`, `TermSubstitutionLaws` | what binding and substitution do to types |
//! | `SequentLaws` | to be within another sequent, and to be the same |
//! | `RenamingLaws`, `RenamedSequents`, `PositionLaws`, `ClosedFormLaws` | renaming of variables; two sequents have one closed form exactly where one is the other renamed |
#![tactic(auto)]

ghost use Rattle.hol_spec.specs.BindingStatements.{LooseTyped, PutClose, TypeOfAbstraction, TypeOfInstance, TypeOfSubstitution};
ghost use Rattle.hol_spec.specs.Renamings.{ClosedFormsAlike};

/// The law of closing: to put a term for the variable of a binder that closed a free variable is to substitute it for
/// that variable.
pub fn put_close()
    ensures { PutClose }
{}

/// The law of abstraction: the abstraction that binds a free variable of a term is a function from its type to the
/// term's, and has no type where the term has none.
pub fn type_of_abstraction()
    ensures { TypeOfAbstraction }
{}

/// The law of instances: the body of an abstraction with an argument of its binder's type put for the variable has the
/// body's type.
pub fn type_of_instance()
    ensures { TypeOfInstance }
{}

/// The law of substitution: where each term that is put has its variable's type, a term has its type with the types put.
pub fn type_of_substitution()
    ensures { TypeOfSubstitution }
{}

/// The law of loose numbers: a typed term has no number that passes its binders.
pub fn loose_typed()
    ensures { LooseTyped }
{}

/// The law of closed forms: two sequents have one closed form exactly where a renaming of type variables and free variables,
/// one to one, takes one to the other, hypotheses in order.
pub fn closed_forms_alike()
    ensures { ClosedFormsAlike }
{}
