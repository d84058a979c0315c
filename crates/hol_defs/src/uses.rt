//! Uses of constants and operators: an input is taken where it is first used.
ghost use Rattle.std.specs.Prelude.{◌≡◌, ◌<◌, ◌++◌, ◌∷◌, [], None, Some, false, length, map, IfOk, IfErr, OnOk, OnErr};
ghost use Rattle.hol_spec.specs.Lists.{is_in, union};
ghost use Rattle.hol_spec.specs.NameEquality.{name_eq};
ghost use Rattle.hol_spec.specs.Substitution.{is_instance as is_instance_of};
ghost use Rattle.hol_spec.specs.Symbols.{generic_type, operator_arity, new_constant, new_operator};
ghost use Rattle.hol_type.specs.Tables.{tree_at};
ghost use Rattle.hol_term.specs.Tables.{Trees, type_at};
ghost use Rattle.hol_defs.specs.Generics.{generic_at, IsGenericKnown};
ghost use Rattle.hol_defs.specs.Indexes.{inputs_of, taken_of, uses_of, same_use};
ghost use Rattle.hol_defs.specs.Refusals.{FitsGeneric, FitsArity, RefusesConstant, RefusesOperator};
ghost use Rattle.hol_defs.specs.Symbols.{Taken, symbols_at, AreKnownSymbols};

use crate::entry::Entry;
use crate::primitive::Primitive;
use crate::tables::{NameSet, Uses};
use crate::{Generic, Symbols};
use common::{Fault, Kind, Memory};
use hol_name::Name;
use hol_term::TermTable;
use hol_type::{TypeId, TypeTable};

impl Symbols {
    /// The use of a constant of this name at a type (OpenTheory article format, version 6, `constTerm`): it is taken
    /// where it is no constant yet. It is refused with `BadConstType` exactly where it has a generic type of which
    /// this type is no instance.
    pub fn use_const(&mut self, table: &mut TermTable, name: &Name, ty: TypeId) -> Result<(), Fault>
        requires ty { ty.0 < length table.old.types }
        requires known { AreKnownSymbols table.old self.old }
        ensures takes { OnOk result (symbols_at table.new self.new ≡ symbols_at table.old self.old ++ new_constant (symbols_at table.old self.old) name.now) }
        ensures fits { OnOk result (FitsGeneric (generic_type (symbols_at table.old self.old) name.now) (type_at table.old ty.0)) }
        ensures refusal { IfErr result (λ fault. RefusesConstant fault (generic_type (symbols_at table.old self.old) name.now) (type_at table.old ty.0)) }
        ensures unchanged { OnErr result (self.new ≡ self.old) }
        ensures known { AreKnownSymbols table.new self.new }
        ensures table { table.new ≡ table.old }
    {
        match self.generic(name) {
            Some(generic) => fits(table.types(), generic, ty),
            None => {
                self.use_input(name)?;
                Ok(())
            }
        }
    }

    /// The use of an operator of this name with `arity` arguments (OpenTheory article format, version 6, `opType`):
    /// it is taken where it is no operator yet. It is refused with `BadArity` exactly where it is an operator that
    /// takes another number of arguments.
    pub fn use_op(&mut self, name: &Name, arity: usize) -> Result<(), Fault>
        ensures takes { OnOk result ((trees : Trees) →
            symbols_at trees self.new ≡ symbols_at trees self.old ++ new_operator (symbols_at trees self.old) name.now arity) }
        ensures fits { OnOk result ((trees : Trees) → FitsArity (operator_arity (symbols_at trees self.old) name.now) arity) }
        ensures refusal { IfErr result (λ fault. (trees : Trees) → RefusesOperator fault (operator_arity (symbols_at trees self.old) name.now) arity) }
        ensures unchanged { OnErr result (self.new ≡ self.old) }
        ensures known { (trees : Trees) → AreKnownSymbols trees self.old → AreKnownSymbols trees self.new }
    {
        match self.arity(name) {
            Some(own) => {
                if own == arity {
                    Ok(())
                } else {
                    Err(Fault::Refused(Kind::BadArity))
                }
            }
            None => {
                self.use_input_operator(name, arity)?;
                Ok(())
            }
        }
    }

    // The use of a constant without a generic type.
    fn use_input(&mut self, name: &Name) -> Result<(), Memory>
        ensures takes { OnOk result ((trees : Trees) → generic_type (symbols_at trees self.old) name.now ≡ None →
            symbols_at trees self.new ≡ symbols_at trees self.old ++ new_constant (symbols_at trees self.old) name.now) }
        ensures unchanged { OnErr result (self.new ≡ self.old) }
        ensures known { (trees : Trees) → AreKnownSymbols trees self.old → AreKnownSymbols trees self.new }
    {
        if self.is_input(name) {
            return Ok(());
        }
        self.take_input(name)?;
        Ok(())
    }

    // The use of an operator of which no number of arguments is settled.
    fn use_input_operator(&mut self, name: &Name, arity: usize) -> Result<(), Memory>
        ensures takes { OnOk result ((trees : Trees) → operator_arity (symbols_at trees self.old) name.now ≡ None →
            symbols_at trees self.new ≡ symbols_at trees self.old ++ new_operator (symbols_at trees self.old) name.now arity) }
        ensures unchanged { OnErr result (self.new ≡ self.old) }
        ensures known { (trees : Trees) → AreKnownSymbols trees self.old → AreKnownSymbols trees self.new }
    {
        let operator = (name.clone()?, arity);
        let is_use = self.is_use(&operator);
        drop(operator);
        if is_use {
            return Ok(());
        }
        self.take_input_operator(name, arity)?;
        Ok(())
    }

    // Takes an input constant that isn't taken.
    fn take_input(&mut self, name: &Name) -> Result<(), Memory>
        requires { is_in name_eq name.now (inputs_of self.old) ≡ false }
        ensures takes { OnOk result (self.new ≡ self.old ++ Taken.input_constant name.now ∷ []) }
        ensures unchanged { OnErr result (self.new ≡ self.old) }
    {
        let count = self.taken.len();
        push_input(&mut self.taken, name)?;
        match self.inputs.add_copy(name) {
            Ok(()) => Ok(()),
            Err(_) => {
                self.taken.truncate(count);
                Err(Memory)
            }
        }
    }

    // Takes an input operator that isn't taken with so many arguments.
    fn take_input_operator(&mut self, name: &Name, arity: usize) -> Result<(), Memory>
        requires { is_in same_use (name.now, arity) (uses_of self.old) ≡ false }
        ensures takes { OnOk result (self.new ≡ self.old ++ Taken.input_operator name.now arity ∷ []) }
        ensures unchanged { OnErr result (self.new ≡ self.old) }
    {
        let count = self.taken.len();
        push_input_operator(&mut self.taken, name, arity)?;
        match add_use(&mut self.uses, &mut self.names, name, arity) {
            Ok(()) => Ok(()),
            Err(_) => {
                self.taken.truncate(count);
                Err(Memory)
            }
        }
    }
}

// Puts an input constant last.
fn push_input(taken: &mut Vec<Entry>, name: &Name) -> Result<(), Memory>
    ensures takes { OnOk result (map taken_of taken.new.items ≡ map taken_of taken.old.items ++ Taken.input_constant name.now ∷ []) }
    ensures unchanged { OnErr result (taken.new.items ≡ taken.old.items) }
{
    taken.push(Entry::InputConst(name.clone()?))?;
    Ok(())
}

// Puts an input operator last.
fn push_input_operator(taken: &mut Vec<Entry>, name: &Name, arity: usize) -> Result<(), Memory>
    ensures takes { OnOk result (map taken_of taken.new.items ≡ map taken_of taken.old.items ++ Taken.input_operator name.now arity ∷ []) }
    ensures unchanged { OnErr result (taken.new.items ≡ taken.old.items) }
{
    taken.push(Entry::InputOp(name.clone()?, arity))?;
    Ok(())
}

// Notes an operator at a number of arguments, and its name.
fn add_use(uses: &mut Uses, names: &mut NameSet, name: &Name, arity: usize) -> Result<(), Memory>
    ensures uses { OnOk result (uses.new ≡ union same_use uses.old ((name.now, arity) ∷ [])) }
    ensures names { OnOk result (names.new ≡ union name_eq names.old (name.now ∷ [])) }
    ensures no_use { OnErr result (uses.new ≡ uses.old) }
    ensures no_name { OnErr result (names.new ≡ names.old) }
{
    let count = uses.len();
    uses.add((name.clone()?, arity))?;
    match names.add_copy(name) {
        Ok(()) => Ok(()),
        Err(_) => {
            uses.cut(count);
            Err(Memory)
        }
    }
}

// Whether a constant of this generic type may stand at a type.
fn fits(types: &TypeTable, generic: Generic, ty: TypeId) -> Result<(), Fault>
    requires generic { IsGenericKnown types.now generic }
    requires ty { ty.0 < length types.now }
    ensures fits { OnOk result (FitsGeneric (Some (generic_at types.now generic)) (tree_at types.now ty.0)) }
    ensures refusal { IfErr result (λ fault. RefusesConstant fault (Some (generic_at types.now generic)) (tree_at types.now ty.0)) }
{
    if may_stand(types, generic, ty)? {
        Ok(())
    } else {
        Err(Fault::Refused(Kind::BadConstType))
    }
}

// Whether a type is an instance of a generic one.
fn may_stand(types: &TypeTable, generic: Generic, ty: TypeId) -> Result<bool, Memory>
    requires generic { IsGenericKnown types.now generic }
    requires ty { ty.0 < length types.now }
    ensures { IfOk result (λ may. may ≡ is_instance_of (generic_at types.now generic) (tree_at types.now ty.0)) }
{
    match generic {
        Generic::Eq => Ok(Primitive::Equality.stands_at(types, ty)),
        Generic::Select => Ok(Primitive::Choice.stands_at(types, ty)),
        Generic::Defined(id) => is_instance(types, id, ty),
    }
}

// Whether a type is an instance of another.
fn is_instance(types: &TypeTable, general: TypeId, ty: TypeId) -> Result<bool, Memory>
    requires general { general.0 < length types.now }
    requires ty { ty.0 < length types.now }
    ensures { IfOk result (λ is. is ≡ is_instance_of (tree_at types.now general.0) (tree_at types.now ty.0)) }
{
    let found = types.match_to(general, ty)?;
    Ok(found.is_some())
}
