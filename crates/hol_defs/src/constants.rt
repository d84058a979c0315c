//! Definitions of constants.
ghost use Rattle.std.specs.Prelude.{◌≡◌, ◌<◌, ◌++◌, ◌∷◌, [], None, length, map, IfErr, OnOk, OnErr};
ghost use Rattle.std.specs.Map.{lookup};
ghost use Rattle.hol_spec.specs.Definitions.{Definition};
ghost use Rattle.hol_spec.specs.NameEquality.{name_eq};
ghost use Rattle.hol_spec.specs.Symbols.{Symbol};
ghost use Rattle.hol_spec.specs.Terms.{HasType};
ghost use Rattle.hol_term.specs.Tables.{term_at, type_at, IsTermAt};
ghost use Rattle.hol_defs.specs.Faults.{constant_fault, Refuses};
ghost use Rattle.hol_defs.specs.Indexes.{generics_of, taken_of};
ghost use Rattle.hol_defs.specs.Symbols.{Taken, symbols_at, AreKnownSymbols};

use crate::Symbols;
use crate::entry::Entry;
use crate::judging::{has_own_variables, is_closed};
use common::{Fault, Kind, Memory};
use hol_name::Name;
use hol_term::{TermId, TermTable};
use hol_type::TypeId;

impl Symbols {
    /// Defines a constant of this name, which stands for the term and has the term's type as its generic type
    /// (OpenTheory article format, version 6, `defineConst`; HOL Light's kernel, `new_basic_definition`). It is refused
    /// with `NameTaken` where a constant has the name, else with `NotClosed` where the term has a free variable, and
    /// else with `ExtraTypeVars` where the term has a type variable that its type lacks.
    pub fn define(&mut self, table: &mut TermTable, name: &Name, term: TermId) -> Result<(), Fault>
        requires known { AreKnownSymbols table.old self.old }
        requires term { IsTermAt table.old term.0 }
        ensures takes { OnOk result (symbols_at table.new self.new ≡ symbols_at table.old self.old
            ++ Symbol.defined (Definition.constant name.now (term_at table.old term.0)) ∷ []) }
        ensures fits { OnOk result (constant_fault (symbols_at table.old self.old) name.now (term_at table.old term.0) ≡ None) }
        ensures refusal { IfErr result (λ fault. Refuses fault (constant_fault (symbols_at table.old self.old) name.now (term_at table.old term.0))) }
        ensures unchanged { OnErr result (self.new ≡ self.old) }
        ensures known { AreKnownSymbols table.new self.new }
        ensures table { table.new ≡ table.old }
    {
        match self.judge_const(table, name, term) {
            Ok(()) => {
                self.take_const(name, term, table.type_of(term))?;
                Ok(())
            }
            Err(fault) => Err(fault),
        }
    }

    /// Judges the definition of a constant as `define` does, and takes nothing: for a caller that has more to judge.
    pub fn judge_const(&self, table: &TermTable, name: &Name, term: TermId) -> Result<(), Fault>
        requires known { AreKnownSymbols table.now self.now }
        requires term { IsTermAt table.now term.0 }
        ensures fits { OnOk result (constant_fault (symbols_at table.now self.now) name.now (term_at table.now term.0) ≡ None) }
        ensures refusal { IfErr result (λ fault. Refuses fault (constant_fault (symbols_at table.now self.now) name.now (term_at table.now term.0))) }
    {
        if self.is_constant(name) {
            return Err(Fault::Refused(Kind::NameTaken));
        }
        if !is_closed(table, term)? {
            return Err(Fault::Refused(Kind::NotClosed));
        }
        if !has_own_variables(self.alloc, table, term)? {
            return Err(Fault::Refused(Kind::ExtraTypeVars));
        }
        Ok(())
    }

    // Takes a defined constant that isn't taken.
    pub(crate) fn take_const(&mut self, name: &Name, term: TermId, ty: TypeId) -> Result<(), Memory>
        requires { lookup (name_eq name.now) (generics_of self.old) ≡ None }
        ensures takes { OnOk result (self.new ≡ self.old ++ Taken.constant name.now term ty ∷ []) }
        ensures unchanged { OnErr result (self.new ≡ self.old) }
    {
        let count = self.taken.len();
        push_constant(&mut self.taken, name, term, ty)?;
        match self.generics.add(name, ty) {
            Ok(()) => Ok(()),
            Err(_) => {
                self.taken.truncate(count);
                Err(Memory)
            }
        }
    }
}

// Puts a defined constant last.
fn push_constant(
    taken: &mut Vec<Entry>,
    name: &Name,
    term: TermId,
    ty: TypeId,
) -> Result<(), Memory>
    ensures takes { OnOk result (map taken_of taken.new.items ≡ map taken_of taken.old.items ++ Taken.constant name.now term ty ∷ []) }
    ensures unchanged { OnErr result (taken.new.items ≡ taken.old.items) }
{
    taken.push(Entry::Const(name.clone()?, term, ty))?;
    Ok(())
}
