//! Definitions of type operators.
ghost use Rattle.std.specs.Prelude.{◌≡◌, ◌<◌, ◌&&◌, ◌||◌, ◌++◌, ◌∷◌, List, [], None, Some, false, not, length, map, IfOk, IfErr, OnOk, OnErr};
ghost use Rattle.std.specs.Map.{lookup};
ghost use Rattle.std.specs.Option.{option_or};
ghost use Rattle.hol_spec.specs.Definitions.{Definition, TypeNames};
ghost use Rattle.hol_spec.specs.NameEquality.{name_eq};
ghost use Rattle.hol_spec.specs.Primitives.{function};
ghost use Rattle.hol_spec.specs.Symbols.{Symbol};
ghost use Rattle.hol_spec.specs.TypeDefinitions.{are_type_variables_of};
ghost use Rattle.hol_spec.specs.Names.{Name as AName};
ghost use Rattle.hol_spec.specs.Types.{HolType, variable, operator, types_of};
ghost use Rattle.hol_spec.specs.Terms.{Term, HasType, app};
ghost use Rattle.hol_type.specs.Tables as type;
ghost use Rattle.hol_term.specs.Tables.{Trees, term_at, type_at, IsTermAt, Keeps};
ghost use Rattle.hol_defs.specs.Faults.{are_new as are_new_names, operator_fault, limit_fault, types_made, Refuses, RefusesMade};
ghost use Rattle.hol_defs.specs.Indexes.{arities_of, generics_of, taken_of};
ghost use Rattle.hol_defs.specs.Symbols.{named, named_by, symbols_at, AreConstantTypes, AreKnownSymbols, TakesOperator};
ghost use Rattle.hol_defs.specs.Views.{constants_of_view, operator_of_view};

use crate::entry::{Entry, NewType};
use crate::judging::{are_among, copied, is_closed};
use crate::tables::{Arities, Generics, NameSet};
use crate::{Symbols, TypeOpView};
use common::{Fault, Kind, Memory};
use hol_name::Name;
use hol_spec::{GREATEST_DEPTH, GREATEST_SIZE};
use hol_term::{TermId, TermTable, TermView};
use hol_type::{TypeId, TypeTable};
use std::alloc::Global;

/// The names that the definition of a type operator gives.
#[derive(Clone, Copy)]
struct NewNames<'a> {
    op: &'a Name,
    abs: &'a Name,
    rep: &'a Name,
    variables: &'a [Name],
}

/// The numbers of the types of two constants.
#[derive(Clone, Copy)]
struct ConstantTypes {
    abs: TypeId,
    rep: TypeId,
}

impl Symbols {
    /// Defines a type operator and its two constants by a theorem's conclusion `f t`, an application: the new type is
    /// the part of the type of `t` in which `f` holds, over the type variables of these names, in their order
    /// (OpenTheory article format, version 6, `defineTypeOp`; HOL Light's kernel, `new_basic_type_definition`). It is
    /// refused with `NameTaken` where `op` is an operator or `abs` or `rep` a constant, or `abs` and `rep` are one name;
    /// else with `NotClosed` where `f` has a free variable; else with `BadTypeVars` where the names repeat or aren't the
    /// type variables of `f`; else with `TooLarge` or `TooDeep` where the new type or one of the constants' types passes
    /// that limit, every size judged before any depth.
    pub fn define_op(
        &mut self,
        table: &mut TermTable,
        op: &Name,
        abs: &Name,
        rep: &Name,
        names: &[Name],
        term: TermId,
    ) -> Result<(), Fault>
        requires known { AreKnownSymbols table.old self.old }
        requires term { IsTermAt table.old term.0 }
        requires application { (f : Term) × ((t : Term) × (term_at table.old term.0 ≡ app f t)) }
        ensures takes { OnOk result ((f t : Term) (c : HolType) → term_at table.old term.0 ≡ app f t → HasType t c →
            symbols_at table.new self.new ≡ symbols_at table.old self.old
            ++ Symbol.defined (Definition.type_operator (named op.now abs.now rep.now names.now) c f) ∷ []) }
        ensures fits { OnOk result ((f t : Term) (c : HolType) → term_at table.old term.0 ≡ app f t → HasType t c →
            option_or (operator_fault (symbols_at table.old self.old) (named op.now abs.now rep.now names.now) f)
            (limit_fault (types_made (named op.now abs.now rep.now names.now) c)) ≡ None) }
        ensures refusal { IfErr result (λ fault. (f t : Term) (c : HolType) → term_at table.old term.0 ≡ app f t → HasType t c →
            Refuses fault (option_or (operator_fault (symbols_at table.old self.old) (named op.now abs.now rep.now names.now) f)
            (limit_fault (types_made (named op.now abs.now rep.now names.now) c)))) }
        ensures unchanged { OnErr result (self.new ≡ self.old) }
        ensures known { AreKnownSymbols table.new self.new }
        ensures keeps { Keeps table.old table.new }
    {
        let (predicate, witness) = application_parts(table, term);
        let whole = table.type_of(witness);
        match self.judge_op(table, op, abs, rep, names, predicate) {
            Ok(()) => {}
            Err(fault) => return Err(fault),
        }
        match within_limits(table.types(), names.len(), whole) {
            Ok(()) => {}
            Err(fault) => return Err(fault),
        }
        let given = NewNames {
            op,
            abs,
            rep,
            variables: names,
        };
        self.take_op(table, given, whole, predicate)?;
        Ok(())
    }

    /// Judges the names and the predicate of the definition of a type operator as `define_op` does, and takes nothing:
    /// for a caller that has more to judge before the limits.
    pub fn judge_op(
        &self,
        table: &TermTable,
        op: &Name,
        abs: &Name,
        rep: &Name,
        names: &[Name],
        predicate: TermId,
    ) -> Result<(), Fault>
        requires known { AreKnownSymbols table.now self.now }
        requires predicate { predicate.0 < length table.now.terms }
        ensures fits { OnOk result (operator_fault (symbols_at table.now self.now)
            (named op.now abs.now rep.now names.now) (term_at table.now predicate.0) ≡ None) }
        ensures refusal { IfErr result (λ fault. Refuses fault (operator_fault (symbols_at table.now self.now)
            (named op.now abs.now rep.now names.now) (term_at table.now predicate.0))) }
    {
        if !self.are_new(op, abs, rep) {
            return Err(Fault::Refused(Kind::NameTaken));
        }
        if !is_closed(table, predicate)? {
            return Err(Fault::Refused(Kind::NotClosed));
        }
        if !are_type_variables(self.alloc, table, names, predicate)? {
            return Err(Fault::Refused(Kind::BadTypeVars));
        }
        Ok(())
    }

    /// Whether `op` is no operator, `abs` and `rep` are no constants and two names.
    pub fn are_new(&self, op: &Name, abs: &Name, rep: &Name) -> bool
        ensures new { (trees : Trees) (names : List AName) → AreKnownSymbols trees self.now →
            result ≡ are_new_names (symbols_at trees self.now) (named op.now abs.now rep.now names) }
    {
        none_of(
            self.is_operator(op),
            self.is_constant(abs),
            self.is_constant(rep),
            abs.same(rep),
        )
    }

    // Takes a type operator and its constants, of which none is taken. The types that it makes are within the limits.
    fn take_op(
        &mut self,
        table: &mut TermTable,
        given: NewNames<'_>,
        whole: TypeId,
        predicate: TermId,
    ) -> Result<(), Memory>
        requires abs { lookup (name_eq given.abs.now) (generics_of self.old) ≡ None }
        requires rep { lookup (name_eq given.rep.now) (generics_of self.old) ≡ None }
        requires apart { name_eq given.rep.now given.abs.now ≡ false }
        requires op { lookup (name_eq given.op.now) (arities_of self.old) ≡ None }
        requires whole { whole.0 < length table.old.types }
        ensures takes { OnOk result
            (TakesOperator table.new.types self.old self.new (named_by given.entry) (type_at table.old whole.0) whole predicate) }
        ensures unchanged { OnErr result (self.new ≡ self.old) }
        ensures keeps { Keeps table.old table.new }
    {
        let types = constant_types(self.alloc, table, given, whole)?;
        self.push_op(TypeOpView {
            op: given.op,
            abs: given.abs,
            rep: given.rep,
            names: given.variables,
            whole,
            predicate,
            abs_type: types.abs,
            rep_type: types.rep,
        })?;
        Ok(())
    }

    // Takes a type operator and its constants, of which none is taken.
    fn push_op(&mut self, definition: TypeOpView) -> Result<(), Memory>
        requires abs { lookup (name_eq definition.abs.now) (generics_of self.old) ≡ None }
        requires rep { lookup (name_eq definition.rep.now) (generics_of self.old) ≡ None }
        requires apart { name_eq definition.rep.now definition.abs.now ≡ false }
        requires op { lookup (name_eq definition.op.now) (arities_of self.old) ≡ None }
        ensures takes { OnOk result (self.new ≡ self.old ++ operator_of_view definition.entry ∷ []) }
        ensures unchanged { OnErr result (self.new ≡ self.old) }
    {
        let count = self.taken.len();
        push_operator(self.alloc, &mut self.taken, definition)?;
        match add_operator(&mut self.generics, &mut self.arities, definition) {
            Ok(()) => Ok(()),
            Err(_) => {
                self.taken.truncate(count);
                Err(Memory)
            }
        }
    }
}

// Puts a type operator last.
fn push_operator(
    alloc: Global,
    taken: &mut Vec<Entry>,
    definition: TypeOpView,
) -> Result<(), Memory>
    ensures takes { OnOk result (map taken_of taken.new.items ≡ map taken_of taken.old.items ++ operator_of_view definition.entry ∷ []) }
    ensures unchanged { OnErr result (taken.new.items ≡ taken.old.items) }
{
    taken.push(Entry::TypeOp(NewType {
        op: definition.op.clone()?,
        abs: definition.abs.clone()?,
        rep: definition.rep.clone()?,
        names: copied(alloc, definition.names)?,
        whole: definition.whole,
        predicate: definition.predicate,
        abs_type: definition.abs_type,
        rep_type: definition.rep_type,
    }))?;
    Ok(())
}

// Notes an operator and its constants.
fn add_operator(
    generics: &mut Generics,
    arities: &mut Arities,
    definition: TypeOpView,
) -> Result<(), Memory>
    requires abs { lookup (name_eq definition.abs.now) generics.old ≡ None }
    requires rep { lookup (name_eq definition.rep.now) generics.old ≡ None }
    requires apart { name_eq definition.rep.now definition.abs.now ≡ false }
    requires op { lookup (name_eq definition.op.now) arities.old ≡ None }
    ensures generics { OnOk result (generics.new ≡ generics.old ++ constants_of_view definition.entry) }
    ensures arities { OnOk result (arities.new ≡ arities.old ++ (definition.entry.op.now, length definition.entry.names.now) ∷ []) }
    ensures no_generics { OnErr result (generics.new ≡ generics.old) }
    ensures no_arity { OnErr result (arities.new ≡ arities.old) }
{
    let count = generics.len();
    add_constants(generics, definition)?;
    match arities.add(definition.op, definition.names.len()) {
        Ok(()) => Ok(()),
        Err(_) => {
            generics.cut(count);
            Err(Memory)
        }
    }
}

// Notes the generic types of two constants.
fn add_constants(generics: &mut Generics, definition: TypeOpView) -> Result<(), Memory>
    requires abs { lookup (name_eq definition.abs.now) generics.old ≡ None }
    requires rep { lookup (name_eq definition.rep.now) generics.old ≡ None }
    requires apart { name_eq definition.rep.now definition.abs.now ≡ false }
    ensures added { OnOk result (generics.new ≡ generics.old ++ constants_of_view definition.entry) }
    ensures unchanged { OnErr result (generics.new ≡ generics.old) }
{
    let count = generics.len();
    generics.add(definition.abs, definition.abs_type)?;
    match generics.add(definition.rep, definition.rep_type) {
        Ok(()) => Ok(()),
        Err(_) => {
            generics.cut(count);
            Err(Memory)
        }
    }
}

// The parts of an application.
fn application_parts(table: &TermTable, term: TermId) -> (TermId, TermId)
    requires term { term.0 < length table.now.terms }
    requires application { (f : Term) × ((t : Term) × (term_at table.now term.0 ≡ app f t)) }
    ensures parts { term_at table.now term.0 ≡ app (term_at table.now result.0.0) (term_at table.now result.1.0) }
    ensures function { result.0.0 < length table.now.terms }
    ensures argument { result.1.0 < length table.now.terms }
{
    match table.view(term) {
        TermView::App(f, x) => (f, x),
        TermView::Free(..) | TermView::Bound(_) | TermView::Const(..) | TermView::Lam(..) => {
            unreachable!()
        }
    }
}

// Whether the names are the type variables of a term, each once.
fn are_type_variables(
    alloc: Global,
    table: &TermTable,
    names: &[Name],
    term: TermId,
) -> Result<bool, Memory>
    requires { term.0 < length table.now.terms }
    ensures { IfOk result (λ are. are ≡ are_type_variables_of names.now (term_at table.now term.0)) }
{
    let mut own = NameSet::new(alloc);
    let mut places = NameSet::new(alloc);
    let are = are_those_of(alloc, table, names, term, &mut own, &mut places);
    drop(places);
    drop(own);
    are
}

// The same, with a set for the names and one for the type variables.
fn are_those_of(
    alloc: Global,
    table: &TermTable,
    names: &[Name],
    term: TermId,
    own: &mut NameSet,
    places: &mut NameSet,
) -> Result<bool, Memory>
    requires term { term.0 < length table.now.terms }
    requires own { own.old ≡ [] }
    requires places { places.old ≡ [] }
    ensures { IfOk result (λ are. are ≡ are_type_variables_of names.now (term_at table.now term.0)) }
{
    own.unite(copied(alloc, names)?)?;
    let variables = table.type_vars(term)?;
    let all = are_among(own, &variables);
    places.unite(variables)?;
    let only = are_among(places, names);
    Ok(all_of(own.len() == names.len(), only, all))
}

// Whether all three hold.
fn all_of(one: bool, two: bool, three: bool) -> bool
    ensures { result ≡ (one && two && three) }
{
    if one {
        if two { three } else { false }
    } else {
        false
    }
}

// Whether none of the four holds.
fn none_of(one: bool, two: bool, three: bool, four: bool) -> bool
    ensures { result ≡ not (one || two || three || four) }
{
    if one {
        false
    } else if two {
        false
    } else if three {
        false
    } else {
        !four
    }
}

// Judges the types that a definition makes, over so many type variables and a type of which the new one is a part. The
// types of the two constants are larger and deeper than the new type, and as large and as deep as each other.
fn within_limits(types: &TypeTable, count: usize, whole: TypeId) -> Result<(), Fault>
    requires { whole.0 < length types.now }
    ensures fits { OnOk result ((names : TypeNames) → length names.variables ≡ count → limit_fault (types_made names (type.tree_at types.now whole.0)) ≡ None) }
    ensures refusal { IfErr result (RefusesMade types.now count whole) }
{
    let count = count as u64;
    let size = types.size(whole).saturating_add(count).saturating_add(2);
    if size > GREATEST_SIZE {
        return Err(Fault::Refused(Kind::TooLarge));
    }
    let own = count.max(1).saturating_add(count.min(1));
    let depth = types.depth(whole).max(own).saturating_add(2);
    if depth > GREATEST_DEPTH {
        return Err(Fault::Refused(Kind::TooDeep));
    }
    Ok(())
}

// The types of the constants of a new type.
fn constant_types(
    alloc: Global,
    table: &mut TermTable,
    given: NewNames<'_>,
    whole: TypeId,
) -> Result<ConstantTypes, Memory>
    requires { whole.0 < length table.old.types }
    ensures types { IfOk result (λ types.
        AreConstantTypes table.new.types (named_by given.entry) (type_at table.old whole.0) types.abs types.rep) }
    ensures keeps { Keeps table.old table.new }
{
    let part = part_type(alloc, table, given.op, given.variables)?;
    let abs = function_type(alloc, table, whole, part)?;
    let rep = function_type(alloc, table, part, whole)?;
    Ok(ConstantTypes { abs, rep })
}

// The operator over the type variables of these names.
fn part_type(
    alloc: Global,
    table: &mut TermTable,
    op: &Name,
    names: &[Name],
) -> Result<TypeId, Memory>
    ensures known { IfOk result (λ id. id.0 < length table.new.types) }
    ensures made { IfOk result (λ id. type_at table.new id.0 ≡ operator op.now (types_of (map variable names.now))) }
    ensures keeps { Keeps table.old table.new }
{
    let mut variables = Vec::new(alloc);
    let part = operator_over(table, op, names, &mut variables);
    drop(variables);
    part
}

// The same, with a list for the type variables.
fn operator_over(
    table: &mut TermTable,
    op: &Name,
    names: &[Name],
    variables: &mut Vec<TypeId>,
) -> Result<TypeId, Memory>
    requires { variables.old.items ≡ [] }
    ensures known { IfOk result (λ id. id.0 < length table.new.types) }
    ensures made { IfOk result (λ id. type_at table.new id.0 ≡ operator op.now (types_of (map variable names.now))) }
    ensures keeps { Keeps table.old table.new }
{
    push_variables(table, names, variables)?;
    let Ok(part) = table.ty_op(op, variables) else {
        return Err(Memory);
    };
    Ok(part)
}

// The type of functions from one type to another.
fn function_type(
    alloc: Global,
    table: &mut TermTable,
    domain: TypeId,
    codomain: TypeId,
) -> Result<TypeId, Memory>
    requires domain { domain.0 < length table.old.types }
    requires codomain { codomain.0 < length table.old.types }
    ensures known { IfOk result (λ id. id.0 < length table.new.types) }
    ensures made { IfOk result (λ id. type_at table.new id.0 ≡ function (type_at table.old domain.0) (type_at table.old codomain.0)) }
    ensures keeps { Keeps table.old table.new }
{
    let Ok(arrow) = Name::single(alloc, b"->") else {
        return Err(Memory);
    };
    let made = table.ty_op(&arrow, &[domain, codomain]);
    drop(arrow);
    match made {
        Ok(id) => Ok(id),
        Err(_) => Err(Memory),
    }
}

// Puts the type variables of these names.
fn push_variables(
    table: &mut TermTable,
    names: &[Name],
    ids: &mut Vec<TypeId>,
) -> Result<(), Memory>
    requires { ids.old.items ≡ [] }
    ensures known { OnOk result (type.AreKnown table.new.types ids.new.items) }
    ensures made { OnOk result (type.types_at table.new.types ids.new.items ≡ map variable names.now) }
    ensures keeps { Keeps table.old table.new }
{
    for name in names {
        let Ok(id) = table.ty_var(name) else {
            return Err(Memory);
        };
        ids.push(id)?;
    }
    Ok(())
}
