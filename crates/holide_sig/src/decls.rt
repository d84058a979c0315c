//! Declarations, and the list of a module's.
ghost use Rattle.std.specs.Prelude.{ℕ, List, if◌then◌else◌, None, ◌≡◌, ◌↔◌, ◌<◌, ◌^◌, ◌++◌, ◌∷◌, [], length, slice_get, Some, IsTrue, IsFalse, IfSome, OnOk, OnErr, position, nat_eq};
ghost use Rattle.std.specs.List.{list_any};
ghost use Rattle.std.specs.Bool.{OnTrue};
ghost use Rattle.std.specs.Str.{bytes_eq};
ghost use Rattle.lp_spec.specs.ShortNames.{is_short_name};
ghost use Rattle.indexmap.specs.IndexMap.{get};
ghost use Rattle.name_table.specs.Places.{with_name};
ghost use Rattle.holide_sig.specs.ShortIds.{is_id, short_id};
ghost use Rattle.holide_sig.specs.Places.{placed_with, short_with, IsShortAt};

use crate::shorts::is_short;
use common::Memory;
use indexmap::IndexMap;
use lp_spec::{Form, Ident};
use lp_term::LpId;
use name_table::NameTable;
use std::alloc::Global;
use std::marker::Model;

/// A symbol that a module declares, its trees by their numbers in the module's table.
#[derive(Debug, Drop)]
pub struct Decl {
    pub name: Ident,
    pub form: Form,
    pub ty: LpId,
    /// The body. A mere symbol has none, every other declaration has one.
    pub body: Option<LpId>,
}

/// The declarations of a module, in order.
#[derive(Drop)]
pub struct Decls {
    decls: Vec<Decl>,
    // Their names, in order, until they are given up: the number of a name is the place of its declaration.
    names: Option<NameTable>,
    // By the number of a tree, the place of the first declaration whose name is short for it. Trees are numbered from 0 as they come, so numbers
    // that meet in a table can't be had without the trees between them: for k that meet among k places, about k * k trees have to be made.
    shorts: IndexMap<usize, usize>,
}

impl Model for Decls {
    ghost use Rattle.std.specs.Prelude.{◌≡◌, List, nat_eq, map, IfSome};
    ghost use Rattle.holide_sig.specs.declared.decls.Decl.{Decl as ADecl};
    ghost use Rattle.indexmap.specs.IndexMap.{get};

    ghost Value = { List ADecl };

    ghost use Rattle.holide_sig.specs.Places.{AreShortPlaced};

    ghost view = { λ d. d.decls.items };

    ghost invariant = { λ d. IfSome d.names (λ names. names ≡ map (λ decl. decl.name) d.decls.items) × AreShortPlaced d.decls.items (get nat_eq d.shorts) };
}

impl Decls {
    /// No declaration. It takes no memory.
    pub(crate) fn new(alloc: Global) -> Self
        ensures { result ≡ [] }
    {
        Decls {
            decls: Vec::new(alloc),
            names: Some(NameTable::new(alloc)),
            shorts: IndexMap::new(alloc),
        }
    }

    /// How many declarations there are.
    pub fn len(&self) -> usize
        ensures count { result ≡ length self.now }
        ensures small { result < 2 ^ 63 }
    {
        self.decls.len()
    }

    pub fn is_empty(&self) -> bool
        ensures { IsTrue result ↔ (self.now ≡ []) }
    {
        self.len() == 0
    }

    /// The declaration at this place, counted from 0.
    pub fn get(&self, index: usize) -> &Decl
        requires { index < length self.now }
        ensures { slice_get self.now index ≡ Some result.now }
    {
        &self.decls[index]
    }

    /// The place of the declaration of that name.
    pub(crate) fn find(&self, name: &[u8]) -> Option<usize>
        ensures place { result ≡ position (λ d. bytes_eq d.name name.now) self.now }
        ensures small { IfSome result (λ place. place < 2 ^ 63) }
    {
        let _count = self.len();
        match &self.names {
            Some(names) => names.find(name),
            None => place_named(&self.decls, name),
        }
    }

    /// Makes room for so many declarations more. The list stays as it is.
    pub(crate) fn reserve(&mut self, more: usize) -> Result<(), Memory>
        ensures { self.new ≡ self.old }
    {
        self.decls.reserve(more)?;
        reserve_names(&mut self.names, more)
    }

    /// Gives up the table of names, which takes as much memory as the declarations: what is found by a name is looked for among all of
    /// them from then on.
    pub(crate) fn give_up_names(&mut self)
        ensures { self.new ≡ self.old }
    {
        self.names = None;
    }

    /// The place of the first declaration whose name is short for the tree of that number.
    pub(crate) fn short(&self, id: LpId) -> Option<usize>
        ensures place { result ≡ position (λ d. is_id (short_id d) id) self.now }
        ensures small { IfSome result (λ place. place < 2 ^ 63) }
    {
        let _count = self.len();
        let Some(place) = self.shorts.get(&id.0) else {
            return None;
        };
        if is_short_at(&self.decls, *place, id) {
            return Some(*place);
        }
        short_place(&self.decls, id)
    }

    /// Adds a declaration of a new name at the end.
    pub(crate) fn push(&mut self, decl: Decl) -> Result<(), Memory>
        requires { IsFalse (list_any (λ d. bytes_eq d.name decl.name) self.old) }
        ensures ok { OnOk result (self.new ≡ self.old ++ decl ∷ []) }
        ensures unchanged { OnErr result (self.new ≡ self.old) }
    {
        let place = self.decls.len();
        self.decls.reserve(1)?;
        note_short(&mut self.shorts, short_tree(&decl), place)?;
        note_name(&mut self.names, decl.name.as_bytes())?;
        self.decls.push_reserved(decl);
        Ok(())
    }
}

// The place of the declaration of that name.
fn place_named(decls: &[Decl], name: &[u8]) -> Option<usize>
    ensures { result ≡ position (λ d. bytes_eq d.name name.now) decls.now }
{
    decls.iter().position(
        |decl: &Decl| -> bool
            ensures { result ≡ bytes_eq decl.now.name name.entry.now }
        { decl.name.as_bytes() == name },
    )
}

// The place of the first declaration whose name is short for the tree of that number.
fn short_place(decls: &[Decl], id: LpId) -> Option<usize>
    ensures { result ≡ position (λ d. is_id (short_id d) id) decls.now }
{
    decls.iter().position(
        |decl: &Decl| -> bool
            ensures { result ≡ is_id (short_id decl.now) id }
        { is_short_of(decl, id) },
    )
}

// Whether the declaration at a place has a name that is short for the tree of that number.
fn is_short_at(decls: &[Decl], place: usize, id: LpId) -> bool
    ensures { OnTrue result (IsShortAt decls.now place id) }
{
    match decls.get(place) {
        Some(decl) => is_short_of(decl, id),
        None => false,
    }
}

// Makes room for so many names more, where there is a table of names.
fn reserve_names(names: &mut Option<NameTable>, more: usize) -> Result<(), Memory>
    ensures { (l : List (List ℕ)) → IfSome names.old (λ t. t ≡ l) → IfSome names.new (λ t. t ≡ l) }
{
    match names {
        Some(table) => table.reserve(more),
        None => Ok(()),
    }
}

// Gives the next number to a new name, where there is a table of names.
fn note_name(names: &mut Option<NameTable>, name: &[u8]) -> Result<(), Memory>
    ensures noted { OnOk result ((l : List (List ℕ)) → IfSome names.old (λ t. t ≡ l) → IfSome names.new (λ t. t ≡ with_name l name.now)) }
    ensures unchanged { OnErr result ((l : List (List ℕ)) → IfSome names.old (λ t. t ≡ l) → IfSome names.new (λ t. t ≡ l)) }
{
    if let Some(table) = names {
        table.number(name)?;
    }
    Ok(())
}

// Notes a place for the tree for which a name is short, if it is, unless that has one.
fn note_short(
    shorts: &mut IndexMap<usize, usize>,
    body: Option<LpId>,
    place: usize,
) -> Result<(), Memory>
    ensures noted { OnOk result ((m : ℕ) → get nat_eq shorts.new m ≡ short_with (get nat_eq shorts.old) body place m) }
    ensures unchanged { OnErr result ((m : ℕ) → get nat_eq shorts.new m ≡ get nat_eq shorts.old m) }
{
    match body {
        Some(id) => note_number(shorts, id.0, place),
        None => Ok(()),
    }
}

// Notes a place for the number of a tree, unless it has one.
fn note_number(
    shorts: &mut IndexMap<usize, usize>,
    number: usize,
    place: usize,
) -> Result<(), Memory>
    ensures noted { OnOk result ((m : ℕ) → get nat_eq shorts.new m ≡ placed_with (get nat_eq shorts.old) number place m) }
    ensures unchanged { OnErr result ((m : ℕ) → get nat_eq shorts.new m ≡ get nat_eq shorts.old m) }
{
    if shorts.get(&number).is_none() {
        shorts.insert(number, place)?;
    }
    Ok(())
}

// Whether the name of a declaration is short for the tree of that number.
fn is_short_of(decl: &Decl, id: LpId) -> bool
    ensures { result ≡ is_id (short_id decl.now) id }
{
    match short_tree(decl) {
        Some(body) => body == id,
        None => false,
    }
}

// The tree for which the name of a declaration is short.
pub(crate) fn short_tree(decl: &Decl) -> Option<LpId>
    ensures { result ≡ short_id decl.now }
{
    match decl.form {
        Form::Def => if_short(decl),
        Form::Symbol | Form::Thm => None,
    }
}

// The body of a declaration whose name is short.
fn if_short(decl: &Decl) -> Option<LpId>
    ensures { result ≡ (if is_short_name decl.now.name then decl.now.body else None) }
{
    if is_short(decl.name.as_bytes()) {
        decl.body
    } else {
        None
    }
}
