//! Modules.
ghost use Rattle.std.specs.Prelude.{◌≡◌, ◌<◌, ◌++◌, ◌∷◌, [], length, slice_get, option_map, Some, IfSome, IfOk, OnOk, OnErr};
ghost use Rattle.lp_spec.specs.Modules.{signature, symbol_name, symbol_type};
ghost use Rattle.lp_spec.specs.ModuleOrder.{IsModule, MayFollow};
ghost use Rattle.lp_spec.specs.ShortNames.{short, short_for};
ghost use Rattle.lp_term.specs.Tables.{tree_at};
ghost use Rattle.holide_sig.specs.Modules.{declaration_in, declarations_of, symbol_number, IsHeld, IsKnown};

use crate::decls::{Decl, Decls, short_tree};
use crate::signature::{
    NODES, SIGNATURE, add_nodes, signature_name, signature_symbol, signature_type,
};
use common::Memory;
use lp_term::{LpId, LpTable};
use std::alloc::Global;

/// A module: declarations after the signature, over a table of trees.
///
/// The table may grow: every number keeps its tree, so the module stays as it is.
#[derive(Drop)]
pub struct Module {
    pub table: LpTable,
    pub decls: Decls,
}

impl Module {
    /// The module of no declaration. Its table holds the types of the signature's symbols.
    pub fn new(alloc: Global) -> Result<Module, Memory>
        ensures none { IfOk result (λ m. m.decls ≡ []) }
        ensures empty { IfOk result (λ m. declarations_of m ≡ []) }
        ensures held { IfOk result IsHeld }
        ensures is_module { IfOk result (λ m. IsModule (declarations_of m)) }
    {
        let mut table = LpTable::new(alloc);
        add_nodes(&mut table, NODES)?;
        Ok(Module {
            table,
            decls: Decls::new(alloc),
        })
    }

    /// Adds a declaration at the end. Its name is new, and its trees are closed, without the sort of kinds, and over
    /// what was declared before.
    pub fn push(&mut self, decl: Decl) -> Result<(), Memory>
        requires held { IsHeld self.old }
        requires known { IsKnown self.old.table decl }
        requires follows { MayFollow (signature ++ declarations_of self.old) (declaration_in self.old.table decl) }
        ensures ok { OnOk result (self.new.decls ≡ self.old.decls ++ decl ∷ []) }
        ensures declared { OnOk result (declarations_of self.new ≡ declarations_of self.old ++ declaration_in self.old.table decl ∷ []) }
        ensures table { self.new.table ≡ self.old.table }
        ensures held { IsHeld self.new }
        ensures is_module { IsModule (declarations_of self.old) → IsModule (declarations_of self.new) }
        ensures unchanged { OnErr result (self.new ≡ self.old) }
    {
        self.decls.push(decl)
    }

    /// Makes room for so many declarations more. The module stays as it is.
    pub fn reserve(&mut self, more: usize) -> Result<(), Memory>
        ensures { self.new ≡ self.old }
    {
        self.decls.reserve(more)
    }

    /// Gives up the table of the declarations' names, which takes as much memory as the declarations. The module stays as it is, and
    /// `find` takes as much time as there are declarations from then on.
    pub fn give_up_names(&mut self)
        ensures { self.new ≡ self.old }
    {
        self.decls.give_up_names();
    }

    /// The symbol of that name: the signature's are numbered from 0, the declarations after them.
    pub fn find(&self, name: &[u8]) -> Option<usize>
        ensures { result ≡ symbol_number (declarations_of self.now) name.now }
    {
        match signature_symbol(name) {
            Some(symbol) => Some(symbol),
            None => {
                let place = self.decls.find(name)?;
                Some(SIGNATURE + place)
            }
        }
    }

    /// The name of a symbol.
    pub fn symbol_name(&self, symbol: usize) -> &[u8]
        requires { symbol < length (signature ++ declarations_of self.now) }
        ensures { result.now ≡ symbol_name (declarations_of self.now) symbol }
    {
        if symbol < SIGNATURE {
            signature_name(symbol)
        } else {
            self.decls.get(symbol - SIGNATURE).name.as_bytes()
        }
    }

    /// The number of the declared type of a symbol.
    pub fn symbol_type(&self, symbol: usize) -> LpId
        requires held { IsHeld self.now }
        requires declared { symbol < length (signature ++ declarations_of self.now) }
        ensures is { symbol_type (declarations_of self.now) symbol ≡ Some (tree_at self.now.table result.0) }
        ensures known { result.0 < length self.now.table }
    {
        if symbol < SIGNATURE {
            signature_type(symbol)
        } else {
            self.decls.get(symbol - SIGNATURE).ty
        }
    }

    /// The tree for which the name of a symbol is short: the body of a definition that is called `X` and a number.
    pub fn short_body(&self, symbol: usize) -> Option<LpId>
        requires held { IsHeld self.now }
        requires declared { symbol < length (signature ++ declarations_of self.now) }
        ensures is { option_map (λ id. tree_at self.now.table id.0) result ≡ short_for (declarations_of self.now) symbol }
        ensures known { IfSome result (λ id. id.0 < length self.now.table) }
    {
        if symbol < SIGNATURE {
            None
        } else {
            short_tree(self.decls.get(symbol - SIGNATURE))
        }
    }

    /// The first symbol whose name is short for the tree of that number.
    pub fn short(&self, id: LpId) -> Option<usize>
        requires held { IsHeld self.now }
        requires known { id.0 < length self.now.table }
        ensures { result ≡ short (declarations_of self.now) (tree_at self.now.table id.0) }
    {
        let place = self.decls.short(id)?;
        Some(SIGNATURE + place)
    }
}
