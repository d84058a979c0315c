//! What a reading is in, by numbers of the table's trees and of the names that it has met.
ghost use Rattle.std.specs.Prelude.{◌≡◌, [], ◌∷◌, ◌++◌, length, None, Some, replicate, slice_get, slice_set, unwrap_or, IfOk, OnOk};
ghost use Rattle.lp_spec.specs.Modules.{signature};

use common::Memory;
use holide_sig::{Form, SIGNATURE};
use lp_term::LpId;
use std::alloc::Global;

/// What a name means inside the binders that are open: nothing, a symbol by its number, or a binder by how many are
/// round it.
#[derive(Clone, Copy)]
pub(crate) enum Meaning {
    Nothing,
    Symbol(usize),
    Binder(usize),
}

/// The nodes that most terms have, by number, so that they need not be looked up: those of the first variables, and of
/// the symbols that have stood in a term.
#[derive(Drop)]
pub(crate) struct Atoms {
    pub(crate) variables: Vec<LpId>,
    pub(crate) symbols: Vec<Option<LpId>>,
}

impl Atoms {
    /// No node. There is a place for each symbol of the signature.
    pub(crate) fn new(alloc: Global) -> Result<Atoms, Memory>
        ensures variables { IfOk result (λ a. a.variables.items ≡ []) }
        ensures symbols { IfOk result (λ a. a.symbols.items ≡ replicate (length signature) None) }
    {
        Ok(Atoms {
            variables: Vec::new(alloc),
            symbols: vec![in alloc; None; SIGNATURE]?,
        })
    }

    /// The node of a symbol, if it is kept.
    pub(crate) fn symbol(&self, symbol: usize) -> Option<LpId>
        ensures { result ≡ unwrap_or (slice_get self.now.symbols.items symbol) None }
    {
        match self.symbols.get(symbol) {
            Some(id) => *id,
            None => None,
        }
    }

    /// Keeps the node of a symbol that has a place.
    pub(crate) fn keep(&mut self, symbol: usize, id: LpId)
        ensures variables { self.new.variables ≡ self.old.variables }
        ensures symbols { self.new.symbols.items ≡ slice_set self.old.symbols.items symbol (Some id) }
    {
        if symbol < self.symbols.len() {
            self.symbols[symbol] = Some(id);
        }
    }

    /// Makes a place for one more symbol.
    pub(crate) fn make_place(&mut self) -> Result<(), Memory>
        ensures variables { self.new.variables ≡ self.old.variables }
        ensures symbols { OnOk result (self.new.symbols.items ≡ self.old.symbols.items ++ None ∷ []) }
    {
        self.symbols.push(None)?;
        Ok(())
    }
}

/// What is open round a place in a term. A binder keeps what its name means outside it.
#[derive(Clone, Copy)]
pub(crate) enum Frame {
    /// A parenthesis, after what is applied to what it encloses.
    Enclosing(Option<LpId>),
    /// A binder whose domain is being read.
    Domain(usize),
    /// A product whose domain has been read.
    Product(usize, LpId, Meaning),
    /// An abstraction whose domain has been read.
    Abstraction(usize, LpId, Meaning),
}

/// A binder whose body has been read, by its domain.
#[derive(Clone, Copy)]
pub(crate) enum Binder {
    Product(LpId),
    Abstraction(LpId),
}

/// What has been read of the declaration whose term is open.
#[derive(Clone, Copy)]
pub(crate) enum Head {
    TypeOf(Form, usize),
    BodyOf(Form, usize, LpId),
}

/// Where a reading is.
#[derive(Clone, Copy)]
pub(crate) enum State {
    Between,
    AfterKeyword(Form),
    AfterName(Form, usize),
    AtTerm,
    AfterFirst(u64, usize),
    InApplication(Option<LpId>),
}

/// A token.
#[derive(Clone, Copy)]
pub(crate) enum Token {
    Name(usize),
    TypeWord,
    DefWord,
    ThmWord,
    Colon,
    Assign,
    Arrow,
    FatArrow,
    Dot,
    LeftParen,
    RightParen,
}

/// A word: one of the key words, or an identifier.
#[derive(Clone, Copy)]
pub(crate) enum Word {
    Type,
    Def,
    Thm,
    Identifier,
}
