//! The reading of tokens: each leads from one state to the next.
ghost use Rattle.std.specs.Prelude.{◌≡◌, ◌<◌, [], length, Some, IfOk, OnOk, IfErr};
ghost use Rattle.lp_spec.specs.Tokens as tokens;
ghost use Rattle.lp_spec.specs.ReadingFaults as reading;
ghost use Rattle.dk_laws.specs.ReadingOrder.{IsState};
ghost use Rattle.lp_term.specs.Tables.{tree_of_node, Holds, Keeps, PartsBelow};
ghost use Rattle.dk_read.specs.declared.terms.State.TheVariants as state;
ghost use Rattle.dk_read.specs.declared.faults.Stop.TheVariants as stop;
ghost use Rattle.dk_read.specs.Names.{name_at};
ghost use Rattle.dk_read.specs.Firsts.{IsFirst};
ghost use Rattle.dk_read.specs.States.{tree_of, argued_in, applies_in, goes_on_in, advance_in, state_in, state_of, head_of, token_in, frames_of, IsSound, IsReady, IsReading, IsTokenKnown, IsIdKnown, Becomes, Tells, Grows, before, tree_in, IsSign, NoColon, IsWord};

use crate::faults::{DkFault, Stop};
use crate::names::Names;
use crate::signature_names::first_names;
use crate::terms::{Atoms, Frame, Head, Meaning, State, Token, Word};
use common::Memory;
use holide_sig::{Form, Ident, Module};
use lp_spec::DkKind;
use lp_term::{LpId, LpNode};
use std::alloc::Global;

/// A reading of tokens: the module so far with the names that it has met, and what is open in a term, the innermost
/// last, with how many of it are binders.
#[derive(Drop)]
pub(crate) struct Parser {
    pub(crate) alloc: Global,
    pub(crate) module: Module,
    pub(crate) names: Names,
    // The number of the empty name, which binders without one have.
    pub(crate) nameless: usize,
    pub(crate) frames: Vec<Frame>,
    pub(crate) binders: usize,
    pub(crate) atoms: Atoms,
    pub(crate) head: Head,
    pub(crate) state: State,
}

impl Parser {
    /// A reading before the first token.
    pub(crate) fn new(alloc: Global) -> Result<Parser, Memory>
        ensures reading { IfOk result IsReading }
        ensures none { IfOk result (λ p. before p ≡ []) }
        ensures state { IfOk result (λ p. state_of p ≡ reading.Between) }
        ensures first { IfOk result IsFirst }
    {
        let mut module = Module::new(alloc)?;
        // A name is looked for among the reader's own.
        module.give_up_names();
        let Ok((names, nameless)) = first_names(alloc, &module) else {
            drop(module);
            return Err(Memory);
        };
        let Ok(atoms) = Atoms::new(alloc) else {
            drop(names);
            drop(module);
            return Err(Memory);
        };
        Ok(Parser {
            alloc,
            module,
            names,
            nameless,
            frames: Vec::new(alloc),
            binders: 0,
            atoms,
            head: Head::TypeOf(Form::Symbol, nameless),
            state: State::Between,
        })
    }

    /// Makes room for so many declarations, as far as there is memory. The reading stays as it is.
    pub(crate) fn reserve(&mut self, count: usize)
        ensures { self.new ≡ self.old }
    {
        let _ = self.module.reserve(count);
        let _ = self.names.reserve(count);
    }

    /// The tree of this node.
    pub(crate) fn node(&mut self, node: LpNode) -> Result<LpId, Stop>
        requires sound { IsSound self.old }
        requires parts { PartsBelow (length self.old.module.table) node }
        ensures known { IfOk result (λ id. id.0 < length self.new.module.table) }
        ensures made { IfOk result (λ id. Holds self.new.module.table id.0 (tree_of_node self.old.module.table node)) }
        ensures atoms { self.new.atoms ≡ self.old.atoms }
        ensures grows { Grows self.old self.new }
        ensures memory { IfErr result (λ e. e ≡ stop.Memory) }
    {
        let id = self.module.table.node(node)?;
        Ok(id)
    }

    /// The number of a name.
    pub(crate) fn number(&mut self, name: &[u8]) -> Result<usize, Stop>
        requires sound { IsSound self.old }
        ensures known { IfOk result (λ n. n < length self.new.names) }
        ensures named { IfOk result (λ n. name_at self.new.names n ≡ name.now) }
        ensures grows { Grows self.old self.new }
        ensures memory { IfErr result (λ e. e ≡ stop.Memory) }
    {
        let number = self.names.number(name)?;
        Ok(number)
    }

    /// A name, copied.
    pub(crate) fn ident(&self, name: usize) -> Result<Ident, Memory>
        ensures { IfOk result (λ ident. ident ≡ name_at self.now.names name) }
    {
        let bytes = self.names.copied(name)?;
        Ok(Ident::new(bytes))
    }

    /// A stop as the fault that is answered, with a copy of the name that it tells.
    pub(crate) fn fault(&self, stop: Stop) -> DkFault
        ensures { Tells self.now.names stop result }
    {
        match stop {
            Stop::BadText(place) => DkFault::Refused {
                place,
                kind: DkKind::BadText,
            },
            Stop::UnknownName(place, name) => match self.ident(name) {
                Ok(ident) => DkFault::Refused {
                    place,
                    kind: DkKind::UnknownName(ident),
                },
                Err(_) => DkFault::Memory,
            },
            Stop::NameTwice(place, name) => match self.ident(name) {
                Ok(ident) => DkFault::Refused {
                    place,
                    kind: DkKind::NameTwice(ident),
                },
                Err(_) => DkFault::Memory,
            },
            Stop::TooDeep(place) => DkFault::Refused {
                place,
                kind: DkKind::DkTooDeep,
            },
            Stop::Memory => DkFault::Memory,
        }
    }

    /// An atom after what is applied to it, if anything.
    pub(crate) fn argue(&mut self, function: Option<LpId>, atom: LpId) -> Result<(), Stop>
        requires sound { IsSound self.old }
        requires function { IsIdKnown self.old.module.table function }
        requires atom { atom.0 < length self.old.module.table }
        ensures becomes { Becomes (argued_in self.old function atom) self.new result }
        ensures ready { OnOk result (IsReady self.new) }
        ensures keeps { OnOk result (Keeps self.old.module.table self.new.module.table) }
    {
        match function {
            None => {
                self.state = State::InApplication(Some(atom));
                Ok(())
            }
            Some(f) => {
                let tree = self.node(LpNode::App(f, atom))?;
                self.state = State::InApplication(Some(tree));
                Ok(())
            }
        }
    }

    // The name of a declaration.
    fn name(&mut self, form: Form, place: u64, name: usize) -> Result<(), Stop>
        requires sound { IsSound self.old }
        requires known { name < length self.old.names }
        requires closed { self.old.frames.items ≡ [] }
        ensures becomes { Becomes (reading.names (before self.old) form place (name_at self.old.names name)) self.new result }
        ensures ready { OnOk result (IsReady self.new) }
        ensures keeps { OnOk result (Keeps self.old.module.table self.new.module.table) }
    {
        match self.names.meaning(name) {
            Meaning::Nothing => {
                self.state = State::AfterName(form, name);
                Ok(())
            }
            Meaning::Symbol(_) | Meaning::Binder(_) => Err(Stop::NameTwice(place, name)),
        }
    }

    // The token after what the application so far is, if anything.
    #[inline(always)]
    fn apply(&mut self, function: Option<LpId>, place: u64, token: Token) -> Result<(), Stop>
        requires sound { IsSound self.old }
        requires function { IsIdKnown self.old.module.table function }
        requires ordered { IsState (before self.old) (state_in self.old (state.InApplication function)) }
        requires token { IsTokenKnown self.old.names token }
        ensures becomes { Becomes (applies_in self.old (tree_in self.old.module.table function) place token) self.new result }
        ensures ready { OnOk result (IsReady self.new) }
        ensures keeps { OnOk result (Keeps self.old.module.table self.new.module.table) }
    {
        match token {
            Token::Name(name) => {
                let atom = self.meaning(place, name)?;
                self.argue(function, atom)
            }
            Token::TypeWord => {
                let atom = self.node(LpNode::SortType)?;
                self.argue(function, atom)
            }
            Token::LeftParen => {
                self.open(Frame::Enclosing(function))?;
                self.state = State::AtTerm;
                Ok(())
            }
            sign => match function {
                Some(tree) => self.end_application(tree, place, sign),
                None => Err(Stop::BadText(place)),
            },
        }
    }

    // The sign after an application.
    fn end_application(&mut self, tree: LpId, place: u64, sign: Token) -> Result<(), Stop>
        requires sound { IsSound self.old }
        requires tree { tree.0 < length self.old.module.table }
        requires ordered { IsState (before self.old) (state_in self.old (state.InApplication (Some tree))) }
        requires sign { IsSign sign }
        ensures becomes { Becomes (applies_in self.old (Some (tree_of self.old tree)) place sign) self.new result }
        ensures ready { OnOk result (IsReady self.new) }
        ensures keeps { OnOk result (Keeps self.old.module.table self.new.module.table) }
    {
        match sign {
            Token::RightParen => self.close(tree, place),
            Token::Arrow => self.arrow(tree),
            Token::FatArrow => self.fat_arrow(tree, place),
            Token::Dot => self.declare(tree, place),
            Token::Assign => self.assign(tree, place),
            _ => Err(Stop::BadText(place)),
        }
    }

    // The token after an identifier that begins a term, where it is no binder's.
    fn after_first(&mut self, first: u64, name: usize, place: u64, token: Token) -> Result<(), Stop>
        requires sound { IsSound self.old }
        requires known { name < length self.old.names }
        requires ordered { IsState (before self.old) (reading.AfterFirst (head_of self.old) (frames_of self.old) first (name_at self.old.names name)) }
        requires token { IsTokenKnown self.old.names token }
        requires no_colon { NoColon token }
        ensures becomes { Becomes (goes_on_in self.old first name place token) self.new result }
        ensures ready { OnOk result (IsReady self.new) }
        ensures keeps { OnOk result (Keeps self.old.module.table self.new.module.table) }
    {
        match self.meaning(first, name) {
            Ok(atom) => self.apply(Some(atom), place, token),
            Err(stop) => Err(stop),
        }
    }

    // The token between two declarations.
    fn begin(&mut self, place: u64, token: Token) -> Result<(), Stop>
        requires sound { IsSound self.old }
        requires closed { self.old.frames.items ≡ [] }
        requires token { IsTokenKnown self.old.names token }
        ensures becomes { Becomes (reading.advance (before self.old) reading.Between place (token_in self.old.names token)) self.new result }
        ensures ready { OnOk result (IsReady self.new) }
        ensures keeps { OnOk result (Keeps self.old.module.table self.new.module.table) }
    {
        match token {
            Token::Name(name) => self.name(Form::Symbol, place, name),
            Token::DefWord => {
                self.state = State::AfterKeyword(Form::Def);
                Ok(())
            }
            Token::ThmWord => {
                self.state = State::AfterKeyword(Form::Thm);
                Ok(())
            }
            _ => Err(Stop::BadText(place)),
        }
    }

    /// The next token.
    #[inline(always)]
    pub(crate) fn advance(&mut self, place: u64, token: Token) -> Result<(), Stop>
        requires reading { IsReading self.old }
        requires token { IsTokenKnown self.old.names token }
        ensures becomes { Becomes (advance_in self.old place token) self.new result }
        ensures reading { OnOk result (IsReading self.new) }
        ensures keeps { OnOk result (Keeps self.old.module.table self.new.module.table) }
    {
        self.next_state(place, token)
    }

    /// The next token, a word.
    pub(crate) fn word(&mut self, place: u64, word: &[u8]) -> Result<(), Stop>
        requires reading { IsReading self.old }
        ensures becomes { Becomes (reading.advance (before self.old) (state_of self.old) place (tokens.word_token word.now)) self.new result }
        ensures reading { OnOk result (IsReading self.new) }
        ensures keeps { OnOk result (Keeps self.old.module.table self.new.module.table) }
    {
        match kind_of(word) {
            Word::Type => self.advance(place, Token::TypeWord),
            Word::Def => self.advance(place, Token::DefWord),
            Word::Thm => self.advance(place, Token::ThmWord),
            Word::Identifier => self.identifier(place, word),
        }
    }

    // The next token, an identifier.
    fn identifier(&mut self, place: u64, word: &[u8]) -> Result<(), Stop>
        requires reading { IsReading self.old }
        ensures becomes { Becomes (reading.advance (before self.old) (state_of self.old) place (tokens.Name word.now)) self.new result }
        ensures reading { OnOk result (IsReading self.new) }
        ensures keeps { OnOk result (Keeps self.old.module.table self.new.module.table) }
    {
        let name = self.number(word)?;
        self.advance(place, Token::Name(name))
    }

    // The state after a token.
    #[inline(always)]
    fn next_state(&mut self, place: u64, token: Token) -> Result<(), Stop>
        requires reading { IsReading self.old }
        requires token { IsTokenKnown self.old.names token }
        ensures becomes { Becomes (advance_in self.old place token) self.new result }
        ensures ready { OnOk result (IsReady self.new) }
        ensures keeps { OnOk result (Keeps self.old.module.table self.new.module.table) }
    {
        match self.state {
            State::InApplication(function) => self.apply(function, place, token),
            State::AtTerm => match token {
                Token::Name(name) => {
                    self.state = State::AfterFirst(place, name);
                    Ok(())
                }
                other => self.apply(None, place, other),
            },
            State::AfterFirst(first, name) => match token {
                Token::Colon => {
                    self.open(Frame::Domain(name))?;
                    self.state = State::InApplication(None);
                    Ok(())
                }
                other => self.after_first(first, name, place, other),
            },
            State::Between => self.begin(place, token),
            State::AfterKeyword(form) => match token {
                Token::Name(name) => self.name(form, place, name),
                _ => Err(Stop::BadText(place)),
            },
            State::AfterName(form, name) => match token {
                Token::Colon => {
                    self.head = Head::TypeOf(form, name);
                    self.state = State::AtTerm;
                    Ok(())
                }
                _ => Err(Stop::BadText(place)),
            },
        }
    }
}

// Which of the key words a word is, if it is one.
fn kind_of(word: &[u8]) -> Word
    ensures { IsWord word.now result }
{
    match word {
        [b'T', b'y', b'p', b'e'] => Word::Type,
        [b'd', b'e', b'f'] => Word::Def,
        [b't', b'h', b'm'] => Word::Thm,
        _ => Word::Identifier,
    }
}
