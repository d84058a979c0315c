//! The tree that an identifier means.
ghost use Rattle.lp_spec.specs.Modules.{signature};
ghost use Rattle.lp_spec.specs.ShortNames.{named_tree};
ghost use Rattle.std.specs.Prelude.{◌≡◌, ◌<◌, ◌+◌, ◌++◌, length, slice_get, Some, IfOk, OnOk, IfErr};
ghost use Rattle.lp_spec.specs.Trees.{Var, Sym};
ghost use Rattle.lp_term.specs.Tables.{Holds};
ghost use Rattle.dk_read.specs.declared.faults.Stop.TheVariants as stop;
ghost use Rattle.dk_read.specs.Names.{name_at};
ghost use Rattle.dk_read.specs.States.{meaning_in, declared, IsSound, Means, Grows, KeepsSymbol, KeepsVariable, before};

use crate::faults::Stop;
use crate::parser::Parser;
use crate::terms::Meaning;
use common::Memory;
use lp_term::{LpId, LpNode};

impl Parser {
    // The tree of a variable, by its number.
    fn variable(&mut self, number: usize) -> Result<LpId, Stop>
        requires sound { IsSound self.old }
        ensures known { IfOk result (λ id. id.0 < length self.new.module.table) }
        ensures made { IfOk result (λ id. Holds self.new.module.table id.0 (Var number)) }
        ensures kept { IfOk result (λ id. KeepsVariable self.old self.new number id) }
        ensures grows { Grows self.old self.new }
        ensures memory { IfErr result (λ e. e ≡ stop.Memory) }
    {
        match self.atoms.variables.get(number) {
            Some(id) => Ok(*id),
            None => self.add_variable(number),
        }
    }

    // The tree of a variable whose number isn't kept. It is from now on where those of all lower numbers are.
    fn add_variable(&mut self, number: usize) -> Result<LpId, Stop>
        requires sound { IsSound self.old }
        ensures known { IfOk result (λ id. id.0 < length self.new.module.table) }
        ensures made { IfOk result (λ id. Holds self.new.module.table id.0 (Var number)) }
        ensures kept { IfOk result (λ id. number ≡ length self.old.atoms.variables.items → slice_get self.new.atoms.variables.items number ≡ Some id) }
        ensures grows { Grows self.old self.new }
        ensures memory { IfErr result (λ e. e ≡ stop.Memory) }
    {
        let id = self.node(LpNode::Var(number as u128))?;
        if number == self.atoms.variables.len() {
            self.keep_variable(id)?;
        }
        Ok(id)
    }

    // Keeps the node of the next variable.
    fn keep_variable(&mut self, id: LpId) -> Result<(), Stop>
        requires variable { Holds self.old.module.table id.0 (Var (length self.old.atoms.variables.items)) }
        ensures same { self.new.module ≡ self.old.module }
        ensures kept { OnOk result (slice_get self.new.atoms.variables.items (length self.old.atoms.variables.items) ≡ Some id) }
        ensures grows { Grows self.old self.new }
        ensures memory { IfErr result (λ e. e ≡ stop.Memory) }
    {
        match self.atoms.variables.push(id) {
            Ok(()) => Ok(()),
            Err(_) => Err(Stop::Memory),
        }
    }

    // The tree of a symbol, by its number.
    fn symbol(&mut self, number: usize) -> Result<LpId, Stop>
        requires sound { IsSound self.old }
        ensures known { IfOk result (λ id. id.0 < length self.new.module.table) }
        ensures made { IfOk result (λ id. Holds self.new.module.table id.0 (Sym number)) }
        ensures kept { IfOk result (λ id. KeepsSymbol self.new number id) }
        ensures grows { Grows self.old self.new }
        ensures memory { IfErr result (λ e. e ≡ stop.Memory) }
    {
        match self.atoms.symbol(number) {
            Some(id) => Ok(id),
            None => self.add_symbol(number),
        }
    }

    // The tree of a symbol whose node isn't kept. It is from now on.
    fn add_symbol(&mut self, number: usize) -> Result<LpId, Stop>
        requires sound { IsSound self.old }
        ensures known { IfOk result (λ id. id.0 < length self.new.module.table) }
        ensures made { IfOk result (λ id. Holds self.new.module.table id.0 (Sym number)) }
        ensures kept { IfOk result (λ id. KeepsSymbol self.new number id) }
        ensures grows { Grows self.old self.new }
        ensures memory { IfErr result (λ e. e ≡ stop.Memory) }
    {
        let id = self.node(LpNode::Sym(number))?;
        self.keep_symbol(number, id);
        Ok(id)
    }

    // Keeps the node of a symbol.
    fn keep_symbol(&mut self, number: usize, id: LpId)
        requires symbol { Holds self.old.module.table id.0 (Sym number) }
        ensures same { self.new.module ≡ self.old.module }
        ensures kept { KeepsSymbol self.new number id }
        ensures grows { Grows self.old self.new }
    {
        self.atoms.keep(number, id);
    }

    // The tree that the name of a symbol means: the one for which it is short, or else the symbol.
    fn named(&mut self, number: usize) -> Result<LpId, Stop>
        requires sound { IsSound self.old }
        requires declared { number < length (signature ++ before self.old) }
        ensures known { IfOk result (λ id. id.0 < length self.new.module.table) }
        ensures made { IfOk result (λ id. Holds self.new.module.table id.0 (named_tree (before self.old) number)) }
        ensures grows { Grows self.old self.new }
        ensures memory { IfErr result (λ e. e ≡ stop.Memory) }
    {
        match self.module.short_body(number) {
            Some(id) => Ok(id),
            None => self.symbol(number),
        }
    }

    /// The tree that an identifier means.
    pub(crate) fn meaning(&mut self, place: u64, name: usize) -> Result<LpId, Stop>
        requires sound { IsSound self.old }
        requires known { name < length self.old.names }
        ensures means { Means (meaning_in self.old name) place (name_at self.old.names name) self.new result }
        ensures known { IfOk result (λ id. id.0 < length self.new.module.table) }
        ensures grows { Grows self.old self.new }
    {
        match self.names.meaning(name) {
            Meaning::Binder(level) => {
                let number = self.binders.saturating_sub(level).saturating_sub(1);
                self.variable(number)
            }
            Meaning::Symbol(symbol) => self.named(symbol),
            Meaning::Nothing => Err(Stop::UnknownName(place, name)),
        }
    }
}
