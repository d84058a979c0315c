//! The module of a run, made item by item.
ghost use Rattle.std.specs.Prelude.{◌≡◌, ◌<◌, IfOk, OnOk};
ghost use Rattle.article_spec.specs.SoundRuns.{IsSoundRun};
ghost use Rattle.hol_defs.specs.Symbols.{IsKnownSymbol};
ghost use Rattle.hol_rules.specs.Kept.{Kept as AProof};
ghost use Rattle.holide_sig.specs.Modules.{declarations_of, IsHeld};
ghost use Rattle.translate_reach.specs.MadeItems.{IsNoted};
ghost use Rattle.translate_spec.specs.Image.{image};
ghost use Rattle.translate_proof.specs.Keeping.{AreKept};
ghost use Rattle.image_laws.specs.Named.{HasNames};
ghost use Rattle.translate_rule.specs.ItemViews.{accepted, run_of};
ghost use Rattle.translate_rule.specs.Building.{IsBegun, IsDefinition, IsRun, IsSameKind, IsStep, IsTaken};
ghost use Rattle.translate_rule.specs.Building.{AddsItem, AddsItemsOf, AddsThing, Declares, DeclaresNext, HasKept, HasNext, HasThing};
ghost use Rattle.hol_defs.specs.Views.{operator_of_view, taken_of_view};

use crate::items::{Item, TypeDefinition, declaration};
use crate::lemmas::declare_lemmas;
use crate::run::Run;
use common::Memory;
use hol_defs::SymbolView;
use hol_rules::{Made, Proof, StepId};
use holide_sig::{Module, SIGNATURE};
use std::alloc::Global;
use translate_proof::{KeptParams, Part};
use translate_reach::Reached;

/// The module of what a proof made and its exports reach: the two lemmas, and then each item that is reached, in order of making. The
/// proof is that of an accepted run with these assumptions and exports.
pub fn module(
    alloc: Global,
    proof: &Proof,
    assumptions: &[StepId],
    exports: &[StepId],
) -> Result<Module, Memory>
    requires sound { IsSoundRun (run_of proof.now assumptions.now exports.now) }
    requires named { HasNames (run_of proof.now assumptions.now exports.now) }
    ensures module { IfOk result (λ m. declarations_of m ≡ image (run_of proof.now assumptions.now exports.now)) }
    ensures held { IfOk result IsHeld }
{
    let reached = translate_reach::reached(alloc, proof, exports)?;
    let run = Run {
        proof,
        assumptions,
        exports,
    };
    let mut builder = ModuleBuilder::new(alloc)?;
    builder.reserve(reached.len())?;
    for one in proof.made() {
        builder.add(run, &reached, one)?;
    }
    Ok(builder.target)
}

/// A module on its way.
#[derive(Drop)]
struct ModuleBuilder {
    alloc: Global,
    target: Module,
    // For each step so far, the symbol of its declaration. Of a step that isn't declared it means nothing.
    numbers: Vec<usize>,
    // The parameters of the steps that were declared lately.
    kept: KeptParams,
    // How many items and how many symbols there were so far.
    item: usize,
    symbol: usize,
}

impl ModuleBuilder {
    // The module of the lemmas.
    fn new(alloc: Global) -> Result<ModuleBuilder, Memory>
        ensures begun { IfOk result IsBegun }
        ensures kept { IfOk result (λ builder. (k : AProof) → AreKept k builder.kept) }
    {
        let mut target = Module::new(alloc)?;
        declare_lemmas(alloc, &mut target)?;
        Ok(ModuleBuilder {
            alloc,
            target,
            numbers: Vec::new(alloc),
            kept: KeptParams::new(alloc),
            item: 0,
            symbol: 0,
        })
    }

    // Makes room for the declarations of so many items.
    fn reserve(&mut self, items: usize) -> Result<(), Memory>
        ensures { self.new ≡ self.old }
    {
        self.target.reserve(items)
    }

    // Adds the next thing that was made.
    fn add(&mut self, run: Run<'_>, reached: &Reached, one: &Made) -> Result<(), Memory>
        requires kept { AreKept run.proof.now self.old.kept }
        requires run { IsRun run reached.now }
        requires next { HasThing run (IsSameKind one.now) self.old }
        ensures added { OnOk result (AddsThing run.entry (IsSameKind one.now) self.old self.new) }
        ensures kept { AreKept run.entry.proof.now self.new.kept }
    {
        match one {
            Made::Step(_) => self.add_step(run, reached),
            _ => self.add_symbol(run, reached, one),
        }
    }

    // Adds the next step.
    fn add_step(&mut self, run: Run<'_>, reached: &Reached) -> Result<(), Memory>
        requires kept { AreKept run.proof.now self.old.kept }
        requires run { IsRun run reached.now }
        requires next { HasThing run IsStep self.old }
        ensures added { OnOk result (AddsThing run.entry IsStep self.old self.new) }
        ensures kept { AreKept run.entry.proof.now self.new.kept }
    {
        let id = self.numbers.len();
        let number = SIGNATURE + self.target.decls.len();
        self.add_item(run, reached, Item::Step(id))?;
        self.numbers.push(number)?;
        Ok(())
    }

    // Adds the next symbol.
    fn add_symbol(&mut self, run: Run<'_>, reached: &Reached, one: &Made) -> Result<(), Memory>
        requires kept { AreKept run.proof.now self.old.kept }
        requires run { IsRun run reached.now }
        requires next { HasThing run (λ y. IsNoted y one.now) self.old }
        ensures added { OnOk result (AddsThing run.entry (λ y. IsNoted y one.now) self.old self.new) }
        ensures kept { AreKept run.entry.proof.now self.new.kept }
    {
        let symbols = run.proof.symbols();
        let _count = symbols.count();
        let taken = symbols.view(self.symbol);
        self.add_items(run, reached, taken, one)?;
        self.symbol += 1;
        Ok(())
    }

    // Adds the items of a symbol.
    fn add_items(
        &mut self,
        run: Run<'_>,
        reached: &Reached,
        taken: SymbolView<'_>,
        one: &Made,
    ) -> Result<(), Memory>
        requires kept { AreKept run.proof.now self.old.kept }
        requires run { IsRun run reached.now }
        requires known { IsKnownSymbol run.proof.now.trees (taken_of_view taken) }
        requires next { HasThing run (IsTaken run (taken_of_view taken) one.now) self.old }
        ensures added { OnOk result (AddsItemsOf run.entry (IsTaken run.entry (taken_of_view taken.entry) one.now) self.old self.new) }
        ensures numbers { self.new.numbers ≡ self.old.numbers }
        ensures symbol { self.new.symbol ≡ self.old.symbol }
        ensures kept { AreKept run.entry.proof.now self.new.kept }
    {
        match taken {
            SymbolView::InputConst(name) => self.add_item(run, reached, Item::InputConst(name)),
            SymbolView::InputOp(name, arity) => {
                self.add_item(run, reached, Item::InputOp(name, arity))
            }
            SymbolView::Const(name, term, ty) => {
                self.add_item(run, reached, Item::Const(name, term, ty))
            }
            SymbolView::TypeOp(view) => match one {
                Made::TypeOp(_, premise) => {
                    let definition = TypeDefinition {
                        view,
                        premise: *premise,
                    };
                    self.add_definition(run, reached, definition)
                }
                // A type definition is noted with its step.
                _ => Ok(()),
            },
        }
    }

    // Adds the items of a type definition.
    fn add_definition(
        &mut self,
        run: Run<'_>,
        reached: &Reached,
        definition: TypeDefinition<'_>,
    ) -> Result<(), Memory>
        requires kept { AreKept run.proof.now self.old.kept }
        requires run { IsRun run reached.now }
        requires known { IsKnownSymbol run.proof.now.trees (operator_of_view definition.view) }
        requires next { HasThing run (IsDefinition run definition) self.old }
        ensures added { OnOk result (AddsItemsOf run.entry (IsDefinition run.entry definition.entry) self.old self.new) }
        ensures numbers { self.new.numbers ≡ self.old.numbers }
        ensures symbol { self.new.symbol ≡ self.old.symbol }
        ensures kept { AreKept run.entry.proof.now self.new.kept }
    {
        self.add_item(run, reached, Item::Part(Part::Operator, definition))?;
        self.add_item(run, reached, Item::Part(Part::Abstraction, definition))?;
        self.add_item(run, reached, Item::Part(Part::Representation, definition))
    }

    // Adds an item: its declaration, where it is reached.
    fn add_item(&mut self, run: Run<'_>, reached: &Reached, item: Item<'_>) -> Result<(), Memory>
        requires kept { AreKept run.proof.now self.old.kept }
        requires run { IsRun run reached.now }
        requires next { HasNext run item self.old }
        ensures counted { OnOk result (AddsItem run.entry item.entry self.old self.new) }
        ensures numbers { self.new.numbers ≡ self.old.numbers }
        ensures symbol { self.new.symbol ≡ self.old.symbol }
        ensures kept { AreKept run.entry.proof.now self.new.kept }
    {
        let _count = reached.len();
        self.declare_reached(run, reached, item)?;
        self.item += 1;
        Ok(())
    }

    // Declares the next item, if it is reached.
    fn declare_reached(
        &mut self,
        run: Run<'_>,
        reached: &Reached,
        item: Item<'_>,
    ) -> Result<(), Memory>
        requires kept { AreKept run.proof.now self.old.kept }
        requires run { IsRun run reached.now }
        requires next { HasNext run item self.old }
        ensures declared { OnOk result (DeclaresNext run.entry item.entry self.old self.new.target) }
        ensures item { self.new.item ≡ self.old.item }
        ensures numbers { self.new.numbers ≡ self.old.numbers }
        ensures symbol { self.new.symbol ≡ self.old.symbol }
        ensures kept { AreKept run.entry.proof.now self.new.kept }
    {
        if reached.contains(self.item) {
            self.declare(run, item)
        } else {
            Ok(())
        }
    }

    // Declares an item.
    fn declare(&mut self, run: Run<'_>, item: Item<'_>) -> Result<(), Memory>
        requires kept { AreKept run.proof.now self.old.kept }
        requires sound { IsSoundRun (accepted run) }
        requires named { HasNames (accepted run) }
        requires next { HasKept run item self.old }
        ensures declared { OnOk result (Declares run.entry item.entry self.old self.new.target) }
        ensures item { self.new.item ≡ self.old.item }
        ensures numbers { self.new.numbers ≡ self.old.numbers }
        ensures symbol { self.new.symbol ≡ self.old.symbol }
        ensures kept { AreKept run.entry.proof.now self.new.kept }
    {
        let decl = declaration(
            self.alloc,
            &mut self.target,
            run,
            &self.numbers,
            &mut self.kept,
            item,
        )?;
        self.target.push(decl)
    }
}
