//! The module of the run of some articles, before anything is written.
ghost use Rattle.std.specs.Prelude.{◌≡◌, ◌≤◌, ℕ, List, Option, OnOk, IfOk, IfErr, length, map, min};
ghost use Rattle.bridge_base.specs.Outside.{Files, Rose, Begins, BeginsFront};
ghost use Rattle.hol_spec.specs.Proofs.{Accepted};
ghost use Rattle.article_spec.specs.Run.{accepted_state};
ghost use Rattle.holide_sig.specs.Modules.{declarations_of, IsHeld};
ghost use Rattle.lp_spec.specs.Weight.{bound as bound_of, greatest};
ghost use Rattle.bridge_spec.specs.Answers.{IsRunOf};
ghost use Rattle.bridge_spec.specs.Calls.{names_in};
ghost use Rattle.bridge_spec.specs.Texts.{module_of, written_bound, written_bounds};
ghost use Rattle.bridge_reading.specs.Stops.{Stops, StopsBegun};
ghost use Rattle.bridge_translate.specs.Translations.{counts_in, IsTranslationOf};

use bridge_base::Shelf;
use bridge_reading::{Stop, read_articles};
use common::Memory;
use holide_sig::{Form, Module};
use lp_weight::Weights;
use share::fold;
use stack_machine::Machine;
use std::alloc::Global;
use translate_rule::module;

/// What is counted of a run and its module.
#[derive(Clone, Copy, Debug, PartialEq, Eq)]
pub struct Counts {
    /// How many articles were obeyed.
    pub articles: u64,
    /// How many assumptions the run recorded.
    pub assumptions: u64,
    /// How many exports it has.
    pub exports: u64,
    /// How many declarations follow the prelude.
    pub declarations: u64,
    /// The sum of the bounds that are written, those of theorems, or the greatest number.
    pub bounds: u128,
}

/// The module of an accepted run, with a bound for each declaration and what is counted.
#[derive(Drop)]
pub struct Translation {
    pub module: Module,
    pub bounds: Vec<u128>,
    pub counts: Counts,
}

/// The module of the run of the articles in these files, with shared abbreviations or without; or why there is none.
pub fn translation_of<H: Shelf>(
    alloc: Global,
    files: &[String],
    share: bool,
    shelf: &mut H,
) -> Result<Translation, Stop>
    ensures translated { IfOk result (λ translation. (run : Accepted) × IsRunOf (H.told shelf.old) (names_in files.now) run
        × IsTranslationOf share (length (names_in files.now)) run translation) }
    ensures refused { IfErr result (λ stop. Stops stop (H.told shelf.old) (names_in files.now)) }
    ensures all_begun { OnOk result (Begins (H.begun shelf.old) (names_in files.now) (H.begun shelf.new)) }
    ensures refused_begun { IfErr result (λ stop. StopsBegun stop (H.begun shelf.old) (names_in files.now) (H.begun shelf.new)) }
    ensures front_begun { BeginsFront (H.begun shelf.old) (names_in files.now) (H.begun shelf.new) }
    ensures read_fault { IfErr result (λ stop. stop ≡ Stop.ReadFault → Rose (H.faults shelf.old) (H.faults shelf.new)) }
    ensures told_kept { H.told shelf.new ≡ H.told shelf.old }
    ensures count { H.faults shelf.old ≤ H.faults shelf.new }
{
    let machine = read_articles(alloc, files, shelf)?;
    match translated(alloc, files, machine, share) {
        Ok(translation) => Ok(translation),
        Err(Memory) => Err(Stop::Memory),
    }
}

// The module of the run at whose end the machine is, with its bounds and what is counted. The machine is let go before anything is weighed.
fn translated(
    alloc: Global,
    files: &[String],
    machine: Machine,
    share: bool,
) -> Result<Translation, Memory>
    requires { (told : Option Files) × IsRunOf told (names_in files.now) (accepted_state machine) }
    ensures { IfOk result (IsTranslationOf share (length (names_in files.now)) (accepted_state machine)) }
{
    let articles = files.len() as u64;
    let assumptions = machine.assumptions().len() as u64;
    let exports = machine.exports().len() as u64;
    let image = module_of(alloc, &machine, share);
    drop(machine);
    let made = image?;
    match bounds_of(alloc, &made) {
        Ok(bounds) => {
            let counts = Counts {
                articles,
                assumptions,
                exports,
                declarations: made.decls.len() as u64,
                bounds: total(&made, &bounds),
            };
            Ok(Translation {
                module: made,
                bounds,
                counts,
            })
        }
        Err(Memory) => {
            drop(made);
            Err(Memory)
        }
    }
}

// The module of the run at whose end the machine is: its image, or where the flag says so its image with shared abbreviations.
fn module_of(alloc: Global, machine: &Machine, share: bool) -> Result<Module, Memory>
    requires { (told : Option Files) × (names : List (List ℕ)) × IsRunOf told names (accepted_state machine.now) }
    ensures held { IfOk result IsHeld }
    ensures module { IfOk result (λ made. declarations_of made ≡ module_of share (accepted_state machine.now)) }
{
    let mut image = module(
        alloc,
        machine.proof(),
        machine.assumptions(),
        machine.exports(),
    )?;
    // Nothing is looked for by its name any more.
    image.give_up_names();
    if !share {
        return Ok(image);
    }
    fold(alloc, image)
}

// The bound of each declaration.
fn bounds_of(alloc: Global, source: &Module) -> Result<Vec<u128>, Memory>
    requires { IsHeld source.now }
    ensures { IfOk result (λ bounds. bounds.items ≡ map (bound_of (declarations_of source.now)) (declarations_of source.now)) }
{
    let mut weights = Weights::new(alloc);
    let mut bounds = Vec::new(alloc);
    for i in 0..source.decls.len() {
        bounds.push(weights.bound(source, i)?)?;
    }
    Ok(bounds)
}

// The sum of the bounds that are written of a module, or the greatest number.
fn total(source: &Module, bounds: &[u128]) -> u128
    requires { bounds.now ≡ map (bound_of (declarations_of source.now)) (declarations_of source.now) }
    ensures { result ≡ min (written_bounds (declarations_of source.now)) greatest }
{
    let mut total = 0u128;
    for (index, bound) in bounds.iter().enumerate() {
        total = total.saturating_add(written(source.decls.get(index).form, *bound));
    }
    total
}

// The bound that is written of a declaration, and nothing where none is.
fn written(form: Form, bound: u128) -> u128
    ensures { result ≡ written_bound form bound }
{
    match form {
        Form::Thm => bound,
        Form::Symbol | Form::Def => 0,
    }
}
