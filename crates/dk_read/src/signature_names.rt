//! The names that are known before the first token.
ghost use Rattle.lp_spec.specs.Modules.{signature, symbol_name};
ghost use Rattle.std.specs.Prelude.{ℕ, ◌≡◌, ◌<◌, ◌+◌, [], length, IfOk, OnOk};
ghost use Rattle.holide_sig.specs.Modules.{declarations_of};
ghost use Rattle.dk_read.specs.Names.{IsNameless, HasSymbols};

use crate::names::Names;
use crate::terms::Meaning;
use common::Memory;
use holide_sig::{Module, SIGNATURE};
use std::alloc::Global;

/// The empty name, by its number, and the names of the signature's symbols.
pub(crate) fn first_names(alloc: Global, empty: &Module) -> Result<(Names, usize), Memory>
    requires none { declarations_of empty.now ≡ [] }
    ensures nameless { IfOk result (λ r. IsNameless r.0 r.1) }
    ensures symbols { IfOk result (λ r. HasSymbols r.0 (length signature)) }
{
    let mut names = Names::new(alloc);
    match add_first(&mut names, empty) {
        Ok(nameless) => Ok((names, nameless)),
        Err(Memory) => {
            drop(names);
            Err(Memory)
        }
    }
}

// The empty name, of which the number is answered, and the names of the signature's symbols.
fn add_first(names: &mut Names, empty: &Module) -> Result<usize, Memory>
    requires fresh { names.old ≡ [] }
    requires none { declarations_of empty.now ≡ [] }
    ensures nameless { IfOk result (IsNameless names.new) }
    ensures symbols { OnOk result (HasSymbols names.new (length signature)) }
{
    let nameless = names.number(b"")?;
    for symbol in 0..SIGNATURE {
        add_symbol(names, empty.symbol_name(symbol), symbol)?;
    }
    Ok(nameless)
}

// One more symbol of the signature.
fn add_symbol(names: &mut Names, name: &[u8], symbol: usize) -> Result<(), Memory>
    requires name { (symbol < length signature) × (name.now ≡ symbol_name [] symbol) }
    ensures nameless { OnOk result ((n : ℕ) → IsNameless names.old n → IsNameless names.new n) }
    ensures symbols { OnOk result (HasSymbols names.old symbol → HasSymbols names.new (symbol + 1)) }
{
    let number = names.number(name)?;
    match names.meaning(number) {
        Meaning::Nothing => {
            names.put(number, Meaning::Symbol(symbol));
            Ok(())
        }
        Meaning::Symbol(_) | Meaning::Binder(_) => Ok(()),
    }
}
