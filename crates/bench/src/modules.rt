//! Reads the module in a file, piece by piece: `bench dk_read read FILE` prints how many declarations it has, and `bench lp_kernel steps FILE`
//! checks each by itself, and prints how many are accepted and the steps of budget that they take.

ghost use Rattle.std.specs.Prelude.{◌≡◌, ℕ, List, length, IfOk};
ghost use Rattle.lp_spec.specs.ModuleOrder.{IsModule};
ghost use Rattle.holide_sig.specs.Modules.{declarations_of, IsHeld};
ghost use Rattle.dk_read.specs.Readers.{IsFed};

use crate::checking::counted;
use common::Memory;
use dk_read::{DkFault, Limit, Reader};
use holide_sig::Module;
use std::alloc::Global;
use std::fs::File;
use std::io::Read;
use std::{fs, io};

// Feeds a file to a reader, up to its end or a failure.
fn feed_file(file: &mut File, reader: &mut Reader)
    requires { (text : List ℕ) × IsFed reader.old text }
    ensures { (text : List ℕ) × IsFed reader.new text }
{
    let mut piece = [0u8; 4096];
    for _ in 0..u64::MAX {
        let Ok(count) = file.read(&mut piece) else {
            return;
        };
        if count == 0 {
            return;
        }
        let _answer = reader.feed(&piece[..count]);
    }
}

// The module in a file.
fn read_file(alloc: Global, file: &mut File) -> Result<Module, DkFault>
    ensures held { IfOk result IsHeld }
    ensures is_module { IfOk result (λ m. IsModule (declarations_of m)) }
{
    let mut reader = Reader::new(alloc, Limit::Free);
    feed_file(file, &mut reader);
    reader.finish()
}

// Tells how many declarations are accepted, and the steps that they take.
fn tell_steps(rt: &HostRuntime, counted: Result<(usize, u128), Memory>) -> io::Result<()> {
    match counted {
        Ok((count, steps)) => println!(rt; "{count} accepted, {steps} steps"),
        Err(Memory) => rt.println("out of memory"),
    }
}

// Tells how many declarations there are.
fn tell_count(rt: &HostRuntime, base: &Module) -> io::Result<()> {
    let count = base.decls.len();
    println!(rt; "{count} declarations")
}

// Tells of a module what is asked.
fn tell(rt: &HostRuntime, base: &mut Module, steps: bool) -> io::Result<()>
    requires held { IsHeld base.old }
    requires is_module { IsModule (declarations_of base.old) }
{
    if steps {
        tell_steps(rt, counted(rt.alloc(), base))
    } else {
        tell_count(rt, base)
    }
}

/// Reads the module in a file, and tells how many declarations it has, or the steps of their checks.
pub(crate) fn timed(rt: &HostRuntime, name: &str, steps: bool) -> io::Result<()> {
    let mut file = fs::open(rt, name)?;
    match read_file(rt.alloc(), &mut file) {
        Ok(mut base) => {
            let told = tell(rt, &mut base, steps);
            drop(base);
            told
        }
        Err(fault) => println!(rt; "{fault}"),
    }
}
