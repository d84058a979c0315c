//! A module read from the file of a shelf, to its end.
ghost use Rattle.std.specs.Prelude.{◌≡◌, ◌≢◌, ◌≤◌, [], ◌∷◌, None, Some, IfOk, IfErr, OnOk};
ghost use Rattle.bridge_base.specs.Outside.{Rose, Begins};
ghost use Rattle.lp_spec.specs.ModuleOrder.{IsModule};
ghost use Rattle.holide_sig.specs.Modules.{declarations_of, IsHeld};
ghost use Rattle.dk_read.specs.Readers.{IsFed};
ghost use Rattle.bridge_spec.specs.FileChecks.{max_file, ReadsAs};
ghost use Rattle.bridge_module.specs.Stops.{bytes_told, IsModuleOf, IsFedWhole, EndsWhole, StopsText, StopsFile, stop_of};

use bridge_base::{Failed, Shelf};
use dk_read::{DkFault, DkKind, Limit, Reader};
use holide_sig::Module;
use std::alloc::Global;

/// The greatest number of bytes of a file.
const MAX_FILE: u64 = 4294967296;

/// Why no module came of a file.
#[derive(Drop)]
pub enum Stop {
    /// The file is refused at this byte.
    Refused(u64, DkKind),
    ReadFault,
    Memory,
}

/// The module that a file reads as.
pub fn read_module<H: Shelf>(alloc: Global, file: &str, shelf: &mut H) -> Result<Module, Stop>
    ensures reads { IfOk result (λ m. ReadsAs (H.told shelf.old) file.now (declarations_of m)) }
    ensures held { IfOk result IsHeld }
    ensures is_module { IfOk result (λ m. IsModule (declarations_of m)) }
    ensures refused { IfErr result (StopsFile (H.told shelf.old) file.now) }
    ensures read_fault { IfErr result (λ stop. stop ≡ Stop.ReadFault → Rose (H.faults shelf.old) (H.faults shelf.new)) }
    ensures told_kept { H.told shelf.new ≡ H.told shelf.old }
    ensures begun { Begins (H.begun shelf.old) (file.now ∷ []) (H.begun shelf.new) }
    ensures count { H.faults shelf.old ≤ H.faults shelf.new }
{
    if shelf.begin(file).is_err() {
        return Err(Stop::ReadFault);
    }
    read_text(alloc, shelf)
}

/// The module that the file begun reads as.
fn read_text<H: Shelf>(alloc: Global, shelf: &mut H) -> Result<Module, Stop>
    ensures reads { IfOk result (λ m. IsModuleOf (H.left shelf.old) (declarations_of m)) }
    ensures held { IfOk result IsHeld }
    ensures is_module { IfOk result (λ m. IsModule (declarations_of m)) }
    ensures refused { IfErr result (StopsText (H.left shelf.old)) }
    ensures read_fault { IfErr result (λ stop. stop ≡ Stop.ReadFault → Rose (H.faults shelf.old) (H.faults shelf.new)) }
    ensures told_kept { H.told shelf.new ≡ H.told shelf.old }
    ensures begun { H.begun shelf.new ≡ H.begun shelf.old }
    ensures count { H.faults shelf.old ≤ H.faults shelf.new }
{
    let mut reader = Reader::new(alloc, Limit::Bytes(MAX_FILE));
    match feed_text(shelf, &mut reader) {
        Ok(()) => finished(reader),
        Err(stop) => {
            let_go(reader);
            Err(stop)
        }
    }
}

/// Feeds the file begun to a reader, to its end.
fn feed_text<H: Shelf>(shelf: &mut H, reader: &mut Reader) -> Result<(), Stop>
    requires limit { reader.old.limit ≡ Some max_file }
    requires fed { IsFed reader.old [] }
    ensures fed { OnOk result (IsFedWhole (H.left shelf.old) reader.new) }
    ensures refused { IfErr result (StopsText (H.left shelf.old)) }
    ensures read_fault { IfErr result (λ stop. stop ≡ Stop.ReadFault → Rose (H.faults shelf.old) (H.faults shelf.new)) }
    ensures told_kept { H.told shelf.new ≡ H.told shelf.old }
    ensures begun { H.begun shelf.new ≡ H.begun shelf.old }
    ensures count { H.faults shelf.old ≤ H.faults shelf.new }
{
    let mut buffer = [0u8; 4096];
    loop {
        let count = match shelf.read(&mut buffer) {
            Ok(count) => count,
            Err(Failed) => return Err(Stop::ReadFault),
        };
        if count == 0 {
            return Ok(());
        }
        if let Err(fault) = reader.feed(&buffer[..count]) {
            return Err(stop_of(fault));
        }
    }
}

/// Lets a reader go.
fn let_go(_reader: Reader) {}

/// What the reader of a whole file comes to.
fn finished(reader: Reader) -> Result<Module, Stop>
    ensures { EndsWhole reader result }
{
    match reader.finish() {
        Ok(module) => Ok(module),
        Err(fault) => Err(stop_of(fault)),
    }
}

/// The stop for a fault of the reader.
fn stop_of(fault: DkFault) -> Stop
    ensures stop { result ≡ stop_of fault }
    ensures own { result ≢ Stop.ReadFault }
{
    match fault {
        DkFault::Refused { place, kind } => Stop::Refused(place, kind),
        DkFault::Memory => Stop::Memory,
    }
}
