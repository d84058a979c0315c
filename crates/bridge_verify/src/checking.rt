//! A module read back from its text, and checked.
ghost use Rattle.std.specs.Prelude.{◌≡◌, ◌<◌, ◌++◌, [], ℕ, Bool, List, None, length, not, IfOk, IfErr, OnOk};
ghost use Rattle.lp_spec.specs.declared.fault_kind.DkKind.{DkKind as AKind};
ghost use Rattle.dk_read.specs.Readers.{IsFed};
ghost use Rattle.dk_read.specs.Shared.{reading_over, IsGoingOver};
ghost use Rattle.dk_write.specs.Lines.{line_at, text_before};
ghost use Rattle.dk_write.specs.Shallow.{AreWithin};
ghost use Rattle.hol_spec.specs.Proofs.{Accepted};
ghost use Rattle.lp_kernel.specs.Checks.{PassBelow};
ghost use Rattle.lp_kernel.specs.declared.checks.Verdict.TheVariants as verdict;
ghost use Rattle.lp_spec.specs.Modules.{Declaration};
ghost use Rattle.lp_spec.specs.ModuleOrder.{IsModule};
ghost use Rattle.lp_spec.specs.Reading.{Reads};
ghost use Rattle.lp_spec.specs.Text.{prelude, written};
ghost use Rattle.holide_sig.specs.Modules.{declarations_of, IsHeld};
ghost use Rattle.lp_term.specs.Tables.{Keeps};
ghost use Rattle.lp_conv.specs.Growth.{Grows};
ghost use Rattle.bridge_spec.specs.Headline.{Headline};
ghost use Rattle.bridge_spec.specs.Texts.{module_of, module_bounds};
ghost use Rattle.bridge_translate.specs.Translations.{IsTranslationOf};

use crate::fast::checked_fast;
use bridge_answer::Answer;
use bridge_base::MemSink;
use bridge_translate::Translation;
use common::Memory;
use dk_read::{DkFault, SharingReader};
use dk_write::{Path, write_decl};
use holide_sig::Module;
use lp_kernel::{Verdict, check_module};
use lp_term::LpTable;
use std::alloc::Global;

/// Reads the text of a translation back, and checks the module that it reads as, each declaration within its bound; a fast check is one
/// without rechecks of sorts, within the bounds of such checks. The yes is that of the check. Only want of memory is answered in place of
/// it, and after it nothing is promised of the translation. The text of one declaration is held at a time, and what is read stands in
/// the table of the translation, which may grow.
pub fn check_back(alloc: Global, translation: &mut Translation, fast: bool) -> Result<(), Answer>
    requires { (share : Bool) × (articles : ℕ) × (run : Accepted) × IsTranslationOf share articles run translation.old × Headline share run }
    ensures accepted { OnOk result (PassBelow (not fast) (declarations_of translation.new.module) (length (declarations_of translation.new.module))) }
    ensures translated { OnOk result ((share : Bool) (articles : ℕ) (run : Accepted) → IsTranslationOf share articles run translation.old
        → IsTranslationOf share articles run translation.new) }
    ensures memory { IfErr result (λ answer. answer ≡ Answer.Memory) }
{
    let mut back = read_back(alloc, translation)?;
    let checked = check_read(alloc, &translation.bounds, &mut back, fast);
    std::mem::swap(&mut translation.module.table, &mut back.table);
    drop(back);
    checked
}

// Checks the module of a run that was read back, each declaration within its bound. The yes is that of the check. Only want of memory is
// answered in place of it.
fn check_read(alloc: Global, bounds: &[u128], back: &mut Module, fast: bool) -> Result<(), Answer>
    requires run { (share : Bool) × (run : Accepted) × Headline share run × (declarations_of back.old ≡ module_of share run)
        × (bounds.now ≡ module_bounds share run) }
    requires held { IsHeld back.old }
    requires is_module { IsModule (declarations_of back.old) }
    ensures accepted { OnOk result (PassBelow (not fast) (declarations_of back.old) (length (declarations_of back.old))) }
    ensures grows { OnOk result (Grows back.old back.new) }
    ensures memory { IfErr result (λ answer. answer ≡ Answer.Memory) }
{
    match verdict_on(alloc, bounds, back, fast) {
        Ok(Verdict::Accepted) => Ok(()),
        Ok(Verdict::IllTyped(i)) => Err(Answer::IllTyped(i as u64)),
        Ok(Verdict::OverBudget(i)) => Err(Answer::OverBudget(i as u64)),
        Err(Memory) => Err(Answer::Memory),
    }
}

// The verdict on the module of a run that was read back: it is accepted, as the check of each declaration says yes.
fn verdict_on(
    alloc: Global,
    bounds: &[u128],
    back: &mut Module,
    fast: bool,
) -> Result<Verdict, Memory>
    requires run { (share : Bool) × (run : Accepted) × Headline share run × (declarations_of back.old ≡ module_of share run)
        × (bounds.now ≡ module_bounds share run) }
    requires held { IsHeld back.old }
    requires is_module { IsModule (declarations_of back.old) }
    ensures accepts { IfOk result (λ v. v ≡ verdict.Accepted) }
    ensures pass { IfOk result (λ v. v ≡ verdict.Accepted → PassBelow (not fast) (declarations_of back.old) (length (declarations_of back.old))) }
    ensures grows { IfOk result (λ v. Grows back.old back.new) }
{
    if fast {
        checked_fast(alloc, back)
    } else {
        check_module(alloc, back, bounds)
    }
}

// The module that the text of a translation reads as, over the translation's table, which is taken out of it. Only want of memory is
// answered in place of it.
fn read_back(alloc: Global, translation: &mut Translation) -> Result<Module, Answer>
    requires held { IsHeld translation.old.module }
    requires bounds { length translation.old.bounds.items ≡ length translation.old.module.decls }
    requires reads { (m : List Declaration) × Reads (written (declarations_of translation.old.module) translation.old.bounds.items) m }
    ensures read { IfOk result (λ back. (m : List Declaration) → Reads (written (declarations_of translation.old.module) translation.old.bounds.items) m
        → declarations_of back ≡ m) }
    ensures held { IfOk result IsHeld }
    ensures is_module { IfOk result (λ back. IsModule (declarations_of back)) }
    ensures keeps { IfOk result (λ back. Keeps translation.old.module.table back.table) }
    ensures decls { translation.new.module.decls ≡ translation.old.module.decls }
    ensures bounds { translation.new.bounds ≡ translation.old.bounds }
    ensures counts { translation.new.counts ≡ translation.old.counts }
    ensures memory { IfErr result (λ answer. answer ≡ Answer.Memory) }
{
    let Ok(mut path) = Path::new(alloc, &translation.module) else {
        return Err(Answer::Memory);
    };
    let Ok(mut reader) = SharingReader::new(alloc, translation.module.decls.len()) else {
        drop(path);
        return Err(Answer::Memory);
    };
    let mut text = MemSink::new(Vec::new(alloc), Vec::new(alloc));
    let handed = hand_all(translation, &mut path, &mut text, &mut reader);
    drop(path);
    drop(text);
    match handed {
        Ok(()) => {
            let table = std::mem::replace(&mut translation.module.table, LpTable::new(alloc));
            ended(reader, table)
        }
        Err(answer) => {
            drop(reader);
            Err(answer)
        }
    }
}

// Hands the text of a translation to a reader that was fed the prelude, declaration by declaration. Only want of memory is answered.
fn hand_all(
    translation: &mut Translation,
    path: &mut Path,
    text: &mut MemSink,
    reader: &mut SharingReader,
) -> Result<(), Answer>
    requires held { IsHeld translation.old.module }
    requires bounds { length translation.old.bounds.items ≡ length translation.old.module.decls }
    requires room { AreWithin path.old.room translation.old.module.table translation.old.module.decls }
    requires reads { (m : List Declaration) × Reads (written (declarations_of translation.old.module) translation.old.bounds.items) m }
    requires going { IsGoingOver reader.old translation.old.module.table }
    requires fed { IsFed (reading_over reader.old translation.old.module.table) prelude }
    requires empty { text.old.contents ≡ [] }
    ensures going { OnOk result (IsGoingOver reader.new translation.new.module.table) }
    ensures fed { OnOk result (IsFed (reading_over reader.new translation.new.module.table)
        (written (declarations_of translation.old.module) translation.old.bounds.items)) }
    ensures keeps { OnOk result (Keeps translation.old.module.table translation.new.module.table) }
    ensures decls { translation.new.module.decls ≡ translation.old.module.decls }
    ensures bounds { translation.new.bounds ≡ translation.old.bounds }
    ensures counts { translation.new.counts ≡ translation.old.counts }
    ensures memory { IfErr result (λ answer. answer ≡ Answer.Memory) }
{
    for i in 0..translation.bounds.len() {
        line_into(translation, i, path, text)?;
        hand(&mut translation.module.table, text, reader)?;
    }
    Ok(())
}

// Gathers what a declaration adds to the text of a translation.
fn line_into(
    translation: &Translation,
    i: usize,
    path: &mut Path,
    text: &mut MemSink,
) -> Result<(), Answer>
    requires held { IsHeld translation.now.module }
    requires bounds { length translation.now.bounds.items ≡ length translation.now.module.decls }
    requires room { AreWithin path.old.room translation.now.module.table translation.now.module.decls }
    requires declared { i < length translation.now.bounds.items }
    requires empty { text.old.contents ≡ [] }
    ensures room { path.new.room ≡ path.old.room }
    ensures text { OnOk result (text.new.contents ≡ line_at (declarations_of translation.now.module) translation.now.bounds.items i) }
    ensures memory { IfErr result (λ answer. answer ≡ Answer.Memory) }
{
    match write_decl(&translation.module, &translation.bounds, i, path, text) {
        Ok(()) => Ok(()),
        Err(_) => Err(Answer::Memory),
    }
}

// Lets the reader read on in a text that reads as a module, and gives up what was gathered of it. Only want of memory is answered.
fn hand(table: &mut LpTable, text: &mut MemSink, reader: &mut SharingReader) -> Result<(), Answer>
    requires going { IsGoingOver reader.old table.old }
    requires reads { (before rest : List ℕ) × (m : List Declaration) × IsFed (reading_over reader.old table.old) before
        × Reads ((before ++ text.old.contents) ++ rest) m }
    ensures going { OnOk result (IsGoingOver reader.new table.new) }
    ensures feeds { OnOk result ((before : List ℕ) → IsFed (reading_over reader.old table.old) before
        → IsFed (reading_over reader.new table.new) (before ++ text.old.contents)) }
    ensures keeps { OnOk result (Keeps table.old table.new) }
    ensures empty { text.new.contents ≡ [] }
    ensures memory { IfErr result (λ answer. answer ≡ Answer.Memory) }
{
    let fed = reader.feed(table, text.contents());
    text.clear();
    match fed {
        Ok(()) => Ok(()),
        Err(fault) => Err(answer_of(fault)),
    }
}

// The module that was read, at the end of a text that reads as one, over the table that it was read over. Only want of memory is
// answered in place of it.
fn ended(reader: SharingReader, table: LpTable) -> Result<Module, Answer>
    requires going { IsGoingOver reader table }
    requires reads { (text : List ℕ) × (m : List Declaration) × IsFed (reading_over reader table) text × Reads text m }
    ensures read { IfOk result (λ back. (text : List ℕ) (m : List Declaration) → IsFed (reading_over reader table) text → Reads text m
        → declarations_of back ≡ m) }
    ensures held { IfOk result IsHeld }
    ensures is_module { IfOk result (λ back. IsModule (declarations_of back)) }
    ensures keeps { IfOk result (λ back. Keeps table back.table) }
    ensures memory { IfErr result (λ answer. answer ≡ Answer.Memory) }
{
    match reader.finish(table) {
        Ok(back) => Ok(back),
        Err(fault) => Err(answer_of(fault)),
    }
}

// What is answered for a fault of the reader.
fn answer_of(fault: DkFault) -> Answer
    ensures refused { (place : ℕ) (kind : AKind) → fault ≡ DkFault.Refused place kind → result ≡ Answer.DkRefused place kind }
    ensures memory { fault ≡ DkFault.Memory → result ≡ Answer.Memory }
{
    match fault {
        DkFault::Refused { place, kind } => Answer::DkRefused(place, kind),
        DkFault::Memory => Answer::Memory,
    }
}
