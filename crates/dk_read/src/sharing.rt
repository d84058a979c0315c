//! A reader whose trees stand in a table that is lent to it.
ghost use Rattle.std.specs.Prelude.{◌≡◌, ◌<◌, ◌+◌, ◌^◌, ◌++◌, List, ℕ, length, IfOk, OnOk, IfErr};
ghost use Rattle.lp_spec.specs.Trees.{Tree};
ghost use Rattle.lp_spec.specs.Text.{prelude};
ghost use Rattle.lp_spec.specs.ReadingFaults as reading;
ghost use Rattle.lp_term.specs.Tables.{Keeps};
ghost use Rattle.holide_sig.specs.Modules.{declarations_of};
ghost use Rattle.dk_read.specs.declared.stage.Stage.TheVariants as stage;
ghost use Rattle.dk_read.specs.States.{IsReading};
ghost use Rattle.dk_read.specs.Texts.{inside};
ghost use Rattle.dk_read.specs.Readers.{IsFed, IsStage, Comes, Judges, EndsWith, ReadsAs, Accepts};
ghost use Rattle.dk_read.specs.Sharing.{HoldsSignature};
ghost use Rattle.dk_read.specs.Shared.{reading_over, IsGoingOver};

use crate::faults::DkFault;
use crate::stage::go_on;
use crate::text::Text;
use common::Memory;
use holide_sig::Module;
use lp_term::LpTable;
use std::alloc::Global;

/// A reader of a text behind the signature's own, without a limit. Each call is lent a table: a tree of the text that stands there
/// is found, and another one is made there. Between two calls the table may be used elsewhere.
#[derive(Drop)]
pub struct SharingReader {
    pub(crate) text: Text,
}

impl SharingReader {
    /// A reader that was fed the signature's text, with room for so many declarations, as far as there is memory. It may be lent any
    /// table that holds the types of the signature's symbols.
    pub fn new(alloc: Global, count: usize) -> Result<SharingReader, Memory>
        ensures going { IfOk result (λ r. (trees : List Tree) → HoldsSignature trees → IsGoingOver r trees) }
        ensures fed { IfOk result (λ r. (trees : List Tree) → IsFed (reading_over r trees) prelude) }
    {
        let mut text = Text::new(alloc)?;
        text.parser.reserve(count);
        Ok(SharingReader { text })
    }

    /// Takes the next piece of the text over the table that it went on over last. It refuses only a text that is refused whatever
    /// follows. After a fault it can't go on.
    pub fn feed(&mut self, table: &mut LpTable, piece: &[u8]) -> Result<(), DkFault>
        requires going { IsGoingOver self.old table.old }
        ensures going { OnOk result (IsGoingOver self.new table.new) }
        ensures feeds { OnOk result ((text : List ℕ) → IsFed (reading_over self.old table.old) text
            → IsFed (reading_over self.new table.new) (text ++ piece.now)) }
        ensures judges { Judges (reading_over self.old table.old) piece.now result }
        ensures keeps { OnOk result (Keeps table.old table.new) }
    {
        self.text.exchange(table);
        let fed = read_on(&mut self.text, piece);
        self.text.exchange(table);
        fed
    }

    /// Ends the text. It answers with the module that the whole text reads as, over the table that has grown, or with its refusal.
    pub fn finish(self, table: LpTable) -> Result<Module, DkFault>
        requires going { IsGoingOver self table }
        ensures ends { EndsWith (reading_over self table) result }
        ensures reads { IfOk result (λ m. ReadsAs (reading_over self table) (declarations_of m)) }
        ensures accepts { Accepts (reading_over self table) result }
        ensures keeps { IfOk result (λ m. Keeps table m.table) }
    {
        let SharingReader { text } = self;
        let mut text = text;
        let mut other = table;
        text.exchange(&mut other);
        drop(other);
        text.end()
    }
}

// Takes the next piece, or tells the fault that it shows. A text of 2^64 bytes or more wants more memory than there is.
fn read_on(text: &mut Text, piece: &[u8]) -> Result<(), DkFault>
    requires reading { IsReading text.old.parser }
    ensures goes { OnOk result (reading.read_bytes (inside text.old) piece.now ≡ inside text.new) }
    ensures reading { OnOk result (IsReading text.new.parser) }
    ensures stops { IfErr result (λ f. Comes (reading.read_bytes (inside text.old) piece.now) (stage.Stopped f)) }
    ensures place { IfErr result (λ f. IsStage (stage.Stopped f)) }
    ensures keeps { OnOk result (Keeps text.old.parser.module.table text.new.parser.module.table) }
{
    let room = u64::MAX.saturating_sub(text.place);
    if (piece.len() as u64) <= room {
        go_on(text, piece)
    } else {
        Err(DkFault::Memory)
    }
}
