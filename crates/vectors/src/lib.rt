//! Generated articles, for trials of what reads them.
//!
//! `trial` writes an article of any length: it defines constants one by the other, so many as it is told, and proves of each that it is `f` at
//! `p`. Its one export speaks of the last. It takes no memory: the text goes to a sink, line by line of the article format.
//!
//! ```
//! trial(1_000, &mut sink)?;
//! ```
#![tactic(auto)]

ghost use Rattle.std.specs.Prelude.{OnOk, OnErr};
ghost use Rattle.bridge_base.specs.Outside.{Gains, GainsFront, HasCause};
ghost use Rattle.article_spec.specs.Trial.{beginning, block, blocks, chained, ending, lines, trial_text};
ghost use Rattle.vectors.specs.Writing.{Writes};

#[cfg(test)]
mod tests;

use bridge_base::{Failed, Sink, write_all};
use itoa::Buffer;

// What stands before the blocks.
const BEGINNING: &[u8] = b"6\nversion\n\"bool\"\ntypeOp\nnil\nopType\n0\ndef\npop\n\
\"->\"\ntypeOp\n0\nref\n0\nref\nnil\ncons\ncons\nopType\n1\ndef\npop\n\
\"p\"\n0\nref\nvar\nvarTerm\n2\ndef\nrefl\n3\ndef\npop\n\
\"x\"\n0\nref\nvar\n4\ndef\npop\n\
\"f\"\nconst\n1\nref\nconstTerm\n5\ndef\npop\n";

// What stands in a block between the number in its constant's name and what takes its theorem to `f`.
const DEFINED: &[u8] =
    b"\"\n4\nref\n5\nref\n4\nref\nvarTerm\nappTerm\nabsTerm\n6\ndef\ndefineConst\n\
3\nref\nappThm\n6\nref\n2\nref\nappTerm\nbetaConv\ntrans\n";

// What stands in a block behind that.
const KEPT: &[u8] = b"7\ndef\npop\n1\nref\nconstTerm\n5\ndef\npop\n";

// What stands behind the blocks.
const ENDING: &[u8] =
    b"7\nref\nnil\n\"=\"\nconst\n\"->\"\ntypeOp\n0\nref\n1\nref\nnil\ncons\ncons\nopType\nconstTerm\n\
5\nref\n2\nref\nappTerm\nappTerm\n\"f\"\nconst\n1\nref\nconstTerm\n2\nref\nappTerm\nappTerm\nthm\n";

/// Writes the article of `n` blocks, one command a line, each line with its end. Block i defines `ci` as `\x. t x`, where
/// `t` is the constant before it, or the input constant `f`, and proves `|- ci p = f p`; the article exports this of the
/// last. So with no block it refers to a theorem that isn't there. It fails only where the sink's count of faults rose.
pub fn trial<S: Sink>(n: u64, sink: &mut S) -> Result<(), Failed>
    ensures ok { OnOk result (Gains (S.got sink.old) (trial_text n) (S.got sink.new)) }
    ensures err { OnErr result (GainsFront (S.got sink.old) (trial_text n) (S.got sink.new)) }
    ensures cause { HasCause (S.faults sink.old) (S.faults sink.new) result }
{
    put(BEGINNING, sink)?;
    write_blocks(n, sink)?;
    put(ENDING, sink)
}

// Writes a piece.
fn put<S: Sink>(piece: &[u8], sink: &mut S) -> Result<(), Failed>
    ensures { Writes (S.got sink.old) (S.faults sink.old) piece.now (S.got sink.new) (S.faults sink.new) result }
{
    write_all(sink, piece)
}

// Writes the blocks from 1 to n.
fn write_blocks<S: Sink>(n: u64, sink: &mut S) -> Result<(), Failed>
    ensures { Writes (S.got sink.old) (S.faults sink.old) (lines (blocks n)) (S.got sink.new) (S.faults sink.new) result }
{
    for before in 0..n {
        write_block(before + 1, sink)?;
    }
    Ok(())
}

// Writes block i.
fn write_block<S: Sink>(i: u64, sink: &mut S) -> Result<(), Failed>
    ensures { Writes (S.got sink.old) (S.faults sink.old) (lines (block i)) (S.got sink.new) (S.faults sink.new) result }
{
    let mut buffer = Buffer::new();
    let number = buffer.format(i).as_bytes();
    put(b"\"c", sink)?;
    put(number, sink)?;
    put(DEFINED, sink)?;
    write_chained(i, sink)?;
    put(KEPT, sink)
}

// Writes what takes the theorem of block i to `f`, by that of the block before it.
fn write_chained<S: Sink>(i: u64, sink: &mut S) -> Result<(), Failed>
    ensures { Writes (S.got sink.old) (S.faults sink.old) (lines (chained i)) (S.got sink.new) (S.faults sink.new) result }
{
    if i == 1 {
        return Ok(());
    }
    put(b"7\nref\ntrans\n", sink)
}
