//! A case that is tried: whether what comes is what has to, and what came instead.
ghost use Rattle.std.specs.Prelude.{◌<◌};

use crate::answers::answer;
use crate::cases::{
    Case, Wrong, items, listed, number, number_of, numbers, said, word, word_of, words_of,
};
use crate::files::files;
use crate::parts::text_at;
use crate::recorded::RecordedShelf;
use bridge_base::{MemShelf, MemSink};
use std::alloc::Global;
use std::str;
use toml::Value;

/// Whether a case comes out as it says, for each of its command lines and in whatever pieces it says.
pub(crate) fn holds(rt: &HostRuntime, case: &Case<'_>) -> Result<bool, Wrong> {
    let words = listed(case, "words")?;
    match words.first() {
        Some(Value::Array(_)) => holds_for_each(rt, case, words),
        _ => holds_for(rt, case, words),
    }
}

// Whether it does for each of these command lines.
fn holds_for_each(rt: &HostRuntime, case: &Case<'_>, lines: &[Value]) -> Result<bool, Wrong> {
    for line in lines {
        if !holds_for(rt, case, items(line, "words")?)? {
            return Ok(false);
        }
    }
    Ok(true)
}

// Whether it does for these words.
fn holds_for(rt: &HostRuntime, case: &Case<'_>, words: &[Value]) -> Result<bool, Wrong> {
    match listed(case, "pieces")? {
        [] => Err(Wrong("pieces")),
        pieces => holds_in(rt, case, words, pieces),
    }
}

// Whether it does in each of these pieces.
fn holds_in(
    rt: &HostRuntime,
    case: &Case<'_>,
    words: &[Value],
    pieces: &[Value],
) -> Result<bool, Wrong> {
    for most in pieces {
        if !holds_with(rt, case, words, number_of(most, "pieces")?)? {
            return Ok(false);
        }
    }
    Ok(true)
}

// Whether it does in pieces of so many bytes.
fn holds_with(
    rt: &HostRuntime,
    case: &Case<'_>,
    words: &[Value],
    most: u64,
) -> Result<bool, Wrong> {
    match usize::try_from(most) {
        Ok(most) if 0 < most => holds_by(rt, case, words, most),
        _ => Err(Wrong("pieces")),
    }
}

// The same, where that is more than none: the shelf is made, lent and let go, and so are the sinks below.
fn holds_by(rt: &HostRuntime, case: &Case<'_>, words: &[Value], most: usize) -> Result<bool, Wrong>
    requires { 0 < most }
{
    let alloc = rt.alloc();
    let failing = numbers(alloc, case, "shelf_fails")?;
    let shelf = MemShelf::new(files(alloc, case)?, most, failing);
    let mut shelf = RecordedShelf::new(alloc, shelf);
    let holds = holds_over(rt, case, words, &mut shelf);
    drop(shelf);
    holds
}

// An empty sink, which fails at the calls that are listed under a key.
fn sink(alloc: Global, case: &Case<'_>, key: &'static str) -> Result<MemSink, Wrong> {
    let failing = numbers(alloc, case, key)?;
    Ok(MemSink::new(Vec::new(alloc), failing))
}

// Whether it does over this shelf.
fn holds_over(
    rt: &HostRuntime,
    case: &Case<'_>,
    words: &[Value],
    shelf: &mut RecordedShelf,
) -> Result<bool, Wrong> {
    let mut out = sink(rt.alloc(), case, "out_fails")?;
    let holds = holds_into(rt, case, words, shelf, &mut out);
    drop(out);
    holds
}

// Whether it does with this sink for standard output.
fn holds_into(
    rt: &HostRuntime,
    case: &Case<'_>,
    words: &[Value],
    shelf: &mut RecordedShelf,
    out: &mut MemSink,
) -> Result<bool, Wrong> {
    let mut note = sink(rt.alloc(), case, "note_fails")?;
    let holds = holds_of(rt, case, words, shelf, out, &mut note);
    drop(note);
    holds
}

// Whether it does with these sinks: the program answers, and what came is looked at.
fn holds_of(
    rt: &HostRuntime,
    case: &Case<'_>,
    words: &[Value],
    shelf: &mut RecordedShelf,
    out: &mut MemSink,
    note: &mut MemSink,
) -> Result<bool, Wrong> {
    let words = words_of(rt.alloc(), words, "words")?;
    let answer = answer(rt.alloc(), case, &words, shelf, out, note);
    drop(words);
    is_right(rt, case, answer?, shelf, out, note)
}

// Whether this number, the files begun, and what the sinks hold, are what has to come. Else what came is told.
fn is_right(
    rt: &HostRuntime,
    case: &Case<'_>,
    number: u8,
    shelf: &RecordedShelf,
    out: &MemSink,
    note: &MemSink,
) -> Result<bool, Wrong> {
    let alloc = rt.alloc();
    let right = is_number(case, number)?
        && is_called(case, out.calls())?
        && is_begun(case, shelf.begun())?
        && is_text(alloc, case, "out", out.contents())?
        && is_text(alloc, case, "note", note.contents())?;
    if !right {
        tell(rt, case, number, out, note)?;
        tell_begun(rt, shelf.begun())?;
    }
    Ok(right)
}

// Whether the number of the answer is the one that is said.
fn is_number(case: &Case<'_>, came: u8) -> Result<bool, Wrong> {
    Ok(number(case, "number")? == u64::from(came))
}

// Whether standard output was called as often as is said, if it is.
fn is_called(case: &Case<'_>, calls: u64) -> Result<bool, Wrong> {
    match said(case, "out_calls") {
        None => Ok(true),
        Some(said) => Ok(number_of(said, "out_calls")? == calls),
    }
}

// Whether these files were begun, in order, if that is said.
fn is_begun(case: &Case<'_>, came: Option<&[String]>) -> Result<bool, Wrong> {
    match (said(case, "begun"), came) {
        (None, _) => Ok(true),
        (Some(_), None) => Ok(false),
        (Some(said), Some(came)) => are_words(items(said, "begun")?, came, "begun"),
    }
}

// Whether these values are these words, in order.
fn are_words(values: &[Value], words: &[String], key: &'static str) -> Result<bool, Wrong> {
    if values.len() != words.len() {
        return Ok(false);
    }
    for (value, word) in values.iter().zip(words) {
        if word_of(value, key)? != word.as_str() {
            return Ok(false);
        }
    }
    Ok(true)
}

// Whether standard output or standard error holds what it has to, where something is said of it.
fn is_text(alloc: Global, case: &Case<'_>, key: &'static str, came: &[u8]) -> Result<bool, Wrong> {
    if word(case, "unsaid")? == key {
        return Ok(true);
    }
    let cut = word(case, "cut")? == key;
    let text = text_at(alloc, case, key)?;
    let fits = fits(came, &text, cut);
    drop(text);
    Ok(fits)
}

// Whether this text came, or where it is cut, less of it from its beginning.
fn fits(came: &[u8], text: &[u8], cut: bool) -> bool {
    if cut {
        text.starts_with(came) && came.len() < text.len()
    } else {
        text == came
    }
}

// Tells what came, and in which case.
fn tell(
    rt: &HostRuntime,
    case: &Case<'_>,
    number: u8,
    out: &MemSink,
    note: &MemSink,
) -> Result<(), Wrong> {
    let name = word(case, "name")?;
    let place = case.place;
    let calls = out.calls();
    println!(rt;
        "{name}, case {place} is answered {number}, with {calls} calls of standard output"
    )?;
    tell_text(rt, "standard output", out.contents())?;
    tell_text(rt, "standard error", note.contents())
}

// Tells what a sink holds.
fn tell_text(rt: &HostRuntime, device: &str, text: &[u8]) -> Result<(), Wrong> {
    let text = str::from_utf8(text).unwrap_or("bytes that are no text");
    println!(rt; "{device}:\n{text}")?;
    Ok(())
}

// Tells which files were begun.
fn tell_begun(rt: &HostRuntime, names: Option<&[String]>) -> Result<(), Wrong> {
    match names {
        Some(names) => tell_names(rt, names),
        None => tell_no_names(rt),
    }
}

// Tells these names of files that were begun.
fn tell_names(rt: &HostRuntime, names: &[String]) -> Result<(), Wrong> {
    println!(rt; "files begun:")?;
    for name in names {
        println!(rt; "{name}")?;
    }
    Ok(())
}

// Tells that the files that were begun are told no more.
fn tell_no_names(rt: &HostRuntime) -> Result<(), Wrong> {
    println!(rt; "files begun: told no more")?;
    Ok(())
}
