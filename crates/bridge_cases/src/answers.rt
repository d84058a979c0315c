//! What the program answers, by any of its public calls.
use crate::cases::{Case, Wrong, number, word};
use crate::recorded::RecordedShelf;
use bridge_base::MemSink;
use bridge_run::{Status, article, bridge, check, decode, show, translate, verify};
use std::alloc::Global;

/// The number of the answer to these words, by the call that the case says.
pub(crate) fn answer(
    alloc: Global,
    case: &Case<'_>,
    words: &[String],
    shelf: &mut RecordedShelf,
    out: &mut MemSink,
    note: &mut MemSink,
) -> Result<u8, Wrong> {
    match word(case, "by")? {
        "bridge" => Ok(number_of(bridge(alloc, words, shelf, out, note))),
        "verify" => Ok(number_of(verify(alloc, words, false, false, shelf, out, note))),
        "translate" => Ok(number_of(translate(alloc, words, false, shelf, out, note))),
        "show" => Ok(number_of(show(alloc, words, shelf, out, note))),
        "article" => Ok(number_of(article(alloc, words, shelf, out, note))),
        "check" => check_answer(alloc, case, words, shelf, out, note),
        "decode" => decode_answer(alloc, words, shelf, out, note),
        _ => Err(Wrong("by")),
    }
}

// The same by `check`, for the file of a module and the budget of the case.
fn check_answer(
    alloc: Global,
    case: &Case<'_>,
    words: &[String],
    shelf: &mut RecordedShelf,
    out: &mut MemSink,
    note: &mut MemSink,
) -> Result<u8, Wrong> {
    let [file] = words else {
        return Err(Wrong("words"));
    };
    let budget = number(case, "budget")?;
    Ok(number_of(check(alloc, file, budget, false, shelf, out, note)))
}

// The same by `decode`, for the file of a module.
fn decode_answer(
    alloc: Global,
    words: &[String],
    shelf: &mut RecordedShelf,
    out: &mut MemSink,
    note: &mut MemSink,
) -> Result<u8, Wrong> {
    let [file] = words else {
        return Err(Wrong("words"));
    };
    Ok(number_of(decode(alloc, file, shelf, out, note)))
}

// The number of an answer, which is then let go.
fn number_of(status: Status) -> u8 {
    status.number()
}
