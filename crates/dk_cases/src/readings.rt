//! How texts are read.
ghost use Rattle.std.specs.Prelude.{◌<◌};

use crate::faults::{add_comma, add_fault, add_number};
use crate::modules::{Reading, add_declarations, feed, read, read_in_pieces, read_over};
use case_files::{Case, Sort, Wrong, items, joined, listed, number, value, word_of};
use dk_read::{DkFault, DkKind, Limit, Reader};
use holide_sig::{Module, PRELUDE};
use std::alloc::Global;
use toml::Value;

/// Adds the declarations that a text reads as, or its fault.
pub(crate) fn add_reading(
    alloc: Global,
    case: &Case<'_>,
    reading: Reading,
    text: &[u8],
    came: &mut Vec<u8>,
) -> Result<(), Wrong>
    requires { 0 < reading.size }
{
    let answer = read_in_pieces(alloc, reading, text);
    let added = add_module(alloc, case, &answer, came);
    drop(answer);
    added
}

/// Adds how many trees a text makes that is read a second time, over the table of the module that it reads as, and its declarations.
pub(crate) fn add_again(
    alloc: Global,
    case: &Case<'_>,
    limit: Limit,
    text: &[u8],
    came: &mut Vec<u8>,
) -> Result<(), Wrong> {
    match read(alloc, limit, text) {
        Ok(source) => {
            let before = source.table.count();
            let answer = read_over(alloc, source, behind_prelude(text));
            let added = add_new(alloc, case, before, &answer, came);
            drop(answer);
            added
        }
        Err(fault) => {
            let added = add_refusal(alloc, case, &fault, came);
            drop(fault);
            added
        }
    }
}

// The bytes behind as many as the signature's text has.
fn behind_prelude(text: &[u8]) -> &[u8] {
    if text.len() < PRELUDE.len() {
        return text;
    }
    &text[PRELUDE.len()..]
}

// Adds how many trees a table has that had so many, and the declarations of the module over it.
fn add_new(
    alloc: Global,
    case: &Case<'_>,
    before: usize,
    answer: &Result<Module, DkFault>,
    came: &mut Vec<u8>,
) -> Result<(), Wrong> {
    if let Ok(source) = answer {
        let made = source.table.count().saturating_sub(before);
        add_number(alloc, came, made as u128)?;
    }
    add_module(alloc, case, answer, came)
}

// Adds the declarations of a module, or the fault in its place.
fn add_module(
    alloc: Global,
    case: &Case<'_>,
    answer: &Result<Module, DkFault>,
    came: &mut Vec<u8>,
) -> Result<(), Wrong> {
    match answer {
        Ok(source) => add_declarations(came, source),
        Err(fault) => add_refusal(alloc, case, fault, came),
    }
}

// Adds a fault.
fn add_refusal(
    alloc: Global,
    case: &Case<'_>,
    fault: &DkFault,
    came: &mut Vec<u8>,
) -> Result<(), Wrong> {
    add_comma(came)?;
    add_fault(alloc, came, number(case, "start")?, fault)
}

// Adds the fault of an answer, or that it has none.
fn add_answer(
    alloc: Global,
    case: &Case<'_>,
    answer: &Result<(), DkFault>,
    came: &mut Vec<u8>,
) -> Result<(), Wrong> {
    match answer {
        Ok(()) => add_fed(came),
        Err(fault) => add_refusal(alloc, case, fault, came),
    }
}

// Adds that a piece was fed.
fn add_fed(came: &mut Vec<u8>) -> Result<(), Wrong> {
    add_comma(came)?;
    came.extend_from_slice(b"fed")?;
    Ok(())
}

/// Adds what is answered as a text is fed, one more piece is fed, and the end is told.
pub(crate) fn add_feeding(
    alloc: Global,
    case: &Case<'_>,
    reading: Reading,
    text: &[u8],
    came: &mut Vec<u8>,
) -> Result<(), Wrong>
    requires { 0 < reading.size }
{
    let mut reader = Reader::new(alloc, reading.limit);
    let fed = add_fed_twice(alloc, case, &mut reader, text, reading.size, came);
    let ended = add_end(alloc, case, reader, came);
    fed?;
    ended
}

// Adds what is answered as a text is fed, and one more piece.
fn add_fed_twice(
    alloc: Global,
    case: &Case<'_>,
    reader: &mut Reader,
    text: &[u8],
    size: usize,
    came: &mut Vec<u8>,
) -> Result<(), Wrong>
    requires { 0 < size }
{
    let first = feed(reader, text, size);
    let added = add_answer(alloc, case, &first, came);
    drop(first);
    added?;
    add_piece(alloc, case, reader, b"q : type.", came)
}

// Adds what is answered to a piece.
fn add_piece(
    alloc: Global,
    case: &Case<'_>,
    reader: &mut Reader,
    piece: &[u8],
    came: &mut Vec<u8>,
) -> Result<(), Wrong> {
    let answer = reader.feed(piece);
    let added = add_answer(alloc, case, &answer, came);
    drop(answer);
    added
}

// Adds what is answered at the end.
fn add_end(
    alloc: Global,
    case: &Case<'_>,
    reader: Reader,
    came: &mut Vec<u8>,
) -> Result<(), Wrong> {
    let answer = reader.finish();
    let added = add_module(alloc, case, &answer, came);
    drop(answer);
    added
}

/// Adds what is answered to each part of the text, which is fed by itself, with the bytes that are held then, and what is read.
pub(crate) fn add_steps(
    alloc: Global,
    case: &Case<'_>,
    limit: Limit,
    came: &mut Vec<u8>,
) -> Result<(), Wrong> {
    let parts = items(value(case, "text")?, "text")?;
    let mut reader = Reader::new(alloc, limit);
    let fed = add_each_step(alloc, case, parts, &mut reader, came);
    let ended = add_end(alloc, case, reader, came);
    fed?;
    ended
}

// Adds what is answered to each of these parts.
fn add_each_step(
    alloc: Global,
    case: &Case<'_>,
    parts: &[Value],
    reader: &mut Reader,
    came: &mut Vec<u8>,
) -> Result<(), Wrong> {
    for part in parts {
        add_step(alloc, case, part, reader, came)?;
    }
    Ok(())
}

// Adds what is answered to a part, and the bytes that are held then.
fn add_step(
    alloc: Global,
    case: &Case<'_>,
    part: &Value,
    reader: &mut Reader,
    came: &mut Vec<u8>,
) -> Result<(), Wrong> {
    let piece = joined(alloc, case, part, Sort::Text)?;
    let added = add_piece(alloc, case, reader, &piece, came);
    drop(piece);
    added?;
    came.push(b' ')?;
    add_number(alloc, came, reader.held() as u128)
}

/// Adds how many shorter beginnings of a text are fed and then refused at their ends as no prelude.
pub(crate) fn add_cuts(
    alloc: Global,
    reading: Reading,
    text: &[u8],
    came: &mut Vec<u8>,
) -> Result<(), Wrong>
    requires { 0 < reading.size }
{
    let mut count: u64 = 0;
    for length in 0..text.len() {
        if is_cut(alloc, reading, &text[..length]) {
            count = count.saturating_add(1);
        }
    }
    add_number(alloc, came, u128::from(count))
}

// Whether a text is fed, and refused at its end as no prelude.
fn is_cut(alloc: Global, reading: Reading, text: &[u8]) -> bool
    requires { 0 < reading.size }
{
    let mut reader = Reader::new(alloc, reading.limit);
    let fed = feed(&mut reader, text, reading.size).is_ok();
    let lacks = lacks_prelude(reader, text.len() as u64);
    fed && lacks
}

// Whether the end is refused at this place as no prelude.
fn lacks_prelude(reader: Reader, length: u64) -> bool {
    match reader.finish() {
        Err(
            DkFault::Refused {
                place,
                kind: DkKind::NoPrelude,
            },
        ) => place == length,
        _ => false,
    }
}

/// Adds the symbols of the names of the case in the module of a text.
pub(crate) fn add_finds(
    alloc: Global,
    case: &Case<'_>,
    reading: Reading,
    text: &[u8],
    came: &mut Vec<u8>,
) -> Result<(), Wrong>
    requires { 0 < reading.size }
{
    let Ok(source) = read_in_pieces(alloc, reading, text) else {
        return Err(Wrong("text"));
    };
    let added = add_found_of(alloc, case, &source, came);
    drop(source);
    added
}

// Adds the symbols of the names of the case.
fn add_found_of(
    alloc: Global,
    case: &Case<'_>,
    source: &Module,
    came: &mut Vec<u8>,
) -> Result<(), Wrong> {
    add_found(alloc, source, listed(case, "names")?, came)
}

// Adds the symbols of these names.
fn add_found(
    alloc: Global,
    source: &Module,
    names: &[Value],
    came: &mut Vec<u8>,
) -> Result<(), Wrong> {
    for name in names {
        add_symbol(alloc, source, word_of(name, "names")?, came)?;
    }
    Ok(())
}

// Adds the symbol of a name.
fn add_symbol(alloc: Global, source: &Module, name: &str, came: &mut Vec<u8>) -> Result<(), Wrong> {
    add_comma(came)?;
    match source.find(name.as_bytes()) {
        Some(symbol) => add_number(alloc, came, symbol as u128),
        None => {
            came.extend_from_slice(b"none")?;
            Ok(())
        }
    }
}
