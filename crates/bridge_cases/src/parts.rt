//! Texts that are joined of parts.
use crate::cases::{Case, Wrong, number_of, value, word_of};
use std::alloc::{AllocError, Global};
use toml::{Table, Value};

/// What parts are of.
#[derive(Clone, Copy)]
pub(crate) enum Sort {
    /// A text, which has its parts as they are.
    Text,
    /// An article, in whose parts a blank stands for the end of a line, and each of which ends one.
    Article,
}

/// The text of the parts that are said under a key.
pub(crate) fn text_at(alloc: Global, case: &Case<'_>, key: &'static str) -> Result<Vec<u8>, Wrong> {
    joined(alloc, case, value(case, key)?, Sort::Text)
}

/// The text of these parts.
pub(crate) fn joined(
    alloc: Global,
    case: &Case<'_>,
    parts: &Value,
    sort: Sort,
) -> Result<Vec<u8>, Wrong> {
    let mut text = Vec::new(alloc);
    append_parts(case, parts, sort, &mut text)?;
    Ok(text)
}

// Adds the parts that a list has, or the one part.
fn append_parts(
    case: &Case<'_>,
    parts: &Value,
    sort: Sort,
    text: &mut Vec<u8>,
) -> Result<(), Wrong> {
    match parts {
        Value::Array(parts) => append_each(case, parts, sort, text),
        part => append_part(case, part, sort, text),
    }
}

// Adds these parts, in order.
fn append_each(
    case: &Case<'_>,
    parts: &[Value],
    sort: Sort,
    text: &mut Vec<u8>,
) -> Result<(), Wrong> {
    for part in parts {
        append_part(case, part, sort, text)?;
    }
    Ok(())
}

// Adds a part: a text, commands of an article, or a text that comes so often.
fn append_part(case: &Case<'_>, part: &Value, sort: Sort, text: &mut Vec<u8>) -> Result<(), Wrong> {
    match part {
        Value::String(part) => append(text_of(case, part)?, sort, text),
        Value::Table(part) => append_table(case, part, sort, text),
        _ => Err(Wrong("part")),
    }
}

// Adds the commands of a part that says some, else a part that comes so often.
fn append_table(
    case: &Case<'_>,
    part: &Table,
    sort: Sort,
    text: &mut Vec<u8>,
) -> Result<(), Wrong> {
    match part.get("commands") {
        Some(commands) => {
            let commands = text_of(case, word_of(commands, "commands")?)?;
            append(commands, Sort::Article, text)
        }
        None => append_repeated(case, part, sort, text),
    }
}

// Adds a part that comes as often as `times` says.
fn append_repeated(
    case: &Case<'_>,
    repeated: &Table,
    sort: Sort,
    text: &mut Vec<u8>,
) -> Result<(), Wrong> {
    match (repeated.get("times"), repeated.get("part")) {
        (Some(times), Some(part)) => {
            let part = text_of(case, word_of(part, "part")?)?;
            append_times(number_of(times, "times")?, part, sort, text)
        }
        _ => Err(Wrong("times")),
    }
}

// Adds a text so many times.
fn append_times(times: u64, part: &str, sort: Sort, text: &mut Vec<u8>) -> Result<(), Wrong> {
    for _ in 0..times {
        append(part, sort, text)?;
    }
    Ok(())
}

// Adds a text, as it stands in such a file.
fn append(part: &str, sort: Sort, text: &mut Vec<u8>) -> Result<(), Wrong> {
    match sort {
        Sort::Text => text.extend_from_slice(part.as_bytes())?,
        Sort::Article => append_commands(part, text)?,
    }
    Ok(())
}

// Adds the commands of a piece of an article, each on a line of its own.
fn append_commands(part: &str, text: &mut Vec<u8>) -> Result<(), AllocError> {
    for byte in part.as_bytes() {
        text.push(if *byte == b' ' { b'\n' } else { *byte })?;
    }
    text.push(b'\n')?;
    Ok(())
}

// The text that a part stands for: that of its name behind `$`, or itself.
fn text_of<'a>(case: &Case<'a>, part: &'a str) -> Result<&'a str, Wrong> {
    match part.strip_prefix('$') {
        Some(name) => named(case, name).ok_or(Wrong("texts")),
        None => Ok(part),
    }
}

// The text of a name, of the case, else of its test, else of the file, else of those that all files have.
fn named<'a>(case: &Case<'a>, name: &str) -> Option<&'a str> {
    for table in [case.own, case.test, case.usual, case.everywhere] {
        if let Some(text) = named_in(table, name) {
            return Some(text);
        }
    }
    None
}

// The text of that name which a table has.
fn named_in<'a>(table: &'a Table, name: &str) -> Option<&'a str> {
    match table.get("texts") {
        Some(Value::Table(texts)) => match texts.get(name) {
            Some(Value::String(text)) => Some(text.as_str()),
            _ => None,
        },
        _ => None,
    }
}
