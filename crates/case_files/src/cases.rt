//! A case with its test and what is usual in its file, and what is said under a key.
use std::alloc::{AllocError, AllocFailed, Global};
use std::io;
use toml::{Table, Value};

/// What keeps a case from being tried: the key that is wrong, or the want of memory.
#[derive(Clone, Copy, Debug)]
pub struct Wrong(pub &'static str);

impl From<AllocError> for Wrong {
    fn from(_: AllocError) -> Wrong {
        Wrong("out of memory")
    }
}

impl<T: Drop> From<AllocFailed<T>> for Wrong {
    fn from(_: AllocFailed<T>) -> Wrong {
        Wrong("out of memory")
    }
}

impl From<io::Error> for Wrong {
    fn from(_: io::Error) -> Wrong {
        Wrong("standard output failed")
    }
}

/// A case, its test, what is usual in its file, and what is in all files; and its place in the test, from 1.
#[derive(Clone, Copy)]
pub struct Case<'a> {
    pub place: usize,
    pub own: &'a Table,
    pub test: &'a Table,
    pub usual: &'a Table,
    pub everywhere: &'a Table,
}

/// What is said under a key by the case, else by its test, else usually in the file, else in all files.
pub fn said<'a>(case: &Case<'a>, key: &str) -> Option<&'a Value> {
    match case.own.get(key) {
        Some(value) => Some(value),
        None => said_around(case, key),
    }
}

// The same of what stands around the case.
fn said_around<'a>(case: &Case<'a>, key: &str) -> Option<&'a Value> {
    match case.test.get(key) {
        Some(value) => Some(value),
        None => said_usually(case, key),
    }
}

// The same of what is usual.
fn said_usually<'a>(case: &Case<'a>, key: &str) -> Option<&'a Value> {
    match case.usual.get(key) {
        Some(value) => Some(value),
        None => case.everywhere.get(key),
    }
}

/// The value that is said under a key.
pub fn value<'a>(case: &Case<'a>, key: &'static str) -> Result<&'a Value, Wrong> {
    said(case, key).ok_or(Wrong(key))
}

/// The text that is said under a key.
pub fn word<'a>(case: &Case<'a>, key: &'static str) -> Result<&'a str, Wrong> {
    word_of(value(case, key)?, key)
}

/// The number that is said under a key.
pub fn number(case: &Case<'_>, key: &'static str) -> Result<u64, Wrong> {
    number_of(value(case, key)?, key)
}

/// The number that a value is.
pub fn number_of(value: &Value, key: &'static str) -> Result<u64, Wrong> {
    match value {
        Value::Integer(number) => u64::try_from(*number).map_err(|_| Wrong(key)),
        _ => Err(Wrong(key)),
    }
}

/// The values that are listed under a key.
pub fn listed<'a>(case: &Case<'a>, key: &'static str) -> Result<&'a [Value], Wrong> {
    items(value(case, key)?, key)
}

/// The values that a value lists.
pub fn items<'a>(value: &'a Value, key: &'static str) -> Result<&'a [Value], Wrong> {
    match value {
        Value::Array(values) => Ok(values.as_slice()),
        _ => Err(Wrong(key)),
    }
}

/// The numbers that are listed under a key.
pub fn numbers(alloc: Global, case: &Case<'_>, key: &'static str) -> Result<Vec<u64>, Wrong> {
    let values = listed(case, key)?;
    let mut numbers = Vec::new(alloc);
    add_numbers(values, key, &mut numbers)?;
    Ok(numbers)
}

// Adds the numbers that these values are.
fn add_numbers(values: &[Value], key: &'static str, numbers: &mut Vec<u64>) -> Result<(), Wrong> {
    for value in values {
        numbers.push(number_of(value, key)?)?;
    }
    Ok(())
}

/// The words that these values are.
pub fn words_of(alloc: Global, values: &[Value], key: &'static str) -> Result<Vec<String>, Wrong> {
    let mut words = Vec::new(alloc);
    add_words(alloc, values, key, &mut words)?;
    Ok(words)
}

// Adds the words that these values are.
fn add_words(
    alloc: Global,
    values: &[Value],
    key: &'static str,
    words: &mut Vec<String>,
) -> Result<(), Wrong> {
    for value in values {
        words.push(String::from_str(alloc, word_of(value, key)?)?)?;
    }
    Ok(())
}

/// The text that a value is.
pub fn word_of<'a>(value: &'a Value, key: &'static str) -> Result<&'a str, Wrong> {
    match value {
        Value::String(word) => Ok(word.as_str()),
        _ => Err(Wrong(key)),
    }
}
