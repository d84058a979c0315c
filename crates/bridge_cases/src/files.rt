//! The files of a case.
use crate::cases::{Case, Wrong, value};
use crate::parts::{Sort, joined};
use std::alloc::Global;
use toml::{Table, Value};

/// The files of a case, each a name and its bytes.
pub(crate) fn files(alloc: Global, case: &Case<'_>) -> Result<Vec<(String, Vec<u8>)>, Wrong> {
    let mut files = Vec::new(alloc);
    add_files(alloc, case, &mut files)?;
    Ok(files)
}

// Adds the files that are given as they are, and the articles.
fn add_files(
    alloc: Global,
    case: &Case<'_>,
    files: &mut Vec<(String, Vec<u8>)>,
) -> Result<(), Wrong> {
    add_files_at(alloc, case, "text", Sort::Text, files)?;
    add_files_at(alloc, case, "article", Sort::Article, files)
}

// Adds the files that are said under a key.
fn add_files_at(
    alloc: Global,
    case: &Case<'_>,
    key: &'static str,
    sort: Sort,
    files: &mut Vec<(String, Vec<u8>)>,
) -> Result<(), Wrong> {
    match value(case, key)? {
        Value::Table(table) => add_files_of(alloc, case, table, sort, files),
        _ => Err(Wrong(key)),
    }
}

// Adds the files of a table, each by its name.
fn add_files_of(
    alloc: Global,
    case: &Case<'_>,
    table: &Table,
    sort: Sort,
    files: &mut Vec<(String, Vec<u8>)>,
) -> Result<(), Wrong> {
    for (name, parts) in table.iter() {
        files.push(file(alloc, case, name, parts, sort)?)?;
    }
    Ok(())
}

// A file, its name and its bytes.
fn file(
    alloc: Global,
    case: &Case<'_>,
    name: &str,
    parts: &Value,
    sort: Sort,
) -> Result<(String, Vec<u8>), Wrong> {
    let text = joined(alloc, case, parts, sort)?;
    Ok((String::from_str(alloc, name)?, text))
}
