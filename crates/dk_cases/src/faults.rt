//! What comes, as text.
use case_files::Wrong;
use dk_read::{DkFault, DkKind};
use std::alloc::Global;

/// Adds a number.
pub(crate) fn add_number(alloc: Global, text: &mut Vec<u8>, number: u128) -> Result<(), Wrong> {
    let digits = format!(in alloc; "{number}")?;
    text.extend_from_slice(digits.as_bytes())?;
    Ok(())
}

/// Adds what stands between two things that come.
pub(crate) fn add_comma(text: &mut Vec<u8>) -> Result<(), Wrong> {
    if !text.is_empty() {
        text.extend_from_slice(b", ")?;
    }
    Ok(())
}

/// Adds why a text is refused, with the place counted from `start`.
pub(crate) fn add_fault(
    alloc: Global,
    text: &mut Vec<u8>,
    start: u64,
    fault: &DkFault,
) -> Result<(), Wrong> {
    match fault {
        DkFault::Refused { place, kind } => {
            add_kind(text, kind)?;
            text.extend_from_slice(b" at ")?;
            add_number(alloc, text, u128::from(place.saturating_sub(start)))
        }
        DkFault::Memory => Err(Wrong("out of memory")),
    }
}

// Adds the name of a kind, with that which it is of.
fn add_kind(text: &mut Vec<u8>, kind: &DkKind) -> Result<(), Wrong> {
    text.extend_from_slice(kind_word(kind))?;
    match kind {
        DkKind::UnknownName(name) | DkKind::NameTwice(name) => {
            text.push(b' ')?;
            text.extend_from_slice(name.as_bytes())?;
        }
        DkKind::NoPrelude | DkKind::BadText | DkKind::DkTooDeep | DkKind::DkTooLong => {}
    }
    Ok(())
}

// The name of a kind.
fn kind_word(kind: &DkKind) -> &'static [u8] {
    match kind {
        DkKind::NoPrelude => b"NoPrelude",
        DkKind::BadText => b"BadText",
        DkKind::UnknownName(_) => b"UnknownName",
        DkKind::NameTwice(_) => b"NameTwice",
        DkKind::DkTooDeep => b"DkTooDeep",
        DkKind::DkTooLong => b"DkTooLong",
    }
}
