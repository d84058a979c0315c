//! A case that is tried: whether what comes is what has to.
ghost use Rattle.std.specs.Prelude.{◌<◌};

use crate::answers::answer;
use crate::modules::Reading;
use crate::usual::USUAL;
use case_files::{Case, Trial, Wrong, listed, number, number_of, text_at, word};
use dk_read::Limit;
use std::str;
use toml::Value;

// The keys that a case may have beside its name.
const KEYS: &[&str] = &[
    "text", "limits", "pieces", "start", "by", "names", "budgets", "fails", "comes",
];

/// Whether the file has a test and each of its tests holds. What doesn't hold is told on standard output, by the name of the test
/// and the number of the case in it, counted from 1, with what came instead.
pub fn all_hold(rt: &HostRuntime, file: &str) -> bool {
    case_files::all_hold(&Modules, rt, USUAL, KEYS, file)
}

// Tries cases over the texts of modules.
struct Modules;

impl Trial for Modules {
    fn holds(&self, rt: &HostRuntime, case: &Case<'_>) -> Result<bool, Wrong> {
        match (listed(case, "limits")?, listed(case, "pieces")?) {
            ([], _) | (_, []) => Err(Wrong("limits or pieces")),
            (limits, pieces) => holds_under(rt, case, limits, pieces),
        }
    }
}

// Whether a case comes out as it says under each of these limits.
fn holds_under(
    rt: &HostRuntime,
    case: &Case<'_>,
    limits: &[Value],
    pieces: &[Value],
) -> Result<bool, Wrong> {
    for limit in limits {
        if !holds_in(rt, case, limit_of(case, limit)?, pieces)? {
            return Ok(false);
        }
    }
    Ok(true)
}

// The limit that a value is.
fn limit_of(case: &Case<'_>, limit: &Value) -> Result<Limit, Wrong> {
    match limit {
        Value::String(free) if free.as_str() == "free" => Ok(Limit::Free),
        Value::Table(table) => match table.get("behind") {
            Some(behind) => {
                let start = number(case, "start")?;
                Ok(Limit::Bytes(start.saturating_add(number_of(behind, "limits")?)))
            }
            None => Err(Wrong("limits")),
        },
        bytes => Ok(Limit::Bytes(number_of(bytes, "limits")?)),
    }
}

// Whether it does in each of these pieces.
fn holds_in(
    rt: &HostRuntime,
    case: &Case<'_>,
    limit: Limit,
    pieces: &[Value],
) -> Result<bool, Wrong> {
    for size in pieces {
        if !holds_with(rt, case, limit, number_of(size, "pieces")?)? {
            return Ok(false);
        }
    }
    Ok(true)
}

// Whether it does in pieces of this size.
fn holds_with(rt: &HostRuntime, case: &Case<'_>, limit: Limit, size: u64) -> Result<bool, Wrong> {
    match usize::try_from(size) {
        Ok(size) if 0 < size => holds_by(rt, case, Reading { limit, size }),
        _ => Err(Wrong("pieces")),
    }
}

// Whether it does by this reading: what comes is made, looked at and let go.
fn holds_by(rt: &HostRuntime, case: &Case<'_>, reading: Reading) -> Result<bool, Wrong>
    requires { 0 < reading.size }
{
    let mut came = Vec::new(rt.alloc());
    let answered = answer(rt.alloc(), case, reading, &mut came);
    let right = is_right(rt, case, &came);
    drop(came);
    answered?;
    right
}

// Whether this is what has to come. Else it is told.
fn is_right(rt: &HostRuntime, case: &Case<'_>, came: &[u8]) -> Result<bool, Wrong> {
    let text = text_at(rt.alloc(), case, "comes")?;
    let right = text.as_slice() == came;
    drop(text);
    if !right {
        tell(rt, case, came)?;
    }
    Ok(right)
}

// Tells what came, and in which case.
fn tell(rt: &HostRuntime, case: &Case<'_>, came: &[u8]) -> Result<(), Wrong> {
    let name = word(case, "name")?;
    let place = case.place;
    let text = str::from_utf8(came).unwrap_or("bytes that are no text");
    println!(rt; "{name}, case {place}: there comes\n{text}")?;
    Ok(())
}
