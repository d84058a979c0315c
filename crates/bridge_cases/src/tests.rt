//! The tests of a file, and whether all of them hold.
use crate::cases::{Case, Wrong, listed, word};
use crate::tries::holds;
use crate::usual::USUAL;
use toml::{Table, Value};

/// Whether the file has a test and each of its tests holds. What doesn't hold is told on standard output, by the name of the test
/// and the number of the case in it, counted from 1, with what came instead.
pub fn all_hold(rt: &HostRuntime, file: &str) -> bool {
    match toml::table_from_str(rt.alloc(), USUAL) {
        Ok(everywhere) => {
            let hold = all_hold_with(rt, &everywhere, file);
            drop(everywhere);
            hold
        }
        Err(_) => false,
    }
}

// The same, with what is in all files.
fn all_hold_with(rt: &HostRuntime, everywhere: &Table, file: &str) -> bool {
    match toml::table_from_str(rt.alloc(), file) {
        Ok(table) => {
            let hold = all_hold_in(rt, everywhere, &table);
            drop(table);
            hold
        }
        Err(error) => {
            let _ = println!(rt; "the file is no TOML: {error}");
            false
        }
    }
}

// The keys of a file, and those of a case, of a test and of what is usual.
const FILE_KEYS: &[&str] = &["usual", "test"];

const KEYS: &[&str] = &[
    "name",
    "case",
    "texts",
    "words",
    "by",
    "budget",
    "text",
    "article",
    "pieces",
    "shelf_fails",
    "out_fails",
    "note_fails",
    "number",
    "out",
    "note",
    "cut",
    "unsaid",
    "out_calls",
    "begun",
];

// The same of a file that was read.
fn all_hold_in(rt: &HostRuntime, everywhere: &Table, file: &Table) -> bool {
    match (file.get("usual"), file.get("test")) {
        (Some(Value::Table(usual)), Some(Value::Array(tests))) if !tests.is_empty() => {
            has_only(rt, file, FILE_KEYS)
                && has_only(rt, usual, KEYS)
                && each_holds(rt, everywhere, usual, tests)
        }
        _ => says_no(rt, "the file", "usual or test"),
    }
}

// Whether a table has no other keys than these. One that it has is told.
fn has_only(rt: &HostRuntime, table: &Table, keys: &[&str]) -> bool {
    for key in table.keys() {
        if !is_one_of(key, keys) {
            return says_no(rt, "a key that is none", key);
        }
    }
    true
}

// Whether a key is one of these.
fn is_one_of(key: &str, keys: &[&str]) -> bool {
    for known in keys {
        if *known == key {
            return true;
        }
    }
    false
}

// Tells of a wrong key, and says no.
fn says_no(rt: &HostRuntime, place: &str, key: &str) -> bool {
    let _ = println!(rt; "{place}: {key}");
    false
}

// Whether each of these tests holds. Those after one that does not are tried too.
fn each_holds(rt: &HostRuntime, everywhere: &Table, usual: &Table, tests: &[Value]) -> bool {
    let mut hold = true;
    for test in tests {
        hold = test_holds(rt, everywhere, usual, test) && hold;
    }
    hold
}

// Whether a test holds.
fn test_holds(rt: &HostRuntime, everywhere: &Table, usual: &Table, test: &Value) -> bool {
    match test {
        Value::Table(test) => {
            let case = Case {
                place: 0,
                own: test,
                test,
                usual,
                everywhere,
            };
            has_only(rt, test, KEYS) && each_case_holds(rt, &case)
        }
        _ => says_no(rt, "the file", "test"),
    }
}

// Whether a test has a case, by itself or usually, and each of them comes out as it says.
fn each_case_holds(rt: &HostRuntime, test: &Case<'_>) -> bool {
    match listed(test, "case") {
        Ok(cases) if !cases.is_empty() => cases_hold(rt, test, cases),
        _ => is_wrong(rt, test, Wrong("case")),
    }
}

// Whether each of these cases does. Those after one that does not are tried too.
fn cases_hold(rt: &HostRuntime, test: &Case<'_>, cases: &[Value]) -> bool {
    let mut hold = true;
    for (index, own) in cases.iter().enumerate() {
        hold = case_holds(rt, test, index, own) && hold;
    }
    hold
}

// Whether a case does.
fn case_holds(rt: &HostRuntime, test: &Case<'_>, index: usize, own: &Value) -> bool {
    match own {
        Value::Table(own) => {
            let case = Case {
                place: index.saturating_add(1),
                own,
                test: test.test,
                usual: test.usual,
                everywhere: test.everywhere,
            };
            has_only(rt, own, KEYS) && comes_out(rt, &case)
        }
        _ => is_wrong(rt, test, Wrong("case")),
    }
}

// Whether a case comes out as it says. That it does not is told where it is tried.
fn comes_out(rt: &HostRuntime, case: &Case<'_>) -> bool {
    match holds(rt, case) {
        Ok(holds) => holds,
        Err(wrong) => is_wrong(rt, case, wrong),
    }
}

// Tells what keeps a case from being tried, and says no.
fn is_wrong(rt: &HostRuntime, case: &Case<'_>, wrong: Wrong) -> bool {
    let name = word(case, "name").unwrap_or("");
    let place = case.place;
    let key = wrong.0;
    let _ = println!(rt; "{name}, case {place}: {key}");
    false
}
