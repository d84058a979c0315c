//! The tests of a file, and whether all of them hold.
use crate::cases::{Case, Wrong, listed, word};
use toml::{Table, Value};

/// How the cases of files of tests are tried.
pub trait Trial {
    /// Whether a case comes out as it says. Else what came instead is told on standard output.
    fn holds(&self, rt: &HostRuntime, case: &Case<'_>) -> Result<bool, Wrong>;
}

/// Whether the file has a test and each of its tests holds. What doesn't hold is told on standard output, by the name of the test
/// and the number of the case in it, counted from 1, with what came instead. `everywhere` is what is in all files, in TOML too, and
/// `keys` are those that a case may have beside `name`, `case` and `texts`.
pub fn all_hold<T: Trial>(
    trial: &T,
    rt: &HostRuntime,
    everywhere: &str,
    keys: &[&str],
    file: &str,
) -> bool {
    match toml::table_from_str(rt.alloc(), everywhere) {
        Ok(everywhere) => {
            let hold = all_hold_with(trial, rt, &everywhere, keys, file);
            drop(everywhere);
            hold
        }
        Err(_) => says_no(rt, "what is in all files", "no TOML"),
    }
}

// The same, with what is in all files.
fn all_hold_with<T: Trial>(
    trial: &T,
    rt: &HostRuntime,
    everywhere: &Table,
    keys: &[&str],
    file: &str,
) -> bool {
    match toml::table_from_str(rt.alloc(), file) {
        Ok(table) => {
            let hold = all_hold_in(trial, rt, everywhere, keys, &table);
            drop(table);
            hold
        }
        Err(error) => {
            let _ = println!(rt; "the file is no TOML: {error}");
            false
        }
    }
}

// The keys of a file, and those that every test, every case and what is usual may have.
const FILE_KEYS: &[&str] = &["usual", "test"];

const KEYS: &[&str] = &["name", "case", "texts"];

// The same of a file that was read.
fn all_hold_in<T: Trial>(
    trial: &T,
    rt: &HostRuntime,
    everywhere: &Table,
    keys: &[&str],
    file: &Table,
) -> bool {
    match (file.get("usual"), file.get("test")) {
        (Some(Value::Table(usual)), Some(Value::Array(tests))) if !tests.is_empty() => {
            has_only(rt, file, FILE_KEYS, &[])
                && has_only(rt, usual, KEYS, keys)
                && each_holds(trial, rt, everywhere, keys, usual, tests)
        }
        _ => says_no(rt, "the file", "usual or test"),
    }
}

// Whether a table has no other keys than these. One that it has is told.
fn has_only(rt: &HostRuntime, table: &Table, keys: &[&str], more: &[&str]) -> bool {
    for key in table.keys() {
        if !is_one_of(key, keys) && !is_one_of(key, more) {
            return says_no(rt, "a key that is none", key);
        }
    }
    true
}

// Whether a key is one of these.
fn is_one_of(key: &str, keys: &[&str]) -> bool {
    for known in keys {
        if *known == key {
            return true;
        }
    }
    false
}

// Tells of a wrong key, and says no.
fn says_no(rt: &HostRuntime, place: &str, key: &str) -> bool {
    let _ = println!(rt; "{place}: {key}");
    false
}

// Whether each of these tests holds. Those after one that does not are tried too.
fn each_holds<T: Trial>(
    trial: &T,
    rt: &HostRuntime,
    everywhere: &Table,
    keys: &[&str],
    usual: &Table,
    tests: &[Value],
) -> bool {
    let mut hold = true;
    for test in tests {
        hold = test_holds(trial, rt, everywhere, keys, usual, test) && hold;
    }
    hold
}

// Whether a test holds.
fn test_holds<T: Trial>(
    trial: &T,
    rt: &HostRuntime,
    everywhere: &Table,
    keys: &[&str],
    usual: &Table,
    test: &Value,
) -> bool {
    match test {
        Value::Table(test) => {
            let case = Case {
                place: 0,
                own: test,
                test,
                usual,
                everywhere,
            };
            has_only(rt, test, KEYS, keys) && each_case_holds(trial, rt, keys, &case)
        }
        _ => says_no(rt, "the file", "test"),
    }
}

// Whether a test has a case, by itself or usually, and each of them comes out as it says.
fn each_case_holds<T: Trial>(trial: &T, rt: &HostRuntime, keys: &[&str], test: &Case<'_>) -> bool {
    match listed(test, "case") {
        Ok(cases) if !cases.is_empty() => cases_hold(trial, rt, keys, test, cases),
        _ => is_wrong(rt, test, Wrong("case")),
    }
}

// Whether each of these cases does. Those after one that does not are tried too.
fn cases_hold<T: Trial>(
    trial: &T,
    rt: &HostRuntime,
    keys: &[&str],
    test: &Case<'_>,
    cases: &[Value],
) -> bool {
    let mut hold = true;
    for (index, own) in cases.iter().enumerate() {
        hold = case_holds(trial, rt, keys, test, index, own) && hold;
    }
    hold
}

// Whether a case does.
fn case_holds<T: Trial>(
    trial: &T,
    rt: &HostRuntime,
    keys: &[&str],
    test: &Case<'_>,
    index: usize,
    own: &Value,
) -> bool {
    match own {
        Value::Table(own) => {
            let case = Case {
                place: index.saturating_add(1),
                own,
                test: test.test,
                usual: test.usual,
                everywhere: test.everywhere,
            };
            has_only(rt, own, KEYS, keys) && comes_out(trial, rt, &case)
        }
        _ => is_wrong(rt, test, Wrong("case")),
    }
}

// Whether a case comes out as it says. That it does not is told where it is tried.
fn comes_out<T: Trial>(trial: &T, rt: &HostRuntime, case: &Case<'_>) -> bool {
    match trial.holds(rt, case) {
        Ok(holds) => holds,
        Err(wrong) => is_wrong(rt, case, wrong),
    }
}

// Tells what keeps a case from being tried, and says no.
fn is_wrong(rt: &HostRuntime, case: &Case<'_>, wrong: Wrong) -> bool {
    let name = word(case, "name").unwrap_or("");
    let place = case.place;
    let key = wrong.0;
    let _ = println!(rt; "{name}, case {place}: {key}");
    false
}
