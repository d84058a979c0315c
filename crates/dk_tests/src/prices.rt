//! Prices of checks that were worked out by hand: enough is enough, and one step less is not.
use dk_cases::all_hold;

const TESTS: &str = r#"
[usual]
by = "check"

[[test]]
name = "declarations_have_these_prices"
comes = "Yes 0, Yes 7, Over 0"

[[test.case]]
texts.after = "x : type."
budgets = [1, 8, 0]

[[test.case]]
texts.after = "x : term bool."
budgets = [4, 11, 3]

[[test.case]]
texts.after = "def y : type := bool."
budgets = [3, 10, 2]

[[test.case]]
texts.after = "f : type -> type."
budgets = [3, 10, 2]

[[test.case]]
texts.after = "f : a : type -> term a."
budgets = [6, 13, 5]

[[test]]
name = "a_no_has_a_price"
comes = "No 0, Over 0"

[[test.case]]
texts.after = "x : proof bool."
budgets = [9, 8]

[[test.case]]
texts.after = "x : bool bool."
budgets = [2, 1]

[[test.case]]
texts.after = "x : term."
budgets = [1, 0]

[[test.case]]
texts.after = "def y : bool := bool."
budgets = [1, 0]
"#;

#[test]
fn prices(rt: HostRuntime) {
    assert!(rt; all_hold(&rt, TESTS));
}
