//! Types of variables in a context, of which the innermost comes first.
use dk_cases::all_hold;

const TESTS: &str = r#"
[usual]
by = "infer"
texts.inner = "def q : v0 : type -> v1 : term v0 -> term v0 := v0 : type => v1 : term v0 => v1."
texts.outer = "def q : v0 : type -> v1 : term v0 -> type := v0 : type => v1 : term v0 => v0."

[[test]]
name = "the_innermost_type_comes_first"
case = [
    { text = ["$prelude", "$inner"], budgets = [1, 0], comes = "declared, over" },
    { text = ["$prelude", "$outer"], budgets = [1], comes = "declared" },
    { text = ["$prelude", "$inner"], by = "loose", budgets = [1], comes = "none" },
]
"#;

#[test]
fn types(rt: HostRuntime) {
    assert!(rt; all_hold(&rt, TESTS));
}
