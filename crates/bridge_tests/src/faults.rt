//! Faults of the outside: a shelf or a sink that fails at some call.
use bridge_cases::all_hold;

const TESTS: &str = r#"
# Standard output holds less than the module, but from its beginning.
[usual]
pieces = [4096]
article.a = ["$reflexivity"]
out = ["$prelude", "$lemmas"]
cut = "out"

[[test]]
name = "answers_faults_of_the_shelf"
number = 3
note = "read fault\n"
case = [
    { words = ["bridge", "translate", "a"], shelf_fails = [2] },
    { words = ["bridge", "verify", "a"], shelf_fails = [2] },
    { words = ["bridge", "translate", "a", "a"], shelf_fails = [2], begun = ["a"] },
    { words = ["bridge", "verify", "a", "b"], shelf_fails = [2], begun = ["a"] },
    { words = ["bridge", "check", "a"], article = {}, text.a = ["$prelude", "$lemmas"], shelf_fails = [1], begun = ["a"] },
    { words = ["bridge", "check", "a"], article = {}, text.a = ["$prelude", "$lemmas"], shelf_fails = [2] },
    { words = ["bridge", "decode", "a"], article = {}, text.a = ["$prelude", "$lemmas"], shelf_fails = [2] },
    { words = ["bridge", "article", "a", "a"], shelf_fails = [2], begun = ["a"] },
    { words = ["bridge", "translate", "b"], shelf_fails = [9] },
    { words = ["bridge", "check", "b"], article = {}, text.a = ["$prelude", "$lemmas"], shelf_fails = [9] },
    { words = ["bridge", "decode", "b"], article = {}, text.a = ["$prelude", "$lemmas"], shelf_fails = [9] },
]

[[test]]
name = "answers_faults_of_the_sinks"
number = 4
case = [
    { words = ["bridge", "translate", "a"], out_fails = [3], note = "write fault\n" },
    { words = ["bridge", "verify", "a"], out_fails = [3], note = "write fault\n" },
    { words = ["bridge", "check", "a"], article = {}, text.a = ["$prelude", "$lemmas"], out_fails = [1], note = "write fault\n" },
    { words = ["bridge", "translate", "a"], out_fails = [1], note_fails = [1] },
    { words = ["bridge", "check", "a"], article = {}, text.a = ["$prelude", "$lemmas"], out_fails = [1], note_fails = [1] },
]
"#;

#[test]
fn faults(rt: HostRuntime) {
    assert!(rt; all_hold(&rt, TESTS));
}
