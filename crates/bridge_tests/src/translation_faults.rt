//! Faults of the outside: a file that isn't there, and standard output or standard error that fails at some call.
use bridge_cases::all_hold;

const TESTS: &str = r#"
# An article that is accepted, and one that is refused.
[usual]
article.a = ["$reflexivity"]
article.b = ["$version", "-"]

[[test]]
name = "absent_file"
case = [
    { words = ["bridge", "translate", "c"], number = 3, note = "read fault\n", begun = ["c"] },
    { words = ["bridge", "verify", "c"], number = 3, note = "read fault\n", begun = ["c"] },
    { words = ["bridge", "translate", "a", "c"], number = 3, note = "read fault\n", begun = ["a", "c"] },
    { words = ["bridge", "verify", "a", "c"], number = 3, note = "read fault\n", begun = ["a", "c"] },
    { words = ["bridge", "verify", "b", "c"], number = 1, note = "article 1 line 3: BadLine (1)\n", begun = ["b"] },
]

# A call for the prelude, and one for each declaration.
[[test]]
name = "output_that_fails_while_translated"
pieces = [4096]
words = ["bridge", "translate", "a"]
out = ["$prelude", "$lemmas", "$theorems"]
case = [
    { out_calls = 5, note = "$counts" },
    { out_fails = [1], cut = "out", number = 4, note = "write fault\n" },
    { out_fails = [2], cut = "out", number = 4, note = "write fault\n" },
    { out_fails = [3], cut = "out", number = 4, note = "write fault\n" },
    { out_fails = [4], cut = "out", number = 4, note = "write fault\n" },
    { out_fails = [5], cut = "out", number = 4, note = "write fault\n" },
]
texts.counts = '''
articles 1
assumptions 0
exports 1
declarations 4
bounds 16240151168
'''

[[test]]
name = "output_that_fails_while_verified"
pieces = [4096]
words = ["bridge", "verify", "a"]
out = ["$prelude", "$lemmas", "$theorems"]
case = [
    { out_calls = 5, note = "$counts" },
    { out_fails = [1], cut = "out", number = 4, note = "write fault\n" },
    { out_fails = [2], cut = "out", number = 4, note = "write fault\n" },
    { out_fails = [3], cut = "out", number = 4, note = "write fault\n" },
    { out_fails = [4], cut = "out", number = 4, note = "write fault\n" },
    { out_fails = [5], cut = "out", number = 4, note = "write fault\n" },
]
texts.counts = '''
articles 1
assumptions 0
exports 1
declarations 4
bounds 16240151168
verified
'''

# The whole module is written already.
[[test]]
name = "note_that_fails"
pieces = [4096]
words = ["bridge", "verify", "a"]
number = 4
out = ["$prelude", "$lemmas", "$theorems"]
cut = "note"
note = '''
articles 1
assumptions 0
exports 1
declarations 4
bounds 16240151168
verified
'''
case = [
    { note_fails = [1] },
    { note_fails = [2] },
    { note_fails = [3] },
    { note_fails = [4] },
    { note_fails = [5] },
    { note_fails = [6] },
]
"#;

#[test]
fn faults(rt: HostRuntime) {
    assert!(rt; all_hold(&rt, TESTS));
}
