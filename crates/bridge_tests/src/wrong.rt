//! Files of tests that don't hold: what a case says is looked at, and a file that says nothing is no file of tests.
use bridge_cases::all_hold;
use std::alloc::{AllocError, Global};

// What is usual in each of these files, for words that are no form.
const USUAL: &str = r#"
[usual]
words = ["bridge", "help"]
number = 2
note = "usage: bridge verify [--share] [--fast] FILE.. | translate [--share] FILE.. | check FILE [--budget N] [--fast] | decode FILE | show FILE.. | trial N | article FILE..\n"
"#;

// Behind that, a test that holds.
const RIGHT: &str = r#"
[[test]]
name = "right"
case = [
    { },
    { out_calls = 0 },
    { text.a = "$prelude" },
    { unsaid = "out" },
    { pieces = [1] },
    { begun = [] },
    { words = ["bridge", "decode", "a"], unsaid = "note", number = 3, begun = ["a"] },
]
"#;

// And what doesn't hold.
const WRONG: [&str; 27] = [
    "",
    "test",
    "[test]",
    "[[test]]\ncase = []",
    "[[test]]\nname = \"no case\"",
    "[[tests]]\ncase = [{ }]",
    "[[test]]\ncase = [{ numbr = 2 }]",
    "[[test]]\ncase = [{ number = 1 }]",
    "[[test]]\ncase = [{ number = \"2\" }]",
    "[[test]]\ncase = [{ }, { number = 1 }]",
    "[[test]]\ncase = [{ number = 1 }, { }]",
    "[[test]]\ncase = [{ out = \"a\" }]",
    "[[test]]\ncase = [{ note = \"\" }]",
    "[[test]]\ncase = [{ note = \"$nothing\" }]",
    "[[test]]\ncase = [{ out = { commands = \"\" } }]",
    "[[test]]\ncase = [{ cut = \"note\" }]",
    "[[test]]\ncase = [{ cut = \"out\" }]",
    "[[test]]\ncase = [{ out_calls = 1 }]",
    "[[test]]\ncase = [{ begun = \"a\" }]",
    "[[test]]\ncase = [{ begun = [\"a\"] }]",
    "[[test]]\ncase = [{ words = [\"bridge\", \"decode\", \"a\"], unsaid = \"note\", number = 3, begun = [] }]",
    "[[test]]\ncase = [{ words = [\"bridge\", \"decode\", \"a\"], unsaid = \"note\", number = 3, begun = [\"b\"] }]",
    "[[test]]\ncase = [{ note_fails = [1] }]",
    "[[test]]\ncase = [{ pieces = [0] }]",
    "[[test]]\ncase = [{ pieces = [] }]",
    "[[test]]\ncase = [{ words = [[\"bridge\", \"help\"], [\"bridge\", \"check\", \"a\"]] }]",
    "[[test]]\ncase = [{ by = \"trial\" }]",
];

// Whether these tests hold, behind what is usual.
fn is_held(rt: &HostRuntime, tests: &str) -> bool {
    match file(rt.alloc(), tests) {
        Ok(file) => {
            let held = all_hold(rt, file.as_str());
            drop(file);
            held
        }
        Err(_) => true,
    }
}

// The file with these tests.
fn file(alloc: Global, tests: &str) -> Result<String, AllocError> {
    let mut file = String::from_str(alloc, USUAL)?;
    file.push_str(tests)?;
    Ok(file)
}

// Whether none of the wrong ones holds.
fn none_is_held(rt: &HostRuntime) -> bool {
    for tests in WRONG {
        if is_held(rt, tests) {
            return false;
        }
    }
    true
}

#[test]
fn wrong(rt: HostRuntime) {
    assert!(rt; is_held(&rt, RIGHT));
    assert!(rt; none_is_held(&rt));
}
