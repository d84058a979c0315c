//! `check` and `decode` of a module that was changed behind its prelude and its two lemmas.
use bridge_cases::all_hold;

const TESTS: &str = r#"
[usual]
text.a = ["$prelude", "$lemmas", "$lines"]

# The bound in a comment is no part of the module.
[[test]]
name = "another_bound_in_a_comment"
texts.lines = '''
(; bound 13144256 ;)
thm T0 : v0 : term bool -> proof (eq bool v0 v0) := v0 : term bool => refl bool v0.
(; bound 10648001 ;)
thm E0 : v0 : term bool -> proof (eq bool v0 v0) := v0 : term bool => T0 v0.
'''
case = [
    { words = ["bridge", "check", "a"], out = "accepted 4, unproved 0\n" },
    { words = ["bridge", "decode", "a"], out = "E0: [] [x0:bool] {} |- (((=:(bool -> (bool -> bool))) x0) x0)\n" },
]

# The body of the first theorem behind the lemmas proves something else. No body is looked at by `decode`.
[[test]]
name = "another_rule_in_a_body"
texts.lines = '''
(; bound 13144256 ;)
thm T0 : v0 : term bool -> proof (eq bool v0 v0) := v0 : term bool => sym bool v0.
(; bound 10648000 ;)
thm E0 : v0 : term bool -> proof (eq bool v0 v0) := v0 : term bool => T0 v0.
'''
case = [
    { words = ["bridge", "check", "a"], number = 7, note = "declaration 2: ill typed\n" },
    { words = ["bridge", "decode", "a"], out = "E0: [] [x0:bool] {} |- (((=:(bool -> (bool -> bool))) x0) x0)\n" },
]

[[test]]
name = "another_number_of_an_export"
texts.lines = '''
(; bound 13144256 ;)
thm T0 : v0 : term bool -> proof (eq bool v0 v0) := v0 : term bool => refl bool v0.
(; bound 10648000 ;)
thm E1 : v0 : term bool -> proof (eq bool v0 v0) := v0 : term bool => T0 v0.
'''
case = [
    { words = ["bridge", "check", "a"], out = "accepted 4, unproved 0\n" },
    { words = ["bridge", "decode", "a"], out = "E1: [] [x0:bool] {} |- (((=:(bool -> (bool -> bool))) x0) x0)\n" },
]

# The body of the export names the theorem before it is declared.
[[test]]
name = "declarations_in_the_other_order"
number = 6
note = "byte 2372: UnknownName T0\n"
texts.lines = '''
(; bound 10648000 ;)
thm E0 : v0 : term bool -> proof (eq bool v0 v0) := v0 : term bool => T0 v0.
(; bound 13144256 ;)
thm T0 : v0 : term bool -> proof (eq bool v0 v0) := v0 : term bool => refl bool v0.
'''
case = [
    { words = ["bridge", "check", "a"] },
    { words = ["bridge", "decode", "a"] },
]
"#;

#[test]
fn changed_modules(rt: HostRuntime) {
    assert!(rt; all_hold(&rt, TESTS));
}
