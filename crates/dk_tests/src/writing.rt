//! What is written of modules: whole texts, in which pieces a sink gets them, and what it holds where it fails.
use dk_cases::all_hold;

const TESTS: &str = r##"
[usual]
by = "write"
text = ["$prelude", "$after"]
comes = ["$prelude", "$after"]

[[test]]
name = "a_module_begins_with_the_prelude"
budgets = []

[[test.case]]

[[test.case]]
# a call for all lines
by = "pieces"
comes = "1470"

[[test.case]]
fails = 1
comes = "failed "

[[test.case]]
by = "discard"
comes = "written"

[[test]]
name = "lemmas_are_written"
budgets = [10764582912, 5451776000]
texts.sym = '''
(; bound 10764582912 ;)
thm sym : v0 : type -> v1 : term v0 -> v2 : term v0 -> v3 : proof (eq v0 v1 v2) -> proof (eq v0 v2 v1) := v0 : type => v1 : term v0 => v2 : term v0 => v3 : proof (eq v0 v1 v2) => eq_mp (eq v0 v1 v1) (eq v0 v2 v1) (app_thm v0 bool (eq v0 v1) (eq v0 v2) v1 v1 (app_thm v0 (arr v0 bool) (eq v0) (eq v0) v1 v2 (refl (arr v0 (arr v0 bool)) (eq v0)) v3) (refl v0 v1)) (refl v0 v1).
'''
texts.trans = '''
(; bound 5451776000 ;)
thm trans : v0 : type -> v1 : term v0 -> v2 : term v0 -> v3 : term v0 -> v4 : proof (eq v0 v1 v2) -> v5 : proof (eq v0 v2 v3) -> proof (eq v0 v1 v3) := v0 : type => v1 : term v0 => v2 : term v0 => v3 : term v0 => v4 : proof (eq v0 v1 v2) => v5 : proof (eq v0 v2 v3) => eq_mp (eq v0 v1 v2) (eq v0 v1 v3) (app_thm v0 bool (eq v0 v1) (eq v0 v1) v2 v3 (refl (arr v0 bool) (eq v0 v1)) v5) v4.
'''
text = ["$prelude", "$sym", "$trans"]

[[test.case]]
comes = ["$prelude", "$sym", "$trans"]

[[test.case]]
# the names of binders are the writer's own
text = [
    "$prelude", "thm sym : a : type -> x : term a -> y : term a -> h : proof (eq a x y) -> proof (eq a y x) := ",
    "a : type => x : term a => y : term a => h : proof (eq a x y) => eq_mp (eq a x x) (eq a y x) ",
    "(app_thm a bool (eq a x) (eq a y) x x (app_thm a (arr a bool) (eq a) (eq a) x y (refl (arr a (arr a bool)) (eq a)) h) ",
    "(refl a x)) (refl a x). ", "$trans",
]
comes = ["$prelude", "$sym", "$trans"]

[[test.case]]
by = "last"
comes = ["$prelude", "$trans"]

[[test]]
name = "deep_trees_are_written"
budgets = [0]

[[test.case]]
text = ["$prelude", "def q : type := bool", { times = 262143, part = " bool" }, ".\n"]
comes = ["$prelude", "def q : type := bool", { times = 262143, part = " bool" }, ".\n"]

[[test.case]]
text = [
    "$prelude", "def q : type := ", { times = 262141, part = "arr bool (" }, "arr bool bool", { times = 262141, part = ")" }, ".\n",
]
comes = [
    "$prelude", "def q : type := ", { times = 262141, part = "arr bool (" }, "arr bool bool", { times = 262141, part = ")" }, ".\n",
]

[[test]]
name = "many_words_are_written_at_once"
budgets = [0]
text = ["$prelude", "def q : type := bool", { times = 3000, part = " bool" }, ".\n"]

[[test.case]]
# the prelude, and the 15,022 bytes of the line
by = "pieces"
comes = "1470, 4096, 4096, 4096, 2734"

[[test.case]]
fails = 3
comes = ["failed ", "$prelude", "def q : type := bool", { times = 815, part = " bool" }, " "]
"##;

#[test]
fn writing(rt: HostRuntime) {
    assert!(rt; all_hold(&rt, TESTS));
}
