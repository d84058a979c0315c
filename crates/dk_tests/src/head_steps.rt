//! Head steps.
use dk_cases::all_hold;

const TESTS: &str = r##"
[usual]
by = "step"
text = ["$prelude", "$declarations", "def l : type := ", "$l", ". def r : type := ", "$r", "."]
# What the trees may mention. The reader doesn't ask for types.
texts.declarations = '''
a : type.
b : type.
p : term bool.
def fun : type := arr a b.
def again : type := fun.
def swap : type -> type -> type := x : type => y : type => arr y x.
def on : term bool -> term bool := x : term bool => x.
def mixed : type := x : type => y : term x => z : type => arr x z.
thm proved : type := arr a b.
'''

[[test]]
name = "goes_by_the_head"
comes = "to r"

[[test.case]]
# an abstraction takes its first argument alone
texts = { l = "(x : type => arr x x) bool", r = "arr bool bool" }

[[test.case]]
texts = { l = "(x : type => y : type => arr x y) bool ind", r = "(y : type => arr bool y) ind" }

[[test.case]]
# a definition takes an argument for each leading abstraction over `type`, and keeps the others
texts = { l = "fun", r = "arr a b" }

[[test.case]]
texts = { l = "again", r = "fun" }

[[test.case]]
texts = { l = "swap bool ind", r = "arr ind bool" }

[[test.case]]
texts = { l = "swap bool ind a b", r = "arr ind bool a b" }

[[test.case]]
texts = { l = "on", r = "x : term bool => x" }

[[test.case]]
texts = { l = "on p", r = "(x : term bool => x) p" }

[[test.case]]
texts = { l = "mixed bool", r = "y : term bool => z : type => arr bool z" }

[[test.case]]
texts = { l = "mixed bool p ind", r = "(y : term bool => z : type => arr bool z) p ind" }

[[test.case]]
# `term` of a type of functions
texts = { l = "term (arr a b)", r = "term a -> term b" }

[[test.case]]
texts = { l = "term (arr a (arr a b))", r = "term a -> term (arr a b)" }

[[test.case]]
texts = { l = "term (arr fun b)", r = "term fun -> term b" }

[[test]]
name = "some_trees_have_none"
comes = "none"

[[test.case]]
# too few arguments
texts = { l = "x : type => (y : type => y) x", r = "bool" }

[[test.case]]
texts = { l = "swap", r = "bool" }

[[test.case]]
texts = { l = "swap bool", r = "bool" }

[[test.case]]
texts = { l = "mixed", r = "bool" }

[[test.case]]
# a theorem, and symbols without a body
texts = { l = "proved", r = "bool" }

[[test.case]]
texts = { l = "proved bool", r = "bool" }

[[test.case]]
texts = { l = "a", r = "bool" }

[[test.case]]
texts = { l = "arr bool ind", r = "bool" }

[[test.case]]
texts = { l = "eq_mp", r = "bool" }

[[test.case]]
# `term` of what is not `arr` at two arguments, or with a further argument
texts = { l = "term", r = "bool" }

[[test.case]]
texts = { l = "term a", r = "bool" }

[[test.case]]
texts = { l = "term fun", r = "bool" }

[[test.case]]
texts = { l = "term (arr a)", r = "bool" }

[[test.case]]
texts = { l = "term (swap a b)", r = "bool" }

[[test.case]]
texts = { l = "term (arr a b a)", r = "bool" }

[[test.case]]
texts = { l = "term (arr a b) p", r = "bool" }

[[test.case]]
# a step elsewhere than at the head
texts = { l = "arr fun ((x : type => x) bool)", r = "bool" }

[[test.case]]
texts = { l = "term (arr a b) -> fun", r = "bool" }

[[test.case]]
texts = { l = "Type", r = "bool" }
"##;

#[test]
fn head_steps(rt: HostRuntime) {
    assert!(rt; all_hold(&rt, TESTS));
}
