//! Conversion, its answers and its prices.
use dk_cases::all_hold;

const TESTS: &str = r##"
[usual]
by = "convert"
text = ["$prelude", "$declarations", "def l : type := ", "$l", ". def r : type := ", "$r", "."]
# What the trees may mention. The reader doesn't ask for types.
texts.declarations = '''
a : type.
b : type.
p : term bool.
def fun : type := arr a b.
def again : type := fun.
def swap : type -> type -> type := x : type => y : type => arr y x.
def on : term bool -> term bool := x : term bool => x.
def mixed : type := x : type => y : term x => z : type => arr x z.
thm proved : type := arr a b.
'''

[[test]]
name = "says_yes_at_its_price"
comes = "Yes 0, Yes 5, Over 0"

[[test.case]]
# what is identical is not unfolded
texts = { l = "fun", r = "fun" }
budgets = [1, 6, 0]

[[test.case]]
texts = { l = "arr again fun", r = "arr again fun" }
budgets = [1, 6, 0]

[[test.case]]
# the expected tree steps before the found one
texts = { l = "fun", r = "arr a b" }
budgets = [2, 7, 1]

[[test.case]]
texts = { l = "arr a b", r = "fun" }
budgets = [2, 7, 1]

[[test.case]]
texts = { l = "again", r = "fun" }
budgets = [2, 7, 1]

[[test.case]]
texts = { l = "fun", r = "again" }
budgets = [4, 9, 3]

[[test.case]]
texts = { l = "again", r = "(x : type => x) again" }
budgets = [6, 11, 5]

[[test.case]]
texts = { l = "swap b a", r = "fun" }
budgets = [3, 8, 2]

[[test.case]]
texts = { l = "term (arr a b)", r = "term a -> term b" }
budgets = [2, 7, 1]

[[test.case]]
texts = { l = "term a -> term b", r = "term (arr a b)" }
budgets = [2, 7, 1]

[[test.case]]
# parts: a turn for the whole, and then the first part's and the second's
texts = { l = "arr fun ind", r = "arr (arr a b) ind" }
budgets = [6, 11, 5]

[[test.case]]
texts = { l = "arr ind fun", r = "arr ind (arr a b)" }
budgets = [4, 9, 3]

[[test.case]]
texts = { l = "term a -> term (arr a b)", r = "term a -> term a -> term b" }
budgets = [4, 9, 3]

[[test.case]]
texts = { l = "x : type => (y : type => y) x", r = "x : type => x" }
budgets = [4, 9, 3]

[[test.case]]
texts = { l = "x : fun => x", r = "x : arr a b => x" }
budgets = [4, 9, 3]

[[test]]
name = "says_no_at_its_price"
comes = "No 0, No 5, Over 0"

[[test.case]]
texts = { l = "a", r = "b" }
budgets = [1, 6, 0]

[[test.case]]
texts = { l = "Type", r = "bool" }
budgets = [1, 6, 0]

[[test.case]]
texts = { l = "x : type => x", r = "type -> type" }
budgets = [1, 6, 0]

[[test.case]]
# a theorem doesn't unfold
texts = { l = "proved", r = "arr a b" }
budgets = [1, 6, 0]

[[test.case]]
# what is not literally a type of functions
texts = { l = "term fun", r = "term a -> term b" }
budgets = [1, 6, 0]

[[test.case]]
texts = { l = "term fun", r = "term (arr a b)" }
budgets = [2, 7, 1]

[[test.case]]
# where the first parts differ, the second are not compared
texts = { l = "arr fun", r = "eq (arr a b)" }
budgets = [2, 7, 1]

[[test.case]]
texts = { l = "arr a b", r = "arr a ind" }
budgets = [3, 8, 2]

[[test.case]]
texts = { l = "arr a fun", r = "arr a (arr b b)" }
budgets = [7, 12, 6]

[[test.case]]
texts = { l = "x : a => fun", r = "x : a => x" }
budgets = [4, 9, 3]

[[test]]
name = "is_over_before_the_first_turn_without_a_step"

[[test.case]]
texts = { l = "bool", r = "bool" }
budgets = [0]
comes = "Over 0"
"##;

#[test]
fn conversions(rt: HostRuntime) {
    assert!(rt; all_hold(&rt, TESTS));
}
