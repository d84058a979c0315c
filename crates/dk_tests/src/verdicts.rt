//! Verdicts on modules.
use dk_cases::all_hold;

const TESTS: &str = r#"
[usual]
by = "verdict"

[[test]]
name = "symmetry_and_transitivity_are_accepted"
texts.after = '''
thm sym : a : type -> x : term a -> y : term a -> proof (eq a x y) -> proof (eq a y x) := a : type => x : term a => y : term a => h : proof (eq a x y) => eq_mp (eq a x x) (eq a y x) (app_thm a bool (eq a x) (eq a y) x x (app_thm a (arr a bool) (eq a) (eq a) x y (refl (arr a (arr a bool)) (eq a)) h) (refl a x)) (refl a x).
thm trans : a : type -> x : term a -> y : term a -> z : term a -> proof (eq a x y) -> proof (eq a y z) -> proof (eq a x z) := a : type => x : term a => y : term a => z : term a => h : proof (eq a x y) => k : proof (eq a y z) => eq_mp (eq a x y) (eq a x z) (app_thm a bool (eq a x) (eq a x) y z (refl (arr a bool) (eq a x)) k) h.'''

[[test.case]]
budgets = [10_764_582_912, 5_451_776_000]
comes = "Accepted"

[[test.case]]
budgets = [10_764_582_912, 3]
comes = "OverBudget 1"

# The budgets are 64 times the squares of the weights.
[[test.case]]
by = "fast"
budgets = [19_501_056, 12_390_400]
comes = "Accepted"

[[test]]
name = "a_check_without_rechecks_has_these_prices"
by = "fast"
case = [
    { texts.after = "x : type.", budgets = [1], comes = "Accepted" },
    { texts.after = "x : type.", budgets = [0], comes = "OverBudget 0" },
    { texts.after = "x : term bool.", budgets = [4], comes = "Accepted" },
    { texts.after = "x : term bool.", budgets = [3], comes = "OverBudget 0" },
    { texts.after = "def y : type := bool.", budgets = [3], comes = "Accepted" },
    { texts.after = "def y : type := bool.", budgets = [2], comes = "OverBudget 0" },
    { texts.after = "x : proof bool.", budgets = [5], comes = "IllTyped 0" },
    { texts.after = "x : proof bool.", budgets = [4], comes = "OverBudget 0" },
]

[[test]]
name = "a_theorem_does_not_unfold_and_a_definition_does"
budgets = [10_000, 10_000]

[[test.case]]
texts.after = '''
thm d : term bool := select bool (x : term bool => eq bool x x).
thm same : proof (eq bool d (select bool (x : term bool => eq bool x x))) := refl bool (select bool (x : term bool => eq bool x x)).'''
comes = "IllTyped 1"

[[test.case]]
texts.after = '''
def d : term bool := select bool (x : term bool => eq bool x x).
thm same : proof (eq bool d (select bool (x : term bool => eq bool x x))) := refl bool (select bool (x : term bool => eq bool x x)).'''
comes = "Accepted"

# Two steps a domain and one for the end; three an argument, and three for the symbol, the declared type and the conversion.
[[test]]
name = "chains_of_sixteen_thousand_are_checked"
text = [
    "$prelude", "f : type", { times = 16000, part = " -> type" }, ". def q : type := f", { times = 16000, part = " bool" }, ".",
]

[[test.case]]
budgets = [32_001, 48_003]
comes = "Accepted"

[[test.case]]
budgets = [32_000, 48_003]
comes = "OverBudget 0"

[[test.case]]
budgets = [32_001, 48_002]
comes = "OverBudget 1"

# A symbol whose type doubles itself so many times, and a definition as that symbol whose type does so too, by other names.
[[test]]
name = "what_doubles_itself_thirty_times_is_over_budget"

[[test.case]]
budgets = [1_000, 1_000, 1_000, 1_000, 1_000, 1_000, 1_000, 1_000, 1_000, 1_000]
texts.after = '''

def d : type -> type := a : type => a.
def dd : type -> type := a : type => arr (d a) (d a).
def ddd : type -> type := a : type => arr (dd a) (dd a).
def dddd : type -> type := a : type => arr (ddd a) (ddd a).
def e : type -> type := a : type => a.
def ee : type -> type := a : type => arr (e a) (e a).
def eee : type -> type := a : type => arr (ee a) (ee a).
def eeee : type -> type := a : type => arr (eee a) (eee a).
x : term (dddd bool).
def y : term (eeee bool) := x.'''
comes = "Accepted"

[[test.case]]
budgets = [
    100_000, 100_000, 100_000, 100_000, 100_000, 100_000, 100_000, 100_000, 100_000, 100_000, 100_000, 100_000, 100_000, 100_000,
    100_000, 100_000, 100_000, 100_000, 100_000, 100_000, 100_000, 100_000, 100_000, 100_000, 100_000, 100_000, 100_000, 100_000,
    100_000, 100_000, 100_000, 100_000, 100_000, 100_000, 100_000, 100_000, 100_000, 100_000, 100_000, 100_000, 100_000, 100_000,
    100_000, 100_000, 100_000, 100_000, 100_000, 100_000, 100_000, 100_000, 100_000, 100_000, 100_000, 100_000, 100_000, 100_000,
    100_000, 100_000, 100_000, 100_000, 100_000, 100_000, 100_000, 100_000,
]
texts.after = '''

def d : type -> type := a : type => a.
def dd : type -> type := a : type => arr (d a) (d a).
def ddd : type -> type := a : type => arr (dd a) (dd a).
def dddd : type -> type := a : type => arr (ddd a) (ddd a).
def ddddd : type -> type := a : type => arr (dddd a) (dddd a).
def dddddd : type -> type := a : type => arr (ddddd a) (ddddd a).
def ddddddd : type -> type := a : type => arr (dddddd a) (dddddd a).
def dddddddd : type -> type := a : type => arr (ddddddd a) (ddddddd a).
def ddddddddd : type -> type := a : type => arr (dddddddd a) (dddddddd a).
def dddddddddd : type -> type := a : type => arr (ddddddddd a) (ddddddddd a).
def ddddddddddd : type -> type := a : type => arr (dddddddddd a) (dddddddddd a).
def dddddddddddd : type -> type := a : type => arr (ddddddddddd a) (ddddddddddd a).
def ddddddddddddd : type -> type := a : type => arr (dddddddddddd a) (dddddddddddd a).
def dddddddddddddd : type -> type := a : type => arr (ddddddddddddd a) (ddddddddddddd a).
def ddddddddddddddd : type -> type := a : type => arr (dddddddddddddd a) (dddddddddddddd a).
def dddddddddddddddd : type -> type := a : type => arr (ddddddddddddddd a) (ddddddddddddddd a).
def ddddddddddddddddd : type -> type := a : type => arr (dddddddddddddddd a) (dddddddddddddddd a).
def dddddddddddddddddd : type -> type := a : type => arr (ddddddddddddddddd a) (ddddddddddddddddd a).
def ddddddddddddddddddd : type -> type := a : type => arr (dddddddddddddddddd a) (dddddddddddddddddd a).
def dddddddddddddddddddd : type -> type := a : type => arr (ddddddddddddddddddd a) (ddddddddddddddddddd a).
def ddddddddddddddddddddd : type -> type := a : type => arr (dddddddddddddddddddd a) (dddddddddddddddddddd a).
def dddddddddddddddddddddd : type -> type := a : type => arr (ddddddddddddddddddddd a) (ddddddddddddddddddddd a).
def ddddddddddddddddddddddd : type -> type := a : type => arr (dddddddddddddddddddddd a) (dddddddddddddddddddddd a).
def dddddddddddddddddddddddd : type -> type := a : type => arr (ddddddddddddddddddddddd a) (ddddddddddddddddddddddd a).
def ddddddddddddddddddddddddd : type -> type := a : type => arr (dddddddddddddddddddddddd a) (dddddddddddddddddddddddd a).
def dddddddddddddddddddddddddd : type -> type := a : type => arr (ddddddddddddddddddddddddd a) (ddddddddddddddddddddddddd a).
def ddddddddddddddddddddddddddd : type -> type := a : type => arr (dddddddddddddddddddddddddd a) (dddddddddddddddddddddddddd a).
def dddddddddddddddddddddddddddd : type -> type := a : type => arr (ddddddddddddddddddddddddddd a) (ddddddddddddddddddddddddddd a).
def ddddddddddddddddddddddddddddd : type -> type := a : type => arr (dddddddddddddddddddddddddddd a) (dddddddddddddddddddddddddddd a).
def dddddddddddddddddddddddddddddd : type -> type := a : type => arr (ddddddddddddddddddddddddddddd a) (ddddddddddddddddddddddddddddd a).
def ddddddddddddddddddddddddddddddd : type -> type := a : type => arr (dddddddddddddddddddddddddddddd a) (dddddddddddddddddddddddddddddd a).
def e : type -> type := a : type => a.
def ee : type -> type := a : type => arr (e a) (e a).
def eee : type -> type := a : type => arr (ee a) (ee a).
def eeee : type -> type := a : type => arr (eee a) (eee a).
def eeeee : type -> type := a : type => arr (eeee a) (eeee a).
def eeeeee : type -> type := a : type => arr (eeeee a) (eeeee a).
def eeeeeee : type -> type := a : type => arr (eeeeee a) (eeeeee a).
def eeeeeeee : type -> type := a : type => arr (eeeeeee a) (eeeeeee a).
def eeeeeeeee : type -> type := a : type => arr (eeeeeeee a) (eeeeeeee a).
def eeeeeeeeee : type -> type := a : type => arr (eeeeeeeee a) (eeeeeeeee a).
def eeeeeeeeeee : type -> type := a : type => arr (eeeeeeeeee a) (eeeeeeeeee a).
def eeeeeeeeeeee : type -> type := a : type => arr (eeeeeeeeeee a) (eeeeeeeeeee a).
def eeeeeeeeeeeee : type -> type := a : type => arr (eeeeeeeeeeee a) (eeeeeeeeeeee a).
def eeeeeeeeeeeeee : type -> type := a : type => arr (eeeeeeeeeeeee a) (eeeeeeeeeeeee a).
def eeeeeeeeeeeeeee : type -> type := a : type => arr (eeeeeeeeeeeeee a) (eeeeeeeeeeeeee a).
def eeeeeeeeeeeeeeee : type -> type := a : type => arr (eeeeeeeeeeeeeee a) (eeeeeeeeeeeeeee a).
def eeeeeeeeeeeeeeeee : type -> type := a : type => arr (eeeeeeeeeeeeeeee a) (eeeeeeeeeeeeeeee a).
def eeeeeeeeeeeeeeeeee : type -> type := a : type => arr (eeeeeeeeeeeeeeeee a) (eeeeeeeeeeeeeeeee a).
def eeeeeeeeeeeeeeeeeee : type -> type := a : type => arr (eeeeeeeeeeeeeeeeee a) (eeeeeeeeeeeeeeeeee a).
def eeeeeeeeeeeeeeeeeeee : type -> type := a : type => arr (eeeeeeeeeeeeeeeeeee a) (eeeeeeeeeeeeeeeeeee a).
def eeeeeeeeeeeeeeeeeeeee : type -> type := a : type => arr (eeeeeeeeeeeeeeeeeeee a) (eeeeeeeeeeeeeeeeeeee a).
def eeeeeeeeeeeeeeeeeeeeee : type -> type := a : type => arr (eeeeeeeeeeeeeeeeeeeee a) (eeeeeeeeeeeeeeeeeeeee a).
def eeeeeeeeeeeeeeeeeeeeeee : type -> type := a : type => arr (eeeeeeeeeeeeeeeeeeeeee a) (eeeeeeeeeeeeeeeeeeeeee a).
def eeeeeeeeeeeeeeeeeeeeeeee : type -> type := a : type => arr (eeeeeeeeeeeeeeeeeeeeeee a) (eeeeeeeeeeeeeeeeeeeeeee a).
def eeeeeeeeeeeeeeeeeeeeeeeee : type -> type := a : type => arr (eeeeeeeeeeeeeeeeeeeeeeee a) (eeeeeeeeeeeeeeeeeeeeeeee a).
def eeeeeeeeeeeeeeeeeeeeeeeeee : type -> type := a : type => arr (eeeeeeeeeeeeeeeeeeeeeeeee a) (eeeeeeeeeeeeeeeeeeeeeeeee a).
def eeeeeeeeeeeeeeeeeeeeeeeeeee : type -> type := a : type => arr (eeeeeeeeeeeeeeeeeeeeeeeeee a) (eeeeeeeeeeeeeeeeeeeeeeeeee a).
def eeeeeeeeeeeeeeeeeeeeeeeeeeee : type -> type := a : type => arr (eeeeeeeeeeeeeeeeeeeeeeeeeee a) (eeeeeeeeeeeeeeeeeeeeeeeeeee a).
def eeeeeeeeeeeeeeeeeeeeeeeeeeeee : type -> type := a : type => arr (eeeeeeeeeeeeeeeeeeeeeeeeeeee a) (eeeeeeeeeeeeeeeeeeeeeeeeeeee a).
def eeeeeeeeeeeeeeeeeeeeeeeeeeeeee : type -> type := a : type => arr (eeeeeeeeeeeeeeeeeeeeeeeeeeeee a) (eeeeeeeeeeeeeeeeeeeeeeeeeeeee a).
def eeeeeeeeeeeeeeeeeeeeeeeeeeeeeee : type -> type := a : type => arr (eeeeeeeeeeeeeeeeeeeeeeeeeeeeee a) (eeeeeeeeeeeeeeeeeeeeeeeeeeeeee a).
x : term (ddddddddddddddddddddddddddddddd bool).
def y : term (eeeeeeeeeeeeeeeeeeeeeeeeeeeeeee bool) := x.'''
comes = "OverBudget 63"
"#;

#[test]
fn verdicts(rt: HostRuntime) {
    assert!(rt; all_hold(&rt, TESTS));
}
