//! Checks of modules in files in memory: what is accepted, what is refused, and within which budget.
use bridge_cases::all_hold;

const TESTS: &str = r#"
[usual]
words = ["bridge", "check", "a"]
text.a = ["$prelude", "$lines"]
begun = ["a"]
# Two declarations of which the second is typed only where the first is unfolded; and the same with a theorem, which is never unfolded.
texts.unfolded = '''
def d : term bool := select bool (x : term bool => eq bool x x).
thm bad : proof (eq bool d (select bool (x : term bool => eq bool x x))) := refl bool (select bool (x : term bool => eq bool x x)).
'''
texts.not_unfolded = '''
thm d : term bool := select bool (x : term bool => eq bool x x).
thm bad : proof (eq bool d (select bool (x : term bool => eq bool x x))) := refl bool (select bool (x : term bool => eq bool x x)).
'''

[[test]]
name = "accepts_what_is_well_typed"

[[test.case]]
texts.lines = ""
out = "accepted 0, unproved 0\n"

[[test.case]]
words = ["bridge", "check", "a", "--budget", "18446744073709551615"]
texts.lines = "x : type."
out = "accepted 1, unproved 1\n"

[[test.case]]
text.a = ["$prelude", "$unfolded"]
out = "accepted 2, unproved 0\n"

[[test]]
name = "accepts_within_a_budget"

[[test.case]]
words = ["bridge", "check", "a", "--budget", "1"]
texts.lines = "x : type."
out = "accepted 1, unproved 1\n"

[[test.case]]
words = ["bridge", "check", "--budget", "4", "a"]
texts.lines = "x : term bool."
out = "accepted 1, unproved 1\n"

[[test.case]]
words = ["bridge", "check", "a", "--budget=3"]
texts.lines = "def y : type := bool."
out = "accepted 1, unproved 0\n"

[[test.case]]
words = ["bridge", "check", "a", "--budget=4"]
texts.lines = "x : term bool. y : term bool."
out = "accepted 2, unproved 2\n"

# Without rechecks of sorts the prices are 1, 4 and 3 too, and that of a no 5.
[[test]]
name = "accepts_by_a_fast_check"

[[test.case]]
words = ["bridge", "check", "--fast", "a"]
text.a = ["$prelude", "$unfolded"]
out = "accepted 2, unproved 0\n"

[[test.case]]
words = [["bridge", "check", "--fast", "a", "--budget", "4"], ["bridge", "check", "--budget=4", "a", "--fast"]]
texts.lines = "x : term bool. y : term bool."
out = "accepted 2, unproved 2\n"

[[test.case]]
words = ["bridge", "check", "a", "--budget", "3", "--fast"]
texts.lines = "x : term bool."
number = 8
note = "declaration 0: over budget\n"

[[test.case]]
words = ["bridge", "check", "--fast", "a"]
text.a = ["$prelude", "$not_unfolded"]
number = 7
note = "declaration 1: ill typed\n"

[[test.case]]
words = ["bridge", "check", "--budget=5", "--fast", "a"]
texts.lines = "x : proof bool."
number = 7
note = "declaration 0: ill typed\n"

[[test]]
name = "stops_at_the_budget"

[[test.case]]
words = ["bridge", "check", "--budget=3", "a"]
texts.lines = "x : term bool."
number = 8
note = "declaration 0: over budget\n"

[[test.case]]
words = ["bridge", "check", "a", "--budget=2"]
texts.lines = "def y : type := bool."
number = 8
note = "declaration 0: over budget\n"

[[test.case]]
words = ["bridge", "check", "--budget=3", "a"]
texts.lines = "x : type. y : term bool."
number = 8
note = "declaration 1: over budget\n"

[[test.case]]
words = ["bridge", "check", "a", "--budget", "1"]
text.a = ["$prelude", "$unfolded"]
number = 8
note = "declaration 0: over budget\n"

[[test.case]]
words = ["bridge", "check", "a", "--budget", "1"]
text.a = ["$prelude", "$not_unfolded"]
number = 8
note = "declaration 0: over budget\n"

# The lemmas with which each translation begins.
[[test.case]]
words = ["bridge", "check", "a", "--budget=50"]
text.a = ["$prelude", "$lemmas"]
number = 8
note = "declaration 0: over budget\n"

[[test]]
name = "refuses_what_is_ill_typed"

[[test.case]]
texts.lines = "x : proof bool."
number = 7
note = "declaration 0: ill typed\n"

[[test.case]]
text.a = ["$prelude", "$not_unfolded"]
number = 7
note = "declaration 1: ill typed\n"

[[test]]
name = "refuses_what_reads_as_no_module"

[[test.case]]
texts.lines = "thm e : proof e := e."
number = 6
note = "byte 1484: UnknownName e\n"

[[test.case]]
texts.lines = "bool : type."
number = 6
note = "byte 1470: NameTwice bool\n"

[[test.case]]
texts.lines = "def q : type := bool"
number = 6
note = "byte 1490: BadText\n"

[[test.case]]
texts.lines = "(; a"
number = 6
note = "byte 1470: BadText\n"

# A prelude that ends before the symbols of parts, and what followed there.
[[test.case]]
text.a = ["$prelude_without_parts", "$lemmas"]
texts.prelude_without_parts = '''
type : Type.
bool : type.
ind : type.
arr : type -> type -> type.
def term : type -> Type.
[a, b] term (arr a b) --> term a -> term b.
eq : a : type -> term (arr a (arr a bool)).
select : a : type -> term (arr (arr a bool) a).
proof : term bool -> Type.
refl : a : type -> x : term a -> proof (eq a x x).
fun_ext : a : type -> b : type -> f : term (arr a b) -> g : term (arr a b) -> (x : term a -> proof (eq b (f x) (g x))) -> proof (eq (arr a b) f g).
app_thm : a : type -> b : type -> f : term (arr a b) -> g : term (arr a b) -> x : term a -> y : term a -> proof (eq (arr a b) f g) -> proof (eq a x y) -> proof (eq b (f x) (g y)).
prop_ext : p : term bool -> q : term bool -> (proof p -> proof q) -> (proof q -> proof p) -> proof (eq bool p q).
eq_mp : p : term bool -> q : term bool -> proof (eq bool p q) -> proof p -> proof q.
'''
number = 6
note = "byte 832: NoPrelude\n"

# What translations wrote: the module of reflexivity, and that of an article with two constants whose names differ by a backslash alone.
[[test]]
name = "accepts_what_translations_write"

[[test.case]]
text.a = ["$prelude", "$lemmas", "$theorems"]
out = "accepted 4, unproved 0\n"

[[test.case]]
text.a = ["$prelude", "$lemmas", "$names"]
texts.names = '''
i_a_2eb__c : v0 : type -> term v0.
i_a__b__c : v0 : type -> term v0.
A0 : proof (eq bool (i_a_2eb__c bool) (i_a__b__c bool)).
(; bound 884736 ;)
thm E0 : proof (eq bool (i_a_2eb__c bool) (i_a__b__c bool)) := A0.
'''
out = "accepted 6, unproved 3\n"

# The module of a type definition from an assumption, which alone stays unproved; and one in which the type is defined by another predicate
# than its theorem says of its member.
[[test]]
name = "checks_type_definitions"
texts.assumed = "A0 : v0 : type -> v1 : type -> v2 : term (arr v0 v1) -> proof ((v3 : term (arr v0 v1) => eq (arr v0 v1) v3 v3) v2)."
texts.defined = '''
def o_two : v0 : type -> v1 : type -> type := v0 : type => v1 : type => sub (arr v1 v0) (v2 : term (arr v1 v0) => eq (arr v1 v0) v2 v2) (select (arr v1 v0) (v2 : term (arr v1 v0) => eq (arr v1 v0) v2 v2)) (A0 v1 v0 (select (arr v1 v0) (v2 : term (arr v1 v0) => eq (arr v1 v0) v2 v2))).
def c_mk : v0 : type -> v1 : type -> term (arr (arr v0 v1) (o_two v1 v0)) := v0 : type => v1 : type => sub_abs (arr v0 v1) (v2 : term (arr v0 v1) => eq (arr v0 v1) v2 v2) (select (arr v0 v1) (v2 : term (arr v0 v1) => eq (arr v0 v1) v2 v2)) (A0 v0 v1 (select (arr v0 v1) (v2 : term (arr v0 v1) => eq (arr v0 v1) v2 v2))).
def c_dest : v0 : type -> v1 : type -> term (arr (o_two v0 v1) (arr v1 v0)) := v0 : type => v1 : type => sub_rep (arr v1 v0) (v2 : term (arr v1 v0) => eq (arr v1 v0) v2 v2) (select (arr v1 v0) (v2 : term (arr v1 v0) => eq (arr v1 v0) v2 v2)) (A0 v1 v0 (select (arr v1 v0) (v2 : term (arr v1 v0) => eq (arr v1 v0) v2 v2))).
'''
texts.law = '''
thm L1 : v0 : type -> v1 : type -> proof (eq (arr (o_two v0 v1) (o_two v0 v1)) (v2 : term (o_two v0 v1) => c_mk v1 v0 (c_dest v0 v1 v2)) (v2 : term (o_two v0 v1) => v2)) := v0 : type => v1 : type => fun_ext (o_two v0 v1) (o_two v0 v1) (v2 : term (o_two v0 v1) => c_mk v1 v0 (c_dest v0 v1 v2)) (v2 : term (o_two v0 v1) => v2) (v2 : term (o_two v0 v1) => sub_abs_rep (arr v1 v0) (v3 : term (arr v1 v0) => eq (arr v1 v0) v3 v3) (select (arr v1 v0) (v3 : term (arr v1 v0) => eq (arr v1 v0) v3 v3)) (A0 v1 v0 (select (arr v1 v0) (v3 : term (arr v1 v0) => eq (arr v1 v0) v3 v3))) v2).
thm E0 : v0 : type -> v1 : type -> proof (eq (arr (o_two v0 v1) (o_two v0 v1)) (v2 : term (o_two v0 v1) => c_mk v1 v0 (c_dest v0 v1 v2)) (v2 : term (o_two v0 v1) => v2)) := v0 : type => v1 : type => L1 v0 v1.
'''

[[test.case]]
text.a = ["$prelude", "$lemmas", "$assumed", "$defined", "$law"]
out = "accepted 8, unproved 1\n"

[[test.case]]
text.a = ["$prelude", "$assumed", "def o_two : v0 : type -> v1 : type -> type := v0 : type => v1 : type => sub (arr v1 v0) (v2 : term (arr v1 v0) => eq bool (eq (arr v1 v0) v2 v2) (eq (arr v1 v0) v2 v2)) (select (arr v1 v0) (v2 : term (arr v1 v0) => eq (arr v1 v0) v2 v2)) (A0 v1 v0 (select (arr v1 v0) (v2 : term (arr v1 v0) => eq (arr v1 v0) v2 v2)))."]
number = 7
note = "declaration 1: ill typed\n"

[[test]]
name = "checks_by_a_call_of_its_own"
pieces = [4096]

[[test.case]]
by = "check"
words = ["a"]
budget = 100000000
text.a = ["$prelude", "$lemmas"]
out = "accepted 2, unproved 0\n"
"#;

#[test]
fn checks(rt: HostRuntime) {
    assert!(rt; all_hold(&rt, TESTS));
}
