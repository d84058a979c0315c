//! Texts that are refused: each fault by its name and place, where a text ends.
use dk_cases::all_hold;

const TESTS: &str = r#"
[usual]
by = "read"
limits = ["free", 4294967296]
pieces = [1, 2, 3, 4096]

[[test]]
name = "refuses_what_can_not_follow"

[[test.case]]
texts.after = "def q : type := bool"
comes = "BadText at 20"

[[test.case]]
texts.after = "(; a"
comes = "BadText at 0"

[[test.case]]
texts.after = "[] bool --> ind."
comes = "BadText at 0"

[[test.case]]
texts.after = "a : type => type."
comes = "BadText at 9"

[[test.case]]
texts.after = "thm q : type."
comes = "BadText at 12"

[[test]]
name = "refuses_unknown_names_by_name"

[[test.case]]
texts.after = "a : b"
comes = "UnknownName b at 4"

[[test.case]]
texts.after = "thm e : proof e := e."
comes = "UnknownName e at 14"

[[test.case]]
texts.after = "def q : b : type -> type := c."
comes = "UnknownName c at 28"

[[test.case]]
texts.after = "q : (x : type -> term x) -> term x."
comes = "UnknownName x at 33"

[[test]]
name = "refuses_names_that_are_declared_twice_by_name"

[[test.case]]
texts.after = "bool : type."
comes = "NameTwice bool at 0"

[[test.case]]
texts.after = "def eq_mp : type := bool."
comes = "NameTwice eq_mp at 4"

[[test.case]]
texts.after = "q : type. thm q : type := bool."
comes = "NameTwice q at 14"

[[test]]
name = "refuses_another_text_than_the_signature_at_its_first_other_byte"
start = 0

[[test.case]]
text = ""
comes = "NoPrelude at 0"

[[test.case]]
text = "Type : Type.\n"
comes = "NoPrelude at 0"

[[test.case]]
text = "type : type.\n"
comes = "NoPrelude at 7"

[[test.case]]
text = "type : Type.\r\n"
comes = "NoPrelude at 12"

[[test.case]]
# the signature without parts of types, and a declaration where the first of its further lines stands
text = ['''
type : Type.
bool : type.
ind : type.
arr : type -> type -> type.
def term : type -> Type.
[a, b] term (arr a b) --> term a -> term b.
eq : a : type -> term (arr a (arr a bool)).
select : a : type -> term (arr (arr a bool) a).
proof : term bool -> Type.
refl : a : type -> x : term a -> proof (eq a x x).
fun_ext : a : type -> b : type -> f : term (arr a b) -> g : term (arr a b) -> (x : term a -> proof (eq b (f x) (g x))) -> proof (eq (arr a b) f g).
app_thm : a : type -> b : type -> f : term (arr a b) -> g : term (arr a b) -> x : term a -> y : term a -> proof (eq (arr a b) f g) -> proof (eq a x y) -> proof (eq b (f x) (g y)).
prop_ext : p : term bool -> q : term bool -> (proof p -> proof q) -> (proof q -> proof p) -> proof (eq bool p q).
eq_mp : p : term bool -> q : term bool -> proof (eq bool p q) -> proof p -> proof q.
''', "x : type."]
comes = "NoPrelude at 832"

[[test]]
name = "refuses_a_part_of_the_signature_at_its_length"
limits = ["free"]
pieces = [4096]

[[test.case]]
by = "cuts"
text = "$prelude"
comes = "1470"
"#;

#[test]
fn refusals(rt: HostRuntime) {
    assert!(rt; all_hold(&rt, TESTS));
}
