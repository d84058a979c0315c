//! What is usual in all files of tests.

/// What a file doesn't say, and the prelude with which each module begins.
pub(crate) const USUAL: &str = r##"
text = ["$prelude", "$after"]
limits = ["free"]
pieces = [4096]
start = 1470
fails = 0

[texts]
after = ""
prelude = '''
type : Type.
bool : type.
ind : type.
arr : type -> type -> type.
def term : type -> Type.
[a, b] term (arr a b) --> term a -> term b.
eq : a : type -> term (arr a (arr a bool)).
select : a : type -> term (arr (arr a bool) a).
proof : term bool -> Type.
refl : a : type -> x : term a -> proof (eq a x x).
fun_ext : a : type -> b : type -> f : term (arr a b) -> g : term (arr a b) -> (x : term a -> proof (eq b (f x) (g x))) -> proof (eq (arr a b) f g).
app_thm : a : type -> b : type -> f : term (arr a b) -> g : term (arr a b) -> x : term a -> y : term a -> proof (eq (arr a b) f g) -> proof (eq a x y) -> proof (eq b (f x) (g y)).
prop_ext : p : term bool -> q : term bool -> (proof p -> proof q) -> (proof q -> proof p) -> proof (eq bool p q).
eq_mp : p : term bool -> q : term bool -> proof (eq bool p q) -> proof p -> proof q.
sub : a : type -> p : term (arr a bool) -> w : term a -> proof (p w) -> type.
sub_abs : a : type -> p : term (arr a bool) -> w : term a -> h : proof (p w) -> term (arr a (sub a p w h)).
sub_rep : a : type -> p : term (arr a bool) -> w : term a -> h : proof (p w) -> term (arr (sub a p w h) a).
sub_abs_rep : a : type -> p : term (arr a bool) -> w : term a -> h : proof (p w) -> x : term (sub a p w h) -> proof (eq (sub a p w h) (sub_abs a p w h (sub_rep a p w h x)) x).
sub_rep_abs : a : type -> p : term (arr a bool) -> w : term a -> h : proof (p w) -> x : term a -> proof (eq bool (eq a (sub_rep a p w h (sub_abs a p w h x)) x) (p x)).
'''
"##;
