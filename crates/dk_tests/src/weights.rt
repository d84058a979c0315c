//! Weights and bounds of declarations.
use dk_cases::all_hold;

const TESTS: &str = r#"
[usual]
by = "weigh"

[[test]]
name = "weighs_lemmas_and_what_is_proved_by_reflexivity"

[[test.case]]
texts.after = '''
thm sym : v0 : type -> v1 : term v0 -> v2 : term v0 -> v3 : proof (eq v0 v1 v2) -> proof (eq v0 v2 v1) := v0 : type => v1 : term v0 => v2 : term v0 => v3 : proof (eq v0 v1 v2) => eq_mp (eq v0 v1 v1) (eq v0 v2 v1) (app_thm v0 bool (eq v0 v1) (eq v0 v2) v1 v1 (app_thm v0 (arr v0 bool) (eq v0) (eq v0) v1 v2 (refl (arr v0 (arr v0 bool)) (eq v0)) v3) (refl v0 v1)) (refl v0 v1).
thm trans : v0 : type -> v1 : term v0 -> v2 : term v0 -> v3 : term v0 -> v4 : proof (eq v0 v1 v2) -> v5 : proof (eq v0 v2 v3) -> proof (eq v0 v1 v3) := v0 : type => v1 : term v0 => v2 : term v0 => v3 : term v0 => v4 : proof (eq v0 v1 v2) => v5 : proof (eq v0 v2 v3) => eq_mp (eq v0 v1 v2) (eq v0 v1 v3) (app_thm v0 bool (eq v0 v1) (eq v0 v1) v2 v3 (refl (arr v0 bool) (eq v0 v1)) v5) v4.
thm T0 : v0 : term bool -> proof (eq bool v0 v0) := v0 : term bool => refl bool v0.
thm E0 : v0 : term bool -> proof (eq bool v0 v0) := v0 : term bool => T0 v0.
'''
comes = "552 10764582912 19501056, 440 5451776000 12390400, 59 13144256 222784, 55 10648000 193600"

# Each has its size, and the spread of each symbol in it: bool 1, term bool 2, arr a b 3, proof p 4, eq bool x y 12, and a declared one the
# size of its type.
[[test]]
name = "counts_the_spread_of_each_symbol"

[[test.case]]
texts.after = '''
b : type.
def f : type := arr bool b.
c : term bool.
p : proof c.
q : proof (eq bool c c).
e : term (arr bool bool).
def k : term (arr bool bool) := x : term bool => e x.
'''
comes = "2 512 256, 12 110592 9216, 6 13824 2304, 10 64000 6400, 32 2097152 65536, 14 175616 12544, 31 1906624 61504"

# A chain of definitions, each of the one before it twice, weighs no more than its text.
[[test]]
name = "weighs_a_doubled_definition_by_its_text"

[[test.case]]
texts.after = """
def d0 : type := bool. def d1 : type := arr d0 d0. def d2 : type := arr d1 d1. def d3 : type := arr d2 d2. \
def d4 : type := arr d3 d3. def d5 : type := arr d4 d4. def d6 : type := arr d5 d5. def d7 : type := arr d6 d6. \
def d8 : type := arr d7 d7. def d9 : type := arr d8 d8. def d10 : type := arr d9 d9. def d11 : type := arr d10 d10. \
def d12 : type := arr d11 d11. def d13 : type := arr d12 d12. def d14 : type := arr d13 d13. def d15 : type := arr d14 d14. \
def d16 : type := arr d15 d15. def d17 : type := arr d16 d16. def d18 : type := arr d17 d17. def d19 : type := arr d18 d18. \
def d20 : type := arr d19 d19. def d21 : type := arr d20 d20. def d22 : type := arr d21 d21. def d23 : type := arr d22 d22. \
def d24 : type := arr d23 d23. def d25 : type := arr d24 d24. def d26 : type := arr d25 d25. def d27 : type := arr d26 d26. \
def d28 : type := arr d27 d27. def d29 : type := arr d28 d28. def d30 : type := arr d29 d29. """
comes = ["4 4096 1024", { times = 30, part = ", 12 110592 9216" }]
"#;

#[test]
fn weights(rt: HostRuntime) {
    assert!(rt; all_hold(&rt, TESTS));
}
