//! Modules of runs of several articles: what one has exported the next may assume, and a file may be named twice.
use bridge_cases::all_hold;

const TESTS: &str = r#"
# The first article exports I = I under p and q, for the identity I of truth values. The second assumes it under q and p, and exports it
# under q, p and r.
[usual]
article.a = [
    "$version", "$unary_type", "0 def pop", "$var_y", "$y", "absTerm refl", "$p", "$q", "nil cons cons", "$equality", "$var_y",
    "$y", "absTerm appTerm", "$var_y", "$y", "absTerm appTerm thm",
]
article.b = [
    "$version", "$unary_type", "0 def pop", "$q", "$p", "nil cons cons", "$equality", "$var_z", "$z", "absTerm appTerm", "$var_z",
    "$z", "absTerm appTerm 1 def axiom", "$q", "$p", "$r", "nil cons cons cons 1 ref thm",
]
out = ["$prelude", "$lemmas", "$lines"]

[[test]]
name = "export_then_assumption"
begun = ["a", "b"]
texts.lines = '''
(; bound 76225024 ;)
thm T0 : proof (eq (arr bool bool) (v0 : term bool => v0) (v0 : term bool => v0)) := refl (arr bool bool) (v0 : term bool => v0).
(; bound 168196608 ;)
thm E0 : v0 : term bool -> v1 : term bool -> v2 : proof v0 -> v3 : proof v1 -> proof (eq (arr bool bool) (v4 : term bool => v4) (v4 : term bool => v4)) := v0 : term bool => v1 : term bool => v2 : proof v0 => v3 : proof v1 => T0.
(; bound 252435968 ;)
thm T2 : v0 : term bool -> v1 : term bool -> v2 : proof v0 -> v3 : proof v1 -> proof (eq (arr bool bool) (v4 : term bool => v4) (v4 : term bool => v4)) := v0 : term bool => v1 : term bool => v2 : proof v0 => v3 : proof v1 => E0 v1 v0 v3 v2.
(; bound 425259008 ;)
thm E1 : v0 : term bool -> v1 : term bool -> v2 : term bool -> v3 : proof v0 -> v4 : proof v1 -> v5 : proof v2 -> proof (eq (arr bool bool) (v6 : term bool => v6) (v6 : term bool => v6)) := v0 : term bool => v1 : term bool => v2 : term bool => v3 : proof v0 => v4 : proof v1 => v5 : proof v2 => T2 v0 v1 v3 v4.
'''
texts.counts = '''
articles 2
assumptions 0
exports 2
declarations 6
bounds 17138475520
'''
case = [
    { words = ["bridge", "translate", "a", "b"], note = "$counts" },
    { words = [["bridge", "verify", "a", "b"], ["bridge", "verify", "a", "--fast", "b"]], note = ["$counts", "verified\n"] },
]

[[test]]
name = "assumption_then_export"
begun = ["b", "a"]
texts.lines = '''
A0 : v0 : term bool -> v1 : term bool -> v2 : proof v0 -> v3 : proof v1 -> proof (eq (arr bool bool) (v4 : term bool => v4) (v4 : term bool => v4)).
(; bound 425259008 ;)
thm E0 : v0 : term bool -> v1 : term bool -> v2 : term bool -> v3 : proof v0 -> v4 : proof v1 -> v5 : proof v2 -> proof (eq (arr bool bool) (v6 : term bool => v6) (v6 : term bool => v6)) := v0 : term bool => v1 : term bool => v2 : term bool => v3 : proof v0 => v4 : proof v1 => v5 : proof v2 => A0 v0 v1 v3 v4.
(; bound 76225024 ;)
thm T2 : proof (eq (arr bool bool) (v0 : term bool => v0) (v0 : term bool => v0)) := refl (arr bool bool) (v0 : term bool => v0).
(; bound 168196608 ;)
thm E1 : v0 : term bool -> v1 : term bool -> v2 : proof v0 -> v3 : proof v1 -> proof (eq (arr bool bool) (v4 : term bool => v4) (v4 : term bool => v4)) := v0 : term bool => v1 : term bool => v2 : proof v0 => v3 : proof v1 => T2.
'''
texts.counts = '''
articles 2
assumptions 1
exports 2
declarations 6
bounds 16886039552
'''
case = [
    { words = ["bridge", "translate", "b", "a"], note = "$counts" },
    { words = ["bridge", "verify", "b", "a"], note = ["$counts", "verified\n"] },
]

[[test]]
name = "file_named_twice"
begun = ["a", "a"]
article.a = ["$reflexivity"]
texts.lines = '''
(; bound 13144256 ;)
thm T0 : v0 : term bool -> proof (eq bool v0 v0) := v0 : term bool => refl bool v0.
(; bound 10648000 ;)
thm E0 : v0 : term bool -> proof (eq bool v0 v0) := v0 : term bool => T0 v0.
'''
texts.counts = '''
articles 2
assumptions 0
exports 1
declarations 4
bounds 16240151168
'''
case = [
    { words = ["bridge", "translate", "a", "a"], note = "$counts" },
    { words = ["bridge", "verify", "a", "a"], note = ["$counts", "verified\n"] },
]

[[test]]
name = "weakened_sequent_named_twice"
begun = ["a", "a"]
article.a = ["$version", "$q", "nil cons", "$p", "axiom", "$q", "$r", "nil cons cons", "$p", "thm"]
texts.lines = '''
A0 : v0 : term bool -> v1 : term bool -> v2 : proof v0 -> proof v1.
(; bound 64000000 ;)
thm E0 : v0 : term bool -> v1 : term bool -> v2 : term bool -> v3 : proof v0 -> v4 : proof v1 -> proof v2 := v0 : term bool => v1 : term bool => v2 : term bool => v3 : proof v0 => v4 : proof v1 => A0 v0 v2 v3.
'''
texts.counts = '''
articles 2
assumptions 1
exports 1
declarations 4
bounds 16280358912
'''
case = [
    { words = ["bridge", "translate", "a", "a"], note = "$counts" },
    { words = ["bridge", "verify", "a", "a"], note = ["$counts", "verified\n"] },
]

# An article of version 6, and one of version 5 that defines a type operator and exports its second law.
[[test]]
name = "version_5_behind_version_6"
begun = ["a", "b"]
article.a = ["$reflexivity"]
article.b = [
    '"a" varType 0 def pop "one" "mk" "dest" "a" nil cons nil "r" 0 ref var', "$equality",
    '"r" 0 ref var varTerm appTerm "r" 0 ref var varTerm appTerm absTerm "r" 0 ref var varTerm appTerm axiom defineTypeOp',
    '"one" typeOp "a" varType nil cons opType 1 def pop nil', "$equals", '"r" 0 ref var', "$equality",
    '"r" 0 ref var varTerm appTerm "r" 0 ref var varTerm appTerm absTerm "r" 0 ref var varTerm appTerm appTerm', "$equality",
    '"dest" const "->" typeOp 1 ref 0 ref nil cons cons opType constTerm',
    '"mk" const "->" typeOp 0 ref 1 ref nil cons cons opType constTerm "r" 0 ref var varTerm appTerm appTerm appTerm',
    '"r" 0 ref var varTerm appTerm appTerm thm',
]
texts.lines = '''
(; bound 13144256 ;)
thm T0 : v0 : term bool -> proof (eq bool v0 v0) := v0 : term bool => refl bool v0.
(; bound 10648000 ;)
thm E0 : v0 : term bool -> proof (eq bool v0 v0) := v0 : term bool => T0 v0.
A0 : v0 : type -> v1 : term v0 -> proof ((v2 : term v0 => eq v0 v2 v2) v1).
def o_one : v0 : type -> type := v0 : type => sub v0 (v1 : term v0 => eq v0 v1 v1) (select v0 (v1 : term v0 => eq v0 v1 v1)) (A0 v0 (select v0 (v1 : term v0 => eq v0 v1 v1))).
def c_mk : v0 : type -> term (arr v0 (o_one v0)) := v0 : type => sub_abs v0 (v1 : term v0 => eq v0 v1 v1) (select v0 (v1 : term v0 => eq v0 v1 v1)) (A0 v0 (select v0 (v1 : term v0 => eq v0 v1 v1))).
def c_dest : v0 : type -> term (arr (o_one v0) v0) := v0 : type => sub_rep v0 (v1 : term v0 => eq v0 v1 v1) (select v0 (v1 : term v0 => eq v0 v1 v1)) (A0 v0 (select v0 (v1 : term v0 => eq v0 v1 v1))).
(; bound 13824000000 ;)
thm L4 : v0 : type -> v1 : term v0 -> proof (eq bool ((v2 : term v0 => eq v0 v2 v2) v1) (eq v0 (c_dest v0 (c_mk v0 v1)) v1)) := v0 : type => v1 : term v0 => sym bool (eq v0 (c_dest v0 (c_mk v0 v1)) v1) ((v2 : term v0 => eq v0 v2 v2) v1) (sub_rep_abs v0 (v2 : term v0 => eq v0 v2 v2) (select v0 (v2 : term v0 => eq v0 v2 v2)) (A0 v0 (select v0 (v2 : term v0 => eq v0 v2 v2))) v1).
(; bound 262144000 ;)
thm E1 : v0 : type -> v1 : term v0 -> proof (eq bool ((v2 : term v0 => eq v0 v2 v2) v1) (eq v0 (c_dest v0 (c_mk v0 v1)) v1)) := v0 : type => v1 : term v0 => L4 v0 v1.
'''
texts.counts = '''
articles 2
assumptions 1
exports 2
declarations 10
bounds 30326295168
'''
case = [
    { words = ["bridge", "translate", "a", "b"], note = "$counts" },
    { words = ["bridge", "verify", "a", "b"], note = ["$counts", "verified\n"] },
]
"#;

#[test]
fn runs(rt: HostRuntime) {
    assert!(rt; all_hold(&rt, TESTS));
}
