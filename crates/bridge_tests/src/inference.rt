//! Modules of articles that derive their theorem, from assumptions or from nothing.
use bridge_cases::all_hold;

const TESTS: &str = r#"
# Each article is translated and verified, and both write the module with its lines behind the two lemmas, and tell its counts.
[usual]
out = ["$prelude", "$lemmas", "$lines"]
case = [
    { words = ["bridge", "translate", "a"], note = "$counts" },
    { words = [["bridge", "verify", "a"], ["bridge", "verify", "--fast", "a"]], note = ["$counts", "verified\n"] },
]
# The input n of type `a -> bool`, applied to the variable z of type a.
texts.n_of_z = '"n" const "->" typeOp "a" varType "bool" typeOp nil opType nil cons cons opType constTerm "z" "a" varType var varTerm appTerm'
# The input u of type `(bool -> bool) -> bool`.
texts.u = '"u" const "->" typeOp "->" typeOp "bool" typeOp nil opType "bool" typeOp nil opType nil cons cons opType "bool" typeOp nil opType nil cons cons opType constTerm'

[[test]]
name = "reflexivity"
article.a = ["$reflexivity"]
texts.lines = '''
(; bound 13144256 ;)
thm T0 : v0 : term bool -> proof (eq bool v0 v0) := v0 : term bool => refl bool v0.
(; bound 10648000 ;)
thm E0 : v0 : term bool -> proof (eq bool v0 v0) := v0 : term bool => T0 v0.
'''
texts.counts = '''
articles 1
assumptions 0
exports 1
declarations 4
bounds 16240151168
'''

# What is written at two places stands under a name of its own: equality of truth values.
[[test]]
name = "reflexivity_with_shared_abbreviations"
article.a = ["$reflexivity"]
texts.lines = '''
def X0 : term (arr bool (arr bool bool)) := eq bool.
(; bound 13144256 ;)
thm T0 : v0 : term bool -> proof (X0 v0 v0) := v0 : term bool => refl bool v0.
(; bound 10648000 ;)
thm E0 : v0 : term bool -> proof (X0 v0 v0) := v0 : term bool => T0 v0.
'''
texts.counts = '''
articles 1
assumptions 0
exports 1
declarations 5
bounds 16240151168
'''
case = [
    { words = [["bridge", "translate", "--share", "a"], ["bridge", "translate", "a", "--share"]], note = "$counts" },
    { words = [["bridge", "verify", "--share", "a"], ["bridge", "verify", "--fast", "a", "--share"]], note = ["$counts", "verified\n"] },
]

# Abbreviations of types and of terms, each before the first declaration that it is in, and written by those before it.
[[test]]
name = "abbreviations_in_abbreviations"
article.a = [
    '"=" const "->" typeOp "->" typeOp "bool" typeOp nil opType "bool" typeOp nil opType nil cons cons opType 0 def "->" typeOp 0',
    'ref "bool" typeOp nil opType nil cons cons opType 1 def nil cons cons opType 2 def constTerm "ns.v" 0 ref var 3 def varTerm 4',
    'def appTerm "k_1" const 0 ref constTerm 5 def appTerm "=" const 2 ref constTerm "y" 0 ref var varTerm appTerm "_0_0" "bool"',
    'typeOp nil opType 6 def var "_0_0" 6 ref var varTerm absTerm appTerm 7 def nil cons cons "ns.v" 6 ref var "ns.v" 6 ref var',
    'varTerm absTerm "=" const 2 ref constTerm 8 def "z" 6 ref var "z" "bool" typeOp nil opType var varTerm absTerm appTerm 9 def',
    '"_0_0" 6 ref var "_0_0" 6 ref var varTerm absTerm appTerm 10 def appTerm axiom 11 def pop "d5" "y" 0 ref var 12 def nil cons',
    'cons "d6" 3 ref nil cons cons nil cons cons 11 ref defineConstList 13 def pop pop -1 pop nil nil nil cons cons 13 ref subst 14',
    'def pop "=" const "->" typeOp "X0" typeOp "ind" typeOp nil opType nil cons opType "->" typeOp "X0" typeOp "ind" typeOp nil',
    'opType nil cons opType 6 ref nil cons cons opType 15 def nil cons cons opType constTerm 16 def "a..b" const "X0" typeOp "ind"',
    'typeOp nil opType nil cons opType constTerm appTerm "a" "X0" typeOp "ind" typeOp nil opType nil cons opType var varTerm',
    'appTerm assume 17 def pop "a" "X0" typeOp "ind" typeOp nil opType nil cons opType var 17 ref pop pop 11 ref 8 ref "y" "->"',
    'typeOp "bool" typeOp nil opType 6 ref nil cons cons opType var varTerm 9 def appTerm 18 def "y" 6 ref var "y" 6 ref var 19 def',
    'varTerm absTerm appTerm 8 ref 4 ref appTerm 5 ref appTerm 18 ref "ns.v" 6 ref var "ns.v" 6 ref var varTerm absTerm appTerm nil',
    'cons cons cons "_0_0" "bool" typeOp nil opType var "_0_0" 6 ref var varTerm absTerm 10 ref appTerm thm 13 ref "" const 6 ref',
    'constTerm 20 def nil cons "y" 6 ref var 19 ref varTerm absTerm 21 def 10 ref appTerm 22 def thm 14 ref nil 21 ref 10 ref',
    'appTerm thm 17 ref "ns.v" "->" typeOp "->" typeOp "A" varType 6 ref nil cons cons opType 23 def 6 ref nil cons cons opType 24',
    'def var 25 def varTerm "q" 23 ref var varTerm 26 def appTerm 27 def "d6" const 0 ref constTerm "=" "bool" typeOp nil opType',
    'var varTerm 28 def appTerm 16 ref "a..b" const "X0" typeOp "ind" typeOp nil opType nil cons opType constTerm appTerm 29 def',
    '"a" "X0" typeOp "ind" typeOp nil opType nil cons opType var 30 def varTerm appTerm nil cons cons cons 29 ref 30 ref varTerm',
    'appTerm thm',
]
texts.lines = '''
i_k_5f1 : v0 : type -> term v0.
def X0 : type := arr bool bool.
def X1 : term (arr X0 (arr X0 bool)) := eq X0.
def X2 : term X0 := i_k_5f1 X0.
def X3 : term X0 := v0 : term bool => v0.
def X4 : term (arr X0 bool) := X1 X3.
def X5 : term bool := X4 X3.
def X6 : term bool := X3 X5.
A0 : v0 : term X0 -> v1 : term X0 -> v2 : proof (X1 v0 X2) -> v3 : proof (X1 v1 X3) -> proof X6.
def c_d5 : term X0 := X3.
def c_d6 : term X0 := X2.
(; bound 1389928896 ;)
thm T1 : proof X6 := A0 c_d6 c_d5 (refl X0 X2) (refl X0 X3).
(; bound 51478848 ;)
thm T2 : proof X6 := T1.
t1_X0 : v0 : type -> type.
i_a____b : v0 : type -> term v0.
def X7 : type := t1_X0 ind.
def X8 : term (arr X7 (arr X7 bool)) := eq X7.
def X9 : term X7 := i_a____b X7.
def X10 : term (arr X7 bool) := X8 X9.
(; bound 292754944 ;)
thm T3 : v0 : term X7 -> v1 : proof (X10 v0) -> proof (X10 v0) := v0 : term X7 => v1 : proof (X10 v0) => v1.
(; bound 5268024000 ;)
thm E0 : v0 : term X0 -> v1 : term X0 -> v2 : proof (X1 v0 X3) -> v3 : proof (X1 v1 X2) -> proof X6 := v0 : term X0 => v1 : term X0 => v2 : proof (X1 v0 X3) => v3 : proof (X1 v1 X2) => A0 v1 v0 v3 v2.
i_ : v0 : type -> term v0.
def X11 : term bool := i_ bool.
(; bound 119095488 ;)
thm E1 : v0 : proof X11 -> proof X6 := v0 : proof X11 => T1.
(; bound 51478848 ;)
thm E2 : proof X6 := T2.
(; bound 2767587264 ;)
thm E3 : v0 : type -> v1 : term (arr (arr v0 bool) bool) -> v2 : term (arr v0 bool) -> v3 : term bool -> v4 : term X7 -> v5 : proof (v1 v2) -> v6 : proof (c_d6 v3) -> v7 : proof (X10 v4) -> proof (X10 v4) := v0 : type => v1 : term (arr (arr v0 bool) bool) => v2 : term (arr v0 bool) => v3 : term bool => v4 : term X7 => v5 : proof (v1 v2) => v6 : proof (c_d6 v3) => v7 : proof (X10 v4) => T3 v4 v7.
'''
texts.counts = '''
articles 1
assumptions 1
exports 4
declarations 28
bounds 26156707200
'''
case = [
    { words = ["bridge", "translate", "a", "--share"], note = "$counts" },
    { words = ["bridge", "verify", "--share", "a"], note = ["$counts", "verified\n"] },
]

[[test]]
name = "reflexivity_in_version_5"
article.a = ["$reflexivity_5"]
texts.lines = '''
(; bound 13144256 ;)
thm T0 : v0 : term bool -> proof (eq bool v0 v0) := v0 : term bool => refl bool v0.
(; bound 10648000 ;)
thm E0 : v0 : term bool -> proof (eq bool v0 v0) := v0 : term bool => T0 v0.
'''
texts.counts = '''
articles 1
assumptions 0
exports 1
declarations 4
bounds 16240151168
'''

[[test]]
name = "vanished_variable"
article.a = [
    "$version", "nil", "$equals", "$p", "appTerm", "$n_of_z", "appTerm axiom nil", "$equals", "$n_of_z", "appTerm", "$r",
    "appTerm axiom trans nil", "$equals", "$p", "appTerm", "$r", "appTerm thm",
]
texts.lines = '''
i_n : v0 : type -> term v0.
A0 : v0 : type -> v1 : term bool -> v2 : term v0 -> proof (eq bool v1 (i_n (arr v0 bool) v2)).
A1 : v0 : type -> v1 : term v0 -> v2 : term bool -> proof (eq bool (i_n (arr v0 bool) v1) v2).
(; bound 3767287616 ;)
thm T2 : v0 : term bool -> v1 : term bool -> proof (eq bool v0 v1) := v0 : term bool => v1 : term bool => trans bool v0 (i_n (arr bool bool) (select bool (v2 : term bool => eq bool v2 v2))) v1 (A0 bool v0 (select bool (v2 : term bool => eq bool v2 v2))) (A1 bool (select bool (v2 : term bool => eq bool v2 v2)) v1).
(; bound 25934336 ;)
thm E0 : v0 : term bool -> v1 : term bool -> proof (eq bool v0 v1) := v0 : term bool => v1 : term bool => T2 v0 v1.
'''
texts.counts = '''
articles 1
assumptions 2
exports 1
declarations 7
bounds 20009580864
'''

[[test]]
name = "types_put_first"
article.a = [
    "$version", 'nil "k" const "->" typeOp "a" varType', "$unary_type",
    'nil cons cons opType constTerm "x" "a" varType var varTerm appTerm', "$x", 'appTerm axiom 0 def pop "a"', "$bool",
    "nil cons cons nil cons", "$var_x", "$q", 'nil cons cons nil cons nil cons cons 0 ref subst nil "k" const', "$binary_type",
    "constTerm", "$q", "appTerm", "$q", "appTerm thm",
]
texts.lines = '''
i_k : v0 : type -> term v0.
A0 : v0 : type -> v1 : term v0 -> v2 : term bool -> proof (i_k (arr v0 (arr bool bool)) v1 v2).
(; bound 43614208 ;)
thm T1 : v0 : term bool -> proof (i_k (arr bool (arr bool bool)) v0 v0) := v0 : term bool => A0 bool v0 v0.
(; bound 31554496 ;)
thm E0 : v0 : term bool -> proof (i_k (arr bool (arr bool bool)) v0 v0) := v0 : term bool => T1 v0.
'''
texts.counts = '''
articles 1
assumptions 1
exports 1
declarations 6
bounds 16291527616
'''

[[test]]
name = "merged_hypotheses"
article.a = [
    "$version", "$p", "$q", "nil cons cons", "$r", "axiom 0 def pop nil", "$var_q", "$p",
    "nil cons cons nil cons nil cons cons 0 ref subst", "$p", "nil cons", "$r", "thm",
]
texts.lines = '''
A0 : v0 : term bool -> v1 : term bool -> v2 : term bool -> v3 : proof v0 -> v4 : proof v1 -> proof v2.
(; bound 32768000 ;)
thm T1 : v0 : term bool -> v1 : term bool -> v2 : proof v0 -> proof v1 := v0 : term bool => v1 : term bool => v2 : proof v0 => A0 v0 v0 v1 v2 v2.
(; bound 21952000 ;)
thm E0 : v0 : term bool -> v1 : term bool -> v2 : proof v0 -> proof v1 := v0 : term bool => v1 : term bool => v2 : proof v0 => T1 v0 v1 v2.
'''
texts.counts = '''
articles 1
assumptions 1
exports 1
declarations 5
bounds 16271078912
'''

[[test]]
name = "no_capture"
article.a = [
    "$version", "nil", "$u", "$var_y", "$x", "absTerm appTerm axiom 0 def pop nil", "$var_x", "$y",
    "nil cons cons nil cons nil cons cons 0 ref subst nil", "$u", "$var_z", "$y", "absTerm appTerm thm",
]
texts.lines = '''
i_u : v0 : type -> term v0.
A0 : v0 : term bool -> proof (i_u (arr (arr bool bool) bool) (v1 : term bool => v0)).
(; bound 40707584 ;)
thm T1 : v0 : term bool -> proof (i_u (arr (arr bool bool) bool) (v1 : term bool => v0)) := v0 : term bool => A0 v0.
(; bound 40707584 ;)
thm E0 : v0 : term bool -> proof (i_u (arr (arr bool bool) bool) (v1 : term bool => v0)) := v0 : term bool => T1 v0.
'''
texts.counts = '''
articles 1
assumptions 1
exports 1
declarations 6
bounds 16297774080
'''

[[test]]
name = "renamed_hypothesis"
article.a = [
    "$version", "$u", "$var_y", "$y", "absTerm appTerm nil cons", "$p", "axiom nil", "$u", "$var_z", "$z",
    "absTerm appTerm axiom deductAntisym nil", "$equals", "$p", "appTerm", "$u", "$var_y", "$y", "absTerm appTerm appTerm thm",
]
texts.lines = '''
i_u : v0 : type -> term v0.
A0 : v0 : term bool -> v1 : proof (i_u (arr (arr bool bool) bool) (v1 : term bool => v1)) -> proof v0.
A1 : proof (i_u (arr (arr bool bool) bool) (v0 : term bool => v0)).
(; bound 1906624000 ;)
thm T2 : v0 : term bool -> proof (eq bool v0 (i_u (arr (arr bool bool) bool) (v1 : term bool => v1))) := v0 : term bool => prop_ext v0 (i_u (arr (arr bool bool) bool) (v1 : term bool => v1)) (v1 : proof v0 => A1) (v1 : proof (i_u (arr (arr bool bool) bool) (v1 : term bool => v1)) => A0 v0 v1).
(; bound 87528384 ;)
thm E0 : v0 : term bool -> proof (eq bool v0 (i_u (arr (arr bool bool) bool) (v1 : term bool => v1))) := v0 : term bool => T2 v0.
'''
texts.counts = '''
articles 1
assumptions 2
exports 1
declarations 7
bounds 18210511296
'''

[[test]]
name = "one_head_step"
article.a = [
    "$version", "$var_x", "$var_y", "$y", "absTerm", "$x", "appTerm absTerm", "$p", "appTerm 0 def betaConv nil", "$equals",
    "0 ref appTerm", "$var_y", "$y", "absTerm", "$p", "appTerm appTerm thm",
]
texts.lines = '''
(; bound 78402752 ;)
thm T0 : v0 : term bool -> proof (eq bool ((v1 : term bool => (v2 : term bool => v2) v1) v0) ((v1 : term bool => v1) v0)) := v0 : term bool => refl bool ((v1 : term bool => v1) v0).
(; bound 64000000 ;)
thm E0 : v0 : term bool -> proof (eq bool ((v1 : term bool => (v2 : term bool => v2) v1) v0) ((v1 : term bool => v1) v0)) := v0 : term bool => T0 v0.
'''
texts.counts = '''
articles 1
assumptions 0
exports 1
declarations 4
bounds 16358761664
'''
"#;

#[test]
fn inference(rt: HostRuntime) {
    assert!(rt; all_hold(&rt, TESTS));
}
