//! Modules of articles that define constants, lists of constants and type operators.
use bridge_cases::all_hold;

const TESTS: &str = r#"
# Each article is translated and verified, and both write the module with its lines behind the two lemmas, and tell its counts.
[usual]
out = ["$prelude", "$lemmas", "$lines"]
case = [
    { words = ["bridge", "translate", "a"], note = "$counts" },
    { words = ["bridge", "verify", "a"], note = ["$counts", "verified\n"] },
]
# The rest of |- (\r. r = r) g over the type under 0, and of the definition of a type operator by it.
texts.witness = '"r" 0 ref var varTerm appTerm "r" 0 ref var varTerm appTerm absTerm "g" 0 ref var varTerm appTerm axiom defineTypeOp'

[[test]]
name = "newer_constant"
article.a = [
    "$version", "$unary_type", '0 def pop "c"', "$identity", 'defineConst pop pop "d" "c" const 0 ref constTerm defineConst nil',
    "$equality", '"d" const 0 ref constTerm appTerm "c" const 0 ref constTerm appTerm thm',
]
texts.lines = '''
def c_c : term (arr bool bool) := v0 : term bool => v0.
def c_d : term (arr bool bool) := c_c.
(; bound 60236288 ;)
thm T1 : proof (eq (arr bool bool) c_d c_c) := refl (arr bool bool) c_c.
(; bound 21952000 ;)
thm E0 : proof (eq (arr bool bool) c_d c_c) := T1.
'''
texts.counts = '''
articles 1
assumptions 0
exports 1
declarations 6
bounds 16298547200
'''

[[test]]
name = "listed_constants"
article.a = [
    "$version", "$unary_type", "0 def pop", "$equality", '"v" 0 ref var varTerm appTerm', "$identity", "appTerm 1 def pop",
    "$equality", '"w" 0 ref var varTerm appTerm', "$identity", "appTerm 2 def pop",
    '"c" "v" 0 ref var nil cons cons "d" "w" 0 ref var nil cons cons nil cons cons',
    "1 ref 2 ref nil cons cons 1 ref axiom defineConstList nil", "$equality", '"c" const 0 ref constTerm appTerm', "$identity",
    "appTerm thm",
]
texts.lines = '''
A0 : v0 : term (arr bool bool) -> v1 : term (arr bool bool) -> v2 : proof (eq (arr bool bool) v0 (v2 : term bool => v2)) -> v3 : proof (eq (arr bool bool) v1 (v3 : term bool => v3)) -> proof (eq (arr bool bool) v0 (v4 : term bool => v4)).
def c_c : term (arr bool bool) := v0 : term bool => v0.
def c_d : term (arr bool bool) := v0 : term bool => v0.
(; bound 907039232 ;)
thm T1 : proof (eq (arr bool bool) c_c (v0 : term bool => v0)) := A0 c_c c_d (refl (arr bool bool) (v0 : term bool => v0)) (refl (arr bool bool) (v0 : term bool => v0)).
(; bound 25934336 ;)
thm E0 : proof (eq (arr bool bool) c_c (v0 : term bool => v0)) := T1.
'''
texts.counts = '''
articles 1
assumptions 1
exports 1
declarations 7
bounds 17149332480
'''

[[test]]
name = "type_definition"
article.a = [
    "$version", '"->" typeOp "a" varType "b" varType nil cons cons opType 0 def pop',
    '"two" "mk" "dest" "b" "a" nil cons cons nil "r" 0 ref var', "$equality", "$witness",
    'pop 0 ref 1 def pop "two" typeOp "b" varType "a" varType nil cons cons opType 2 def pop',
    '"->" typeOp 2 ref 2 ref nil cons cons opType 0 def pop nil', "$equality",
    '"x" 2 ref var "mk" const "->" typeOp 1 ref 2 ref nil cons cons opType constTerm',
    '"dest" const "->" typeOp 2 ref 1 ref nil cons cons opType constTerm "x" 2 ref var varTerm appTerm appTerm absTerm appTerm',
    '"x" 2 ref var "x" 2 ref var varTerm absTerm appTerm thm',
]
texts.lines = '''
A0 : v0 : type -> v1 : type -> v2 : term (arr v0 v1) -> proof ((v3 : term (arr v0 v1) => eq (arr v0 v1) v3 v3) v2).
def o_two : v0 : type -> v1 : type -> type := v0 : type => v1 : type => sub (arr v1 v0) (v2 : term (arr v1 v0) => eq (arr v1 v0) v2 v2) (select (arr v1 v0) (v2 : term (arr v1 v0) => eq (arr v1 v0) v2 v2)) (A0 v1 v0 (select (arr v1 v0) (v2 : term (arr v1 v0) => eq (arr v1 v0) v2 v2))).
def c_mk : v0 : type -> v1 : type -> term (arr (arr v0 v1) (o_two v1 v0)) := v0 : type => v1 : type => sub_abs (arr v0 v1) (v2 : term (arr v0 v1) => eq (arr v0 v1) v2 v2) (select (arr v0 v1) (v2 : term (arr v0 v1) => eq (arr v0 v1) v2 v2)) (A0 v0 v1 (select (arr v0 v1) (v2 : term (arr v0 v1) => eq (arr v0 v1) v2 v2))).
def c_dest : v0 : type -> v1 : type -> term (arr (o_two v0 v1) (arr v1 v0)) := v0 : type => v1 : type => sub_rep (arr v1 v0) (v2 : term (arr v1 v0) => eq (arr v1 v0) v2 v2) (select (arr v1 v0) (v2 : term (arr v1 v0) => eq (arr v1 v0) v2 v2)) (A0 v1 v0 (select (arr v1 v0) (v2 : term (arr v1 v0) => eq (arr v1 v0) v2 v2))).
(; bound 88716536000 ;)
thm L1 : v0 : type -> v1 : type -> proof (eq (arr (o_two v0 v1) (o_two v0 v1)) (v2 : term (o_two v0 v1) => c_mk v1 v0 (c_dest v0 v1 v2)) (v2 : term (o_two v0 v1) => v2)) := v0 : type => v1 : type => fun_ext (o_two v0 v1) (o_two v0 v1) (v2 : term (o_two v0 v1) => c_mk v1 v0 (c_dest v0 v1 v2)) (v2 : term (o_two v0 v1) => v2) (v2 : term (o_two v0 v1) => sub_abs_rep (arr v1 v0) (v3 : term (arr v1 v0) => eq (arr v1 v0) v3 v3) (select (arr v1 v0) (v3 : term (arr v1 v0) => eq (arr v1 v0) v3 v3)) (A0 v1 v0 (select (arr v1 v0) (v3 : term (arr v1 v0) => eq (arr v1 v0) v3 v3))) v2).
(; bound 592704000 ;)
thm E0 : v0 : type -> v1 : type -> proof (eq (arr (o_two v0 v1) (o_two v0 v1)) (v2 : term (o_two v0 v1) => c_mk v1 v0 (c_dest v0 v1 v2)) (v2 : term (o_two v0 v1) => v2)) := v0 : type => v1 : type => L1 v0 v1.
'''
texts.counts = '''
articles 1
assumptions 1
exports 1
declarations 8
bounds 105525598912
'''

# The same definition, of which the second law is exported.
[[test]]
name = "second_law_of_a_type_definition"
article.a = [
    "$version", '"->" typeOp "a" varType "b" varType nil cons cons opType 0 def pop',
    '"two" "mk" "dest" "b" "a" nil cons cons nil "r" 0 ref var', "$equality", "$witness",
    '"two" typeOp "b" varType "a" varType nil cons cons opType 1 def pop "r" 0 ref var', "$equality",
    '"dest" const "->" typeOp 1 ref 0 ref nil cons cons opType constTerm',
    '"mk" const "->" typeOp 0 ref 1 ref nil cons cons opType constTerm "r" 0 ref var varTerm appTerm appTerm appTerm',
    '"r" 0 ref var varTerm appTerm absTerm 2 def pop "r" 0 ref var "r" 0 ref var', "$equality",
    '"r" 0 ref var varTerm appTerm "r" 0 ref var varTerm appTerm absTerm "r" 0 ref var varTerm appTerm absTerm 3 def pop',
    '"->" typeOp 0 ref "bool" typeOp nil opType nil cons cons opType 0 def pop nil', "$equality", "2 ref appTerm 3 ref appTerm thm",
]
texts.lines = '''
A0 : v0 : type -> v1 : type -> v2 : term (arr v0 v1) -> proof ((v3 : term (arr v0 v1) => eq (arr v0 v1) v3 v3) v2).
def o_two : v0 : type -> v1 : type -> type := v0 : type => v1 : type => sub (arr v1 v0) (v2 : term (arr v1 v0) => eq (arr v1 v0) v2 v2) (select (arr v1 v0) (v2 : term (arr v1 v0) => eq (arr v1 v0) v2 v2)) (A0 v1 v0 (select (arr v1 v0) (v2 : term (arr v1 v0) => eq (arr v1 v0) v2 v2))).
def c_mk : v0 : type -> v1 : type -> term (arr (arr v0 v1) (o_two v1 v0)) := v0 : type => v1 : type => sub_abs (arr v0 v1) (v2 : term (arr v0 v1) => eq (arr v0 v1) v2 v2) (select (arr v0 v1) (v2 : term (arr v0 v1) => eq (arr v0 v1) v2 v2)) (A0 v0 v1 (select (arr v0 v1) (v2 : term (arr v0 v1) => eq (arr v0 v1) v2 v2))).
def c_dest : v0 : type -> v1 : type -> term (arr (o_two v0 v1) (arr v1 v0)) := v0 : type => v1 : type => sub_rep (arr v1 v0) (v2 : term (arr v1 v0) => eq (arr v1 v0) v2 v2) (select (arr v1 v0) (v2 : term (arr v1 v0) => eq (arr v1 v0) v2 v2)) (A0 v1 v0 (select (arr v1 v0) (v2 : term (arr v1 v0) => eq (arr v1 v0) v2 v2))).
(; bound 99639211456 ;)
thm L2 : v0 : type -> v1 : type -> proof (eq (arr (arr v0 v1) bool) (v2 : term (arr v0 v1) => eq (arr v0 v1) (c_dest v1 v0 (c_mk v0 v1 v2)) v2) (v2 : term (arr v0 v1) => (v3 : term (arr v0 v1) => eq (arr v0 v1) v3 v3) v2)) := v0 : type => v1 : type => fun_ext (arr v0 v1) bool (v2 : term (arr v0 v1) => eq (arr v0 v1) (c_dest v1 v0 (c_mk v0 v1 v2)) v2) (v2 : term (arr v0 v1) => (v3 : term (arr v0 v1) => eq (arr v0 v1) v3 v3) v2) (v2 : term (arr v0 v1) => sub_rep_abs (arr v0 v1) (v3 : term (arr v0 v1) => eq (arr v0 v1) v3 v3) (select (arr v0 v1) (v3 : term (arr v0 v1) => eq (arr v0 v1) v3 v3)) (A0 v0 v1 (select (arr v0 v1) (v3 : term (arr v0 v1) => eq (arr v0 v1) v3 v3))) v2).
(; bound 1780360128 ;)
thm E0 : v0 : type -> v1 : type -> proof (eq (arr (arr v0 v1) bool) (v2 : term (arr v0 v1) => eq (arr v0 v1) (c_dest v1 v0 (c_mk v0 v1 v2)) v2) (v2 : term (arr v0 v1) => (v3 : term (arr v0 v1) => eq (arr v0 v1) v3 v3) v2)) := v0 : type => v1 : type => L2 v0 v1.
'''
texts.counts = '''
articles 1
assumptions 1
exports 1
declarations 8
bounds 117635930496
'''

# A definition from a theorem with a type variable and a free variable that its predicate lacks: they are filled.
[[test]]
name = "type_definition_whose_theorem_has_more_variables"
article.a = [
    "$version", '"a" varType 0 def pop "one" "mk" "dest" "a" nil cons nil "r" 0 ref var', "$equality",
    '"r" 0 ref var varTerm appTerm "r" 0 ref var varTerm appTerm absTerm "y" "c" varType var "g" 0 ref var varTerm absTerm',
    '"z" "c" varType var varTerm appTerm appTerm axiom defineTypeOp',
    'pop 0 ref 1 def pop "one" typeOp "a" varType nil cons opType 2 def pop',
    '"->" typeOp 2 ref 2 ref nil cons cons opType 0 def pop nil', "$equality",
    '"x" 2 ref var "mk" const "->" typeOp 1 ref 2 ref nil cons cons opType constTerm',
    '"dest" const "->" typeOp 2 ref 1 ref nil cons cons opType constTerm "x" 2 ref var varTerm appTerm appTerm absTerm appTerm',
    '"x" 2 ref var "x" 2 ref var varTerm absTerm appTerm thm',
]
texts.lines = '''
A0 : v0 : type -> v1 : type -> v2 : term v0 -> v3 : term v1 -> proof ((v4 : term v0 => eq v0 v4 v4) ((v4 : term v1 => v2) v3)).
def o_one : v0 : type -> type := v0 : type => sub v0 (v1 : term v0 => eq v0 v1 v1) ((v1 : term bool => select v0 (v2 : term v0 => eq v0 v2 v2)) (select bool (v1 : term bool => eq bool v1 v1))) (A0 v0 bool (select v0 (v1 : term v0 => eq v0 v1 v1)) (select bool (v1 : term bool => eq bool v1 v1))).
def c_mk : v0 : type -> term (arr v0 (o_one v0)) := v0 : type => sub_abs v0 (v1 : term v0 => eq v0 v1 v1) ((v1 : term bool => select v0 (v2 : term v0 => eq v0 v2 v2)) (select bool (v1 : term bool => eq bool v1 v1))) (A0 v0 bool (select v0 (v1 : term v0 => eq v0 v1 v1)) (select bool (v1 : term bool => eq bool v1 v1))).
def c_dest : v0 : type -> term (arr (o_one v0) v0) := v0 : type => sub_rep v0 (v1 : term v0 => eq v0 v1 v1) ((v1 : term bool => select v0 (v2 : term v0 => eq v0 v2 v2)) (select bool (v1 : term bool => eq bool v1 v1))) (A0 v0 bool (select v0 (v1 : term v0 => eq v0 v1 v1)) (select bool (v1 : term bool => eq bool v1 v1))).
(; bound 62476255232 ;)
thm L1 : v0 : type -> proof (eq (arr (o_one v0) (o_one v0)) (v1 : term (o_one v0) => c_mk v0 (c_dest v0 v1)) (v1 : term (o_one v0) => v1)) := v0 : type => fun_ext (o_one v0) (o_one v0) (v1 : term (o_one v0) => c_mk v0 (c_dest v0 v1)) (v1 : term (o_one v0) => v1) (v1 : term (o_one v0) => sub_abs_rep v0 (v2 : term v0 => eq v0 v2 v2) ((v2 : term bool => select v0 (v3 : term v0 => eq v0 v3 v3)) (select bool (v2 : term bool => eq bool v2 v2))) (A0 v0 bool (select v0 (v2 : term v0 => eq v0 v2 v2)) (select bool (v2 : term bool => eq bool v2 v2))) v1).
(; bound 220348864 ;)
thm E0 : v0 : type -> proof (eq (arr (o_one v0) (o_one v0)) (v1 : term (o_one v0) => c_mk v0 (c_dest v0 v1)) (v1 : term (o_one v0) => v1)) := v0 : type => L1 v0.
'''
texts.counts = '''
articles 1
assumptions 1
exports 1
declarations 8
bounds 78912963008
'''

# An article of version 5: the first law of the definition of a type operator is about a variable.
[[test]]
name = "first_law_in_version_5"
article.a = [
    '"->" typeOp "a" varType "b" varType nil cons cons opType 0 def pop',
    '"two" "mk" "dest" "b" "a" nil cons cons nil "r" 0 ref var', "$equality", "$witness",
    'pop 0 ref 1 def pop "two" typeOp "b" varType "a" varType nil cons cons opType 2 def 0 def pop nil', "$equality",
    '"mk" const "->" typeOp 1 ref 2 ref nil cons cons opType constTerm',
    '"dest" const "->" typeOp 2 ref 1 ref nil cons cons opType constTerm "a" 2 ref var varTerm appTerm appTerm appTerm',
    '"a" 2 ref var varTerm appTerm thm',
]
texts.lines = '''
A0 : v0 : type -> v1 : type -> v2 : term (arr v0 v1) -> proof ((v3 : term (arr v0 v1) => eq (arr v0 v1) v3 v3) v2).
def o_two : v0 : type -> v1 : type -> type := v0 : type => v1 : type => sub (arr v1 v0) (v2 : term (arr v1 v0) => eq (arr v1 v0) v2 v2) (select (arr v1 v0) (v2 : term (arr v1 v0) => eq (arr v1 v0) v2 v2)) (A0 v1 v0 (select (arr v1 v0) (v2 : term (arr v1 v0) => eq (arr v1 v0) v2 v2))).
def c_mk : v0 : type -> v1 : type -> term (arr (arr v0 v1) (o_two v1 v0)) := v0 : type => v1 : type => sub_abs (arr v0 v1) (v2 : term (arr v0 v1) => eq (arr v0 v1) v2 v2) (select (arr v0 v1) (v2 : term (arr v0 v1) => eq (arr v0 v1) v2 v2)) (A0 v0 v1 (select (arr v0 v1) (v2 : term (arr v0 v1) => eq (arr v0 v1) v2 v2))).
def c_dest : v0 : type -> v1 : type -> term (arr (o_two v0 v1) (arr v1 v0)) := v0 : type => v1 : type => sub_rep (arr v1 v0) (v2 : term (arr v1 v0) => eq (arr v1 v0) v2 v2) (select (arr v1 v0) (v2 : term (arr v1 v0) => eq (arr v1 v0) v2 v2)) (A0 v1 v0 (select (arr v1 v0) (v2 : term (arr v1 v0) => eq (arr v1 v0) v2 v2))).
(; bound 38204652032 ;)
thm L1 : v0 : type -> v1 : type -> v2 : term (o_two v0 v1) -> proof (eq (o_two v0 v1) (c_mk v1 v0 (c_dest v0 v1 v2)) v2) := v0 : type => v1 : type => v2 : term (o_two v0 v1) => sub_abs_rep (arr v1 v0) (v3 : term (arr v1 v0) => eq (arr v1 v0) v3 v3) (select (arr v1 v0) (v3 : term (arr v1 v0) => eq (arr v1 v0) v3 v3)) (A0 v1 v0 (select (arr v1 v0) (v3 : term (arr v1 v0) => eq (arr v1 v0) v3 v3))) v2.
(; bound 287496000 ;)
thm E0 : v0 : type -> v1 : type -> v2 : term (o_two v0 v1) -> proof (eq (o_two v0 v1) (c_mk v1 v0 (c_dest v0 v1 v2)) v2) := v0 : type => v1 : type => v2 : term (o_two v0 v1) => L1 v0 v1 v2.
'''
texts.counts = '''
articles 1
assumptions 1
exports 1
declarations 8
bounds 54708506944
'''

# The second law of the same definition.
[[test]]
name = "second_law_in_version_5"
article.a = [
    '"->" typeOp "a" varType "b" varType nil cons cons opType 0 def pop',
    '"two" "mk" "dest" "b" "a" nil cons cons nil "r" 0 ref var', "$equality", "$witness",
    '"two" typeOp "b" varType "a" varType nil cons cons opType 1 def pop nil', "$equals", '"r" 0 ref var', "$equality",
    '"r" 0 ref var varTerm appTerm "r" 0 ref var varTerm appTerm absTerm "r" 0 ref var varTerm appTerm appTerm', "$equality",
    '"dest" const "->" typeOp 1 ref 0 ref nil cons cons opType constTerm',
    '"mk" const "->" typeOp 0 ref 1 ref nil cons cons opType constTerm "r" 0 ref var varTerm appTerm appTerm appTerm',
    '"r" 0 ref var varTerm appTerm appTerm thm',
]
texts.lines = '''
A0 : v0 : type -> v1 : type -> v2 : term (arr v0 v1) -> proof ((v3 : term (arr v0 v1) => eq (arr v0 v1) v3 v3) v2).
def o_two : v0 : type -> v1 : type -> type := v0 : type => v1 : type => sub (arr v1 v0) (v2 : term (arr v1 v0) => eq (arr v1 v0) v2 v2) (select (arr v1 v0) (v2 : term (arr v1 v0) => eq (arr v1 v0) v2 v2)) (A0 v1 v0 (select (arr v1 v0) (v2 : term (arr v1 v0) => eq (arr v1 v0) v2 v2))).
def c_mk : v0 : type -> v1 : type -> term (arr (arr v0 v1) (o_two v1 v0)) := v0 : type => v1 : type => sub_abs (arr v0 v1) (v2 : term (arr v0 v1) => eq (arr v0 v1) v2 v2) (select (arr v0 v1) (v2 : term (arr v0 v1) => eq (arr v0 v1) v2 v2)) (A0 v0 v1 (select (arr v0 v1) (v2 : term (arr v0 v1) => eq (arr v0 v1) v2 v2))).
def c_dest : v0 : type -> v1 : type -> term (arr (o_two v0 v1) (arr v1 v0)) := v0 : type => v1 : type => sub_rep (arr v1 v0) (v2 : term (arr v1 v0) => eq (arr v1 v0) v2 v2) (select (arr v1 v0) (v2 : term (arr v1 v0) => eq (arr v1 v0) v2 v2)) (A0 v1 v0 (select (arr v1 v0) (v2 : term (arr v1 v0) => eq (arr v1 v0) v2 v2))).
(; bound 66331758592 ;)
thm L2 : v0 : type -> v1 : type -> v2 : term (arr v0 v1) -> proof (eq bool ((v3 : term (arr v0 v1) => eq (arr v0 v1) v3 v3) v2) (eq (arr v0 v1) (c_dest v1 v0 (c_mk v0 v1 v2)) v2)) := v0 : type => v1 : type => v2 : term (arr v0 v1) => sym bool (eq (arr v0 v1) (c_dest v1 v0 (c_mk v0 v1 v2)) v2) ((v3 : term (arr v0 v1) => eq (arr v0 v1) v3 v3) v2) (sub_rep_abs (arr v0 v1) (v3 : term (arr v0 v1) => eq (arr v0 v1) v3 v3) (select (arr v0 v1) (v3 : term (arr v0 v1) => eq (arr v0 v1) v3 v3)) (A0 v0 v1 (select (arr v0 v1) (v3 : term (arr v0 v1) => eq (arr v0 v1) v3 v3))) v2).
(; bound 1099104768 ;)
thm E0 : v0 : type -> v1 : type -> v2 : term (arr v0 v1) -> proof (eq bool ((v3 : term (arr v0 v1) => eq (arr v0 v1) v3 v3) v2) (eq (arr v0 v1) (c_dest v1 v0 (c_mk v0 v1 v2)) v2)) := v0 : type => v1 : type => v2 : term (arr v0 v1) => L2 v0 v1 v2.
'''
texts.counts = '''
articles 1
assumptions 1
exports 1
declarations 8
bounds 83647222272
'''

# The theorem of the definition is about a variable of the name and the type of that of the second law: in the arguments of its proof
# it is filled, and not put.
[[test]]
name = "second_law_beside_the_variable_of_its_theorem"
article.a = [
    '"a" varType 0 def pop "one" "mk" "dest" "a" nil cons nil "r" 0 ref var', "$equality",
    '"r" 0 ref var varTerm appTerm "r" 0 ref var varTerm appTerm absTerm "r" 0 ref var varTerm appTerm axiom defineTypeOp',
    '"one" typeOp "a" varType nil cons opType 1 def pop nil', "$equals", '"r" 0 ref var', "$equality",
    '"r" 0 ref var varTerm appTerm "r" 0 ref var varTerm appTerm absTerm "r" 0 ref var varTerm appTerm appTerm', "$equality",
    '"dest" const "->" typeOp 1 ref 0 ref nil cons cons opType constTerm',
    '"mk" const "->" typeOp 0 ref 1 ref nil cons cons opType constTerm "r" 0 ref var varTerm appTerm appTerm appTerm',
    '"r" 0 ref var varTerm appTerm appTerm thm',
]
texts.lines = '''
A0 : v0 : type -> v1 : term v0 -> proof ((v2 : term v0 => eq v0 v2 v2) v1).
def o_one : v0 : type -> type := v0 : type => sub v0 (v1 : term v0 => eq v0 v1 v1) (select v0 (v1 : term v0 => eq v0 v1 v1)) (A0 v0 (select v0 (v1 : term v0 => eq v0 v1 v1))).
def c_mk : v0 : type -> term (arr v0 (o_one v0)) := v0 : type => sub_abs v0 (v1 : term v0 => eq v0 v1 v1) (select v0 (v1 : term v0 => eq v0 v1 v1)) (A0 v0 (select v0 (v1 : term v0 => eq v0 v1 v1))).
def c_dest : v0 : type -> term (arr (o_one v0) v0) := v0 : type => sub_rep v0 (v1 : term v0 => eq v0 v1 v1) (select v0 (v1 : term v0 => eq v0 v1 v1)) (A0 v0 (select v0 (v1 : term v0 => eq v0 v1 v1))).
(; bound 13824000000 ;)
thm L2 : v0 : type -> v1 : term v0 -> proof (eq bool ((v2 : term v0 => eq v0 v2 v2) v1) (eq v0 (c_dest v0 (c_mk v0 v1)) v1)) := v0 : type => v1 : term v0 => sym bool (eq v0 (c_dest v0 (c_mk v0 v1)) v1) ((v2 : term v0 => eq v0 v2 v2) v1) (sub_rep_abs v0 (v2 : term v0 => eq v0 v2 v2) (select v0 (v2 : term v0 => eq v0 v2 v2)) (A0 v0 (select v0 (v2 : term v0 => eq v0 v2 v2))) v1).
(; bound 262144000 ;)
thm E0 : v0 : type -> v1 : term v0 -> proof (eq bool ((v2 : term v0 => eq v0 v2 v2) v1) (eq v0 (c_dest v0 (c_mk v0 v1)) v1)) := v0 : type => v1 : term v0 => L2 v0 v1.
'''
texts.counts = '''
articles 1
assumptions 1
exports 1
declarations 8
bounds 30302502912
'''
"#;

#[test]
fn definitions(rt: HostRuntime) {
    assert!(rt; all_hold(&rt, TESTS));
}
