//! Modules in files in memory, back to what their exports say.
use bridge_cases::all_hold;

const TESTS: &str = r#"
[usual]
words = ["bridge", "decode", "a"]
text.a = ["$prelude", "$lines"]
begun = ["a"]

[[test]]
name = "says_what_show_says"
texts.said = "[] [x0:bool] {} |- (((=:(bool -> (bool -> bool))) x0) x0)\n"

[[test.case]]
text.a = ["$prelude", "$lemmas", "$theorems"]
out = ["E0: ", "$said"]

[[test.case]]
words = ["bridge", "show", "a"]
text = {}
article.a = ["$reflexivity"]
out = ["export 0: ", "$said"]

[[test]]
name = "says_nothing_without_exports"

[[test.case]]
texts.lines = ""
out = ""

[[test.case]]
texts.lines = "E : type. E01 : type. E00 : type. e0 : type. E0x : type. T0 : type."
out = ""

[[test]]
name = "says_exports_as_they_stand"

[[test.case]]
texts.lines = "E7 : x : term bool -> proof x. E10 : x : term bool -> h : proof x -> proof x."
out = '''
E7: [] [x0:bool] {} |- x0
E10: [] [x0:bool] {x0} |- x0
'''

[[test.case]]
texts.lines = "E0 : proof e."
number = 6
note = "byte 1481: UnknownName e\n"

[[test]]
name = "says_constants_and_operators_by_their_names"

[[test.case]]
# An assumption, and the same under a hypothesis more.
texts.lines = '''
A0 : v0 : term bool -> v1 : term bool -> v2 : proof v0 -> proof v1.
thm E0 : v0 : term bool -> v1 : term bool -> v2 : term bool -> v3 : proof v0 -> v4 : proof v1 -> proof v2 := v0 : term bool => v1 : term bool => v2 : term bool => v3 : proof v0 => v4 : proof v1 => A0 v0 v2 v3.
'''
out = "E0: [] [x0:bool x1:bool x2:bool] {x0, x1} |- x2\n"

[[test.case]]
# Two constants whose names differ by a backslash alone.
texts.lines = '''
i_a_2eb__c : v0 : type -> term v0.
i_a__b__c : v0 : type -> term v0.
A0 : proof (eq bool (i_a_2eb__c bool) (i_a__b__c bool)).
thm E0 : proof (eq bool (i_a_2eb__c bool) (i_a__b__c bool)) := A0.
'''
out = "E0: [] [] {} |- (((=:(bool -> (bool -> bool))) (a_2eb__c:bool)) (a__b__c:bool))\n"

[[test.case]]
# A constant that stands for another one.
texts.lines = '''
def c_c : term (arr bool bool) := v0 : term bool => v0.
def c_d : term (arr bool bool) := c_c.
thm E0 : proof (eq (arr bool bool) c_d c_c) := refl (arr bool bool) c_c.
'''
out = "E0: [] [] {} |- (((=:((bool -> bool) -> ((bool -> bool) -> bool))) (d:(bool -> bool))) (c:(bool -> bool)))\n"

[[test.case]]
# A type operator whose arguments stand in another order than in its constants' types.
texts.lines = '''
o_two : v0 : type -> v1 : type -> type.
c_mk : v0 : type -> v1 : type -> term (arr (arr v0 v1) (o_two v1 v0)).
c_dest : v0 : type -> v1 : type -> term (arr (o_two v0 v1) (arr v1 v0)).
E0 : v0 : type -> v1 : type -> proof (eq (arr (o_two v0 v1) (o_two v0 v1)) (v2 : term (o_two v0 v1) => c_mk v1 v0 (c_dest v0 v1 v2)) (v2 : term (o_two v0 v1) => v2)).
'''
out = '''
E0: [a0 a1] [] {} |- (((=:(((two a0 a1) -> (two a0 a1)) -> (((two a0 a1) -> (two a0 a1)) -> bool))) (\b0:(two a0 a1). ((mk:((a1 -> a0) -> (two a0 a1))) ((dest:((two a0 a1) -> (a1 -> a0))) b0)))) (\b0:(two a0 a1). b0))
'''

[[test]]
name = "keeps_the_order_of_hypotheses"

[[test.case]]
texts.lines = "E0 : x : term bool -> y : term bool -> g : proof y -> h : proof x -> proof x. E1 : x : term bool -> y : term bool -> g : proof x -> h : proof y -> proof x."
number = 9
note = "declaration 0: not a sequent\n"

[[test.case]]
texts.lines = "E1 : x : term bool -> y : term bool -> g : proof x -> h : proof y -> proof x."
out = "E1: [] [x0:bool x1:bool] {x0, x1} |- x0\n"

[[test]]
name = "refuses_what_says_nothing"

[[test.case]]
texts.lines = "E0 : type."
number = 9
note = "declaration 0: not a sequent\n"

[[test.case]]
texts.lines = "E0 : x : term bool -> g : proof x -> h : proof x -> proof x."
number = 9
note = "declaration 0: not a sequent\n"

[[test.case]]
texts.lines = "E0 : x : term bool -> y : term bool -> proof y."
number = 9
note = "declaration 0: not a sequent\n"

[[test.case]]
texts.lines = "E0 : x : term bool -> proof x. E1 : type."
number = 9
note = "declaration 1: not a sequent\n"

[[test]]
name = "decodes_by_a_call_of_its_own"
pieces = [4096]

[[test.case]]
by = "decode"
words = ["a"]
text.a = ["$prelude", "$lemmas"]
out = ""
"#;

#[test]
fn decodes(rt: HostRuntime) {
    assert!(rt; all_hold(&rt, TESTS));
}
