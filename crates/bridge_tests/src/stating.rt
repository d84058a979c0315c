//! Modules of articles that assume and export: names of symbols, an export with further hypotheses, and nothing at all.
use bridge_cases::all_hold;

const TESTS: &str = r#"
# Each article is translated and verified, and both write the module with its lines behind the two lemmas, and tell its counts.
[usual]
out = ["$prelude", "$lemmas", "$lines"]
case = [
    { words = ["bridge", "translate", "a"], note = "$counts" },
    { words = ["bridge", "verify", "a"], note = ["$counts", "verified\n"] },
]
# The constant c of the components `a.b` and `c`, and d of the components `a`, `b` and `c`.
texts.c = '"a\.b.c" const "bool" typeOp nil opType constTerm'
texts.d = '"a.b.c" const "bool" typeOp nil opType constTerm'

[[test]]
name = "no_export"
out = ["$prelude", "$lemmas"]
texts.counts = '''
articles 1
assumptions 0
exports 0
declarations 2
bounds 16216358912
'''

[[test.case]]
words = [["bridge", "translate", "a"], ["bridge", "translate", "a", "--share"]]
article.a = ["$version"]
note = "$counts"

[[test.case]]
words = ["bridge", "verify", "a"]
article.a = ["$version"]
note = ["$counts", "verified\n"]

# An empty file, and the number 6 alone.
[[test.case]]
words = ["bridge", "translate", "a"]
text.a = ""
note = "$counts"

[[test.case]]
words = ["bridge", "verify", "a"]
text.a = "6\n"
note = ["$counts", "verified\n"]

[[test.case]]
words = ["bridge", "translate", "a"]
article.a = ["$version", "9223372036854775807"]
note = "$counts"

[[test.case]]
words = ["bridge", "verify", "a"]
article.a = ["$version", "9223372036854775807"]
note = ["$counts", "verified\n"]

[[test]]
name = "apart_names"
article.a = [
    "$version", "nil", "$equals", "$c", "appTerm", "$d", "appTerm axiom nil", "$equals", "$c", "appTerm", "$d", "appTerm thm",
]
texts.lines = '''
i_a_2eb__c : v0 : type -> term v0.
i_a__b__c : v0 : type -> term v0.
A0 : proof (eq bool (i_a_2eb__c bool) (i_a__b__c bool)).
(; bound 10077696 ;)
thm E0 : proof (eq bool (i_a_2eb__c bool) (i_a__b__c bool)) := A0.
'''
texts.counts = '''
articles 1
assumptions 1
exports 1
declarations 6
bounds 16226436608
'''

[[test]]
name = "weakened_sequent"
article.a = ["$version", "$q", "nil cons", "$p", "axiom", "$q", "$r", "nil cons cons", "$p", "thm"]
texts.lines = '''
A0 : v0 : term bool -> v1 : term bool -> v2 : proof v0 -> proof v1.
(; bound 64000000 ;)
thm E0 : v0 : term bool -> v1 : term bool -> v2 : term bool -> v3 : proof v0 -> v4 : proof v1 -> proof v2 := v0 : term bool => v1 : term bool => v2 : term bool => v3 : proof v0 => v4 : proof v1 => A0 v0 v2 v3.
'''
texts.counts = '''
articles 1
assumptions 1
exports 1
declarations 4
bounds 16280358912
'''
"#;

#[test]
fn stating(rt: HostRuntime) {
    assert!(rt; all_hold(&rt, TESTS));
}
