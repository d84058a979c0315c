//! Translations of articles in memory, with the module checked before it is written, and as it is.
use bridge_cases::all_hold;

const TESTS: &str = r#"
[usual]
article.a = ["$reflexivity"]

[[test]]
name = "translates_reflexivity_in_any_pieces"

[[test.case]]
words = ["bridge", "translate", "a"]
out = ["$prelude", "$lemmas", "$theorems"]
note = '''
articles 1
assumptions 0
exports 1
declarations 4
bounds 16240151168
'''

[[test]]
name = "verifies_reflexivity_in_any_pieces"

[[test.case]]
words = ["bridge", "verify", "a"]
out = ["$prelude", "$lemmas", "$theorems"]
note = '''
articles 1
assumptions 0
exports 1
declarations 4
bounds 16240151168
verified
'''

[[test]]
name = "counts_a_file_that_is_named_twice"

[[test.case]]
words = ["bridge", "verify", "a", "a"]
begun = ["a", "a"]
out = ["$prelude", "$lemmas", "$theorems"]
note = '''
articles 2
assumptions 0
exports 1
declarations 4
bounds 16240151168
verified
'''

[[test]]
name = "translates_an_article_without_exports"

[[test.case]]
words = ["bridge", "translate", "a"]
article.a = ["$version"]
out = ["$prelude", "$lemmas"]
note = '''
articles 1
assumptions 0
exports 0
declarations 2
bounds 16216358912
'''

# As it is translated and as it is verified.
[[test]]
name = "refuses_an_article_at_its_line"
words = [["bridge", "translate", "a"], ["bridge", "verify", "a"]]
article = {}
number = 1

[[test.case]]
text.a = "5\nversion\n"
note = "article 1 line 2: VersionPlace (5)\n"

[[test.case]]
text.a = "6\nvers"
note = "article 1 line 2: BadLine (1)\n"

[[test.case]]
text.a = "6\nversion\nnil\nhdTl\n"
note = "article 1 line 4: EmptyList (27)\n"

[[test.case]]
text.a = "6\nversion\n9223372036854775808\n"
note = "article 1 line 3: NumberRange (21)\n"

[[test]]
name = "translates_by_a_call_of_its_own"
pieces = [4096]

[[test.case]]
by = "translate"
words = ["a"]
article.a = ["$version"]
out = ["$prelude", "$lemmas"]
note = '''
articles 1
assumptions 0
exports 0
declarations 2
bounds 16216358912
'''

[[test]]
name = "verifies_by_a_call_of_its_own"
pieces = [4096]

[[test.case]]
by = "verify"
words = ["a"]
article.a = ["$version"]
out = ["$prelude", "$lemmas"]
note = '''
articles 1
assumptions 0
exports 0
declarations 2
bounds 16216358912
verified
'''
"#;

#[test]
fn translations(rt: HostRuntime) {
    assert!(rt; all_hold(&rt, TESTS));
}
