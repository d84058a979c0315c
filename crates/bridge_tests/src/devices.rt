//! Devices that fail: the shelf, standard output or standard error, at each call that a run makes of it and at the one behind the
//! last. In pieces of one byte the shelf is called to begin a file, for each byte, and for its end.
use crate::tables::{Given, Table, holds};
use bridge_cases::all_hold;

const TESTS: &str = r#"
[usual]
pieces = [1, 4096]
article.a = ["$reflexivity"]
article.c = ["$version", "-"]
text.b = ["$prelude", "$lemmas", "$theorems"]

[usual.texts]
counts = '''
articles 1
assumptions 0
exports 1
declarations 4
bounds 16240151168
'''

[[test]]
name = "verify_where_no_call_fails"
words = ["bridge", "verify", "a"]
out = ["$prelude", "$lemmas", "$theorems"]
note = ["$counts", "verified\n"]
case = [
    { pieces = [1], shelf_fails = [211] },
    { pieces = [4096], shelf_fails = [4] },
    { out_fails = [6], out_calls = 5 },
    { note_fails = [13] },
]

[[test]]
name = "verify_where_the_shelf_fails"
pieces = [4096]
words = ["bridge", "verify", "a"]
number = 3
note = "read fault\n"
case = [
    { shelf_fails = [1] },
    { shelf_fails = [2] },
    { shelf_fails = [3] },
]

[[test]]
name = "verify_where_standard_output_fails"
words = ["bridge", "verify", "a"]
out = ["$prelude", "$lemmas", "$theorems"]
cut = "out"
number = 4
note = "write fault\n"
case = [
    { out_fails = [1] },
    { out_fails = [2] },
    { out_fails = [3] },
    { out_fails = [4] },
    { out_fails = [5] },
]

[[test]]
name = "verify_where_both_outputs_fail"
words = ["bridge", "verify", "a"]
out = ["$prelude", "$lemmas", "$theorems"]
cut = "out"
number = 4
note_fails = [1]
case = [
    { out_fails = [1] },
    { out_fails = [2] },
    { out_fails = [3] },
    { out_fails = [4] },
    { out_fails = [5] },
]

[[test]]
name = "verify_where_standard_error_fails"
words = ["bridge", "verify", "a"]
out = ["$prelude", "$lemmas", "$theorems"]
cut = "note"
number = 4
note = ["$counts", "verified\n"]
case = [
    { note_fails = [1] },
    { note_fails = [2] },
    { note_fails = [3] },
    { note_fails = [4] },
    { note_fails = [5] },
    { note_fails = [6] },
    { note_fails = [7] },
    { note_fails = [8] },
    { note_fails = [9] },
    { note_fails = [10] },
    { note_fails = [11] },
    { note_fails = [12] },
]

[[test]]
name = "translate_where_no_call_fails"
words = ["bridge", "translate", "a"]
out = ["$prelude", "$lemmas", "$theorems"]
note = "$counts"
case = [
    { pieces = [1], shelf_fails = [211] },
    { pieces = [4096], shelf_fails = [4] },
    { out_fails = [6], out_calls = 5 },
    { note_fails = [12] },
]

[[test]]
name = "translate_where_the_shelf_fails"
pieces = [4096]
words = ["bridge", "translate", "a"]
number = 3
note = "read fault\n"
case = [
    { shelf_fails = [1] },
    { shelf_fails = [2] },
    { shelf_fails = [3] },
]

[[test]]
name = "translate_where_standard_output_fails"
words = ["bridge", "translate", "a"]
out = ["$prelude", "$lemmas", "$theorems"]
cut = "out"
number = 4
note = "write fault\n"
case = [
    { out_fails = [1] },
    { out_fails = [2] },
    { out_fails = [3] },
    { out_fails = [4] },
    { out_fails = [5] },
]

[[test]]
name = "translate_where_both_outputs_fail"
words = ["bridge", "translate", "a"]
out = ["$prelude", "$lemmas", "$theorems"]
cut = "out"
number = 4
note_fails = [1]
case = [
    { out_fails = [1] },
    { out_fails = [2] },
    { out_fails = [3] },
    { out_fails = [4] },
    { out_fails = [5] },
]

[[test]]
name = "translate_where_standard_error_fails"
words = ["bridge", "translate", "a"]
out = ["$prelude", "$lemmas", "$theorems"]
cut = "note"
number = 4
note = "$counts"
case = [
    { note_fails = [1] },
    { note_fails = [2] },
    { note_fails = [3] },
    { note_fails = [4] },
    { note_fails = [5] },
    { note_fails = [6] },
    { note_fails = [7] },
    { note_fails = [8] },
    { note_fails = [9] },
    { note_fails = [10] },
    { note_fails = [11] },
]

[[test]]
name = "show_where_no_call_fails"
words = ["bridge", "show", "a"]
out = "export 0: [] [x0:bool] {} |- (((=:(bool -> (bool -> bool))) x0) x0)\n"
case = [
    { pieces = [1], shelf_fails = [211] },
    { pieces = [4096], shelf_fails = [4] },
    { out_fails = [2], out_calls = 1 },
    { note_fails = [1] },
]

[[test]]
name = "show_where_the_shelf_fails"
pieces = [4096]
words = ["bridge", "show", "a"]
number = 3
note = "read fault\n"
case = [
    { shelf_fails = [1] },
    { shelf_fails = [2] },
    { shelf_fails = [3] },
]

[[test]]
name = "show_where_standard_output_fails"
words = ["bridge", "show", "a"]
out = "export 0: [] [x0:bool] {} |- (((=:(bool -> (bool -> bool))) x0) x0)\n"
cut = "out"
number = 4
note = "write fault\n"
case = [
    { out_fails = [1] },
]

[[test]]
name = "show_where_both_outputs_fail"
words = ["bridge", "show", "a"]
out = "export 0: [] [x0:bool] {} |- (((=:(bool -> (bool -> bool))) x0) x0)\n"
cut = "out"
number = 4
note_fails = [1]
case = [
    { out_fails = [1] },
]

[[test]]
name = "article_where_no_call_fails"
words = ["bridge", "article", "a"]
unsaid = "out"
case = [
    { pieces = [1], shelf_fails = [211] },
    { pieces = [4096], shelf_fails = [4] },
    { note_fails = [1] },
]

[[test]]
name = "article_where_the_shelf_fails"
pieces = [4096]
words = ["bridge", "article", "a"]
number = 3
note = "read fault\n"
case = [
    { shelf_fails = [1] },
    { shelf_fails = [2] },
    { shelf_fails = [3] },
]

[[test]]
name = "check_where_no_call_fails"
words = ["bridge", "check", "b"]
out = "accepted 4, unproved 0\n"
case = [
    { pieces = [1], shelf_fails = [2487] },
    { pieces = [4096], shelf_fails = [4] },
    { out_fails = [2], out_calls = 1 },
    { note_fails = [1] },
]

[[test]]
name = "check_where_the_shelf_fails"
pieces = [4096]
words = ["bridge", "check", "b"]
number = 3
note = "read fault\n"
case = [
    { shelf_fails = [1] },
    { shelf_fails = [2] },
    { shelf_fails = [3] },
]

[[test]]
name = "check_where_standard_output_fails"
words = ["bridge", "check", "b"]
out = "accepted 4, unproved 0\n"
cut = "out"
number = 4
note = "write fault\n"
case = [
    { out_fails = [1] },
]

[[test]]
name = "check_where_both_outputs_fail"
words = ["bridge", "check", "b"]
out = "accepted 4, unproved 0\n"
cut = "out"
number = 4
note_fails = [1]
case = [
    { out_fails = [1] },
]

[[test]]
name = "decode_where_no_call_fails"
words = ["bridge", "decode", "b"]
out = "E0: [] [x0:bool] {} |- (((=:(bool -> (bool -> bool))) x0) x0)\n"
case = [
    { pieces = [1], shelf_fails = [2487] },
    { pieces = [4096], shelf_fails = [4] },
    { out_fails = [2], out_calls = 1 },
    { note_fails = [1] },
]

[[test]]
name = "decode_where_the_shelf_fails"
pieces = [4096]
words = ["bridge", "decode", "b"]
number = 3
note = "read fault\n"
case = [
    { shelf_fails = [1] },
    { shelf_fails = [2] },
    { shelf_fails = [3] },
]

[[test]]
name = "decode_where_standard_output_fails"
words = ["bridge", "decode", "b"]
out = "E0: [] [x0:bool] {} |- (((=:(bool -> (bool -> bool))) x0) x0)\n"
cut = "out"
number = 4
note = "write fault\n"
case = [
    { out_fails = [1] },
]

[[test]]
name = "decode_where_both_outputs_fail"
words = ["bridge", "decode", "b"]
out = "E0: [] [x0:bool] {} |- (((=:(bool -> (bool -> bool))) x0) x0)\n"
cut = "out"
number = 4
note_fails = [1]
case = [
    { out_fails = [1] },
]

[[test]]
name = "trial_where_no_call_fails"
words = ["bridge", "trial", "2"]
out = '''
articles 1
assumptions 0
exports 1
declarations 16
bounds 21639702528
verified
'''
case = [
    { shelf_fails = [1] },
    { out_fails = [13], out_calls = 12 },
    { note_fails = [1] },
]

[[test]]
name = "trial_where_standard_output_fails"
words = ["bridge", "trial", "2"]
out = '''
articles 1
assumptions 0
exports 1
declarations 16
bounds 21639702528
verified
'''
cut = "out"
number = 4
note = "write fault\n"
case = [
    { out_fails = [1] },
    { out_fails = [2] },
    { out_fails = [3] },
    { out_fails = [4] },
    { out_fails = [5] },
    { out_fails = [6] },
    { out_fails = [7] },
    { out_fails = [8] },
    { out_fails = [9] },
    { out_fails = [10] },
    { out_fails = [11] },
    { out_fails = [12] },
]

[[test]]
name = "trial_where_both_outputs_fail"
words = ["bridge", "trial", "2"]
out = '''
articles 1
assumptions 0
exports 1
declarations 16
bounds 21639702528
verified
'''
cut = "out"
number = 4
note_fails = [1]
case = [
    { out_fails = [1] },
    { out_fails = [2] },
    { out_fails = [3] },
    { out_fails = [4] },
    { out_fails = [5] },
    { out_fails = [6] },
    { out_fails = [7] },
    { out_fails = [8] },
    { out_fails = [9] },
    { out_fails = [10] },
    { out_fails = [11] },
    { out_fails = [12] },
]

[[test]]
name = "refused_where_standard_error_fails"
words = ["bridge", "verify", "c"]
number = 4
cut = "note"
note = "article 1 line 3: BadLine (1)\n"
case = [
    { note_fails = [1] },
    { note_fails = [2] },
    { note_fails = [3] },
    { note_fails = [4] },
    { note_fails = [5] },
    { note_fails = [6] },
    { note_fails = [7] },
    { note_fails = [8] },
    { note_fails = [9] },
]

[[test]]
name = "refused_where_no_call_fails"
words = ["bridge", "verify", "c"]
number = 1
note_fails = [10]
note = "article 1 line 3: BadLine (1)\n"
case = [
    {},
]

[[test]]
name = "read_faults_that_cannot_be_told"
shelf_fails = [1]
note_fails = [1]
number = 4
case = [
    { words = [["bridge", "verify", "a"], ["bridge", "translate", "a"], ["bridge", "show", "a"], ["bridge", "article", "a"]] },
    { words = [["bridge", "check", "b"], ["bridge", "decode", "b"]] },
]
"#;

#[test]
fn devices(rt: HostRuntime) {
    assert!(rt; all_hold(&rt, TESTS));
}

const ARTICLE: &str = r#"
[usual]
words = [["bridge", "verify", "a"], ["bridge", "translate", "a"], ["bridge", "show", "a"], ["bridge", "article", "a"]]
pieces = [1]
article.a = ["$reflexivity"]

[[test]]
name = "shelf_that_fails"

"#;

const ARTICLE_FAULTS: Table<'_> = Table {
    head: ARTICLE,
    given: Given::Failing,
    front: "",
    rows: "1 210 3 read fault",
};

const CHECK: &str = r#"
[usual]
words = ["bridge", "check", "a"]
pieces = [1]
text.a = ["$prelude", "$lemmas", "$theorems"]

[[test]]
name = "shelf_that_fails"

"#;

const CHECK_FAULTS_IN_PRELUDE: Table<'_> = Table {
    head: CHECK,
    given: Given::Failing,
    front: "",
    rows: "1 1471 3 read fault",
};

const CHECK_FAULTS_BEHIND: Table<'_> = Table {
    head: CHECK,
    given: Given::Failing,
    front: "",
    rows: "1472 2486 3 read fault",
};

const DECODE: &str = r#"
[usual]
words = ["bridge", "decode", "a"]
pieces = [1]
text.a = ["$prelude", "$lemmas", "$theorems"]

[[test]]
name = "shelf_that_fails"

"#;

const DECODE_FAULTS_IN_PRELUDE: Table<'_> = Table {
    head: DECODE,
    given: Given::Failing,
    front: "",
    rows: "1 1471 3 read fault",
};

const DECODE_FAULTS_BEHIND: Table<'_> = Table {
    head: DECODE,
    given: Given::Failing,
    front: "",
    rows: "1472 2486 3 read fault",
};

#[test]
fn an_article_in_pieces_of_a_byte(rt: HostRuntime) {
    assert!(rt; holds(&rt, &ARTICLE_FAULTS));
}

#[test]
fn a_prelude_checked_in_pieces_of_a_byte(rt: HostRuntime) {
    assert!(rt; holds(&rt, &CHECK_FAULTS_IN_PRELUDE));
}

#[test]
fn a_module_checked_in_pieces_of_a_byte(rt: HostRuntime) {
    assert!(rt; holds(&rt, &CHECK_FAULTS_BEHIND));
}

#[test]
fn a_prelude_decoded_in_pieces_of_a_byte(rt: HostRuntime) {
    assert!(rt; holds(&rt, &DECODE_FAULTS_IN_PRELUDE));
}

#[test]
fn a_module_decoded_in_pieces_of_a_byte(rt: HostRuntime) {
    assert!(rt; holds(&rt, &DECODE_FAULTS_BEHIND));
}
