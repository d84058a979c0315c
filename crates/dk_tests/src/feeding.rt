//! Texts that are refused where they go on past a limit: each fault by its name and place, also when more is fed, and at the end.
use dk_cases::all_hold;

const TESTS: &str = r#"
[usual]
by = "feed"

[[test]]
name = "feed_answers_what_can_not_follow"

[[test.case]]
texts.after = "? more bytes"
limits = [{ behind = 1 }]
pieces = [1, 4096]
comes = "BadText at 0, BadText at 0, BadText at 0"

[[test.case]]
texts.after = "? more bytes"
limits = [{ behind = 0 }]
pieces = [3]
comes = "DkTooLong at 0, DkTooLong at 0, DkTooLong at 0"

[[test.case]]
texts.after = "def q : type type : type more bytes"
limits = [{ behind = 20 }]
pieces = [1, 4096]
comes = "BadText at 18, BadText at 18, BadText at 18"

[[test.case]]
texts.after = "def q : type type : type more bytes"
limits = [{ behind = 19 }]
pieces = [3]
comes = "DkTooLong at 19, DkTooLong at 19, DkTooLong at 19"

[[test.case]]
texts.after = "a : type => type. more bytes"
limits = [{ behind = 11 }]
pieces = [1, 4096]
comes = "BadText at 9, BadText at 9, BadText at 9"

[[test.case]]
texts.after = "a : type => type. more bytes"
limits = [{ behind = 9 }]
pieces = [3]
comes = "DkTooLong at 9, DkTooLong at 9, DkTooLong at 9"

[[test.case]]
texts.after = "thm q : type. more bytes"
limits = [{ behind = 13 }]
pieces = [1, 4096]
comes = "BadText at 12, BadText at 12, BadText at 12"

[[test.case]]
texts.after = "thm q : type. more bytes"
limits = [{ behind = 12 }]
pieces = [3]
comes = "DkTooLong at 12, DkTooLong at 12, DkTooLong at 12"

[[test]]
name = "feed_answers_names"

[[test.case]]
texts.after = "bool : type. more bytes"
limits = [{ behind = 5 }]
pieces = [1, 4096]
comes = "NameTwice bool at 0, NameTwice bool at 0, NameTwice bool at 0"

[[test.case]]
texts.after = "bool : type. more bytes"
limits = [{ behind = 4 }]
pieces = [3]
comes = "DkTooLong at 4, DkTooLong at 4, DkTooLong at 4"

[[test.case]]
texts.after = "q : type. thm q : type. more bytes"
limits = [{ behind = 16 }]
pieces = [1, 4096]
comes = "NameTwice q at 14, NameTwice q at 14, NameTwice q at 14"

[[test.case]]
texts.after = "q : type. thm q : type. more bytes"
limits = [{ behind = 15 }]
pieces = [3]
comes = "DkTooLong at 15, DkTooLong at 15, DkTooLong at 15"

[[test.case]]
texts.after = "thm e : proof e := e. more bytes"
limits = [{ behind = 16 }]
pieces = [1, 4096]
comes = "UnknownName e at 14, UnknownName e at 14, UnknownName e at 14"

[[test.case]]
texts.after = "thm e : proof e := e. more bytes"
limits = [{ behind = 15 }]
pieces = [3]
comes = "DkTooLong at 15, DkTooLong at 15, DkTooLong at 15"

[[test.case]]
texts.after = "a : b). more bytes"
limits = [{ behind = 6 }]
pieces = [1, 4096]
comes = "UnknownName b at 4, UnknownName b at 4, UnknownName b at 4"

[[test.case]]
texts.after = "a : b). more bytes"
limits = [{ behind = 5 }]
pieces = [3]
comes = "DkTooLong at 5, DkTooLong at 5, DkTooLong at 5"

[[test]]
name = "feed_answers_a_sign_that_the_limit_cuts"
pieces = [1, 3, 4096]

[[test.case]]
texts.after = "a -> more bytes"
limits = [{ behind = 3 }]
comes = "BadText at 2, BadText at 2, BadText at 2"

[[test.case]]
texts.after = "a : Type -> Type. more bytes"
limits = [{ behind = 10 }]
comes = "DkTooLong at 10, DkTooLong at 10, DkTooLong at 10"

[[test.case]]
texts.after = "a : type => type. more bytes"
limits = [{ behind = 10 }]
comes = "BadText at 9, BadText at 9, BadText at 9"

[[test.case]]
texts.after = "a : x : type => x. more bytes"
limits = [{ behind = 14 }]
comes = "DkTooLong at 14, DkTooLong at 14, DkTooLong at 14"

[[test.case]]
texts.after = "a := more bytes"
limits = [{ behind = 3 }]
comes = "DkTooLong at 3, DkTooLong at 3, DkTooLong at 3"

[[test.case]]
texts.after = "a : x := more bytes"
limits = [{ behind = 7 }]
comes = "DkTooLong at 7, DkTooLong at 7, DkTooLong at 7"

[[test.case]]
texts.after = "a : Type := more bytes"
limits = [{ behind = 10 }]
comes = "BadText at 9, BadText at 9, BadText at 9"

[[test.case]]
texts.after = "def a : Type := more bytes"
limits = [{ behind = 14 }]
comes = "DkTooLong at 14, DkTooLong at 14, DkTooLong at 14"

[[test.case]]
texts.after = "a := more bytes"
limits = [{ behind = 4 }]
comes = "BadText at 2, BadText at 2, BadText at 2"

[[test.case]]
texts.after = "(; a ;) more bytes"
limits = [{ behind = 1 }]
comes = "DkTooLong at 1, DkTooLong at 1, DkTooLong at 1"

[[test.case]]
texts.after = "(; a ;) more bytes"
limits = [{ behind = 4 }]
comes = "DkTooLong at 4, DkTooLong at 4, DkTooLong at 4"

[[test]]
name = "feed_answers_a_word_that_the_limit_cuts"
pieces = [1, 3, 4096]

[[test.case]]
texts.after = "a bc more bytes"
limits = [{ behind = 3 }]
comes = "BadText at 2, BadText at 2, BadText at 2"

[[test.case]]
texts.after = "a : b cd more bytes"
limits = [{ behind = 7 }]
comes = "UnknownName b at 4, UnknownName b at 4, UnknownName b at 4"

[[test.case]]
texts.after = "a : bool cd more bytes"
limits = [{ behind = 10 }]
comes = "DkTooLong at 10, DkTooLong at 10, DkTooLong at 10"

[[test.case]]
texts.after = "bool : type. more bytes"
limits = [{ behind = 3 }]
comes = "DkTooLong at 3, DkTooLong at 3, DkTooLong at 3"

[[test]]
name = "feed_answers_that_the_signature_is_missing"
start = 0
limits = [8]
pieces = [1, 2, 3, 4096]

[[test.case]]
text = "type : type.\nbool : type.\n"
comes = "NoPrelude at 7, NoPrelude at 7, NoPrelude at 7"
"#;

#[test]
fn feeding(rt: HostRuntime) {
    assert!(rt; all_hold(&rt, TESTS));
}
