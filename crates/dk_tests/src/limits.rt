//! Texts at a limit and past it, and how many bytes are held between two pieces.
use dk_cases::all_hold;

const TESTS: &str = r#"
[usual]

[[test]]
name = "a_text_past_its_limit_is_refused_again_and_again"
by = "steps"
limits = [{ behind = 0 }]

[[test.case]]
text = ["$prelude"]
comes = "fed 0"

[[test.case]]
text = ["$prelude", "\n", "", "q : type."]
comes = "fed 0, DkTooLong at 0 0, DkTooLong at 0 0, DkTooLong at 0 0, DkTooLong at 0"

[[test]]
name = "a_text_is_refused_at_the_first_byte_too_many"
by = "feed"
pieces = [4096]
texts.after = "q : type.\n"

[[test.case]]
by = "read"
limits = [{ behind = 10 }]
comes = "symbol q"

[[test.case]]
limits = [{ behind = 9 }]
comes = "DkTooLong at 9, DkTooLong at 9, DkTooLong at 9"

[[test.case]]
limits = [{ behind = 4 }]
comes = "DkTooLong at 4, DkTooLong at 4, DkTooLong at 4"

[[test.case]]
limits = [{ behind = 0 }]
comes = "DkTooLong at 0, DkTooLong at 0, DkTooLong at 0"

[[test]]
name = "holds_the_bytes_of_the_word_that_is_open"
by = "steps"

[[test.case]]
text = ["", "$prelude", "def abc", "d_1", " ", ":", " type :", "= (; a comment; )", " of two bytes;", ") boo", "l."]
comes = "fed 0, fed 0, fed 3, fed 6, fed 0, fed 0, fed 0, fed 0, fed 0, fed 3, fed 0, def abcd_1"

[[test]]
name = "holds_nothing_inside_the_signature_and_after_a_fault"
by = "steps"

[[test.case]]
start = 0
text = ["ty", "pe x"]
comes = "fed 0, NoPrelude at 5 0, NoPrelude at 5"

[[test.case]]
text = ["$prelude", "q : ; abc"]
comes = "fed 0, BadText at 4 0, BadText at 4"
"#;

#[test]
fn limits(rt: HostRuntime) {
    assert!(rt; all_hold(&rt, TESTS));
}
