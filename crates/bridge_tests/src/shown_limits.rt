//! Articles at the limits of size, of depth, of the number of parameters and of the length of a line.
use bridge_cases::all_hold;
use std::alloc::{AllocError, Global};

const TESTS: &str = r##"
[usual]
words = ["bridge", "show", "a"]
pieces = [4096]

# A term is made, and so many times a constant is applied to two copies of the last.
[[test]]
name = "shared_terms_are_built_up_to_the_limit"

[[test.case]]
article.a = [
    "$version", '"g" const', "$binary_type", "constTerm 0 def", "$p", "1 def",
    { times = 16, part = "0 ref 1 ref appTerm 1 ref appTerm 1 def" },
]

[[test.case]]
article.a = [
    "$version", '"g" const', "$binary_type", "constTerm 0 def", "$p", "1 def",
    { times = 17, part = "0 ref 1 ref appTerm 1 ref appTerm 1 def" },
]
number = 1
note = "article 1 line 208: TooLarge (23)\n"

# A constant is applied so many times, the last time to a variable.
[[test]]
name = "deep_terms_are_built_up_to_the_limit"

[[test.case]]
article.a = [
    "$version", '"f" const', "$unary_type", "constTerm 0 def pop",
    { times = 16380, part = "0 ref" }, "$p", { times = 16380, part = "appTerm" },
]

[[test.case]]
article.a = [
    "$version", '"f" const', "$unary_type", "constTerm 0 def pop",
    { times = 16381, part = "0 ref" }, "$p", { times = 16381, part = "appTerm" },
]
number = 1
note = "article 1 line 49172: TooDeep (24)\n"

[[test]]
name = "a_line_is_read_up_to_the_limit"

[[test.case]]
text.a = [{ times = 1048577, part = "#" }]
number = 1
note = "article 1 line 1: LineTooLong (22)\n"
"##;

#[test]
fn limits(rt: HostRuntime) {
    assert!(rt; all_hold(&rt, TESTS));
}

// Articles that assume a sequent with as many hypotheses as it may have, and with one more; and one with 2,048 parameters, which is
// assumed, exported and verified.
const HYPOTHESES: &str = r#"
[usual]
words = ["bridge", "show", "a"]
pieces = [4096]

[[test]]
name = "hypotheses_are_taken_up_to_the_limit"

[[test.case]]
article.a = ["$version", "$most", "nil", { times = 8192, part = "cons" }, "$first", "axiom"]
unsaid = "out"

[[test.case]]
article.a = ["$version", "$more", "nil", { times = 8193, part = "cons" }, "$first", "axiom"]
number = 1
note = "article 1 line 65555: TooManyParams (25)\n"

[[test]]
name = "a_sequent_of_many_parameters_is_verified"

[[test.case]]
words = ["bridge", "verify", "a"]
article.a = [
    "$version", "$some", "nil", { times = 1024, part = "cons" }, "$first", "axiom", "$some", "nil", { times = 1024, part = "cons" },
    "$first", "thm",
]
unsaid = "out"
note = '''
articles 1
assumptions 1
exports 1
declarations 4
bounds 4401607027150016
verified
'''

[usual.texts]
first = '"xyyyyyyyyyyyyy" "bool" typeOp nil opType var varTerm'
"#;

// The file with these, whose variables are made here: each has a name of its own.
fn hypotheses(alloc: Global) -> Result<String, AllocError> {
    let mut file = String::from_str(alloc, HYPOTHESES)?;
    add_variables(&mut file, "some", 1_024)?;
    add_variables(&mut file, "most", 8_192)?;
    add_variables(&mut file, "more", 8_193)?;
    Ok(file)
}

// Adds the text of that name: so many variables.
fn add_variables(file: &mut String, name: &str, count: usize) -> Result<(), AllocError> {
    file.push_str(name)?;
    file.push_str(" = '")?;
    for number in 1..=count {
        if number > 1 {
            file.push(' ')?;
        }
        file.push('"')?;
        add_name(file, number)?;
        file.push_str("\" \"bool\" typeOp nil opType var varTerm")?;
    }
    file.push_str("'\n")?;
    Ok(())
}

// Adds the name of a number below 2^14: a letter for each of its binary digits, the lowest first.
fn add_name(file: &mut String, number: usize) -> Result<(), AllocError> {
    let mut rest = number;
    for _ in 0..14 {
        file.push(if rest % 2 == 1 { 'x' } else { 'y' })?;
        rest /= 2;
    }
    Ok(())
}

// Whether that file holds.
fn hypotheses_hold(rt: &HostRuntime) -> bool {
    match hypotheses(rt.alloc()) {
        Ok(file) => {
            let hold = all_hold(rt, file.as_str());
            drop(file);
            hold
        }
        Err(_) => false,
    }
}

#[test]
fn hypotheses_are_taken_up_to_the_limit(rt: HostRuntime) {
    assert!(rt; hypotheses_hold(&rt));
}
