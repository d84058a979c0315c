//! Steps that make the types and the terms of many tests.
use crate::bench::{Step, TermStep, TypeStep};

// Types.
const TRUTH: Step = Step::Type(TypeStep::Bool);

const INDIVIDUAL: Step = Step::Type(TypeStep::Individuals);

const TO: Step = Step::Type(TypeStep::Function);

const OVER_A: Step = Step::Type(TypeStep::Variable(b'A'));

const OVER_B: Step = Step::Type(TypeStep::Variable(b'B'));

const OVER_C: Step = Step::Type(TypeStep::Variable(b'C'));

/// `bool`
pub(crate) const BOOL: &[Step] = &[TRUTH];

/// `ind`
pub(crate) const IND: &[Step] = &[INDIVIDUAL];

/// The type variable A.
pub(crate) const A: &[Step] = &[OVER_A];

/// The type variable B.
pub(crate) const B: &[Step] = &[OVER_B];

/// `ind -> ind`
pub(crate) const UNARY: &[Step] = &[INDIVIDUAL, INDIVIDUAL, TO];

/// `ind -> ind -> ind`
pub(crate) const BINARY: &[Step] = &[INDIVIDUAL, INDIVIDUAL, INDIVIDUAL, TO, TO];

/// `bool -> bool`
pub(crate) const PREDICATE: &[Step] = &[TRUTH, TRUTH, TO];

/// `A -> A`
pub(crate) const ENDO: &[Step] = &[OVER_A, OVER_A, TO];

/// The second type with the first one for the variable A.
pub(crate) const PUT_TYPE: &[Step] = &[Step::Type(TypeStep::Put)];

/// `list` over a type.
pub(crate) const LIST: &[Step] = &[Step::Type(TypeStep::Lists(1))];

/// A type of size 1,048,575.
pub(crate) const LARGE_TYPE: &[Step] = &[TRUTH, Step::Type(TypeStep::Doubled(19))];

/// A type of size 1,048,576.
pub(crate) const LARGEST_TYPE: &[Step] = &[
    TRUTH,
    Step::Type(TypeStep::Doubled(19)),
    Step::Type(TypeStep::Lists(1)),
];

/// A type of depth 16,384.
pub(crate) const DEEPEST_TYPE: &[Step] = &[TRUTH, Step::Type(TypeStep::Lists(16_383))];

/// A type of size 1,048,575 over the variable A.
pub(crate) const LARGE_OVER_A: &[Step] = &[OVER_A, Step::Type(TypeStep::Doubled(19))];

/// A type of depth 10,000 over the variable A.
pub(crate) const DEEP_OVER_A: &[Step] = &[OVER_A, Step::Type(TypeStep::Lists(9_999))];

/// A type of depth 10,000.
pub(crate) const DEEP_TYPE: &[Step] = &[TRUTH, Step::Type(TypeStep::Lists(9_999))];

/// The constant `k : ind -> ind -> ind`.
pub(crate) const K: &[Step] = &[
    INDIVIDUAL,
    INDIVIDUAL,
    INDIVIDUAL,
    TO,
    TO,
    Step::Term(TermStep::Constant(b'k')),
];

/// The variable `x : ind`.
pub(crate) const X: &[Step] = &[INDIVIDUAL, Step::Term(TermStep::Free(b'x'))];

/// The variable `y : ind`.
pub(crate) const Y: &[Step] = &[INDIVIDUAL, Step::Term(TermStep::Free(b'y'))];

/// The variable `z : ind`.
pub(crate) const Z: &[Step] = &[INDIVIDUAL, Step::Term(TermStep::Free(b'z'))];

/// The variable `x : ind -> ind`.
pub(crate) const UNARY_X: &[Step] = &[INDIVIDUAL, INDIVIDUAL, TO, Step::Term(TermStep::Free(b'x'))];

/// The constant `T : bool`.
pub(crate) const TRUE: &[Step] = &[TRUTH, Step::Term(TermStep::Constant(b'T'))];

/// The variable `p : bool`.
pub(crate) const P: &[Step] = &[TRUTH, Step::Term(TermStep::Free(b'p'))];

/// The variable `q : bool`.
pub(crate) const Q: &[Step] = &[TRUTH, Step::Term(TermStep::Free(b'q'))];

/// The variable `b : bool`.
pub(crate) const TRUTH_VALUE: &[Step] = &[TRUTH, Step::Term(TermStep::Free(b'b'))];

/// The variable `x : bool`.
pub(crate) const BOOL_X: &[Step] = &[TRUTH, Step::Term(TermStep::Free(b'x'))];

/// The variable `u : bool`.
pub(crate) const BOOL_U: &[Step] = &[TRUTH, Step::Term(TermStep::Free(b'u'))];

/// The variable `x : A`.
pub(crate) const A_X: &[Step] = &[OVER_A, Step::Term(TermStep::Free(b'x'))];

/// The variable `u : A`.
pub(crate) const A_U: &[Step] = &[OVER_A, Step::Term(TermStep::Free(b'u'))];

/// The variable `f : bool -> bool`.
pub(crate) const F: &[Step] = &[TRUTH, TRUTH, TO, Step::Term(TermStep::Free(b'f'))];

/// The variable `g : bool -> bool -> bool`.
pub(crate) const G: &[Step] = &[
    TRUTH,
    TRUTH,
    TRUTH,
    TO,
    TO,
    Step::Term(TermStep::Free(b'g')),
];

/// The variable `f : A -> A -> C`.
pub(crate) const A_F: &[Step] = &[
    OVER_A,
    OVER_A,
    OVER_C,
    TO,
    TO,
    Step::Term(TermStep::Free(b'f')),
];

/// The constant `m : ind -> bool -> ind`.
pub(crate) const M: &[Step] = &[
    INDIVIDUAL,
    TRUTH,
    INDIVIDUAL,
    TO,
    TO,
    Step::Term(TermStep::Constant(b'm')),
];

/// The constant `p : (ind -> ind) -> (bool -> ind) -> ind`.
pub(crate) const PAIRING: &[Step] = &[
    INDIVIDUAL,
    INDIVIDUAL,
    TO,
    TRUTH,
    INDIVIDUAL,
    TO,
    INDIVIDUAL,
    TO,
    TO,
    Step::Term(TermStep::Constant(b'p')),
];

/// A function applied to an argument.
pub(crate) const APP: &[Step] = &[Step::Term(TermStep::App)];

/// The equation of two terms.
pub(crate) const EQUALS: &[Step] = &[Step::Term(TermStep::Equation)];

/// The body of an abstraction.
pub(crate) const BODY: &[Step] = &[Step::Term(TermStep::Body)];

/// The body of an abstraction with an argument for its variable.
pub(crate) const INST: &[Step] = &[Step::Term(TermStep::Inst)];

/// A tree with its loose numbers raised by one.
pub(crate) const RAISE: &[Step] = &[Step::Term(TermStep::Lift(1))];

/// A tree with its loose numbers raised by seven.
pub(crate) const RAISE_BY_SEVEN: &[Step] = &[Step::Term(TermStep::Lift(7))];

/// A body with an argument for its variable.
pub(crate) const PUT: &[Step] = &[Step::Term(TermStep::Put)];

/// A body of two binders with two arguments for their variables.
pub(crate) const PUT_BOTH: &[Step] = &[Step::Term(TermStep::PutBoth)];

/// A term with a type for the variable A, and then with two terms for two variables.
pub(crate) const SUBST: &[Step] = &[Step::Term(TermStep::Subst)];

/// A term with two terms for two variables.
pub(crate) const PUT_TWO: &[Step] = &[Step::Term(TermStep::PutTwo)];

/// A term with two terms for two variables, and between them for those of the first eight letters what is put for the second.
pub(crate) const PUT_TEN: &[Step] = &[Step::Term(TermStep::PutTen)];

/// The variable `a : ind`.
pub(crate) const LETTER_A: &[Step] = &[INDIVIDUAL, Step::Term(TermStep::Free(b'a'))];

/// The variable `8 : ind`, whose name has the same one of 64 bits as that of x.
pub(crate) const EIGHT: &[Step] = &[INDIVIDUAL, Step::Term(TermStep::Free(b'8'))];

/// The abstraction over `8 : ind`.
pub(crate) const OVER_EIGHT: &[Step] = &[INDIVIDUAL, Step::Term(TermStep::Abs(b'8'))];

/// The abstraction over `x : ind`.
pub(crate) const OVER_X: &[Step] = &[INDIVIDUAL, Step::Term(TermStep::Abs(b'x'))];

/// The abstraction over `y : ind`.
pub(crate) const OVER_Y: &[Step] = &[INDIVIDUAL, Step::Term(TermStep::Abs(b'y'))];

/// The abstraction over `z : ind`.
pub(crate) const OVER_Z: &[Step] = &[INDIVIDUAL, Step::Term(TermStep::Abs(b'z'))];

/// The abstraction over `p : bool`.
pub(crate) const OVER_P: &[Step] = &[TRUTH, Step::Term(TermStep::Abs(b'p'))];

/// The abstraction over `q : bool`.
pub(crate) const OVER_Q: &[Step] = &[TRUTH, Step::Term(TermStep::Abs(b'q'))];

/// The abstraction over `b : bool`.
pub(crate) const OVER_TRUTH_VALUE: &[Step] = &[TRUTH, Step::Term(TermStep::Abs(b'b'))];

/// The abstraction over `x : A`.
pub(crate) const OVER_A_X: &[Step] = &[OVER_A, Step::Term(TermStep::Abs(b'x'))];

/// The abstraction over `y : A`.
pub(crate) const OVER_A_Y: &[Step] = &[OVER_A, Step::Term(TermStep::Abs(b'y'))];

/// The abstraction over `y : B`.
pub(crate) const OVER_B_Y: &[Step] = &[OVER_B, Step::Term(TermStep::Abs(b'y'))];

/// The abstraction over `y : bool`.
pub(crate) const OVER_BOOL_Y: &[Step] = &[TRUTH, Step::Term(TermStep::Abs(b'y'))];

/// The abstraction over `v` of a type that was made before.
pub(crate) const OVER_TYPE: &[Step] = &[Step::Term(TermStep::Abs(b'v'))];

/// A term of size 655,352 over `g` and `p`.
pub(crate) const LARGE: &[Step] = &[
    TRUTH,
    TRUTH,
    TRUTH,
    TO,
    TO,
    Step::Term(TermStep::Free(b'g')),
    TRUTH,
    Step::Term(TermStep::Free(b'p')),
    Step::Term(TermStep::Doubled(16)),
];

/// A term of depth 16,384 over `f` and `p`.
pub(crate) const DEEP: &[Step] = &[
    TRUTH,
    TRUTH,
    TO,
    Step::Term(TermStep::Free(b'f')),
    TRUTH,
    Step::Term(TermStep::Free(b'p')),
    Step::Term(TermStep::Applied(16_380)),
];

/// A term of size 737,082 and depth 16,384 over `f`, `g` and `p`.
pub(crate) const LARGE_DEEP: &[Step] = &[
    TRUTH,
    TRUTH,
    TO,
    Step::Term(TermStep::Free(b'f')),
    TRUTH,
    TRUTH,
    TRUTH,
    TO,
    TO,
    Step::Term(TermStep::Free(b'g')),
    TRUTH,
    Step::Term(TermStep::Free(b'p')),
    Step::Term(TermStep::Doubled(16)),
    Step::Term(TermStep::Applied(16_346)),
];

/// A term of depth 16,383 over `f` and `p`.
pub(crate) const DEEP_BODY: &[Step] = &[
    TRUTH,
    TRUTH,
    TO,
    Step::Term(TermStep::Free(b'f')),
    TRUTH,
    Step::Term(TermStep::Free(b'p')),
    Step::Term(TermStep::Applied(16_379)),
];

/// A term of depth 16,382 over `f` and `p`.
pub(crate) const DEEP_BODY_OF_TWO: &[Step] = &[
    TRUTH,
    TRUTH,
    TO,
    Step::Term(TermStep::Free(b'f')),
    TRUTH,
    Step::Term(TermStep::Free(b'p')),
    Step::Term(TermStep::Applied(16_378)),
];

/// The variable `v` of a type that was made before.
pub(crate) const V: &[Step] = &[Step::Term(TermStep::Free(b'v'))];

/// The constant `v` of a type that was made before.
pub(crate) const CONSTANT_V: &[Step] = &[Step::Term(TermStep::Constant(b'v'))];
