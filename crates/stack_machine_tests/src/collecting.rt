//! Articles that hold a few names and lists, and make many that nothing holds.
use crate::trials::{Case, Turn};
use hol_spec::StepKind;

// So many rounds make the machine give up names and lists several times.
const ROUNDS: u32 = 4000;

// A list of lists of names, which is dropped.
const DROPPED: &[u8] = b"\"a\" \"b\" nil cons cons \"c\" const nil cons cons pop";

/// The cases.
pub(crate) const CASES: [Case; 2] = [
    // The name `r` stands on the stack, and a list of the list of q under 20. Each gives what a new one gives.
    Case {
        name: "few_held",
        turns: &[
            Turn::Obey(b"\"r\" 2 ref nil cons nil cons 20 def pop"),
            Turn::Often(ROUNDS, DROPPED),
            Turn::Obey(b"20 ref hdTl pop 1 ref axiom pop 2 ref nil cons 1 ref axiom pop"),
            Turn::Obey(b"0 ref var varTerm nil cons 1 ref axiom pop"),
            Turn::Obey(b"\"r\" 0 ref var varTerm nil cons 1 ref axiom pop"),
            Turn::End,
            Turn::Made(&[0, 2], &[], 4),
            Turn::By(0, StepKind::Axiom, &[], 1),
            Turn::By(1, StepKind::Restate, &[0], 1),
            Turn::By(2, StepKind::Axiom, &[], 1),
            Turn::By(3, StepKind::Restate, &[2], 1),
        ],
    },
    // A list under 20 grows from that of the name `z`, and is taken apart again. `z` gives what a new one gives.
    Case {
        name: "many_held",
        turns: &[
            Turn::Obey(b"\"z\" nil cons 20 def pop"),
            Turn::Often(ROUNDS, b"\"y\" 20 ref cons 20 def pop \"a\" nil cons pop"),
            Turn::Often(ROUNDS, b"20 ref hdTl 20 def pop pop \"b\" nil cons pop"),
            Turn::Obey(b"20 ref hdTl pop 0 ref var varTerm nil cons 1 ref axiom pop"),
            Turn::Obey(b"\"z\" 0 ref var varTerm nil cons 1 ref axiom pop"),
            Turn::End,
            Turn::Made(&[0], &[], 2),
            Turn::By(0, StepKind::Axiom, &[], 1),
            Turn::By(1, StepKind::Restate, &[0], 1),
        ],
    },
];
