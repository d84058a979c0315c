//! What is to be answered.
ghost use Rattle.std.specs.Prelude.{◌≡◌};
ghost use Rattle.bridge_answer.specs.AnswerTexts.{status_of, text_of};

use bridge_spec::Status;
use common::Kind;
use lp_spec::DkKind;

/// What is to be answered, before anything is written.
#[derive(Drop)]
pub enum Answer {
    /// A text for standard output, and nothing to say beside it.
    Told(Vec<u8>),
    /// This article is refused at this line.
    Refused(u64, u64, Kind),
    Usage,
    ReadFault,
    Memory,
    /// The file of a module is refused at this byte.
    DkRefused(u64, DkKind),
    /// This declaration is ill typed.
    IllTyped(u64),
    /// The check of this declaration does not end within its budget.
    OverBudget(u64),
    /// The type of this declaration, which is named as an export, stands for no closed sequent.
    NotSequent(u64),
    /// One article cannot say what the articles export.
    Unwritable,
}

impl Answer {
    /// The answer as a status.
    pub fn into_status(self) -> Status
        ensures { result ≡ status_of self }
    {
        match self {
            Answer::Told(_) => Status::Done,
            Answer::Refused(article, line, kind) => Status::Refused {
                article,
                line,
                kind,
            },
            Answer::Usage => Status::Usage,
            Answer::ReadFault => Status::ReadFault,
            Answer::Memory => Status::Memory,
            Answer::DkRefused(place, kind) => Status::DkRefused { place, kind },
            Answer::IllTyped(i) => Status::IllTyped(i),
            Answer::OverBudget(i) => Status::OverBudget(i),
            Answer::NotSequent(i) => Status::NotSequent(i),
            Answer::Unwritable => Status::Unwritable,
        }
    }

    /// What the answer writes to standard output.
    pub fn text(&self) -> &[u8]
        ensures { result.now ≡ text_of self.now }
    {
        match self {
            Answer::Told(text) => text,
            _ => &[],
        }
    }
}
