//! How a run of the program went.
ghost use Rattle.std.specs.Prelude.{◌≡◌};
ghost use Rattle.bridge_spec.specs.Texts.{status_number};

use common::Kind;
use lp_spec::DkKind;

/// The answer of the program.
#[derive(Debug, Drop, PartialEq, Eq)]
pub enum Status {
    /// The run was accepted, and the outputs stand whole.
    Done,
    /// This article, counted from 1, is refused at this line, counted from 1.
    Refused { article: u64, line: u64, kind: Kind },
    /// The words are no form of the program.
    Usage,
    /// A file could not be read.
    ReadFault,
    /// An output could not be written; it replaces whatever else was to be answered.
    WriteFault,
    /// There was no memory left.
    Memory,
    /// The file of a module is refused at this byte, counted from 0.
    DkRefused { place: u64, kind: DkKind },
    /// The check of this declaration, counted from 0, says no, and those before it pass.
    IllTyped(u64),
    /// The check of this declaration, counted from 0, does not end within its budget, and those before it pass.
    OverBudget(u64),
    /// The type of this declaration, counted from 0 and named as an export, stands for no closed sequent within the limits, and
    /// those of the exports before it do.
    NotSequent(u64),
    /// One article cannot say what the articles export, or not in as many bytes as an article may have.
    Unwritable,
}

impl Status {
    /// The number with which the program ends.
    pub fn number(&self) -> u8
        ensures { result ≡ status_number self.now }
    {
        match self {
            Status::Done => 0,
            Status::Refused { .. } => 1,
            Status::Usage => 2,
            Status::ReadFault => 3,
            Status::WriteFault => 4,
            Status::Memory => 5,
            Status::DkRefused { .. } => 6,
            Status::IllTyped(_) => 7,
            Status::OverBudget(_) => 8,
            Status::NotSequent(_) => 9,
            Status::Unwritable => 10,
        }
    }
}
