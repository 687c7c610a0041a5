// What a batch answers.
ghost use Rattle.std.specs.Prelude.{◌≡◌, ℕ};
ghost use Rattle.metaedit_top.specs.BatchText.{outcome_of as outcome_in, end_of as end_in, is_done as done_in};

use crate::outcome::{Outcome, Stop, UsageFault};
use me_report::Summary;
use part_tree::{Broken, Why};

/// How a file of a batch ended: what an edit of it alone answers.
#[derive(Clone, Copy, Debug, PartialEq, Eq)]
pub enum FileEnd {
    /// The edit came to its end.
    Done(Summary),
    /// There is no file.
    NoFile,
    /// A journal stands beside the file, and it is damaged at this place.
    JournalDamaged { at: u64 },
    /// The file is refused.
    NotSupported(Why),
    /// The edit breaks a rule.
    RuleBroken(Broken),
    /// A size of the new file passes its limit.
    TooLarge { size: u64, limit: u64 },
    /// The file's device failed; it has now counted so many faults.
    DepotFault { faults: u64 },
    /// There was no memory for the edit of this file.
    Memory,
}

/// What a batch answers.
#[derive(Debug, Drop)]
pub enum BatchOutcome {
    /// Each file has its end, and the report was printed.
    Ran { ends: Vec<FileEnd> },
    /// The words are refused.
    Usage(UsageFault),
    /// The output failed; each file has its end before it.
    OutFault { ends: Vec<FileEnd> },
    /// The rounds were made, and the files without an end have calls left.
    Stopped { ends: Vec<Option<FileEnd>> },
    /// There was no memory, and no file was edited.
    Memory,
}

impl FileEnd {
    /// Whether the edit came to its end.
    pub(crate) fn is_done(&self) -> bool
        ensures { result ≡ done_in self.now }
    {
        matches!(self, FileEnd::Done(_))
    }
}

/// What an edit of the file alone answers.
pub(crate) fn outcome_of(end: &FileEnd) -> Outcome
    ensures { result ≡ outcome_in end.now }
{
    match end {
        FileEnd::Done(summary) => Outcome::Done(*summary),
        FileEnd::NoFile => Outcome::NoFile,
        FileEnd::JournalDamaged { at } => Outcome::JournalDamaged { at: *at },
        FileEnd::NotSupported(why) => Outcome::NotSupported(*why),
        FileEnd::RuleBroken(broken) => Outcome::RuleBroken(*broken),
        FileEnd::TooLarge { size, limit } => Outcome::TooLarge {
            size: *size,
            limit: *limit,
        },
        FileEnd::DepotFault { faults } => Outcome::DepotFault { faults: *faults },
        FileEnd::Memory => Outcome::Memory,
    }
}

/// The end of a file whose edit stops so, where its device has counted so many faults. No edit finds a file that is to
/// be made.
pub(crate) fn end_of(stop: Stop, faults: u64) -> FileEnd
    ensures { result ≡ end_in stop faults }
{
    match stop {
        Stop::Depot => FileEnd::DepotFault { faults },
        Stop::NoFile => FileEnd::NoFile,
        Stop::Damaged { at } => FileEnd::JournalDamaged { at },
        Stop::NotSupported(why) => FileEnd::NotSupported(why),
        Stop::RuleBroken(broken) => FileEnd::RuleBroken(broken),
        Stop::TooLarge { size, limit } => FileEnd::TooLarge { size, limit },
        Stop::Memory | Stop::FileThere => FileEnd::Memory,
    }
}
