// What a run answers.

use core_table::TableFault;
use file_swap::Swap;
use me_report::Summary;
use part_tree::{Broken, Bytes, Why};

/// What is wrong with the words of the command line.
#[derive(Clone, Copy, Debug, PartialEq, Eq)]
pub enum UsageFault {
    /// There are no words.
    NoCommand,
    /// The first word is no command.
    UnknownCommand,
    /// The words behind the command aren't those that it takes.
    Words,
    /// No file of that kind and number is made.
    Value,
    /// Item n, from 1, has no `=`, or nothing before it.
    Item { n: u64 },
    /// What stands before the `=` of item n names no field.
    Field { n: u64 },
    /// Item n names the field of an earlier one.
    Twice { n: u64 },
    /// File n of a batch, from 1, is named by the word of an earlier one.
    SameFile { n: u64 },
}

/// What a run answers.
#[derive(Clone, Copy, Debug, PartialEq, Eq)]
pub enum Outcome {
    /// The run came to its end, and its report was printed.
    Done(Summary),
    /// The words are refused.
    Usage(UsageFault),
    /// The table couldn't be read.
    TableReadFault,
    /// The table is refused.
    TableFault(TableFault),
    /// The device failed; it has now counted so many faults.
    DepotFault { faults: u64 },
    /// There is no file.
    NoFile,
    /// A file is there that was to be made.
    FileThere,
    /// A journal stands beside the file, and it is damaged at this place.
    JournalDamaged { at: u64 },
    /// The file is refused.
    NotSupported(Why),
    /// The edit breaks a rule.
    RuleBroken(Broken),
    /// A size of the new file passes its limit.
    TooLarge { size: u64, limit: u64 },
    /// The output failed; the file was edited before it, or not.
    OutFault { edited: bool },
    /// There was no memory.
    Memory,
}

/// What a run has done and is to print.
#[derive(Debug, Drop)]
pub(crate) struct Finished {
    pub(crate) summary: Summary,
    pub(crate) text: Bytes,
}

/// What is ready for an edit: what is to be printed once it is done, and the swap that makes it; none where no item has
/// an effect.
#[derive(Drop)]
pub(crate) struct Prepared {
    pub(crate) finished: Finished,
    pub(crate) swap: Option<Swap>,
}

/// Why a run stops before its output.
#[derive(Clone, Copy, Debug, PartialEq, Eq)]
pub(crate) enum Stop {
    Depot,
    NoFile,
    FileThere,
    Damaged { at: u64 },
    NotSupported(Why),
    RuleBroken(Broken),
    TooLarge { size: u64, limit: u64 },
    Memory,
}
