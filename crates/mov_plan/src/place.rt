// What an edit leaves of the atoms of `moov`, and what stands behind them.
use unit_plan::What;

/// A place in `moov`, from the byte `at` up to the byte `next` of the file, and how many atoms are counted for what is to stand
/// there, those in them among them.
#[derive(Debug, Drop)]
pub struct Place {
    pub at: u64,
    pub next: u64,
    pub parts: u64,
    pub what: What,
}

/// What stands behind the atoms of `moov`: whether nothing is left in it, so that a slot that ends them `goes_on`
/// behind `moov`; the bytes of the padding directly behind `moov`, and how many atoms it is; and whether that padding, or `moov`
/// where there is none, comes `last` in the file.
#[derive(Clone, Copy, Debug, PartialEq, Eq)]
pub struct Behind {
    pub goes_on: bool,
    pub gap: u64,
    pub gaps: u64,
    pub last: bool,
}
