//! The chunk `bext` of EBU Tech 3285 (versions 0 to 2) as a table of its ranges: which bytes are which field, how one field
//! is laid without a byte of another, how the version is raised, and how a body is edited. It knows bodies alone.
#![tactic(auto)]

ghost use Rattle.std.specs.Prelude.{◌≡◌, ◌+◌, ◌<◌, ◌≤◌, ℕ, List, length, get_or, position, IsErr, ◌↔◌, IfErr};
ghost use Rattle.field_model.specs.Bext.{lay_range, raised, range_of, version, without_loudness};
ghost use Rattle.bext_fields.specs.declared.FieldRow.{FieldRow};
ghost use Rattle.bext_fields.specs.Table.{IsInside, IsModelRow, bytes_of, is_of, with_bytes};

mod change;
mod edit;
#[cfg(test)]
mod tests;

pub use change::RawChange;
pub use edit::{NEW_BODY, edited_body, needed_version, new_edited_body};
pub use part_tree::{BextField, Form};

/// The least length of a body: the ranges of fixed length, in bytes.
pub const FIXED_LEN: u64 = 602;

/// A field of `bext`: where its range begins in the body, how long it is in bytes, and what its bytes are.
#[derive(Clone, Copy, Debug, PartialEq, Eq)]
pub struct FieldRow {
    pub field: BextField,
    pub at: u16,
    pub len: u16,
    pub form: Form,
}

/// The fields of fixed length, in order (EBU Tech 3285, section 2.3). The coding history is the rest of the body.
pub const BEXT: [FieldRow; 14] = [
    FieldRow {
        field: BextField::Description,
        at: 0,
        len: 256,
        form: Form::Text,
    },
    FieldRow {
        field: BextField::Originator,
        at: 256,
        len: 32,
        form: Form::Text,
    },
    FieldRow {
        field: BextField::OriginatorReference,
        at: 288,
        len: 32,
        form: Form::Text,
    },
    FieldRow {
        field: BextField::OriginationDate,
        at: 320,
        len: 10,
        form: Form::Date,
    },
    FieldRow {
        field: BextField::OriginationTime,
        at: 330,
        len: 8,
        form: Form::Time,
    },
    FieldRow {
        field: BextField::TimeReference,
        at: 338,
        len: 8,
        form: Form::Count,
    },
    FieldRow {
        field: BextField::Version,
        at: 346,
        len: 2,
        form: Form::Version,
    },
    FieldRow {
        field: BextField::Umid,
        at: 348,
        len: 64,
        form: Form::Umid,
    },
    FieldRow {
        field: BextField::LoudnessValue,
        at: 412,
        len: 2,
        form: Form::Loudness,
    },
    FieldRow {
        field: BextField::LoudnessRange,
        at: 414,
        len: 2,
        form: Form::Loudness,
    },
    FieldRow {
        field: BextField::MaxTruePeakLevel,
        at: 416,
        len: 2,
        form: Form::Loudness,
    },
    FieldRow {
        field: BextField::MaxMomentaryLoudness,
        at: 418,
        len: 2,
        form: Form::Loudness,
    },
    FieldRow {
        field: BextField::MaxShortTermLoudness,
        at: 420,
        len: 2,
        form: Form::Loudness,
    },
    FieldRow {
        field: BextField::Reserved,
        at: 422,
        len: 180,
        form: Form::Reserved,
    },
];

// The first place behind a row.
macro_rules! end_of {
    ($row:expr) => {
        $row.at + $row.len
    };
}

// Each row of the table begins where the one before it ends.
macro_rules! rows_follow {
    ($rows:ident: $first:literal $(, $next:literal)*) => {
        rows_follow!(@ $rows: $first; $($next),*)
    };
    (@ $rows:ident: $last:literal;) => {
        true
    };
    (@ $rows:ident: $row:literal; $next:literal $(, $more:literal)*) => {
        end_of!($rows[$row]) == $rows[$next].at && rows_follow!(@ $rows: $next; $($more),*)
    };
}

// The rows ascend without a gap and fill 602 bytes.
const _: () = prove!(BEXT[0].at == 0);

const _: () = prove!(rows_follow!(BEXT: 0, 1, 2, 3, 4, 5, 6, 7, 8, 9, 10, 11, 12, 13));

const _: () = prove!(end_of!(BEXT[13]) == 602);

// The bytes of a row's range.
macro_rules! range_of_row {
    ($bext:expr, $row:expr) => {
        &$bext[$row.at as usize..$row.at as usize + $row.len as usize]
    };
}

/// Each row of the table is the range of its number in the model, with the same form.
pub fn rows_are_the_ranges()
    ensures rows { (k : ℕ) (d : FieldRow) → k < 14 → IsModelRow (get_or BEXT k d) k }
    ensures bytes { (k : ℕ) (d : FieldRow) (body : List ℕ) → k < 14
        → bytes_of (get_or BEXT k d) body ≡ range_of k body }
    ensures laid { (k : ℕ) (d : FieldRow) (raw body : List ℕ) → k < 14
        → with_bytes (get_or BEXT k d) raw body ≡ lay_range k raw body }
{}

/// A body of so many bytes is too short for a `bext`.
#[derive(Clone, Copy, Debug, PartialEq, Eq)]
pub struct ShortBext {
    pub len: u64,
}

/// Whether a body of so many bytes can be a `bext`: `ShortBext` exactly below 602.
pub fn check_bext(len: u64) -> Result<(), ShortBext>
    ensures short { IsErr result ↔ (len < 602) }
    ensures len { IfErr result (λ fault. fault.len ≡ len) }
{
    if len < FIXED_LEN {
        return Err(ShortBext { len });
    }
    Ok(())
}

/// The number of the first row of a field, from 0. None where no row has it.
pub fn locate<const N: usize>(rows: &[FieldRow; N], field: BextField) -> Option<usize>
    ensures { result ≡ position (is_of field) rows.now }
{
    first_row(rows, field)
}

fn first_row(rows: &[FieldRow], field: BextField) -> Option<usize>
    ensures { result ≡ position (is_of field) rows.now }
{
    let mut k = 0;
    for row in rows {
        if row.field.row() == field.row() {
            return Some(k);
        }
        k += 1;
    }
    None
}

/// The bytes of a row's range.
pub fn get_raw<'a>(bext: &'a [u8], row: &FieldRow) -> &'a [u8]
    requires { IsInside row.now bext.now }
    ensures { result.now ≡ bytes_of row.now bext.now }
{
    range_of_row!(bext, row)
}

/// Lays bytes in a row's range; every other byte stays.
pub fn set_raw(bext: &mut [u8], row: &FieldRow, raw: &[u8])
    requires inside { IsInside row.now bext.old }
    requires fills { length raw.now ≡ row.now.len }
    ensures { bext.new ≡ with_bytes row.now raw.now bext.old }
{
    let at = row.at as usize;
    bext[at..at + row.len as usize].copy_from_slice(raw);
}

/// Raises the version to 1 or 2 where it is lower. What the new version adds gets no value: the UMID zeros where the version
/// was 0, the loudness fields 7FFF where it becomes 2. Every other byte stays.
pub fn raise_version(bext: &mut [u8], to: u16)
    requires long { 602 ≤ length bext.old }
    requires version { to ≤ 2 }
    ensures { bext.new ≡ raised to bext.old }
{
    let old = version_in(bext);
    if old >= to {
        return;
    }
    if old == 0 {
        set_raw(bext, &BEXT[7], &[0; 64]);
    }
    if to == 2 {
        clear_loudness(bext);
    }
    set_raw(bext, &BEXT[6], &to.to_le_bytes());
}

// The version that a body tells.
fn version_in(bext: &[u8]) -> u16
    requires { 602 ≤ length bext.now }
    ensures { result ≡ version bext.now }
{
    let raw = range_of_row!(bext, BEXT[6]);
    u16::from_le_bytes([raw[0], raw[1]])
}

const NO_LOUDNESS: [u8; 2] = [0xff, 0x7f];

// Takes the values of the five loudness fields away.
fn clear_loudness(bext: &mut [u8])
    requires { 602 ≤ length bext.old }
    ensures { bext.new ≡ without_loudness bext.old }
{
    set_raw(bext, &BEXT[12], &NO_LOUDNESS);
    set_raw(bext, &BEXT[11], &NO_LOUDNESS);
    set_raw(bext, &BEXT[10], &NO_LOUDNESS);
    set_raw(bext, &BEXT[9], &NO_LOUDNESS);
    set_raw(bext, &BEXT[8], &NO_LOUDNESS);
}
