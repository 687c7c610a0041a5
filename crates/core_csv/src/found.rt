// The file's row.
use core_edit::Edit;

/// The number of the file's row, from 1, and its edit.
#[derive(Debug, Drop)]
pub(crate) struct Found {
    pub(crate) row: u32,
    pub(crate) edit: Edit,
}
