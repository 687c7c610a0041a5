// Tables of an AVI file, and what becomes of them in a new file.
ghost use Rattle.std.specs.Prelude.{◌≡◌, ◌+◌, IfSome};
ghost use Rattle.avi_plan.specs.Changes.{change_at, change_len};

use part_tree::{Base, Span, TableForm};

/// What a table is: `idx1`, by what its offsets count from, or an index chunk of OpenDML, by its type.
#[derive(Clone, Copy, Debug, PartialEq, Eq)]
pub enum TableKind {
    Old(Base),
    Super,
    Standard,
}

/// A table, by its body.
#[derive(Clone, Copy, Debug, PartialEq, Eq)]
pub struct TableAt {
    pub body: Span,
    pub kind: TableKind,
}

/// What changes of a table: so many rows from a byte of the old file on, or the base of a standard index, which stands there.
#[derive(Clone, Copy, Debug, PartialEq, Eq)]
pub enum Change {
    Rows {
        form: TableForm,
        from: u64,
        rows: u64,
    },
    Base {
        at: u64,
        base: u64,
    },
}

impl Change {
    /// Where it begins.
    pub fn at(&self) -> u64
        ensures { result ≡ change_at self.now }
    {
        match self {
            Change::Rows { from, .. } => *from,
            Change::Base { at, .. } => *at,
        }
    }

    /// How many bytes it has in the old file. None where 64 bits don't hold the number.
    pub fn len(&self) -> Option<u64>
        ensures { IfSome result (λ n. n ≡ change_len self.now) }
    {
        match self {
            Change::Rows { form, rows, .. } => (form.width() as u64).checked_mul(*rows),
            Change::Base { .. } => Some(8),
        }
    }

    /// Where it ends. None where 64 bits don't hold the number.
    pub fn end(&self) -> Option<u64>
        ensures { IfSome result (λ n. n ≡ change_at self.now + change_len self.now) }
    {
        let Some(len) = self.len() else {
            return None;
        };
        self.at().checked_add(len)
    }
}
