// What an edit does to a file.
ghost use Rattle.std.specs.Prelude.{◌≡◌};

use crate::bytes::Bytes;
use crate::moves::Moves;
use crate::names::Span;
use crate::table::TableForm;
use std::marker::Model;

/// Bytes for a place.
#[derive(Drop)]
pub struct Patch {
    pub at: u64,
    pub bytes: Bytes,
}

/// A part of a new file: a range of the old one, these bytes, or so many rows of a table that begins at a place of the old
/// one, each with the places that it names moved.
#[derive(Drop)]
pub enum Segment {
    Copy(Span),
    Literal(Bytes),
    Table {
        form: TableForm,
        from: u64,
        rows: u64,
    },
}

/// Patches, seen as the list of them.
#[derive(Drop)]
pub struct Patches {
    items: Vec<Patch>,
}

impl Model for Patches {
    ghost use Rattle.std.specs.Prelude.{List};
    ghost use Rattle.part_tree.specs.declared.plan.Patch.{Patch};

    ghost Value = { List Patch };

    ghost view = { λ p. p.items.items };
}

impl Patches {
    pub fn new(items: Vec<Patch>) -> Patches
        ensures { result ≡ items.items }
    {
        Patches { items }
    }

    pub fn as_slice(&self) -> &[Patch]
        ensures { result.now ≡ self.now }
    {
        &self.items
    }
}

/// Segments, seen as the list of them.
#[derive(Drop)]
pub struct Segments {
    items: Vec<Segment>,
}

impl Model for Segments {
    ghost use Rattle.std.specs.Prelude.{List};
    ghost use Rattle.part_tree.specs.declared.plan.Segment.{Segment};

    ghost Value = { List Segment };

    ghost view = { λ s. s.items.items };
}

impl Segments {
    pub fn new(items: Vec<Segment>) -> Segments
        ensures { result ≡ items.items }
    {
        Segments { items }
    }

    pub fn as_slice(&self) -> &[Segment]
        ensures { result.now ≡ self.now }
    {
        &self.items
    }
}

/// Patches in place, or a new file, for which its tables tell where the places of the old one go.
#[derive(Drop)]
pub enum Plan {
    InPlace {
        old_len: u64,
        new_len: u64,
        patches: Patches,
    },
    Rewrite {
        new_len: u64,
        moves: Moves,
        segments: Segments,
    },
}

/// Why an edit isn't planned.
#[derive(Clone, Copy, Debug, PartialEq, Eq)]
pub enum PlanFault {
    /// A size of the new file passes its limit: bytes, or parts.
    TooLarge { size: u64, limit: u64 },
    /// The depot failed.
    Depot,
    Memory,
}
