// The names that a table has used.
ghost use Rattle.std.specs.Prelude.{◌≡◌, ◌||◌, ℕ, List, [], not, IfOk, OnOk};
ghost use Rattle.std.specs.Str.{bytes_eq};
ghost use Rattle.core_table.specs.Sets.{has};

use me_bytes::NoMemory;
use std::alloc::Global;
use std::collections::BTreeSet;
use std::marker::Model;

/// Names, seen as a list of them in some order. One is looked up in a number of steps that grows with the logarithm of theirs.
#[derive(Debug, Drop)]
pub struct Seen {
    held: BTreeSet<Vec<u8>>,
}

impl Model for Seen {
    ghost use Rattle.std.specs.Prelude.{ℕ, List, map};

    ghost Value = { List (List ℕ) };

    ghost view = { λ s. map (λ v. v.items) s.held.keys };
}

impl Seen {
    /// No names.
    pub fn new(alloc: Global) -> Seen
        ensures { result ≡ [] }
    {
        Seen {
            held: BTreeSet::new(alloc),
        }
    }

    /// Takes a name. Whether it is a new one.
    pub fn add(&mut self, alloc: Global, name: &[u8]) -> Result<bool, NoMemory>
        ensures added { IfOk result (λ added. added ≡ not (has self.old name.now)) }
        ensures held { OnOk result ((other : List ℕ)
            → has self.new other ≡ (bytes_eq other name.now || has self.old other)) }
    {
        let copy = Vec::from_slice(alloc, name)?;
        match self.held.insert(copy) {
            Ok(added) => Ok(added),
            Err(_) => Err(NoMemory),
        }
    }
}
