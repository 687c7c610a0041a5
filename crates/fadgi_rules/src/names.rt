// The fields that rules look at.
ghost use Rattle.std.specs.Prelude.{◌≡◌, ◌<◌, length, slice_index_or};
ghost use Rattle.fadgi_rules.specs.Looked.{names_of};

use part_tree::{BextField, FieldName, FourCc};

/// Some fields of one sort, in field order.
#[derive(Clone, Copy, Debug)]
pub enum Names {
    Bext(&'static [BextField]),
    Info(&'static [FourCc]),
    User(&'static [FourCc]),
}

impl Names {
    pub fn len(&self) -> usize
        ensures { result ≡ length (names_of self.now) }
    {
        match self {
            Names::Bext(fields) => fields.len(),
            Names::Info(ids) => ids.len(),
            Names::User(ids) => ids.len(),
        }
    }

    /// The k-th name, from 0.
    pub fn at(&self, k: usize) -> FieldName
        requires { k < length (names_of self.now) }
        ensures { result ≡ slice_index_or (names_of self.now) k result }
    {
        match self {
            Names::Bext(fields) => FieldName::Bext(fields[k]),
            Names::Info(ids) => FieldName::Info(id_at(ids, k)),
            Names::User(ids) => FieldName::User(id_at(ids, k)),
        }
    }
}

fn id_at(ids: &[FourCc], k: usize) -> FourCc
    requires { k < length ids.now }
    ensures { result ≡ slice_index_or ids.now k result }
{
    ids[k]
}
