// What an atom in `moov` stands in, and what is opened there.
ghost use Rattle.std.specs.Prelude.{◌≡◌, option_map, [], if◌then◌else◌, IfSome, Some, None};
ghost use Rattle.container_model.specs.Atoms.{atom};
ghost use Rattle.mov_model.specs.Atoms.{opens};
ghost use Rattle.mov_plan.specs.Planned.{holds_by};
ghost use Rattle.mov_plan.specs.Within.{parent_in, place_in};

use part_tree::FourCc;
use qt_atoms::Parent;

/// What an atom in `moov` stands in.
#[derive(Clone, Copy, Debug, PartialEq, Eq)]
pub enum Within {
    UserData,
    Moov,
    Trak,
    Mdia,
    Minf,
    Stbl,
    Dinf,
}

/// How atoms are read there.
pub fn parent(within: Within) -> Parent
    ensures { result ≡ parent_in within }
{
    match within {
        Within::UserData => Parent::UserData,
        _ => Parent::Atom,
    }
}

/// What the atoms in an atom of this type stand in, where it is opened.
pub fn opened(within: Within, kind: FourCc) -> Option<Within>
    ensures place { option_map place_in result ≡ opens (place_in within) kind.0 [] }
    ensures plain { IfSome result (λ inner. parent_in inner ≡ Parent.Atom) }
{
    match within {
        Within::Moov => opened_as(kind.is(b"trak"), Within::Trak),
        Within::Trak => opened_as(kind.is(b"mdia"), Within::Mdia),
        Within::Mdia => opened_as(kind.is(b"minf"), Within::Minf),
        Within::Minf => {
            if kind.is(b"stbl") {
                Some(Within::Stbl)
            } else {
                opened_as(kind.is(b"dinf"), Within::Dinf)
            }
        }
        _ => None,
    }
}

// Such a place, where a test holds.
fn opened_as(is: bool, within: Within) -> Option<Within>
    ensures { result ≡ (if is then Some within else None) }
{
    if is { Some(within) } else { None }
}

/// Whether an atom of this type is opened, or is a table of chunk places of four bytes.
pub fn holds(within: Within, kind: FourCc) -> bool
    ensures { result ≡ holds_by (place_in within) (atom kind.0 []) }
{
    match within {
        Within::Stbl => kind.is(b"stco"),
        _ => opened(within, kind).is_some(),
    }
}
