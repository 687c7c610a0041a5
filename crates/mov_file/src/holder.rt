// What an atom stands in, and what is opened there.
ghost use Rattle.std.specs.Prelude.{◌≡◌, option_map, [], if◌then◌else◌, Some, None};
ghost use Rattle.mov_model.specs.Atoms.{opens};
ghost use Rattle.mov_model.specs.Reading.{once};
ghost use Rattle.mov_file.specs.Holder.{parent_of, place_of};

use part_tree::FourCc;
use qt_atoms::Parent;

/// What an atom stands in.
#[derive(Clone, Copy, Debug, PartialEq, Eq)]
pub enum Holder {
    File,
    UserData,
    Moov,
    Trak,
    Mdia,
    Minf,
    Stbl,
    Dinf,
}

// How atoms are read there.
pub fn parent(holder: Holder) -> Parent
    ensures { result ≡ parent_of holder }
{
    match holder {
        Holder::File => Parent::File,
        Holder::UserData => Parent::UserData,
        _ => Parent::Atom,
    }
}

// What the atoms in an atom of this type stand in, where it is opened.
pub fn opened(holder: Holder, kind: FourCc) -> Option<Holder>
    ensures { option_map place_of result ≡ opens (place_of holder) kind.0 [] }
{
    match holder {
        Holder::Moov => opened_as(kind.is(b"trak"), Holder::Trak),
        Holder::Trak => opened_as(kind.is(b"mdia"), Holder::Mdia),
        Holder::Mdia => opened_as(kind.is(b"minf"), Holder::Minf),
        Holder::Minf => {
            if kind.is(b"stbl") {
                Some(Holder::Stbl)
            } else {
                opened_as(kind.is(b"dinf"), Holder::Dinf)
            }
        }
        _ => None,
    }
}

fn opened_as(is: bool, holder: Holder) -> Option<Holder>
    ensures { result ≡ (if is then Some holder else None) }
{
    if is { Some(holder) } else { None }
}

// The name under which an atom stands once in a track; both tables of chunk places have one name.
pub fn once_as(holder: Holder, kind: FourCc) -> Option<FourCc>
    ensures { option_map (λ name. name.0) result ≡ once (place_of holder) kind.0 }
{
    match holder {
        Holder::Trak => named(kind.is(b"mdia"), kind),
        Holder::Mdia => named(kind.is(b"minf"), kind),
        Holder::Minf => named(kind.is(b"stbl") | kind.is(b"dinf"), kind),
        Holder::Stbl => {
            if kind.is(b"co64") {
                Some(FourCc(*b"stco"))
            } else {
                named(
                    kind.is(b"stco") | (kind.is(b"stsc") | kind.is(b"stsz")),
                    kind,
                )
            }
        }
        Holder::Dinf => named(kind.is(b"dref"), kind),
        _ => None,
    }
}

fn named(is: bool, kind: FourCc) -> Option<FourCc>
    ensures { result ≡ (if is then Some kind else None) }
{
    if is { Some(kind) } else { None }
}
