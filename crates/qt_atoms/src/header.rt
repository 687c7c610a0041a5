// The header of an atom, and how far the atom goes by it.
ghost use Rattle.std.specs.Prelude.{◌≡◌, ◌≢◌, ◌≤◌, ℕ, List, length, take, drop, nat_lt};
ghost use Rattle.std.specs.Int.{w32, from_be_bytes};
ghost use Rattle.container_model.specs.Sizes.{Level, atom_front, atom_wide, atom_zero};
ghost use Rattle.qt_atoms.specs.Walk.{level_of, header_len};
ghost use Rattle.qt_atoms.specs.Headers.{HasSize, HasWide, FitsRoom, header_from};

use part_tree::FourCc;

/// What atoms stand in: the file, where the last one may go on to the end, another atom, or user data, where a size of 0
/// begins the rest.
#[derive(Clone, Copy, Debug, PartialEq, Eq)]
pub enum Parent {
    File,
    Atom,
    UserData,
}

/// How a header gives the size: in four bytes, in eight behind the type, or as all that follows.
#[derive(Clone, Copy, Debug, PartialEq, Eq)]
pub enum SizeForm {
    Short,
    Long,
    ToEnd,
}

impl SizeForm {
    /// How many bytes such a header has.
    pub fn header_len(self) -> u64
        ensures { result ≡ header_len self }
    {
        match self {
            SizeForm::Long => 16,
            SizeForm::Short | SizeForm::ToEnd => 8,
        }
    }
}

/// The first eight bytes of an atom: the number in its size's place, and its type.
#[derive(Clone, Copy, Debug, PartialEq, Eq)]
pub struct Head {
    pub size: u32,
    pub kind: FourCc,
}

/// How far an atom goes by its header: no atom stands here, the size is smaller than the header, the header passes the end,
/// or the form of the header and the length of the body.
#[derive(Clone, Copy, Debug, PartialEq, Eq)]
pub enum Extent {
    Rest,
    Small,
    PastEnd,
    Whole { form: SizeForm, len: u64 },
}

// A header's first eight bytes.
pub fn head_of(bytes: &[u8; 8]) -> Head
    ensures letters { length result.kind.0 ≡ 4 }
    ensures size { result.size ≡ from_be_bytes w32 (take 4 bytes.now) }
    ensures kind { result.kind.0 ≡ take 4 (drop 4 bytes.now) }
{
    let size = u32::from_be_bytes([bytes[0], bytes[1], bytes[2], bytes[3]]);
    let kind = FourCc([bytes[4], bytes[5], bytes[6], bytes[7]]);
    Head { size, kind }
}

// How far the atom goes whose header has these numbers, where so many bytes are left.
pub fn extent_of(parent: Parent, size: u32, wide: u64, room: u64) -> Extent
    requires { 8 ≤ room }
    ensures header { (w : List ℕ) → length w ≡ room → HasSize w size wide
        → atom_front (level_of parent) w ≡ header_from (level_of parent) w result }
    ensures room { FitsRoom room result }
    ensures rest { result ≡ Extent.Rest → parent ≡ Parent.UserData }
{
    if size == 1 {
        return long_extent(wide, room);
    }
    if size == 0 {
        return open_extent(parent, room);
    }
    if size < 8 {
        return Extent::Small;
    }
    Extent::Whole {
        form: SizeForm::Short,
        len: u64::from(size) - 8,
    }
}

// The same where the size is in eight bytes.
fn long_extent(wide: u64, room: u64) -> Extent
    ensures header { (s : Level) (w : List ℕ) → length w ≡ room → HasWide w wide
        → atom_wide s w (nat_lt (length w) 16) ≡ header_from s w result }
    ensures room { FitsRoom room result }
    ensures there { result ≢ Extent.Rest }
{
    if room < 16 {
        return Extent::PastEnd;
    }
    if wide < 16 {
        return Extent::Small;
    }
    Extent::Whole {
        form: SizeForm::Long,
        len: wide - 16,
    }
}

// The same where the size is 0.
fn open_extent(parent: Parent, room: u64) -> Extent
    requires { 8 ≤ room }
    ensures header { (w : List ℕ) → length w ≡ room
        → atom_zero (level_of parent) w ≡ header_from (level_of parent) w result }
    ensures room { FitsRoom room result }
    ensures rest { result ≡ Extent.Rest → parent ≡ Parent.UserData }
{
    match parent {
        Parent::File => Extent::Whole {
            form: SizeForm::ToEnd,
            len: room - 8,
        },
        Parent::Atom => Extent::Small,
        Parent::UserData => Extent::Rest,
    }
}
