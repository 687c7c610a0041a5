// Why an atom is refused.
ghost use Rattle.std.specs.Prelude.{◌≡◌, ◌≤◌, ℕ, List};
ghost use Rattle.container_model.specs.Tests.{first};
ghost use Rattle.mov_file.specs.Tests.{file_by, moov_by};

use part_tree::Why;
use qt_atoms::AtomAt;

const MOST_MOOV: u64 = 67_108_864;

const MOST_USER: u64 = 16_777_216;

// The first of these tests that holds.
fn first_of(tests: &[(bool, Why)]) -> Option<Why>
    ensures { result ≡ first tests.now }
{
    for (holds, why) in tests {
        if *holds {
            return Some(*why);
        }
    }
    None
}

// What an atom of the file is refused for.
pub fn file_why(has_moov: bool, atom: &AtomAt) -> Option<Why>
    requires { atom.now.at ≤ atom.now.next }
    ensures { result ≡ first (file_by has_moov atom.now) }
{
    let moov = atom.kind.is(b"moov");
    let len = atom.next - atom.at;
    first_of(&[
        (atom.kind.is(b"moof"), Why::Fragments { at: atom.at }),
        (moov & has_moov, Why::TwoMoov),
        (moov & (len > MOST_MOOV), Why::MoovBig { len }),
    ])
}

// What an atom directly in `moov` is refused for.
pub fn moov_why(has_user: bool, atom: &AtomAt) -> Option<Why>
    ensures { result ≡ first (moov_by has_user atom.now) }
{
    let user = atom.kind.is(b"udta") & (!has_user & (atom.body.len > MOST_USER));
    let big = Why::CarrierBig {
        id: atom.kind,
        len: atom.body.len,
    };
    first_of(&[
        (atom.kind.is(b"cmov"), Why::Compressed),
        (atom.kind.is(b"rmra"), Why::Reference),
        (atom.kind.is(b"mvex"), Why::Fragments { at: atom.at }),
        (user, big),
    ])
}
