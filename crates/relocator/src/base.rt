// The new base of a standard index.
ghost use Rattle.std.specs.Prelude.{◌≡◌, ◌<◌, ◌^◌};
ghost use Rattle.relocator.specs.Bases.{HasPlace, moved_base};

use crate::number::moved_place;
use part_tree::{IndexHead, Moves};

/// The new base of a standard index whose first counted entry had this place: it moves with that entry, but not below 0. An
/// index without a counted entry keeps its base.
pub fn new_base(head: &IndexHead, counted: Option<u64>, moves: &Moves) -> u64
    requires { HasPlace counted head.now.base }
    ensures { result ≡ moved_base moves.now head.now.base counted }
{
    let Some(old) = counted else {
        return head.base;
    };
    let mut near = 0;
    let new = moved_place(moves, &mut near, old);
    if old <= new {
        head.base + (new - old)
    } else {
        head.base.saturating_sub(old - new)
    }
}
