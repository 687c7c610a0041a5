//! Carriers of metadata items in a list of chunks: what an edit makes of their items, and where these stand.
//! It knows the list of INFO items and the padding of RIFF, and no kind of file.
#![tactic(auto)]

ghost use Rattle.std.specs.Prelude.{◌≡◌, ◌≤◌, ◌<◌, ◌+◌, ◌++◌, ℕ, Bool, true, List, [], length, Some};
ghost use Rattle.std.specs.List.{flat_map};
ghost use Rattle.part_tree.specs.Patches.{InOrder, Touches, laid};
ghost use Rattle.container_model.specs.Chunk.{Chunk, spell_all};
ghost use Rattle.container_model.specs.Units.{Cell, lay, old_bytes, shut, units};
ghost use Rattle.container_model.specs.Items.{Item, updated};
ghost use Rattle.carrier_model.specs.Cells.{Test};
ghost use Rattle.carrier_model.specs.Lists.{list_values, edit_lists, ActReady};
ghost use Rattle.carrier_model.specs.Info.{info, info_items, riff_fill, SetsInfo, InfoReady, ItemsSmall};
ghost use Rattle.carrier_model.specs.Room.{unit_patches, units_fit};
ghost use Rattle.part_tree.specs.Moves.{place};
ghost use Rattle.container_model.specs.Splice.{Ascend, Cut, Outside, shift};
ghost use Rattle.carrier_model.specs.Gaps.{moves_of};

use part_tree as _;

/// The values of each INFO field after an edit are its old ones updated, over all lists of INFO items.
pub fn info_is_updated()
    ensures { (t : Test) (e : List (Item (List ℕ))) (name : List ℕ) (cs : List Chunk) → SetsInfo e
        → ActReady info info_items InfoReady ItemsSmall e cs
        → list_values info info_items name (edit_lists info info_items t e cs)
        ≡ updated e name (list_values info info_items name cs) }
{}

/// Where every unit of some cells fits its slot in RIFF, the patches of the units, laid over the old chunks between a front
/// and what is behind them, make the new chunks there; nothing may be behind a slot that ends the file. The patches are in
/// order, lie in the new chunks, and cover what these gain.
pub fn units_are_patched()
    ensures made { (ends : Bool) (xs : List Cell) (x r : List ℕ) → units_fit ends (units shut xs) ≡ true
        → (ends ≡ true → r ≡ [])
        → laid (length x + (length (spell_all (lay (riff_fill ends) (units shut xs))) + length r))
        (unit_patches (riff_fill ends) (length x) (units shut xs)) (x ++ (flat_map old_bytes (units shut xs) ++ r))
        ≡ x ++ (spell_all (lay (riff_fill ends) (units shut xs)) ++ r) }
    ensures order { (ends : Bool) (xs : List Cell) (at : ℕ) → units_fit ends (units shut xs) ≡ true
        → InOrder (at + length (spell_all (lay (riff_fill ends) (units shut xs)))) at
        (unit_patches (riff_fill ends) at (units shut xs)) }
    ensures covers { (ends : Bool) (xs : List Cell) (at q : ℕ) → units_fit ends (units shut xs) ≡ true
        → at + length (flat_map old_bytes (units shut xs)) ≤ q
        → q < at + length (spell_all (lay (riff_fill ends) (units shut xs)))
        → Touches q (unit_patches (riff_fill ends) at (units shut xs)) }
{}

/// A place of a file in none of the spans that an edit replaces is put by the ranges between them where the spans shift it.
pub fn places_go_with_their_range()
    ensures { (cs : List Cut) (end p : ℕ) → Ascend 0 cs end → Outside cs p → p < end
        → place (moves_of cs end) p ≡ Some (shift cs p) }
{}
