//! The laws of chunks and atoms, of the units of an edit, and of bytes of which spans are replaced.
#![tactic(auto)]

ghost use Rattle.std.specs.Prelude.{◌≡◌, ◌-◌, ◌+◌, ◌<◌, ◌≤◌, ℕ, List, ◌++◌, length, get_or};
ghost use Rattle.std.specs.List.{flat_map};
ghost use Rattle.me_bytes.specs.Bytes.{IsBytes};
ghost use Rattle.container_model.specs.Chunk.{Chunk, Run, Reads, chunks, joined, ends, spell_all};
ghost use Rattle.container_model.specs.Sizes.{Sizes, riff_front, Level, atom_front};
ghost use Rattle.container_model.specs.Splice.{Cut, splice, shift, Ascend, Outside};
ghost use Rattle.container_model.specs.Units.{Cell, Fill, Slot, shut, units, lay, cuts, was};

/// Bytes that a chunk list and a rest spell are read as these, so there is one decomposition.
pub fn riff_is_read_again()
    ensures { (s : Sizes) (cs : List Chunk) (left : List ℕ) → Reads riff_front s cs left
        → chunks riff_front s (spell_all cs ++ left) ≡ record { chunks = cs; stop = ends; left = left } }
{}

/// The same of atoms.
pub fn atoms_are_read_again()
    ensures { (s : Level) (cs : List Chunk) (left : List ℕ) → Reads atom_front s cs left
        → chunks atom_front s (spell_all cs ++ left) ≡ record { chunks = cs; stop = ends; left = left } }
{}

/// What is read of bytes spells them.
pub fn riff_spells()
    ensures { (s : Sizes) (b : List ℕ) → IsBytes b → joined (chunks riff_front s b) ≡ b }
{}

/// What is read of bytes without a fault is a decomposition of them.
pub fn riff_decomposes()
    ensures { (s : Sizes) (b : List ℕ) → IsBytes b → (chunks riff_front s b).stop ≡ ends
        → Reads riff_front s (chunks riff_front s b).chunks (chunks riff_front s b).left }
{}

/// A byte in no span stands where the spans before it move it.
pub fn bytes_move()
    ensures { (b : List ℕ) (cs : List Cut) (p : ℕ) → Ascend 0 cs (length b) → Outside cs p
        → get_or (splice b cs) (shift cs p) 0 ≡ get_or b p 0 }
{}

/// Places in no span keep their order.
pub fn places_keep_order()
    ensures { (end : ℕ) (cs : List Cut) (p q : ℕ) → Ascend 0 cs end → Outside cs p → Outside cs q → p < q
        → shift cs p < shift cs q }
{}
