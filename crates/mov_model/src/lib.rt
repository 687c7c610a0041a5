//! The laws of an edit of a QuickTime movie.
#![tactic(auto)]

ghost use Rattle.std.specs.Prelude.{◌≡◌, ◌≤◌, ◌<◌, ◌^◌, ℕ, List, length, map, take, drop, Some, None};
ghost use Rattle.me_bytes.specs.Bytes.{IsBytes};
ghost use Rattle.carrier_model.specs.Gaps.{moves_of};
ghost use Rattle.container_model.specs.Splice.{Ascend, shift, splice};
ghost use Rattle.part_tree.specs.Moves.{place};
ghost use Rattle.part_tree.specs.Parts as told;
ghost use Rattle.container_model.specs.Atoms.{atoms_in};
ghost use Rattle.container_model.specs.Chunk.{Chunk, joined};
ghost use Rattle.qt_text.specs.User.{udta};
ghost use Rattle.mov_model.specs.Map.{atom_spans, bytes_in, essence, mdat_bodies, met_bodies, parts_of};
ghost use Rattle.mov_model.specs.Movie.{movie_of, spell_movie, all_atoms, top_run};
ghost use Rattle.mov_model.specs.Reading.{count_parts};
ghost use Rattle.mov_model.specs.New.{edited_file, new_movie, laid_movie, overlaid, edit_cuts, with_size};
ghost use Rattle.field_model.specs.Kind.{IsKind};
ghost use Rattle.mov_model.specs.Carried.{Changes};
ghost use Rattle.mov_model.specs.Edited.{changes, new_file};
ghost use Rattle.mov_model.specs.Kind.{mov_kind, narrow_kind};
ghost use Rattle.mov_model.specs.Support.{IsHeld, Supported};
ghost use Rattle.mov_model.specs.Pieces.{held};
ghost use Rattle.mov_model.specs.Why.{why};
ghost use Rattle.part_tree.specs.declared.field.EditItem.{EditItem};
ghost use Rattle.mov_model.specs.Cuts.{TablesStay, unit_cuts};
ghost use Rattle.mov_model.specs.Splices.{IsOneSplice};
ghost use Rattle.mov_model.specs.WideCuts.{IsWideSplice};
ghost use Rattle.mov_model.specs.Widen.{widened_file};
ghost use Rattle.mov_model.specs.Room.{Room, patches};
ghost use Rattle.part_tree.specs.Order.{SoundPatches};
ghost use Rattle.part_tree.specs.Patches.{laid};
ghost use Rattle.std.specs.List.{AllByRecursion, flat_map};

/// Movies have the laws of a kind of files in its last form: a movie of which a place would pass 32 bits gets wide tables, each
/// `stco` of a track made a `co64`. An accepted edit of user items and keys that isn't too large makes the old file edited, in place
/// where it has room.
pub fn mov_files_are_a_kind()
    ensures { IsKind mov_kind }
{}

/// Movies have the laws of a kind of files, where each table of chunk places keeps its width: an accepted edit of user items and
/// keys that isn't too large makes the old file edited, in place where it has room.
pub fn narrow_files_are_a_kind()
    ensures { IsKind narrow_kind }
{}

/// Before its tables are relocated, the new file is the old one with the slots replaced and the size of `moov` set.
pub fn laid_is_spliced()
    ensures { (o : List ℕ) (e : Changes) → IsBytes o → Supported o
        → spell_movie (laid_movie (movie_of o) e)
        ≡ with_size (movie_of o) (length (laid_movie (movie_of o) e).movie.body) (splice o (edit_cuts (movie_of o) e)) }
{}

/// The new file is the old one with its tables relocated in their places, then the slots replaced, then the size of
/// `moov` set.
pub fn new_is_overlaid()
    ensures { (o : List ℕ) (e : Changes) → IsBytes o → Supported o
        → edited_file o e ≡ with_size (movie_of o) (length (new_movie (movie_of o) e).movie.body)
        (splice (spell_movie (overlaid (movie_of o) e)) (edit_cuts (movie_of o) e)) }
{}

/// What an `mdat` holds at a place are the file's bytes there.
pub fn held_are_bytes()
    ensures { (o : List ℕ) (p : ℕ) (x : ℕ × List ℕ) → IsBytes o → Supported o
        → held 0 p (all_atoms (movie_of o)) ≡ Some x → take (length x.1) (drop p o) ≡ x.1 }
{}

/// A movie is supported exactly where no test of the reading order holds.
pub fn refusals_are_exact()
    ensures { (b : List ℕ) → (why b ≡ None → Supported b) × (Supported b → why b ≡ None) }
{}

/// Where no table is widened the new file is the old one with the spans of one list replaced: the header of `moov`, the rows of its
/// tables and the slots of units. The spans ascend, are disjoint and lie in the old file, and the ranges between them put each place
/// where the tables' places are moved.
pub fn new_is_one_splice()
    ensures { (o : List ℕ) (e : List EditItem) → IsBytes o → Supported o → IsOneSplice o (changes o e) (new_file o e) }
{}

/// Where tables are widened the new file is the old one with the spans of one list replaced: the headers of `moov` and of the atoms in
/// it that grow, the rows of the tables, each in eight bytes, and the slots of units. The spans ascend, are disjoint and lie in the
/// old file; what an `mdat` holds stands in none of them, and the ranges between them put it where its place goes.
pub fn wide_is_one_splice()
    ensures { (o : List ℕ) (e : Changes) → IsBytes o → Supported o → length o < 2 ^ 63
        → IsWideSplice o e (edited_file (widened_file o) e) }
{}

/// Where no table holds a place that moves, only the header of `moov` and the slots of units change.
pub fn only_units_change()
    ensures { (o : List ℕ) (e : List EditItem) → IsBytes o → Supported o → TablesStay o e
        → new_file o e ≡ splice o (unit_cuts (movie_of o) (changes o e)) }
{}

/// Where an edit has room, no chunk of a track moves, and the patches, laid over the old file at the new length, make the
/// new file. They are in order, lie in the new file, have at most 16 MiB, cover what the file gains, and are three at most: the
/// size of `moov`, the user data and the key table.
pub fn patches_make_new()
    ensures stay { (o : List ℕ) (e : List EditItem) → IsBytes o → Supported o → Room o e → TablesStay o e }
    ensures made { (o : List ℕ) (e : List EditItem) → IsBytes o → Supported o → Room o e
        → new_file o e ≡ laid (length (new_file o e)) (patches o e) o }
    ensures sound { (o : List ℕ) (e : List EditItem) → IsBytes o → Supported o → Room o e
        → SoundPatches (length o) (length (new_file o e)) (patches o e) }
    ensures three { (o : List ℕ) (e : List EditItem) → IsBytes o → Supported o → length (patches o e) ≤ 3 }
{}

/// A reader tells as many parts of a movie, its rests and its tail apart, as are counted. At the spans of their bodies lie the bodies
/// of the atoms that are met, in the order of reading, and at those of the essence the bodies of the `mdat`s, in file order.
pub fn what_is_told()
    ensures parts { (b : List ℕ) → IsBytes b → Supported b → told.count_parts (parts_of b) ≡ count_parts (movie_of b) }
    ensures bodies { (b : List ℕ) → IsBytes b → Supported b
        → map (bytes_in b) (atom_spans (parts_of b)) ≡ met_bodies b }
    ensures essence { (b : List ℕ) → IsBytes b → Supported b
        → map (bytes_in b) (essence b) ≡ mdat_bodies (all_atoms (movie_of b)) }
{}

/// What is read of any bytes spells them, also where the reading stops at a refusal: the atoms of a file with what is left of it,
/// and those of an atom, or of user data, with what is left of its body.
pub fn atoms_are_read_in_turn()
    ensures file { (b : List ℕ) → IsBytes b → joined (top_run b) ≡ b }
    ensures inside { (c : Chunk) → IsBytes c.body
        → (joined (atoms_in c) ≡ c.body) × (joined (udta.opening c) ≡ c.body) }
{}

/// The slots of an edit ascend and lie in the file. A chunk of a track stands in none of them, and the ranges between them put
/// its place where they shift it.
pub fn chunks_go_with_their_range()
    ensures ascend { (o : List ℕ) (e : List EditItem) → IsBytes o → Supported o
        → Ascend 0 (edit_cuts (movie_of o) (changes o e)) (length o) }
    ensures put { (o : List ℕ) (e : List EditItem) (p : ℕ) → IsBytes o → Supported o → IsHeld (all_atoms (movie_of o)) p
        → place (moves_of (edit_cuts (movie_of o) (changes o e)) (length o)) p
        ≡ Some (shift (edit_cuts (movie_of o) (changes o e)) p) }
{}
