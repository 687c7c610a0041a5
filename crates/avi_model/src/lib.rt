//! What an AVI file is, what an edit of its fields makes of it, and the laws of the edited file.
//! The forms and lists are those of RIFF (Microsoft and IBM, Multimedia Programming Interface and Data Specifications
//! 1.0) and of AVI, the indexes those of OpenDML (AVI File Format Extensions 1.02). It knows no device and no code.
#![tactic(auto)]

ghost use Rattle.std.specs.Prelude.{◌≡◌, ◌<◌, ◌≤◌, ◌+◌, ◌*◌, ◌-◌, ◌^◌, ◌⊎◌, ◌++◌, ℕ, Bool, true, List, [], length, map, take, drop, None};
ghost use Rattle.me_bytes.specs.Bytes.{IsBytes};
ghost use Rattle.part_tree.specs.declared.field.EditItem.{EditItem};
ghost use Rattle.part_tree.specs.declared.table.IndexHead.{IndexHead};
ghost use Rattle.part_tree.specs.declared.table.TableForm.TheVariants.{Super, Standard};
ghost use Rattle.part_tree.specs.Moves.{Move};
ghost use Rattle.part_tree.specs.Tables.{moved, relocated, RowsNamed, width};
ghost use Rattle.container_model.specs.Written.{map_rows};
ghost use Rattle.part_tree.specs.Parts.{count_parts};
ghost use Rattle.container_model.specs.Chunk.{and_then, behind, Chunk, chunk_of, chunks, ends, Form, full_header, joined, passes, spell_all, stopped, too_short};
ghost use Rattle.carrier_model.specs.Info.{list_run};
ghost use Rattle.avi_model.specs.Avi.{avi_front, avi_of, essence, forms, inner};
ghost use Rattle.part_tree.specs.declared.names.Span.{Span};
ghost use Rattle.part_tree.specs.Ranges.{Ascends};
ghost use Rattle.container_model.specs.Tables.{Table};
ghost use Rattle.avi_index.specs.Checks.{old_tests};
ghost use Rattle.avi_index.specs.Found.{counted, is_based};
ghost use Rattle.avi_index.specs.Rows.{Base, old_row};
ghost use Rattle.opendml_index.specs.Checks.{entries_tests};
ghost use Rattle.avi_model.specs.Index.{indexes, olds, renumbered, spans, table_span};
ghost use Rattle.opendml_index.specs.Index.{move, super_row, entry_row};
ghost use Rattle.avi_model.specs.Support.{by_place, movi_spans, parts, Supported, SupportedNames};
ghost use Rattle.avi_model.specs.Why.{why, why_named};
ghost use Rattle.avi_model.specs.Named.{Names, named};
ghost use Rattle.avi_model.specs.NamesSet.{NamesSet};
ghost use Rattle.avi_model.specs.NewFile.{moves};
ghost use Rattle.avi_model.specs.After.{all_changes, is_idle};
ghost use Rattle.avi_model.specs.JoinedSplices.{IsJoinedSplice};
ghost use Rattle.avi_model.specs.Splices.{IsOneSplice};
ghost use Rattle.field_model.specs.Kind.{IsKind};
ghost use Rattle.field_model.specs.Update.{effective};
ghost use Rattle.avi_model.specs.Edited.{changes, fields, new_file};
ghost use Rattle.avi_model.specs.Joined.{old_form};
ghost use Rattle.avi_model.specs.Kind.{avi_kind, listed_kind};
ghost use Rattle.avi_model.specs.Large.{too_large, new_avi};
ghost use Rattle.avi_model.specs.Room.{Room};
ghost use Rattle.avi_model.specs.Map.{parts_of, bytes_in, essence_spans, supers, standards};

use part_tree as _;

/// AVI files whose fields are those of the lists of fields alone have the laws of a kind of files, for both bases of `idx1`, and for
/// OpenDML indexes in any number of forms: an accepted edit that isn't too large makes the old file edited, in place where it has
/// room.
pub fn listed_files_are_a_kind()
    ensures { IsKind listed_kind }
{}

/// AVI files have the laws of a kind of files, for both bases of `idx1`, OpenDML indexes in any number of forms, and streams with
/// names: an accepted edit that isn't too large makes the old file edited, in place where it has room.
pub fn avi_files_are_a_kind()
    ensures { IsKind avi_kind }
{}

/// An AVI file is supported exactly where no test of the reading order holds.
pub fn refusals_are_exact()
    ensures { (b : List ℕ) → (why b ≡ None → Supported b) × (Supported b → why b ≡ None) }
{}

/// The same where the names of streams are carriers too, of at most 16 MiB each.
pub fn named_refusals_are_exact()
    ensures { (b : List ℕ) → (why_named b ≡ None → SupportedNames b) × (SupportedNames b → why_named b ≡ None) }
{}

/// Where lists change and nothing is too large, the new file is the old one with the spans of one list replaced: the form's
/// size, the bodies of tables with their numbers moved, the slots of units and the form's pad. The spans ascend, are disjoint
/// and lie in the old file, and the ranges between them put each place where the tables' numbers are moved.
pub fn new_is_one_splice()
    ensures { (o : List ℕ) (e : List EditItem) → IsBytes o → Supported o → too_large o e ≡ None
        → (changes o e ≡ []) ⊎ IsOneSplice o (changes o e) (new_file o e) }
{}

/// The same where the names of streams are fields too: the form's size, the bodies of tables with their numbers moved, the sizes of
/// `hdrl` and of the streams' lists that are edited, the slots of units, and pads.
pub fn named_new_is_one_splice()
    ensures { (o : List ℕ) (e : List EditItem) → IsBytes o → Supported o → avi_kind.too_large o e ≡ None
        → (is_idle (all_changes o e) ≡ true) ⊎ IsJoinedSplice o (all_changes o e) (avi_kind.new_file o e) }
{}

/// Where an edit has room, no number of a table changes.
pub fn numbers_stay_in_place()
    ensures { (o : List ℕ) (e : List EditItem) → IsBytes o → Supported o → Room o e
        → renumbered (move (moves o (changes o e))) o ≡ o }
{}

/// Where nothing is too large, the body of the new file's first form has at most 2^32-1 bytes.
pub fn new_form_is_no_larger()
    ensures { (o : List ℕ) (e : List EditItem) → too_large o e ≡ None
        → (effective (fields o) e ≡ []) ⊎ (length (inner (new_avi o (changes o e)).children
        (new_avi o (changes o e)).left) ≤ 2 ^ 32 - 1) }
{}

/// A reader tells as many parts of a file, its rests and its tail apart, as are counted, and the spans of its essence, of its super indexes, of its
/// standard indexes and of `idx1` hold their bodies.
pub fn what_is_told()
    ensures parts { (b : List ℕ) → count_parts (parts_of b) ≡ parts (avi_of b) }
    ensures essence { (b : List ℕ) → IsBytes b → Supported b
        → map (bytes_in b) (essence_spans b) ≡ map (λ x. x.chunk.body) (essence (avi_of b)) }
    ensures supers { (b : List ℕ) → IsBytes b → Supported b
        → map (bytes_in b) (map table_span (supers b)) ≡ map (λ t. t.body) (supers b) }
    ensures standards { (b : List ℕ) → IsBytes b → Supported b
        → map (bytes_in b) (map table_span (standards b)) ≡ map (λ t. t.body) (standards b) }
    ensures olds { (b : List ℕ) → IsBytes b → Supported b
        → map (bytes_in b) (map table_span (olds b)) ≡ map (λ t. t.body) (olds b) }
{}

/// What is read of any bytes spells them, also where the reading stops at a refusal: the forms with what is left of the file,
/// and the chunks of a list or a form with what is left of it. The forms are read one after the other: where one stands
/// whole it is read before those behind it, and else the reading stops there.
pub fn forms_are_read_in_turn()
    ensures forms { (b : List ℕ) → IsBytes b → joined (forms b) ≡ b }
    ensures lists { (c : Chunk) → IsBytes c.body → take 4 c.body ++ joined (list_run c) ≡ c.body }
    ensures next { (s next : Bool) (b : List ℕ) (form : Form) (id : List ℕ) (n : ℕ) (after : List ℕ)
        → avi_front s b ≡ full_header form id n after next → n ≤ length after
        → chunks avi_front s b ≡ and_then (chunk_of form id n after) (chunks avi_front next (behind form n after)) }
    ensures last { (s : Bool) (b : List ℕ) → avi_front s b ≡ too_short → chunks avi_front s b ≡ stopped ends b }
    ensures cut { (s next : Bool) (b : List ℕ) (form : Form) (id : List ℕ) (n : ℕ) (after : List ℕ)
        → avi_front s b ≡ full_header form id n after next → length after < n
        → chunks avi_front s b ≡ stopped passes b }
{}

/// What is tested of the entries of tables, and which are counted, is the same for the index chunks in any order, so for those
/// by place. In a supported file these ascend, and so do the bodies of the movi lists.
pub fn indexes_are_searched_by_place()
    ensures rows { (base : Base) (movi : Span) (ts : List Table) (k : ℕ) (rs : List (List ℕ))
        → old_tests base movi (spans (by_place ts)) k rs ≡ old_tests base movi (spans ts) k rs }
    ensures entries { (movis : List Span) (ts : List Table) (base k : ℕ) (rs : List (List ℕ))
        → entries_tests movis (spans (by_place ts)) base k rs ≡ entries_tests movis (spans ts) base k rs }
    ensures based { (b : List ℕ) (ts : List Table) (movi : Span) (rs : List (List ℕ))
        → is_based b (spans (by_place ts)) movi rs ≡ is_based b (spans ts) movi rs }
    ensures counted { (base : Base) (movi : Span) (ts : List Table) (r : List ℕ)
        → counted base movi (spans (by_place ts)) r ≡ counted base movi (spans ts) r }
    ensures ascend { (b : List ℕ) → Supported b → Ascends 0 (spans (by_place (indexes b))) }
    ensures movis { (b : List ℕ) → IsBytes b → Supported b → Ascends 0 (movi_spans (avi_of b)) }
{}

/// The rows of `idx1`, of a super and of a standard index with their places moved are those of a table that a plan
/// relocates, where each new place can be named. A standard index counts from `old.base`, and from `base` in the new file.
pub fn rows_are_relocated()
    ensures olds { (moves : List Move) (base : Base) (movi n : ℕ) (b : List ℕ)
        → 16 * n ≤ length b → RowsNamed moves (old_form movi base) n b
        → relocated moves (old_form movi base) n b ++ drop (16 * n) b ≡ map_rows 16 (old_row (moved moves) base) n b }
    ensures supers { (moves : List Move) (n : ℕ) (b : List ℕ) → 16 * n ≤ length b → RowsNamed moves Super n b
        → relocated moves Super n b ++ drop (16 * n) b ≡ map_rows 16 (super_row (move (moved moves))) n b }
    ensures entries { (moves : List Move) (n : ℕ) (b : List ℕ) (old : IndexHead) (base : ℕ)
        → width (Standard old base) * n ≤ length b → RowsNamed moves (Standard old base) n b
        → relocated moves (Standard old base) n b ++ drop (width (Standard old base) * n) b
        ≡ map_rows (width (Standard old base)) (entry_row (λ y. moved moves (old.base + y) - base)) n b }
{}

/// Other names are set in the streams' lists of a supported file, where the chunks of its first form then spell less than
/// 2^32 bytes: they are read again, with the names that were set and all else where it stood; tables and essence stand where
/// the spans that are replaced put them.
pub fn names_are_set()
    ensures { (b : List ℕ) (e : Names) → IsBytes b → Supported b
        → length (spell_all (named (avi_of b) e).children) < 2 ^ 32
        → NamesSet (avi_of b) e }
{}
