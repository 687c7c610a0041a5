//! What a WAVE or RF64 file is, and what an edit of its metadata makes of it, as definitions and laws (RIFF; EBU Tech 3285
//! for `bext`; EBU Tech 3306 for RF64). It knows no device.
#![tactic(auto)]

ghost use Rattle.std.specs.Prelude.{◌≡◌, ◌≤◌, ◌-◌, ◌^◌, ◌↔◌, ◌⊎◌, ℕ, List, [], ◌∷◌, None, length, map, take, drop, true};
ghost use Rattle.std.specs.List.{AllByRecursion};
ghost use Rattle.part_tree.specs.declared.field.EditItem.{EditItem};
ghost use Rattle.part_tree.specs.declared.field.FieldName.{FieldName};
ghost use Rattle.part_tree.specs.declared.field.RuleSet.TheVariants.{Base};
ghost use Rattle.part_tree.specs.Names.{IsFieldName};
ghost use Rattle.me_bytes.specs.Bytes.{IsBytes};
ghost use Rattle.field_model.specs.Broken.{broken};
ghost use Rattle.field_model.specs.Kind.{IsKind};
ghost use Rattle.field_model.specs.Update.{effective, update};
ghost use Rattle.container_model.specs.Splice.{splice, Ascend};
ghost use Rattle.wave_model.specs.Wave.{is_big, kind_of, wave_of};
ghost use Rattle.wave_model.specs.Twin.{twin};
ghost use Rattle.wave_model.specs.Widen.{cuts_widened, file_after, large_after, room_after, widens};
ghost use Rattle.wave_model.specs.Fields.{fields};
ghost use Rattle.wave_model.specs.New.{new_file, cuts_of, new_size_of};
ghost use Rattle.carrier_model.specs.RiffForm.{with_size};
ghost use Rattle.wave_model.specs.Edited.{Supported, Edited, parts, pieces, sounds};
ghost use Rattle.wave_model.specs.Map.{parts_of_file, bodies_in, told_body, sound};
ghost use Rattle.part_tree.specs.Parts.{count_parts};
ghost use Rattle.wave_model.specs.Large.{too_large, FormSmall};
ghost use Rattle.wave_model.specs.Why.{why};
ghost use Rattle.wave_model.specs.Kind.{narrow_kind, wave_kind};
ghost use Rattle.wave_model.specs.Room.{Room, patches};
ghost use Rattle.part_tree.specs.Order.{SoundPatches};
ghost use Rattle.part_tree.specs.Patches.{laid};

/// For every supported file and every edit that breaks no basic rule and is not too large, the new file is the old one
/// edited: it is supported; its fields read back as the old ones updated; every other part is kept in its order; the
/// blocks of sound are the same; a `JUNK` directly after `WAVE` stays; and an edit without effect changes nothing.
pub fn new_file_is_edited()
    ensures { (o : List ℕ) (e : List EditItem) → IsBytes o → Supported o → broken (kind_of o) 0 (fields o) e Base ≡ None
        → too_large o e ≡ None → Edited o e (new_file o e) }
{}

/// Where every item of the edit names a field, the new file's fields are the old ones updated, at every name.
pub fn fields_are_updated()
    ensures { (o : List ℕ) (e : List EditItem) → IsBytes o → Supported o → broken (kind_of o) 0 (fields o) e Base ≡ None
        → too_large o e ≡ None → AllByRecursion (λ i. IsFieldName i.name) e → (name : FieldName)
        → fields (new_file o e) name ≡ update (fields o) e name }
{}

/// An edit of which no item has an effect gives the same file.
pub fn idle_edit_keeps_the_file()
    ensures { (o : List ℕ) (e : List EditItem) → IsBytes o → Supported o → effective (fields o) e ≡ []
        → new_file o e ≡ o }
{}

/// A file is supported exactly where no refusal is found.
pub fn refusals_are_exact()
    ensures { (b : List ℕ) → (why b ≡ None) ↔ Supported b }
{}

/// The new file is the old one with the spans of the edit replaced and the form's size set, and these spans ascend, are
/// disjoint and lie in the old file.
pub fn new_file_is_spliced()
    ensures spliced { (o : List ℕ) (e : List EditItem) → IsBytes o → Supported o
        → new_file o e ≡ with_size (wave_of o).form (new_size_of o e) (splice o (cuts_of o e)) }
    ensures ascend { (o : List ℕ) (e : List EditItem) → IsBytes o → Supported o → Ascend 0 (cuts_of o e) (length o) }
{}

/// Where an item has an effect and nothing is too large, the new file has at most 2^63-1 bytes, and its form's size
/// fits the field that holds it.
pub fn new_file_is_no_larger()
    ensures { (o : List ℕ) (e : List EditItem) → too_large o e ≡ None
        → (effective (fields o) e ≡ []) ⊎ ((length (new_file o e) ≤ 2 ^ 63 - 1)
        × FormSmall (wave_of o).form (wave_of o).id (new_size_of o e)) }
{}

/// Where an edit has room in place, its patches, laid over the old file at the new length, make the new file; they are
/// in order, lie in the new file, have at most 16 MiB, cover what the file gains, and are at most 65,536 where the edit
/// isn't too large.
pub fn patches_make_the_file()
    ensures made { (o : List ℕ) (e : List EditItem) → IsBytes o → Supported o → Room o e
        → new_file o e ≡ laid (length (new_file o e)) (patches o e) o }
    ensures sound { (o : List ℕ) (e : List EditItem) → IsBytes o → Supported o → Room o e
        → SoundPatches (length o) (length (new_file o e)) (patches o e) }
    ensures few { (o : List ℕ) (e : List EditItem) → IsBytes o → Supported o → too_large o e ≡ None
        → length (patches o e) ≤ 65536 }
{}

/// A reader tells as many parts of a supported file as are counted, rests and the tail apart; at the spans of their bodies
/// lie the bodies of the chunks, of the items and rests in lists, the form's rest and the tail, in order; and its sound is
/// the body of `data`.
pub fn what_is_told()
    ensures parts { (o : List ℕ) → IsBytes o → Supported o → count_parts (parts_of_file o) ≡ parts (wave_of o) }
    ensures bodies { (o : List ℕ) → IsBytes o → Supported o
        → map (told_body o) (parts_of_file o) ≡ bodies_in (wave_of o) }
    ensures sound { (o : List ℕ) → IsBytes o → Supported o
        → sounds (wave_of o).children ≡ take (sound o).len (drop (sound o).at o) ∷ [] }
{}

/// WAVE and RF64 files are a kind of files, where each form keeps its width: an edit that breaks no basic rule and is not too
/// large makes the old file edited, in place where it has room, and comes to the same as its items that have an effect.
pub fn narrow_files_are_a_kind()
    ensures { IsKind narrow_kind }
{}

/// WAVE and RF64 files are a kind of files, of which a RIFF form that grows past 32 bits becomes RF64: an edit that breaks no
/// basic rule and is not too large makes the old file edited, in place where it has room, and comes to the same as its items
/// that have an effect.
pub fn wave_files_are_a_kind()
    ensures { IsKind wave_kind }
{}

/// Where an edit makes a RIFF form RF64, the new file is the old one with spans replaced: the form's identifier and size, the
/// reserved `JUNK` or the place of the new `ds64`, the units of the edit, the size of `data`, and the form's pad. These
/// spans ascend, are disjoint and lie in the old file.
pub fn widened_file_is_spliced()
    ensures spliced { (o : List ℕ) (e : List EditItem) → IsBytes o → Supported o
        → broken (kind_of o) 0 (fields o) e Base ≡ None → large_after o e ≡ None → widens o e ≡ true
        → file_after o e ≡ splice o (cuts_widened o e) }
    ensures ascend { (o : List ℕ) (e : List EditItem) → IsBytes o → Supported o
        → broken (kind_of o) 0 (fields o) e Base ≡ None → large_after o e ≡ None → widens o e ≡ true
        → Ascend 0 (cuts_widened o e) (length o) }
{}

/// An RF64 file and the same bytes as a BW64 file are alike: both are refused for the same reason or both are supported, with
/// the same fields and the same blocks of sound; and the new file of the one is the other's with its identifier. Also what is
/// too large, what has room and the patches are the same.
pub fn twins_are_alike()
    ensures why { (b : List ℕ) → is_big (take 4 b) ≡ true → why (twin b) ≡ why b }
    ensures fields { (b : List ℕ) (name : FieldName) → is_big (take 4 b) ≡ true → fields (twin b) name ≡ fields b name }
    ensures pieces { (b : List ℕ) → is_big (take 4 b) ≡ true → pieces (twin b) ≡ pieces b }
    ensures new { (o : List ℕ) (e : List EditItem) → IsBytes o → Supported o → is_big (take 4 o) ≡ true
        → file_after (twin o) e ≡ twin (file_after o e) }
    ensures large { (o : List ℕ) (e : List EditItem) → is_big (take 4 o) ≡ true
        → large_after (twin o) e ≡ large_after o e }
    ensures room { (o : List ℕ) (e : List EditItem) → is_big (take 4 o) ≡ true
        → room_after (twin o) e ≡ room_after o e }
    ensures patches { (o : List ℕ) (e : List EditItem) → is_big (take 4 o) ≡ true → patches (twin o) e ≡ patches o e }
{}
