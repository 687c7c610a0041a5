//! What the fields of a file mean: the texts that they show, the bytes that a text is laid as, what an edit changes and
//! which rules it breaks. Definitions, and laws of them; the crates above meet them in code.
#![tactic(auto)]

ghost use Rattle.std.specs.Prelude.{◌≡◌, ◌≤◌, ℕ, List, [], ◌∷◌, true, false, length, Some};
ghost use Rattle.std.specs.List.{list_any};
ghost use Rattle.part_tree.specs.Names.{bext_row, same_name};
ghost use Rattle.part_tree.specs.declared.field.BextField.{BextField};
ghost use Rattle.part_tree.specs.declared.field.EditItem.{EditItem};
ghost use Rattle.part_tree.specs.declared.field.FieldName.{FieldName};
ghost use Rattle.part_tree.specs.declared.field.FieldName.TheVariants.{Bext};
ghost use Rattle.field_model.specs.Bext.{range_of, new_body};
ghost use Rattle.field_model.specs.Body.{AreRanges, edited_bext};
ghost use Rattle.field_model.specs.Fields.{FieldMap, plain};
ghost use Rattle.field_model.specs.Texts.{field_name, name_text};
ghost use Rattle.field_model.specs.Update.{is_bext, raw_items, update};

/// The fields of `bext` after an edit are the ranges of its body after the edit: raised once, then each item laid.
/// Where there was no `bext` and an item of it has an effect, the body is made of zeros first.
pub fn bext_is_edited()
    ensures there { (f : FieldMap) (e : List EditItem) (body : List ℕ) (field : BextField) → 602 ≤ length body
        → AreRanges f body
        → update f e (Bext field) ≡ plain (range_of (bext_row field) (edited_bext (raw_items f e) body)) ∷ [] }
    ensures new { (f : FieldMap) (e : List EditItem) (field : BextField) → ((other : BextField) → f (Bext other) ≡ [])
        → list_any (λ i. is_bext i.name) (raw_items f e) ≡ true
        → update f e (Bext field) ≡ plain (range_of (bext_row field) (edited_bext (raw_items f e) new_body)) ∷ [] }
{}

/// A name outside `bext` that no item with an effect names keeps its values, and so does `bext` where no such item is of it.
pub fn other_fields_stay()
    ensures others { (f : FieldMap) (e : List EditItem) (name : FieldName) → is_bext name ≡ false
        → list_any (λ i. same_name i.name name) (raw_items f e) ≡ false → update f e name ≡ f name }
    ensures bext { (f : FieldMap) (e : List EditItem) (field : BextField)
        → list_any (λ i. is_bext i.name) (raw_items f e) ≡ false → update f e (Bext field) ≡ f (Bext field) }
{}

/// Names and their texts are the inverse of each other: the field that a text names has that text as its name, and the name
/// that a field has as its text names it.
pub fn texts_are_names()
    ensures read { (text : List ℕ) (name : FieldName) → field_name text ≡ Some name → name_text name ≡ Some text }
    ensures written { (name : FieldName) (text : List ℕ) → name_text name ≡ Some text → field_name text ≡ Some name }
{}
