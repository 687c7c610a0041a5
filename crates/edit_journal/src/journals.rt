// What holds of journals, over their definitions alone.
ghost use Rattle.std.specs.Prelude.{◌≡◌, ◌≤◌, ◌<◌, ◌^◌, min, ℕ, List, Option, Some, None, length};
ghost use Rattle.part_tree.specs.declared.plan.Patch.{Patch};
ghost use Rattle.part_tree.specs.Patches.{FewRules, Rules, all_bytes, laid};
ghost use Rattle.me_disk.specs.Disk.{Image};
ghost use Rattle.edit_journal.specs.Strips.{Strip, laid_by, strips, byte_at};
ghost use Rattle.edit_journal.specs.Journal.{Version, Spells, Journal, spelled, spelled_len};
ghost use Rattle.edit_journal.specs.Damage.{damage, damage_over};
ghost use Rattle.edit_journal.specs.Patches.{patches_in};
ghost use Rattle.edit_journal.specs.Settled.{Redoes, IsDamaged};

/// Bytes are the spelling of at most one version, old length, new length and list of strips, and what they lay is the same:
/// the same byte at each place, the same bytes together, the same file.
pub fn journals_are_unique()
    ensures version { (v w : Version) (b : List ℕ) (old new old' new' : ℕ) (ss ts : List Strip) → Spells v b old new ss
        → Spells w b old' new' ts → v ≡ w }
    ensures strips { (v : Version) (b : List ℕ) (old new old' new' : ℕ) (ss ts : List Strip) → Spells v b old new ss
        → Spells v b old' new' ts → laid_by ss ≡ laid_by ts }
    ensures runs { (b : List ℕ) (old new old' new' : ℕ) (ss ts : List Strip) → Spells Version.Second b old new ss
        → Spells Version.Second b old' new' ts → ss ≡ ts }
    ensures lengths { (b : List ℕ) (old new old' new' : ℕ) (ps qs : List Patch) → Journal b old new ps
        → Journal b old' new' qs → (old ≡ old') × (new ≡ new') }
    ensures lays { (b : List ℕ) (old new old' new' : ℕ) (ps qs : List Patch) → Journal b old new ps
        → Journal b old' new' qs → (q : ℕ) → byte_at q ps ≡ byte_at q qs }
    ensures bytes { (b : List ℕ) (old new : ℕ) (ps : List Patch) → Journal b old new ps
        → all_bytes (patches_in b) ≡ all_bytes ps }
    ensures file { (b m : List ℕ) (old new old' new' : ℕ) (ps qs : List Patch) → Journal b old new ps
        → Journal b old' new' qs → min old new ≤ length m → laid new ps m ≡ laid new' qs m }
{}

/// A journal has no damage, and beside a file that it goes with there is none either; beside a damaged one an image stands for
/// no file. The patches of each keep the rules.
pub fn journals_are_whole()
    ensures short { (b : List ℕ) (old new : ℕ) (ps : List Patch) → Journal b old new ps → length b < 2 ^ 63 }
    ensures whole { (b : List ℕ) (old new : ℕ) (ps : List Patch) → Journal b old new ps → damage b ≡ None }
    ensures whole_over { (m j file : List ℕ) → Redoes m j file → damage_over (Some m) j ≡ None }
    ensures damaged { (m : Option (List ℕ)) (j : List ℕ) (at : ℕ) → damage_over m j ≡ Some at
        → IsDamaged (record { main = m; journal = Some j }) }
    ensures rules { (b : List ℕ) (old new : ℕ) (ps : List Patch) → Journal b old new ps → Rules old new ps }
{}

/// The strips of a plan's patches keep the rules of version 2 and lay the same as the patches; the journal that is written has
/// a header, 13 bytes a strip, the bytes of the plain strips, and one byte a run.
pub fn strips_lay_the_same()
    ensures journal { (old new : ℕ) (ps : List Patch) → FewRules old new ps → Journal (spelled old new ps) old new ps }
    ensures few { (old new : ℕ) (ps : List Patch) → FewRules old new ps → length (strips ps) ≤ 589824 }
    ensures len { (old new : ℕ) (ps : List Patch) → length (spelled old new ps) ≡ spelled_len ps }
{}
