// What a map tells, whatever the kind.
ghost use Rattle.std.specs.Prelude.{◌≡◌, ℕ, List};
ghost use Rattle.part_tree.specs.declared.part.Part.{Part};
ghost use Rattle.field_model.specs.KindReads.{Tells};
ghost use Rattle.wave_model.specs.Kind.{wave_kind};
ghost use Rattle.wave_model.specs.Map.{parts_of_file};
ghost use Rattle.wave_file.specs.Map.{IsMapOf};
ghost use Rattle.wave_file.specs.declared.map.WaveMap.{WaveMap};
ghost use Rattle.wave_parts.specs.Tells.{facts_of};

/// The map of a file, with all its parts, tells what the file is as one of its kind.
pub fn maps_tell_their_files()
    ensures { (b : List ℕ) (map : WaveMap) (parts : List Part) → IsMapOf b map → parts ≡ parts_of_file b
        → Tells wave_kind b (facts_of map parts) }
{}
