// What a map tells, whatever the kind.
ghost use Rattle.std.specs.Prelude.{ℕ, List};
ghost use Rattle.field_model.specs.KindReads.{Tells};
ghost use Rattle.avi_model.specs.Kind.{avi_kind};
ghost use Rattle.avi_file.specs.Map.{IsMapOf};
ghost use Rattle.avi_file.specs.Tells.{facts_of};
ghost use Rattle.avi_file.specs.declared.map.AviMap.{AviMap};

/// The map of a file tells what the file is as one of its kind.
pub fn maps_tell_their_files()
    ensures { (b : List ℕ) (map : AviMap) → IsMapOf b map → Tells avi_kind b (facts_of map) }
{}
