// A WAVE file that is made is accepted with its edit.
ghost use Rattle.std.specs.Prelude.{◌≡◌, ℕ, List, Option, true};
ghost use Rattle.metaedit_top.specs.Asked.{Accepts};
ghost use Rattle.metaedit_top.specs.Begun.{made_of};
ghost use Rattle.metaedit_top.specs.Tables.{Asks};
ghost use Rattle.metaedit_top.specs.Words.{makes_file};
ghost use Rattle.metaedit_top.specs.declared.words.Request.{Request};
ghost use Rattle.part_tree.specs.declared.names.Kind.TheVariants.{Wave};

/// Nothing stands against the edit of a WAVE file that words ask to be made.
pub fn a_made_wave_file_is_accepted()
    ensures { (words : List (List ℕ)) (left : Option (List ℕ)) (q : Request) → Asks words left q
        → makes_file q.command ≡ true → q.kind ≡ Wave → Accepts q (made_of q) }
{}
