// What is shown of a file is one text.
ghost use Rattle.std.specs.Prelude.{◌≡◌, ℕ, List};
ghost use Rattle.metaedit_top.specs.Told.{Shows};

/// There is one text that shows a file, whatever its kind.
pub fn a_file_is_shown_once()
    ensures { (o a b : List ℕ) → Shows o a → Shows o b → a ≡ b }
{}
