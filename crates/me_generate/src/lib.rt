//! Files made from a number: a valid file of any size of each kind, the same at each call. They are made in pages, so no
//! memory grows with the file.
#![tactic(auto)]

ghost use Rattle.std.specs.Prelude.{◌≡◌, ℕ, None};
ghost use Rattle.me_bytes.specs.Bytes.{IsBytes};
ghost use Rattle.me_generate.specs.Stated.{IsMade, stated};
ghost use Rattle.me_generate.specs.Titled.{set_title};
ghost use Rattle.field_model.specs.Broken.{broken};
ghost use Rattle.wave_model.specs.Kind.{wave_kind};
ghost use Rattle.part_tree.specs.declared.field.RuleSet.TheVariants.{Base};
ghost use Rattle.part_tree.specs.declared.names.Kind.{Kind};

mod avi;
mod making;
mod mov;
mod put;
mod rows;
mod shape;
#[cfg(test)]
mod tests;
mod wave;

pub use making::{MakeFault, make};
pub use shape::limit_of;

/// A file that is made from a number is a list of bytes.
pub fn made_files_are_bytes()
    ensures { (kind : Kind) (n : ℕ) → IsMade kind n → IsBytes (stated kind n) }
{}

/// A WAVE file that is made is supported; setting its title breaks no basic rule, and nothing of the new file is too
/// large.
pub fn made_wave_files_are_accepted()
    ensures supported { (n : ℕ) → IsMade Kind.Wave n → wave_kind.why (stated Kind.Wave n) ≡ None }
    ensures unbroken { (n : ℕ) → IsMade Kind.Wave n
        → broken (wave_kind.kind (stated Kind.Wave n)) (wave_kind.streams (stated Kind.Wave n))
        (wave_kind.fields (stated Kind.Wave n)) set_title Base ≡ None }
    ensures small { (n : ℕ) → IsMade Kind.Wave n → wave_kind.too_large (stated Kind.Wave n) set_title ≡ None }
{}
