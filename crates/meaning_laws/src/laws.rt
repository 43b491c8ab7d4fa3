//! What items come to that do one thing.

ghost use Rattle.std.specs.Prelude.{◌≡◌, ℕ, List, [], ◌∷◌, ◌++◌};
ghost use Rattle.ml_tree.specs.declared.program.Item.{Item};
ghost use Rattle.ml_tree.specs.declared.scoped.Scoped.{Scoped};
ghost use Rattle.ml_meaning.specs.declared.event.Ending.TheVariants.{Exit};
ghost use Rattle.ml_meaning.specs.Patterns.{Env};
ghost use Rattle.ml_meaning.specs.Programs.{eval};
ghost use Rattle.ml_meaning.specs.Runs.{Ended};
ghost use Rattle.ml_meaning.specs.Traces.{bytes};
ghost use Rattle.meaning_laws.specs.Items.{BindsFunctions, BindsOnly, PrintTexts, on_1, joined};

/// An item that binds functions which capture nothing, as each of the built-in definitions does,
/// tells of its call alone and binds its names, at any fuel and whatever the items before it bound.
pub fn functions_are_bound()
    ensures { (s : Scoped) (n : ℕ) (tops : Env) (item : Item) → BindsFunctions s item → BindsOnly s n tops item }
{}

/// A program whose items bind such functions or print texts writes these texts in order and exits
/// with 0, at any fuel.
pub fn texts_are_written()
    ensures bytes { (s : Scoped) (texts : List (List ℕ)) (n : ℕ) → PrintTexts s s.program.items texts →
        bytes (eval n s).0 ≡ on_1 (joined texts) }
    ensures ends { (s : Scoped) (texts : List (List ℕ)) (n : ℕ) → PrintTexts s s.program.items texts →
        (eval n s).1 ≡ Ended (Exit 0) }
{}
