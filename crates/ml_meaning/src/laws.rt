ghost use Rattle.std.specs.Prelude.{◌≡◌, ℕ, ◌≤◌};
ghost use Rattle.ml_tree.specs.declared.scoped.Scoped.{Scoped};
ghost use Rattle.ml_meaning.specs.declared.event.Ending.TheVariants.{Exit};
ghost use Rattle.ml_meaning.specs.Runs.{Ended};
ghost use Rattle.ml_meaning.specs.Growth.{Begins};
ghost use Rattle.ml_meaning.specs.Programs.{eval};

/// Laws: more fuel changes nothing of what was evaluated with less. The trace at some fuel begins
/// the trace at every greater fuel, and a program that has exited at some fuel has the same trace
/// and status at every greater one.
pub fn more_fuel()
    ensures begins { (s : Scoped) (n m : ℕ) → n ≤ m → Begins (eval n s).0 (eval m s).0 }
    ensures stays { (s : Scoped) (n m status : ℕ) → n ≤ m → (eval n s).1 ≡ Ended (Exit status) → eval m s ≡ eval n s }
{}
