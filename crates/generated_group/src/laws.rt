//! A law of the group that is made from a number. The function does nothing; its contract is the
//! law.
ghost use Rattle.std.specs.Prelude.{◌≤◌, ◌∷◌, [], ℕ};
ghost use Rattle.flat_machine.specs.Opening.{needed};
ghost use Rattle.generated_group.specs.Generated.{generated};

/// The group always has room in 4096 frames.
pub fn generated_groups_have_room()
    ensures { (number threads : ℕ) → threads ≤ 32 → needed (generated number threads ∷ []) ≤ 4096 }
{}
