//! Laws of what crosses the border. The functions do nothing; their contracts are the laws.
ghost use Rattle.std.specs.Prelude.{◌≡◌, ◌+◌, ◌<◌, ◌++◌, ℕ, List, [], Option, Some, length, map};
ghost use Rattle.std.specs.Prelude.{IfSome};
ghost use Rattle.dos_world.specs.declared.Post.{Post};
ghost use Rattle.dos_io.specs.declared.exchange.Exchange.{Exchange};
ghost use Rattle.dos_io.specs.declared.exchange.ClockRule.{ClockRule};
ghost use Rattle.dos_io.specs.Hosts.{Told, AreFilled, taken};
ghost use Rattle.dos_io.specs.Exchanges.{question_of, HaveNoPosts};
ghost use Rattle.dos_io.specs.Shims.{ShimState};
ghost use Rattle.dos_io.specs.Quiet.{Quietness, shown_by, FollowsQuietly};
ghost use Rattle.dos_io.specs.declared.shim.ShimStop.{ShimStop};
ghost use Rattle.dos_io.specs.Given.{Given, readings};

/// Where the host tells, what it and the words give is determined by the questions: no answer is
/// invented.
pub fn given_is_determined()
    ensures { (posts : List (ℕ × Post)) (clock : ClockRule) (k : ℕ) (before : Told)
        (after other : Option Told) (es fs : List Exchange)
        → Given posts clock k (Some before) after es
        → Given posts clock k (Some before) other fs
        → map question_of es ≡ map question_of fs → es ≡ fs }
{}

/// What was given in two stretches was given in both together.
pub fn given_goes_on()
    ensures { (posts : List (ℕ × Post)) (clock : ClockRule) (k : ℕ)
        (before between after : Option Told) (es fs : List Exchange)
        → Given posts clock k before between es
        → Given posts clock (k + length (readings es)) between after fs
        → Given posts clock k before after (es ++ fs) }
{}

/// Where no piece of input is empty, none that is left is, and an empty answer means that none is
/// left.
pub fn empty_answers_are_the_end()
    ensures filled { (max : ℕ) (pieces : List (List ℕ)) → AreFilled pieces
        → AreFilled (taken max pieces).1 }
    ensures end { (max : ℕ) (pieces : List (List ℕ)) → 0 < max → AreFilled pieces
        → (taken max pieces).0 ≡ []
        → pieces ≡ [] }
{}

/// What a quiet shim told between two moments brought no signal, and it never stopped but for want
/// of memory.
pub fn quiet_shims_bring_no_signals()
    ensures posts { (old new : ShimState) (more : List Exchange) → FollowsQuietly old new
        → new.told ≡ old.told ++ more → HaveNoPosts more }
    ensures last { (s : Quietness) → IfSome (shown_by s).last (λ stop. stop ≡ ShimStop.Memory) }
{}
