//! Laws of the shims. The functions do nothing; their contracts are the laws.
ghost use Rattle.std.specs.Prelude.{◌≡◌, ◌≢◌, ◌++◌, ℕ, List, Option, Some, None};
ghost use Rattle.dos_world.specs.declared.Post.{Post};
ghost use Rattle.dos_world.specs.declared.Question.{Question};
ghost use Rattle.dos_io.specs.declared.exchange.ClockRule.{ClockRule};
ghost use Rattle.dos_io.specs.declared.host_question.HostQuestion.{HostQuestion};
ghost use Rattle.dos_io.specs.declared.shim.ShimStop.{ShimStop};
ghost use Rattle.dos_io.specs.declared.shim.ShimStop.TheVariants.{HostFault};
ghost use Rattle.dos_io.specs.Hosts.{Told};
ghost use Rattle.dos_io.specs.Given.{Given};
ghost use Rattle.dos_io.specs.Shims.{HasNoEnd};
ghost use Rattle.log_text.specs.declared.header.LogHeader.{LogHeader};
ghost use Rattle.log_text.specs.LogText.{exchanges_from};
ghost use Rattle.log_text.specs.Ranges.{FitsLog};
ghost use Rattle.shim_log.specs.Ledger.{LedgerState, RecorderFollows, empty_ledger, recorder_state};
ghost use Rattle.shim_log.specs.Asking.{RecorderAsks, host_questions, stop_questions};
ghost use Rattle.shim_log.specs.Replay.{ReplayState, StandsNext, IsMisfitOf, entries_used};
ghost use Rattle.shim_log.specs.Replay.{replayer_state};

/// All that a recorder has told since it was asked nothing is given by its words and its host, and
/// its header is the one that it was made with.
pub fn recordings_are_given()
    ensures given { (posts : List (ℕ × Post)) (clock : ClockRule) (header : LogHeader) (room : ℕ)
        (after : LedgerState) (a b : Option Told) (m n : ℕ)
        → RecorderFollows (empty_ledger posts clock header room) after a b m n
        → Given posts clock 0 a b (recorder_state after).told }
    ensures header { (posts : List (ℕ × Post)) (clock : ClockRule) (header : LogHeader) (room : ℕ)
        (after : LedgerState) (a b : Option Told) (m n : ℕ)
        → RecorderFollows (empty_ledger posts clock header room) after a b m n
        → after.header ≡ header }
{}

/// What a recorder has asked its host since it was asked nothing: where it never stopped, the
/// questions for all that it has told, once each and in their order; where it stopped once, at its
/// last call, these and then what that stop asks, which is the question at which the host failed.
/// The host's count of faults stands unless it failed then.
pub fn recordings_ask_once()
    ensures whole { (posts : List (ℕ × Post)) (clock : ClockRule) (header : LogHeader) (room : ℕ)
        (after : LedgerState) (before asked : List HostQuestion) (m n : ℕ)
        → RecorderAsks (empty_ledger posts clock header room) after before asked m n
        → after.last ≡ None
        → (asked ≡ before ++ host_questions clock (recorder_state after).told) × (n ≡ m) }
    ensures stopped { (posts : List (ℕ × Post)) (clock : ClockRule) (header : LogHeader) (room : ℕ)
        (after : LedgerState) (before asked : List HostQuestion) (m n : ℕ)
        → RecorderAsks (empty_ledger posts clock header room) after before asked m n
        → (question : Question) (stop : ShimStop) → after.stops ≡ 1
        → after.asked ≡ Some question → after.last ≡ Some stop
        → (asked ≡ before ++ (host_questions clock (recorder_state after).told
        ++ stop_questions clock question stop)) × (stop ≢ HostFault → n ≡ m) }
{}

/// A replayer that has told an end has told its whole log from its start on.
pub fn replays_end_whole()
    ensures { (p : ReplayState) → FitsLog p.log → (HasNoEnd (replayer_state p).told → ⊥)
        → (replayer_state p).told ≡ exchanges_from p.start p.log }
{}

/// Before a replayer there was what it has told, and then what is before one that goes on behind
/// the entries that it used.
pub fn replays_go_on()
    ensures { (p : ReplayState) → exchanges_from p.start p.log
        ≡ (replayer_state p).told ++ exchanges_from (entries_used p) p.log }
{}

/// Where a replayer stopped, the kept question is that of the exchange behind those that it told.
pub fn misfits_stand_next()
    ensures { (p : ReplayState) (asked : Question) (stop : ShimStop)
        (misfit : IsMisfitOf p asked stop) → StandsNext p misfit.kept }
{}
