// The host: where input and time come from.
ghost use Rattle.std.specs.Prelude.{◌≡◌, ◌≤◌, ◌<◌, ◌++◌, ◌∷◌, [], ℕ, List, length, take, drop};
ghost use Rattle.std.specs.Prelude.{Option, IfOk, OnOk, OnErr, IfSome};
ghost use Rattle.dos_io.specs.declared.host_question.HostQuestion.{HostQuestion};
ghost use Rattle.dos_io.specs.Outside.{HasCause};
ghost use Rattle.dos_io.specs.Hosts.{Told, AreFilled, taken, after_input, before_reading};

use crate::host_question::HostQuestion;

/// The host failed.
#[derive(Clone, Copy, Debug, PartialEq, Eq)]
pub struct HostFault {}

/// The input and the clock of a machine.
pub trait Host {
    /// The input and the readings that are still to come, where the host tells them.
    ghost told: { Self → Option Told };

    /// What it was asked so far, in order. Each call adds its question, whatever it answers.
    ghost asked: { Self → List HostQuestion };

    /// How often it has failed.
    ghost faults: { Self → ℕ };

    /// The next input: bytes from the front of `buf`, as many as the answer says, and 0 where the
    /// input is at its end. The rest of `buf` stays. On a fault nothing is taken.
    fn input(&mut self, buf: &mut [u8]) -> Result<usize, HostFault>
        requires { 0 < length buf.old }
        ensures short { IfOk result (λ k. k ≤ length buf.old) }
        ensures bytes { IfOk result (λ k. IfSome (told self.old)
            (λ t. take k buf.new ≡ (taken (length buf.old) t.pieces).0)) }
        ensures rest { IfOk result (λ k. drop k buf.new ≡ drop k buf.old) }
        ensures told_ok { OnOk result (told self.new ≡ after_input (length buf.old)
            (told self.old)) }
        ensures told_err { OnErr result (told self.new ≡ told self.old) }
        ensures asked { asked self.new
            ≡ asked self.old ++ HostQuestion.Bytes (length buf.old) ∷ [] }
        ensures cause { HasCause (faults self.old) (faults self.new) result }
        ensures steady { OnOk result (faults self.new ≡ faults self.old) };

    /// The next reading of the clock. On a fault none is taken.
    fn clock(&mut self) -> Result<u64, HostFault>
        ensures told_ok { IfOk result (λ n. told self.old ≡ before_reading n (told self.new)) }
        ensures told_err { OnErr result (told self.new ≡ told self.old) }
        ensures asked { asked self.new ≡ asked self.old ++ HostQuestion.Reading ∷ [] }
        ensures cause { HasCause (faults self.old) (faults self.new) result }
        ensures steady { OnOk result (faults self.new ≡ faults self.old) };

    /// No piece of the input is empty, so an answer of 0 bytes means that the input is at its end.
    ghost filled: { (h : Self) → IfSome (told h) (λ t. AreFilled t.pieces) };
}
