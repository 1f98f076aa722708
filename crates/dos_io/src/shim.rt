// The shim of a group: what sees and decides each thing that crosses its border.
ghost use Rattle.std.specs.Prelude.{◌≡◌, ◌≤◌, ◌<◌, length, take, drop, OnOk, IfOk, IfErr};
ghost use Rattle.dos_world.specs.declared.Question.TheVariants.{Signals as signals_question};
ghost use Rattle.dos_world.specs.declared.Question.TheVariants.{Input as input_question};
ghost use Rattle.dos_world.specs.declared.Question.TheVariants.{Clock as clock_question};
ghost use Rattle.dos_world.specs.declared.Question.TheVariants.{End as end_question};
ghost use Rattle.dos_io.specs.declared.exchange.Exchange.TheVariants.{Signals as signals_exchange};
ghost use Rattle.dos_io.specs.declared.exchange.Exchange.TheVariants.{Input as input_exchange};
ghost use Rattle.dos_io.specs.declared.exchange.Exchange.TheVariants.{Clock as clock_exchange};
ghost use Rattle.dos_io.specs.declared.exchange.Exchange.TheVariants.{End as end_exchange};

use crate::signal_list::SignalList;
use dos_world::{Ending, Misfit};

/// Why a shim doesn't answer.
#[derive(Clone, Copy, Debug, PartialEq, Eq)]
pub enum ShimStop {
    /// The host failed.
    HostFault,
    /// The log has no room for what the question may bring.
    LogFull,
    /// The log's next entry is of another question.
    Misfit(Misfit),
    /// Want of memory.
    Memory,
}

/// What answers the questions of a group.
///
/// Each call that answers adds its exchange to what the shim tells. A call that stops adds nothing,
/// and shows its question and why it stopped. After the end has been told nothing more is asked.
pub trait Shim {
    ghost use Rattle.dos_io.specs.Shims.{ShimState, shim_answered, Stopped, HasNoEnd};

    /// The exchanges so far, and the last stop.
    ghost state: { Self → ShimState };

    /// What any calls may make of a shim: the first value, and a later one.
    ghost follows: { Self → Self → Type 0 };

    /// The signals of a round, into `list`.
    fn signals(&mut self, round: u32, list: &mut SignalList) -> Result<(), ShimStop>
        requires { HasNoEnd (state self.old).told }
        ensures ok { OnOk result (state self.new ≡ shim_answered (state self.old)
            (signals_exchange round list.new)) }
        ensures err { IfErr result (λ stop. Stopped (state self.old) (signals_question round) stop
            (state self.new)) }
        ensures follows { follows self.old self.new };

    /// An input of at most `buf.len()` bytes, to the front of `buf`, as long as the answer says;
    /// the rest of `buf` stays.
    fn input(&mut self, round: u32, tid: u32, buf: &mut [u8]) -> Result<usize, ShimStop>
        requires told { HasNoEnd (state self.old).told }
        requires some { 0 < length buf.old }
        requires few { length buf.old ≤ 4096 }
        ensures short { IfOk result (λ k. k ≤ length buf.old) }
        ensures rest { IfOk result (λ k. drop k buf.new ≡ drop k buf.old) }
        ensures ok { IfOk result (λ k. state self.new ≡ shim_answered (state self.old)
            (input_exchange round tid (length buf.old) (take k buf.new))) }
        ensures err { IfErr result (λ stop. Stopped (state self.old)
            (input_question round tid (length buf.old)) stop (state self.new)) }
        ensures follows { follows self.old self.new };

    /// A reading of the clock.
    fn clock(&mut self, round: u32, tid: u32) -> Result<u64, ShimStop>
        requires { HasNoEnd (state self.old).told }
        ensures ok { IfOk result (λ n. state self.new ≡ shim_answered (state self.old)
            (clock_exchange round tid n)) }
        ensures err { IfErr result (λ stop. Stopped (state self.old) (clock_question round tid) stop
            (state self.new)) }
        ensures follows { follows self.old self.new };

    /// The end of the run, which is told last.
    fn end(&mut self, ending: Ending, rounds: u32) -> Result<(), ShimStop>
        requires { HasNoEnd (state self.old).told }
        ensures ok { OnOk result (state self.new
            ≡ shim_answered (state self.old) (end_exchange ending rounds)) }
        ensures err { IfErr result (λ stop. Stopped (state self.old) (end_question ending rounds)
            stop
            (state self.new)) }
        ensures follows { follows self.old self.new };

    ghost reflexive: { (s : Self) → follows s s };

    ghost transitive: { (s t u : Self) → follows s t → follows t u → follows s u };
}
