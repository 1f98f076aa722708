// A live thread.
use crate::SignalState;
use dos_world::{Regs, ThreadState};
use std::marker::Model;

/// A live thread: its process, its registers and budget, whether it runs or waits, and its signals.
/// Contracts see the thread of the flat world.
#[derive(Drop)]
pub struct Thread {
    pub process: u32,
    pub regs: Regs,
    pub budget: u32,
    pub state: ThreadState,
    pub signals: SignalState,
}

impl Model for Thread {
    ghost use Rattle.dos_world.specs.World.{Thread as Flat};

    ghost Value = { Flat };

    ghost view = { λ t. record {
      process = t.process;
      registers = t.regs;
      budget = t.budget;
      state =
          t.state;
      pending = t.signals.pending;
      mask = t.signals.mask;
      saved =
          t.signals.saved;
    } };
}
