//! One instruction of a thread, RV32IMA with Zifencei, over any memory: what it computes, what it
//! does to registers and memory, and why it stops.
#![tactic(auto)]

mod form_perform;
mod memory;
mod next;
pub mod nonzero;
pub mod numbers;
mod on_memory;
pub mod on_registers;
mod one_page;
mod perform;
mod short_perform;

use dos_world::Reason;
pub use memory::Memory;
pub use next::Next;
pub use one_page::OnePage;
pub use perform::{one, one_known};

/// How one instruction went.
#[derive(Clone, Copy, Debug, PartialEq, Eq)]
pub enum Went {
    /// It was done.
    Step,
    /// It wasn't, and changed nothing.
    Stop(Reason),
}
