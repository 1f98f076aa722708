//! The services over the kernel's state: what an ecall of a thread does.
//!
//! Each call is stated over the flat world of the state (`specs/StateWorld`), whatever the quantum
//! and the bytes sent before, and keeps the state sound.
#![tactic(auto)]

mod answering;
mod children;
mod clock;
mod committing;
mod descriptors;
mod ending;
mod memory;
mod naming;
mod piping;
mod reading;
mod services;
mod signalling;
mod sleeping;
mod state;
mod threads;
mod waiting;
mod writing;

pub use committing::commit;
pub use ending::end_process;
pub use services::serve;
pub use state::{RunStop, Served, State, count_round, new_state, run_stop};
pub use waiting::would_wait;
