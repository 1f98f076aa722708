//! A leader and a follower: the leader runs images over a host, and the follower runs the same
//! images beside it, in a thread of its own, by what the leader is told.
#![tactic(auto)]

// Kernels and images are passed to `drop`: where the end of a scope drops them, the function's
// proof goes through all their parts, at each exit.

mod opening;
mod running;
mod top;

pub use top::twin_main;
