//! The moves that a round of the ownership scheme is made of, and the moments between them. There
//! is no code here but the functions of `laws`, whose contracts are the laws to cite.
#![tactic(auto)]

pub mod laws;
