//! Tests of the board by hand, and of workers over threads: what no contract says, that several
//! packs are under way at once and that workers take over each other's.
#![tactic(auto)]

#[cfg(test)]
mod board;
#[cfg(test)]
mod gates;
#[cfg(test)]
mod pools;
#[cfg(test)]
mod stays;
