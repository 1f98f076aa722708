//! Laws of the flat world: which changes keep a world lawful. There is no code here but the
//! functions of `laws`, whose contracts are the laws to cite.
#![tactic(auto)]

pub mod laws;
