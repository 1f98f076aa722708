//! The machine: what one instruction of a thread does, a thread's part of a round, a round, the
//! opening of a group and its whole run, over one flat memory and one thread of control.
//!
//! There is no code here. `specs` has the definitions by which all other crates are measured, and
//! `proofs` lemmas about them; `round_core` promises the laws. They stand on the flat world and its
//! services (`dos_world`), on what an instruction is (`rv_isa`), on what an image is (`elf_image`),
//! and on the words that a thread has written (`written_words`).
#![tactic(auto)]
