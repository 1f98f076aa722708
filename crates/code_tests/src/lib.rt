//! Tests of code that is changed while it runs. An instruction is fetched as its bytes stand at
//! that moment, with no fence between, whoever stored them: the thread itself, another thread,
//! another process, a read or a fork, or a page that was mapped anew. The interpreter remembers
//! what words of code stand for and where pages lie; here stands what it may never remember too
//! long. One guest changes no code: it writes x0, which the interpreter knows by the code.
//!
//! Each guest is run by the whole program at quanta from 16 to 65536, with one worker and with 32,
//! and replayed, those of one thread by both schemes and, if they don't ask which process they are,
//! as two processes side by side. It comes to an output and a status that tell which instructions
//! were run. They are worked out by hand, beside each guest. Its words are those that GNU's
//! assembler makes of the lines beside them. Nothing stands on this crate.
#![tactic(auto)]

#[cfg(test)]
mod calls;
#[cfg(test)]
mod checks;
#[cfg(test)]
mod guests;
#[cfg(test)]
mod halves;
#[cfg(test)]
mod inputs;
#[cfg(test)]
mod own_code;
#[cfg(test)]
mod pages;
#[cfg(test)]
mod processes;
#[cfg(test)]
mod threads;
#[cfg(test)]
mod zero;
