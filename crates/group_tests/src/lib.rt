//! Tests of the whole program over files and sinks in memory: guests are run from the words to the
//! status.
#![tactic(auto)]

#[cfg(test)]
mod calls;
#[cfg(test)]
mod checks;
#[cfg(test)]
mod clocks;
#[cfg(test)]
mod compressed;
#[cfg(test)]
mod failing;
#[cfg(test)]
mod faults;
#[cfg(test)]
mod files;
#[cfg(test)]
mod gates;
#[cfg(test)]
mod generated;
#[cfg(test)]
mod groups;
#[cfg(test)]
mod guests;
#[cfg(test)]
mod hostile;
#[cfg(test)]
mod logs;
#[cfg(test)]
mod machine_words;
#[cfg(test)]
mod migrations;
#[cfg(test)]
mod ordered;
#[cfg(test)]
mod recorded;
#[cfg(test)]
mod refusals;
#[cfg(test)]
mod rows;
#[cfg(test)]
mod saved_files;
#[cfg(test)]
mod saves;
#[cfg(test)]
mod schemes;
#[cfg(test)]
mod traces;
#[cfg(test)]
mod workers;
