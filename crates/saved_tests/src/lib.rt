//! Tests of saved groups: texts spelled by hand from the format's table, whole, cut at each length
//! and with each byte changed, read and written again.
#![tactic(auto)]

#[cfg(test)]
mod changed;
#[cfg(test)]
mod cuts;
#[cfg(test)]
mod ranges;
#[cfg(test)]
mod reading;
#[cfg(test)]
mod texts;
#[cfg(test)]
mod unlawful;
