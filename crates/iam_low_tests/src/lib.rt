//! Tests of lower crates: calls of theirs that the program does not make; what keys that nothing gives can turn; words of a command line; the
//! lanes, work and crews of workers.
#![tactic(auto)]

#[cfg(test)]
mod calls;
#[cfg(test)]
mod crew;
#[cfg(test)]
mod keys;
#[cfg(test)]
mod lanes;
#[cfg(test)]
mod rules;
#[cfg(test)]
mod words;
#[cfg(test)]
mod work;
