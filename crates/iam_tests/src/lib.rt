//! Tests of what no command of the program shows: engines, candidates, cuts, matrices and gates.
#![tactic(auto)]

#[cfg(test)]
mod cells;
#[cfg(test)]
mod engine;
#[cfg(test)]
mod gates;
#[cfg(test)]
mod matrix;
