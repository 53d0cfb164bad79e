//! Logs, whose answers were found by hand: tests alone.
#![tactic(auto)]

#[cfg(test)]
mod building;
#[cfg(test)]
mod drain;
#[cfg(test)]
mod lines;
#[cfg(test)]
mod lists;
mod prove_tests;
#[cfg(test)]
mod writers;
