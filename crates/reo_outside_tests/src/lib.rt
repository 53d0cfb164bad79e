//! What no contract says of files, sources, sinks and traces: that calls succeed, what real ones
//! do, and that the texts are those that were meant. Tests alone.
#![tactic(auto)]

#[cfg(test)]
mod checks;
#[cfg(test)]
mod files;
#[cfg(test)]
mod proof_texts;
#[cfg(test)]
mod puts;
#[cfg(test)]
mod reading;
#[cfg(test)]
mod real;
#[cfg(test)]
mod takes;
#[cfg(test)]
mod traces;
