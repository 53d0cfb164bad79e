//! The command over objects that fail, which no file brings about: fetches that fail although the
//! file is there, and sinks and sources that fail in the middle; and proofs that it has written,
//! which it verifies. Tests alone; what files show of the command is in the cases of `reo_cases`.
#![tactic(auto)]

#[cfg(test)]
mod checks;
#[cfg(test)]
mod failing;
#[cfg(test)]
mod objects;
#[cfg(test)]
mod proofs;
mod proving_tests;
#[cfg(test)]
mod sure;
#[cfg(test)]
mod talking;
