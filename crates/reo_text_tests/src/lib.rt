//! What no contract says of circuit texts and no command shows: spans of tokens, a cursor's steps,
//! lines of trees, and each law at a language; that reading, printing and lifting texts of
//! version 2 comes to the answer that is meant. Tests alone; what the command shows of texts is in
//! the cases of `reo_cases`.
#![tactic(auto)]

#[cfg(test)]
mod canonical;
#[cfg(test)]
mod checks;
#[cfg(test)]
mod cursors;
mod expand_tests;
#[cfg(test)]
mod laws;
#[cfg(test)]
mod laws_two;
#[cfg(test)]
mod lines;
#[cfg(test)]
mod lines_two;
#[cfg(test)]
mod printing;
#[cfg(test)]
mod refused;
#[cfg(test)]
mod texts;
#[cfg(test)]
mod tokens;
#[cfg(test)]
mod upgraded;
