//! What no contract says of items and expressions: that calls succeed, and that the texts and
//! the rules are those that were meant. Tests alone.
#![tactic(auto)]

#[cfg(test)]
mod checks;
#[cfg(test)]
mod expressions;
#[cfg(test)]
mod items;
#[cfg(test)]
mod lanes;
#[cfg(test)]
mod lists;
#[cfg(test)]
mod looks;
#[cfg(test)]
mod notation;
#[cfg(test)]
mod terms;
