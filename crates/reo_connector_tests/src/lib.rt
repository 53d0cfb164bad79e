//! Connectors that programs hold, and those behind handles, call by call: tests alone.
#![tactic(auto)]

#[cfg(test)]
mod acts;
#[cfg(test)]
mod checks;
#[cfg(test)]
mod connectors;
#[cfg(test)]
mod handles;
#[cfg(test)]
mod large;
#[cfg(test)]
mod offers;
#[cfg(test)]
mod opening;
