//! Worked engines, whose rounds were found by hand: tests alone.
#![tactic(auto)]

#[cfg(test)]
mod changes;
#[cfg(test)]
mod checks;
#[cfg(test)]
mod circuits;
#[cfg(test)]
mod engines;
mod listing_tests;
mod live_tests;
#[cfg(test)]
mod offers;
#[cfg(test)]
mod playing;
