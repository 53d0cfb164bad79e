//! Searches of a knot, whose answers were found by hand: tests alone.
#![tactic(auto)]

#[cfg(test)]
mod arranged;
#[cfg(test)]
mod beginnings;
#[cfg(test)]
mod bounds;
#[cfg(test)]
mod circuits;
#[cfg(test)]
mod facts;
#[cfg(test)]
mod looks;
mod mark_search_tests;
#[cfg(test)]
mod searches;
#[cfg(test)]
mod sets;
#[cfg(test)]
mod tests;
#[cfg(test)]
mod widths;
