//! Worked circuits, whose first colourings were found by hand: tests alone.
#![tactic(auto)]

#[cfg(test)]
mod checks;
#[cfg(test)]
mod circuits;
#[cfg(test)]
mod firsts;
#[cfg(test)]
mod kept;
#[cfg(test)]
mod knots;
#[cfg(test)]
mod orders;
#[cfg(test)]
mod pairs;
#[cfg(test)]
mod pieces;
#[cfg(test)]
mod puts;
#[cfg(test)]
mod refused;
#[cfg(test)]
mod rounds;
#[cfg(test)]
mod row_lists;
#[cfg(test)]
mod shapes;
#[cfg(test)]
mod tables;
#[cfg(test)]
mod texts;
