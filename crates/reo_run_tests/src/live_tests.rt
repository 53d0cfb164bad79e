//! Circuits that are talked to, whose answers were found by hand: tests alone.

#[cfg(test)]
mod cases;
#[cfg(test)]
mod checks;
#[cfg(test)]
mod circuits;
#[cfg(test)]
mod failing;
#[cfg(test)]
mod long;
#[cfg(test)]
mod notes;
#[cfg(test)]
mod objects;
#[cfg(test)]
mod order;
#[cfg(test)]
mod rounds;
#[cfg(test)]
mod talking;
#[cfg(test)]
mod texts;
#[cfg(test)]
mod wide;
