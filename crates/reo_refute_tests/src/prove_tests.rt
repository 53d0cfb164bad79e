//! Logs that are made for first colourings, whose rows were found by hand: tests alone.

#[cfg(test)]
mod building;
#[cfg(test)]
mod circuits;
#[cfg(test)]
mod making;
#[cfg(test)]
mod parts;
#[cfg(test)]
mod writers;
