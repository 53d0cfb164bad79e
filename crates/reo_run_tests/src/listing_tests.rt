//! Boundary tables of worked circuits, found by hand: tests alone.

#[cfg(test)]
mod cases;
#[cfg(test)]
mod circuits;
#[cfg(test)]
mod large;
