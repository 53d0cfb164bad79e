//! Searches by marks, beside the search that goes through all: tests alone.

#[cfg(test)]
mod building;
#[cfg(test)]
mod cases;
#[cfg(test)]
mod tests;
