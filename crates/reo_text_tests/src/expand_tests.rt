//! What no contract says of expansions: texts of version 2 with the texts that they stand for, or
//! their refusals, as tables. Tests alone.

#[cfg(test)]
mod bounded;
#[cfg(test)]
mod channels;
#[cfg(test)]
mod checks;
#[cfg(test)]
mod counts;
#[cfg(test)]
mod families;
#[cfg(test)]
mod indexes;
#[cfg(test)]
mod lifted;
#[cfg(test)]
mod loops;
#[cfg(test)]
mod refusals;
#[cfg(test)]
mod rows;
