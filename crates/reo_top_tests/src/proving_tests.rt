//! Worked runs with their logs, whose texts were found by hand, within limits that no command sets,
//! and with sinks that fail: tests alone. Where it is free which log stands behind a round, its
//! first lines and the last are told; that such texts are verified is in `reo_top_tests`.

#[cfg(test)]
mod checks;
#[cfg(test)]
mod failing;
#[cfg(test)]
mod shown;
#[cfg(test)]
mod whole;
#[cfg(test)]
mod works;
