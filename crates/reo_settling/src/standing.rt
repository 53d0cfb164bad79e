//! What stands when parts are settled.
use reo_part_plans::Kept;

/// What stands when parts are settled: the rows that are kept of them, and whether the joints that
/// flow by these are told. Nothing of it changes while they are settled.
#[derive(Drop)]
pub(crate) struct Standing<'a> {
    pub(crate) kept: &'a Kept,
    pub(crate) told: bool,
}
