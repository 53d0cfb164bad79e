//! What is known of the declarations before a place.
use crate::scope::Scope;
use reo_rules::Names;
use reo_values::List;

/// The numbers of the declared types, the names of the connectors, and the numbers of the types
/// of each connector's parameters.
#[derive(Drop)]
pub(crate) struct Known {
    pub(crate) declared: Scope,
    pub(crate) connectors: Names,
    pub(crate) signatures: List<List<usize>>,
}
