//! Boundary tables.
use reo_net_base::Mark;
use reo_values::List;

/// The boundary table of a part: the ports of the part, in order, and the lists of marks that they
/// have in its assignments without a jam row. Lists are ordered by their first difference, F
/// before G before R.
#[derive(Drop)]
pub struct BoundaryTable {
    pub part: usize,
    pub ports: List<usize>,
    pub rows: List<List<Mark>>,
}
