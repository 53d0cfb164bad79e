//! The tables of a search.
use reo_propagate::State;
use reo_reach::Supply;
use reo_side_tables::Board;
use reo_values::List;

/// The items that can stand at joints, what is looked up of sides, and a search that was begun.
#[derive(Drop)]
pub struct SearchTables {
    pub supply: Supply,
    pub boards: List<Board>,
    pub state: State,
}
