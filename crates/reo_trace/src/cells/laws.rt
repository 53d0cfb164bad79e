//! Laws of cells. Each function is empty: its contract is a law.
ghost use Rattle.reo_trace.specs.cells.Laws.{CellsStay};

/// Cells of a circuit are those of each circuit of the same shape.
pub fn cells_stay()
    ensures { CellsStay }
{}
