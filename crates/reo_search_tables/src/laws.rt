//! Laws of tables and of the orders of parts.
ghost use Rattle.reo_search_tables.specs.Laws.{ReadyTablesAreRight, RightPartsAreReady, RightTablesStay, RoomStays};
ghost use Rattle.reo_search_tables.specs.Laws.{OrdersAreOfParts, OrdersStay};

/// Tables that are right on each part are those of the circuit.
pub fn right_parts_are_ready()
    ensures { RightPartsAreReady }
{}

/// The tables of a circuit have room for it, and are right on each set of sides.
pub fn ready_tables_are_right()
    ensures { ReadyTablesAreRight }
{}

/// Tables that are right on a set out of which no joint leads stay so where the circuit changes at
/// no primitive of the set.
pub fn right_tables_stay()
    ensures { RightTablesStay }
{}

/// Tables have room for each circuit of the same shape.
pub fn room_stays()
    ensures { RoomStays }
{}

/// The joints of a part are just those of its list, which can be gone through.
pub fn orders_are_of_parts()
    ensures { OrdersAreOfParts }
{}

/// The orders of parts are those of each circuit of the same shape.
pub fn orders_stay()
    ensures { OrdersStay }
{}
