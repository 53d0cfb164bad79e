//! Parts whose sides have the same tables.
ghost use Rattle.reo_net_laws.specs.state_laws.Keys.{OneKeySameTables};
ghost use Rattle.reo_net_laws.specs.state_laws.States.{OpenPartsNeedNoItems, SameTablesSameRows};

/// Rows that fit on a closed set, each of which lets every item in, have items there.
pub fn open_parts_need_no_items()
    ensures { OpenPartsNeedNoItems }
{}

/// The rows that are first on a closed set are first there in each circuit and round in which the
/// sides of the set have the same tables and classes, where every row lets every item in.
pub fn same_tables_same_rows()
    ensures { SameTablesSameRows }
{}

/// Sides of a set whose forms have the same numbers have the same tables, in rounds in which the
/// classes are the same.
pub fn one_key_same_tables()
    ensures { OneKeySameTables }
{}
