//! Laws of tables and of groups. Each function is empty: its contract is a law.
ghost use Rattle.reo_net_base.specs.OwnGroups.{OwnGroupsAreGroups};
ghost use Rattle.reo_net_base.specs.SameTables.{OneNumberOneTable};

/// Sides whose forms have one number have the same table, in rounds in which the form's classes are
/// the same.
pub fn one_number_one_table()
    ensures { OneNumberOneTable }
{}

/// Each row can be a group of its own, so the laws of groups exclude no type of primitives.
pub fn own_groups_are_groups()
    ensures { OwnGroupsAreGroups }
{}
