//! Laws of what is kept between rounds, of turns, and of filters and maps.
ghost use Rattle.reo_kinds_laws.specs.Kept.{BuffersKeepOrder, ShiftsLoseFronts, VariablesHold, QuotasCountDown};
ghost use Rattle.reo_kinds_laws.specs.Runs.{FirstInFirstOut};
ghost use Rattle.reo_kinds_laws.specs.CanFlow.{EndsFlowWhileTheyCan};
ghost use Rattle.reo_kinds_laws.specs.Turns.{TurnsAreFair};
ghost use Rattle.reo_kinds_laws.specs.Filters.{FiltersChooseOnce, FiltersPassWhatIsTrue};
ghost use Rattle.reo_kinds_laws.specs.Maps.{MapsGiveValues};

/// What a buffer gives in a round, and then what it holds after it, are what it held and then what
/// came in; its size stays.
pub fn buffers_keep_order()
    ensures { BuffersKeepOrder }
{}

/// So does a shift buffer, but that its front is lost, exactly where it was full and an item came
/// in while none was given.
pub fn shifts_lose_fronts()
    ensures { ShiftsLoseFronts }
{}

/// Over any rounds running, all that a buffer has given and then what it holds are what it held at
/// first and then all that has come in.
pub fn first_in_first_out()
    ensures { FirstInFirstOut }
{}

/// A variable gives what it holds, and after a round holds what came in, or else what it held.
pub fn variables_hold()
    ensures { VariablesHold }
{}

/// The ends of a quota flow together; where they do, one less is left, and else as many as before.
pub fn quotas_count_down()
    ensures { QuotasCountDown }
{}

/// A buffer takes in while it is not full, a shift buffer and a variable always; each gives while
/// it holds something. A quota lets items through while some are left.
pub fn ends_flow_while_they_can()
    ensures { EndsFlowWhileTheyCan }
{}

/// In any m rounds running each of the m inputs of a merger comes first in exactly one.
pub fn turns_are_fair()
    ensures { TurnsAreFair }
{}

/// By exactly one of its rows a filter takes an item in.
pub fn filters_choose_once()
    ensures { FiltersChooseOnce }
{}

/// A filter lets an item go on exactly where it is of its type and its expression is true of it,
/// and gives the item as it came.
pub fn filters_pass_what_is_true()
    ensures { FiltersPassWhatIsTrue }
{}

/// A map lets each item of its type in, and gives the value of its expression on it.
pub fn maps_give_values()
    ensures { MapsGiveValues }
{}
