//! Ports that two components name.
ghost use Rattle.std.specs.Prelude.{◌≡◌, [], ◌++◌, map, OnOk, IfOk, List};
ghost use Rattle.std.specs.List.{flat_map};
ghost use Rattle.reo_rules.specs.Lists.{has_name};
ghost use Rattle.reo_script.specs.scripts.ScriptRules.{Naming as ANaming, namings_in, shared, shared_in};
ghost use Rattle.reo_script.specs.Places.{naming_of, IsJudgedBy};

use crate::places::{PortPlace, places_in};
use crate::scripts::{ComponentForm, ScriptFault};
use reo_rules::Names;
use reo_values::NoMemory;
use std::alloc::Global;

/// No place names a port of these.
fn judge_others(alloc: Global, seen: &Names, places: &[PortPlace]) -> Result<(), ScriptFault>
    ensures { IsJudgedBy (flat_map (shared_in seen.now) (map naming_of places.now)) result }
{
    for place in places {
        if seen.has(place.port.as_slice()) {
            return Err(ScriptFault::Shared {
                line: place.line,
                name: place.port.copy(alloc)?,
            });
        }
    }
    Ok(())
}

/// Adds the ports that places name.
fn note(alloc: Global, seen: &mut Names, places: &[PortPlace]) -> Result<(), NoMemory>
    ensures { OnOk result
        ((name : List _)
        → has_name seen.new name
        ≡ has_name (seen.old ++ map (λ (n : ANaming). n.port) (map naming_of places.now)) name) }
{
    for place in places {
        seen.note(alloc, place.port.as_slice())?;
    }
    Ok(())
}

/// No component names a port that an earlier one names.
pub(crate) fn judge_sharing(alloc: Global, components: &[ComponentForm]) -> Result<(), ScriptFault>
    ensures { IsJudgedBy (shared components.now) result }
{
    let mut seen = Names::new(alloc);
    for component in components {
        let places = places_in(alloc, component)?;
        judge_others(alloc, &seen, places.as_slice())?;
        note(alloc, &mut seen, places.as_slice())?;
    }
    Ok(())
}
