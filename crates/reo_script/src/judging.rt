//! The rules of a script on the ports of a circuit.
ghost use Rattle.std.specs.Prelude.{◌≡◌, map, is_none, option_copied, IsErrOf};
ghost use Rattle.std.specs.List.{flat_map};
ghost use Rattle.reo_net_base.specs.declared.port.Port.{Port as APort};
ghost use Rattle.reo_script.specs.scripts.ScriptRules.{port_named as port_named_in, no_port as no_port_at, wrong_way as wrong_way_at, outside as outside_at, goes_wrong, goes_outside};
ghost use Rattle.reo_script.specs.Places.{naming_of, IsJudgedBy};

use crate::places::PortPlace;
use crate::scripts::ScriptFault;
use reo_net_base::{Port, Way};
use reo_rules::{Names, is_item_of};
use std::alloc::Global;

/// The port of a name, if there is one.
pub(crate) fn port_named<'a>(names: &Names, ports: &'a [Port], name: &[u8]) -> Option<&'a Port>
    requires { names.now ≡ map (λ (p : APort). p.name) ports.now }
    ensures { option_copied result ≡ port_named_in ports.now name.now }
{
    ports.get(names.find(name)?)
}

/// Whether a place names no port.
fn is_missing(names: &Names, ports: &[Port], place: &PortPlace) -> bool
    requires { names.now ≡ map (λ (p : APort). p.name) ports.now }
    ensures { result ≡ is_none (port_named_in ports.now place.now.port.now) }
{
    port_named(names, ports, place.port.as_slice()).is_none()
}

/// Whether a place names a port that goes the other way.
fn is_wrong(names: &Names, ports: &[Port], place: &PortPlace) -> bool
    requires { names.now ≡ map (λ (p : APort). p.name) ports.now }
    ensures { result ≡ goes_wrong ports.now (naming_of place.now) }
{
    match port_named(names, ports, place.port.as_slice()) {
        Some(port) => (port.way == Way::In) != place.literal.is_some(),
        None => false,
    }
}

/// Whether a place has a literal that is no item of its port's type.
fn is_outside(names: &Names, ports: &[Port], place: &PortPlace) -> bool
    requires { names.now ≡ map (λ (p : APort). p.name) ports.now }
    ensures { result ≡ goes_outside ports.now (naming_of place.now) }
{
    match place.literal {
        Some(literal) => match port_named(names, ports, place.port.as_slice()) {
            Some(port) => !is_item_of(&port.kindred, literal),
            None => true,
        },
        None => false,
    }
}

/// Each place names a port.
pub(crate) fn judge_names(
    alloc: Global,
    names: &Names,
    ports: &[Port],
    places: &[PortPlace],
) -> Result<(), ScriptFault>
    requires { names.now ≡ map (λ (p : APort). p.name) ports.now }
    ensures { IsJudgedBy (flat_map (no_port_at ports.now) (map naming_of places.now)) result }
{
    for place in places {
        if is_missing(names, ports, place) {
            return Err(ScriptFault::NoPort {
                line: place.line,
                name: place.port.copy(alloc)?,
            });
        }
    }
    Ok(())
}

/// Each write is at an `in` port, and each take at an `out` port.
pub(crate) fn judge_ways(
    alloc: Global,
    names: &Names,
    ports: &[Port],
    places: &[PortPlace],
) -> Result<(), ScriptFault>
    requires { names.now ≡ map (λ (p : APort). p.name) ports.now }
    ensures { IsJudgedBy (flat_map (wrong_way_at ports.now) (map naming_of places.now)) result }
{
    for place in places {
        if is_wrong(names, ports, place) {
            return Err(ScriptFault::WrongWay {
                line: place.line,
                name: place.port.copy(alloc)?,
            });
        }
    }
    Ok(())
}

/// Each literal is an item of its port's type.
pub(crate) fn judge_items(
    names: &Names,
    ports: &[Port],
    places: &[PortPlace],
) -> Result<(), ScriptFault>
    requires { names.now ≡ map (λ (p : APort). p.name) ports.now }
    ensures judged { let names = map naming_of places.now in
        IsJudgedBy (flat_map (outside_at ports.now) names) result }
    ensures sure { IsErrOf result ScriptFault.NoMemory → ⊥ }
{
    for place in places {
        if is_outside(names, ports, place) {
            return Err(ScriptFault::ItemOutside { line: place.line });
        }
    }
    Ok(())
}
