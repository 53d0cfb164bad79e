//! The ports of `main`, and what is placed for them.
ghost use Rattle.std.specs.Prelude.{◌≡◌, List, [], ◌∷◌, map, IfOk};
ghost use Rattle.reo_net_base.specs.declared.port.Port.{Port as APort};
ghost use Rattle.reo_rules.specs.Types.{Typed};
ghost use Rattle.reo_rules.specs.Scopes.{parameter_names};
ghost use Rattle.reo_flat.specs.Flat.{way_of, port_of, port_kind, port_placed};
ghost use Rattle.reo_unfold.specs.Known.{AreTypes};

use reo_kinds::{Kind, TakerPort, WriterPort};
use reo_net_base::{Port, Way};
use reo_trees::Parameter;
use reo_unfold::{NamedTypes, kindred_of};
use reo_values::{Bytes, List, NoMemory, copy_kindred};
use std::alloc::Global;

/// Which way items go at a parameter.
fn way_of(inward: bool) -> Way
    ensures { result ≡ way_of inward }
{
    if inward { Way::In } else { Way::Out }
}

/// The port of a parameter.
fn port_of(alloc: Global, types: &NamedTypes, parameter: &Parameter) -> Result<Port, NoMemory>
    ensures { (ts : List Typed) → AreTypes ts types.now → IfOk result (λ port. port
        ≡ port_of ts parameter.now) }
{
    let known = types.kindreds.len();
    let name = parameter.name.copy(alloc)?;
    let kindred = kindred_of(alloc, types, known, &parameter.term.shape)?;
    Ok(Port {
        name,
        way: way_of(parameter.inward),
        kindred,
    })
}

/// The ports of parameters. `NoMemory`: out of memory.
pub fn ports_of(
    alloc: Global,
    types: &NamedTypes,
    parameters: &[Parameter],
) -> Result<List<Port>, NoMemory>
    ensures { (ts : List Typed) → AreTypes ts types.now → IfOk result (λ ports. ports ≡ map
        (port_of ts) parameters.now) }
{
    let mut made = List::new(alloc);
    for parameter in parameters {
        made.push(port_of(alloc, types, parameter)?)?;
    }
    Ok(made)
}

/// The names of parameters. `NoMemory`: out of memory.
pub fn names_of(alloc: Global, parameters: &[Parameter]) -> Result<List<Bytes>, NoMemory>
    ensures { IfOk result (λ names. names ≡ parameter_names parameters.now) }
{
    let mut made = List::new(alloc);
    for parameter in parameters {
        made.push(parameter.name.copy(alloc)?)?;
    }
    Ok(made)
}

/// The primitive of a port: a writer or a taker.
fn port_kind(alloc: Global, port: &Port) -> Result<Kind, NoMemory>
    ensures { IfOk result (λ kind. kind ≡ port_kind port.now.way port.now.kindred) }
{
    match port.way {
        Way::In => {
            let kindred = copy_kindred(&port.kindred)?;
            Ok(Kind::Writer(WriterPort::new(kindred)))
        }
        Way::Out => Ok(Kind::Taker(TakerPort::new())),
    }
}

/// The primitives of ports. `NoMemory`: out of memory.
pub fn port_kinds(alloc: Global, ports: &[Port]) -> Result<List<Kind>, NoMemory>
    ensures { IfOk result (λ kinds. kinds ≡ map (λ (p : APort). (port_placed p).kind) ports.now) }
{
    let mut made = List::new(alloc);
    for port in ports {
        made.push(port_kind(alloc, port)?)?;
    }
    Ok(made)
}

/// The node of a port alone.
fn alone(alloc: Global, name: &Bytes) -> Result<List<Bytes>, NoMemory>
    ensures { IfOk result (λ made. made ≡ name.now ∷ []) }
{
    let mut made = List::new(alloc);
    made.push(name.copy(alloc)?)?;
    Ok(made)
}

/// The nodes of ports. `NoMemory`: out of memory.
pub fn port_ends(alloc: Global, ports: &[Port]) -> Result<List<List<Bytes>>, NoMemory>
    ensures { IfOk result (λ ends. ends ≡ map (λ (p : APort). (port_placed p).nodes) ports.now) }
{
    let mut made = List::new(alloc);
    for port in ports {
        made.push(alone(alloc, &port.name)?)?;
    }
    Ok(made)
}
