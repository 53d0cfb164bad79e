//! Copies of ports.
ghost use Rattle.std.specs.Prelude.{◌≡◌, IfOk};

use reo_net_base::{Port, Ports};
use reo_values::{List, NoMemory, copy_kindred};
use std::alloc::Global;

/// An equal port. `NoMemory` is out of memory.
fn copy_port(alloc: Global, port: &Port) -> Result<Port, NoMemory>
    ensures { IfOk result (λ made. made ≡ port.now) }
{
    let name = port.name.copy(alloc)?;
    let kindred = copy_kindred(&port.kindred)?;
    Ok(Port {
        name,
        way: port.way,
        kindred,
    })
}

/// Equal ports. `NoMemory` is out of memory.
pub(crate) fn copy_ports(alloc: Global, ports: &Ports) -> Result<Ports, NoMemory>
    ensures { IfOk result (λ made. made ≡ ports.now) }
{
    let mut list = List::new(alloc);
    for port in ports.list.as_slice() {
        list.push(copy_port(alloc, port)?)?;
    }
    Ok(Ports { list })
}
