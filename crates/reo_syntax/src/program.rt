//! The canonical text of a program.
ghost use Rattle.std.specs.Prelude.{◌≡◌, ◌++◌, OnOk, IfOk};
ghost use Rattle.std.specs.List.{flat_map};
ghost use Rattle.reo_syntax.specs.Spread.{spread};
ghost use Rattle.reo_syntax.specs.Canonical.{way_text, parameter_text, item_line, connector_text, declaration_text, canonical_text};

use crate::item::append_item;
use crate::spread::append_comma;
use crate::type_term::append_type;
use reo_trees::{Connector, Declaration, Item, Parameter, Program};
use reo_values::{Bytes, NoMemory};
use std::alloc::Global;

fn append_way(out: &mut Bytes, inward: bool) -> Result<(), NoMemory>
    ensures { OnOk result (out.new ≡ out.old ++ way_text inward) }
{
    if inward {
        out.append(b"in ")
    } else {
        out.append(b"out ")
    }
}

fn append_parameter(alloc: Global, out: &mut Bytes, parameter: &Parameter) -> Result<(), NoMemory>
    ensures { OnOk result (out.new ≡ out.old ++ parameter_text parameter.now) }
{
    append_way(out, parameter.inward)?;
    out.append(parameter.name.as_slice())?;
    out.append(b": ")?;
    append_type(alloc, out, &parameter.term)
}

/// Adds parameters with `, ` between them. `NoMemory` means out of memory.
pub fn append_parameters(
    alloc: Global,
    out: &mut Bytes,
    parameters: &[Parameter],
) -> Result<(), NoMemory>
    ensures { OnOk result (out.new ≡ out.old ++ spread parameter_text parameters.now) }
{
    for (place, parameter) in parameters.iter().enumerate() {
        append_comma(out, place)?;
        append_parameter(alloc, out, parameter)?;
    }
    Ok(())
}

fn append_line(alloc: Global, out: &mut Bytes, item: &Item) -> Result<(), NoMemory>
    ensures { OnOk result (out.new ≡ out.old ++ item_line item.now) }
{
    out.append(b"  ")?;
    append_item(alloc, out, item)?;
    out.append(b"\n")
}

fn append_lines(alloc: Global, out: &mut Bytes, items: &[Item]) -> Result<(), NoMemory>
    ensures { OnOk result (out.new ≡ out.old ++ flat_map item_line items.now) }
{
    for item in items {
        append_line(alloc, out, item)?;
    }
    Ok(())
}

fn append_connector(alloc: Global, out: &mut Bytes, connector: &Connector) -> Result<(), NoMemory>
    ensures { OnOk result (out.new ≡ out.old ++ connector_text connector.now) }
{
    out.append(b"connector ")?;
    out.append(connector.name.as_slice())?;
    out.append(b"(")?;
    append_parameters(alloc, out, connector.parameters.as_slice())?;
    out.append(b") ")?;
    out.append(b"{\n")?;
    append_lines(alloc, out, connector.items.as_slice())?;
    out.append(b"}\n")
}

fn append_declaration(
    alloc: Global,
    out: &mut Bytes,
    declaration: &Declaration,
) -> Result<(), NoMemory>
    ensures { OnOk result (out.new ≡ out.old ++ declaration_text declaration.now) }
{
    match declaration {
        Declaration::Named { name, term, .. } => {
            out.append(b"type ")?;
            out.append(name.as_slice())?;
            out.append(b" = ")?;
            append_type(alloc, out, term)?;
            out.append(b";\n")
        }
        Declaration::Made(connector) => append_connector(alloc, out, connector),
    }
}

/// The canonical text of a program: a line for each type declaration, and for each connector a
/// line with its parameters, a line for each item, and a line with its `}`. Groupings stand
/// exactly where the grammar needs them. `NoMemory` means out of memory.
pub fn print(alloc: Global, program: &Program) -> Result<Bytes, NoMemory>
    ensures { IfOk result (λ text. text ≡ canonical_text program.now) }
{
    let mut out = Bytes::new(alloc);
    for declaration in program.declarations.as_slice() {
        append_declaration(alloc, &mut out, declaration)?;
    }
    Ok(out)
}
