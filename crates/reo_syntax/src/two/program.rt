//! The canonical text of a program of version 2.
ghost use Rattle.std.specs.Prelude.{◌≡◌, ◌++◌, OnOk, IfOk};
ghost use Rattle.reo_syntax.specs.two.Canonical.{numbered_text, header_text, connector_text, declaration_text, canonical_text_two};

use crate::two::items::append_items;
use crate::{append_parameters, append_type};
use reo_trees::{ConnectorTwo, DeclarationTwo, ProgramTwo};
use reo_values::{Bytes, NoMemory};
use std::alloc::Global;

fn append_numbered(out: &mut Bytes, number: &Option<Bytes>) -> Result<(), NoMemory>
    ensures { OnOk result (out.new ≡ out.old ++ numbered_text number.now) }
{
    match number {
        None => Ok(()),
        Some(name) => {
            out.append(b"<")?;
            out.append(name.as_slice())?;
            out.append(b">")
        }
    }
}

/// Adds a connector's first line up to its `{`.
fn append_header(alloc: Global, out: &mut Bytes, connector: &ConnectorTwo) -> Result<(), NoMemory>
    ensures { OnOk result (out.new ≡ out.old ++ header_text connector.now) }
{
    out.append(b"connector ")?;
    out.append(connector.name.as_slice())?;
    append_numbered(out, &connector.number)?;
    out.append(b"(")?;
    append_parameters(alloc, out, connector.parameters.as_slice())?;
    out.append(b") ")
}

fn append_connector(
    alloc: Global,
    out: &mut Bytes,
    connector: &ConnectorTwo,
) -> Result<(), NoMemory>
    ensures { OnOk result (out.new ≡ out.old ++ connector_text connector.now) }
{
    append_header(alloc, out, connector)?;
    out.append(b"{\n")?;
    append_items(alloc, out, b"  ", connector.items.as_slice())?;
    out.append(b"}\n")
}

fn append_declaration(
    alloc: Global,
    out: &mut Bytes,
    declaration: &DeclarationTwo,
) -> Result<(), NoMemory>
    ensures { OnOk result (out.new ≡ out.old ++ declaration_text declaration.now) }
{
    match declaration {
        DeclarationTwo::Named { name, term, .. } => {
            out.append(b"type ")?;
            out.append(name.as_slice())?;
            out.append(b" = ")?;
            append_type(alloc, out, term)?;
            out.append(b";\n")
        }
        DeclarationTwo::Made(connector) => append_connector(alloc, out, connector),
    }
}

/// The canonical text of a program of version 2: the line `reo 2`, a line for each type
/// declaration, and for each connector a line with its number and its parameters, the lines of its
/// items, and a line with its `}`. Groupings stand exactly where the grammar needs them.
/// `NoMemory` means out of memory.
pub fn print_two(alloc: Global, program: &ProgramTwo) -> Result<Bytes, NoMemory>
    ensures { IfOk result (λ text. text ≡ canonical_text_two program.now) }
{
    let mut out = Bytes::from_slice(alloc, b"reo 2\n")?;
    for declaration in program.declarations.as_slice() {
        append_declaration(alloc, &mut out, declaration)?;
    }
    Ok(out)
}
