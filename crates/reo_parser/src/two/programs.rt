//! Reading declarations and whole programs.
ghost use Rattle.std.specs.Prelude.{◌≡◌, ℕ, Option, List, codes};
ghost use Rattle.reo_grammar.specs.Grammar.{read, reads};
ghost use Rattle.reo_cursor.specs.Reading.{Gives};
ghost use Rattle.reo_trees.specs.Forms.{word, ◌▸◌, ◌◂◌};
ghost use Rattle.reo_trees.specs.ItemsTwo.{items_two};
ghost use Rattle.reo_trees.specs.ProgramsTwo.{numbered_form, connector_two, named_two, declaration_two, declarations_two, version_two, program_two};
ghost use Rattle.reo_trees.specs.Rules.{circuit_rules};
ghost use Rattle.reo_terms.specs.Reading.{read_plain};

use crate::items_two::items;
use crate::{is_declaration, parameters};
use reo_cursor::{Cursor, Halt};
use reo_terms::{name_before, type_before};
use reo_trees::{ConnectorTwo, DeclarationTwo, ItemTwo, ProgramTwo};
use reo_values::{Bytes, List};
use std::alloc::Global;

/// The name of a connector's number, if it has one.
fn numbered(cursor: &mut Cursor, alloc: Global) -> Result<Option<Bytes>, Halt>
    ensures { Gives result cursor.new (read_plain numbered_form cursor.old) }
{
    if cursor.is(b"<") {
        cursor.expect(b"<")?;
        let name = name_before(cursor, alloc, b">")?;
        Ok(Some(name))
    } else {
        Ok(None)
    }
}

/// The items of a connector, with the braces round them.
fn body(cursor: &mut Cursor, alloc: Global, room: usize) -> Result<List<ItemTwo>, Halt>
    ensures { Gives result cursor.new (read (reads circuit_rules room)
        (word (codes "{") ▸ items_two ◂ word (codes "}")) cursor.old) }
{
    cursor.expect(b"{")?;
    let items = items(cursor, alloc, room)?;
    cursor.expect(b"}")?;
    Ok(items)
}

fn connector(cursor: &mut Cursor, alloc: Global, room: usize) -> Result<ConnectorTwo, Halt>
    ensures { Gives result cursor.new (read (reads circuit_rules room) connector_two cursor.old) }
{
    let line = cursor.line();
    cursor.expect(b"connector")?;
    let name = cursor.name(alloc)?;
    let number = numbered(cursor, alloc)?;
    cursor.expect(b"(")?;
    let parameters = parameters(cursor, alloc, room)?;
    cursor.expect(b")")?;
    let items = body(cursor, alloc, room)?;
    Ok(ConnectorTwo {
        line,
        name,
        number,
        parameters,
        items,
    })
}

fn named(cursor: &mut Cursor, alloc: Global, room: usize) -> Result<DeclarationTwo, Halt>
    ensures { Gives result cursor.new (read (reads circuit_rules room) named_two cursor.old) }
{
    let line = cursor.line();
    cursor.expect(b"type")?;
    let name = name_before(cursor, alloc, b"=")?;
    let term = type_before(cursor, alloc, room, b";")?;
    Ok(DeclarationTwo::Named { line, name, term })
}

fn declaration(cursor: &mut Cursor, alloc: Global, room: usize) -> Result<DeclarationTwo, Halt>
    ensures { Gives result cursor.new (read (reads circuit_rules room) declaration_two cursor.old) }
{
    if cursor.is(b"type") {
        named(cursor, alloc, room)
    } else {
        let made = connector(cursor, alloc, room)?;
        Ok(DeclarationTwo::Made(made))
    }
}

fn declarations(
    cursor: &mut Cursor,
    alloc: Global,
    room: usize,
) -> Result<List<DeclarationTwo>, Halt>
    ensures { let reading = reads circuit_rules room in
        Gives result cursor.new (read reading declarations_two cursor.old) }
{
    let mut declarations = List::new(alloc);
    'declarations: while is_declaration(cursor) {
        let next = declaration(cursor, alloc, room)?;
        declarations.push(next)?;
    }
    Ok(declarations)
}

/// The first two tokens.
fn version(cursor: &mut Cursor) -> Result<(), Halt>
    ensures { Gives result cursor.new (read_plain version_two cursor.old) }
{
    cursor.expect_named(b"reo")?;
    cursor.number(2, 2)?;
    Ok(())
}

/// A program of version 2, with rules nested at most `room` deep.
pub(crate) fn program(cursor: &mut Cursor, alloc: Global, room: usize) -> Result<ProgramTwo, Halt>
    ensures { Gives result cursor.new (read (reads circuit_rules room) program_two cursor.old) }
{
    version(cursor)?;
    let declarations = declarations(cursor, alloc, room)?;
    Ok(ProgramTwo { declarations })
}
