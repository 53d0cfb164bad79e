//! Reading declarations and whole programs.
ghost use Rattle.std.specs.Prelude.{◌≡◌, ℕ, List, Bool, codes};
ghost use Rattle.reo_grammar.specs.Grammar.{read, reads, starts};
ghost use Rattle.reo_cursor.specs.Reading.{Gives};
ghost use Rattle.reo_trees.specs.Forms.{word, ◌▸◌, ◌◂◌};
ghost use Rattle.reo_trees.specs.Items.{items_form};
ghost use Rattle.reo_trees.specs.Programs.{ways, way_form, parameter_form, parameters_form, connector_form, named_form, declaration_form, declaration_words, declarations_form, program_form};
ghost use Rattle.reo_trees.specs.Rules.{circuit_rules};
ghost use Rattle.reo_terms.specs.Reading.{read_plain};

use crate::items::items;
use reo_cursor::{Cursor, Halt};
use reo_terms::{name_before, type_before, type_term};
use reo_trees::{Connector, Declaration, Item, Parameter, Program};
use reo_values::List;
use std::alloc::Global;

/// Whether `in` or `out` is next.
#[tactic(auto, using(reo_terms::proofs::Among::among_more))]
fn is_way(cursor: &Cursor) -> bool
    ensures { result ≡ starts ways cursor.now }
{
    cursor.is(b"in") || cursor.is(b"out")
}

/// Whether `in` is taken, and no `out`.
fn inward(cursor: &mut Cursor) -> Result<bool, Halt>
    ensures { Gives result cursor.new (read_plain way_form cursor.old) }
{
    if cursor.is(b"in") {
        cursor.expect(b"in")?;
        Ok(true)
    } else {
        cursor.expect(b"out")?;
        Ok(false)
    }
}

fn parameter(cursor: &mut Cursor, alloc: Global, room: usize) -> Result<Parameter, Halt>
    ensures { Gives result cursor.new (read (reads circuit_rules room) parameter_form cursor.old) }
{
    let line = cursor.line();
    let inward = inward(cursor)?;
    let name = name_before(cursor, alloc, b":")?;
    let term = type_term(cursor, alloc, room)?;
    Ok(Parameter {
        line,
        inward,
        name,
        term,
    })
}

/// The parameters of a connector, with rules nested at most `room` deep.
pub fn parameters(cursor: &mut Cursor, alloc: Global, room: usize) -> Result<List<Parameter>, Halt>
    ensures { Gives result cursor.new (read (reads circuit_rules room) parameters_form cursor.old) }
{
    let mut parameters = List::new(alloc);
    if is_way(cursor) {
        let first = parameter(cursor, alloc, room)?;
        parameters.push(first)?;
        'parameters: while cursor.is(b",") {
            cursor.expect(b",")?;
            let next = parameter(cursor, alloc, room)?;
            parameters.push(next)?;
        }
    }
    Ok(parameters)
}

/// The items of a connector, with the braces round them.
fn body(cursor: &mut Cursor, alloc: Global, room: usize) -> Result<List<Item>, Halt>
    ensures { Gives result cursor.new
        (read (reads circuit_rules room)
        (word (codes "{") ▸ items_form ◂ word (codes "}")) cursor.old) }
{
    cursor.expect(b"{")?;
    let items = items(cursor, alloc, room)?;
    cursor.expect(b"}")?;
    Ok(items)
}

fn connector(cursor: &mut Cursor, alloc: Global, room: usize) -> Result<Connector, Halt>
    ensures { Gives result cursor.new (read (reads circuit_rules room) connector_form cursor.old) }
{
    let line = cursor.line();
    cursor.expect(b"connector")?;
    let name = name_before(cursor, alloc, b"(")?;
    let parameters = parameters(cursor, alloc, room)?;
    cursor.expect(b")")?;
    let items = body(cursor, alloc, room)?;
    Ok(Connector {
        line,
        name,
        parameters,
        items,
    })
}

fn named(cursor: &mut Cursor, alloc: Global, room: usize) -> Result<Declaration, Halt>
    ensures { Gives result cursor.new (read (reads circuit_rules room) named_form cursor.old) }
{
    let line = cursor.line();
    cursor.expect(b"type")?;
    let name = name_before(cursor, alloc, b"=")?;
    let term = type_before(cursor, alloc, room, b";")?;
    Ok(Declaration::Named { line, name, term })
}

fn declaration(cursor: &mut Cursor, alloc: Global, room: usize) -> Result<Declaration, Halt>
    ensures { Gives result cursor.new
        (read (reads circuit_rules room) declaration_form cursor.old) }
{
    if cursor.is(b"type") {
        named(cursor, alloc, room)
    } else {
        let made = connector(cursor, alloc, room)?;
        Ok(Declaration::Made(made))
    }
}

/// Whether a declaration begins with the next token.
#[tactic(auto, using(reo_terms::proofs::Among::among_more))]
pub fn is_declaration(cursor: &Cursor) -> bool
    ensures { result ≡ starts declaration_words cursor.now }
{
    cursor.is(b"type") || cursor.is(b"connector")
}

fn declarations(cursor: &mut Cursor, alloc: Global, room: usize) -> Result<List<Declaration>, Halt>
    ensures { Gives result cursor.new
        (read (reads circuit_rules room) declarations_form cursor.old) }
{
    let mut declarations = List::new(alloc);
    'declarations: while is_declaration(cursor) {
        let next = declaration(cursor, alloc, room)?;
        declarations.push(next)?;
    }
    Ok(declarations)
}

/// A program, with rules nested at most `room` deep.
pub fn program(cursor: &mut Cursor, alloc: Global, room: usize) -> Result<Program, Halt>
    ensures { Gives result cursor.new (read (reads circuit_rules room) program_form cursor.old) }
{
    let declarations = declarations(cursor, alloc, room)?;
    Ok(Program { declarations })
}
