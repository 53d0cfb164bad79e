//! Reading types.
ghost use Rattle.std.specs.Prelude.{◌≡◌, ℕ, ◌<◌, ◌≤◌, ◌-◌, List};
ghost use Rattle.reo_grammar.specs.Grammar.{read, reads};
ghost use Rattle.reo_grammar.specs.Grammar.Grammar.{rule};
ghost use Rattle.reo_cursor.specs.Reading.{Gives};
ghost use Rattle.reo_trees.specs.Forms.{word, ◌◂◌};
ghost use Rattle.reo_trees.specs.Forms.Rule.{type_rule};
ghost use Rattle.reo_trees.specs.Types.{bound_form, int_form, names_form, sym_form, text_type_form, pair_form, shape_form};
ghost use Rattle.reo_trees.specs.Rules.{circuit_rules};
ghost use Rattle.reo_terms.specs.Reading.{read_plain};

use reo_cursor::{Cursor, Halt};
use reo_trees::{Shape, TypePair, TypeTerm};
use reo_values::{Boxed, Bytes, List, Shared, Symbols};
use std::alloc::Global;

/// The greatest bound of an int type.
const MOST_BOUND: u64 = 1_000_000_000;

/// The greatest length of a text type.
const MOST_LENGTH: u64 = 1024;

fn bound(cursor: &mut Cursor) -> Result<i64, Halt>
    ensures { Gives result cursor.new (read_plain bound_form cursor.old) }
{
    if cursor.is(b"-") {
        cursor.expect(b"-")?;
        let number = cursor.number(0, MOST_BOUND)?;
        Ok(-(number as i64))
    } else {
        let number = cursor.number(0, MOST_BOUND)?;
        Ok(number as i64)
    }
}

fn int_shape(cursor: &mut Cursor) -> Result<Shape, Halt>
    ensures { Gives result cursor.new (read_plain int_form cursor.old) }
{
    cursor.expect(b"int")?;
    let low = bound(cursor)?;
    cursor.expect(b"..")?;
    let high = bound(cursor)?;
    Ok(Shape::Int(low, high))
}

/// One name or more, with commas between them.
pub fn names(cursor: &mut Cursor, alloc: Global) -> Result<List<Bytes>, Halt>
    ensures { Gives result cursor.new (read_plain names_form cursor.old) }
{
    let mut names = List::new(alloc);
    let first = cursor.name(alloc)?;
    names.push(first)?;
    'names: while cursor.is(b",") {
        cursor.expect(b",")?;
        let next = cursor.name(alloc)?;
        names.push(next)?;
    }
    Ok(names)
}

fn sym_shape(cursor: &mut Cursor, alloc: Global) -> Result<Shape, Halt>
    ensures { Gives result cursor.new (read_plain sym_form cursor.old) }
{
    cursor.expect(b"sym")?;
    cursor.expect(b"{")?;
    let names = names(cursor, alloc)?;
    cursor.expect(b"}")?;
    let symbols = Symbols::new(alloc, names)?;
    Ok(Shape::Sym(Shared::new(alloc, symbols)?))
}

fn text_shape(cursor: &mut Cursor) -> Result<Shape, Halt>
    ensures { Gives result cursor.new (read_plain text_type_form cursor.old) }
{
    cursor.expect(b"text")?;
    let length = cursor.number(0, MOST_LENGTH)?;
    Ok(Shape::Text(length as u16))
}

/// A type, and the sign behind it.
#[cycle(type_term)]
pub fn type_before(
    cursor: &mut Cursor,
    alloc: Global,
    room: usize,
    mark: &[u8],
) -> Result<TypeTerm, Halt>
    ensures { Gives result cursor.new
        (read (reads circuit_rules room) (rule type_rule ◂ word mark.now) cursor.old) }
{
    let read = type_term(cursor, alloc, room)?;
    cursor.expect(mark)?;
    Ok(read)
}

#[cycle(type_term)]
fn pair_shape(cursor: &mut Cursor, alloc: Global, room: usize) -> Result<Shape, Halt>
    ensures { Gives result cursor.new (read (reads circuit_rules room) pair_form cursor.old) }
{
    cursor.expect(b"pair")?;
    cursor.expect(b"(")?;
    let left = type_before(cursor, alloc, room, b",")?;
    let right = type_before(cursor, alloc, room, b")")?;
    let pair = Boxed::new(alloc, TypePair { left, right })?;
    Ok(Shape::Pair(pair))
}

#[cycle(type_term)]
fn shape(cursor: &mut Cursor, alloc: Global, room: usize) -> Result<Shape, Halt>
    ensures { Gives result cursor.new (read (reads circuit_rules room) shape_form cursor.old) }
{
    if cursor.is(b"unit") {
        cursor.expect(b"unit")?;
        Ok(Shape::Unit)
    } else if cursor.is(b"bool") {
        cursor.expect(b"bool")?;
        Ok(Shape::Bool)
    } else if cursor.is(b"int") {
        int_shape(cursor)
    } else if cursor.is(b"sym") {
        sym_shape(cursor, alloc)
    } else if cursor.is(b"text") {
        text_shape(cursor)
    } else if cursor.is(b"pair") {
        pair_shape(cursor, alloc, room)
    } else {
        let name = cursor.name(alloc)?;
        Ok(Shape::Named(name))
    }
}

/// A type, with rules nested at most `room` deep.
#[cycle(type_term)]
pub fn type_term(cursor: &mut Cursor, alloc: Global, room: usize) -> Result<TypeTerm, Halt>
    ensures { Gives result cursor.new (reads circuit_rules room type_rule cursor.old) }
{
    if room == 0 {
        return Err(Halt::Room);
    }
    let line = cursor.line();
    let shape = shape(cursor, alloc, room - 1)?;
    Ok(TypeTerm { line, shape })
}
