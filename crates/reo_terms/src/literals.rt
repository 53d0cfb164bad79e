//! Reading literals.
ghost use Rattle.std.specs.Prelude.{◌≡◌, ℕ, ◌<◌, ◌≤◌, ◌-◌};
ghost use Rattle.reo_grammar.specs.Grammar.{read, reads};
ghost use Rattle.reo_grammar.specs.Grammar.Grammar.{rule};
ghost use Rattle.reo_cursor.specs.Reading.{Gives};
ghost use Rattle.reo_trees.specs.Forms.{word, ◌◂◌};
ghost use Rattle.reo_trees.specs.Forms.Rule.{literal_rule};
ghost use Rattle.reo_trees.specs.Literals.{minus_form, literal_pair_form, constant_form};
ghost use Rattle.reo_trees.specs.Rules.{circuit_rules};
ghost use Rattle.reo_terms.specs.Reading.{read_plain};

use reo_cursor::{Cursor, Halt};
use reo_trees::{Constant, Literal, LiteralPair};
use reo_values::Boxed;
use std::alloc::Global;

/// The greatest number of 18 digits: no number has more.
pub const GREATEST: u64 = 999_999_999_999_999_999;

fn minus(cursor: &mut Cursor) -> Result<Constant, Halt>
    ensures { Gives result cursor.new (read_plain minus_form cursor.old) }
{
    cursor.expect(b"-")?;
    let number = cursor.number(0, GREATEST)?;
    Ok(Constant::Int(-(number as i64)))
}

/// A literal, and the sign behind it.
#[cycle(literal)]
fn literal_before(
    cursor: &mut Cursor,
    alloc: Global,
    room: usize,
    mark: &[u8],
) -> Result<Literal, Halt>
    ensures { Gives result cursor.new
        (read (reads circuit_rules room) (rule literal_rule ◂ word mark.now) cursor.old) }
{
    let read = literal(cursor, alloc, room)?;
    cursor.expect(mark)?;
    Ok(read)
}

#[cycle(literal)]
fn pair(cursor: &mut Cursor, alloc: Global, room: usize) -> Result<Constant, Halt>
    ensures { Gives result cursor.new
        (read (reads circuit_rules room) literal_pair_form cursor.old) }
{
    cursor.expect(b"(")?;
    let left = literal_before(cursor, alloc, room, b",")?;
    let right = literal_before(cursor, alloc, room, b")")?;
    let pair = Boxed::new(alloc, LiteralPair { left, right })?;
    Ok(Constant::Pair(pair))
}

#[cycle(literal)]
fn constant(cursor: &mut Cursor, alloc: Global, room: usize) -> Result<Constant, Halt>
    ensures { Gives result cursor.new (read (reads circuit_rules room) constant_form cursor.old) }
{
    if cursor.is(b"unit") {
        cursor.expect(b"unit")?;
        Ok(Constant::Unit)
    } else if cursor.is(b"true") {
        cursor.expect(b"true")?;
        Ok(Constant::Bool(true))
    } else if cursor.is(b"false") {
        cursor.expect(b"false")?;
        Ok(Constant::Bool(false))
    } else if cursor.is(b"-") {
        minus(cursor)
    } else if cursor.is_number(0, GREATEST) {
        let number = cursor.number(0, GREATEST)?;
        Ok(Constant::Int(number as i64))
    } else if cursor.is_text() {
        let text = cursor.text(alloc)?;
        Ok(Constant::Text(text))
    } else if cursor.is(b"(") {
        pair(cursor, alloc, room)
    } else {
        let name = cursor.name(alloc)?;
        Ok(Constant::Name(name))
    }
}

/// A literal, with rules nested at most `room` deep.
#[cycle(literal)]
pub fn literal(cursor: &mut Cursor, alloc: Global, room: usize) -> Result<Literal, Halt>
    ensures { Gives result cursor.new (reads circuit_rules room literal_rule cursor.old) }
{
    if room == 0 {
        return Err(Halt::Room);
    }
    let line = cursor.line();
    let constant = constant(cursor, alloc, room - 1)?;
    Ok(Literal { line, constant })
}
