//! Reading names with what stands behind them.
ghost use Rattle.std.specs.Prelude.{◌≡◌, List};
ghost use Rattle.reo_cursor.specs.Reading.{Gives};
ghost use Rattle.reo_trees.specs.Forms.{word, name_form, ◌◂◌};
ghost use Rattle.reo_terms.specs.Reading.{read_plain, two_names};

use reo_cursor::{Cursor, Halt};
use reo_values::Bytes;
use std::alloc::Global;

/// A name, and the sign behind it.
pub fn name_before(cursor: &mut Cursor, alloc: Global, mark: &[u8]) -> Result<Bytes, Halt>
    ensures { Gives result cursor.new (read_plain (name_form ◂ word mark.now) cursor.old) }
{
    let name = cursor.name(alloc)?;
    cursor.expect(mark)?;
    Ok(name)
}

/// Two names, and the word or sign behind them.
pub fn names_before(cursor: &mut Cursor, alloc: Global, mark: &[u8]) -> Result<(Bytes, Bytes), Halt>
    ensures { Gives result cursor.new (read_plain (two_names mark.now) cursor.old) }
{
    let first = cursor.name(alloc)?;
    let second = name_before(cursor, alloc, mark)?;
    Ok((first, second))
}
