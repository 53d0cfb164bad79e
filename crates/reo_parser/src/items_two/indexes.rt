//! Reading indexes, and names of nodes with a place.
ghost use Rattle.std.specs.Prelude.{◌≡◌, ◌++◌, ◌≤◌, ℕ, Option, List};
ghost use Rattle.reo_grammar.specs.Grammar.{read, reads, starts, then};
ghost use Rattle.reo_grammar.specs.Grammar.Outcome.{got};
ghost use Rattle.reo_cursor.specs.Reading.{Gives};
ghost use Rattle.reo_trees.specs.Forms.{word, ◌◂◌};
ghost use Rattle.reo_trees.specs.Operators.{sums};
ghost use Rattle.reo_trees.specs.Indexes.{unit_form, sign_form, further_unit, further_units as further_form, index_form, place_form, placed_form, ref_form};
ghost use Rattle.reo_terms.specs.Reading.{read_plain};

use reo_cursor::{Cursor, Halt};
use reo_trees::{Index, IndexUnit, Ref, SignedUnit};
use reo_values::List;
use std::alloc::Global;

/// The greatest number in an index.
const MOST_PLACE: u64 = 1_000_000_000;

/// How many units stand behind the first one at most.
const MOST_FURTHER: u8 = 7;

fn unit(cursor: &mut Cursor, alloc: Global) -> Result<IndexUnit, Halt>
    ensures { Gives result cursor.new (read_plain unit_form cursor.old) }
{
    if cursor.is_number(0, MOST_PLACE) {
        let number = cursor.number(0, MOST_PLACE)?;
        Ok(IndexUnit::Number(number as u32))
    } else {
        let name = cursor.name(alloc)?;
        Ok(IndexUnit::Name(name))
    }
}

/// Whether a `+` or a `-` is next.
#[tactic(auto, using(reo_terms::proofs::Among::among_more))]
fn is_sign(cursor: &Cursor) -> bool
    ensures { result ≡ starts sums cursor.now }
{
    cursor.is(b"+") || cursor.is(b"-")
}

/// Whether `-` is taken, and no `+`.
fn minus(cursor: &mut Cursor) -> Result<bool, Halt>
    ensures { Gives result cursor.new (read_plain sign_form cursor.old) }
{
    if cursor.is(b"+") {
        cursor.expect(b"+")?;
        Ok(false)
    } else {
        cursor.expect(b"-")?;
        Ok(true)
    }
}

fn further(cursor: &mut Cursor, alloc: Global) -> Result<SignedUnit, Halt>
    ensures { Gives result cursor.new (read_plain further_unit cursor.old) }
{
    let minus = minus(cursor)?;
    let unit = unit(cursor, alloc)?;
    Ok(SignedUnit { minus, unit })
}

/// At most so many further units, behind these.
fn further_units(
    cursor: &mut Cursor,
    alloc: Global,
    mut units: List<SignedUnit>,
    most: u8,
) -> Result<List<SignedUnit>, Halt>
    ensures { Gives result cursor.new
        (then (read_plain (further_form most) cursor.old) (λ us r. got (units ++ us) r)) }
{
    if most == 0 || !is_sign(cursor) {
        return Ok(units);
    }
    let next = further(cursor, alloc)?;
    units.push(next)?;
    further_units(cursor, alloc, units, most - 1)
}

/// An index.
pub(crate) fn index(cursor: &mut Cursor, alloc: Global) -> Result<Index, Halt>
    ensures { Gives result cursor.new (read_plain index_form cursor.old) }
{
    let unit = unit(cursor, alloc)?;
    let mut units = List::new(alloc);
    units.push(SignedUnit { minus: false, unit })?;
    let units = further_units(cursor, alloc, units, MOST_FURTHER)?;
    Ok(Index { units })
}

/// An index, and the word or sign behind it.
pub(crate) fn index_before(cursor: &mut Cursor, alloc: Global, mark: &[u8]) -> Result<Index, Halt>
    ensures { Gives result cursor.new (read_plain (index_form ◂ word mark.now) cursor.old) }
{
    let index = index(cursor, alloc)?;
    cursor.expect(mark)?;
    Ok(index)
}

fn place(cursor: &mut Cursor, alloc: Global) -> Result<Index, Halt>
    ensures { Gives result cursor.new (read_plain place_form cursor.old) }
{
    if cursor.is(b"(") {
        cursor.expect(b"(")?;
        index_before(cursor, alloc, b")")
    } else {
        let unit = unit(cursor, alloc)?;
        let mut units = List::new(alloc);
        units.push(SignedUnit { minus: false, unit })?;
        Ok(Index { units })
    }
}

fn placed(cursor: &mut Cursor, alloc: Global) -> Result<Option<Index>, Halt>
    ensures { Gives result cursor.new (read_plain placed_form cursor.old) }
{
    if cursor.is(b".") {
        cursor.expect(b".")?;
        let place = place(cursor, alloc)?;
        Ok(Some(place))
    } else {
        Ok(None)
    }
}

/// The name of a node, with its place if it has one.
pub(crate) fn node(cursor: &mut Cursor, alloc: Global) -> Result<Ref, Halt>
    ensures { Gives result cursor.new (read_plain ref_form cursor.old) }
{
    let name = cursor.name(alloc)?;
    let place = placed(cursor, alloc)?;
    Ok(Ref { name, place })
}

/// A node, and the word or sign behind it.
pub(crate) fn node_before(cursor: &mut Cursor, alloc: Global, mark: &[u8]) -> Result<Ref, Halt>
    ensures { Gives result cursor.new (read_plain (ref_form ◂ word mark.now) cursor.old) }
{
    let node = node(cursor, alloc)?;
    cursor.expect(mark)?;
    Ok(node)
}
