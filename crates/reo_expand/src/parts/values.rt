//! The values of indexes.
ghost use Rattle.std.specs.Prelude.{◌≡◌, IfOk, []};
ghost use Rattle.reo_expand.specs.base.Indexed.{bound_to as value_bound, signed, unit_value as value_unit, unbound_unit};
ghost use Rattle.reo_expand.specs.base.Judged.{IsNear, IsJudged, IsUnitJudged};

use crate::base::{Bound, ExpandFault};
use crate::parts::Room;
use reo_trees::{Index, IndexUnit, SignedUnit};
use reo_values::NoMemory;
use std::alloc::Global;

/// The most that values lie from 0: 2^61. No index of a text comes so far.
const FARTHEST: i64 = 2_305_843_009_213_693_952;

/// The value of a name, if it has one.
fn bound_to(bound: &[Bound], name: &[u8]) -> Option<i64>
    ensures { result ≡ value_bound bound.now name.now }
{
    let mut found = None;
    for b in bound {
        if name == b.name.as_slice() {
            found = Some(b.value);
        }
    }
    found
}

/// The value, which lies within 2^61; `NoMemory` where it lies farther from 0.
fn near(value: i64) -> Result<i64, NoMemory>
    ensures same { IfOk result (λ z. z ≡ value) }
    ensures near { IfOk result IsNear }
{
    if value < -FARTHEST || FARTHEST < value {
        return Err(NoMemory);
    }
    Ok(value)
}

/// The value of a unit, with its sign. `Unbound` exactly where its name has none; `NoMemory`
/// means out of memory.
fn unit_value(
    alloc: Global,
    room: &mut Room,
    bound: &[Bound],
    line: u32,
    signed: &SignedUnit,
) -> Result<i64, ExpandFault>
    ensures { IsUnitJudged bound.now line signed.now result }
{
    let value = match &signed.unit {
        IndexUnit::Number(number) => {
            room.take_unit(0)?;
            *number as i64
        }
        IndexUnit::Name(name) => {
            room.take_unit(name.len())?;
            match bound_to(bound, name.as_slice()) {
                Some(value) => near(value)?,
                None => {
                    let name = name.copy(alloc)?;
                    return Err(ExpandFault::Unbound { line, name });
                }
            }
        }
    };
    if signed.minus { Ok(-value) } else { Ok(value) }
}

/// The sum of units with their signs.
fn sum_of(
    alloc: Global,
    room: &mut Room,
    bound: &[Bound],
    line: u32,
    units: &[SignedUnit],
) -> Result<i64, ExpandFault>
    ensures { IsJudged bound.now line (record { units = units.now }) result }
{
    let mut total = 0;
    for unit in units {
        let value = unit_value(alloc, room, bound, line, unit)?;
        total = near(total + value)?;
    }
    Ok(total)
}

/// The value of an index, which lies within 2^61. `Unbound` with the first name that has none;
/// `NoMemory` means out of memory, or that the value, or a sum on the way to it, lies farther
/// from 0.
pub fn index_value(
    alloc: Global,
    room: &mut Room,
    bound: &[Bound],
    line: u32,
    index: &Index,
) -> Result<i64, ExpandFault>
    ensures { IsJudged bound.now line index.now result }
{
    sum_of(alloc, room, bound, line, index.units.as_slice())
}
