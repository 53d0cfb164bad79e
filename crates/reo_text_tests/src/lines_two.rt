//! The lines and the parts of trees of version 2.
use crate::checks::is;
use crate::texts::any_of;
use reo_trees::{
    AnyProgram, ConnectorTwo, DeclarationTwo, FormTwo, Index, IndexUnit, ItemTwo, ProgramTwo, Ref,
};

const PLACED: &str =
    "reo 2\nconnector\nc<n>() {\nfor\ni = 0 to n - 7 {\nsync x.i\nx.(i + 1); }\nuse e<3>(); }";

/// The connector that is the last declaration.
fn connector_of(program: &AnyProgram) -> Option<&ConnectorTwo> {
    match program {
        AnyProgram::Two(program) => made_of(program),
        AnyProgram::One(_) => None,
    }
}

fn made_of(program: &ProgramTwo) -> Option<&ConnectorTwo> {
    match program.declarations.as_slice().last()? {
        DeclarationTwo::Made(connector) => Some(connector),
        DeclarationTwo::Named { .. } => None,
    }
}

/// A loop's last index, and its first item.
fn loop_parts(item: &ItemTwo) -> Option<(&Index, &ItemTwo)> {
    match &item.form {
        FormTwo::Loop { high, items, .. } => Some((high, items.get(0)?)),
        _ => None,
    }
}

/// The second node of a channel.
fn second_of(item: &ItemTwo) -> Option<&Ref> {
    match &item.form {
        FormTwo::Joined { second, .. } => Some(second),
        _ => None,
    }
}

/// The number of a unit, and whether it has a minus.
fn number_at(index: &Index, place: usize) -> Option<(bool, u32)> {
    let unit = index.units.get(place)?;
    match &unit.unit {
        IndexUnit::Number(number) => Some((unit.minus, *number)),
        IndexUnit::Name(_) => None,
    }
}

/// The number of a use.
fn use_number(item: &ItemTwo) -> Option<&Index> {
    match &item.form {
        FormTwo::Used { number, .. } => number.as_ref(),
        _ => None,
    }
}

fn is_placed(program: &AnyProgram) -> Option<bool> {
    let connector = connector_of(program)?;
    let first = connector.items.get(0)?;
    let last = connector.items.get(1)?;
    let (high, inner) = loop_parts(first)?;
    let place = second_of(inner)?.place.as_ref()?;
    Some(
        (connector.line, first.line, inner.line, last.line) == (2, 4, 6, 8)
            && number_at(high, 1)? == (true, 7)
            && number_at(place, 1)? == (false, 1)
            && number_at(use_number(last)?, 0)? == (false, 3),
    )
}

#[test]
fn parts_begin_on_their_lines(rt: HostRuntime) {
    let placed = match any_of(rt.alloc(), PLACED) {
        Ok(program) => is_placed(&program) == Some(true),
        Err(_) => false,
    };
    is(&rt, placed, PLACED);
}
