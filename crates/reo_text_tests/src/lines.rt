//! The lines of trees.
use crate::checks::is;
use reo_parser::{ParseFault, parse};
use reo_trees::{Binary, Channel, Connector, Declaration, Item, ItemForm, Program, Term, TermForm};
use std::alloc::Global;

/// The program of a short text.
pub fn program_of(alloc: Global, text: &str) -> Result<Program, ParseFault> {
    if text.len() < 65536 {
        parse(alloc, text.as_bytes())
    } else {
        Err(ParseFault::NoMemory)
    }
}

/// The connector that is the last declaration.
fn connector_of(program: &Program) -> Option<&Connector> {
    match program.declarations.as_slice().last()? {
        Declaration::Made(connector) => Some(connector),
        Declaration::Named { .. } => None,
    }
}

fn first_item(program: &Program) -> Option<&Item> {
    connector_of(program)?.items.get(0)
}

/// The expression of the first item, where that is a map.
fn term_of(program: &Program) -> Option<&Term> {
    match &first_item(program)?.form {
        ItemForm::Joined {
            channel: Channel::Map(term),
            ..
        } => Some(term),
        _ => None,
    }
}

/// The sides of a difference.
fn sides(term: &Term) -> Option<(&Term, &Term)> {
    match &term.form {
        TermForm::Two(Binary::Sub, pair) => {
            let pair = pair.get();
            Some((&pair.left, &pair.right))
        }
        _ => None,
    }
}

/// The lines of a difference and of its sides.
fn lines_of(term: &Term) -> Option<(u32, u32, u32)> {
    let (left, right) = sides(term)?;
    Some((term.line, left.line, right.line))
}

/// Those of the whole and then of the difference that it has on a side.
fn lines_of_both(
    program: &Program,
    on_the_left: bool,
) -> Option<((u32, u32, u32), (u32, u32, u32))> {
    let whole = term_of(program)?;
    let (left, right) = sides(whole)?;
    let inner = if on_the_left { left } else { right };
    Some((lines_of(whole)?, lines_of(inner)?))
}

/// A text, whether the inner difference is the left one, and the lines of both. The expression with
/// a grouping begins at the parenthesis, and the grouped one inside.
const GROUPED: &[(&str, bool, ((u32, u32, u32), (u32, u32, u32)))] = &[
    (
        "connector m() { map a b to\n1 - (\n2 - 3); }",
        false,
        ((2, 2, 3), (3, 3, 3)),
    ),
    (
        "connector m() { map a b to\n(\n1 - 2) - 3; }",
        true,
        ((2, 3, 3), (3, 3, 3)),
    ),
    (
        "connector m() { map a b to 1 - 2\n- 3; }",
        true,
        ((1, 1, 2), (1, 1, 1)),
    ),
];

fn has_lines(
    alloc: Global,
    text: &str,
    on_the_left: bool,
    wanted: ((u32, u32, u32), (u32, u32, u32)),
) -> bool {
    match program_of(alloc, text) {
        Ok(program) => lines_of_both(&program, on_the_left) == Some(wanted),
        Err(_) => false,
    }
}

#[test]
fn expressions_begin_on_their_lines(rt: HostRuntime) {
    let alloc = rt.alloc();
    for (text, on_the_left, wanted) in GROUPED {
        is(&rt, has_lines(alloc, text, *on_the_left, *wanted), text);
    }
}

const PLACED: &str =
    "type t =\nunit;\nconnector m(in\na: t,\nout b\n: unit) {\nfifo1 a b\nwith\n-7; }";

/// The lines of a parameter and of its type.
fn parameter_lines(connector: &Connector, place: usize) -> Option<(u32, u32)> {
    let parameter = connector.parameters.get(place)?;
    Some((parameter.line, parameter.term.line))
}

/// The line of the item that a buffer holds at first.
fn held_line(item: &Item) -> Option<u32> {
    match &item.form {
        ItemForm::Joined {
            channel: Channel::Fifo1(held),
            ..
        } => Some(held.as_ref()?.line),
        _ => None,
    }
}

fn declared_lines(program: &Program) -> Option<(u32, u32)> {
    match program.declarations.get(0)? {
        Declaration::Named { line, term, .. } => Some((*line, term.line)),
        Declaration::Made(_) => None,
    }
}

fn is_placed(program: &Program) -> Option<bool> {
    let connector = connector_of(program)?;
    let item = connector.items.get(0)?;
    Some(
        declared_lines(program)? == (1, 2)
            && connector.line == 3
            && parameter_lines(connector, 0)? == (3, 4)
            && parameter_lines(connector, 1)? == (5, 6)
            && item.line == 7
            && held_line(item)? == 9,
    )
}

#[test]
fn parts_begin_on_their_lines(rt: HostRuntime) {
    let placed = match program_of(rt.alloc(), PLACED) {
        Ok(program) => is_placed(&program) == Some(true),
        Err(_) => false,
    };
    is(&rt, placed, PLACED);
}
