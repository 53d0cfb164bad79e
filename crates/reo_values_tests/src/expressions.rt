//! Types, faults and values of expressions.
ghost use Rattle.std.specs.Prelude.{◌≡◌, Some};
ghost use Rattle.reo_values.specs.Kind.{IsIn};
ghost use Rattle.reo_exprs.specs.Typing.{type_of_expr};

use crate::checks::is;
use crate::looks::{Line, Table, holds};
use crate::notation::Unread;
use crate::terms::read_expr;
use reo_exprs::{
    Expr, TypeFault, intervals_are_least, joins, kind_of_expr, lies_inside, truth_of, type_of,
    types_join_by_kind, value_is, value_of,
};
use reo_values::{Kindred, List, Value, is_in, same_item};
use std::alloc::Global;

/// Words of an expression, of the item's type, and of the expression's type.
const TYPES: &[&str] = &[
    "it first it second +|0..9 -3..4 ,|-3..13",
    "it first it second -|0..9 -3..4 ,|-4..12",
    "it first it second *|2..3 4..5 ,|8..15",
    "it first it second *|-3..-2 4..5 ,|-15..-8",
    "it first it second *|-3..2 4..5 ,|-15..10",
    "it first it second *|2..3 -5..-4 ,|-15..-8",
    "it first it second *|-3..-2 -5..-4 ,|8..15",
    "it first it second *|-3..2 -5..-4 ,|-10..15",
    "it first it second *|2..3 -5..4 ,|-15..12",
    "it first it second *|-3..-2 -5..4 ,|-12..15",
    "it first it second *|-3..2 -5..4 ,|-12..15",
    "it first it second /|-7..7 2..2 ,|-3..3",
    "it first it second /|-7..7 2..3 ,|-3..3",
    "it first it second /|5..9 2..4 ,|1..4",
    "it first it second /|-9..-5 2..4 ,|-4..-1",
    "it first it second %|-7..7 4..4 ,|-3..3",
    "it first it second %|0..9 1..4 ,|0..3",
    "it first it second %|-2..1 1..9 ,|-2..1",
    "it first it second %|-9..-1 3..5 ,|-4..0",
    "it first it second %|5..9 20..30 ,|0..9",
    "it 2 /|-7..7|-3..3",
    "it 4 %|-7..7|-3..3",
    "it minus|-2..5|-5..2",
    "it 2 * 1 +|0..9|1..19",
    "it length|text12|0..12",
    "text1024|unit|text1024",
    "it 1 <=|0..9|bool",
    "it '\"\\ false if|text1|text2",
    "it 20 false if|-1..9|-1..20",
    "it first it second *|-1000000000..1000000000 0..1000000000 \
        ,|-1000000000000000000..1000000000000000000",
    "it first it second +|1000000000000000000..1000000000000000000 0..0 \
        ,|1000000000000000000..1000000000000000000",
    "it first it second /|1..2 1..3 ,|0..2",
];

fn are_alike(found: &Kindred, wanted: &Kindred) -> bool {
    lies_inside(found, wanted) && lies_inside(wanted, found)
}

fn is_typed(alloc: Global, expr: &Expr, of: &Kindred, wanted: &Kindred) -> bool {
    match type_of(alloc, expr, of) {
        Ok(found) => are_alike(&found, wanted),
        Err(_) => false,
    }
}

/// Whether the kind of the expression is that of the type.
fn has_kind(alloc: Global, expr: &Expr, of: &Kindred, wanted: &Kindred) -> bool {
    match kind_of_expr(alloc, expr, of) {
        Ok(Some(kind)) => joins(&kind, wanted),
        _ => false,
    }
}

pub fn has_type(alloc: Global, line: &Line) -> Result<bool, Unread> {
    match (line.exprs.get(0), line.types.get(0), line.types.get(1)) {
        (Some(expr), Some(of), Some(wanted)) => {
            Ok(is_typed(alloc, expr, of, wanted) && has_kind(alloc, expr, of, wanted))
        }
        _ => Err(Unread),
    }
}

#[test]
fn expressions_have_their_types(rt: HostRuntime) {
    for text in TYPES {
        is(&rt, holds(rt.alloc(), Table::Types, text), text);
    }
}

/// Words of an expression, of the item's type, and the fault.
const FAULTS: &[&str] = &[
    "it first it second *|0..1000000001 0..1000000000 ,|range",
    "it first it second *|0..1000000000000000000 0..1000000000000000000 ,|range",
    "it first it second +|1000000000000000000..1000000000000000000 1..1 ,|range",
    "it first it second -|-1000000000000000000..-1000000000000000000 0..1 ,|range",
    "it first it second +|0..1000000000000000001 0..0 ,|range",
    "it first it second /|1..2 0..3 ,|range",
    "it first it second %|1..2 -1..3 ,|range",
    "text1025|unit|range",
    "it 0 /|0..9|range",
    "it 1 <= 1 +|0..9|mistyped",
    "it first|0..9|mistyped",
    "it unit ==|0..9|mistyped",
    "it unit true if|0..9|mistyped",
    "it 0 / true and|0..9|mistyped",
];

/// What is answered of the expression's type.
fn answer_of(alloc: Global, expr: &Expr, of: &Kindred) -> &'static str {
    match type_of(alloc, expr, of) {
        Ok(_) => "typed",
        Err(TypeFault::Range) => "range",
        Err(TypeFault::Mistyped) => "mistyped",
        Err(TypeFault::NoMemory) => "no memory",
    }
}

pub fn has_fault(alloc: Global, line: &Line, fault: &str) -> bool {
    match (line.exprs.get(0), line.types.get(0)) {
        (Some(expr), Some(of)) => answer_of(alloc, expr, of) == fault,
        _ => false,
    }
}

#[test]
fn expressions_have_their_faults(rt: HostRuntime) {
    for text in FAULTS {
        is(&rt, holds(rt.alloc(), Table::Faults, text), text);
    }
}

/// Words of an expression, of the item's type, of the item and of the value.
const VALUES: &[&str] = &[
    "it first it second +|-9..9 1..9 ,|7 2 ,|9",
    "it first it second -|-9..9 1..9 ,|2 7 ,|-5",
    "it first it second *|-9..9 1..9 ,|-7 3 ,|-21",
    "it first it second /|-9..9 1..9 ,|7 2 ,|3",
    "it first it second /|-9..9 1..9 ,|-7 2 ,|-3",
    "it first it second %|-9..9 1..9 ,|7 4 ,|3",
    "it first it second %|-9..9 1..9 ,|-7 4 ,|-3",
    "it first it second <|-9..9 1..9 ,|2 2 ,|false",
    "it first it second <=|-9..9 1..9 ,|2 2 ,|true",
    "it first it second >|-9..9 1..9 ,|3 2 ,|true",
    "it first it second >=|-9..9 1..9 ,|1 2 ,|false",
    "it first it second ==|-9..9 1..9 ,|3 3 ,|true",
    "it first it second !=|-9..9 1..9 ,|3 3 ,|false",
    "'\"\\ length|unit|unit|2",
    "names1024|unit|unit|#1023",
    "it false or|bool|true|true",
    "it true and|bool|true|true",
    "it false and|bool|true|false",
    "it false or|bool|false|false",
    "it !|bool|true|false",
    "1 2 it if|bool|true|1",
    "1 2 it if|bool|false|2",
    "it unit , unit , unit , unit , unit , unit , unit , unit ,|0..9|7|7 unit , unit , unit , \
        unit , unit , unit , unit , unit ,",
    "it unit , unit , unit , unit , unit , unit , unit , unit , it unit , unit , unit , unit , \
        unit , unit , unit , unit , ==|0..9|7|true",
];

/// An expression on an item, and the value that it should have.
#[derive(Clone, Copy)]
struct On<'a> {
    expr: &'a Expr,
    of: &'a Kindred,
    item: &'a Value,
    wanted: &'a Value,
}

/// Whether a truth value is told as such.
fn is_told(on: On<'_>, found: &Kindred) -> bool
    requires typed { type_of_expr on.expr.now on.of.now ≡ Some found.now }
    requires member { IsIn on.item.now on.of.now }
{
    match (found, on.wanted) {
        (Kindred::Bool, Value::Bool(truth)) => truth_of(on.expr, on.of, on.item) == *truth,
        (Kindred::Bool, _) => false,
        _ => true,
    }
}

fn is_worth(alloc: Global, on: On<'_>, found: &Kindred) -> bool
    requires typed { type_of_expr on.expr.now on.of.now ≡ Some found.now }
    requires member { IsIn on.item.now on.of.now }
{
    match value_of(alloc, on.expr, on.of, on.item) {
        Ok(value) => same_item(&value, on.wanted) && is_in(&value, found),
        Err(_) => false,
    }
}

fn is_valued(alloc: Global, on: On<'_>) -> bool {
    match type_of(alloc, on.expr, on.of) {
        Ok(found) => {
            is_in(on.item, on.of)
                && value_is(on.expr, on.of, on.item, on.wanted)
                && is_worth(alloc, on, &found)
                && is_told(on, &found)
        }
        Err(_) => false,
    }
}

pub fn has_value(alloc: Global, line: &Line) -> Result<bool, Unread> {
    let parts = (
        line.exprs.get(0),
        line.types.get(0),
        line.items.get(0),
        line.items.get(1),
    );
    match parts {
        (Some(expr), Some(of), Some(item), Some(wanted)) => {
            Ok(is_valued(
                alloc,
                On {
                    expr,
                    of,
                    item,
                    wanted,
                },
            ))
        }
        _ => Err(Unread),
    }
}

#[test]
fn expressions_have_their_values(rt: HostRuntime) {
    for text in VALUES {
        is(&rt, holds(rt.alloc(), Table::Values, text), text);
    }
}

/// The left part of a pair of the expression and the item, which is chosen by a comparison.
const LEVEL: &str = "it , it it , it it == if first";

fn add_levels(alloc: Global, exprs: &mut List<Expr>) -> Result<(), Unread> {
    exprs.push(Expr::It)?;
    for _ in 0..64 {
        read_expr(alloc, exprs, LEVEL)?;
    }
    Ok(())
}

fn is_seven(alloc: Global, expr: &Expr) -> bool {
    let (of, seven) = (Kindred::Int(0, 9), Value::Int(7));
    is_valued(
        alloc,
        On {
            expr,
            of: &of,
            item: &seven,
            wanted: &seven,
        },
    )
}

fn many_levels(alloc: Global) -> bool {
    let mut exprs = List::new(alloc);
    add_levels(alloc, &mut exprs).is_ok()
        && exprs.as_slice().iter().all(|expr| is_seven(alloc, expr))
}

/// Each level compares, chooses and takes a pair apart, so that an evaluation of parts at each
/// use would take 2^64 steps.
#[test]
fn many_levels_take_few_steps(rt: HostRuntime) {
    is(&rt, many_levels(rt.alloc()), LEVEL);
}

pub fn is_joined(line: &Line) -> bool {
    match (line.types.get(0), line.types.get(1)) {
        (Some(left), Some(right)) => joins(left, right) && lies_inside(left, right),
        _ => false,
    }
}

#[test]
fn types_of_other_names_do_not_join(rt: HostRuntime) {
    let alloc = rt.alloc();
    is(
        &rt,
        holds(alloc, Table::Joined, "names1024|names1024"),
        "joined",
    );
    is(
        &rt,
        !holds(alloc, Table::Joined, "names1023|names1024"),
        "not joined",
    );
    is(
        &rt,
        holds(alloc, Table::Joined, "1..2 text3 ,|0..2 text4 ,"),
        "inside",
    );
}

#[test]
fn laws_of_expressions(_rt: HostRuntime) {
    intervals_are_least();
    types_join_by_kind(&Kindred::Unit, &Kindred::Bool);
}
