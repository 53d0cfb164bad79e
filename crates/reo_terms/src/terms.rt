//! Reading terms.
ghost use Rattle.std.specs.Prelude.{◌≡◌, ℕ, ◌<◌, ◌≤◌, ◌-◌, IfOk, OnErr, Err};
ghost use Rattle.reo_grammar.specs.Grammar.{read, reads};
ghost use Rattle.reo_grammar.specs.Grammar.Grammar.{rule};
ghost use Rattle.reo_cursor.specs.declared.halt.Halt.TheVariants as halts;
ghost use Rattle.reo_cursor.specs.Reading.{Gives};
ghost use Rattle.reo_trees.specs.Forms.{word, ◌◂◌};
ghost use Rattle.reo_trees.specs.Forms.Rule.{term_rule, unary_rule};
ghost use Rattle.reo_trees.specs.Operators.{opened, joined, applied};
ghost use Rattle.reo_trees.specs.Terms.{symbol_form, call_form, if_form, simple_form, group_form, atom_form, unary_form, product_form, sum_form, comparison_form, and_form, or_form, term_form};
ghost use Rattle.reo_trees.specs.Rules.{circuit_rules};
ghost use Rattle.reo_terms.specs.Reading.{read_plain, operand};

use crate::literals::GREATEST;
use crate::name::name_before;
use crate::operators::{
    call_operator, comparison_operator, is_call, is_comparison, is_prefix, is_product, is_sum,
    prefix, product_operator, sum_operator,
};
use reo_cursor::{Cursor, Halt};
use reo_trees::{Binary, Opened, Term, TermForm, TermPair, TermTriple, Unary};
use reo_values::Boxed;
use std::alloc::Global;

/// An operator between two operands.
fn two(alloc: Global, left: Opened, operator: Binary, right: Term) -> Result<Opened, Halt>
    ensures ok { IfOk result (λ r. r ≡ joined left (operand operator right)) }
    ensures err { OnErr result (result ≡ Err halts.NoMemory) }
{
    let start = left.start;
    let pair = Boxed::new(
        alloc,
        TermPair {
            left: left.term,
            right,
        },
    )?;
    let form = TermForm::Two(operator, pair);
    Ok(Opened {
        start,
        term: Term { line: start, form },
    })
}

/// An operator before its operand.
fn one(alloc: Global, start: u32, operator: Unary, inner: Term) -> Result<Opened, Halt>
    ensures ok { IfOk result (λ r. r ≡ applied start operator inner) }
    ensures err { OnErr result (result ≡ Err halts.NoMemory) }
{
    let inner = Boxed::new(alloc, inner)?;
    let form = TermForm::One(operator, inner);
    Ok(Opened {
        start,
        term: Term { line: start, form },
    })
}

fn symbol(cursor: &mut Cursor, alloc: Global) -> Result<TermForm, Halt>
    ensures { Gives result cursor.new (read_plain symbol_form cursor.old) }
{
    let name = name_before(cursor, alloc, b".")?;
    let symbol = cursor.name(alloc)?;
    Ok(TermForm::Sym(name, symbol))
}

/// A term, and the sign behind it.
#[cycle(term)]
pub fn term_before(
    cursor: &mut Cursor,
    alloc: Global,
    room: usize,
    mark: &[u8],
) -> Result<Term, Halt>
    ensures { Gives result cursor.new
        (read (reads circuit_rules room) (rule term_rule ◂ word mark.now) cursor.old) }
{
    let read = term(cursor, alloc, room)?;
    cursor.expect(mark)?;
    Ok(read)
}

#[cycle(term)]
fn call(cursor: &mut Cursor, alloc: Global, room: usize) -> Result<TermForm, Halt>
    ensures { Gives result cursor.new (read (reads circuit_rules room) call_form cursor.old) }
{
    let operator = call_operator(cursor)?;
    cursor.expect(b"(")?;
    let inner = term_before(cursor, alloc, room, b")")?;
    let inner = Boxed::new(alloc, inner)?;
    Ok(TermForm::One(operator, inner))
}

#[cycle(term)]
fn if_term(cursor: &mut Cursor, alloc: Global, room: usize) -> Result<TermForm, Halt>
    ensures { Gives result cursor.new (read (reads circuit_rules room) if_form cursor.old) }
{
    cursor.expect(b"if")?;
    cursor.expect(b"(")?;
    let condition = term_before(cursor, alloc, room, b",")?;
    let yes = term_before(cursor, alloc, room, b",")?;
    let no = term_before(cursor, alloc, room, b")")?;
    let parts = Boxed::new(alloc, TermTriple { condition, yes, no })?;
    Ok(TermForm::If(parts))
}

#[cycle(term)]
fn simple(cursor: &mut Cursor, alloc: Global, room: usize) -> Result<TermForm, Halt>
    ensures { Gives result cursor.new (read (reads circuit_rules room) simple_form cursor.old) }
{
    if cursor.is(b"it") {
        cursor.expect(b"it")?;
        Ok(TermForm::It)
    } else if cursor.is(b"unit") {
        cursor.expect(b"unit")?;
        Ok(TermForm::Unit)
    } else if cursor.is(b"true") {
        cursor.expect(b"true")?;
        Ok(TermForm::Bool(true))
    } else if cursor.is(b"false") {
        cursor.expect(b"false")?;
        Ok(TermForm::Bool(false))
    } else if cursor.is_number(0, GREATEST) {
        let number = cursor.number(0, GREATEST)?;
        Ok(TermForm::Int(number as i64))
    } else if cursor.is_text() {
        let text = cursor.text(alloc)?;
        Ok(TermForm::Text(text))
    } else if cursor.is_name() {
        symbol(cursor, alloc)
    } else if is_call(cursor) {
        call(cursor, alloc, room)
    } else {
        if_term(cursor, alloc, room)
    }
}

/// What stands in parentheses: a grouping or a pair.
#[cycle(term)]
fn group(cursor: &mut Cursor, alloc: Global, room: usize) -> Result<Opened, Halt>
    ensures { Gives result cursor.new (read (reads circuit_rules room) group_form cursor.old) }
{
    let start = cursor.line();
    cursor.expect(b"(")?;
    let first = term(cursor, alloc, room)?;
    if cursor.is(b",") {
        cursor.expect(b",")?;
        let second = term_before(cursor, alloc, room, b")")?;
        let pair = Boxed::new(
            alloc,
            TermPair {
                left: first,
                right: second,
            },
        )?;
        let form = TermForm::Two(Binary::Pair, pair);
        Ok(Opened {
            start,
            term: Term { line: start, form },
        })
    } else {
        cursor.expect(b")")?;
        Ok(Opened { start, term: first })
    }
}

#[cycle(term)]
fn atom(cursor: &mut Cursor, alloc: Global, room: usize) -> Result<Opened, Halt>
    ensures { Gives result cursor.new (read (reads circuit_rules room) atom_form cursor.old) }
{
    if cursor.is(b"(") {
        group(cursor, alloc, room)
    } else {
        let start = cursor.line();
        let form = simple(cursor, alloc, room)?;
        Ok(Opened {
            start,
            term: Term { line: start, form },
        })
    }
}

#[cycle(term)]
fn unary(cursor: &mut Cursor, alloc: Global, room: usize) -> Result<Opened, Halt>
    ensures { Gives result cursor.new (read (reads circuit_rules room) unary_form cursor.old) }
{
    if is_prefix(cursor) {
        let start = cursor.line();
        let operator = prefix(cursor)?;
        let inner = nested_unary(cursor, alloc, room)?;
        one(alloc, start, operator, inner.term)
    } else {
        atom(cursor, alloc, room)
    }
}

#[cycle(term)]
fn nested_unary(cursor: &mut Cursor, alloc: Global, room: usize) -> Result<Opened, Halt>
    ensures { Gives result cursor.new (reads circuit_rules room unary_rule cursor.old) }
{
    if room == 0 {
        return Err(Halt::Room);
    }
    unary(cursor, alloc, room - 1)
}

#[cycle(term)]
fn product(cursor: &mut Cursor, alloc: Global, room: usize) -> Result<Opened, Halt>
    ensures { Gives result cursor.new (read (reads circuit_rules room) product_form cursor.old) }
{
    let mut left = unary(cursor, alloc, room)?;
    'product: while is_product(cursor) {
        let operator = product_operator(cursor)?;
        let right = unary(cursor, alloc, room)?;
        left = two(alloc, left, operator, right.term)?;
    }
    Ok(left)
}

#[cycle(term)]
fn sum(cursor: &mut Cursor, alloc: Global, room: usize) -> Result<Opened, Halt>
    ensures { Gives result cursor.new (read (reads circuit_rules room) sum_form cursor.old) }
{
    let mut left = product(cursor, alloc, room)?;
    'sum: while is_sum(cursor) {
        let operator = sum_operator(cursor)?;
        let right = product(cursor, alloc, room)?;
        left = two(alloc, left, operator, right.term)?;
    }
    Ok(left)
}

/// A sum, or a comparison of two.
#[cycle(term)]
fn comparison(cursor: &mut Cursor, alloc: Global, room: usize) -> Result<Opened, Halt>
    ensures { Gives result cursor.new (read (reads circuit_rules room) comparison_form cursor.old) }
{
    let left = sum(cursor, alloc, room)?;
    if is_comparison(cursor) {
        let operator = comparison_operator(cursor)?;
        let right = sum(cursor, alloc, room)?;
        two(alloc, left, operator, right.term)
    } else {
        Ok(left)
    }
}

#[cycle(term)]
fn and_term(cursor: &mut Cursor, alloc: Global, room: usize) -> Result<Opened, Halt>
    ensures { Gives result cursor.new (read (reads circuit_rules room) and_form cursor.old) }
{
    let mut left = comparison(cursor, alloc, room)?;
    'and_term: while cursor.is(b"&&") {
        cursor.expect(b"&&")?;
        let right = comparison(cursor, alloc, room)?;
        left = two(alloc, left, Binary::And, right.term)?;
    }
    Ok(left)
}

#[cycle(term)]
fn or_term(cursor: &mut Cursor, alloc: Global, room: usize) -> Result<Opened, Halt>
    ensures { Gives result cursor.new (read (reads circuit_rules room) or_form cursor.old) }
{
    let mut left = and_term(cursor, alloc, room)?;
    'or_term: while cursor.is(b"||") {
        cursor.expect(b"||")?;
        let right = and_term(cursor, alloc, room)?;
        left = two(alloc, left, Binary::Or, right.term)?;
    }
    Ok(left)
}

#[cycle(term)]
fn whole(cursor: &mut Cursor, alloc: Global, room: usize) -> Result<Term, Halt>
    ensures { Gives result cursor.new (read (reads circuit_rules room) term_form cursor.old) }
{
    let opened = or_term(cursor, alloc, room)?;
    Ok(opened.term)
}

/// A term, with rules nested at most `room` deep.
#[cycle(term)]
pub fn term(cursor: &mut Cursor, alloc: Global, room: usize) -> Result<Term, Halt>
    ensures { Gives result cursor.new (reads circuit_rules room term_rule cursor.old) }
{
    if room == 0 {
        return Err(Halt::Room);
    }
    whole(cursor, alloc, room - 1)
}
