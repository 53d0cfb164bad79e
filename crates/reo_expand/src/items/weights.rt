//! About how many bytes a copy of a tree takes.
use reo_trees::{Channel, Constant, Literal, Parameter, Shape, Term, TermForm};
use reo_values::Bytes;

/// What a part of a tree takes beside its names.
const PART: u64 = 64;

/// A name or a text.
fn bytes_weight(bytes: &Bytes) -> u64 {
    PART.saturating_add(bytes.len() as u64)
}

/// A literal.
fn literal_weight(literal: &Literal) -> u64 {
    match &literal.constant {
        Constant::Name(name) => bytes_weight(name),
        Constant::Text(text) => bytes_weight(text),
        Constant::Pair(pair) => {
            let pair = pair.get();
            let left = literal_weight(&pair.left);
            let right = literal_weight(&pair.right);
            PART.saturating_add(left).saturating_add(right)
        }
        _ => PART,
    }
}

/// Literals.
fn literals_weight(literals: &[Literal]) -> u64 {
    let mut total = PART;
    for literal in literals {
        total = total.saturating_add(literal_weight(literal));
    }
    total
}

/// A literal, if there is one.
fn held_weight(held: &Option<Literal>) -> u64 {
    match held {
        Some(literal) => literal_weight(literal),
        None => PART,
    }
}

/// An expression.
fn term_weight(term: &Term) -> u64 {
    match &term.form {
        TermForm::Text(text) => bytes_weight(text),
        TermForm::Sym(of, symbol) => bytes_weight(of).saturating_add(bytes_weight(symbol)),
        TermForm::One(_, operand) => PART.saturating_add(term_weight(operand.get())),
        TermForm::Two(_, pair) => {
            let pair = pair.get();
            let left = term_weight(&pair.left);
            let right = term_weight(&pair.right);
            PART.saturating_add(left).saturating_add(right)
        }
        TermForm::If(parts) => {
            let parts = parts.get();
            let condition = term_weight(&parts.condition);
            let yes = term_weight(&parts.yes);
            let no = term_weight(&parts.no);
            PART.saturating_add(condition)
                .saturating_add(yes)
                .saturating_add(no)
        }
        _ => PART,
    }
}

/// Names.
fn names_weight(names: &[Bytes]) -> u64 {
    let mut total = PART;
    for name in names {
        total = total.saturating_add(bytes_weight(name));
    }
    total
}

/// A type.
pub(crate) fn shape_weight(shape: &Shape) -> u64 {
    match shape {
        Shape::Sym(names) => names_weight(names.get().as_slice()),
        Shape::Named(name) => bytes_weight(name),
        Shape::Pair(pair) => {
            let pair = pair.get();
            let left = shape_weight(&pair.left.shape);
            let right = shape_weight(&pair.right.shape);
            PART.saturating_add(left).saturating_add(right)
        }
        _ => PART,
    }
}

/// A channel.
pub(crate) fn channel_weight(channel: &Channel) -> u64 {
    match channel {
        Channel::Fifo1(held) => held_weight(held),
        Channel::Variable(held) => held_weight(held),
        Channel::Fifo(_, held) => literals_weight(held.as_slice()),
        Channel::Shift(_, held) => literals_weight(held.as_slice()),
        Channel::Filter(term) => term_weight(term),
        Channel::Map(term) => term_weight(term),
        _ => PART,
    }
}

/// Parameters.
pub(crate) fn parameters_weight(parameters: &[Parameter]) -> u64 {
    let mut total = PART;
    for parameter in parameters {
        let name = bytes_weight(&parameter.name);
        let term = shape_weight(&parameter.term.shape);
        total = total.saturating_add(name).saturating_add(term);
    }
    total
}
