//! Expressions as words: an operator stands behind its operands, and `if` behind the two
//! expressions that it chooses from and, last, its condition.
use crate::notation::{Unread, behind, last, numbered, spaced};
use reo_exprs::{Expr, ExprPair, ExprTriple};
use reo_values::{Binary, Boxed, Bytes, List, NoMemory, Shared, Symbols, Unary};
use std::alloc::Global;

/// A text of so many letters.
fn long(alloc: Global, count: u16) -> Result<Bytes, NoMemory> {
    let mut bytes = Bytes::new(alloc);
    for _ in 0..count {
        bytes.push(b'a')?;
    }
    Ok(bytes)
}

/// `'a^b` is a text, `text1024` one of so many letters, and `names1024` the last of so many names.
fn other(alloc: Global, word: &str) -> Result<Expr, Unread> {
    if let Some(text) = word.strip_prefix('\'') {
        Ok(Expr::Text(spaced(alloc, text)?))
    } else if let Some(count) = behind(word, "text") {
        Ok(Expr::Text(long(alloc, count)?))
    } else if let Some(count) = behind(word, "names") {
        let names = Symbols::new(alloc, numbered(alloc, count)?)?;
        Ok(Expr::Sym(Shared::new(alloc, names)?, count.wrapping_sub(1)))
    } else {
        match word.parse::<i64>() {
            Ok(number) => Ok(Expr::Int(number)),
            Err(_) => Err(Unread),
        }
    }
}

fn unary(word: &str) -> Option<Unary> {
    match word {
        "!" => Some(Unary::Not),
        "minus" => Some(Unary::Minus),
        "first" => Some(Unary::First),
        "second" => Some(Unary::Second),
        "length" => Some(Unary::Length),
        _ => None,
    }
}

fn comparison(word: &str) -> Option<Binary> {
    match word {
        "==" => Some(Binary::Eq),
        "!=" => Some(Binary::Ne),
        "<" => Some(Binary::Lt),
        "<=" => Some(Binary::Le),
        ">" => Some(Binary::Gt),
        ">=" => Some(Binary::Ge),
        _ => None,
    }
}

fn binary(word: &str) -> Option<Binary> {
    match word {
        "or" => Some(Binary::Or),
        "and" => Some(Binary::And),
        "+" => Some(Binary::Add),
        "-" => Some(Binary::Sub),
        "*" => Some(Binary::Mul),
        "/" => Some(Binary::Div),
        "%" => Some(Binary::Rem),
        "," => Some(Binary::Pair),
        _ => comparison(word),
    }
}

fn one(alloc: Global, operator: Unary, exprs: &mut List<Expr>) -> Result<Expr, Unread> {
    Ok(Expr::One(operator, Boxed::new(alloc, last(exprs)?)?))
}

fn two(alloc: Global, operator: Binary, exprs: &mut List<Expr>) -> Result<Expr, Unread> {
    let right = last(exprs)?;
    let left = last(exprs)?;
    Ok(Expr::Two(operator, Boxed::new(alloc, ExprPair { left, right })?))
}

/// The two that a choice is made from.
fn choices(exprs: &mut List<Expr>) -> Result<(Expr, Expr), Unread> {
    let no = last(exprs)?;
    let yes = last(exprs)?;
    Ok((yes, no))
}

fn choice(alloc: Global, exprs: &mut List<Expr>) -> Result<Expr, Unread> {
    let condition = last(exprs)?;
    let (yes, no) = choices(exprs)?;
    Ok(Expr::If(Boxed::new(alloc, ExprTriple { condition, yes, no })?))
}

fn next_expr(alloc: Global, exprs: &mut List<Expr>, word: &str) -> Result<Expr, Unread> {
    if let Some(operator) = unary(word) {
        one(alloc, operator, exprs)
    } else if let Some(operator) = binary(word) {
        two(alloc, operator, exprs)
    } else {
        match word {
            "if" => choice(alloc, exprs),
            "it" => Ok(Expr::It),
            "unit" => Ok(Expr::Unit),
            "true" => Ok(Expr::Bool(true)),
            "false" => Ok(Expr::Bool(false)),
            _ => other(alloc, word),
        }
    }
}

/// Adds the expression that words say. They may take expressions that were there before.
pub fn read_expr(alloc: Global, exprs: &mut List<Expr>, words: &str) -> Result<(), Unread> {
    for word in words.split(' ') {
        let next = next_expr(alloc, exprs, word)?;
        exprs.push(next)?;
    }
    Ok(())
}
