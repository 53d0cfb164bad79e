//! Reading operators.
ghost use Rattle.std.specs.Prelude.{◌≡◌};
ghost use Rattle.reo_grammar.specs.Grammar.{starts};
ghost use Rattle.reo_cursor.specs.Reading.{Gives};
ghost use Rattle.reo_trees.specs.Operators.{prefixes, prefix_form, products, product_operator as product_form, sums, sum_operator as sum_form, comparisons, comparison_operator as comparison_form, calls, call_operator as call_form};
ghost use Rattle.reo_terms.specs.Reading.{read_plain};

use reo_cursor::{Cursor, Halt};
use reo_trees::{Binary, Unary};

/// Whether `!` or `-` is next.
#[tactic(auto, using(crate::proofs::Among::among_more))]
pub fn is_prefix(cursor: &Cursor) -> bool
    ensures { result ≡ starts prefixes cursor.now }
{
    cursor.is(b"!") || cursor.is(b"-")
}

/// The operator `!` or `-`.
pub fn prefix(cursor: &mut Cursor) -> Result<Unary, Halt>
    ensures { Gives result cursor.new (read_plain prefix_form cursor.old) }
{
    if cursor.is(b"!") {
        cursor.expect(b"!")?;
        Ok(Unary::Not)
    } else {
        cursor.expect(b"-")?;
        Ok(Unary::Minus)
    }
}

/// Whether `*`, `/` or `%` is next.
#[tactic(auto, using(crate::proofs::Among::among_more))]
pub fn is_product(cursor: &Cursor) -> bool
    ensures { result ≡ starts products cursor.now }
{
    cursor.is(b"*") || cursor.is(b"/") || cursor.is(b"%")
}

/// The operator `*`, `/` or `%`.
pub fn product_operator(cursor: &mut Cursor) -> Result<Binary, Halt>
    ensures { Gives result cursor.new (read_plain product_form cursor.old) }
{
    if cursor.is(b"*") {
        cursor.expect(b"*")?;
        Ok(Binary::Mul)
    } else if cursor.is(b"/") {
        cursor.expect(b"/")?;
        Ok(Binary::Div)
    } else {
        cursor.expect(b"%")?;
        Ok(Binary::Rem)
    }
}

/// Whether `+` or `-` is next.
#[tactic(auto, using(crate::proofs::Among::among_more))]
pub fn is_sum(cursor: &Cursor) -> bool
    ensures { result ≡ starts sums cursor.now }
{
    cursor.is(b"+") || cursor.is(b"-")
}

/// The operator `+` or `-`.
pub fn sum_operator(cursor: &mut Cursor) -> Result<Binary, Halt>
    ensures { Gives result cursor.new (read_plain sum_form cursor.old) }
{
    if cursor.is(b"+") {
        cursor.expect(b"+")?;
        Ok(Binary::Add)
    } else {
        cursor.expect(b"-")?;
        Ok(Binary::Sub)
    }
}

/// Whether a comparison is next.
#[tactic(auto, using(crate::proofs::Among::among_more))]
pub fn is_comparison(cursor: &Cursor) -> bool
    ensures { result ≡ starts comparisons cursor.now }
{
    cursor.is(b"==")
        || cursor.is(b"!=")
        || cursor.is(b"<")
        || cursor.is(b"<=")
        || cursor.is(b">")
        || cursor.is(b">=")
}

/// The comparison `==`, `!=`, `<`, `<=`, `>` or `>=`.
pub fn comparison_operator(cursor: &mut Cursor) -> Result<Binary, Halt>
    ensures { Gives result cursor.new (read_plain comparison_form cursor.old) }
{
    if cursor.is(b"==") {
        cursor.expect(b"==")?;
        Ok(Binary::Eq)
    } else if cursor.is(b"!=") {
        cursor.expect(b"!=")?;
        Ok(Binary::Ne)
    } else if cursor.is(b"<") {
        cursor.expect(b"<")?;
        Ok(Binary::Lt)
    } else if cursor.is(b"<=") {
        cursor.expect(b"<=")?;
        Ok(Binary::Le)
    } else if cursor.is(b">") {
        cursor.expect(b">")?;
        Ok(Binary::Gt)
    } else {
        cursor.expect(b">=")?;
        Ok(Binary::Ge)
    }
}

/// Whether `first`, `second` or `length` is next.
#[tactic(auto, using(crate::proofs::Among::among_more))]
pub fn is_call(cursor: &Cursor) -> bool
    ensures { result ≡ starts calls cursor.now }
{
    cursor.is(b"first") || cursor.is(b"second") || cursor.is(b"length")
}

/// The call `first`, `second` or `length`.
pub fn call_operator(cursor: &mut Cursor) -> Result<Unary, Halt>
    ensures { Gives result cursor.new (read_plain call_form cursor.old) }
{
    if cursor.is(b"first") {
        cursor.expect(b"first")?;
        Ok(Unary::First)
    } else if cursor.is(b"second") {
        cursor.expect(b"second")?;
        Ok(Unary::Second)
    } else {
        cursor.expect(b"length")?;
        Ok(Unary::Length)
    }
}
