//! Literals that are items of types.
ghost use Rattle.std.specs.Prelude.{◌≡◌, ◌<◌, ◌&&◌, nat_le, length, is_none};
ghost use Rattle.std.specs.List.{list_any, list_all};
ghost use Rattle.reo_values.specs.Kind.{is_plain};
ghost use Rattle.reo_trees.specs.declared.literals.Literal.{Literal as ALiteral};
ghost use Rattle.reo_rules.specs.literals.Items.{item_of};
ghost use Rattle.reo_rules_types.specs.Cells.{type_at};
ghost use Rattle.reo_rules_types.specs.Literals.{is_literal};

use crate::cell::TypeParts;
use crate::types::TypeStore;
use reo_trees::{Constant, Literal};

// Whether all bytes are from the space to the tilde.
fn all_plain(bytes: &[u8]) -> bool
    ensures { result ≡ list_all is_plain bytes.now }
{
    bytes.iter().all(|byte| 32 <= *byte && *byte <= 126)
}

// Whether bytes are an item of a type of texts.
fn is_text_of(bytes: &[u8], most: u16) -> bool
    ensures { result ≡ (nat_le (length bytes.now) most && list_all is_plain bytes.now) }
{
    bytes.len() <= most as usize && all_plain(bytes)
}

/// Whether a literal is an item of a type.
pub(crate) fn is_literal(types: &TypeStore, number: usize, constant: &Constant) -> bool
    requires { number < length types.now }
    ensures { result ≡ is_literal (type_at types.now number) constant.now }
{
    match (constant, types.cell(number)) {
        (Constant::Unit, TypeParts::Unit) => true,
        (Constant::Bool(_), TypeParts::Bool) => true,
        (Constant::Int(n), TypeParts::Int(low, high)) => *low <= *n && *n <= *high,
        (Constant::Name(name), TypeParts::Sym(_)) => types.has_symbol(number, name.as_slice()),
        (Constant::Text(bytes), TypeParts::Text(most)) => is_text_of(bytes.as_slice(), *most),
        (Constant::Pair(pair), TypeParts::Pair(left, right)) => {
            let pair = pair.get();
            is_literal(types, *left, &pair.left.constant)
                && is_literal(types, *right, &pair.right.constant)
        }
        _ => false,
    }
}

/// Whether some literal is no item of a type.
pub(crate) fn some_misfits(types: &TypeStore, number: usize, literals: &[Literal]) -> bool
    requires { number < length types.now }
    ensures { result ≡ list_any
        (λ (l : ALiteral). is_none (item_of (type_at types.now number) l)) literals.now }
{
    for literal in literals {
        if !is_literal(types, number, &literal.constant) {
            return true;
        }
    }
    false
}
