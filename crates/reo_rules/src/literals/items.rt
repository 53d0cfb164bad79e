//! The items that literals are.
ghost use Rattle.std.specs.Prelude.{◌≡◌, ◌++◌, [], IfOk, OnOk, IsSome, Some, is_some, bytes_eq};
ghost use Rattle.std.specs.List.{list_all, position_from, cons_option};
ghost use Rattle.reo_values.specs.Kind.{is_plain};
ghost use Rattle.reo_rules.specs.literals.Items.{item_in, item_of, items_of, HasFewNames};

use reo_trees::{Constant, Literal};
use reo_values::{Bytes, Couple, Kindred, List, NoMemory, Shared, Value};
use std::alloc::Global;

/// Whether all bytes are from the space to the tilde.
fn are_plain(bytes: &[u8]) -> bool
    ensures { result ≡ list_all is_plain bytes.now }
{
    bytes.iter().all(|byte| 32 <= *byte && *byte <= 126)
}

/// The place of a name among names, from 0, or `None` exactly where it is none of them.
pub fn place_of(names: &[Bytes], name: &[u8]) -> Option<usize>
    ensures { result ≡ position_from (bytes_eq name.now) 0 names.now }
{
    names.iter().position(|other| name == other.as_slice())
}

/// Whether a literal's tree is an item of a type.
fn is_item_in(kindred: &Kindred, constant: &Constant) -> bool
    ensures { result ≡ is_some (item_in kindred.now constant.now) }
{
    match (constant, kindred) {
        (Constant::Unit, Kindred::Unit) => true,
        (Constant::Bool(_), Kindred::Bool) => true,
        (Constant::Int(number), Kindred::Int(low, high)) => *low <= *number && *number <= *high,
        (Constant::Name(name), Kindred::Sym(names)) => {
            place_of(names.get().as_slice(), name.as_slice()).is_some()
        }
        (Constant::Text(bytes), Kindred::Text(most)) => {
            bytes.len() <= *most as usize && are_plain(bytes.as_slice())
        }
        (Constant::Pair(x), Kindred::Pair(y)) => {
            let (x, y) = (x.get(), y.get());
            is_item_in(&y.left, &x.left.constant) && is_item_in(&y.right, &x.right.constant)
        }
        _ => false,
    }
}

/// The symbol of a type that a name is, where it is one.
fn symbol_in(kindred: &Kindred, name: &Bytes) -> Value
    requires few { HasFewNames kindred.now }
    requires item { IsSome (item_in kindred.now (Constant.Name name.now)) }
    ensures { item_in kindred.now (Constant.Name name.now) ≡ Some result }
{
    match kindred {
        Kindred::Sym(names) => match place_of(names.get().as_slice(), name.as_slice()) {
            Some(place) => Value::Sym(place as u16),
            None => unreachable!(),
        },
        _ => unreachable!(),
    }
}

/// The item that the tree of a literal is, where it is one.
fn made_in(alloc: Global, kindred: &Kindred, constant: &Constant) -> Result<Value, NoMemory>
    requires few { HasFewNames kindred.now }
    requires item { IsSome (item_in kindred.now constant.now) }
    ensures { IfOk result (λ item. item_in kindred.now constant.now ≡ Some item) }
{
    match constant {
        Constant::Unit => Ok(Value::Unit),
        Constant::Bool(truth) => Ok(Value::Bool(*truth)),
        Constant::Int(number) => Ok(Value::Int(*number)),
        Constant::Name(name) => Ok(symbol_in(kindred, name)),
        Constant::Text(bytes) => {
            let text = bytes.copy(alloc)?;
            Ok(Value::Text(Shared::new(alloc, text)?))
        }
        Constant::Pair(x) => match kindred {
            Kindred::Pair(y) => {
                let (x, y) = (x.get(), y.get());
                let left = made_in(alloc, &y.left, &x.left.constant)?;
                let right = made_in(alloc, &y.right, &x.right.constant)?;
                let couple = Shared::new(alloc, Couple { left, right })?;
                Ok(Value::Pair(couple))
            }
            _ => unreachable!(),
        },
    }
}

/// Whether a literal is an item of a type. This takes no memory.
pub fn is_item_of(kindred: &Kindred, literal: &Literal) -> bool
    ensures { result ≡ is_some (item_of kindred.now literal.now) }
{
    is_item_in(kindred, &literal.constant)
}

/// The item of a type that a literal is, or `None` exactly where it is none. `NoMemory`: out of
/// memory.
pub fn item_of(
    alloc: Global,
    kindred: &Kindred,
    literal: &Literal,
) -> Result<Option<Value>, NoMemory>
    requires { HasFewNames kindred.now }
    ensures { IfOk result (λ found. found ≡ item_of kindred.now literal.now) }
{
    if is_item_of(kindred, literal) {
        Ok(Some(made_in(alloc, kindred, &literal.constant)?))
    } else {
        Ok(None)
    }
}

/// One item more at the end, where there is one.
fn keep(made: &mut List<Value>, found: Option<Value>) -> Result<(), NoMemory>
    ensures { OnOk result (made.new ≡ made.old ++ cons_option found []) }
{
    match found {
        Some(item) => made.push(item),
        None => Ok(()),
    }
}

/// The items of a type that literals are; a literal that is none is passed over. `NoMemory`: out
/// of memory.
pub fn items_of(
    alloc: Global,
    kindred: &Kindred,
    literals: &[Literal],
) -> Result<List<Value>, NoMemory>
    requires { HasFewNames kindred.now }
    ensures { IfOk result (λ made. made ≡ items_of kindred.now literals.now) }
{
    let mut made = List::new(alloc);
    for literal in literals {
        keep(&mut made, item_of(alloc, kindred, literal)?)?;
    }
    Ok(made)
}
