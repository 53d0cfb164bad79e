//! Channels and uses whose types do not fit.
ghost use Rattle.std.specs.Prelude.{◌≡◌, ◌<◌, length, not, is_none, ℕ, List, IfOk, OnOk};
ghost use Rattle.std.specs.List.{list_any, zip};
ghost use Rattle.reo_values.specs.declared.kindred.Kindred.{Kindred as AType};
ghost use Rattle.reo_trees.specs.declared.literals.Literal.{Literal as ALiteral};
ghost use Rattle.reo_rules.specs.literals.Items.{item_of};
ghost use Rattle.reo_rules.specs.Types.{type_named, is_same};
ghost use Rattle.reo_rules.specs.Terms.{expr_of};
ghost use Rattle.reo_rules.specs.Channels.{keeps_type, literals_of};
ghost use Rattle.reo_rules.specs.Mistyped.{has_kind, misfits, is_channel_mistyped};
ghost use Rattle.reo_rules_types.specs.Cells.{type_at, Keeps};
ghost use Rattle.reo_rules_types.specs.Scoped.{typed, AreKnown};
ghost use Rattle.reo_rules_types.specs.Signed.{AreOf};

use crate::cell::TypeParts;
use crate::kinds::kind_of_term;
use crate::literals::{is_literal, some_misfits};
use crate::scope::Scope;
use crate::types::TypeStore;
use reo_trees::{Channel, TermForm};
use reo_values::{Bytes, NoMemory};
use std::alloc::Global;

fn keeps_type(channel: &Channel) -> bool
    ensures { result ≡ keeps_type channel.now }
{
    match channel {
        Channel::SyncDrain | Channel::AsyncDrain | Channel::Map(_) => false,
        Channel::Sync | Channel::Lossy | Channel::Filter(_) => true,
        Channel::Fifo1(_) | Channel::Fifo(_, _) | Channel::Shift(_, _) => true,
        Channel::Variable(_) | Channel::Quota(_) => true,
    }
}

// Whether some literal of a channel is no item of a type.
fn literal_misfits(types: &TypeStore, number: usize, channel: &Channel) -> bool
    requires { number < length types.now }
    ensures { result ≡ list_any (λ (l : ALiteral). is_none (item_of (type_at types.now number) l))
        (literals_of channel.now) }
{
    match channel {
        Channel::Fifo1(Some(literal)) | Channel::Variable(Some(literal)) => {
            !is_literal(types, number, &literal.constant)
        }
        Channel::Fifo(_, literals) | Channel::Shift(_, literals) => {
            some_misfits(types, number, literals.as_slice())
        }
        Channel::Sync | Channel::Lossy | Channel::SyncDrain | Channel::AsyncDrain => false,
        Channel::Fifo1(None) | Channel::Variable(None) | Channel::Quota(_) => false,
        Channel::Filter(_) | Channel::Map(_) => false,
    }
}

// Whether an expression has no kind, or another than the one that is wanted.
fn lacks_kind(
    alloc: Global,
    types: &mut TypeStore,
    declared: &Scope,
    form: &TermForm,
    of: usize,
    want: usize,
) -> Result<bool, NoMemory>
    requires known { AreKnown types.old declared.now }
    requires of { of < length types.old }
    requires want { want < length types.old }
    ensures keeps { OnOk result (Keeps types.old types.new) }
    ensures test { IfOk result
        (λ r. r ≡ not
        (has_kind (type_at types.old of) (type_at types.old want)
        (expr_of (typed types.old declared.now) form.now))) }
{
    match kind_of_term(alloc, types, declared, form, of)? {
        Some(kind) => Ok(!types.same(kind, want)),
        None => Ok(true),
    }
}

// Whether the expression of a channel does not fit between two nodes.
fn misfits(
    alloc: Global,
    types: &mut TypeStore,
    declared: &Scope,
    a: usize,
    b: usize,
    channel: &Channel,
) -> Result<bool, NoMemory>
    requires known { AreKnown types.old declared.now }
    requires first { a < length types.old }
    requires second { b < length types.old }
    ensures keeps { OnOk result (Keeps types.old types.new) }
    ensures test { IfOk result
        (λ r. r ≡ misfits (typed types.old declared.now) (type_at types.old a)
        (type_at types.old b) channel.now) }
{
    match channel {
        Channel::Filter(term) => {
            let want = types.put(alloc, TypeParts::Bool)?;
            lacks_kind(alloc, types, declared, &term.form, a, want)
        }
        Channel::Map(term) => {
            let want = types.kind(b);
            lacks_kind(alloc, types, declared, &term.form, a, want)
        }
        Channel::Sync | Channel::Lossy | Channel::SyncDrain | Channel::AsyncDrain => Ok(false),
        Channel::Fifo1(_) | Channel::Fifo(_, _) | Channel::Shift(_, _) => Ok(false),
        Channel::Variable(_) | Channel::Quota(_) => Ok(false),
    }
}

/// Whether a channel between nodes of two types does not fit them. All types keep their numbers.
/// `NoMemory` means out of memory.
pub(crate) fn channel_mistyped(
    alloc: Global,
    types: &mut TypeStore,
    declared: &Scope,
    a: usize,
    b: usize,
    channel: &Channel,
) -> Result<bool, NoMemory>
    requires known { AreKnown types.old declared.now }
    requires first { a < length types.old }
    requires second { b < length types.old }
    ensures keeps { OnOk result (Keeps types.old types.new) }
    ensures test { IfOk result
        (λ r. r ≡ is_channel_mistyped (typed types.old declared.now) (type_at types.old a)
        (type_at types.old b) channel.now) }
{
    if keeps_type(channel) && !types.same(a, b) {
        return Ok(true);
    }
    if literal_misfits(types, a, channel) {
        return Ok(true);
    }
    misfits(alloc, types, declared, a, b, channel)
}

/// Whether some argument has another type than the parameter of its place, by the numbers of the
/// parameters' types.
pub(crate) fn use_mistyped(
    types: &TypeStore,
    scope: &Scope,
    arguments: &[Bytes],
    numbers: &[usize],
) -> bool
    requires { AreKnown types.now scope.now }
    ensures { (kinds : List AType) → AreOf types.now numbers.now kinds → result ≡ list_any
        (λ (q : List ℕ × AType). not (is_same (type_named (typed types.now scope.now) q.0) q.1))
        (zip arguments.now kinds) }
{
    for (place, argument) in arguments.iter().enumerate() {
        let number = scope.find(argument.as_slice());
        if place < numbers.len() && !types.alike(number, numbers[place]) {
            return true;
        }
    }
    false
}
