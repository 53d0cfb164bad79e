//! The unfolding of a connector.
ghost use Rattle.std.specs.Prelude.{◌≡◌, ◌<◌, ◌^◌, ◌+◌, [], ◌∷◌, List, OnOk, IfOk, Some, cond, length, slice_get, slice_index_or};
ghost use Rattle.std.specs.List.{count_by};
ghost use Rattle.reo_trees.specs.declared.items.Item.{Item as AnItem};
ghost use Rattle.reo_trees.specs.declared.programs.Connector.{Connector as AConnector};
ghost use Rattle.reo_flat.specs.Unfolding.{no_meaning, meanings_of, is_use};
ghost use Rattle.reo_unfold.specs.Ground.{IsGround};
ghost use Rattle.reo_unfold.specs.Fits.{ChannelFits, FormFits, AreFit};
ghost use Rattle.reo_unfold.specs.Adds.{Adds};
ghost use Rattle.reo_unfold.specs.Frames.{IsFrame, placed_at, AddsForm, AddsItems};

use crate::ground::{Ground, Stand};
use crate::kinds::channel_kind;
use crate::local::{Local, local_of};
use crate::names::{append_use, flat_name, flat_names, node_name};
use reo_kinds::Kind;
use reo_trees::{Channel, Connector, Declaration, ItemForm};
use reo_values::{Bytes, List, NoMemory};
use std::alloc::Global;

/// What was unfolded: the flat names of nodes, and the primitives that are placed, with the nodes
/// at which each has its ends.
#[derive(Drop)]
pub struct Unfolded {
    pub nodes: List<Bytes>,
    pub kinds: List<Kind>,
    pub ends: List<List<Bytes>>,
}

/// A connector where it is used, with the flat names of its arguments.
#[derive(Drop)]
struct Frame<'a> {
    declarations: &'a [Declaration],
    ground: &'a Ground,
    number: usize,
    stand: Stand,
    connector: &'a Connector,
    local: &'a Local,
    arguments: &'a [Bytes],
}

/// The connector whose declaration stands at a place.
pub fn connector_at(declarations: &[Declaration], place: usize) -> &Connector
    requires { (c : AConnector) × (slice_get declarations.now place ≡ Some (Declaration.Made c)) }
    ensures { slice_get declarations.now place ≡ Some (Declaration.Made result.now) }
{
    match &declarations[place] {
        Declaration::Made(connector) => connector,
        Declaration::Named { .. } => unreachable!(),
    }
}

/// Two names as the nodes of one channel.
fn two(alloc: Global, first: Bytes, second: Bytes) -> Result<List<Bytes>, NoMemory>
    ensures { IfOk result (λ made. made ≡ first ∷ second ∷ []) }
{
    let mut made = List::new(alloc);
    made.push(first)?;
    made.push(second)?;
    Ok(made)
}

/// Places a channel between two nodes.
fn place(
    alloc: Global,
    frame: &Frame,
    channel: &Channel,
    first: &Bytes,
    second: &Bytes,
    path: &Bytes,
    made: &mut Unfolded,
) -> Result<(), NoMemory>
    requires frame { IsFrame frame.now }
    requires channel { ChannelFits channel.now }
    ensures { OnOk result (Adds made.old made.new []
        (placed_at frame.now path.now channel.now first.now second.now)) }
{
    let names = &frame.local.names;
    let parameters = frame.connector.parameters.len();
    let first_at = flat_name(alloc, names, parameters, frame.arguments, path, first)?;
    let second_at = flat_name(alloc, names, parameters, frame.arguments, path, second)?;
    made.ends.push(two(alloc, first_at, second_at)?)?;
    let of = frame.local.shape_of(frame.connector, first);
    let types = &frame.ground.types;
    made.kinds.push(channel_kind(alloc, types, frame.stand.types, of, channel)?)?;
    Ok(())
}

/// Unfolds the use of a connector, which is the next behind so many.
#[cycle(unfolding)]
fn used(
    alloc: Global,
    frame: &Frame,
    name: &Bytes,
    arguments: &List<Bytes>,
    uses: usize,
    path: &mut Bytes,
    made: &mut Unfolded,
) -> Result<(), NoMemory>
    requires frame { IsFrame frame.now }
    requires few { uses + 1 < 2 ^ 63 }
    ensures made { (before : List AnItem) → count_by (λ (i : AnItem). is_use i.form) before ≡ uses
        → OnOk result (AddsForm frame.now path.old before
        (ItemForm.Used name.now arguments.now) made.old made.new) }
    ensures path { OnOk result (path.new ≡ path.old) }
{
    match frame.ground.connectors.find(name.as_slice()) {
        Some(number) => {
            if frame.number <= number {
                return Ok(());
            }
            let names = &frame.local.names;
            let parameters = frame.connector.parameters.len();
            let outer = frame.arguments;
            let given = flat_names(alloc, names, parameters, outer, path, arguments.as_slice())?;
            let length = path.len();
            append_use(alloc, path, name, uses + 1)?;
            connector(
                alloc,
                frame.declarations,
                frame.ground,
                number,
                given.as_slice(),
                path,
                made,
            )?;
            path.truncate(length);
            Ok(())
        }
        None => Ok(()),
    }
}

/// Unfolds one item, behind so many uses.
#[cycle(unfolding)]
fn item(
    alloc: Global,
    frame: &Frame,
    form: &ItemForm,
    uses: usize,
    path: &mut Bytes,
    made: &mut Unfolded,
) -> Result<(), NoMemory>
    requires frame { IsFrame frame.now }
    requires few { uses + 1 < 2 ^ 63 }
    requires form { FormFits form.now }
    ensures made { (before : List AnItem) → count_by (λ (i : AnItem). is_use i.form) before ≡ uses
        → OnOk result (AddsForm frame.now path.old before form.now made.old made.new) }
    ensures path { OnOk result (path.new ≡ path.old) }
{
    match form {
        ItemForm::Node { name, .. } => {
            made.nodes.push(node_name(alloc, path, name)?)?;
            Ok(())
        }
        ItemForm::Joined {
            channel,
            first,
            second,
        } => place(alloc, frame, channel, first, second, path, made),
        ItemForm::Used { name, arguments } => used(alloc, frame, name, arguments, uses, path, made),
    }
}

/// The count of uses, with one more where the item is one.
fn counted(uses: usize, form: &ItemForm) -> usize
    requires { uses + 1 < 2 ^ 63 }
    ensures { result ≡ uses + cond (is_use form.now) 1 0 }
{
    match form {
        ItemForm::Used { .. } => uses + 1,
        _ => uses,
    }
}

/// Unfolds all items of a connector.
#[cycle(unfolding)]
fn items(
    alloc: Global,
    frame: &Frame,
    path: &mut Bytes,
    made: &mut Unfolded,
) -> Result<(), NoMemory>
    requires { IsFrame frame.now }
    ensures made { OnOk result
        (AddsItems frame.now path.old frame.now.connector.now.items made.old made.new) }
    ensures path { OnOk result (path.new ≡ path.old) }
{
    let mut uses = 0;
    for one in frame.connector.items.as_slice() {
        item(alloc, frame, &one.form, uses, path, made)?;
        uses = counted(uses, &one.form);
    }
    Ok(())
}

/// Unfolds the connector of a number, with these arguments, behind this path: its nodes and its
/// channels come at the end. `NoMemory`: out of memory, and then the path and what was made are of
/// no use any more.
#[cycle(unfolding)]
pub fn connector(
    alloc: Global,
    declarations: &[Declaration],
    ground: &Ground,
    number: usize,
    arguments: &[Bytes],
    path: &mut Bytes,
    made: &mut Unfolded,
) -> Result<(), NoMemory>
    requires ground { IsGround declarations.now ground.now }
    requires number { number < length ground.now.stands }
    requires fit { AreFit declarations.now }
    ensures made { let m = slice_index_or (meanings_of declarations.now) number no_meaning in
        OnOk result (Adds made.old made.new (m.nodes path.old)
        (m.channels path.old arguments.now)) }
    ensures path { OnOk result (path.new ≡ path.old) }
{
    let stand = *ground.stands.at(number);
    let connector = connector_at(declarations, stand.place);
    let local = local_of(alloc, connector)?;
    let frame = Frame {
        declarations,
        ground,
        number,
        stand,
        connector,
        local: &local,
        arguments,
    };
    items(alloc, &frame, path, made)
}
