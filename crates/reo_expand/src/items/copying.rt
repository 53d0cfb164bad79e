//! Copies for which room is taken.
ghost use Rattle.std.specs.Prelude.{◌≡◌, IfOk};

use crate::items::weights::{channel_weight, parameters_weight, shape_weight};
use crate::parts::Room;
use reo_trees::{Channel, Parameter, TypeTerm};
use reo_values::{Copies, List, NoMemory};
use std::alloc::Global;

/// An equal channel. `NoMemory` means out of memory, or of room.
pub(crate) fn copied_channel(
    alloc: Global,
    room: &mut Room,
    channel: &Channel,
) -> Result<Channel, NoMemory>
    ensures { IfOk result (λ made. made ≡ channel.now) }
{
    room.take(channel_weight(channel))?;
    channel.copied(alloc)
}

/// An equal type. `NoMemory` means out of memory, or of room.
pub fn copied_type(alloc: Global, room: &mut Room, term: &TypeTerm) -> Result<TypeTerm, NoMemory>
    ensures { IfOk result (λ made. made ≡ term.now) }
{
    room.take(shape_weight(&term.shape))?;
    term.copied(alloc)
}

/// Equal parameters. `NoMemory` means out of memory, or of room.
pub fn copied_parameters(
    alloc: Global,
    room: &mut Room,
    parameters: &List<Parameter>,
) -> Result<List<Parameter>, NoMemory>
    ensures { IfOk result (λ made. made ≡ parameters.now) }
{
    room.take(parameters_weight(parameters.as_slice()))?;
    parameters.copied(alloc)
}
