//! Channels are copied whole.
use crate::Channel;
use reo_values::{Copies, NoMemory};
use std::alloc::Global;

impl Copies for Channel {
    fn copied(&self, alloc: Global) -> Result<Self, NoMemory> {
        match self {
            Channel::Sync => Ok(Channel::Sync),
            Channel::Lossy => Ok(Channel::Lossy),
            Channel::SyncDrain => Ok(Channel::SyncDrain),
            Channel::AsyncDrain => Ok(Channel::AsyncDrain),
            Channel::Fifo1(held) => Ok(Channel::Fifo1(held.copied(alloc)?)),
            Channel::Fifo(size, held) => Ok(Channel::Fifo(*size, held.copied(alloc)?)),
            Channel::Filter(test) => Ok(Channel::Filter(test.copied(alloc)?)),
            Channel::Map(value) => Ok(Channel::Map(value.copied(alloc)?)),
            Channel::Shift(size, held) => Ok(Channel::Shift(*size, held.copied(alloc)?)),
            Channel::Variable(held) => Ok(Channel::Variable(held.copied(alloc)?)),
            Channel::Quota(number) => Ok(Channel::Quota(*number)),
        }
    }
}
