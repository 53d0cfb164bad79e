//! The calls for programs in C.
ghost use Rattle.std.specs.Prelude.{◌≡◌, ◌≢◌, None, length};
ghost use Rattle.reo_net_base.specs.declared.port.Offer.TheVariants.{Take as ToTake};
ghost use Rattle.reo_handles.specs.Moves.{Moved, TellsItem};
ghost use Rattle.reo_handles.specs.Offers.{Offers, Withdraws, Writes};
ghost use Rattle.reo_handles.specs.Opening.{Opens};
ghost use Rattle.reo_handles.specs.Ports.{Finds};
ghost use Rattle.reo_handles.specs.Rounds.{Rounds};
ghost use Rattle.reo_handles.specs.Statuses.{Answers, AtOpen, number_of, words_of};
ghost use Rattle.reo_handles.specs.Texts.{laid};
ghost use Rattle.reo_handles.specs.declared.status.CallStatus.{CallStatus as AStatus};

use reo_handles::{
    Handle, Round, close, find_open, item_open, lay_words, moved_open, open, round_open, take_open,
    withdraw_open, write_open,
};
use std::alloc::Global;

/// Closes what is open in a handle, and opens the connector that a circuit text says. `Refused`:
/// the text says no circuit; the line and the words of the cause are laid into the room, as far as
/// they fit, and `length` becomes their length. `TooLong`: the text has more than 1,048,576 bytes.
/// Nothing is open then.
#[unsafe(no_mangle)]
pub extern "C" fn reo_open(
    alloc: Global,
    handle: &mut Handle,
    text: &[u8],
    room: &mut [u8],
    length: &mut usize,
) -> u32
    ensures { Answers (Opens text.now (record { bytes = room.old; length = length.old })
        (record { bytes = room.new; length = length.new }) handle.new.place.session) result }
{
    open(alloc, handle, text, room, length).number()
}

/// Finds the port of a name: `port` becomes its number. `NoPort`: no port has it.
#[unsafe(no_mangle)]
pub extern "C" fn reo_port(alloc: Global, handle: &mut Handle, name: &[u8], port: &mut usize) -> u32
    ensures { Answers (AtOpen (Finds name.now port.old port.new)
        handle.old.place.session handle.new.place.session) result }
{
    find_open(alloc, handle, name, port).number()
}

/// Offers to write at a port the item of its type that has this text. `NoItem`: there is none, or
/// no such port; `WrongWay`, `Pending`: the port does not take the offer. Nothing changes then.
#[unsafe(no_mangle)]
pub extern "C" fn reo_write(alloc: Global, handle: &mut Handle, port: usize, text: &[u8]) -> u32
    ensures { Answers (AtOpen (Writes port text.now)
        handle.old.place.session handle.new.place.session) result }
{
    write_open(alloc, handle, port, text).number()
}

/// Offers to take an item at a port. `NoPort`, `WrongWay`, `Pending`: it does not take the offer,
/// and nothing changes.
#[unsafe(no_mangle)]
pub extern "C" fn reo_take(alloc: Global, handle: &mut Handle, port: usize) -> u32
    ensures { Answers (AtOpen (Offers port ToTake)
        handle.old.place.session handle.new.place.session) result }
{
    take_open(alloc, handle, port).number()
}

/// Takes the offer at a port back. `NotPending`: there is none.
#[unsafe(no_mangle)]
pub extern "C" fn reo_withdraw(alloc: Global, handle: &mut Handle, port: usize) -> u32
    ensures { Answers (AtOpen (Withdraws port)
        handle.old.place.session handle.new.place.session) result }
{
    withdraw_open(alloc, handle, port).number()
}

/// Makes the round that comes next, that of the first colouring, and tells what it was. `Wide`,
/// `Spent`: a part of the circuit is over the budget; `LargeBudget`: the budget is 10^18 or more;
/// `NoRound`: 2^63 rounds were made. Nothing changes then.
#[unsafe(no_mangle)]
pub extern "C" fn reo_round(
    alloc: Global,
    handle: &mut Handle,
    budget: u64,
    round: &mut Round,
) -> u32
    ensures { Answers (AtOpen (Rounds budget round.old round.new)
        handle.old.place.session handle.new.place.session) result }
{
    round_open(alloc, handle, budget, round).number()
}

/// Tells at which port the move of an index was, in the round that was made last: `port` becomes
/// its number. Moves count from 0, in the order of their ports. `NoMove`: there is none of this
/// index.
#[unsafe(no_mangle)]
pub extern "C" fn reo_moved(
    alloc: Global,
    handle: &mut Handle,
    index: usize,
    port: &mut usize,
) -> u32
    ensures { Answers (AtOpen (Moved index port.old port.new)
        handle.old.place.session handle.new.place.session) result }
{
    moved_open(alloc, handle, index, port).number()
}

/// Lays the text of a move's item into a room, as far as it fits, as traces write it: `length`
/// becomes the length of the whole text. `NoMove`: there is no move of this index.
#[unsafe(no_mangle)]
pub extern "C" fn reo_item(
    alloc: Global,
    handle: &mut Handle,
    index: usize,
    room: &mut [u8],
    length: &mut usize,
) -> u32
    ensures { Answers (AtOpen (TellsItem index (record { bytes = room.old; length = length.old })
        (record { bytes = room.new; length = length.new }))
        handle.old.place.session handle.new.place.session) result }
{
    item_open(alloc, handle, index, room, length).number()
}

/// Lays the words of a number that a call answered into a room, as far as they fit, and answers how
/// long they are; 0 where no call answers so.
#[unsafe(no_mangle)]
pub extern "C" fn reo_words(number: u32, room: &mut [u8]) -> usize
    ensures length { (status : AStatus) → number ≡ number_of status
        → result ≡ length (words_of status) }
    ensures laid { (status : AStatus) → number ≡ number_of status
        → room.new ≡ laid (words_of status) room.old }
    ensures none { ((status : AStatus) → number ≢ number_of status)
        → (result ≡ 0) × (room.new ≡ room.old) }
{
    lay_words(number, room)
}

/// Closes what is open in a handle, if anything is. All of its memory is given back.
#[unsafe(no_mangle)]
pub extern "C" fn reo_close(alloc: Global, handle: &mut Handle)
    ensures { handle.new.place.session ≡ None }
{
    close(alloc, handle);
}
