//! A list with room that was taken before.
ghost use Rattle.std.specs.Prelude.{◌≡◌, ◌+◌, ◌<◌, [], ◌∷◌, ◌++◌, IfOk};

use crate::{List, NoMemory};
use std::alloc::Global;
use std::marker::Model;

/// A list and a number of reserved places. Contracts see its `items` and its `room`, the
/// number of items that it still takes without memory.
#[derive(Drop)]
pub struct Filling<T> {
    vec: Vec<T>,
}

impl<T> Model for Filling<T> {
    ghost use Rattle.std.specs.Prelude.{◌-◌, vec_len, vec_capacity};
    ghost use Rattle.reo_values.specs.Filling.{Filled, filled_code};

    ghost Value = { Filled T };

    ghost coded = { filled_code T.code };

    ghost view = { λ l. record { items = l.vec.items; room = vec_capacity l.vec - vec_len l.vec } };
}

impl<T> Filling<T> {
    /// An empty list with room for exactly so many items. `NoMemory` means out of memory.
    pub fn with_room(alloc: Global, room: usize) -> Result<Self, NoMemory>
        ensures empty { IfOk result (λ made. made.items ≡ []) }
        ensures room { IfOk result (λ made. made.room ≡ room) }
    {
        match Vec::with_capacity(alloc, room) {
            Ok(vec) => Ok(Filling { vec }),
            Err(_) => Err(NoMemory),
        }
    }

    /// One item at the end, in a reserved place: this takes no memory.
    pub fn push(&mut self, item: T)
        requires { 0 < self.old.room }
        ensures items { self.new.items ≡ self.old.items ++ item ∷ [] }
        ensures room { self.new.room + 1 ≡ self.old.room }
    {
        self.vec.push_reserved(item);
    }

    /// How many more items it takes.
    pub fn room(&self) -> usize
        ensures { result ≡ self.now.room }
    {
        self.vec.capacity() - self.vec.len()
    }

    /// All items, in order.
    pub fn as_slice(&self) -> &[T]
        ensures { result.now ≡ self.now.items }
    {
        &self.vec
    }

    /// Its items as a list, which are not copied.
    pub fn into_list(self) -> List<T>
        ensures { result ≡ self.items }
    {
        List::from_vec(self.vec)
    }
}
