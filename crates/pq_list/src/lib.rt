//! A list with the room that was asked for: what the lists of the public surface are.
#![tactic(auto)]

ghost use Rattle.std.specs.Prelude.{◌≡◌, ◌<◌, ◌≤◌, ◌-◌, [], ◌∷◌, ◌++◌, length, take, replicate, slice_set, IfOk, vec_len, vec_capacity};

use std::alloc::{AllocError, Global};
use std::marker::Model;

/// Want of memory.
pub type OutOfMemory = AllocError;

/// A list of items, and the room that was asked for when it was made. Contracts see both: `items`
/// and `room`. Items are appended while there are fewer than `room`, which takes no memory.
#[derive(Drop)]
pub struct RoomList<T> {
    list: Vec<T>,
    asked: u64,
}

impl<T> Model for RoomList<T> {
    ghost use Rattle.std.specs.Prelude.{◌≤◌, vec_len, vec_capacity};
    ghost use Rattle.pq_list.specs.Roomed.{Roomed};

    ghost Value = { Roomed T };

    ghost view = { λ a. record { items = a.list.items; room = a.asked } };

    ghost invariant = { λ a. (vec_len a.list ≤ a.asked) × (a.asked ≤ vec_capacity a.list) };
}

impl<T> RoomList<T> {
    /// An empty list with room for `room` items. The room is taken here, once.
    pub fn with_room(alloc: Global, room: u64) -> Result<Self, OutOfMemory>
        ensures items { IfOk result (λ made. made.items ≡ []) }
        ensures room { IfOk result (λ made. made.room ≡ room) }
    {
        let list = Vec::with_capacity(alloc, room as usize)?;
        Ok(RoomList { list, asked: room })
    }

    /// The list of these items, with room for no more. It takes no memory.
    pub fn of(items: Vec<T>) -> Self
        ensures items { result.items ≡ items.items }
        ensures room { result.room ≡ vec_len items }
    {
        let asked = items.len() as u64;
        RoomList { list: items, asked }
    }

    /// The room that was asked for.
    pub fn room(&self) -> u64
        ensures { result ≡ self.now.room }
    {
        self.asked
    }

    /// Appends an item. It takes no memory.
    pub fn push_kept(&mut self, item: T)
        requires { length self.old.items < self.old.room }
        ensures items { self.new.items ≡ self.old.items ++ item ∷ [] }
        ensures room { self.new.room ≡ self.old.room }
    {
        self.list.push_reserved(item);
    }

    /// The items, in the order in which they were appended.
    pub fn as_slice(&self) -> &[T]
        ensures { result.now ≡ self.now.items }
    {
        self.list.as_slice()
    }

    /// The items, in the vector in which they stand: none is copied, and no memory is taken. `of` makes it a list again.
    pub fn into_vec(self) -> Vec<T>
        ensures items { result.items ≡ self.items }
        ensures room { self.room ≤ vec_capacity result }
    {
        let RoomList { list, asked: _ } = self;
        list
    }
}

impl<T: Copy> RoomList<T> {
    /// Writes an item over another. It takes no memory.
    pub fn put(&mut self, number: u64, item: T)
        requires { number < length self.old.items }
        ensures items { self.new.items ≡ slice_set self.old.items number item }
        ensures room { self.new.room ≡ self.old.room }
    {
        self.list[number as usize] = item;
    }
}

/// Makes a list `count` items long: what is behind is cut off, or `filler` fills it up. It takes no memory.
pub fn resize_reserved<T: Copy + Drop>(list: &mut Vec<T>, count: usize, filler: T)
    requires { count ≤ vec_capacity list.old }
    ensures items { list.new.items ≡ take count list.old.items ++ replicate (count - length list.old.items) filler }
    ensures capacity { vec_capacity list.new ≡ vec_capacity list.old }
{
    list.truncate(count);
    let missing = count - list.len();
    for _filled in 0..missing {
        list.push_reserved(filler);
    }
}

/// A list of places.
pub type PlaceList = RoomList<u64>;

/// Asks that the values of a type may be handed to another thread and be shared by several. A crate calls it at its own
/// types, so that it shows there if one may not.
pub fn crosses_threads<T: Send + Sync>() {}

// A list crosses threads where its items do.
fn list_crosses_threads<T: Send + Sync>() {
    crosses_threads::<RoomList<T>>();
}

#[cfg(test)]
mod tests {
    use super::*;

    #[test]
    fn items_are_kept_in_order_in_the_room(rt: HostRuntime) -> Result<(), AllocError> {
        let mut list = RoomList::with_room(rt.alloc(), 2)?;
        assert_eq!(rt; list.room(), 2);
        assert!(rt; list.as_slice().is_empty());
        list.push_kept(7u64);
        list.push_kept(9);
        assert!(rt; list.as_slice() == [7u64, 9].as_slice());
        Ok(())
    }

    #[test]
    fn a_list_is_cut_off_and_filled_up(rt: HostRuntime) -> Result<(), AllocError> {
        let mut list = Vec::with_capacity(rt.alloc(), 3)?;
        resize_reserved(&mut list, 2, 5u64);
        assert!(rt; list.as_slice() == [5u64, 5].as_slice());
        resize_reserved(&mut list, 1, 6);
        resize_reserved(&mut list, 3, 7);
        assert!(rt; list.as_slice() == [5u64, 7, 7].as_slice());
        Ok(())
    }
}
