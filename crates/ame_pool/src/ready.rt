//! The order of the ready members, from the oldest on.

ghost use Rattle.std.specs.Prelude.{◌≡◌, ◌+◌, ◌<◌, ◌≤◌, ◌==◌, ◌^◌, [], length, count_by, OnOk};
ghost use Rattle.ame_pool.specs.Queues.{HasPlace, front, pushed, taken};

use crate::queue::Queue;
use ame_term::NoMemory;
use std::alloc::Global;
use std::marker::Model;

/// Their numbers, and apart from them the numbers of those that stand inside, in the same order.
#[derive(Drop)]
pub struct Ready {
    order: Queue,
    inside: Queue,
}

impl Model for Ready {
    ghost use Rattle.std.specs.Prelude.{min};
    ghost use Rattle.ame_pool.specs.Queues.{Queues};

    ghost Value = { Queues };

    ghost view = { λ a. record {
      order = a.order.list;
      inside = a.inside.list;
      places = min a.order.places a.inside.places;
    } };
}

impl Ready {
    /// Makes an order without members.
    pub fn new(alloc: Global) -> Ready
        ensures order { result.order ≡ [] }
        ensures inside { result.inside ≡ [] }
        ensures small { result.places < 2 ^ 63 }
    {
        Ready {
            order: Queue::new(alloc),
            inside: Queue::new(alloc),
        }
    }

    /// Makes room for this many more than are ready.
    pub fn room(&mut self, more: usize) -> Result<(), NoMemory>
        requires { length self.old.inside ≤ length self.old.order }
        ensures order { self.new.order ≡ self.old.order }
        ensures inside { self.new.inside ≡ self.old.inside }
        ensures grows { self.old.places ≤ self.new.places }
        ensures small { self.new.places < 2 ^ 63 }
        ensures ok { OnOk result (length self.old.order + more ≤ self.new.places) }
    {
        self.order.room(more)?;
        let inside_more = self.order.len() - self.inside.len() + more;
        self.inside.room(inside_more)
    }

    /// Adds the youngest of them, at a seat.
    pub fn push(&mut self, number: u64, seat: usize, is_inside: bool)
        requires { HasPlace self.old }
        ensures { self.new ≡ pushed number is_inside self.old }
    {
        self.order.push(number, seat);
        if is_inside {
            self.inside.push(number, seat);
        }
    }

    /// Takes one of them from its seat.
    pub fn take(&mut self, number: u64, seat: usize, is_inside: bool)
        requires order { count_by (λ n. n == number) self.old.order ≤ 1 }
        requires inside { count_by (λ n. n == number) self.old.inside ≤ 1 }
        ensures { self.new ≡ taken number is_inside self.old }
    {
        self.order.take(number, seat);
        if is_inside {
            self.inside.take(number, seat);
        }
    }

    /// Returns the oldest, if there is any.
    pub fn first(&self) -> Option<u64>
        ensures { result ≡ front self.now.order }
    {
        self.order.first()
    }

    /// Returns the oldest that stands inside, if one does.
    pub fn first_inside(&self) -> Option<u64>
        ensures { result ≡ front self.now.inside }
    {
        self.inside.first()
    }
}
