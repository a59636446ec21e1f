//! The book of a run: what each pick did, and so which seats may be picked next.

ghost use Rattle.std.specs.Prelude.{◌≡◌, ◌<◌, ◌++◌, ◌∷◌, [], false, true, length, IfOk, OnOk, replicate};
ghost use Rattle.ame_sim.specs.Questions.{waits_after};
ghost use Rattle.ame_sim.specs.Picks.{picked_by};
ghost use Rattle.ame_sim.specs.Woven.{WaitsPlainly};

use crate::made::Made;
use crate::packed::{PackedMades, is_waited};
use crate::waits::WaitFlags;
use ame_term::NoMemory;
use std::alloc::Global;

/// Records what each pick did, and which of the seats wait.
#[derive(Drop)]
pub struct Book {
    pub waits: WaitFlags,
    pub mades: PackedMades,
}

impl Book {
    /// Opens the book of a run by this number of seats, before the first pick.
    pub fn new(alloc: Global, seats: u32) -> Result<Book, NoMemory>
        ensures waits { IfOk result (λ book. book.waits ≡ replicate seats false) }
        ensures none { IfOk result (λ book. book.mades.items ≡ []) }
    {
        Ok(Book {
            waits: WaitFlags::new(alloc, seats)?,
            mades: PackedMades::new(alloc),
        })
    }

    /// Makes room for one more pick.
    pub fn make_room(&mut self) -> Result<(), NoMemory>
        ensures room { OnOk result (self.new.mades.has_room ≡ true) }
        ensures waits { self.new.waits ≡ self.old.waits }
        ensures same { self.new.mades.items ≡ self.old.mades.items }
    {
        self.mades.make_room()
    }

    /// Notes what a pick did, in the reserved room.
    pub fn note(&mut self, made: Made)
        requires room { self.old.mades.has_room ≡ true }
        requires byte { made.seat < 256 }
        requires plain { WaitsPlainly made }
        requires seat { made.seat < length self.old.waits }
        ensures waits { self.new.waits ≡ waits_after self.old.waits (picked_by made) }
        ensures noted { self.new.mades.items ≡ self.old.mades.items ++ made ∷ [] }
    {
        if is_waited(made.outcome) {
            self.waits.wait(made.seat);
        } else {
            self.waits.go_on();
        }
        self.mades.push_reserved(made);
    }
}
