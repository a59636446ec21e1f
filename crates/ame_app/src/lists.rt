//! Lists of picks, which contracts see as lists.

ghost use Rattle.std.specs.Prelude.{◌≡◌, ◌<◌, All, IfOk, length};
ghost use Rattle.ame_sim.specs.Picks.{picks_of};
ghost use Rattle.ame_sim.specs.Questions.{seats_of};
ghost use Rattle.ame_sim.specs.Schedule.{IsScheduled};

use ame_sim::{MadesIter, PackedMades, Picked, schedule_text};
use ame_term::{NoMemory, push};
use std::alloc::Global;
use std::marker::Model;

/// Seats, one after the other. Contracts see the list of their numbers.
#[derive(Drop)]
pub struct Picks {
    items: Vec<u32>,
}

impl Model for Picks {
    ghost use Rattle.std.specs.Prelude.{List, ℕ};

    ghost Value = { List ℕ };

    ghost view = { λ picks. picks.items.items };
}

impl Picks {
    /// Makes a list of the seats of a vector, without copying them.
    pub fn from_vec(items: Vec<u32>) -> Picks
        ensures { result ≡ items.items }
    {
        Picks { items }
    }

    /// Returns the seats, in order.
    pub fn as_slice(&self) -> &[u32]
        ensures { self.now ≡ result.now }
    {
        self.items.as_slice()
    }
}

/// A list of what picks did, each of a seat below 32. Contracts see the list.
#[derive(Drop)]
pub struct Mades {
    mades: PackedMades,
}

impl Model for Mades {
    ghost use Rattle.std.specs.Prelude.{List, ◌<◌, All};
    ghost use Rattle.ame_sim.specs.declared.made.Made.{Made as Done};

    ghost Value = { List Done };

    ghost view = { λ m. m.mades.items };

    ghost invariant = { λ m. All (λ made. made.seat < 32) m.mades.items };
}

impl Mades {
    /// Makes the list of what the picks of a run did, without copying it.
    pub fn of_run(mades: PackedMades) -> Mades
        requires { All (λ made. made.seat < 32) mades.items }
        ensures { result ≡ mades.items }
    {
        Mades { mades }
    }

    /// Returns the number of picks.
    pub fn len(&self) -> usize
        ensures { result ≡ length self.now }
    {
        self.mades.len()
    }

    /// Returns an iterator over what each pick did, in order.
    pub fn iter(&self) -> MadesIter<'_>
        ensures value { result ≡ self.now }
        ensures low { All (λ made. made.seat < 32) result }
    {
        self.mades.iter()
    }

    /// Returns the picks, in order.
    pub fn picks(&self) -> &[Picked]
        ensures value { result.now ≡ picks_of self.now }
        ensures low { All (λ pick. pick.seat < 32) result.now }
    {
        self.mades.picks()
    }

    /// Returns the schedule of these picks and the text of their program as one text, which `replay` can run.
    pub fn schedule_text(&self, alloc: Global, text: &[u8]) -> Result<Vec<u8>, NoMemory>
        ensures { IfOk result (λ bytes. IsScheduled bytes.items (seats_of (picks_of self.now)) text.now) }
    {
        let mut seats = Vec::with_capacity(alloc, self.len())?;
        for pick in self.picks() {
            push(&mut seats, u32::from(pick.seat))?;
        }
        schedule_text(alloc, &seats, text)
    }
}
