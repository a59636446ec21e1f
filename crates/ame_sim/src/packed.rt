//! A list of picks with their outcomes, in little memory.

ghost use Rattle.std.specs.Prelude.{◌≡◌, ◌<◌, ◌++◌, ◌∷◌, [], true, length, OnOk};
ghost use Rattle.std.specs.Iterator.{YieldsFirst, item_count};
ghost use Rattle.ame_sim.specs.Picks.{is_waited as has_waited, picks_of};
ghost use Rattle.ame_sim.specs.Woven.{WaitsPlainly, waited_at};
ghost use Rattle.ame_shell.specs.declared.work.Outcome.{Outcome as Done};

use crate::made::Made;
use crate::picked::Picked;
use ame_shell::Outcome;
use ame_term::NoMemory;
use std::alloc::Global;
use std::marker::Model;

/// Keeps picks with their outcomes, in order. A pick that found nothing to do takes 2 bytes, any other 66. Contracts see the list,
/// and whether there is room for one more.
#[derive(Drop)]
pub struct PackedMades {
    picks: Vec<Picked>,
    mades: Vec<Made>,
}

impl Model for PackedMades {
    ghost use Rattle.std.specs.Prelude.{◌&&◌, nat_lt, vec_len, vec_capacity};
    ghost use Rattle.ame_sim.specs.Woven.{AreOfPicks, MadesView, woven};

    ghost Value = { MadesView };

    ghost view = { λ m. record {
      items = woven m.picks.items m.mades.items;
      has_room = nat_lt (vec_len m.picks) (vec_capacity m.picks) && nat_lt (vec_len m.mades) (vec_capacity m.mades);
    } };

    ghost invariant = { λ m. AreOfPicks m.picks.items m.mades.items };
}

/// Returns whether a seat has to wait, by the outcome of its pick.
pub(crate) fn is_waited(outcome: Outcome) -> bool
    ensures { result ≡ has_waited outcome }
{
    matches!(outcome, Outcome::Waited)
}

/// Returns a pick of this seat that found nothing to do.
fn waited_at(seat: u8) -> Made
    ensures { result ≡ waited_at seat }
{
    Made {
        seat: u32::from(seat),
        member: None,
        outcome: Outcome::Waited,
        place: None,
    }
}

impl PackedMades {
    /// Makes a list without picks.
    pub(crate) fn new(alloc: Global) -> PackedMades
        ensures { result.items ≡ [] }
    {
        PackedMades {
            picks: Vec::new(alloc),
            mades: Vec::new(alloc),
        }
    }

    /// Makes room for one more pick.
    pub(crate) fn make_room(&mut self) -> Result<(), NoMemory>
        ensures room { OnOk result (self.new.has_room ≡ true) }
        ensures same { self.new.items ≡ self.old.items }
    {
        self.picks.reserve(1)?;
        self.mades.reserve(1)?;
        Ok(())
    }

    /// Appends a pick with its outcome, in the reserved room.
    pub(crate) fn push_reserved(&mut self, made: Made)
        requires room { self.old.has_room ≡ true }
        requires seat { made.seat < 256 }
        requires plain { WaitsPlainly made }
        ensures { self.new.items ≡ self.old.items ++ made ∷ [] }
    {
        let waited = is_waited(made.outcome);
        self.picks.push_reserved(Picked {
            seat: made.seat as u8,
            waited,
        });
        if !waited {
            self.mades.push_reserved(made);
        }
    }

    /// Returns the number of picks.
    pub fn len(&self) -> usize
        ensures { result ≡ length self.now.items }
    {
        self.picks.len()
    }

    /// Returns the picks.
    pub fn picks(&self) -> &[Picked]
        ensures { result.now ≡ picks_of self.now.items }
    {
        &self.picks
    }

    /// Returns the picks with their outcomes, in order.
    pub fn iter(&self) -> MadesIter<'_>
        ensures { result ≡ self.now.items }
    {
        MadesIter {
            picks: &self.picks,
            mades: &self.mades,
        }
    }
}

/// Yields picks with their outcomes, in order. Contracts see those that are left.
#[derive(Drop)]
pub struct MadesIter<'a> {
    picks: &'a [Picked],
    mades: &'a [Made],
}

impl<'a> Model for MadesIter<'a> {
    ghost use Rattle.std.specs.Prelude.{List};
    ghost use Rattle.ame_sim.specs.declared.made.Made.{Made};
    ghost use Rattle.ame_sim.specs.Woven.{woven};

    ghost Value = { List Made };

    ghost view = { λ it. woven it.picks.now it.mades.now };
}

impl<'a> Iterator for MadesIter<'a> {
    type Item = Made;

    ghost next_gives = { YieldsFirst (λ it. it) };

    ghost remaining = { item_count (λ it. it) };

    fn next(&mut self) -> Option<Made> {
        let (pick, picks) = self.picks.split_first()?;
        if pick.waited {
            self.picks = picks;
            return Some(waited_at(pick.seat));
        }
        let (made, mades) = self.mades.split_first()?;
        self.picks = picks;
        self.mades = mades;
        Some(*made)
    }
}
