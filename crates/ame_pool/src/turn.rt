//! The turns of a member.

ghost use Rattle.std.specs.Prelude.{◌≡◌};
ghost use Rattle.ame_pool.specs.Turns.{after_transition, is_readied};

use crate::member::Member;
use ame_term::{Loc, Locs};

/// A turn of a member.
#[derive(Drop)]
pub enum Transition<M> {
    /// A seat runs it.
    Begin,
    /// It is ready again, and perhaps it was rolled back.
    Home(bool),
    /// It is ready with another machine, perhaps inside `unprotected`.
    Renew(M, bool),
    /// It is noted as stuck on these locations.
    Watch(Locs),
    /// It is parked, or ready if its watch was touched.
    Settle,
    /// A location was written.
    Stir(Loc),
}

/// The result of a turn: whether it made its member ready, and the machine that another one replaced.
#[derive(Drop)]
pub struct Left<M> {
    pub is_readied: bool,
    pub machine: Option<M>,
}

/// Returns what a turn leaves that put no machine in place of another.
fn kept<M>(is_readied: bool) -> Left<M>
    ensures { result.is_readied ≡ is_readied }
{
    Left {
        is_readied,
        machine: None,
    }
}

impl<M: Drop> Member<M> {
    /// Makes a turn, and returns what it leaves.
    pub fn turn(&mut self, to: Transition<M>) -> Left<M>
        ensures member { self.new ≡ after_transition to self.old }
        ensures readied { result.is_readied ≡ is_readied to self.old }
    {
        match to {
            Transition::Begin => {
                self.begin();
                kept(false)
            }
            Transition::Home(rolled_back) => {
                self.go_home(rolled_back);
                kept(true)
            }
            Transition::Renew(machine, inside) => {
                let before = self.renew(machine, inside);
                Left {
                    is_readied: true,
                    machine: Some(before),
                }
            }
            Transition::Watch(locs) => {
                self.watch(locs);
                kept(false)
            }
            Transition::Settle => kept(self.settle()),
            Transition::Stir(l) => kept(self.stir(l)),
        }
    }
}
