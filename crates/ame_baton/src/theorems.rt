//! Theorems: promises of this crate that nothing above it cites, each the statement of a lemma.

ghost use Rattle.ame_baton.specs.declared.view.Knows.{Knows};
ghost use Rattle.ame_baton.specs.Seats.{Takes, Gives, HasEnded};
ghost use Rattle.ame_baton.specs.Keeping.{FindsAsLeft, HasGiven, IsLeftOrEmpty};
ghost use Rattle.std.specs.Prelude.{◌≡◌, ℕ, List, Option, Some, slice_get};
ghost use Rattle.ame_baton.specs.declared.view.LastSeen.{LastSeen};

use crate::state::{Leaves, Rowed};

/// Says that a seat that takes the turn finds its row and its entries as it left them.
pub fn take_finds_what_was_left<S: Rowed>()
    ensures { (before after : Knows S.Fixed S.Row S.Entry) (state : S)
        → Takes S.stands_for S.seat_of before state after → FindsAsLeft S.seat_of before after }
{}

/// Says that a seat that gives the turn leaves a row that it may leave, and new entries of its own.
pub fn give_leaves_row_and_entries<S: Rowed, M: Leaves<S::Row>>()
    ensures { (before after : Knows S.Fixed S.Row S.Entry) (state : S)
        → Gives S.stands_for S.seat_of M.leaves before state after → HasGiven S.seat_of M.leaves before after }
{}

/// Says that at the end each row is the one that a seat left, or the empty one.
pub fn rows_at_the_end_were_left<S: Rowed>()
    ensures { (fixed : Option S.Fixed) (seats : List (LastSeen S.Row S.Entry)) (state : S)
        → (ends : HasEnded S.stands_for S.empty_row S.seat_of fixed seats state) (n : ℕ) (row : S.Row)
        → slice_get ends.rows n ≡ Some row → IsLeftOrEmpty S.empty_row seats n row }
{}
