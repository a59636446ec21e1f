//! The parts of a state that is passed from seat to seat.
ghost use Rattle.std.specs.Prelude.{ℕ, List};

/// The most seats that may share a state.
pub const SEAT_LIMIT: u32 = 32;

/// A shared state with a row for each seat and a list of entries, each of one seat.
pub trait Rowed {
    /// The part that never changes from the opening on.
    type Fixed;
    /// The row that the state keeps for one seat.
    type Row;
    /// One thing that a seat did.
    type Entry;

    /// The state stands for this fixed part, this row of each seat and these entries.
    ghost stands_for: { Self → Self.Fixed → List Self.Row → List Self.Entry → Type 0 };

    /// The fixed part of a state that is about to be shared.
    ghost opening: { Self → Self.Fixed };

    /// The number of seats that share a state with this fixed part.
    ghost seats_in: { Self.Fixed → ℕ };

    /// The row of a seat that did nothing.
    ghost empty_row: { Self.Row };

    /// The number of the seat that made the entry.
    ghost seat_of: { Self.Entry → ℕ };
}

/// Which rows a seat may leave when it gives the turn away. It says what the state itself doesn't
/// show.
pub trait Leaves<R> {
    ghost leaves: { R → Type 0 };
}

/// Any row, if the state itself shows it whole.
pub struct AnyRow;

impl<R> Leaves<R> for AnyRow {
    ghost use Rattle.std.specs.Prelude.{⊤};

    ghost leaves = { λ row. ⊤ };
}
