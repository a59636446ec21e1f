//! The sign of a seat.
ghost use Rattle.std.specs.Prelude.{◌≡◌, ◌<◌, MatchOption};
ghost use Rattle.ame_sim.specs.Schedule.{sign, IsNoSign, IsSignOf};

/// Returns the sign that stands for a seat.
pub fn sign_of(seat: u32) -> u8
    requires { seat < 32 }
    ensures { result ≡ sign seat }
{
    if seat < 10 {
        b'0' + seat as u8
    } else {
        b'a' + (seat as u8 - 10)
    }
}

/// Returns the seat that a sign stands for.
pub fn seat_of(byte: u8) -> Option<u32>
    ensures { MatchOption result (IsNoSign byte) (IsSignOf byte) }
{
    match byte {
        b'0'..=b'9' => Some(u32::from(byte - b'0')),
        b'a'..=b'v' => Some(u32::from(byte - b'a') + 10),
        _ => None,
    }
}
