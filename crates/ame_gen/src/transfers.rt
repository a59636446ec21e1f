//! Transfers between accounts.
ghost use Rattle.std.specs.Prelude.{◌≡◌, ◌<◌, ◌≤◌};
ghost use Rattle.ame_gen.specs.Transfers.{drawn_after, IsTransfer};
ghost use Rattle.ame_gen.specs.Stream.{next};

use crate::numbers::Numbers;

/// An amount that goes from one account to another, or to the same.
#[derive(Clone, Copy, Debug, PartialEq, Eq)]
pub struct Transfer {
    pub from: u32,
    pub to: u32,
    pub amount: u32,
}

/// Returns the transfer that the next three numbers make.
pub(crate) fn draw_transfer(numbers: &mut Numbers) -> Transfer
    ensures drawn { result ≡ drawn_after numbers.old }
    ensures after { numbers.new ≡ next (next (next numbers.old)) }
{
    Transfer {
        from: numbers.draw() % 8,
        to: numbers.draw() % 8,
        amount: numbers.draw() % 9 + 1,
    }
}
