//! Facts about the transfers and the text. Each is for proofs, and does nothing.
ghost use Rattle.std.specs.Prelude.{◌≡◌, ◌≤◌, ◌<◌, ◌*◌, ◌+◌, ℕ, All, [], ◌∷◌, length, map, sum, sum_by};
ghost use Rattle.ame_gen.specs.Transfers.{accounts, transfers, IsTransfer};
ghost use Rattle.ame_gen.specs.Balances.{initial_balance, paid_out, balance};
ghost use Rattle.ame_gen.specs.Template.{program_text};
ghost use Rattle.ame_gen.specs.declared.text.TheConstants.{SIZE_LIMIT};

/// States that each transfer is between two of the eight accounts, and moves 1 to 9.
pub fn transfers_are_valid()
    ensures { (seed size : ℕ) → All IsTransfer (transfers seed size) }
{}

/// States that an account pays in all at most what it has at the beginning. So it never lacks money, in whatever
/// order the transfers are made.
pub fn money_suffices()
    ensures { (seed size account : ℕ) → sum_by (paid_out account) (transfers seed size) ≤ initial_balance size }
{}

/// States that all accounts together have at the end what they had at the beginning.
pub fn money_stays()
    ensures { (seed size : ℕ) → sum (map (balance seed size) accounts) ≡ 8 * initial_balance size }
{}

/// States what the eight accounts have at the end, for seed 1 and two transfers.
pub fn first_balances()
    ensures { map (balance 1 2) accounts ≡ 18 ∷ 21 ∷ 18 ∷ 25 ∷ 11 ∷ 15 ∷ 18 ∷ 18 ∷ [] }
{}

/// States that the text has 123 bytes for each transfer, and at most 393 more.
pub fn length_is_linear()
    ensures { (seed size : ℕ) → size ≤ SIZE_LIMIT → length (program_text seed size) ≤ 123 * size + 393 }
{}
