//! Theorems: promises of this crate that nothing above it cites, each the statement of a lemma.

ghost use Rattle.std.specs.Prelude.{◌≡◌, ℕ, List};
ghost use Rattle.ame_pool.specs.declared.member.Member.{Member};
ghost use Rattle.ame_pool.specs.Members.{IsRising, find};

/// Shows that rising members that are found by the same numbers are the same.
pub fn found_are_all<M>()
    ensures { (ms os : List (Member M)) → IsRising ms → IsRising os → ((n : ℕ) → find n ms ≡ find n os) → ms ≡ os }
{}
