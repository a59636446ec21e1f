//! The options of a command.
ghost use Rattle.std.specs.Prelude.{◌≡◌};

use crate::bounds::Bounds;
use crate::limits::{SLICE_LIMIT, TURN_LIMIT, WORKER_LIMIT};

/// An option that a command may be given.
#[derive(Clone, Copy, Debug, PartialEq, Eq)]
pub enum Item {
    Workers,
    Turns,
    Slice,
}

impl Item {
    ghost use Rattle.ame_cli.specs.Items.{name_of, bounds_of, default_of};

    /// Returns the name, without hyphens.
    pub fn name(self) -> &'static str
        ensures { result.now ≡ name_of self }
    {
        match self {
            Item::Workers => "workers",
            Item::Turns => "turns",
            Item::Slice => "slice",
        }
    }

    /// Returns the least and the greatest value.
    pub fn bounds(self) -> Bounds
        ensures { result ≡ bounds_of self }
    {
        let most = match self {
            Item::Workers => WORKER_LIMIT,
            Item::Turns => TURN_LIMIT,
            Item::Slice => SLICE_LIMIT,
        };
        Bounds { least: 1, most }
    }

    /// Returns the value if the option isn't given.
    pub fn default(self) -> u32
        ensures { result ≡ default_of self }
    {
        match self {
            Item::Workers => 1,
            Item::Turns => 1_000_000,
            Item::Slice => 1_000,
        }
    }
}
