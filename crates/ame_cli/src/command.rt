//! Commands and their options.
ghost use Rattle.std.specs.Prelude.{◌≡◌};

use crate::item::Item;
use std::alloc::AllocError;

/// The limits of a run: the number of workers, the most turns that are made, and the most reductions that a
/// worker makes between two events.
#[derive(Clone, Copy, Debug, PartialEq, Eq)]
pub struct Options {
    pub workers: u32,
    pub turns: u32,
    pub slice: u32,
}

impl Default for Options {
    ghost use Rattle.ame_cli.specs.Grammar.{defaults};

    fn default() -> Options
        ensures { result ≡ defaults }
    {
        Options {
            workers: Item::Workers.default(),
            turns: Item::Turns.default(),
            slice: Item::Slice.default(),
        }
    }
}

/// A command.
#[derive(Clone, Copy, Debug, PartialEq, Eq)]
pub enum Command {
    /// Runs the program on the standard input.
    Run(Options),
    /// Runs the generated program of this seed and size.
    Bench(u32, u32, Options),
    /// Runs the program on the standard input on one thread, under the choices of this seed.
    Sim(u32, Options),
    /// Runs the program on the standard input on one thread, under the choices of the schedule before it.
    Replay(Options),
    /// Judges the journal on the standard input by the program after it.
    Check,
    /// Goes on from the journal on the standard input with the program after it.
    Resume(Options),
    /// Runs the program on the standard input under the weak semantics by the choices of a seed, with a limit of turns.
    Weak(u32, u32),
}

/// Why words gave no command.
#[derive(Clone, Copy, Debug, PartialEq, Eq)]
pub enum CliFail {
    /// The words spell no command.
    Usage,
    NoMemory,
}

impl From<AllocError> for CliFail {
    ghost use Rattle.ame_cli.specs.declared.command.CliFail.TheVariants.{NoMemory};

    ghost from_gives = { λ _ e. e ≡ NoMemory };

    fn from(_error: AllocError) -> CliFail {
        CliFail::NoMemory
    }
}
