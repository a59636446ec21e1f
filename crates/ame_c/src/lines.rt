//! The lines of an answer.

ghost use Rattle.std.specs.Prelude.{◌≡◌};
ghost use Rattle.ame_app.specs.Verdict.{verdict};
ghost use Rattle.ame_c.specs.Out.{bytes_in};

use ame_app::Status;
use ame_io::Line;

/// All lines of an answer.
#[derive(Drop)]
pub enum Lines {
    Many(Vec<u8>),
    /// The last one alone, which takes no memory.
    Last(Line),
}

impl Lines {
    /// Returns the line of a status.
    pub(crate) fn of(told: &Status) -> Lines
        ensures { bytes_in result ≡ verdict told.now }
    {
        Lines::Last(told.line())
    }

    /// Returns the bytes.
    pub(crate) fn as_bytes(&self) -> &[u8]
        ensures { result.now ≡ bytes_in self.now }
    {
        match self {
            Lines::Many(bytes) => bytes,
            Lines::Last(line) => line.as_str().as_bytes(),
        }
    }
}
