//! The fields for which a case may ask.

/// A kind of fact about a call.
#[derive(Clone, Copy, PartialEq, Eq, Debug)]
pub enum Field {
    /// The status of the process.
    Status,
    /// Shows what was written.
    Lines,
    /// Shows what was written, and a line feed.
    Written,
    /// Says whether a run was begun.
    Run,
    /// From how many entries it went on.
    Resumed,
    Journal,
    /// Shows the result of the strong semantics by the journal.
    Replay,
    /// Says whether the run left the result of the strong semantics by the journal.
    Agrees,
    /// Shows the committed output.
    Output,
    /// Counts the turns, if no seat was in another's way.
    Turns,
    /// The undos after the stop.
    Unwound,
    /// The number, the steps and the new locations of each member that is blocked.
    Certificates,
    /// The location and the value of each live cell.
    Cells,
    /// Shows the calls of each device with its answers.
    Heard,
    /// Shows the effect of each pick of a run on one thread.
    Picks,
    /// Counts the names of the program.
    Names,
    /// Counts the types of locations of the program.
    Types,
}

/// The keys.
const KEYS: &[(&str, Field)] = &[
    ("status", Field::Status),
    ("lines", Field::Lines),
    ("written", Field::Written),
    ("run", Field::Run),
    ("resumed", Field::Resumed),
    ("journal", Field::Journal),
    ("replay", Field::Replay),
    ("agrees", Field::Agrees),
    ("output", Field::Output),
    ("turns", Field::Turns),
    ("unwound", Field::Unwound),
    ("certificates", Field::Certificates),
    ("cells", Field::Cells),
    ("heard", Field::Heard),
    ("picks", Field::Picks),
    ("names", Field::Names),
    ("types", Field::Types),
];

impl Field {
    /// Returns the field with a key.
    pub fn of(key: &str) -> Option<Field> {
        for (name, field) in KEYS {
            if *name == key {
                return Some(*field);
            }
        }
        None
    }

    /// Returns the key of a field.
    pub fn key(self) -> &'static str {
        for (name, field) in KEYS {
            if *field == self {
                return name;
            }
        }
        ""
    }

    /// Returns whether a case asks it of one worker only.
    pub fn is_of_one_worker(self) -> bool {
        matches!(self, Field::Turns | Field::Unwound)
    }
}
