//! The counters of a runtime.

ghost use Rattle.std.specs.Prelude.{◌≡◌};
ghost use Rattle.ame_protocol.specs.Event.Counting.{nothing_counted};

/// Counts the events of an engine by their kinds. The first eleven counts are its turns.
#[derive(Clone, Copy, PartialEq, Eq, Debug)]
pub struct Counters {
    pub begins: u32,
    pub reads: u32,
    pub writes: u32,
    /// Writes that met a cell of another seat.
    pub conflicts: u32,
    pub allocs: u32,
    pub checks: u32,
    pub commits: u32,
    pub blocks: u32,
    pub talls: u32,
    /// Undos before a stop is kept.
    pub undos: u32,
    pub frees: u32,
    /// Answers that a read isn't valid, whatever was asked.
    pub invalids: u32,
    /// Undos after a stop. They are no turns, and the count stays at its last value.
    pub unwound: u32,
}

impl Counters {
    /// Returns counters at zero.
    pub fn new() -> Counters
        ensures { result ≡ nothing_counted }
    {
        Counters {
            begins: 0,
            reads: 0,
            writes: 0,
            conflicts: 0,
            allocs: 0,
            checks: 0,
            commits: 0,
            blocks: 0,
            talls: 0,
            undos: 0,
            frees: 0,
            invalids: 0,
            unwound: 0,
        }
    }
}
