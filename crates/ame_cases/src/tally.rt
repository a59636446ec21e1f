//! The numbers of cases that came out as they must, and of others.

/// Counts the cases that came out as they must, and those that didn't.
#[derive(Clone, Copy)]
pub struct Tally {
    pub right: u64,
    pub wrong: u64,
}

impl Tally {
    pub fn new() -> Tally {
        Tally { right: 0, wrong: 0 }
    }

    /// Counts one case.
    pub fn of(is_right: bool) -> Tally {
        if is_right {
            Tally { right: 1, wrong: 0 }
        } else {
            Tally { right: 0, wrong: 1 }
        }
    }

    pub fn add(&mut self, other: Tally) {
        self.right = self.right.saturating_add(other.right);
        self.wrong = self.wrong.saturating_add(other.wrong);
    }
}
