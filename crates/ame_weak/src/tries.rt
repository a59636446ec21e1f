//! Attempts that left no entry.

use ame_journal::Certificate;

/// An attempt to run a fragment on a copy, while nothing was active after the first `after` labels. If it is
/// failing, it came to a false condition; otherwise it was cut off.
#[derive(Drop)]
pub struct Try {
    pub after: u64,
    pub certificate: Certificate,
    pub failing: bool,
}
