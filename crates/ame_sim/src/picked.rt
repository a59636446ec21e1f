//! A pick.

/// A pick, as far as it decides which seats may be picked next: its seat, and whether the seat found nothing to do and has to wait.
#[derive(Clone, Copy, PartialEq, Eq, Debug)]
pub struct Picked {
    pub seat: u8,
    pub waited: bool,
}
