//! Bounds of numbers.

/// The least and the greatest number that may stand in a place.
#[derive(Clone, Copy, Debug, PartialEq, Eq)]
pub struct Bounds {
    pub least: u32,
    pub most: u32,
}
