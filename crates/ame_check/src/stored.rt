//! Cells of a replay.

use ame_term::{Sort, TyNo};

/// A cell of a replay: its sort, the number of the `ref` form that made it, and its value.
#[derive(Drop)]
pub struct Stored<V> {
    pub sort: Sort,
    pub number: TyNo,
    pub value: V,
}
