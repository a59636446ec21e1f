//! The remains of a run.

use crate::io::Io;
use ame_device::Device;
use ame_engine::Ended;
use ame_io::Sink;

/// The remains of a run: its engine's end, its sink and its devices.
#[derive(Drop)]
pub struct Remains<V, K: Sink, D: Device> {
    pub ended: Ended<V>,
    pub io: Io<K, D>,
}
