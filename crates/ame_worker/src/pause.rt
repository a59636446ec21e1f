//! The pauses of a worker that can't go on.

use crossbeam_utils::Backoff;
use std::sync::Wait;
use std::thread::Parker;
use std::time::Duration;

/// The number of tries that a worker makes at once, before it sleeps.
const SPINS: u32 = 16;

/// The sleep of a worker that has waited in vain, in microseconds. If turns are all that there is to do, one worker by itself makes
/// them fastest. So the others should seldom come between.
const NAP: u64 = 200;

/// Waits for a moment, given how often a worker has waited since it went on: at first it keeps the processor, and then it sleeps.
pub(crate) fn pause<R: Wait>(rt: &R, backoff: &Backoff, waits: u32) {
    if waits < SPINS {
        backoff.spin();
    } else {
        Parker::new().park_timeout(rt, Duration::from_micros(NAP));
    }
}
