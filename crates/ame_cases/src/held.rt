//! Two workers are inside fragments at the same time: a gate holds each of them until the other one has come so far. A body that
//! runs one worker after another doesn't come through. So it is from the beginning, and after one has led.

use crate::case::cases_of;
use crate::fault::Fault;
use crate::judge::is_call_as_told;
use ame_worker::{Gate, Point};
use std::sync::Wait;
use std::sync::atomic::{AtomicBool, AtomicU32, Ordering};
use std::thread::{self, Threads};

/// The second fragment is committed while the first one is held.
const CASE: &str = "\
case the second fragment commits while the first is held
words run
program (do (async (print 1)) (async (print 2)))
status 0
lines
    2
    1
    finished
";

/// A program in which the worker that leads has made many steps of the first fragment before the other worker comes.
const LED: &str = "\
case the second fragment commits while the one that was led is held
words run --slice 200
program (do (async (do (app (rec p f (n Int) Unit (if (= n 0) unit (app f (- n 1)))) 500) (print 1))) (async (print 2)))
status 0
lines
    2
    1
    finished
";

/// For how many looks a worker is held at most.
const LOOKS: u32 = 20_000_000;

/// Records who passed a point: 0 for no seat, or one more than the number of the seat.
#[derive(Drop)]
struct Passed(AtomicU32);

impl Passed {
    fn by_nobody() -> Passed {
        Passed(AtomicU32::new(0))
    }

    /// Records that a seat passes.
    fn note(&self, seat: u32) {
        self.0.store(seat.saturating_add(1), Ordering::SeqCst);
    }

    fn by_anybody(&self) -> bool {
        self.0.load(Ordering::SeqCst) != 0
    }

    /// Returns whether another seat than this one passed.
    fn by_another_than(&self, seat: u32) -> bool {
        let who = self.0.load(Ordering::SeqCst);
        who != 0 && who != seat.saturating_add(1)
    }
}

/// Holds the seat that is inside member 1 until another one has begun member 2 and committed it, and the seat that began member 2
/// until another one is inside member 1.
#[derive(Drop)]
struct HoldsTwo {
    /// Says whether one worker leads first. It has made a slice of member 1 then, so that it is held at the next one.
    is_led: bool,
    stepped: Passed,
    inside_first: Passed,
    began_second: Passed,
    ran_second: Passed,
    gave_up: AtomicBool,
}

impl HoldsTwo {
    fn new(is_led: bool) -> HoldsTwo {
        HoldsTwo {
            is_led,
            stepped: Passed::by_nobody(),
            inside_first: Passed::by_nobody(),
            began_second: Passed::by_nobody(),
            ran_second: Passed::by_nobody(),
            gave_up: AtomicBool::new(false),
        }
    }

    /// Holds a seat until another one has passed the point.
    fn hold(&self, seat: u32, until: &Passed) {
        for _ in 0..LOOKS {
            if until.by_another_than(seat) {
                return;
            }
            thread::yield_now();
        }
        self.gave_up.store(true, Ordering::SeqCst);
    }

    /// Holds a seat that is inside member 1.
    fn hold_first(&self, seat: u32) {
        self.inside_first.note(seat);
        self.hold(seat, &self.ran_second);
    }

    /// Returns whether all points were passed, and no seat waited in vain.
    fn held(&self) -> bool {
        self.inside_first.by_anybody()
            && self.began_second.by_anybody()
            && self.ran_second.by_anybody()
            && !self.gave_up.load(Ordering::SeqCst)
    }
}

impl Gate for HoldsTwo {
    fn pass(&self, seat: u32, point: Point) {
        match point {
            Point::Began(1) if !self.is_led => self.hold_first(seat),
            Point::Stepped if self.is_led && self.stepped.by_anybody() => self.hold_first(seat),
            Point::Stepped => self.stepped.note(seat),
            Point::Began(2) => {
                self.began_second.note(seat);
                self.hold(seat, &self.inside_first);
            }
            Point::Ran(2) => self.ran_second.note(seat),
            _ => {}
        }
    }

    fn may_hold(&self) -> bool {
        !self.is_led
    }
}

/// Returns whether two workers are inside fragments at the same time in the cases of a text.
fn are_two_inside<R>(rt: &R, text: &str, is_led: bool) -> Result<bool, Fault>
where
    R: Print + AllocGlobal + Threads + Wait + Sync,
{
    let gate = HoldsTwo::new(is_led);
    let mut is_right = true;
    for case in &cases_of(rt.alloc(), text)? {
        is_right = is_call_as_told(rt, case, Some("2"), &gate)? && is_right;
    }
    Ok(is_right && gate.held())
}

/// Returns whether two workers are inside fragments at the same time.
pub fn two_are_inside<R>(rt: &R) -> Result<bool, Fault>
where
    R: Print + AllocGlobal + Threads + Wait + Sync,
{
    are_two_inside(rt, CASE, false)
}

/// Returns whether two workers are inside fragments at the same time after one has led.
pub fn two_are_inside_once_led<R>(rt: &R) -> Result<bool, Fault>
where
    R: Print + AllocGlobal + Threads + Wait + Sync,
{
    are_two_inside(rt, LED, true)
}
