//! A device that is handed in is handed back, and dropped once, and not before the report is.

ghost use Rattle.std.specs.Prelude.{None};
ghost use Rattle.ame_device.specs.Calls.{told};
ghost use Rattle.ame_device.specs.declared.told.DeviceKind.{DeviceKind};

use crate::call::report_of;
use crate::case::{Case, cases_of};
use crate::device::Boxed;
use crate::fault::Fault;
use ame_device::{Device, DeviceFail, Heard};
use ame_worker::NoGate;
use std::sync::atomic::{AtomicU32, Ordering};
use std::sync::{Arc, Wait};
use std::thread::Threads;

/// One worker, several, and words that begin no run.
const CASES: &str = "\
case one worker
words run
program (unprotected (print (call 0 5)))
status 0

case several workers
words run --workers 4
program (unprotected (print (call 0 5)))
status 0

case no run
words help
status 3
";

/// Answers its argument, and counts how often one of its kind was dropped.
struct CountsDrops(Arc<AtomicU32>);

impl Drop for CountsDrops {
    fn drop(self) {
        self.0.fetch_add(1, Ordering::SeqCst);
        let CountsDrops(_) = self;
    }
}

impl Device for CountsDrops {
    ghost device_told = { λ device. told DeviceKind.Other None 0 };

    fn call(&mut self, argument: i64) -> Result<i64, DeviceFail> {
        Ok(argument)
    }

    fn heard(&self) -> Option<&[Heard]> {
        None
    }
}

/// Returns whether a call drops its device once, with the report.
fn is_dropped_once<R>(rt: &R, case: &Case) -> Result<bool, Fault>
where
    R: AllocGlobal + Threads + Wait + Sync,
{
    let alloc = rt.alloc();
    let drops = Arc::new(alloc, AtomicU32::new(0))?;
    let mut boxes: Vec<Boxed> = Vec::new(alloc);
    boxes.push(Box::new(alloc, CountsDrops(drops.clone()?))?)?;
    let report = report_of(rt, case, None, boxes, &NoGate)?;
    let is_kept = report.devices.len() == 1 && drops.load(Ordering::SeqCst) == 0;
    drop(report);
    Ok(is_kept && drops.load(Ordering::SeqCst) == 1)
}

/// Returns whether each call drops its device once, with the report.
pub fn devices_are_dropped_once<R>(rt: &R) -> Result<bool, Fault>
where
    R: AllocGlobal + Threads + Wait + Sync,
{
    let mut is_right = true;
    for case in &cases_of(rt.alloc(), CASES)? {
        is_right = is_dropped_once(rt, case)? && is_right;
    }
    Ok(is_right)
}
