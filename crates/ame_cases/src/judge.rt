//! The comparison of what a call gave with what it must give.

use crate::call::report_of;
use crate::case::{Case, Fact};
use crate::device::{Boxed, Kind};
use crate::failing::{FailsAt, Tape};
use crate::fault::Fault;
use crate::own_ends::Watch;
use crate::told::{CaseReport, told};
use ame_device::{Adder, Counter};
use ame_worker::{Gate, NoGate};
use std::sync::Wait;
use std::thread::Threads;

/// Runs a case with each number of workers that it lists, and returns whether all was as it must be. The workers come all at once, if a
/// gate could hold one, and once more after one that leads.
pub fn is_as_told<R>(rt: &R, case: &Case) -> Result<bool, Fault>
where
    R: Print + AllocGlobal + Threads + Wait + Sync,
{
    if case.workers.is_empty() {
        return is_call_as_told(rt, case, None, &NoGate);
    }
    let mut is_right = true;
    for workers in &case.workers {
        let workers = Some(workers.as_str());
        is_right = is_call_as_told(rt, case, workers, &Watch)? && is_right;
        is_right = is_call_as_told(rt, case, workers, &NoGate)? && is_right;
    }
    Ok(is_right)
}

/// Runs a case once, with a gate, and returns whether all was as it must be.
pub fn is_call_as_told<R, G>(
    rt: &R,
    case: &Case,
    workers: Option<&str>,
    gate: &G,
) -> Result<bool, Fault>
where
    R: Print + AllocGlobal + Threads + Wait + Sync,
    G: Gate + Sync,
{
    let alloc = rt.alloc();
    let mut boxes: Vec<Boxed> = Vec::new(alloc);
    for kind in &case.devices {
        boxes.push(match kind {
            Kind::Counts => Box::new(alloc, Counter::new(alloc))?,
            Kind::Adds => Box::new(alloc, Adder::new(alloc))?,
            Kind::FailsAt(call) => Box::new(alloc, FailsAt::new(alloc, *call))?,
            Kind::Answers(answers) => {
                Box::new(alloc, Tape::new(alloc, Vec::from_slice(alloc, answers)?))?
            }
        })?;
    }
    let report = report_of(rt, case, workers, boxes, gate)?;
    are_facts_as_told(rt, case, workers, &report)
}

/// Returns whether all facts for which a case asks are as they must be.
pub fn are_facts_as_told<R: Print + AllocGlobal>(
    rt: &R,
    case: &Case,
    workers: Option<&str>,
    report: &CaseReport,
) -> Result<bool, Fault> {
    let is_alone = matches!(workers, None | Some("1"));
    let mut is_right = true;
    for fact in &case.facts {
        if is_alone || !fact.field.is_of_one_worker() {
            let given = told(rt.alloc(), case, report, fact.field, is_alone)?;
            is_right = is_same(rt, fact, workers, &given)? && is_right;
        }
    }
    Ok(is_right)
}

/// Returns whether what a call gave is this. If it isn't, prints both.
fn is_same<R: Print>(
    rt: &R,
    fact: &Fact,
    workers: Option<&str>,
    given: &String,
) -> Result<bool, Fault> {
    let wanted = fact.lines.as_str();
    if given.as_str() == wanted {
        return Ok(true);
    }
    let key = fact.field.key();
    if let Some(workers) = workers {
        println!(rt; "with {workers} workers:")?;
    }
    print!(rt; "{key} that is wanted:\n{wanted}{key} that is given:\n{given}")?;
    Ok(false)
}
