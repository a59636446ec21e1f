//! The calls of `ame` for programs in C: a static library.
#![tactic(auto)]

mod call_result;
mod checked;
mod lines;
mod memory_sink;
mod out;
mod place;
mod typed;
mod whole;

ghost use Rattle.std.specs.Prelude.{◌≡◌, []};
ghost use Rattle.ame_app.specs.declared.alone.Alone.{Alone as Asked};
ghost use Rattle.ame_c.specs.Checked.{AnswersCheck};
ghost use Rattle.ame_c.specs.CallResult.{AnswersRun, AnswersWeak, options_of, texts};
ghost use Rattle.ame_c.specs.Typed.{AnswersTypes};
ghost use Rattle.ame_c.specs.Version.{version};

use crate::call_result::made_by;
use crate::checked::answer_of;
use crate::out::{hand_out, tell};
use crate::place::rule_of;
use crate::typed::typed;
pub use crate::whole::{RunLimits, Whole};
use ame_app::Alone;
use std::alloc::Global;

/// Judges a certificate as `ame check` does. Writes the lines into the caller's room as far as they fit, the number of the last line
/// (0 if it has none), and how many bytes the lines have in all. Returns the number of the status. Keeps nothing.
#[unsafe(no_mangle)]
pub extern "C" fn ame_check(
    alloc: Global,
    certificate: &[u8],
    room: &mut [u8],
    number: &mut u64,
    whole: &mut usize,
) -> u8
    ensures { AnswersCheck certificate.now room.old result room.new number.new whole.new }
{
    let answer = answer_of(alloc, certificate);
    hand_out(answer.lines.as_bytes(), room, whole);
    tell(&answer.told, number)
}

/// Reads a text and checks its types. Returns 0 for a program that the types accept, and otherwise the number of the status with which `ame`
/// ends. Writes the rule that the text breaks (0 if none) and the place of the fault. Keeps nothing.
#[unsafe(no_mangle)]
pub extern "C" fn ame_types(alloc: Global, text: &[u8], rule: &mut u8, place: &mut u64) -> u8
    ensures { AnswersTypes text.now result rule.new place.new }
{
    match typed(alloc, text) {
        Ok(()) => {
            *rule = 0;
            *place = 0;
            0
        }
        Err(told) => {
            *rule = rule_of(&told);
            tell(&told, place)
        }
    }
}

/// Runs a program as `ame sim` does. Writes its lines, its certificate, and its schedule with the program, each as far as there is room, and
/// how long each is. Returns the number of the status. Keeps nothing.
#[unsafe(no_mangle)]
pub extern "C" fn ame_sim(
    alloc: Global,
    text: &[u8],
    seed: u32,
    limits: &RunLimits,
    lines: &mut [u8],
    certificate: &mut [u8],
    schedule: &mut [u8],
    whole: &mut Whole,
) -> u8
    ensures { AnswersRun (Asked.Sim seed (options_of limits.now)) text.now (texts lines.old certificate.old schedule.old)
        (texts lines.new certificate.new schedule.new) result whole.new }
{
    let made = made_by(alloc, Alone::Sim(seed, limits.options()), text);
    made.hand_out(lines, certificate, schedule, whole)
}

/// Runs a program again as `ame replay` does: the bytes are a schedule with its program, as `ame_sim` writes them. Hands out the same as
/// `ame_sim`. Keeps nothing.
#[unsafe(no_mangle)]
pub extern "C" fn ame_replay(
    alloc: Global,
    scheduled: &[u8],
    limits: &RunLimits,
    lines: &mut [u8],
    certificate: &mut [u8],
    schedule: &mut [u8],
    whole: &mut Whole,
) -> u8
    ensures { AnswersRun (Asked.Replay (options_of limits.now)) scheduled.now (texts lines.old certificate.old schedule.old)
        (texts lines.new certificate.new schedule.new) result whole.new }
{
    let made = made_by(alloc, Alone::Replay(limits.options()), scheduled);
    made.hand_out(lines, certificate, schedule, whole)
}

/// Runs a program as `ame weak` does, with a limit of turns. Hands out lines and certificate as `ame_sim` does; there is no schedule. Keeps
/// nothing.
#[unsafe(no_mangle)]
pub extern "C" fn ame_weak(
    alloc: Global,
    text: &[u8],
    seed: u32,
    turns: u32,
    lines: &mut [u8],
    certificate: &mut [u8],
    whole: &mut Whole,
) -> u8
    ensures { AnswersWeak (Asked.Weak seed turns) text.now (texts lines.old certificate.old []) (texts lines.new certificate.new []) result whole.new }
{
    let made = made_by(alloc, Alone::Weak(seed, turns), text);
    hand_out(made.lines.as_bytes(), lines, &mut whole.lines);
    hand_out(&made.certificate, certificate, &mut whole.certificate);
    whole.schedule = 0;
    tell(&made.told, &mut whole.number)
}

/// Returns the version of these functions. It grows by one with each change that a caller could notice.
#[unsafe(no_mangle)]
pub extern "C" fn ame_version() -> u32
    ensures { result ≡ version }
{
    2
}
