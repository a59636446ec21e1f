//! The entries after which tasks began, and the forms that started them.

ghost use Rattle.std.specs.Prelude.{◌≡◌, ◌++◌, ◌∷◌, [], ℕ, List, IfErr, IfNone, IfOk, IfSome, OnOk, None, ◌+◌, drop, length, map};
ghost use Rattle.ame_journal.specs.declared.entry.Entry.{Entry};
ghost use Rattle.ame_check.specs.Judge.{IsHalted};
ghost use Rattle.ame_check.specs.Shows.{StandsForEntries};
ghost use Rattle.ame_code.specs.Code.{program_of};
ghost use Rattle.ame_code.specs.FlatCode.{FlatCode};
ghost use Rattle.ame_code.specs.declared.node.NodeNo.{NodeNo};
ghost use Rattle.ame_eval.specs.Fragments.{stage_of, IsFragmentOf};
ghost use Rattle.ame_eval.specs.Places.{BeginsAt};
ghost use Rattle.ame_code.specs.ReadNumbers.{read_numbers};
ghost use Rattle.ame_views.specs.Begun as spec;
ghost use Rattle.ame_views.specs.Faults.{HasFault};
ghost use Rattle.ame_views.specs.FragmentMeaning.{fragment_meaning};
ghost use Rattle.ame_views.specs.Lines.{lines_of};
ghost use Rattle.ame_views.specs.Starters.{starter_in, starter_of, with_starter};

use crate::line_index::LineIndex;
use crate::node_places::{node_place, position_in};
use ame_check::{Halt, Replay};
use ame_code::{Code, Node, NodeNo, Shape};
use ame_eval::Fragment;
use ame_journal::Entry;
use ame_term::NoMemory;
use ame_why::Position;
use std::alloc::Global;
use std::collections::BTreeMap;

/// The end of a replay, by their numbers the nodes at which fragments began, which entry started each of them, from fragment 1 on, and the
/// lines that each entry printed.
#[derive(Drop)]
pub(crate) struct Led {
    pub(crate) replay: Replay<Fragment>,
    pub(crate) begun: BTreeMap<u64, NodeNo>,
    pub(crate) starters: Vec<u64>,
    pub(crate) lines: Vec<Vec<i64>>,
}

/// Replays entries. An entry that started a fragment is counted from 1.
pub(crate) fn led_by(alloc: Global, code: &Code, entries: &[Entry]) -> Result<Led, Halt>
    ensures stands { IfOk result (λ led. StandsForEntries fragment_meaning code.now entries.now
        (record { cells = led.replay.cells.entries; members = led.replay.members.entries; output = led.replay.output.items; next = led.replay.next })) }
    ensures begun { IfOk result (λ led. spec.TellsBegun code.now entries.now led.begun.entries) }
    ensures all { IfOk result (λ led. spec.TellsAllBegun code.now entries.now (length led.starters.items) led.begun.entries) }
    ensures starters { IfOk result (λ led. (fragment : ℕ)
        → starter_in led.starters.items fragment ≡ starter_of (program_of code.now) entries.now fragment) }
    ensures lines { IfOk result (λ led. map (λ v. v.items) led.lines.items ≡ lines_of (program_of code.now) entries.now) }
    ensures halted { IfErr result (IsHalted (program_of code.now) entries.now) }
{
    let mut replay: Replay<Fragment> = Replay::start(alloc, code)?;
    let mut begun = BTreeMap::new(alloc);
    let mut starters = Vec::new(alloc);
    let mut lines = Vec::new(alloc);
    for (index, entry) in entries.iter().enumerate() {
        let first = replay.next;
        let printed = replay.output.as_slice().len();
        let number = index as u64 + 1;
        if let Err(error) = replay.make(alloc, code, entry) {
            return Err(error.at(number));
        }
        note_begun(&mut begun, &replay, first)?;
        note_started(&mut starters, replay.next, number)?;
        note_lines(&mut lines, replay.output.as_slice(), printed)?;
    }
    Ok(Led {
        replay,
        begun,
        starters,
        lines,
    })
}

/// Replays entries, if they are those of a run.
pub(crate) fn led_if_run(
    alloc: Global,
    code: &Code,
    entries: &[Entry],
) -> Result<Option<Led>, NoMemory>
    ensures stands { IfOk result (λ told. IfSome told (λ led. StandsForEntries fragment_meaning code.now entries.now
        (record { cells = led.replay.cells.entries; members = led.replay.members.entries; output = led.replay.output.items; next = led.replay.next }))) }
    ensures begun { IfOk result (λ told. IfSome told (λ led. spec.TellsBegun code.now entries.now led.begun.entries)) }
    ensures none { IfOk result (λ told. IfNone told (HasFault (program_of code.now) entries.now)) }
{
    match led_by(alloc, code, entries) {
        Ok(led) => Ok(Some(led)),
        Err(Halt::Undefined(_, _)) => Ok(None),
        Err(Halt::Tall(_)) => Ok(None),
        Err(Halt::NoMemory) => Err(NoMemory),
    }
}

/// Appends the integers after the first `known`.
fn note_lines(lines: &mut Vec<Vec<i64>>, printed: &[i64], known: usize) -> Result<(), NoMemory>
    ensures { OnOk result (map (λ v. v.items) lines.new.items ≡ map (λ v. v.items) lines.old.items ++ drop known printed.now ∷ []) }
{
    let line = Vec::from_slice(*lines.allocator(), behind(printed, known))?;
    lines.push(line)?;
    Ok(())
}

/// Returns the integers after the first `count`.
fn behind(printed: &[i64], count: usize) -> &[i64]
    ensures { result.now ≡ drop count printed.now }
{
    if count <= printed.len() {
        printed.split_at(count).1
    } else {
        &[]
    }
}

/// Appends an entry for each fragment below a number that has none.
fn note_started(starters: &mut Vec<u64>, next: u64, number: u64) -> Result<(), NoMemory>
    ensures { OnOk result (starters.new.items ≡ with_starter number next starters.old.items) }
{
    let known = starters.len() as u64 + 1;
    for _ in 0..next.saturating_sub(known) {
        starters.push(number)?;
    }
    Ok(())
}

/// Notes the beginnings of the tasks that have the numbers from this one on.
fn note_begun(
    begun: &mut BTreeMap<u64, NodeNo>,
    replay: &Replay<Fragment>,
    first: u64,
) -> Result<(), NoMemory>
    ensures begun { OnOk result (spec.NotesBegun replay.now.members.entries begun.old.entries begun.new.entries) }
    ensures keeps { OnOk result (spec.KeepsNotes begun.old.entries begun.new.entries) }
    ensures all { OnOk result (spec.NotesAll first replay.now.next replay.now.members.entries begun.new.entries) }
{
    for number in first..replay.next {
        note_one(begun, replay, number)?;
    }
    Ok(())
}

/// Notes the beginning of one of them, if it is seen.
fn note_one(
    begun: &mut BTreeMap<u64, NodeNo>,
    replay: &Replay<Fragment>,
    number: u64,
) -> Result<(), NoMemory>
    ensures begun { OnOk result (spec.NotesBegun replay.now.members.entries begun.old.entries begun.new.entries) }
    ensures keeps { OnOk result (spec.KeepsNotes begun.old.entries begun.new.entries) }
    ensures noted { OnOk result (spec.NotesOne replay.now.members.entries number begun.new.entries) }
{
    match beginning_of(replay, number) {
        Some(node) => {
            begun.insert(number, node)?;
            Ok(())
        }
        None => Ok(()),
    }
}

/// Returns the node at which a fragment begins, before it runs.
fn beginning_of(replay: &Replay<Fragment>, number: u64) -> Option<NodeNo>
    ensures seen { IfSome result (spec.SeenBegun replay.now.members.entries number) }
    ensures value { result ≡ spec.beginning_in replay.now.members.entries number }
{
    match replay.members.get(&number) {
        Some(fragment) => start_of(fragment),
        None => None,
    }
}

/// Returns the node at which a fragment starts that hasn't begun to run.
fn start_of(fragment: &Fragment) -> Option<NodeNo>
    ensures value { result ≡ spec.start_of fragment.now }
    ensures begins { (code : FlatCode) → IsFragmentOf code fragment.now → IfSome result (λ node. BeginsAt code (stage_of code fragment.now).term node.0) }
{
    match fragment {
        Fragment::Fresh(_) => fragment.place(),
        Fragment::Going(_) => None,
    }
}

/// Returns the body of an `async` form.
fn async_body(node: &Node) -> Option<u32>
    ensures { result ≡ spec.async_body node.now.shape }
{
    match &node.shape {
        Shape::Async(body, _) => Some(body.0),
        _ => None,
    }
}

/// Returns the `async` form with this body. The form comes after its body.
fn async_of(code: &Code, body: NodeNo) -> Option<NodeNo>
    ensures form { IfSome result (λ form. spec.IsAsyncOf code.now body form × (form.0 ≡ body.0 + 1)) }
    ensures none { result ≡ None → (form : NodeNo) → form.0 ≡ body.0 + 1 → spec.IsAsyncOf code.now body form → ⊥ }
{
    if body.0 >= code.len().saturating_sub(1) {
        return None;
    }
    let form = NodeNo(body.0 + 1);
    let node = code.node(form);
    let Some(inner) = async_body(node) else {
        return None;
    };
    if inner != body.0 {
        return None;
    }
    Some(form)
}

/// Returns the place of the `async` form that started a task, if it is known.
pub(crate) fn started_position(
    lines: &LineIndex,
    code: &Code,
    numbers: &[u32],
    begun: &BTreeMap<u64, NodeNo>,
    number: u64,
) -> Option<Position>
    requires { numbers.now ≡ read_numbers 0 (program_of code.now) }
    ensures there { IfSome result (λ there. (entries : List Entry) → spec.TellsBegun code.now entries begun.now.entries
        → spec.IsStartedAt lines.now.text.now code.now entries number there) }
    ensures hidden { result ≡ None → spec.HidesForm lines.now.text.now code.now begun.now.entries number }
{
    let body = *begun.get(&number)?;
    form_position(lines, code, numbers, body)
}

/// Returns the place of the `async` form with this body.
fn form_position(lines: &LineIndex, code: &Code, numbers: &[u32], body: NodeNo) -> Option<Position>
    requires { numbers.now ≡ read_numbers 0 (program_of code.now) }
    ensures there { IfSome result (spec.IsAsyncFormAt lines.now.text.now code.now body) }
    ensures hidden { result ≡ None → spec.IsFormless lines.now.text.now code.now body }
{
    let form = async_of(code, body)?;
    let place = node_place(code, numbers, form)?;
    position_in(lines, place)
}
