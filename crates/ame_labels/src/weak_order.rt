//! The labels of a weak run, in the order in which they were made.

ghost use Rattle.std.specs.Prelude.{◌≡◌, ◌<◌, ◌+◌, ◌^◌, IfOk, IfSome, IfNone, OnOk, Err, None, get_or};
ghost use Rattle.ame_term.specs.View.{tree_of};
ghost use Rattle.ame_print.specs.Printer.{spelling_of};
ghost use Rattle.ame_weak.specs.Weak.{weak_after, weak_run, weak_start};
ghost use Rattle.ame_weak.specs.View.{weak_of};
ghost use Rattle.ame_labels.specs.WeakOrder as spec;
ghost use Rattle.ame_labels.specs.WeakOrder.{weak_heading, NoneIsNext, TellsOrder};
ghost use Rattle.ame_labels.specs.Orders.{TellsOne, TellsTries, TellsAll};

use crate::weak_row::{append_before, append_behind, append_try};
use ame_page::Page;
use ame_strong::StepFail;
use ame_term::{Label, NoMemory, Program};
use ame_weak::{Try, WeakState};
use std::alloc::Global;

/// A weak state, and the rows that led to it.
#[derive(Drop)]
pub(crate) struct Order {
    pub(crate) state: WeakState,
    pub(crate) names: Vec<Vec<u8>>,
    /// The entry of each label.
    pub(crate) numbers: Vec<u64>,
    pub(crate) page: Page,
    /// The number of entries that the labels and tries so far have.
    pub(crate) entries: u64,
}

/// Returns the labels of a weak run of a program, a row each: the label's entry by these numbers, its member, its reduction, and the location that
/// it touches with its value at that time. A try stands after the labels after which it was made; the list has the tries in that order.
/// None if the labels aren't legal. Costs as much as the labels' steps.
pub fn weak_order_of(
    alloc: Global,
    program: Program,
    labels: &[Label],
    numbers: Vec<u64>,
    tries: &[Try],
) -> Result<Option<Vec<u8>>, NoMemory>
    ensures told { IfOk result (λ told. IfSome told (λ page. TellsOrder (spelling_of program.names.items) numbers.items
        (weak_start (tree_of program.term)) tries.now labels.now page.items)) }
    ensures illegal { IfOk result (λ told. IfNone told (weak_run (weak_start (tree_of program.term)) labels.now ≡ None)) }
{
    let mut order = Order {
        state: WeakState::start(alloc, program.term)?,
        names: program.names,
        numbers,
        page: heading(alloc)?,
        entries: 0,
    };
    match order.tell_all(alloc, labels, tries) {
        Ok(()) => Ok(Some(order.page.into_bytes())),
        Err(StepFail::Illegal) => Ok(None),
        Err(StepFail::NoMemory) => Err(NoMemory),
    }
}

/// Returns a page with the line that names the columns.
fn heading(alloc: Global) -> Result<Page, NoMemory>
    ensures { IfOk result (λ page. page ≡ weak_heading) }
{
    let mut page = Page::new(alloc);
    page.add(b"label  entry      task   protected code        unprotected code\n")?;
    Ok(page)
}

impl Order {
    /// Makes labels and adds their rows, with those of tries.
    fn tell_all(&mut self, alloc: Global, labels: &[Label], tries: &[Try]) -> Result<(), StepFail>
        requires empty { self.old.page ≡ weak_heading }
        requires none { self.old.entries ≡ 0 }
        ensures told { OnOk result (TellsAll labels.now tries.now self.old self.new) }
        ensures illegal { result ≡ Err StepFail.Illegal → weak_run (weak_of self.old.state) labels.now ≡ None }
    {
        let mut rest = tries;
        for (index, label) in labels.iter().enumerate() {
            rest = self.tell_tries(rest, index as u64)?;
            self.tell(alloc, index, *label)?;
        }
        let _later = self.tell_tries(rest, labels.len() as u64)?;
        Ok(())
    }

    /// Appends the rows of the tries that were made after n labels, and returns the later tries.
    #[tactic(auto, using(crate::proofs::OrderLemmas::no_tries))]
    fn tell_tries<'a>(&mut self, tries: &'a [Try], n: u64) -> Result<&'a [Try], NoMemory>
        ensures told { IfOk result (λ rest. TellsTries n tries.now rest.now self.old self.new) }
        ensures later { IfOk result (λ rest. NoneIsNext n rest.now) }
    {
        let mut rest = tries;
        while let Some((t, others)) = rest.split_first() {
            if t.after != n {
                break;
            }
            self.entries = self.entries.checked_add(1).ok_or(NoMemory)?;
            append_try(&mut self.page, self.entries, t)?;
            rest = others;
        }
        Ok(rest)
    }

    /// Makes the label with this index, if it is legal, and adds its row.
    #[tactic(auto, using(crate::proofs::OrderLemmas::told_row))]
    fn tell(&mut self, alloc: Global, index: usize, label: Label) -> Result<(), StepFail>
        requires { index + 1 < 2 ^ 64 }
        ensures told { OnOk result (TellsOne index label self.old self.new) }
        ensures illegal { result ≡ Err StepFail.Illegal → weak_after (weak_of self.old.state) label ≡ None }
    {
        if !self.state.has_room() {
            return Err(StepFail::NoMemory);
        }
        let number = index as u64 + 1;
        let entry = number_at(&self.numbers, index);
        let touched = append_before(&mut self.page, &self.state, number, entry, label)?;
        self.state.step(alloc, &label)?;
        append_behind(alloc, &mut self.page, &self.names, &self.state, touched)?;
        self.entries = entries_after(label, entry, self.entries);
        Ok(())
    }
}

/// Returns the entry of the label with this index; 0 if there are fewer labels.
fn number_at(numbers: &[u64], index: usize) -> u64
    ensures { result ≡ get_or numbers.now index 0 }
{
    match numbers.get(index) {
        Some(number) => *number,
        None => 0,
    }
}

/// Returns how many entries there are after a label that goes into this entry.
fn entries_after(label: Label, entry: u64, entries: u64) -> u64
    ensures { result ≡ spec.entries_after label entry entries }
{
    match label {
        Label::Activate(_) | Label::Step(_) => entries,
        _ => entry,
    }
}
