//! The members that may go on, and the one that a number draws.

ghost use Rattle.std.specs.Prelude.{◌≡◌, ◌<◌, ◌%◌, length, Some, option_map, slice_index_or, Contains, IfOk};
ghost use Rattle.std.specs.BTreeSet.{contains};
ghost use Rattle.std.specs.Ordering.{nat_cmp};
ghost use Rattle.ame_term.specs.View.{tree_of};
ghost use Rattle.ame_gen.specs.Stream.{next};
ghost use Rattle.ame_weak.specs.View.{weak_of};
ghost use Rattle.ame_runner.specs.Choices.{is_term_inside, goes_free, is_candidate, candidates};

use ame_gen::Numbers;
use ame_strong::Next;
use ame_term::{NoMemory, Split, Term, push, split};
use ame_weak::WeakState;
use std::alloc::Global;
use std::collections::BTreeSet;

/// Returns the members that may go on, in order of their numbers, if the given members are put aside. Costs a look at
/// the next step of every member.
#[tactic(auto, using(crate::proofs::ChoiceLemmas::one_number))]
pub fn candidates(
    alloc: Global,
    state: &WeakState,
    aside: &BTreeSet<u64>,
) -> Result<Vec<u64>, NoMemory>
    ensures { IfOk result (λ numbers. numbers.items ≡ candidates (weak_of state.now) (contains nat_cmp aside.now)) }
{
    let mut numbers = Vec::new(alloc);
    for number in 0..state.next() {
        if is_candidate(state, aside, number) {
            push(&mut numbers, number)?;
        }
    }
    Ok(numbers)
}

/// Draws the next number of the stream and returns one of the candidates: the number counts along them, round and round.
pub fn drawn(numbers: &mut Numbers, candidates: &[u64]) -> u64
    requires { 0 < length candidates.now }
    ensures one { Contains candidates.now result }
    ensures place { result ≡ slice_index_or candidates.now (next numbers.old % length candidates.now) 0 }
    ensures stream { numbers.new ≡ next numbers.old }
{
    let place = numbers.draw() as usize % candidates.len();
    candidates[place]
}

/// Returns whether a member may go on.
fn is_candidate(state: &WeakState, aside: &BTreeSet<u64>, number: u64) -> bool
    ensures { result ≡ is_candidate (weak_of state.now) (contains nat_cmp aside.now) number }
{
    match state.active() {
        Some(active) => active == number || goes_free(state, number),
        None => {
            state.member(number).is_some() && (goes_free(state, number) || !aside.contains(&number))
        }
    }
}

/// Returns whether a member of the pool goes on without becoming active.
pub(crate) fn goes_free(state: &WeakState, number: u64) -> bool
    ensures { result ≡ goes_free (weak_of state.now) number }
{
    let inside = is_term_inside(state.member(number));
    match state.next_of(Some(number)) {
        Next::Close => true,
        Next::Nothing | Next::Value | Next::Leave | Next::Stuck => false,
        Next::Peek => inside && state.active().is_none(),
        _ => inside,
    }
}

/// Returns whether a term stands under `unprotected`.
fn is_term_inside(term: Option<&Term>) -> bool
    ensures { result ≡ is_term_inside (option_map (λ t. tree_of t.now) term.entry) }
{
    match term {
        Some(term) => is_inside(term),
        None => false,
    }
}

/// Returns whether the next step of a term is under `unprotected`.
fn is_inside(term: &Term) -> bool
    ensures { result ≡ is_term_inside (Some (tree_of term.now)) }
{
    match split(term) {
        Split::Redex { inside, .. } => inside,
        Split::Value(_) => false,
    }
}
