//! A queue of numbers, in which a number that leaves makes a gap.

ghost use Rattle.std.specs.Prelude.{◌≡◌, ◌+◌, ◌<◌, ◌≤◌, ◌==◌, ◌^◌, true, [], ◌∷◌, ◌++◌, length, position, count_by, OnOk, IfSome, IfNone};
ghost use Rattle.std.specs.VecDeque.{deque_len, deque_capacity};
ghost use Rattle.ame_pool.specs.Queue.{numbers_in, is_of, starts_with_gap, StartsFull, IsPlaceOf};
ghost use Rattle.ame_pool.specs.Queues.{front};
ghost use Rattle.ame_pool.specs.Calls.{skipping};

use ame_term::NoMemory;
use std::alloc::Global;
use std::collections::VecDeque;
use std::marker::Model;

/// A number, or the gap that one left. Tickets rise along the queue.
#[derive(Clone, Copy)]
pub struct QueueEntry {
    ticket: u64,
    number: Option<u64>,
}

/// Numbers from the oldest on. The ticket of a number's entry is remembered at its seat, so that none looks through the queue
/// for it. Tickets show the first place to look at, and no more.
#[derive(Drop)]
pub struct Queue {
    entries: VecDeque<QueueEntry>,
    /// The number of entries that are no gaps.
    len: usize,
    next_ticket: u64,
    tickets: Vec<u64>,
}

impl Model for Queue {
    ghost use Rattle.std.specs.VecDeque.{deque_capacity};
    ghost use Rattle.ame_pool.specs.Queue.{QueueView, numbers_in, IsQueue};

    ghost Value = { QueueView };

    ghost view = { λ a. record { list = numbers_in a.entries.items; places = deque_capacity a.entries } };

    ghost invariant = { λ a. IsQueue a.entries.items a.len };
}

impl QueueEntry {
    fn is_gap(&self) -> bool
        ensures { result ≡ is_gap self.now }
    {
        self.number.is_none()
    }

    fn is_of(&self, number: u64) -> bool
        ensures { result ≡ is_of number self.now }
    {
        match self.number {
            Some(n) => n == number,
            None => false,
        }
    }

    ghost use Rattle.ame_pool.specs.Queue.{is_gap, is_of};
}

/// Returns the ticket of a seat.
fn ticket_at(tickets: &Vec<u64>, seat: usize) -> u64 {
    match tickets.get(seat) {
        Some(ticket) => *ticket,
        None => 0,
    }
}

fn write_down(tickets: &mut Vec<u64>, seat: usize, ticket: u64) {
    if let Some(place) = tickets.get_mut(seat) {
        *place = ticket;
    }
}

/// Returns the first place of a number.
fn look_through(entries: &VecDeque<QueueEntry>, number: u64) -> Option<usize>
    ensures { result ≡ position (is_of number) entries.now.items }
{
    entries.iter().position(|e| e.is_of(number))
}

/// Returns the place of a number, if its entry has this ticket.
fn place_at(entries: &VecDeque<QueueEntry>, number: u64, ticket: u64) -> Option<usize>
    ensures { IfSome result (IsPlaceOf number entries.now.items) }
{
    match entries.binary_search_by_key(&ticket, |e| e.ticket) {
        Ok(place) => {
            if entries[place].is_of(number) {
                Some(place)
            } else {
                None
            }
        }
        Err(_) => None,
    }
}

/// Returns whether a number stands first.
fn is_first(entries: &VecDeque<QueueEntry>, number: u64) -> bool
    ensures { result ≡ true → IsPlaceOf number entries.now.items 0 }
{
    if entries.is_empty() {
        return false;
    }
    entries[0].is_of(number)
}

/// Returns the place of a number. Mostly it stands first, and otherwise it is found by a search with its ticket.
fn place_of(entries: &VecDeque<QueueEntry>, number: u64, ticket: u64) -> Option<usize>
    ensures some { IfSome result (IsPlaceOf number entries.now.items) }
    ensures none { IfNone result (count_by (λ n. n == number) (numbers_in entries.now.items) ≡ 0) }
{
    if is_first(entries, number) {
        return Some(0);
    }
    match place_at(entries, number, ticket) {
        Some(place) => Some(place),
        None => look_through(entries, number),
    }
}

/// Drops the gaps that stand first.
fn trim(entries: &mut VecDeque<QueueEntry>)
    ensures list { numbers_in entries.new.items ≡ numbers_in entries.old.items }
    ensures starts { StartsFull entries.new.items }
    ensures capacity { deque_capacity entries.new ≡ deque_capacity entries.old }
{
    while starts_with_gap(entries) {
        entries.pop_front();
    }
}

fn starts_with_gap(entries: &VecDeque<QueueEntry>) -> bool
    ensures { result ≡ starts_with_gap entries.now.items }
{
    match entries.front() {
        Some(entry) => entry.is_gap(),
        None => false,
    }
}

/// Drops all gaps.
fn pack(entries: &mut VecDeque<QueueEntry>)
    ensures list { numbers_in entries.new.items ≡ numbers_in entries.old.items }
    ensures starts { StartsFull entries.new.items }
    ensures len { deque_len entries.new ≡ length (numbers_in entries.old.items) }
    ensures capacity { deque_capacity entries.new ≡ deque_capacity entries.old }
{
    entries.retain(|e| !e.is_gap());
}

/// Drops the gaps, if they are more than half of all entries.
fn drop_gaps(entries: &mut VecDeque<QueueEntry>, len: usize)
    requires { StartsFull entries.old.items }
    ensures list { numbers_in entries.new.items ≡ numbers_in entries.old.items }
    ensures starts { StartsFull entries.new.items }
    ensures capacity { deque_capacity entries.new ≡ deque_capacity entries.old }
{
    if entries.len() / 2 > len {
        pack(entries);
    }
}

/// Drops the gaps, if no place is left.
fn free_place(entries: &mut VecDeque<QueueEntry>)
    requires starts { StartsFull entries.old.items }
    requires place { length (numbers_in entries.old.items) < deque_capacity entries.old }
    ensures list { numbers_in entries.new.items ≡ numbers_in entries.old.items }
    ensures starts { StartsFull entries.new.items }
    ensures place { deque_len entries.new < deque_capacity entries.new }
    ensures capacity { deque_capacity entries.new ≡ deque_capacity entries.old }
{
    if entries.len() == entries.capacity() {
        pack(entries);
    }
}

impl Queue {
    /// Makes a queue without numbers. It takes no memory.
    pub fn new(alloc: Global) -> Queue
        ensures list { result.list ≡ [] }
        ensures small { result.places < 2 ^ 63 }
    {
        Queue {
            entries: VecDeque::new(alloc),
            len: 0,
            next_ticket: 0,
            tickets: Vec::new(alloc),
        }
    }

    /// Returns the number of numbers.
    pub fn len(&self) -> usize
        ensures { result ≡ length self.now.list }
    {
        self.len
    }

    /// Makes room for this many numbers more, and for as many gaps.
    pub fn room(&mut self, more: usize) -> Result<(), NoMemory>
        ensures list { self.new.list ≡ self.old.list }
        ensures grows { self.old.places ≤ self.new.places }
        ensures small { self.new.places < 2 ^ 63 }
        ensures ok { OnOk result (length self.old.list + more ≤ self.new.places) }
    {
        drop_gaps(&mut self.entries, self.len);
        let wanted = self.len.saturating_add(more).saturating_add(more);
        self.entries.reserve(wanted)?;
        let seats = self.entries.capacity();
        if self.tickets.len() < seats {
            self.tickets.resize(seats, 0)?;
        }
        Ok(())
    }

    /// Adds the youngest number, at a seat.
    pub fn push(&mut self, number: u64, seat: usize)
        requires { length self.old.list < self.old.places }
        ensures { self.new ≡ record self.old { list = self.old.list ++ number ∷ [] } }
    {
        let ticket = self.next_ticket;
        self.next_ticket = ticket.wrapping_add(1);
        write_down(&mut self.tickets, seat, ticket);
        free_place(&mut self.entries);
        self.entries.push_back_reserved(QueueEntry {
            ticket,
            number: Some(number),
        });
        self.len += 1;
    }

    /// Takes a number from its seat.
    pub fn take(&mut self, number: u64, seat: usize)
        requires { count_by (λ n. n == number) self.old.list ≤ 1 }
        ensures { self.new ≡ record self.old { list = skipping number self.old.list } }
    {
        let ticket = ticket_at(&self.tickets, seat);
        if let Some(place) = place_of(&self.entries, number, ticket) {
            self.entries[place].number = None;
            trim(&mut self.entries);
            self.len -= 1;
        }
    }

    /// Returns the oldest number, if there is any.
    pub fn first(&self) -> Option<u64>
        ensures { result ≡ front self.now.list }
    {
        match self.entries.front() {
            Some(entry) => entry.number,
            None => None,
        }
    }
}
