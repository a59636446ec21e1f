//! A row: the logs of one seat.

ghost use Rattle.std.specs.Prelude.{◌≡◌, ◌-◌, ◌<◌, ◌∷◌, ◌++◌, ◌↔◌, [], length, All, IsNone, IfNone, IfSome, OnOk};
ghost use Rattle.ame_rows.specs.Log.{HasPlaces, Keeps, empty};
ghost use Rattle.ame_rows.specs.Valid.{IsValid, IsFirstBad};

use crate::notes::{Bad, ReadNote, Undo};
use ame_store::Store;
use ame_term::{Loc, NoMemory};
use ame_trace::Trace;
use std::alloc::Global;
use std::marker::Model;

/// The reads of a seat, the inputs that it was given, and the entries that undo its writes, each in its order. Contracts see a record of
/// these lists, and of the places that are free in those that are kept: only contracts see the inputs. Only `room` takes memory, and
/// only `valid` and `clear` take longer for longer logs.
#[derive(Drop)]
pub struct Row<V> {
    reads: Vec<ReadNote>,
    inputs: Trace<V>,
    undos: Vec<Undo<V>>,
}

impl<V> Model for Row<V> {
    ghost use Rattle.std.specs.Prelude.{◌-◌, vec_len, vec_capacity};
    ghost use Rattle.ame_rows.specs.Log.{RoomyLog};

    ghost Value = { RoomyLog V };

    ghost view = { λ r. record {
      reads = r.reads.items;
      inputs = r.inputs;
      undos = r.undos.items;
      room = record {
        reads = vec_capacity r.reads - vec_len r.reads;
        undos = vec_capacity r.undos - vec_len r.undos;
      };
    } };
}

impl<V> Row<V> {
    /// Makes empty logs, without memory.
    pub fn new(alloc: Global) -> Row<V>
        ensures { result ≡ empty result.room }
    {
        Row {
            reads: Vec::new(alloc),
            inputs: Trace::new(),
            undos: Vec::new(alloc),
        }
    }

    /// Makes a place in each log that is kept. If there is no memory for one, the places in others may have been made.
    pub fn room(&mut self) -> Result<(), NoMemory>
        ensures logs { self.new ≡ record self.old { room = self.new.room } }
        ensures keeps { Keeps self.old.room self.new.room }
        ensures ok { OnOk result (HasPlaces self.new.room) }
    {
        self.reads.reserve(1)?;
        self.undos.reserve(1)?;
        Ok(())
    }

    /// Logs a read, whose value is the next input.
    pub fn note_read(&mut self, loc: Loc, number: u64, input: &V)
        requires { 0 < self.old.room.reads }
        ensures { self.new ≡ record self.old {
          reads = self.old.reads ++ record { loc = loc; number = number } ∷ [];
          inputs = self.old.inputs ++ input.now ∷ [];
          room = record self.old.room { reads = self.old.room.reads - 1 };
        } }
    {
        self.reads.push_reserved(ReadNote { loc, number });
        self.inputs.push(input);
    }

    /// Adds an input that needs no read of the log.
    pub fn note_input(&mut self, input: &V)
        ensures { self.new ≡ record self.old { inputs = self.old.inputs ++ input.now ∷ [] } }
    {
        self.inputs.push(input);
    }

    /// Logs how to undo a write or a new cell.
    pub fn note_write(&mut self, undo: Undo<V>)
        requires { 0 < self.old.room.undos }
        ensures { self.new ≡ record self.old {
          undos = self.old.undos ++ undo ∷ [];
          room = record self.old.room { undos = self.old.room.undos - 1 };
        } }
    {
        self.undos.push_reserved(undo);
    }

    /// Returns whether each logged read is valid; otherwise the first that isn't.
    pub fn valid(&self, seat: u32, store: &Store<V>) -> Option<Bad>
        requires { All (λ note. note.loc.0 < length store.now) self.now.reads }
        ensures valid { IsNone result ↔ IsValid store.now seat self.now.reads }
        ensures bad { IfSome result (IsFirstBad store.now seat self.now.reads) }
    {
        for note in &self.reads {
            let cell = store.cell(note.loc);
            if !note.is_valid(seat, cell) {
                return Some(Bad {
                    loc: note.loc,
                    read: note.number,
                    now: cell.number,
                });
            }
        }
        None
    }

    /// Takes the last entry out of the undo log.
    pub fn pop_undo(&mut self) -> Option<Undo<V>>
        ensures none { IsNone result ↔ (self.old.undos ≡ []) }
        ensures last { IfSome result (λ undo. self.old.undos ≡ self.new.undos ++ undo ∷ []) }
        ensures same { IfNone result (self.new ≡ self.old) }
        ensures others { self.new ≡ record self.old { undos = self.new.undos; room = self.new.room } }
        ensures keeps { Keeps self.old.room self.new.room }
    {
        self.undos.pop()
    }

    /// Returns the read log.
    pub fn reads(&self) -> &[ReadNote]
        ensures { result.now ≡ self.now.reads }
    {
        self.reads.as_slice()
    }

    /// Returns the undo log.
    pub fn undos(&self) -> &[Undo<V>]
        ensures { result.now ≡ self.now.undos }
    {
        self.undos.as_slice()
    }

    /// Empties the logs and the inputs.
    pub fn clear(&mut self)
    where
        V: Drop,
        ensures empty { self.new ≡ empty self.new.room }
        ensures keeps { Keeps self.old.room self.new.room }
    {
        self.reads.clear();
        self.inputs = Trace::new();
        self.undos.clear();
    }
}
